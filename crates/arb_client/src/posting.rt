//! Putting an order into the queue.

ghost use Rattle.std.specs.Prelude.{◌≡◌, ◌≢◌, ◌<◌, ◌+◌, [], IfOk, IfErr, MatchBool, length};
ghost use mathlib.Core.List.{IsPrefix};
ghost use Rattle.arb_model.specs.History.{IsLegal};
ghost use Rattle.arb_client.specs.Posting.{Posts, Refuses, refusal_of, with_open};
ghost use Rattle.arb_client.specs.Sides.{GainsRoom, most_open};

use crate::client::{Client, MOST_OPEN, OpenOrder};
use crate::faults::PostFault;
use arb_desk::{Body, Message, put};
use arb_model::Order;
use arb_page::{Patience, Set};
use std::sync::Wait;

impl<K: Set> Client<K> {
    /// Posts an order: it is put into the queue, and is open until its reply is collected. One push.
    ///
    /// # Errors
    /// As [`PostFault`] says; then nothing was posted.
    pub fn post<R: Wait>(&mut self, rt: &R, order: Order) -> Result<(), PostFault>
        ensures posted { IfOk result (λ _. Posts self.old self.new order) }
        ensures refused { IfErr result (λ fault. Refuses self.old self.new fault) }
        ensures unposted { IfErr result (λ _. GainsRoom self.old self.new) }
        ensures unchanged { IfErr result (λ fault. fault ≢ PostFault.Busy → self.new ≡ record self.old { ended = self.new.ended }) }
        ensures one_load { IfOk result (λ _. self.new.steps ≡ self.old.steps + 1) }
        ensures busy_load { IfErr result (λ fault. fault ≡ PostFault.Busy → self.new.steps ≡ self.old.steps + 1) }
        ensures later { IsPrefix self.old.seen self.new.seen }
        ensures legal { IsLegal K.machine self.new.seen }
        ensures same { self.new.id ≡ self.old.id }
        ensures queue { self.new.queue ≡ self.old.queue }
    {
        self.look_for_end();
        if let Some(fault) = self.refusal() {
            return Err(fault);
        }
        if self.mine.reserve(self.out.len() + 1).is_err() {
            return Err(PostFault::Memory);
        }
        let orders_seen = self.reader.read(&self.desk.pages, 0);
        if self.put_order(rt, OpenOrder { order, orders_seen }) {
            Ok(())
        } else {
            Err(PostFault::Busy)
        }
    }

    /// Looks whether the server has ended.
    pub(crate) fn look_for_end(&mut self)
        ensures { self.new ≡ record self.old { ended = self.new.ended } }
    {
        self.ended = self.desk.has_ended();
    }

    /// Why no order may be posted, whatever memory and queue there are: the first fault that applies, by what
    /// it last saw of the server's end.
    fn refusal(&self) -> Option<PostFault>
        ensures { result ≡ refusal_of self.now }
    {
        if self.shut || self.ended {
            return Some(PostFault::Gone);
        }
        if self.full {
            return Some(PostFault::Full);
        }
        if self.out.len() >= MOST_OPEN {
            return Some(PostFault::TooManyOut);
        }
        None
    }

    /// Puts an order into the queue, to be open with the number that was read before. One push. It answers whether it was
    /// put. Nothing is read here.
    fn put_order<R: Wait>(&mut self, rt: &R, asked: OpenOrder) -> bool
        requires few { length self.old.out < most_open }
        requires room { 0 < self.old.room }
        ensures { MatchBool result (self.new ≡ with_open self.old asked) (self.new ≡ self.old) }
    {
        let message = Message {
            client: self.id,
            body: Body::Put(asked.order),
        };
        if !put(rt, &self.desk.orders, &mut self.pass, message) {
            return false;
        }
        self.desk.messages.ring();
        self.out.push_reserved(asked);
        true
    }

    /// Posts an order, again while the queue is full.
    pub(crate) fn post_at_last<R: Wait>(&mut self, rt: &R, order: &Order) -> Result<(), PostFault>
        ensures posted { IfOk result (λ _. Posts self.old self.new order.now) }
        ensures refused { IfErr result (Refuses self.old self.new) }
        ensures never_busy { IfErr result (λ fault. fault ≢ PostFault.Busy) }
        ensures unposted { IfErr result (λ _. GainsRoom self.old self.new) }
        ensures later { IsPrefix self.old.seen self.new.seen }
        ensures legal { IsLegal K.machine self.new.seen }
        ensures same { self.new.id ≡ self.old.id }
        ensures queue { self.new.queue ≡ self.old.queue }
    {
        let mut patience = Patience::new();
        for _ in rt.forever() {
            let answer = self.post(rt, *order);
            if answer != Err(PostFault::Busy) {
                patience.leave(&self.desk.room);
                return answer;
            }
            patience.rest_among(rt, &self.desk.room);
        }
        unreachable!()
    }
}
