//! How a client closes, and what it leaves.

ghost use Rattle.std.specs.Prelude.{◌≡◌, ◌≤◌, ◌+◌, [], true, false, length, vec_capacity, MatchBool};
ghost use Rattle.crossbeam_queue.specs.Passes.{IsPassOf, view};
ghost use Rattle.arb_desk.specs.Messages.{is_closed};
ghost use Rattle.arb_desk.specs.Passes.{IsPassAt, puts};
ghost use Rattle.arb_client.specs.Closing.{IsComplete, IsCut, Leaves, PutsMark};
ghost use Rattle.arb_client.specs.Sides.{close_mark};

use crate::client::Client;
use arb_desk::{Body, Desk, Message, OrderPass, Past, put};
use arb_model::ClientId;
use arb_page::{Patience, Set};
use std::sync::Wait;

impl<K: Set> Client<K> {
    /// Collects what is open, and then puts the close mark, again while the queue is full. Where the server is seen to have
    /// ended, it puts none. With the answered orders it leaves a point of the history in which they stand.
    ///
    /// It gives no order. So for the arbiter a thread on a core stays there until its application leaves or a tick moves it.
    /// One that waits goes on waiting, and may be given a core.
    pub fn close<R: Wait>(mut self, rt: &R) -> Past
        ensures client { result.client ≡ self.id }
        ensures leaves { Leaves K.machine self result }
        ensures mine { self.out ≡ [] → result.mine.items ≡ self.mine }
        ensures most { length result.mine.items ≤ length self.mine + length self.out }
        ensures room { vec_capacity result.mine ≡ length self.mine + length self.out + self.room }
        ensures put { PutsMark self result }
        ensures queue { IsPassAt self.queue result.pass }
        ensures table { result.point.table ≡ K.table }
        ensures whole { self.shut ≡ true → result.whole ≡ false }
        ensures cut { result.whole ≡ false → IsCut K.machine self result }
        ensures complete { result.whole ≡ true → IsComplete K.machine result }
    {
        while self.out() > 0 {
            let _reply = self.collect(rt);
        }
        let point = self.tell().into_point();
        let Client {
            id,
            desk,
            mut pass,
            reader: _,
            answers: _,
            mine,
            out: _,
            full: _,
            shut,
            strange: _,
            ended: _,
        } = self;
        let marked = put_mark(rt, &desk, &mut pass, id);
        Past {
            client: id,
            mine,
            whole: marked && !shut,
            pass,
            point,
        }
    }
}

/// Says that no order comes any more, and then puts the close mark, unless the server has ended. It answers whether it did.
fn put_mark<K: Set, R: Wait>(rt: &R, desk: &Desk<K>, pass: &mut OrderPass, id: ClientId) -> bool
    requires queue { IsPassOf desk.now.orders pass.old }
    requires own { ((view pass.old).is_client ≡ true) × ((view pass.old).client ≡ id) }
    requires unclosed { is_closed (view pass.old).put ≡ false }
    ensures queue { IsPassOf desk.now.orders pass.new }
    ensures put { MatchBool result (view pass.new ≡ puts (view pass.old) (close_mark id)) (view pass.new ≡ view pass.old) }
{
    desk.puts_no_more();
    let mut patience = Patience::new();
    for _ in rt.forever() {
        if desk.has_ended() {
            patience.leave(&desk.room);
            return false;
        }
        let mark = Message {
            client: id,
            body: Body::Close,
        };
        if put(rt, &desk.orders, pass, mark) {
            desk.messages.ring();
            patience.leave(&desk.room);
            return true;
        }
        patience.rest_among(rt, &desk.room);
    }
    unreachable!()
}
