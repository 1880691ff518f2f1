//! Collecting a reply.

ghost use Rattle.std.specs.Prelude.{◌≡◌, ◌↔◌, ◌≤◌, ◌<◌, ◌+◌, [], ◌∷◌, true, length, IfOk, IfErr, IsTrue, List};
ghost use mathlib.Core.List.{IsPrefix};
ghost use Rattle.arb_model.specs.History.{IsLegal};
ghost use Rattle.arb_client.specs.declared.client.OpenOrder.{OpenOrder};
ghost use Rattle.arb_client.specs.Collecting.{Collects, ComesTo, Misses, is_strange};
ghost use Rattle.arb_client.specs.Sides.{own_entry};

use crate::client::{Client, OpenOrder};
use crate::faults::CollectFault;
use arb_desk::{Admission, Answer};
use arb_model::{ClientId, Entry, Reply};
use arb_page::Set;
use std::sync::Wait;

impl<K: Set> Client<K> {
    /// Waits for the reply to the oldest open order.
    ///
    /// # Errors
    /// As [`CollectFault`] says.
    pub fn collect<R: Wait>(&mut self, rt: &R) -> Result<Reply, CollectFault>
        ensures reply { IfOk result (λ reply. Collects K.machine self.old self.new reply) }
        ensures missed { IfErr result (λ fault. Misses K.machine self.old self.new fault) }
        ensures later { IsPrefix self.old.seen self.new.seen }
        ensures legal { IsLegal K.machine self.new.seen }
        ensures same { self.new.id ≡ self.old.id }
        ensures queue { self.new.queue ≡ self.old.queue }
    {
        if self.out.is_empty() {
            return Err(CollectFault::NothingOut);
        }
        let Some(answer) = self.answers.recv(rt) else {
            return Err(self.shut(CollectFault::Gone));
        };
        self.take_answer(answer)
    }

    /// What an answer comes to, where an order is open: all of `collect` but the wait for it.
    fn take_answer(&mut self, answer: Answer<K>) -> Result<Reply, CollectFault>
        requires open { 0 < length self.old.out }
        ensures comes { (asked : OpenOrder) (rest : List OpenOrder) → self.old.out ≡ asked ∷ rest
            → ComesTo self.old asked answer.admission result }
        ensures reply { IfOk result (λ reply. Collects K.machine self.old self.new reply) }
        ensures missed { IfErr result (λ fault. Misses K.machine self.old self.new fault) }
        ensures later { IsPrefix self.old.seen self.new.seen }
        ensures legal { IsLegal K.machine self.new.seen }
        ensures same { self.new.id ≡ self.old.id }
        ensures queue { self.new.queue ≡ self.old.queue }
    {
        let (admission, note) = answer.into_parts();
        let asked = self.out[0];
        match admission {
            Admission::Full(client, number) => {
                if !is_next(client, number, self.id, self.mine.as_slice().len()) {
                    return Err(self.shut(CollectFault::Stranger));
                }
                self.reader.learn(&self.desk.pages, note);
                self.out.remove(0);
                self.full = true;
                Err(CollectFault::Full)
            }
            Admission::Entered(entry, place) => {
                if !is_answer(&entry, place, self.id, self.mine.as_slice().len(), &asked) {
                    return Err(self.shut(CollectFault::Stranger));
                }
                self.reader.learn(&self.desk.pages, note);
                self.out.remove(0);
                self.mine.push_reserved((entry.order, entry.reply));
                Ok(entry.reply)
            }
        }
    }

    /// No order is open any more, and none is posted from now on. It hands the fault on.
    pub(crate) fn shut(&mut self, fault: CollectFault) -> CollectFault
        ensures fault { result ≡ fault }
        ensures shut { self.new ≡ record self.old { out = []; shut = true; strange = is_strange fault; room = self.old.room + length self.old.out } }
    {
        self.out.clear();
        self.shut = true;
        self.strange = matches!(fault, CollectFault::Stranger);
        fault
    }
}

/// Whether a client and a number are those of the next order of a client, which has this number.
fn is_next(client: ClientId, number: u32, id: ClientId, own: usize) -> bool
    ensures { IsTrue result ↔ (client ≡ id) × (number ≡ own) }
{
    client == id && number as usize == own
}

/// Whether an entry at a place answers an open order of a client, which has this number.
fn is_answer(entry: &Entry, place: u64, id: ClientId, number: usize, asked: &OpenOrder) -> bool
    ensures { IsTrue result ↔ (entry.now ≡ own_entry id number asked.now.order entry.now.reply) × (asked.now.orders_seen ≤ place) }
{
    entry.client == id
        && entry.number as usize == number
        && entry.order == asked.order
        && asked.orders_seen <= place
}
