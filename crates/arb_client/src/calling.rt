//! Whole calls: an order and its reply, and a wait for a core.

ghost use Rattle.std.specs.Prelude.{◌≡◌, [], IfOk, IfErr, IfSome, IfNone};
ghost use mathlib.Core.List.{IsPrefix};
ghost use Rattle.arb_model.specs.History.{IsLegal};
ghost use Rattle.arb_client.specs.Calling.{Answers, FailsCall};
ghost use Rattle.arb_client.specs.Sides.{LooksOn, SeesOn};
ghost use Rattle.arb_client.specs.Waiting.{EndsLook, EndsWatch, FailsWait, GoesOn, OnCore, ReadsCore};

use crate::client::Client;
use crate::faults::{CallFault, CollectFault, WaitFault};
use arb_model::{Order, Place, Reply};
use arb_page::{Patience, Set};
use std::sync::Wait;

impl<K: Set> Client<K> {
    /// Posts an order, again while the queue is full, and waits for its reply. No order may be open.
    ///
    /// # Errors
    /// What [`Client::post`] or [`Client::collect`] answers, but never `Busy`, `TooManyOut` or `NothingOut`.
    pub fn call<R: Wait>(&mut self, rt: &R, order: Order) -> Result<Reply, CallFault>
        requires { self.old.out ≡ [] }
        ensures reply { IfOk result (λ reply. Answers K.machine self.old self.new order reply) }
        ensures failed { IfErr result (λ fault. FailsCall K.machine self.old self.new order fault) }
        ensures out { self.new.out ≡ [] }
        ensures later { IsPrefix self.old.seen self.new.seen }
        ensures legal { IsLegal K.machine self.new.seen }
        ensures same { self.new.id ≡ self.old.id }
        ensures queue { self.new.queue ≡ self.old.queue }
    {
        match self.post_at_last(rt, &order) {
            Ok(()) => match self.collect(rt) {
                Ok(reply) => Ok(reply),
                Err(fault) => Err(CallFault::Collect(fault)),
            },
            Err(fault) => Err(CallFault::Post(fault)),
        }
    }

    /// Orders to block, and reads the thread's place until it no longer waits: some times at once, and then asleep until the
    /// place changes or the server ends. It answers the number of the core that the
    /// thread is then on. No order may be open.
    ///
    /// # Errors
    /// As [`WaitFault`] says.
    pub fn wait_for_core<R: Wait>(&mut self, rt: &R) -> Result<u16, WaitFault>
        requires { self.old.out ≡ [] }
        ensures core { IfOk result (λ core. OnCore K.machine self.old self.new core) }
        ensures failed { IfErr result (λ fault. FailsWait K.machine self.old self.new fault) }
        ensures out { self.new.out ≡ [] }
        ensures later { IsPrefix self.old.seen self.new.seen }
        ensures legal { IsLegal K.machine self.new.seen }
        ensures same { self.new.id ≡ self.old.id }
        ensures queue { self.new.queue ≡ self.old.queue }
    {
        match self.call(rt, Order::Block) {
            Ok(Reply::Refused(refusal)) => Err(WaitFault::Refused(refusal)),
            Ok(_) => self.watch(rt),
            Err(fault) => Err(WaitFault::Call(fault)),
        }
    }

    /// Reads the thread's place until it no longer waits, or until it waits though the server has ended.
    fn watch<R: Wait>(&mut self, rt: &R) -> Result<u16, WaitFault>
        requires { self.old.out ≡ [] }
        ensures core { IfOk result (λ core. ReadsCore K.machine self.new core) }
        ensures sees { IfOk result (λ _. LooksOn self.old self.new) }
        ensures failed { IfErr result (λ fault. EndsWatch K.machine self.old self.new fault) }
        ensures out { self.new.out ≡ [] }
        ensures later { IsPrefix self.old.seen self.new.seen }
        ensures legal { IsLegal K.machine self.new.seen }
        ensures same { self.new.id ≡ self.old.id }
        ensures queue { self.new.queue ≡ self.old.queue }
    {
        let mut patience = Patience::new();
        for _ in rt.forever() {
            // the flag before the place: an ended server posts no more, so a thread that waits then has no core to come
            self.look_for_end();
            if let Some(found) = self.look() {
                return found;
            }
            patience.rest(rt, self.desk.pages.bell(self.id));
        }
        unreachable!()
    }

    /// Reads the thread's place once. Gives what the wait comes to by that, or `None` where it goes on: exactly while the
    /// thread waits and the server hadn't ended when the client last looked.
    fn look(&mut self) -> Option<Result<u16, WaitFault>>
        requires { self.old.out ≡ [] }
        ensures core { IfSome result (λ found. IfOk found (λ core. ReadsCore K.machine self.new core × SeesOn self.old self.new)) }
        ensures failed { IfSome result (λ found. IfErr found (EndsLook K.machine self.old self.new)) }
        ensures goes_on { IfNone result (GoesOn K.machine self.old self.new) }
        ensures out { self.new.out ≡ [] }
        ensures later { IsPrefix self.old.seen self.new.seen }
        ensures legal { IsLegal K.machine self.new.seen }
        ensures same { self.new.id ≡ self.old.id }
        ensures queue { self.new.queue ≡ self.old.queue }
    {
        match self.place() {
            Place::On { core, asked: _ } => Some(Ok(core)),
            Place::Waiting if self.ended => {
                let gone = self.shut(CollectFault::Gone);
                Some(Err(WaitFault::Call(CallFault::Collect(gone))))
            }
            Place::Waiting => None,
            place => Some(Err(WaitFault::Lost(place))),
        }
    }
}
