//! Giving an order, however long another member has the lock.

ghost use Rattle.std.specs.Prelude.{◌≡◌, ◌+◌, false, true, length, IfNone, IfSome};
ghost use Rattle.arb_model.specs.History.{IsLegal, IsSettled, settled_from};
ghost use Rattle.arb_waiting.specs.Trying.{BeginsAtLast, MeetsLimit, StandsAtLast};

use crate::member::WaitingMember;
use crate::sleepers::Sleepers;
use arb_common::MemberOrTurn;
use arb_model::{ClientId, Order, Reply};
use arb_page::Patience;
use std::sync::Wait;

impl WaitingMember {
    /// Enters an order of a client, posts all words that it leaves stale, and wakes the threads that sleep on them. It gives the
    /// reply, or `None` where the limit on orders is reached. While another member has the lock it waits.
    pub fn give<R: Wait>(&mut self, rt: &R, client: ClientId, order: &Order) -> Option<Reply>
        ensures answered { IfSome result (λ reply. StandsAtLast self.old client order.now reply self.new) }
        ensures full { IfNone result (MeetsLimit self.old self.new) }
        ensures legal { IsLegal self.new.machine self.new.seen }
        ensures table { (self.new.table ≡ self.old.table) × (self.new.machine ≡ self.old.machine) }
    {
        begin_at_last(rt, &mut self.member, &self.sleepers);
        let reply = self.member.step(client, order);
        post_all(&mut self.member, &self.sleepers);
        self.member.end();
        self.sleepers.lock.wake_one();
        reply
    }
}

/// Takes the lock: some tries at once, and then asleep until one that has it gives it back.
fn begin_at_last<R: Wait>(rt: &R, member: &mut MemberOrTurn, sleepers: &Sleepers)
    requires free { member.old.in_turn ≡ false }
    ensures begins { BeginsAtLast member.old.side member.new.side }
    ensures turn { member.new.in_turn ≡ true }
{
    let mut patience = Patience::new();
    for _ in rt.forever() {
        if member.begin() {
            patience.leave(&sleepers.lock);
            return;
        }
        patience.rest_among(rt, &sleepers.lock);
    }
    unreachable!()
}

/// Posts the stale words one after another, and rings the bell of each after its store.
fn post_all(member: &mut MemberOrTurn, sleepers: &Sleepers)
    requires turn { member.old.in_turn ≡ true }
    ensures turn { member.new.in_turn ≡ true }
    ensures side { member.new.side ≡ record member.old.side { seen = member.new.side.seen; steps = member.new.side.steps } }
    ensures seen { member.new.side.seen ≡ settled_from member.old.side.machine member.old.side.seen }
    ensures settled { IsSettled member.old.side.machine member.new.side.seen }
    ensures legal { IsLegal member.old.side.machine member.new.side.seen }
    ensures steps { member.new.side.steps + length member.old.side.seen
        ≡ member.old.side.steps + length member.new.side.seen }
{
    while let Some((word, value)) = member.post() {
        sleepers.ring(word, value);
    }
}
