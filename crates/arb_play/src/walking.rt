//! One client's thread: its orders, in script order.

ghost use Rattle.std.specs.Prelude.{◌≡◌, ◌↔◌, ◌⊎◌, ◌+◌, ◌<◌, [], true, false, IfSome, IsTrue, MatchOption, None, Some, length, slice_get, unwrap_or, List};
ghost use Rattle.arb_house.specs.OwnPasts.{IsOwnPast};
ghost use Rattle.arb_script.specs.declared.given.ClientOrder.{ClientOrder};
ghost use Rattle.arb_play.specs.GivingUp.{IsAsked, MayBeGivenUp};
ghost use Rattle.arb_play.specs.OwnOrders.{IsIndexOf};
ghost use Rattle.arb_play.specs.Walking.{OwnLetThrough, Sound, Walked};

use crate::floor::{Floor, Visit};
use crate::gate::Gate;
use crate::let_through::LetThrough;
use crate::own_orders::OwnOrders;
use crate::start::{Begun, Start};
use arb_house::{CallFault, Client, CollectFault, Past, PostFault};
use arb_model::ClientId;
use arb_page::Set;
use arb_script::{ClientOrder, Script};
use std::snapshot::Snapshot;
use std::sync::Wait;
use std::thread::Promise;

/// What came of a client's orders so far.
#[derive(Clone, Copy, Drop)]
pub(crate) struct Account {
    /// The index of its first order that came past the limit.
    pub full_from: Option<usize>,
    /// Its first order that the gate gave up.
    pub gave_up: Option<usize>,
    /// Whether an order found no memory, or the client was closed to orders.
    pub lost: bool,
}

impl Account {
    /// Whether the client calls its next order: none was full or lost.
    fn calls_on(&self) -> bool
        ensures { IsTrue result ↔ (self.now.full_from ≡ None) × (self.now.lost ≡ false) }
    {
        self.full_from.is_none() && !self.lost
    }
}

/// What a client's thread leaves.
#[derive(Drop)]
pub(crate) struct Walk {
    /// What the client leaves.
    pub past: Past,
    /// The index in the script from which on its orders came past the limit.
    pub full_from: usize,
    /// Its first order that the gate gave up.
    pub gave_up: Option<usize>,
    /// Whether an order was lost.
    pub lost: bool,
    /// Whether the thread ended before its first order, since another one is missing.
    pub stopped: bool,
}

/// Where no order was given up or lost, the answered orders of a client are its orders before the first that came past
/// the limit. One that was given up is one that the gate may give up. And where the thread wasn't stopped, each of its
/// client's orders, or each before the one that was given up, is one that the gate may let through. Its past is one of the
/// client's house.
#[derive(Drop)]
pub(crate) struct Walks<'a, G: Gate, K: Set>(
    pub &'a Script,
    pub &'a G,
    pub ClientId,
    pub Snapshot<Client<K>>,
);

impl<'a, G: Gate, K: Set> Promise<Walk> for Walks<'a, G, K> {
    ghost use Rattle.arb_house.specs.OwnPasts.{IsOwnPast};
    ghost use Rattle.arb_play.specs.Walking.{Walked};

    ghost kept_by = { λ p r. Walked (G.may_give_up p.1.now) (G.may_let_through p.1.now) p.0.now p.2 r
        × IsOwnPast K.table K.machine p.3.value.queue r.past };
}

/// Calls, unless an earlier order of the client was full or lost. Only an order that was let through is called.
fn ask<K: Set, R: Wait>(
    rt: &R,
    _leave: LetThrough,
    client: &mut Client<K>,
    index: usize,
    given: ClientOrder,
    account: &mut Account,
)
    requires out { client.old.out ≡ [] }
    ensures out { client.new.out ≡ [] }
    ensures id { client.new.id ≡ client.old.id }
    ensures queue { client.new.queue ≡ client.old.queue }
    ensures gave_up { account.new.gave_up ≡ account.old.gave_up }

    // only an order of a client that is full counts as full; one that lost an order gives none
    ensures full { IfSome account.old.full_from (λ _. client.old.full ≡ true)
        → IfSome account.new.full_from (λ _. client.new.full ≡ true) }
    ensures still { account.old.lost ≡ true → client.new ≡ client.old }
    ensures sound { (script : List ClientOrder) → slice_get script index ≡ Some given → given.client ≡ client.old.id
        → Sound script index client.old.id client.old.mine account.old
        → Sound script (index + 1) client.old.id client.new.mine account.new }
{
    if !account.calls_on() {
        return;
    }
    match client.call(rt, given.order) {
        Ok(_) => {}
        Err(CallFault::Post(PostFault::Full)) => account.full_from = Some(index),
        Err(CallFault::Collect(CollectFault::Full)) => account.full_from = Some(index),
        Err(_) => account.lost = true,
    }
}

/// One of the client's orders: the gate, the call and the gate again. An order that isn't let through isn't posted.
fn step<K: Set, G: Gate, R: Wait>(
    rt: &R,
    begun: &Begun,
    gate: &G,
    client: &mut Client<K>,
    index: usize,
    given: ClientOrder,
    account: &mut Account,
)
    requires out { client.old.out ≡ [] }
    requires own { given.client ≡ client.old.id }
    ensures out { client.new.out ≡ [] }
    ensures id { client.new.id ≡ client.old.id }
    ensures queue { client.new.queue ≡ client.old.queue }
    ensures asked { IsAsked (G.may_give_up gate.now) (G.may_let_through gate.now) index }
    ensures posted { (client.new ≡ client.old) ⊎ (G.may_let_through gate.now index) }
    ensures let_through { (script : List ClientOrder) → slice_get script index ≡ Some given
        → OwnLetThrough (G.may_let_through gate.now) script client.old.id (unwrap_or account.old.gave_up index)
        → OwnLetThrough (G.may_let_through gate.now) script client.old.id (unwrap_or account.new.gave_up (index + 1)) }
    ensures given_up { (script : List ClientOrder) → slice_get script index ≡ Some given
        → IfSome account.old.gave_up (MayBeGivenUp (G.may_give_up gate.now) script)
        → IfSome account.new.gave_up (MayBeGivenUp (G.may_give_up gate.now) script) }
    ensures sound { (script : List ClientOrder) → slice_get script index ≡ Some given
        → Sound script index client.old.id client.old.mine account.old
        → Sound script (index + 1) client.old.id client.new.mine account.new }
{
    if let Some(leave) = LetThrough::by(rt, begun, gate, index) {
        ask(rt, leave, client, index, given, account);
    } else if account.gave_up.is_none() {
        account.gave_up = Some(index);
    }
    gate.after(rt, index);
}

/// The order of a script at an index.
fn given_at(script: &Script, index: usize) -> ClientOrder
    requires { index < length script.now }
    ensures { slice_get script.now index ≡ Some result }
{
    ClientOrder {
        client: script.client(index),
        order: script.order(index),
    }
}

/// The client's orders, in script order, once the thread was told to begin. The index leads from one to the next.
fn take_orders<K: Set, G: Gate, R: Wait>(
    rt: &R,
    begun: &Begun,
    gate: &G,
    client: &mut Client<K>,
    script: &Script,
    own: &OwnOrders,
    floor: Option<&Floor>,
) -> Account
    requires fresh { (client.old.out ≡ []) × (client.old.mine ≡ []) }
    requires index { IsIndexOf script.now own.now }
    ensures out { client.new.out ≡ [] }
    ensures id { client.new.id ≡ client.old.id }
    ensures queue { client.new.queue ≡ client.old.queue }

    // the gate was asked for each order of the client, also behind one that it gave up
    ensures asked { OwnLetThrough (IsAsked (G.may_give_up gate.now) (G.may_let_through gate.now)) script.now client.old.id (length script.now) }
    ensures given_up { IfSome result.gave_up (MayBeGivenUp (G.may_give_up gate.now) script.now) }
    ensures let_through { OwnLetThrough (G.may_let_through gate.now) script.now client.old.id (unwrap_or result.gave_up (length script.now)) }
    ensures sound { Sound script.now (length script.now) client.new.id client.new.mine result }
{
    let mut account = Account {
        full_from: None,
        gave_up: None,
        lost: false,
    };
    let mut visit = Visit::begin(floor);
    let mut index = own.first(client.id());
    while index < script.len() {
        if account.calls_on() {
            visit.go_on(rt);
        } else {
            visit.end();
        }
        let given = given_at(script, index);
        step(rt, begun, gate, client, index, given, &mut account);
        index = own.after(index);
    }
    visit.end();
    account
}

/// From which index on the orders of a client are full, in a script of so many orders.
fn full_from_in(account: &Account, orders: usize) -> usize
    ensures { MatchOption account.now.full_from (result ≡ orders) (λ index. result ≡ index) }
{
    account.full_from.unwrap_or(orders)
}

/// One client's thread.
pub(crate) fn walk_script<K: Set, G: Gate, R: Wait>(
    rt: &R,
    start: &Start,
    gate: &G,
    mut client: Client<K>,
    script: &Script,
    own: &OwnOrders,
    floor: Option<&Floor>,
) -> Walk
    requires fresh { (client.out ≡ []) × (client.mine ≡ []) }
    requires index { IsIndexOf script.now own.now }
    ensures walked { Walked (G.may_give_up gate.now) (G.may_let_through gate.now) script.now client.id result }
    ensures own { IsOwnPast K.table K.machine client.queue result.past }
{
    let Some(begun) = start.wait(rt) else {
        return Walk {
            past: client.close(rt),
            full_from: 0,
            gave_up: None,
            lost: true,
            stopped: true,
        };
    };
    let account = take_orders(rt, &begun, gate, &mut client, script, own, floor);
    Walk {
        past: client.close(rt),
        full_from: full_from_in(&account, script.len()),
        gave_up: account.gave_up,
        lost: account.lost,
        stopped: false,
    }
}
