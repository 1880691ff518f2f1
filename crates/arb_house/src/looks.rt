//! What a server has seen before it rests or makes no room. Only a look gives either.

ghost use Rattle.std.specs.Prelude.{◌≡◌, true, IfErr, IfOk};
ghost use Rattle.crossbeam_queue.specs.Passes.{IsPassOf, view};
ghost use Rattle.arb_desk.specs.Passes.{has, takes};

use arb_desk::{Desk, Message, OrderPass, Orders, is_empty, take};
use arb_page::Set;
use std::sync::Wait;

/// That the queue was empty at some moment of a look. Without it a server doesn't rest.
#[derive(Drop)]
pub(crate) struct NoMessage(());

impl NoMessage {
    /// Looks whether the queue is empty. No message is taken.
    pub(crate) fn look(orders: &Orders, pass: &mut OrderPass) -> Option<NoMessage>
        requires queue { IsPassOf orders.now pass.old }
        ensures queue { IsPassOf orders.now pass.new }
        ensures same { view pass.new ≡ view pass.old }
    {
        is_empty(orders, pass).then_some(NoMessage(()))
    }
}

/// Takes the oldest message. It is of a client that has a pass.
pub(crate) fn take_one<R: Wait>(
    rt: &R,
    orders: &Orders,
    pass: &mut OrderPass,
) -> Result<Message, NoMessage>
    requires queue { IsPassOf orders.now pass.old }
    requires server { (view pass.old).is_server ≡ true }
    ensures queue { IsPassOf orders.now pass.new }
    ensures taken { IfOk result (λ message. view pass.new ≡ takes (view pass.old) message) }
    ensures untaken { IfErr result (λ _. view pass.new ≡ view pass.old) }
    ensures of_client { IfOk result (λ message. has message.client (view pass.old).made ≡ true) }
{
    match take(rt, orders, pass) {
        Some(message) => Ok(message),
        None => Err(NoMessage(())),
    }
}

/// That all clients have said that they close: only their close marks come. Without it a server waits for no memory.
#[derive(Drop)]
pub(crate) struct OnlyMarks(());

impl OnlyMarks {
    /// Looks whether so many clients have said so.
    pub(crate) fn look<K: Set>(desk: &Desk<K>, clients: usize) -> Option<OnlyMarks> {
        (desk.closing() >= clients).then_some(OnlyMarks(()))
    }
}
