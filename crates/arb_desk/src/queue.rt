//! The steps of the queue: it is made, a pass is made, a message is put, one is taken, and a client's pass is taken in.

ghost use Rattle.std.specs.Prelude.{◌≡◌, [], true, false, IfOk, IfSome, MatchBool, MatchOption};
ghost use mathlib.Core.List.{IsPrefix};
ghost use Rattle.crossbeam_queue.specs.Passes.{IsPassOf, ruled_capacity, view};
ghost use Rattle.arb_desk.specs.Limits.{places};
ghost use Rattle.arb_desk.specs.Messages.{is_closed, messages_by};
ghost use Rattle.arb_desk.specs.Passes.{client_view, has, makes, puts, server_view, takes};

use crate::message::Message;
use crate::rule::{Absorbing, Accounting, Admitting, Named, OrderPass, Orders, Putting, Taking};
use arb_model::ClientId;
use std::alloc::{AllocError, Global};
use std::marker::Brand;
use std::sync::Wait;

/// How many messages the queue holds at most.
pub const PLACES: usize = 64;

/// An empty queue, and the server's pass: nothing was taken, and no client has a pass.
///
/// # Errors
/// [`AllocError`] where an allocation failed.
pub fn open_queue(alloc: Global) -> Result<(Orders, OrderPass), AllocError>
    ensures pass { IfOk result (λ q. IsPassOf q.0 q.1) }
    ensures view { IfOk result (λ q. view q.1 ≡ server_view [] []) }
    ensures places { IfOk result (λ q. ruled_capacity q.0 ≡ places) }
{
    Orders::ruled(alloc, PLACES)
}

/// The pass of a client that has none yet. It put nothing.
pub fn pass_for(orders: &Orders, server: &mut OrderPass, client: ClientId) -> OrderPass
    requires queue { IsPassOf orders.now server.old }
    requires server { (view server.old).is_server ≡ true }
    requires new { has client (view server.old).made ≡ false }
    ensures queue { IsPassOf orders.now server.new × IsPassOf orders.now result }
    ensures made { view server.new ≡ makes (view server.old) client }
    ensures new { view result ≡ client_view client [] }
{
    admit::<Brand>(orders, server, client)
}

/// Makes the pass of the client, which `N` names.
fn admit<N: Named>(orders: &Orders, server: &mut OrderPass, client: ClientId) -> OrderPass
    requires client { client ≡ N.client }
    requires queue { IsPassOf orders.now server.old }
    requires server { (view server.old).is_server ≡ true }
    requires new { has client (view server.old).made ≡ false }
    ensures queue { IsPassOf orders.now server.new × IsPassOf orders.now result }
    ensures made { view server.new ≡ makes (view server.old) client }
    ensures new { view result ≡ client_view client [] }
{
    orders.another::<Admitting<N>>(server)
}

/// Puts a message of the pass's client, which hasn't closed. One push.
///
/// Answers whether it was put. Where it wasn't, the queue was full at some moment of the call.
pub fn put<R: Wait>(rt: &R, orders: &Orders, pass: &mut OrderPass, message: Message) -> bool
    requires queue { IsPassOf orders.now pass.old }
    requires own { ((view pass.old).is_client ≡ true) × ((view pass.old).client ≡ message.client) }
    requires unclosed { is_closed (view pass.old).put ≡ false }
    ensures queue { IsPassOf orders.now pass.new }
    ensures put { MatchBool result (view pass.new ≡ puts (view pass.old) message) (view pass.new ≡ view pass.old) }
{
    orders.push_as::<Putting, R>(rt, pass, message).is_ok()
}

/// Takes the oldest message. One pop. It is of a client that has a pass.
///
/// Answers `None` where the queue was empty at some moment of the call.
pub fn take<R: Wait>(rt: &R, orders: &Orders, server: &mut OrderPass) -> Option<Message>
    requires queue { IsPassOf orders.now server.old }
    requires server { (view server.old).is_server ≡ true }
    ensures queue { IsPassOf orders.now server.new }
    ensures taken { MatchOption result (view server.new ≡ view server.old) (λ x. view server.new ≡ takes (view server.old) x) }
    ensures of_client { IfSome result (λ x. has x.client (view server.old).made ≡ true) }
{
    orders.pop_as::<Taking, R>(rt, server)
}

/// Whether the queue was empty at some moment of the call. No message is taken.
pub fn is_empty(orders: &Orders, server: &mut OrderPass) -> bool
    requires queue { IsPassOf orders.now server.old }
    ensures queue { IsPassOf orders.now server.new }
    ensures same { view server.new ≡ view server.old }
{
    orders.is_empty_as::<Taking>(server)
}

/// The server's pass takes in that of a client, which puts no more.
///
/// What was taken of the client begins what it put. Once its close mark was taken, that is all that it put.
pub fn reconcile(orders: &Orders, server: &mut OrderPass, client: OrderPass)
    requires queue { IsPassOf orders.now server.old × IsPassOf orders.now client }
    requires server { (view server.old).is_server ≡ true }
    requires client { (view client).is_client ≡ true }
    ensures queue { IsPassOf orders.now server.new }
    ensures server { (view server.new).is_server ≡ true }
    ensures taken { (view server.new).taken ≡ (view server.old).taken }
    ensures begins { IsPrefix (messages_by (view client).client (view server.old).taken) (view client).put }
    ensures whole { is_closed (messages_by (view client).client (view server.old).taken) ≡ true
        → (view client).put ≡ messages_by (view client).client (view server.old).taken }
{
    orders.absorb::<Absorbing>(server, client);
    orders.learn_as::<Accounting>(server);
}
