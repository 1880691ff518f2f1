//! An order that a member gives at once.

ghost use Rattle.std.specs.Prelude.{◌≡◌, ◌≢◌, Some};
ghost use Rattle.arb_c.specs.Codes.{ok};
ghost use Rattle.arb_c.specs.Wire.{order_named};
ghost use Rattle.arb_c.specs.Members.{GivesAs, OfBoth, free_code, member_of, order_code};

use crate::codes::{CLOSED, FULL, IN_TURN, NO_CLIENT, OK, TAKEN};
use crate::member::handle::MemberHandle;
use crate::member::opened::OpenedMember;
use crate::wire::{WireOrder, WireReply, client_of, order_of, reply_of};
use arb_common::Given;
use std::alloc::Global;

/// Enters an order of a client, posts all words that it leaves stale, and answers it; or does nothing. Any thread may call it at
/// any time, with a handle of its own: it takes the arbiter's lock where that is free.
///
/// The code is the first of: closed, no such client, no such order, an entry too large, in a turn, another member has the lock,
/// the limit is reached.
#[unsafe(no_mangle)]
pub extern "C" fn voldazpe_lib_member_give(
    alloc: Global,
    handle: &mut MemberHandle,
    client: u32,
    order: &WireOrder,
    reply: &mut WireReply,
) -> u32
    ensures untried { order_code free_code (member_of handle.old) client (order_named order.now) ≢ ok
        → (result ≡ order_code free_code (member_of handle.old) client (order_named order.now))
        × (member_of handle.new ≡ member_of handle.old) × (reply.new ≡ reply.old) }
    ensures gives { order_code free_code (member_of handle.old) client (order_named order.now) ≡ ok
        → OfBoth (member_of handle.old) (member_of handle.new)
        (λ before after. GivesAs before client (order_named order.now) result reply.old reply.new after) }
{
    let Some(mut opened) = handle.take(alloc) else {
        return CLOSED;
    };
    let code = given(&mut opened, client, order, reply);
    handle.put(opened);
    code
}

/// The same of a member that was taken out of its handle.
fn given(opened: &mut OpenedMember, client: u32, order: &WireOrder, reply: &mut WireReply) -> u32
    ensures untried { order_code free_code (Some opened.old) client (order_named order.now) ≢ ok
        → (result ≡ order_code free_code (Some opened.old) client (order_named order.now))
        × (opened.new ≡ opened.old) × (reply.new ≡ reply.old) }
    ensures gives { order_code free_code (Some opened.old) client (order_named order.now) ≡ ok
        → GivesAs opened.old client (order_named order.now) result reply.old reply.new opened.new }
{
    let Some(client) = client_of(client) else {
        return NO_CLIENT;
    };
    let order = match order_of(order) {
        Ok(order) => order,
        Err(code) => return code,
    };
    if opened.member.is_in_turn() {
        return IN_TURN;
    }
    match opened.member.give(client, &order) {
        Given::Answered(answer) => {
            *reply = reply_of(answer);
            OK
        }
        Given::Busy => TAKEN,
        Given::Full => FULL,
    }
}
