//! Short turns, of one order: begun and ended by calls that do two things in one.

ghost use Rattle.std.specs.Prelude.{◌≡◌, ◌≢◌, Some};
ghost use Rattle.arb_c.specs.Codes.{full, ok, settled, taken};
ghost use Rattle.arb_c.specs.Wire.{order_named};
ghost use Rattle.arb_c.specs.Members.{BeginsWith, EndsTurn, FoundTaken, MeetsLimit, OfBoth, PostsAs, free_code, member_of, order_code, posting_code};

use crate::codes::{CLOSED, FULL, IN_TURN, NO_CLIENT, NO_TURN, OK, SETTLED, TAKEN};
use crate::member::handle::MemberHandle;
use crate::member::opened::OpenedMember;
use crate::wire::{WireOrder, WirePost, WireReply, client_of, order_of, reply_of};
use std::alloc::Global;

/// Begins a turn with an order of a client, and answers it: takes the arbiter's lock where it is free, and enters the order. The
/// words that it leaves stale are to be posted before the next order, and before the turn ends.
///
/// The code is the first of: closed, no such client, no such order, an entry too large, in a turn, another member has the lock,
/// the limit is reached. Where the limit is reached, the lock is given back.
#[unsafe(no_mangle)]
pub extern "C" fn voldazpe_lib_member_begin_with(
    alloc: Global,
    handle: &mut MemberHandle,
    client: u32,
    order: &WireOrder,
    reply: &mut WireReply,
) -> u32
    ensures untried { order_code free_code (member_of handle.old) client (order_named order.now) ≢ ok
        → (result ≡ order_code free_code (member_of handle.old) client (order_named order.now))
        × (member_of handle.new ≡ member_of handle.old) }
    ensures tried { order_code free_code (member_of handle.old) client (order_named order.now) ≡ ok
        → result ≢ ok → result ≢ taken → result ≡ full }
    ensures begins { result ≡ ok → OfBoth (member_of handle.old) (member_of handle.new)
        (λ before after. BeginsWith before client (order_named order.now) reply.new after) }
    ensures taken { result ≡ taken → OfBoth (member_of handle.old) (member_of handle.new) FoundTaken }
    ensures full { result ≡ full → OfBoth (member_of handle.old) (member_of handle.new) MeetsLimit }
    ensures untouched { result ≢ ok → reply.new ≡ reply.old }
{
    let Some(mut opened) = handle.take(alloc) else {
        return CLOSED;
    };
    let code = begun_with(&mut opened, client, order, reply);
    handle.put(opened);
    code
}

/// The same of a member that was taken out of its handle.
fn begun_with(
    opened: &mut OpenedMember,
    client: u32,
    order: &WireOrder,
    reply: &mut WireReply,
) -> u32
    ensures untried { order_code free_code (Some opened.old) client (order_named order.now) ≢ ok
        → (result ≡ order_code free_code (Some opened.old) client (order_named order.now)) × (opened.new ≡ opened.old) }
    ensures tried { order_code free_code (Some opened.old) client (order_named order.now) ≡ ok
        → result ≢ ok → result ≢ taken → result ≡ full }
    ensures begins { result ≡ ok → BeginsWith opened.old client (order_named order.now) reply.new opened.new }
    ensures taken { result ≡ taken → FoundTaken opened.old opened.new }
    ensures full { result ≡ full → MeetsLimit opened.old opened.new }
    ensures untouched { result ≢ ok → reply.new ≡ reply.old }
{
    let Some(client) = client_of(client) else {
        return NO_CLIENT;
    };
    let order = match order_of(order) {
        Ok(order) => order,
        Err(code) => return code,
    };
    if opened.member.is_in_turn() {
        return IN_TURN;
    }
    if !opened.member.begin() {
        return TAKEN;
    }
    let Some(answer) = opened.member.step(client, &order) else {
        opened.member.end();
        return FULL;
    };
    *reply = reply_of(answer);
    OK
}

/// Posts the next stale word in a turn, and tells its number and the value that it becomes. Where no word is stale, it ends the
/// turn: gives the lock back.
///
/// The code is the first of: closed, in no turn, no word is stale. By the last one the turn has ended.
#[unsafe(no_mangle)]
pub extern "C" fn voldazpe_lib_member_post_or_end(
    alloc: Global,
    handle: &mut MemberHandle,
    post: &mut WirePost,
) -> u32
    ensures code { result ≡ posting_code ok settled (member_of handle.old) }
    ensures posts { result ≡ ok → OfBoth (member_of handle.old) (member_of handle.new) (λ before after. PostsAs before post.new after) }
    ensures ends { result ≡ settled → OfBoth (member_of handle.old) (member_of handle.new) EndsTurn }
    ensures untouched { result ≢ ok → result ≢ settled → member_of handle.new ≡ member_of handle.old }
    ensures untold { result ≢ ok → post.new ≡ post.old }
{
    let Some(mut opened) = handle.take(alloc) else {
        return CLOSED;
    };
    let code = posted_or_ended(&mut opened, post);
    handle.put(opened);
    code
}

/// The same of a member that was taken out of its handle.
fn posted_or_ended(opened: &mut OpenedMember, post: &mut WirePost) -> u32
    ensures code { result ≡ posting_code ok settled (Some opened.old) }
    ensures posts { result ≡ ok → PostsAs opened.old post.new opened.new }
    ensures ends { result ≡ settled → EndsTurn opened.old opened.new }
    ensures untouched { result ≢ ok → result ≢ settled → opened.new ≡ opened.old }
    ensures untold { result ≢ ok → post.new ≡ post.old }
{
    if !opened.member.is_in_turn() {
        return NO_TURN;
    }
    let Some((word, value)) = opened.member.post() else {
        opened.member.end();
        return SETTLED;
    };
    *post = WirePost {
        value,
        word: word as u32,
    };
    OK
}
