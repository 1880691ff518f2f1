//! Turns: a member that has the lock enters orders and posts words one by one.

ghost use Rattle.std.specs.Prelude.{◌≡◌, ◌≢◌, Some};
ghost use Rattle.arb_c.specs.Codes.{ok, settled, stale, taken};
ghost use Rattle.arb_c.specs.Wire.{order_named};
ghost use Rattle.arb_c.specs.Members.{BeginsTurn, EndsTurn, EntersAs, FoundTaken, IsAsBefore, OfBoth, PostsAs, SameHistory, entering_code, free_code, member_of, order_code, posting_code};

use crate::codes::{CLOSED, FULL, IN_TURN, NO_CLIENT, NO_TURN, OK, SETTLED, STALE, TAKEN};
use crate::member::handle::MemberHandle;
use crate::member::opened::OpenedMember;
use crate::wire::{WireOrder, WirePost, WireReply, client_of, order_of, reply_of};
use std::alloc::Global;

/// Begins a turn: takes the arbiter's lock where it is free. No other member enters an order before the turn ends.
///
/// The code is the first of: closed, in a turn, another member has the lock.
#[unsafe(no_mangle)]
pub extern "C" fn voldazpe_lib_member_begin(alloc: Global, handle: &mut MemberHandle) -> u32
    ensures untried { free_code (member_of handle.old) ≢ ok
        → (result ≡ free_code (member_of handle.old)) × (member_of handle.new ≡ member_of handle.old) }
    ensures tried { free_code (member_of handle.old) ≡ ok → result ≢ ok → result ≡ taken }
    ensures begins { result ≡ ok → OfBoth (member_of handle.old) (member_of handle.new) BeginsTurn }
    ensures taken { result ≡ taken → OfBoth (member_of handle.old) (member_of handle.new) FoundTaken }
{
    let Some(mut opened) = handle.take(alloc) else {
        return CLOSED;
    };
    let code = begun(&mut opened);
    handle.put(opened);
    code
}

/// The same of a member that was taken out of its handle.
fn begun(opened: &mut OpenedMember) -> u32
    ensures untried { free_code (Some opened.old) ≢ ok
        → (result ≡ free_code (Some opened.old)) × (opened.new ≡ opened.old) }
    ensures tried { free_code (Some opened.old) ≡ ok → result ≢ ok → result ≡ taken }
    ensures begins { result ≡ ok → BeginsTurn opened.old opened.new }
    ensures taken { result ≡ taken → FoundTaken opened.old opened.new }
{
    if opened.member.is_in_turn() {
        return IN_TURN;
    }
    if opened.member.begin() { OK } else { TAKEN }
}

/// Enters an order of a client in a turn, and answers it. The words that it leaves stale are to be posted before the next order,
/// and before the turn ends.
///
/// The code is the first of: closed, no such client, no such order, an entry too large, in no turn, a word is stale, the limit is
/// reached.
#[unsafe(no_mangle)]
pub extern "C" fn voldazpe_lib_member_step(
    alloc: Global,
    handle: &mut MemberHandle,
    client: u32,
    order: &WireOrder,
    reply: &mut WireReply,
) -> u32
    ensures code { result ≡ order_code entering_code (member_of handle.old) client (order_named order.now) }
    ensures enters { result ≡ ok → OfBoth (member_of handle.old) (member_of handle.new)
        (λ before after. EntersAs before client (order_named order.now) reply.new after) }
    ensures untouched { result ≢ ok → IsAsBefore (member_of handle.old) (member_of handle.new) × (reply.new ≡ reply.old) }
{
    let Some(mut opened) = handle.take(alloc) else {
        return CLOSED;
    };
    let code = entered(&mut opened, client, order, reply);
    handle.put(opened);
    code
}

/// The same of a member that was taken out of its handle.
fn entered(opened: &mut OpenedMember, client: u32, order: &WireOrder, reply: &mut WireReply) -> u32
    ensures code { result ≡ order_code entering_code (Some opened.old) client (order_named order.now) }
    ensures enters { result ≡ ok → EntersAs opened.old client (order_named order.now) reply.new opened.new }
    ensures untouched { result ≢ ok → SameHistory opened.old opened.new × (reply.new ≡ reply.old) }
{
    let Some(client) = client_of(client) else {
        return NO_CLIENT;
    };
    let order = match order_of(order) {
        Ok(order) => order,
        Err(code) => return code,
    };
    if !opened.member.is_in_turn() {
        return NO_TURN;
    }
    if !opened.member.is_settled() {
        return STALE;
    }
    let Some(answer) = opened.member.step(client, &order) else {
        return FULL;
    };
    *reply = reply_of(answer);
    OK
}

/// Posts the next stale word in a turn, and tells its number and the value that it becomes.
///
/// The code is the first of: closed, in no turn, no word is stale.
#[unsafe(no_mangle)]
pub extern "C" fn voldazpe_lib_member_post(
    alloc: Global,
    handle: &mut MemberHandle,
    post: &mut WirePost,
) -> u32
    ensures code { result ≡ posting_code ok settled (member_of handle.old) }
    ensures posts { result ≡ ok → OfBoth (member_of handle.old) (member_of handle.new) (λ before after. PostsAs before post.new after) }
    ensures untouched { result ≢ ok → (member_of handle.new ≡ member_of handle.old) × (post.new ≡ post.old) }
{
    let Some(mut opened) = handle.take(alloc) else {
        return CLOSED;
    };
    let code = posted(&mut opened, post);
    handle.put(opened);
    code
}

/// The same of a member that was taken out of its handle.
fn posted(opened: &mut OpenedMember, post: &mut WirePost) -> u32
    ensures code { result ≡ posting_code ok settled (Some opened.old) }
    ensures posts { result ≡ ok → PostsAs opened.old post.new opened.new }
    ensures untouched { result ≢ ok → (opened.new ≡ opened.old) × (post.new ≡ post.old) }
{
    if !opened.member.is_in_turn() {
        return NO_TURN;
    }
    let Some((word, value)) = opened.member.post() else {
        return SETTLED;
    };
    *post = WirePost {
        value,
        word: word as u32,
    };
    OK
}

/// Ends a turn: gives the lock back.
///
/// The code is the first of: closed, in no turn, a word is stale.
#[unsafe(no_mangle)]
pub extern "C" fn voldazpe_lib_member_end(alloc: Global, handle: &mut MemberHandle) -> u32
    ensures code { result ≡ posting_code stale ok (member_of handle.old) }
    ensures ends { result ≡ ok → OfBoth (member_of handle.old) (member_of handle.new) EndsTurn }
    ensures untouched { result ≢ ok → member_of handle.new ≡ member_of handle.old }
{
    let Some(mut opened) = handle.take(alloc) else {
        return CLOSED;
    };
    let code = ended(&mut opened);
    handle.put(opened);
    code
}

/// The same of a member that was taken out of its handle.
fn ended(opened: &mut OpenedMember) -> u32
    ensures code { result ≡ posting_code stale ok (Some opened.old) }
    ensures ends { result ≡ ok → EndsTurn opened.old opened.new }
    ensures untouched { result ≢ ok → opened.new ≡ opened.old }
{
    if !opened.member.is_in_turn() {
        return NO_TURN;
    }
    if !opened.member.is_settled() {
        return STALE;
    }
    opened.member.end();
    OK
}
