//! An order, and its posts.

ghost use Rattle.std.specs.Prelude.{◌≡◌, ◌≢◌, Some};
ghost use Rattle.arb_c.specs.Codes.{ok};
ghost use Rattle.arb_c.specs.Handle.{held_arbiter, holding_of};
ghost use Rattle.arb_c.specs.Wire.{order_named};
ghost use Rattle.arb_c.specs.Calls.{Posts, Steps, post_code, step_code};

use crate::codes::{CLOSED, FULL, NO_CLIENT, OK, SETTLED, STALE};
use crate::handle::Handle;
use crate::opened::Opened;
use crate::wire::{WireOrder, WirePost, WireReply, client_of, order_of, reply_of};
use std::alloc::Global;

/// Enters an order of a client, and answers it. The words that it leaves stale are to be posted before the next order.
///
/// The code is the first of: closed, no such client, no such order, an entry too large, a word is stale, the limit is
/// reached. There is a limit only where the machine's text states one. Where it states none, an arbiter that takes no further
/// order is renewed first. C sees nothing of that: what it reads of counts, and of word 0, goes on.
#[unsafe(no_mangle)]
pub extern "C" fn voldazpe_lib_step(
    alloc: Global,
    handle: &mut Handle,
    client: u32,
    order: &WireOrder,
    reply: &mut WireReply,
) -> u32
    ensures code { result ≡ step_code (holding_of handle.old) client (order_named order.now) }
    ensures step { result ≡ ok
        → Steps (holding_of handle.old) client (order_named order.now) (holding_of handle.new) reply.new }
    ensures untouched { result ≢ ok → (holding_of handle.new ≡ holding_of handle.old) × (reply.new ≡ reply.old) }
{
    let Some(mut opened) = handle.take(alloc) else {
        return CLOSED;
    };
    let code = entered(&mut opened, client, order, reply);
    handle.put(opened);
    code
}

/// The same of an arbiter that was taken out of its handle.
fn entered(opened: &mut Opened, client: u32, order: &WireOrder, reply: &mut WireReply) -> u32
    ensures code { result ≡ step_code (Some opened.old) client (order_named order.now) }
    ensures step { result ≡ ok → Steps (Some opened.old) client (order_named order.now) (Some opened.new) reply.new }
    ensures untouched { result ≢ ok → (opened.new ≡ opened.old) × (reply.new ≡ reply.old) }
{
    let Some(client) = client_of(client) else {
        return NO_CLIENT;
    };
    let order = match order_of(order) {
        Ok(order) => order,
        Err(code) => return code,
    };
    if opened.core().next_stale().is_some() {
        return STALE;
    }
    if opened.is_full() {
        return FULL;
    }
    *reply = reply_of(opened.step(client, &order));
    OK
}

/// Posts the next stale word, and tells its number and the value that it becomes.
///
/// The code is the first of: closed, no word is stale.
#[unsafe(no_mangle)]
pub extern "C" fn voldazpe_lib_post(alloc: Global, handle: &mut Handle, post: &mut WirePost) -> u32
    ensures code { result ≡ post_code (held_arbiter handle.old) }
    ensures posts { result ≡ ok → Posts (holding_of handle.old) (holding_of handle.new) post.new }
    ensures untouched { result ≢ ok → (holding_of handle.new ≡ holding_of handle.old) × (post.new ≡ post.old) }
{
    let Some(mut opened) = handle.take(alloc) else {
        return CLOSED;
    };
    let code = post_next(&mut opened, post);
    handle.put(opened);
    code
}

/// The same of an arbiter that was taken out of its handle.
fn post_next(opened: &mut Opened, post: &mut WirePost) -> u32
    ensures code { result ≡ post_code (Some opened.old.arbiter) }
    ensures posts { result ≡ ok → Posts (Some opened.old) (Some opened.new) post.new }
    ensures untouched { result ≢ ok → (opened.new ≡ opened.old) × (post.new ≡ post.old) }
{
    let Some(word) = opened.core().next_stale() else {
        return SETTLED;
    };
    let value = opened.core().word(word);
    opened.post(word);
    *post = WirePost {
        value,
        word: word as u32,
    };
    OK
}
