//! What an arbiter has.

ghost use Rattle.std.specs.Prelude.{◌≡◌, ◌≢◌, ◌↔◌, ℕ, None, Some, IfSome, slice_get, slice_index};
ghost use Rattle.arb_model.specs.Step.{place_of};
ghost use Rattle.arb_c.specs.Codes.{closed, no_owner, ok};
ghost use Rattle.arb_c.specs.Handle.{held_arbiter, holding_of};
ghost use Rattle.arb_c.specs.Holding.{count_of, orders_of, posted_shown};
ghost use Rattle.arb_c.specs.Wire.{core_shown, counts_shown, machine_shown, place_shown, request_shown};
ghost use Rattle.arb_c.specs.Calls.{HasNoOwner, IsOwnerAt, application_code, client_code, index_code, open_code, position_code, request_code, thread_code, word_code};

use crate::codes::{
    CLOSED, NO_APPLICATION, NO_CLIENT, NO_OWNER, NO_POSITION, NO_REQUEST, NO_WORD, OK,
};
use crate::handle::Handle;
use crate::opened::Opened;
use crate::wire::{
    WireCore, WireCounts, WireMachine, WirePlace, WireRequest, application_of, client_of,
    counts_of, machine_of, place_of, request_of, thread_of,
};
use arb_core::layout::WORDS;
use std::alloc::Global;

/// The value that a page word had when it was last posted. Word 0 counts all orders, those before renewals included.
///
/// The code is the first of: closed, no such word.
#[unsafe(no_mangle)]
pub extern "C" fn voldazpe_lib_posted(
    alloc: Global,
    handle: &mut Handle,
    word: u32,
    value: &mut u64,
) -> u32
    ensures code { result ≡ word_code (held_arbiter handle.old) word }
    ensures value { result ≡ ok
        → IfSome (holding_of handle.old) (λ holding. value.new ≡ posted_shown holding word) }
    ensures untouched { result ≢ ok → value.new ≡ value.old }
    ensures same { holding_of handle.new ≡ holding_of handle.old }
{
    let Some(opened) = handle.take(alloc) else {
        return CLOSED;
    };
    let code = posted_in(&opened, word, value);
    handle.put(opened);
    code
}

/// The same of an arbiter that was taken out of its handle.
fn posted_in(opened: &Opened, word: u32, value: &mut u64) -> u32
    ensures code { result ≡ word_code (Some opened.now.arbiter) word }
    ensures value { result ≡ ok → value.new ≡ posted_shown opened.now word }
    ensures untouched { result ≢ ok → value.new ≡ value.old }
{
    if word as usize >= WORDS {
        return NO_WORD;
    }
    *value = opened.posted(word as usize);
    OK
}

/// Where a thread is.
///
/// The code is the first of: closed, no such thread; the clock is no thread.
#[unsafe(no_mangle)]
pub extern "C" fn voldazpe_lib_place(
    alloc: Global,
    handle: &mut Handle,
    thread: u32,
    place: &mut WirePlace,
) -> u32
    ensures code { result ≡ thread_code (held_arbiter handle.old) thread }
    ensures place { result ≡ ok → IfSome (held_arbiter handle.old)
        (λ arbiter. place.new ≡ place_shown (place_of arbiter.machine arbiter.standing.seats thread)) }
    ensures untouched { result ≢ ok → place.new ≡ place.old }
    ensures same { holding_of handle.new ≡ holding_of handle.old }
{
    let Some(opened) = handle.take(alloc) else {
        return CLOSED;
    };
    let code = match thread_of(thread) {
        Some(thread) => {
            *place = place_of(opened.core().place(thread));
            OK
        }
        None => NO_CLIENT,
    };
    handle.put(opened);
    code
}

/// The thread that is on the core of a number.
///
/// The code is the first of: closed, no owner (the core is free, or not managed).
#[unsafe(no_mangle)]
pub extern "C" fn voldazpe_lib_owner(
    alloc: Global,
    handle: &mut Handle,
    core: u16,
    thread: &mut u32,
) -> u32
    ensures owner { (number : ℕ) → ((result ≡ ok) × (thread.new ≡ number))
        ↔ IsOwnerAt (held_arbiter handle.old) core number }
    ensures free { (result ≡ no_owner) ↔ HasNoOwner (held_arbiter handle.old) core }
    ensures closed { (result ≡ closed) ↔ (held_arbiter handle.old ≡ None) }
    ensures untouched { result ≢ ok → thread.new ≡ thread.old }
    ensures same { holding_of handle.new ≡ holding_of handle.old }
{
    let Some(opened) = handle.take(alloc) else {
        return CLOSED;
    };
    let code = owner_in(&opened, core, thread);
    handle.put(opened);
    code
}

/// The same of an arbiter that was taken out of its handle.
fn owner_in(opened: &Opened, core: u16, thread: &mut u32) -> u32
    ensures owner { (number : ℕ) → ((result ≡ ok) × (thread.new ≡ number)) ↔ IsOwnerAt (Some opened.now.arbiter) core number }
    ensures free { (result ≡ no_owner) ↔ HasNoOwner (Some opened.now.arbiter) core }
    ensures live { result ≢ closed }
    ensures untouched { result ≢ ok → thread.new ≡ thread.old }
{
    match opened.core().owner(core) {
        Some(owner) => {
            *thread = owner.index() as u32;
            OK
        }
        None => NO_OWNER,
    }
}

/// How many cores are due to an application, owned by it and asked back of it, and how many of its threads wait.
///
/// The code is the first of: closed, no such application. All are 0 of one that hasn't joined.
#[unsafe(no_mangle)]
pub extern "C" fn voldazpe_lib_counts(
    alloc: Global,
    handle: &mut Handle,
    application: u32,
    counts: &mut WireCounts,
) -> u32
    ensures code { result ≡ application_code (held_arbiter handle.old) application }
    ensures counts { result ≡ ok → IfSome (held_arbiter handle.old)
        (λ arbiter. counts.new ≡ counts_shown arbiter application) }
    ensures untouched { result ≢ ok → counts.new ≡ counts.old }
    ensures same { holding_of handle.new ≡ holding_of handle.old }
{
    let Some(opened) = handle.take(alloc) else {
        return CLOSED;
    };
    let code = match application_of(application) {
        Some(application) => {
            *counts = counts_of(opened.core(), application);
            OK
        }
        None => NO_APPLICATION,
    };
    handle.put(opened);
    code
}

/// What an application asks for, as far as it counts: cut at its cap, where it has one.
///
/// The code is the first of: closed, no such application, no request (it hasn't joined).
#[unsafe(no_mangle)]
pub extern "C" fn voldazpe_lib_requested(
    alloc: Global,
    handle: &mut Handle,
    application: u32,
    request: &mut WireRequest,
) -> u32
    ensures code { result ≡ request_code (held_arbiter handle.old) application }
    ensures request { result ≡ ok → IfSome (held_arbiter handle.old)
        (λ arbiter. request_shown arbiter application ≡ Some request.new.cores) }
    ensures untouched { result ≢ ok → request.new ≡ request.old }
    ensures same { holding_of handle.new ≡ holding_of handle.old }
{
    let Some(opened) = handle.take(alloc) else {
        return CLOSED;
    };
    let code = requested_in(&opened, application, request);
    handle.put(opened);
    code
}

/// The same of an arbiter that was taken out of its handle.
fn requested_in(opened: &Opened, application: u32, request: &mut WireRequest) -> u32
    ensures code { result ≡ request_code (Some opened.now.arbiter) application }
    ensures request { result ≡ ok → request_shown opened.now.arbiter application ≡ Some request.new.cores }
    ensures untouched { result ≢ ok → request.new ≡ request.old }
{
    let Some(application) = application_of(application) else {
        return NO_APPLICATION;
    };
    match opened.core().request(application) {
        Some(asked) => {
            *request = request_of(asked);
            OK
        }
        None => NO_REQUEST,
    }
}

/// How many orders of a client were entered, refused ones and those before renewals included.
///
/// The code is the first of: closed, no such client.
#[unsafe(no_mangle)]
pub extern "C" fn voldazpe_lib_count(
    alloc: Global,
    handle: &mut Handle,
    client: u32,
    count: &mut u64,
) -> u32
    ensures code { result ≡ client_code (held_arbiter handle.old) client }
    ensures count { result ≡ ok → IfSome (holding_of handle.old) (λ holding. count.new ≡ count_of holding client) }
    ensures untouched { result ≢ ok → count.new ≡ count.old }
    ensures same { holding_of handle.new ≡ holding_of handle.old }
{
    let Some(opened) = handle.take(alloc) else {
        return CLOSED;
    };
    let code = match client_of(client) {
        Some(client) => {
            *count = opened.count_of(client);
            OK
        }
        None => NO_CLIENT,
    };
    handle.put(opened);
    code
}

/// How many orders were entered, refused ones and those before renewals included.
///
/// The code says where the handle is closed.
#[unsafe(no_mangle)]
pub extern "C" fn voldazpe_lib_orders(alloc: Global, handle: &mut Handle, count: &mut u64) -> u32
    ensures code { result ≡ open_code (held_arbiter handle.old) }
    ensures count { result ≡ ok → IfSome (holding_of handle.old) (λ holding. count.new ≡ orders_of holding) }
    ensures untouched { result ≢ ok → count.new ≡ count.old }
    ensures same { holding_of handle.new ≡ holding_of handle.old }
{
    let Some(opened) = handle.take(alloc) else {
        return CLOSED;
    };
    *count = opened.orders();
    handle.put(opened);
    OK
}

/// The latest moment, in microseconds.
///
/// The code says where the handle is closed.
#[unsafe(no_mangle)]
pub extern "C" fn voldazpe_lib_clock(alloc: Global, handle: &mut Handle, moment: &mut u64) -> u32
    ensures code { result ≡ open_code (held_arbiter handle.old) }
    ensures moment { result ≡ ok → IfSome (held_arbiter handle.old)
        (λ arbiter. moment.new ≡ arbiter.standing.clock) }
    ensures untouched { result ≢ ok → moment.new ≡ moment.old }
    ensures same { holding_of handle.new ≡ holding_of handle.old }
{
    let Some(opened) = handle.take(alloc) else {
        return CLOSED;
    };
    *moment = opened.core().clock();
    handle.put(opened);
    OK
}

/// The machine's counts, its grace, and its limit on orders, which is 0 where its text states none.
///
/// The code says where the handle is closed.
#[unsafe(no_mangle)]
pub extern "C" fn voldazpe_lib_machine(
    alloc: Global,
    handle: &mut Handle,
    machine: &mut WireMachine,
) -> u32
    ensures code { result ≡ open_code (held_arbiter handle.old) }
    ensures machine { result ≡ ok → IfSome (holding_of handle.old)
        (λ holding. machine.new ≡ machine_shown holding.arbiter.machine holding.limit) }
    ensures untouched { result ≢ ok → machine.new ≡ machine.old }
    ensures same { holding_of handle.new ≡ holding_of handle.old }
{
    let Some(opened) = handle.take(alloc) else {
        return CLOSED;
    };
    *machine = machine_of(opened.topology(), opened.limit());
    handle.put(opened);
    OK
}

/// The number and the socket of the core at a position.
///
/// The code is the first of: closed, no such position.
#[unsafe(no_mangle)]
pub extern "C" fn voldazpe_lib_core_at(
    alloc: Global,
    handle: &mut Handle,
    position: u32,
    core: &mut WireCore,
) -> u32
    ensures code { result ≡ position_code (held_arbiter handle.old) position }
    ensures core { result ≡ ok → IfSome (held_arbiter handle.old)
        (λ arbiter. core.new ≡ core_shown arbiter.machine position) }
    ensures untouched { result ≢ ok → core.new ≡ core.old }
    ensures same { holding_of handle.new ≡ holding_of handle.old }
{
    let Some(opened) = handle.take(alloc) else {
        return CLOSED;
    };
    let topology = opened.topology();
    let code = if position < topology.managed() as u32 {
        *core = WireCore {
            number: topology.core_at(position as u8),
            socket: topology.socket_of(position as u8),
        };
        OK
    } else {
        NO_POSITION
    };
    handle.put(opened);
    code
}

/// The number and the socket of an unmanaged core, by its index in the lists of all sockets joined in order.
///
/// The code is the first of: closed, no such index.
#[unsafe(no_mangle)]
pub extern "C" fn voldazpe_lib_unmanaged_at(
    alloc: Global,
    handle: &mut Handle,
    index: u32,
    core: &mut WireCore,
) -> u32
    ensures code { result ≡ index_code (holding_of handle.old) index }
    ensures core { result ≡ ok → IfSome (holding_of handle.old)
        (λ holding. slice_get holding.unmanaged index ≡ Some core.new) }
    ensures untouched { result ≢ ok → core.new ≡ core.old }
    ensures same { holding_of handle.new ≡ holding_of handle.old }
{
    let Some(opened) = handle.take(alloc) else {
        return CLOSED;
    };
    let code = unmanaged_in(&opened, index, core);
    handle.put(opened);
    code
}

/// The same of an arbiter that was taken out of its handle.
fn unmanaged_in(opened: &Opened, index: u32, core: &mut WireCore) -> u32
    ensures code { result ≡ index_code (Some opened.now) index }
    ensures core { result ≡ ok → slice_get opened.now.unmanaged index ≡ Some core.new }
    ensures untouched { result ≢ ok → core.new ≡ core.old }
{
    let unmanaged = opened.unmanaged();
    if index as usize >= unmanaged.len() {
        return NO_POSITION;
    }
    *core = unmanaged[index as usize];
    OK
}
