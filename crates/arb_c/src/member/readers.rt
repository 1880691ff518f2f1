//! What a member reads: page words at any time; in a turn what the arbiter has; and the machine, which doesn't change.

ghost use Rattle.std.specs.Prelude.{◌≡◌, ◌≢◌, ◌↔◌, ℕ, Some, IfSome, slice_get};
ghost use Rattle.arb_model.specs.Step.{place_of};
ghost use Rattle.arb_c.specs.Calls.{HasNoOwner, IsOwnerAt};
ghost use Rattle.arb_c.specs.Codes.{no_owner, ok};
ghost use Rattle.arb_c.specs.Members.{FindsOwner, OfArbiter, OfBoth, ReadsWord, application_code, described_of, held_code, index_code, member_of, open_code, position_code, request_code, thread_code, word_code};
ghost use Rattle.arb_c.specs.Wire.{core_shown, counts_shown, machine_shown, place_shown, request_shown};

use crate::codes::{
    CLOSED, NO_APPLICATION, NO_CLIENT, NO_OWNER, NO_POSITION, NO_REQUEST, NO_TURN, NO_WORD, OK,
};
use crate::member::handle::MemberHandle;
use crate::member::opened::OpenedMember;
use crate::wire::{
    WireCore, WireCounts, WireMachine, WirePlace, WireRequest, application_of, counts_of,
    machine_of, place_of, request_of, thread_of,
};
use arb_core::Core;
use arb_core::layout::WORDS;
use std::alloc::Global;

/// The value that a page word has at a point of the history, at or after all that the member had seen. One load.
///
/// The code is the first of: closed, no such word.
#[unsafe(no_mangle)]
pub extern "C" fn voldazpe_lib_member_read(
    alloc: Global,
    handle: &mut MemberHandle,
    word: u32,
    value: &mut u64,
) -> u32
    ensures code { result ≡ word_code (member_of handle.old) word }
    ensures value { result ≡ ok → OfBoth (member_of handle.old) (member_of handle.new) (λ before after. ReadsWord before word value.new after) }
    ensures untouched { result ≢ ok → (member_of handle.new ≡ member_of handle.old) × (value.new ≡ value.old) }
{
    let Some(mut opened) = handle.take(alloc) else {
        return CLOSED;
    };
    let code = word_in(&mut opened, word, value);
    handle.put(opened);
    code
}

/// The same of a member that was taken out of its handle.
fn word_in(opened: &mut OpenedMember, word: u32, value: &mut u64) -> u32
    ensures code { result ≡ word_code (Some opened.old) word }
    ensures value { result ≡ ok → ReadsWord opened.old word value.new opened.new }
    ensures untouched { result ≢ ok → (opened.new ≡ opened.old) × (value.new ≡ value.old) }
{
    if word as usize >= WORDS {
        return NO_WORD;
    }
    *value = opened.member.read(word as usize);
    OK
}

/// Where a thread is, in a turn.
///
/// The code is the first of: closed, no such thread, in no turn; the clock is no thread.
#[unsafe(no_mangle)]
pub extern "C" fn voldazpe_lib_member_place(
    alloc: Global,
    handle: &mut MemberHandle,
    thread: u32,
    place: &mut WirePlace,
) -> u32
    ensures code { result ≡ thread_code (member_of handle.old) thread }
    ensures place { result ≡ ok → OfArbiter (member_of handle.old)
        (λ arbiter. place.new ≡ place_shown (place_of arbiter.machine arbiter.standing.seats thread)) }
    ensures untouched { result ≢ ok → place.new ≡ place.old }
    ensures same { member_of handle.new ≡ member_of handle.old }
{
    let Some(mut opened) = handle.take(alloc) else {
        return CLOSED;
    };
    let code = place_in(&mut opened, thread, place);
    handle.put(opened);
    code
}

/// The same of a member that was taken out of its handle.
fn place_in(opened: &mut OpenedMember, thread: u32, place: &mut WirePlace) -> u32
    ensures code { result ≡ thread_code (Some opened.old) thread }
    ensures place { result ≡ ok → OfArbiter (Some opened.old)
        (λ arbiter. place.new ≡ place_shown (place_of arbiter.machine arbiter.standing.seats thread)) }
    ensures untouched { result ≢ ok → place.new ≡ place.old }
    ensures same { opened.new ≡ opened.old }
{
    let Some(thread) = thread_of(thread) else {
        return NO_CLIENT;
    };
    if !opened.member.is_in_turn() {
        return NO_TURN;
    }
    *place = place_of(opened.member.look(|core| core.place(thread)));
    OK
}

/// The thread that is on the core of a number, in a turn.
///
/// The code is the first of: closed, in no turn, no owner (the core is free, or not managed).
#[unsafe(no_mangle)]
pub extern "C" fn voldazpe_lib_member_owner(
    alloc: Global,
    handle: &mut MemberHandle,
    core: u16,
    thread: &mut u32,
) -> u32
    ensures untried { held_code (member_of handle.old) ≢ ok → result ≡ held_code (member_of handle.old) }
    ensures owner { held_code (member_of handle.old) ≡ ok → OfArbiter (member_of handle.old)
        (λ arbiter. ((number : ℕ) → ((result ≡ ok) × (thread.new ≡ number)) ↔ IsOwnerAt (Some arbiter) core number)
        × ((result ≡ no_owner) ↔ HasNoOwner (Some arbiter) core)) }
    ensures untouched { result ≢ ok → thread.new ≡ thread.old }
    ensures same { member_of handle.new ≡ member_of handle.old }
{
    let Some(mut opened) = handle.take(alloc) else {
        return CLOSED;
    };
    let code = owner_in(&mut opened, core, thread);
    handle.put(opened);
    code
}

/// The same of a member that was taken out of its handle.
fn owner_in(opened: &mut OpenedMember, core: u16, thread: &mut u32) -> u32
    ensures untried { held_code (Some opened.old) ≢ ok → result ≡ held_code (Some opened.old) }
    ensures owner { held_code (Some opened.old) ≡ ok → OfArbiter (Some opened.old)
        (λ arbiter. ((number : ℕ) → ((result ≡ ok) × (thread.new ≡ number)) ↔ IsOwnerAt (Some arbiter) core number)
        × ((result ≡ no_owner) ↔ HasNoOwner (Some arbiter) core)) }
    ensures untouched { result ≢ ok → thread.new ≡ thread.old }
    ensures same { opened.new ≡ opened.old }
{
    if !opened.member.is_in_turn() {
        return NO_TURN;
    }
    let find = |arbiter: &Core|
        ensures { FindsOwner arbiter.now core result }
    { arbiter.owner(core) };
    let Some(owner) = opened.member.look(find) else {
        return NO_OWNER;
    };
    *thread = owner.index() as u32;
    OK
}

/// How many cores are due to an application, owned by it and asked back of it, and how many of its threads wait, in a turn.
///
/// The code is the first of: closed, no such application, in no turn. All are 0 of one that hasn't joined.
#[unsafe(no_mangle)]
pub extern "C" fn voldazpe_lib_member_counts(
    alloc: Global,
    handle: &mut MemberHandle,
    application: u32,
    counts: &mut WireCounts,
) -> u32
    ensures code { result ≡ application_code (member_of handle.old) application }
    ensures counts { result ≡ ok → OfArbiter (member_of handle.old)
        (λ arbiter. counts.new ≡ counts_shown arbiter application) }
    ensures untouched { result ≢ ok → counts.new ≡ counts.old }
    ensures same { member_of handle.new ≡ member_of handle.old }
{
    let Some(mut opened) = handle.take(alloc) else {
        return CLOSED;
    };
    let code = counts_in(&mut opened, application, counts);
    handle.put(opened);
    code
}

/// The same of a member that was taken out of its handle.
fn counts_in(opened: &mut OpenedMember, application: u32, counts: &mut WireCounts) -> u32
    ensures code { result ≡ application_code (Some opened.old) application }
    ensures counts { result ≡ ok → OfArbiter (Some opened.old)
        (λ arbiter. counts.new ≡ counts_shown arbiter application) }
    ensures untouched { result ≢ ok → counts.new ≡ counts.old }
    ensures same { opened.new ≡ opened.old }
{
    let Some(application) = application_of(application) else {
        return NO_APPLICATION;
    };
    if !opened.member.is_in_turn() {
        return NO_TURN;
    }
    *counts = opened.member.look(|core| counts_of(core, application));
    OK
}

/// What an application asks for, as far as it counts, in a turn: cut at its cap, where it has one.
///
/// The code is the first of: closed, no such application, in no turn, no request (it hasn't joined).
#[unsafe(no_mangle)]
pub extern "C" fn voldazpe_lib_member_requested(
    alloc: Global,
    handle: &mut MemberHandle,
    application: u32,
    request: &mut WireRequest,
) -> u32
    ensures untried { application_code (member_of handle.old) application ≢ ok
        → result ≡ application_code (member_of handle.old) application }
    ensures request { application_code (member_of handle.old) application ≡ ok → OfArbiter (member_of handle.old)
        (λ arbiter. (result ≡ request_code arbiter application)
        × (result ≡ ok → request_shown arbiter application ≡ Some request.new.cores)) }
    ensures untouched { result ≢ ok → request.new ≡ request.old }
    ensures same { member_of handle.new ≡ member_of handle.old }
{
    let Some(mut opened) = handle.take(alloc) else {
        return CLOSED;
    };
    let code = requested_in(&mut opened, application, request);
    handle.put(opened);
    code
}

/// The same of a member that was taken out of its handle.
fn requested_in(opened: &mut OpenedMember, application: u32, request: &mut WireRequest) -> u32
    ensures untried { application_code (Some opened.old) application ≢ ok
        → result ≡ application_code (Some opened.old) application }
    ensures request { application_code (Some opened.old) application ≡ ok → OfArbiter (Some opened.old)
        (λ arbiter. (result ≡ request_code arbiter application)
        × (result ≡ ok → request_shown arbiter application ≡ Some request.new.cores)) }
    ensures untouched { result ≢ ok → request.new ≡ request.old }
    ensures same { opened.new ≡ opened.old }
{
    let Some(application) = application_of(application) else {
        return NO_APPLICATION;
    };
    if !opened.member.is_in_turn() {
        return NO_TURN;
    }
    match opened.member.look(|core| core.request(application)) {
        Some(asked) => {
            *request = request_of(asked);
            OK
        }
        None => NO_REQUEST,
    }
}

/// The latest moment, in microseconds, in a turn.
///
/// The code is the first of: closed, in no turn.
#[unsafe(no_mangle)]
pub extern "C" fn voldazpe_lib_member_clock(
    alloc: Global,
    handle: &mut MemberHandle,
    moment: &mut u64,
) -> u32
    ensures code { result ≡ held_code (member_of handle.old) }
    ensures moment { result ≡ ok → OfArbiter (member_of handle.old) (λ arbiter. moment.new ≡ arbiter.standing.clock) }
    ensures untouched { result ≢ ok → moment.new ≡ moment.old }
    ensures same { member_of handle.new ≡ member_of handle.old }
{
    let Some(mut opened) = handle.take(alloc) else {
        return CLOSED;
    };
    let code = clock_in(&mut opened, moment);
    handle.put(opened);
    code
}

/// The same of a member that was taken out of its handle.
fn clock_in(opened: &mut OpenedMember, moment: &mut u64) -> u32
    ensures code { result ≡ held_code (Some opened.old) }
    ensures moment { result ≡ ok → OfArbiter (Some opened.old) (λ arbiter. moment.new ≡ arbiter.standing.clock) }
    ensures untouched { result ≢ ok → moment.new ≡ moment.old }
    ensures same { opened.new ≡ opened.old }
{
    if !opened.member.is_in_turn() {
        return NO_TURN;
    }
    *moment = opened.member.look(|core| core.clock());
    OK
}

/// The machine's counts, its grace, and its limit on orders, which is 0 where its text states none.
///
/// The code says where the handle is closed.
#[unsafe(no_mangle)]
pub extern "C" fn voldazpe_lib_member_machine(
    alloc: Global,
    handle: &mut MemberHandle,
    machine: &mut WireMachine,
) -> u32
    ensures code { result ≡ open_code (member_of handle.old) }
    ensures machine { result ≡ ok → IfSome (described_of handle.old)
        (λ text. machine.new ≡ machine_shown text.machine text.limit) }
    ensures untouched { result ≢ ok → machine.new ≡ machine.old }
    ensures same { member_of handle.new ≡ member_of handle.old }
{
    let Some(opened) = handle.take(alloc) else {
        return CLOSED;
    };
    let text = opened.described();
    *machine = machine_of(text.topology(), text.limit());
    handle.put(opened);
    OK
}

/// The number and the socket of the core at a position.
///
/// The code is the first of: closed, no such position.
#[unsafe(no_mangle)]
pub extern "C" fn voldazpe_lib_member_core_at(
    alloc: Global,
    handle: &mut MemberHandle,
    position: u32,
    core: &mut WireCore,
) -> u32
    ensures code { result ≡ position_code (described_of handle.old) position }
    ensures core { result ≡ ok → IfSome (described_of handle.old) (λ text. core.new ≡ core_shown text.machine position) }
    ensures untouched { result ≢ ok → core.new ≡ core.old }
    ensures same { member_of handle.new ≡ member_of handle.old }
{
    let Some(opened) = handle.take(alloc) else {
        return CLOSED;
    };
    let topology = opened.described().topology();
    let code = if position < topology.managed() as u32 {
        *core = WireCore {
            number: topology.core_at(position as u8),
            socket: topology.socket_of(position as u8),
        };
        OK
    } else {
        NO_POSITION
    };
    handle.put(opened);
    code
}

/// The number and the socket of an unmanaged core, by its index in the lists of all sockets joined in order.
///
/// The code is the first of: closed, no such index.
#[unsafe(no_mangle)]
pub extern "C" fn voldazpe_lib_member_unmanaged_at(
    alloc: Global,
    handle: &mut MemberHandle,
    index: u32,
    core: &mut WireCore,
) -> u32
    ensures code { result ≡ index_code (described_of handle.old) index }
    ensures core { result ≡ ok → IfSome (described_of handle.old) (λ text. slice_get text.unmanaged index ≡ Some core.new) }
    ensures untouched { result ≢ ok → core.new ≡ core.old }
    ensures same { member_of handle.new ≡ member_of handle.old }
{
    let Some(opened) = handle.take(alloc) else {
        return CLOSED;
    };
    let unmanaged = opened.described().unmanaged();
    let code = if (index as usize) < unmanaged.len() {
        *core = unmanaged[index as usize];
        OK
    } else {
        NO_POSITION
    };
    handle.put(opened);
    code
}
