//! Opening and closing members.

ghost use Rattle.std.specs.Prelude.{◌≡◌, ◌≢◌, ◌↔◌, ◌<◌, ◌≤◌, IsSome, None, Some, IsOk, Err, length};
ghost use Rattle.std.specs.Str.{IsUtf8};
ghost use Rattle.toml.specs.Parse.{parse_document};
ghost use Rattle.arb_config.specs.declared.fault.ConfigFault.{ConfigFault};
ghost use Rattle.arb_config.specs.declared.fault.ConfigFault.TheVariants.{Memory};
ghost use Rattle.arb_config.specs.Config.{outcome_of};
ghost use Rattle.arb_c.specs.Codes.{already_open, core_named, core_twice, fault_code, not_utf8, ok, out_of_memory, too_long};
ghost use Rattle.arb_c.specs.Calls.{IsOpenable, max_text};
ghost use Rattle.arb_c.specs.Members.{Copies, IsAsBefore, OfBoth, OpensShared, SameHistory, free_code, member_of};

use crate::codes::{
    ALREADY_OPEN, CLOSED, IN_TURN, NOT_UTF8, OK, OUT_OF_MEMORY, TOO_LONG, fault_code,
};
use crate::lifetime::MAX_TEXT;
use crate::member::handle::MemberHandle;
use crate::member::opened::OpenedMember;
use arb_config::Topology;
use std::alloc::Global;

/// Opens a closed handle on the first member of an arbiter: that of the machine that a TOML text describes, before all orders.
///
/// The code is the first of: already open, too long, not UTF-8, the first fault of the configuration. Out of memory comes
/// only where an allocation failed. Where a core is listed twice, `named` becomes its number.
#[unsafe(no_mangle)]
pub extern "C" fn voldazpe_lib_member_open(
    alloc: Global,
    handle: &mut MemberHandle,
    text: &[u8],
    named: &mut u16,
) -> u32
    ensures opens { result ≡ ok → OpensShared (member_of handle.new) text.now }
    ensures untouched { result ≢ ok → member_of handle.new ≡ member_of handle.old }
    ensures named { result ≢ core_twice → named.new ≡ named.old }

    // which code comes when
    ensures done { (result ≡ ok) ↔ (IsOpenable (member_of handle.old) text.now
        × IsOk (outcome_of (parse_document text.now)) × (result ≢ out_of_memory)) }
    ensures again { (result ≡ already_open) ↔ IsSome (member_of handle.old) }
    ensures long { (result ≡ too_long) ↔ ((member_of handle.old ≡ None) × (max_text < length text.now)) }
    ensures text { (result ≡ not_utf8) ↔ ((member_of handle.old ≡ None) × (length text.now ≤ max_text)
        × ¬ (IsUtf8 text.now)) }
    ensures fault { (fault : ConfigFault) → fault ≢ Memory
        → ((result ≡ fault_code fault) × (named.new ≡ core_named fault named.old))
        ↔ (IsOpenable (member_of handle.old) text.now
        × (outcome_of (parse_document text.now) ≡ Err fault) × (result ≢ out_of_memory)) }
    ensures memory { result ≡ out_of_memory → IsOpenable (member_of handle.old) text.now }
{
    if handle.is_open() {
        return ALREADY_OPEN;
    }
    if text.len() > MAX_TEXT {
        return TOO_LONG;
    }
    let Ok(text) = std::str::from_utf8(text) else {
        return NOT_UTF8;
    };
    match Topology::from_text(alloc, text) {
        Ok(topology) => match OpenedMember::open(alloc, text, topology) {
            Ok(opened) => {
                handle.put(opened);
                OK
            }
            Err(_) => OUT_OF_MEMORY,
        },
        Err(fault) => fault_code(fault, named),
    }
}

/// Opens a closed handle on one more member of an arbiter, for another thread. It has seen as much as the first one.
///
/// The code is the first of: already open (the other), closed, in a turn. Out of memory comes only where an allocation failed.
#[unsafe(no_mangle)]
pub extern "C" fn voldazpe_lib_member_another(
    alloc: Global,
    handle: &mut MemberHandle,
    other: &mut MemberHandle,
) -> u32
    ensures again { (result ≡ already_open) ↔ IsSome (member_of other.old) }
    ensures code { member_of other.old ≡ None → result ≢ ok → result ≢ out_of_memory → result ≡ free_code (member_of handle.old) }
    ensures memory { result ≡ out_of_memory → free_code (member_of handle.old) ≡ ok }
    ensures opens { result ≡ ok → OfBoth (member_of handle.old) (member_of other.new) Copies }
    ensures untouched { result ≢ ok → member_of other.new ≡ member_of other.old }
    ensures same { IsAsBefore (member_of handle.old) (member_of handle.new) }
{
    if other.is_open() {
        return ALREADY_OPEN;
    }
    let Some(mut opened) = handle.take(alloc) else {
        return CLOSED;
    };
    let code = copied(alloc, &mut opened, other);
    handle.put(opened);
    code
}

/// The same of a member that was taken out of its handle.
fn copied(alloc: Global, opened: &mut OpenedMember, other: &mut MemberHandle) -> u32
    requires { member_of other.old ≡ None }
    ensures code { result ≢ ok → result ≢ out_of_memory → result ≡ free_code (Some opened.old) }
    ensures memory { result ≡ out_of_memory → free_code (Some opened.old) ≡ ok }
    ensures new { result ≢ already_open }
    ensures opens { result ≡ ok → OfBoth (Some opened.old) (member_of other.new) Copies }
    ensures untouched { result ≢ ok → member_of other.new ≡ member_of other.old }
    ensures same { SameHistory opened.old opened.new }
{
    if opened.member.is_in_turn() {
        return IN_TURN;
    }
    match opened.another(alloc) {
        Ok(made) => {
            other.put(made);
            OK
        }
        Err(_) => OUT_OF_MEMORY,
    }
}

/// Closes a handle, whose member is in no turn. The last member of an arbiter frees it.
///
/// The code is the first of: closed, in a turn.
#[unsafe(no_mangle)]
pub extern "C" fn voldazpe_lib_member_close(alloc: Global, handle: &mut MemberHandle) -> u32
    ensures code { result ≡ free_code (member_of handle.old) }
    ensures closed { result ≡ ok → member_of handle.new ≡ None }
    ensures untouched { result ≢ ok → member_of handle.new ≡ member_of handle.old }
{
    let Some(opened) = handle.take(alloc) else {
        return CLOSED;
    };
    if opened.member.is_in_turn() {
        handle.put(opened);
        return IN_TURN;
    }
    drop(opened);
    OK
}
