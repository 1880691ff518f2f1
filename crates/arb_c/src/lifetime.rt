//! Opening and closing.

ghost use Rattle.std.specs.Prelude.{◌≡◌, ◌≢◌, ◌↔◌, ◌<◌, ◌≤◌, IsSome, None, IsOk, IfOk, Ok, Err, length};
ghost use Rattle.std.specs.Str.{IsUtf8};
ghost use Rattle.toml.specs.Parse.{parse_document};
ghost use Rattle.arb_config.specs.declared.fault.ConfigFault.{ConfigFault};
ghost use Rattle.arb_config.specs.declared.fault.ConfigFault.TheVariants.{Memory};
ghost use Rattle.arb_config.specs.Config.{outcome_of};
ghost use Rattle.arb_config.specs.Machine.{IsMachine};
ghost use Rattle.arb_c.specs.Codes.{already_open, closed, core_named, core_twice, fault_code, not_utf8, ok, out_of_memory, too_long};
ghost use Rattle.arb_c.specs.Holding.{opening_holding};
ghost use Rattle.arb_c.specs.Handle.{held_arbiter, holding_of};
ghost use Rattle.arb_c.specs.Calls.{IsOpenable, Opens, max_text};

use crate::codes::{ALREADY_OPEN, CLOSED, NOT_UTF8, OK, OUT_OF_MEMORY, TOO_LONG, fault_code};
use crate::handle::Handle;
use crate::opened::Opened;
use crate::unmanaged::{limit_of, unmanaged_cores};
use arb_config::Topology;
use std::alloc::{AllocError, Global};

/// The most bytes that the text of a machine may have.
pub const MAX_TEXT: usize = 65_536;

/// Opens a closed handle: makes the arbiter of the machine that a TOML text describes, before all orders.
///
/// The code is the first of: already open, too long, not UTF-8, the first fault of the configuration. Out of memory comes
/// only where an allocation failed. Where a core is listed twice, `named` becomes its number.
#[unsafe(no_mangle)]
pub extern "C" fn voldazpe_lib_open(
    alloc: Global,
    handle: &mut Handle,
    text: &[u8],
    named: &mut u16,
) -> u32
    ensures opens { result ≡ ok → Opens (holding_of handle.new) text.now }
    ensures untouched { result ≢ ok → holding_of handle.new ≡ holding_of handle.old }
    ensures named { result ≢ core_twice → named.new ≡ named.old }

    // which code comes when
    ensures done { (result ≡ ok) ↔ (IsOpenable (held_arbiter handle.old) text.now
        × IsOk (outcome_of (parse_document text.now)) × (result ≢ out_of_memory)) }
    ensures again { (result ≡ already_open) ↔ IsSome (held_arbiter handle.old) }
    ensures long { (result ≡ too_long) ↔ ((held_arbiter handle.old ≡ None) × (max_text < length text.now)) }
    ensures text { (result ≡ not_utf8) ↔ ((held_arbiter handle.old ≡ None) × (length text.now ≤ max_text)
        × ¬ (IsUtf8 text.now)) }
    ensures fault { (fault : ConfigFault) → fault ≢ Memory
        → ((result ≡ fault_code fault) × (named.new ≡ core_named fault named.old))
        ↔ (IsOpenable (held_arbiter handle.old) text.now
        × (outcome_of (parse_document text.now) ≡ Err fault) × (result ≢ out_of_memory)) }
    ensures memory { result ≡ out_of_memory → IsOpenable (held_arbiter handle.old) text.now }
{
    if handle.is_open() {
        return ALREADY_OPEN;
    }
    if text.len() > MAX_TEXT {
        return TOO_LONG;
    }
    let Ok(text) = std::str::from_utf8(text) else {
        return NOT_UTF8;
    };
    match Topology::from_text(alloc, text) {
        Ok(topology) => match open_on(alloc, text, topology) {
            Ok(opened) => {
                handle.put(opened);
                OK
            }
            Err(_) => OUT_OF_MEMORY,
        },
        Err(fault) => fault_code(fault, named),
    }
}

/// The arbiter, before all orders, of a machine and the text that describes it.
///
/// # Errors
/// An allocation failed. The text is read once more, for the sockets of the unmanaged cores and for whether it has a limit.
fn open_on(alloc: Global, text: &str, topology: Topology) -> Result<Box<Opened, Global>, AllocError>
    requires machine { outcome_of (parse_document text.now) ≡ Ok topology }
    requires limits { IsMachine topology }
    ensures { IfOk result (λ opened. opened.value ≡ opening_holding (parse_document text.now) topology) }
{
    let Ok(table) = toml::table_from_str(alloc, text) else {
        return Err(AllocError);
    };
    let unmanaged = unmanaged_cores(alloc, &table)?;
    let limit = limit_of(&table, &topology);
    match Box::new(alloc, Opened::new(topology, limit, unmanaged.as_slice())) {
        Ok(opened) => Ok(opened),
        Err(_) => Err(AllocError),
    }
}

/// Closes a handle, and frees its arbiter. The code of a handle that is closed says so.
#[unsafe(no_mangle)]
pub extern "C" fn voldazpe_lib_close(alloc: Global, handle: &mut Handle) -> u32
    ensures closed { held_arbiter handle.new ≡ None }
    ensures done { (result ≡ ok) ↔ IsSome (held_arbiter handle.old) }
    ensures again { (result ≡ closed) ↔ (held_arbiter handle.old ≡ None) }
{
    match handle.take(alloc) {
        Some(opened) => {
            drop(opened);
            OK
        }
        None => CLOSED,
    }
}
