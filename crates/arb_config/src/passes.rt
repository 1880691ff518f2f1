//! The passes over a configuration's tree: one for each condition under which it is refused, in their order.

ghost use Rattle.std.specs.Prelude.{◌≡◌, IfOk};
ghost use Rattle.toml.specs.View.{table_view, view};
ghost use Rattle.arb_config.specs.Conditions as wanted;
ghost use Rattle.arb_config.specs.Config.{fault_of_cores, first_fault};

use crate::fault::ConfigFault;
use crate::limits::{HIGHEST_CORE, MAX_GRACE, MAX_MANAGED, MAX_ORDERS, MAX_SOCKETS};
use crate::tree::{cores_under, elements_at, elements_under, is_outside, listed_cores, value_at};
use std::alloc::{AllocError, Global};
use toml::{Table, Value};

/// The first fault that applies to the tree.
pub fn first_fault(alloc: Global, table: &Table) -> Result<Option<ConfigFault>, AllocError>
    ensures { IfOk result (λ fault. fault ≡ first_fault (table_view table.now)) }
{
    if has_unknown_key(table) {
        return Ok(Some(ConfigFault::UnknownKey));
    }
    if has_bad_key(table) {
        return Ok(Some(ConfigFault::BadKey));
    }
    if has_number_outside(table) {
        return Ok(Some(ConfigFault::OutOfRange));
    }
    fault_of_cores(alloc, table)
}

/// The first fault of those that look at the numbers of sockets and cores, and at the cores themselves.
fn fault_of_cores(alloc: Global, table: &Table) -> Result<Option<ConfigFault>, AllocError>
    ensures { IfOk result (λ fault. fault ≡ fault_of_cores (table_view table.now)) }
{
    if has_wrong_socket_count(table) {
        return Ok(Some(ConfigFault::SocketCount));
    }
    if let Some(core) = repeated_core(alloc, table)? {
        return Ok(Some(ConfigFault::CoreTwice(core)));
    }
    if has_wrong_managed_count(alloc, table)? {
        return Ok(Some(ConfigFault::ManagedCount));
    }
    if has_no_unmanaged(alloc, table)? {
        return Ok(Some(ConfigFault::NoUnmanaged));
    }
    Ok(None)
}

/// Whether the top table, or a table in the `socket` array, has a key that the format does not have.
fn has_unknown_key(table: &Table) -> bool
    ensures { result ≡ wanted.has_unknown_key (table_view table.now) }
{
    has_unknown_top_key(table)
        || elements_at(table, "socket")
            .iter()
            .any(has_unknown_socket_key)
}

fn has_unknown_top_key(table: &Table) -> bool
    ensures { result ≡ wanted.has_unknown_top_key (table_view table.now) }
{
    table.keys().any(|key| !is_top_key(key.as_str()))
}

fn has_unknown_socket_key(socket: &Value) -> bool
    ensures { result ≡ wanted.has_unknown_socket_key (view socket.now) }
{
    match socket.as_table() {
        Some(table) => table.keys().any(|key| !is_socket_key(key.as_str())),
        None => false,
    }
}

fn is_top_key(key: &str) -> bool
    ensures { result ≡ wanted.is_top_key key.now }
{
    key == "grace" || key == "orders" || key == "socket"
}

fn is_socket_key(key: &str) -> bool
    ensures { result ≡ wanted.is_socket_key key.now }
{
    key == "managed" || key == "unmanaged"
}

/// Whether a needed key is missing, or a value has another type than its key wants.
fn has_bad_key(table: &Table) -> bool
    ensures { result ≡ wanted.has_bad_key (table_view table.now) }
{
    !(is_integer_or_missing(table, "grace")
        && is_integer_or_missing(table, "orders")
        && has_socket_array(table))
}

fn is_integer_or_missing(table: &Table, key: &str) -> bool
    ensures { result ≡ wanted.is_integer_or_missing key.now (table_view table.now) }
{
    match value_at(table, key) {
        Some(value) => value.is_integer(),
        None => true,
    }
}

fn has_socket_array(table: &Table) -> bool
    ensures { result ≡ wanted.has_socket_array (table_view table.now) }
{
    match value_at(table, "socket") {
        Some(value) => is_socket_array(value),
        None => false,
    }
}

fn is_socket_array(value: &Value) -> bool
    ensures { result ≡ wanted.is_array_of wanted.is_socket (view value.now) }
{
    match value.as_array() {
        Some(sockets) => sockets.iter().all(is_socket),
        None => false,
    }
}

fn is_socket(value: &Value) -> bool
    ensures { result ≡ wanted.is_socket (view value.now) }
{
    match value.as_table() {
        Some(table) => has_core_array(table, "managed") && has_core_array(table, "unmanaged"),
        None => false,
    }
}

fn has_core_array(table: &Table, key: &str) -> bool
    ensures { result ≡ wanted.has_core_array key.now (table_view table.now) }
{
    match value_at(table, key) {
        Some(value) => is_core_array(value),
        None => false,
    }
}

fn is_core_array(value: &Value) -> bool
    ensures { result ≡ wanted.is_array_of wanted.is_integer (view value.now) }
{
    match value.as_array() {
        Some(cores) => cores.iter().all(Value::is_integer),
        None => false,
    }
}

/// Whether an integer is outside the range of its key.
fn has_number_outside(table: &Table) -> bool
    ensures { result ≡ wanted.has_number_outside (table_view table.now) }
{
    has_top_number_outside(table) || elements_at(table, "socket").iter().any(has_core_outside)
}

fn has_top_number_outside(table: &Table) -> bool
    ensures { result ≡ wanted.has_top_number_outside (table_view table.now) }
{
    is_outside_at(table, "grace", 1, MAX_GRACE)
        || is_outside_at(table, "orders", 1, u64::from(MAX_ORDERS))
}

fn is_outside_at(table: &Table, key: &str, low: u64, high: u64) -> bool
    ensures { result ≡ wanted.is_outside_at low high key.now (table_view table.now) }
{
    match value_at(table, key) {
        Some(value) => is_outside(value, low, high),
        None => false,
    }
}

fn has_core_outside(socket: &Value) -> bool
    ensures { result ≡ wanted.has_core_outside (view socket.now) }
{
    has_core_outside_at(socket, "managed") || has_core_outside_at(socket, "unmanaged")
}

fn has_core_outside_at(socket: &Value, key: &str) -> bool
    ensures { result ≡ wanted.has_core_outside_at key.now (view socket.now) }
{
    elements_under(socket, key)
        .iter()
        .any(|value| is_outside(value, 0, HIGHEST_CORE))
}

/// Whether there are no sockets, or too many.
fn has_wrong_socket_count(table: &Table) -> bool
    ensures { result ≡ wanted.has_wrong_socket_count (table_view table.now) }
{
    let count = elements_at(table, "socket").len();
    count < 1 || MAX_SOCKETS < count
}

/// The first core that equals an earlier one.
fn repeated_core(alloc: Global, table: &Table) -> Result<Option<u16>, AllocError>
    ensures { IfOk result (λ core. core ≡ wanted.first_repeated (wanted.listed_cores (table_view table.now))) }
{
    let cores = listed_cores(alloc, table)?;
    Ok(first_repeated(cores.as_slice()))
}

/// The first number of the list that equals an earlier one. It looks at no more than the first
/// [`CORE_NUMBERS`](crate::CORE_NUMBERS) numbers and the next one, since among those one equals an earlier one.
fn first_repeated(cores: &[u16]) -> Option<u16>
    ensures { result ≡ wanted.first_repeated cores.now }
{
    for (index, core) in cores.iter().enumerate() {
        if cores[..index].contains(core) {
            return Some(*core);
        }
    }
    None
}

/// Whether all sockets together have no managed cores, or too many.
fn has_wrong_managed_count(alloc: Global, table: &Table) -> Result<bool, AllocError>
    ensures { IfOk result (λ wrong. wrong ≡ wanted.has_wrong_managed_count (table_view table.now)) }
{
    let cores = cores_under(alloc, table, "managed")?;
    Ok(cores.len() < 1 || MAX_MANAGED < cores.len())
}

/// Whether no socket has an unmanaged core.
fn has_no_unmanaged(alloc: Global, table: &Table) -> Result<bool, AllocError>
    ensures { IfOk result (λ none. none ≡ wanted.has_no_unmanaged (table_view table.now)) }
{
    let cores = cores_under(alloc, table, "unmanaged")?;
    Ok(cores.is_empty())
}
