//! Reading a TOML tree: the elements of an array, and numbers in a range.

ghost use Rattle.std.specs.Prelude.{◌≡◌, ◌≤◌, codes, map, option_map, IfOk, IfSome};
ghost use Rattle.toml.specs.Data.{get_member};
ghost use Rattle.toml.specs.View.{table_view, view};
ghost use Rattle.arb_config.specs.Conditions.{cores_at, cores_under, is_outside, listed_cores, sockets_in};
ghost use Rattle.arb_config.specs.Config.{number_or};
ghost use Rattle.arb_config.specs.Limits.{highest_core};
ghost use Rattle.arb_config.specs.Tree.{elements_at, elements_in, members_in, number_within};

use crate::limits::HIGHEST_CORE;
use std::alloc::{AllocError, Global};
use toml::{Table, Value};

/// The value at a key.
pub fn value_at<'a>(table: &'a Table, key: &str) -> Option<&'a Value>
    ensures { option_map (λ value. view value.now) result ≡ get_member key.now (table_view table.now) }
{
    table.get(key)
}

/// The elements of the array at a key, or none where there is no array.
pub fn elements_at<'a>(table: &'a Table, key: &str) -> &'a [Value]
    ensures { map view result.now ≡ elements_at key.now (table_view table.now) }
{
    match value_at(table, key) {
        Some(value) => elements(value),
        None => &[],
    }
}

/// The elements of a value that is an array, or none.
fn elements(value: &Value) -> &[Value]
    ensures { map view result.now ≡ elements_in (Some (view value.now)) }
{
    match value.as_array() {
        Some(items) => items.as_slice(),
        None => &[],
    }
}

/// The elements of the array at a key of a value that is a table, or none.
pub fn elements_under<'a>(value: &'a Value, key: &str) -> &'a [Value]
    ensures { map view result.now ≡ elements_at key.now (members_in (view value.now)) }
{
    match value.as_table() {
        Some(table) => elements_at(table, key),
        None => &[],
    }
}

/// The number that a value is, where it is an integer from `low` to `high`.
pub fn number_within(value: &Value, low: u64, high: u64) -> Option<u64>
    ensures value { result ≡ number_within low high (view value.now) }
    ensures above { IfSome result (λ number. low ≤ number) }
    ensures below { IfSome result (λ number. number ≤ high) }
{
    let Some(integer) = value.as_integer() else {
        return None;
    };
    match u64::try_from(integer) {
        Ok(number) if low <= number && number <= high => Some(number),
        _ => None,
    }
}

/// Whether a value is an integer that is not from `low` to `high`.
pub fn is_outside(value: &Value, low: u64, high: u64) -> bool
    ensures { result ≡ is_outside low high (view value.now) }
{
    value.is_integer() && number_within(value, low, high).is_none()
}

/// The core number that a value is, where it is one.
pub fn core_number(value: &Value) -> Option<u16>
    ensures { result ≡ number_within 0 highest_core (view value.now) }
{
    number_within(value, 0, HIGHEST_CORE).map(|number| number as u16)
}

/// The core numbers of the list at a key of a socket.
pub fn cores_at(alloc: Global, socket: &Value, key: &str) -> Result<Vec<u16>, AllocError>
    ensures { IfOk result (λ cores. cores.items ≡ cores_at key.now (view socket.now)) }
{
    let mut cores = Vec::new(alloc);
    for value in elements_under(socket, key) {
        if let Some(core) = core_number(value) {
            cores.push(core)?;
        }
    }
    Ok(cores)
}

/// The core numbers at a key of all sockets, joined in order.
pub fn cores_under(alloc: Global, table: &Table, key: &str) -> Result<Vec<u16>, AllocError>
    ensures { IfOk result (λ cores. cores.items ≡ cores_under key.now (table_view table.now)) }
{
    let mut all = Vec::new(alloc);
    for socket in elements_at(table, "socket") {
        let cores = cores_at(alloc, socket, key)?;
        all.extend_from_slice(cores.as_slice())?;
    }
    Ok(all)
}

/// All core numbers: sockets in order, in each the managed list and then the unmanaged one.
pub fn listed_cores(alloc: Global, table: &Table) -> Result<Vec<u16>, AllocError>
    ensures { IfOk result (λ cores. cores.items ≡ listed_cores (table_view table.now)) }
{
    let mut all = Vec::new(alloc);
    for socket in elements_at(table, "socket") {
        let managed = cores_at(alloc, socket, "managed")?;
        all.extend_from_slice(managed.as_slice())?;
        let unmanaged = cores_at(alloc, socket, "unmanaged")?;
        all.extend_from_slice(unmanaged.as_slice())?;
    }
    Ok(all)
}

/// The managed cores of each socket.
pub fn managed_lists(alloc: Global, table: &Table) -> Result<Vec<Vec<u16>>, AllocError>
    ensures { IfOk result (λ lists. map (λ cores. cores.items) lists.items
        ≡ map (cores_at (codes "managed")) (sockets_in (table_view table.now))) }
{
    let mut lists = Vec::new(alloc);
    for socket in elements_at(table, "socket") {
        lists.push(cores_at(alloc, socket, "managed")?)?;
    }
    Ok(lists)
}

/// The number at a key, or the default where there is none from `low` to `high`.
pub fn number_or(table: &Table, key: &str, default: u64, low: u64, high: u64) -> u64
    ensures { result ≡ number_or default low high key.now (table_view table.now) }
{
    match value_at(table, key) {
        Some(value) => number_within(value, low, high).unwrap_or(default),
        None => default,
    }
}
