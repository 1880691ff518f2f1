//! What no topology keeps of a machine's text: the sockets of its unmanaged cores, and whether it states a limit on orders.

ghost use Rattle.std.specs.Prelude.{◌≡◌, ◌≤◌, ◌++◌, Some, codes, length, map, option_map, IfOk};
ghost use Rattle.toml.specs.Data.{get_member};
ghost use Rattle.toml.specs.View.{table_view, view};
ghost use Rattle.arb_config.specs.Conditions.{cores_at, cores_under, sockets_in};
ghost use Rattle.arb_config.specs.Limits.{highest_core, max_sockets};
ghost use Rattle.arb_config.specs.Tree.{elements_at, elements_in, members_in, number_within};
ghost use Rattle.arb_c.specs.Holding.{core_on, limit_of, unmanaged_cores};

use crate::wire::WireCore;
use arb_config::{CORE_NUMBERS, Topology};
use std::alloc::{AllocError, Global};
use toml::{Table, Value};

/// How many orders may be entered: as many as the machine takes where the document says how many, else as many as can be counted.
pub fn limit_of(table: &Table, topology: &Topology) -> u64
    ensures { result ≡ limit_of (table_view table.now) topology.now }
{
    match value_at(table, "orders") {
        Some(_) => topology.orders() as u64,
        None => u64::MAX,
    }
}

/// The unmanaged cores of a document: sockets in order, in each the order of its list.
pub fn unmanaged_cores(alloc: Global, table: &Table) -> Result<Vec<WireCore>, AllocError>
    requires { length (sockets_in (table_view table.now)) ≤ max_sockets }
    ensures cores { IfOk result (λ cores. cores.items ≡ unmanaged_cores (table_view table.now)) }
    ensures numbers { IfOk result (λ cores. map (λ core. core.number) cores.items
        ≡ cores_under (codes "unmanaged") (table_view table.now)) }
{
    let mut cores = Vec::new(alloc);
    for (number, socket) in elements_at(table, "socket").iter().enumerate() {
        add_cores(&mut cores, number as u8, socket)?;
    }
    Ok(cores)
}

/// Adds the unmanaged cores of a socket and its number.
fn add_cores(cores: &mut Vec<WireCore>, socket: u8, value: &Value) -> Result<(), AllocError>
    ensures { IfOk result (λ _. cores.new.items
        ≡ cores.old.items ++ map (core_on socket) (cores_at (codes "unmanaged") (view value.now))) }
{
    for listed in elements_under(value, "unmanaged") {
        if let Some(number) = core_number(listed) {
            cores.push(WireCore { number, socket })?;
        }
    }
    Ok(())
}

/// The core number that a value is, where it is one.
fn core_number(value: &Value) -> Option<u16>
    ensures { result ≡ number_within 0 highest_core (view value.now) }
{
    let Some(integer) = value.as_integer() else {
        return None;
    };
    match u64::try_from(integer) {
        Ok(number) if number < CORE_NUMBERS as u64 => Some(number as u16),
        _ => None,
    }
}

/// The elements of the array at a key of a value that is a table, or none.
fn elements_under<'a>(value: &'a Value, key: &str) -> &'a [Value]
    ensures { map view result.now ≡ elements_at key.now (members_in (view value.now)) }
{
    match value.as_table() {
        Some(table) => elements_at(table, key),
        None => &[],
    }
}

/// The elements of the array at a key, or none where there is no array.
fn elements_at<'a>(table: &'a Table, key: &str) -> &'a [Value]
    ensures { map view result.now ≡ elements_at key.now (table_view table.now) }
{
    match value_at(table, key) {
        Some(value) => elements(value),
        None => &[],
    }
}

/// The value at a key.
fn value_at<'a>(table: &'a Table, key: &str) -> Option<&'a Value>
    ensures { option_map (λ value. view value.now) result ≡ get_member key.now (table_view table.now) }
{
    table.get(key)
}

/// The elements of a value that is an array, or none.
fn elements(value: &Value) -> &[Value]
    ensures { map view result.now ≡ elements_in (Some (view value.now)) }
{
    match value.as_array() {
        Some(items) => items.as_slice(),
        None => &[],
    }
}
