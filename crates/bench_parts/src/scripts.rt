//! Scripts: of the sequence, and of any orders.

use crate::sequence::{Given, Sequence};
use anyhow::Result;
use arb_script::{order_line, read_script};
use arb_share::Watched;
use std::alloc::{AllocError, Global};
use std::io::Read;

/// The text of a script of the first orders of a sequence, one line for each order.
pub fn script_text(
    alloc: Global,
    mut sequence: Sequence,
    orders: usize,
) -> Result<String, AllocError> {
    let mut script = String::new(alloc);
    for _ in 0..orders {
        let (client, order) = sequence.next_order();
        script.push_str(order_line(client, &order).as_str())?;
    }
    Ok(script)
}

/// The orders of a script.
pub fn script_orders<I: Read + Drop>(alloc: Global, input: I) -> Result<Vec<Given>> {
    let script = read_script(alloc, &mut Watched::new(input))?;
    let mut orders = Vec::with_capacity(alloc, script.len())?;
    for place in 0..script.len() {
        orders.push((script.client(place), script.order(place)))?;
    }
    Ok(orders)
}
