//! Scripts that are read.

use crate::setting::{padded, repeated};
use arb_core::{ClientId, Order};
use arb_script::{Script, ScriptFault, ScriptKind, print_full};
use arb_share::Watched;
use std::alloc::AllocError;
use std::process::Abort;
use std::test::Fail;
use test_parts::{THREE_APPLICATIONS, ask, ask_for, thread};

/// A text is read as a script of these orders.
fn reads_as<R: AllocGlobal + Abort>(rt: &R, text: &str, orders: &[(ClientId, Order)]) {
    match Script::from_text(rt.alloc(), text) {
        Ok(script) => {
            assert_eq!(rt; script.len(), orders.len(), "{text}");
            assert_eq!(rt; script.is_empty(), orders.is_empty(), "{text}");
            for place in 0..script.len() {
                let order = (script.client(place), script.order(place));
                assert_eq!(rt; Some(&order), orders.get(place), "{text}");
            }
        }
        Err(fault) => assert!(rt; false, "{fault} in {text}"),
    }
}

/// A text is a script of one order.
fn reads_one<R: AllocGlobal + Abort>(rt: &R, text: &str, client: ClientId, order: Order) {
    reads_as(rt, text, &[(client, order)]);
}

/// Every order may be written with every client; the arbiter refuses what isn't allowed.
#[test]
fn scripts_of_one_order(rt: HostRuntime) {
    let clock = ClientId::clock();
    let first = thread(0, 0);
    let last = Order::Tick(18_446_744_073_709_551_615);
    reads_one(&rt, "0.0 join", first, Order::Join);
    reads_one(&rt, "15.31 block", thread(15, 31), Order::Block);
    reads_one(&rt, "3.10 retire", thread(3, 10), Order::Retire);
    reads_one(&rt, "10.3 leave", thread(10, 3), Order::Leave);
    reads_one(&rt, "1.0 status", thread(1, 0), Order::Status);
    reads_one(&rt, "0.0 ask 0", first, ask(0));
    let two_levels = ask_for([1, 2, 0, 0, 0, 0, 0, 0]);
    reads_one(&rt, "0.0 ask 1 2", first, two_levels);
    let all_levels = ask_for([1, 2, 3, 4, 5, 6, 7, 128]);
    reads_one(&rt, "0.0 ask 1 2 3 4 5 6 7 128", first, all_levels);
    reads_one(&rt, "0.0 cap 0", first, Order::Cap(0));
    reads_one(&rt, "0.0 cap 255", first, Order::Cap(255));
    reads_one(&rt, "clock tick 0", clock, Order::Tick(0));
    reads_one(&rt, "clock tick 18446744073709551615", clock, last);
    // any client
    reads_one(&rt, "clock join", clock, Order::Join);
    reads_one(&rt, "clock cap 1", clock, Order::Cap(1));
    reads_one(&rt, "0.1 tick 5", thread(0, 1), Order::Tick(5));
}

/// Ways to write that client 0.0 joins.
const JOINS: &[&str] = &[
    "0.0 join\r\n",
    "0.0 join\n",
    " 0.0 join ",
    "\t0.0\t\tjoin\r\r",
    "0.0\rjoin",
    "\n\n# once\n0.0 join\n#twice",
];

/// A line that blanks make so long is an order of client 0.0, whatever ends it.
fn reads_padded<R: AllocGlobal + Abort>(
    rt: &R,
    line: &str,
    order: &Order,
) -> Result<(), AllocError> {
    for (bytes, end) in [(200, ""), (200, "\n"), (199, "\r\n")] {
        let mut text = padded(rt.alloc(), line, bytes)?;
        text.push_str(end)?;
        reads_one(rt, text.as_str(), thread(0, 0), *order);
    }
    Ok(())
}

/// Words are separated by spaces, tabs and CRs, in runs of any length, also at both ends of a line. A line of 200 bytes is read
/// whole, also where the CR before its LF is the last of them.
#[test]
fn orders_among_blanks(rt: HostRuntime) -> Result<(), Fail> {
    for text in JOINS {
        reads_one(&rt, text, thread(0, 0), Order::Join);
    }
    let all_levels = ask_for([1, 2, 3, 4, 5, 6, 7, 128]);
    reads_padded(&rt, "0.0 join", &Order::Join)?;
    reads_padded(&rt, "0.0\task 1 2 3 4 5 6 7 128", &all_levels)?;
    Ok(())
}

/// Scripts without an order; of sixteen; and of three thousand on five thousand lines, and then with one more line, which
/// is faulty.
#[test]
fn scripts_of_no_order_and_of_many(rt: HostRuntime) -> Result<(), Fail> {
    for text in [
        "",
        "\n",
        "\n\n",
        " \t\r\n",
        "# no order\n",
        "  #0.0 join",
        "#",
    ] {
        reads_as(&rt, text, &[]);
    }
    // an application joins and asks for so many cores, and so many of its threads block
    let mut orders = Vec::new(rt.alloc());
    for (app, cores, threads) in [(0, 2, 2), (1, 6, 4), (2, 6, 1)] {
        orders.push((thread(app, 0), Order::Join))?;
        orders.push((thread(app, 0), ask(cores)))?;
        for number in 0..threads {
            orders.push((thread(app, number), Order::Block))?;
        }
    }
    orders.push((thread(1, 0), Order::Block))?;
    orders.push((ClientId::clock(), Order::Tick(10_000)))?;
    orders.push((thread(1, 0), Order::Status))?;
    reads_as(&rt, THREE_APPLICATIONS, orders.as_slice());
    let mut orders = Vec::new(rt.alloc());
    for _ in 0..1_000 {
        orders.push((thread(0, 0), Order::Join))?;
        orders.push((thread(0, 1), Order::Block))?;
        orders.push((ClientId::clock(), Order::Tick(7)))?;
    }
    let lines = "0.0 join\n\n0.1 block\r\n# then\nclock tick 7\n";
    let mut text = repeated(rt.alloc(), lines, 1_000)?;
    reads_as(&rt, text.as_str(), orders.as_slice());
    text.push_str("0.0 bloc")?;
    let fault = ScriptFault {
        line: 5001,
        kind: ScriptKind::UnknownOrder,
    };
    let found = Script::from_text(rt.alloc(), text.as_str()).err();
    assert_eq!(rt; found, Some(fault));
    Ok(())
}

/// What is printed of an order is read again as the same order of the same client.
fn is_read_again<R: AllocGlobal + Abort>(rt: &R, client: ClientId, order: Order) {
    let mut sink = Watched::new(Vec::new(rt.alloc()));
    assert_eq!(rt; print_full(&mut sink, client, &order), Ok(()));
    let line = str::from_utf8(sink.inner.as_slice()).unwrap_or("");
    let text = line.strip_suffix(" -> full\n").unwrap_or("");
    reads_one(rt, text, client, order);
}

#[test]
fn printed_orders_are_read_again(rt: HostRuntime) {
    is_read_again(&rt, thread(0, 0), Order::Join);
    let asks = ask_for([128, 0, 10, 99, 100, 1, 0, 7]);
    is_read_again(&rt, thread(15, 31), asks);
    is_read_again(&rt, thread(7, 9), Order::Cap(255));
    is_read_again(&rt, thread(10, 10), Order::Block);
    is_read_again(&rt, thread(0, 31), Order::Retire);
    is_read_again(&rt, thread(15, 0), Order::Leave);
    is_read_again(&rt, ClientId::clock(), Order::Status);
    is_read_again(&rt, ClientId::clock(), Order::Tick(u64::MAX));
}
