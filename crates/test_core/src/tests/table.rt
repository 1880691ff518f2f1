//! The table of orders, used from another crate, and the texts of orders, clients and replies.

use arb_core::{ClientId, Order, Place, Refusal, Reply, order_cases};
use std::alloc::AllocError;
use std::process::Abort;
use std::test::Fail;
use test_parts::{ask, ask_for, thread};

macro_rules! ignored {
    ($field:ident) => {
        _
    };
}

macro_rules! word_arms {
    (($given:ident) $({ $name:ident, $word:literal, [$($field:ident)?], $who:ident, $joined:ident, $own:ident })*) => {
        match $given {
            $(Order::$name $((ignored!($field)))? => $word,)*
        }
    };
}

/// The word of an order in scripts and reports.
fn word_of(given: &Order) -> &'static str {
    order_cases!(word_arms!(given))
}

/// An order has this word and this text.
fn reads<R: AllocGlobal + Abort>(
    rt: &R,
    given: Order,
    word: &str,
    text: &str,
) -> Result<(), AllocError> {
    let printed = given.to_string(rt.alloc())?;
    assert_eq!(rt; (word_of(&given), printed.as_str()), (word, text));
    Ok(())
}

#[test]
fn each_order_has_its_word_and_its_text(rt: HostRuntime) -> Result<(), Fail> {
    reads(&rt, Order::Join, "join", "join")?;
    reads(&rt, ask(2), "ask", "ask 2 0 0 0 0 0 0 0")?;
    let each_level = ask_for([0, 1, 9, 10, 99, 100, 127, 128]);
    reads(&rt, each_level, "ask", "ask 0 1 9 10 99 100 127 128")?;
    reads(&rt, Order::Cap(0), "cap", "cap 0")?;
    reads(&rt, Order::Cap(255), "cap", "cap 255")?;
    reads(&rt, Order::Block, "block", "block")?;
    reads(&rt, Order::Retire, "retire", "retire")?;
    reads(&rt, Order::Leave, "leave", "leave")?;
    reads(&rt, Order::Status, "status", "status")?;
    reads(&rt, Order::Tick(10_000), "tick", "tick 10000")?;
    let last = Order::Tick(u64::MAX);
    reads(&rt, last, "tick", "tick 18446744073709551615")?;
    Ok(())
}

#[test]
fn clients_and_replies_have_texts(rt: HostRuntime) -> Result<(), Fail> {
    let alloc = rt.alloc();
    let first = thread(0, 0).to_string(alloc)?;
    let last = thread(15, 31).to_string(alloc)?;
    let clock = ClientId::clock().to_string(alloc)?;
    let clients = (first.as_str(), last.as_str(), clock.as_str());
    assert_eq!(rt; clients, ("0.0", "15.31", "clock"));
    let asked = Place::On {
        core: 1023,
        asked: true,
    };
    let due = Reply::Due(128).to_string(alloc)?;
    let now = Reply::Now(asked).to_string(alloc)?;
    let back = Reply::Refused(Refusal::ClockBack(7)).to_string(alloc)?;
    let replies = (due.as_str(), now.as_str(), back.as_str());
    let texts = ("due 128", "now core 1023 asked", "refused 5 clock-back 7");
    assert_eq!(rt; replies, texts);
    Ok(())
}
