//! Command lines, scripts, and numbers.

use crate::command_line::{Part, Task, USUAL, parse};
use crate::nanos::Nanos;
use crate::scripts::{script_orders, script_text};
use crate::sequence::{MOST, SEED, Sequence, first_orders};
use arb_script::Script;
use std::test::*;
use std::time::Duration;

/// What a command line asks for that says no seed.
fn asked(part: Part, timed: bool, orders: usize) -> Option<Task> {
    let seed = 0;
    Some(Task {
        part,
        timed,
        seed,
        orders,
    })
}

/// A script of a seed.
fn script(seed: u64, orders: usize) -> Option<Task> {
    Some(Task {
        part: Part::Gen,
        timed: false,
        seed,
        orders,
    })
}

/// Parts have names, and options come in any order. Other words are refused.
#[test]
fn command_lines_are_parsed(rt: HostRuntime) -> Result<(), Fail> {
    for (line, task) in [
        ("bench check", asked(Part::Check, false, USUAL)),
        ("bench step", asked(Part::Step, false, USUAL)),
        ("bench feed", asked(Part::Feed, false, USUAL)),
        ("bench grow", asked(Part::Grow, false, USUAL)),
        ("bench page", asked(Part::Page, false, USUAL)),
        ("bench call", asked(Part::Call, false, USUAL)),
        ("bench wait", asked(Part::Wait, false, USUAL)),
        ("bench config", asked(Part::Config, false, USUAL)),
        ("bench --help", asked(Part::Help, false, USUAL)),
        ("bench gen -h", asked(Part::Help, false, USUAL)),
        ("bench step --time 1000000", asked(Part::Step, true, MOST)),
        ("bench step 1000000 --time", asked(Part::Step, true, MOST)),
        ("bench feed --time", asked(Part::Feed, true, USUAL)),
        ("bench grow --time", asked(Part::Grow, true, USUAL)),
        ("bench page --time", asked(Part::Page, true, USUAL)),
        ("bench call --time", asked(Part::Call, true, USUAL)),
        ("bench wait --time", asked(Part::Wait, true, USUAL)),
        ("bench gen 1 0", script(1, 0)),
        ("bench", None),
        ("bench --time", None),
        ("bench steps", None),
        ("bench step 1000001", None),
        ("bench step 1 2", None),
        ("bench step --times", None),
        ("bench feed 1", None),
        ("bench grow 1", None),
        ("bench page 1", None),
        ("bench call --time 1", None),
        ("bench wait 1", None),
        ("bench wait --times", None),
        ("bench gen 1", None),
        ("bench gen 1 1000001", None),
        ("bench gen -1 2", None),
        ("bench gen 1 2 3", None),
        ("bench config 1", None),
        ("bench check --time", None),
    ] {
        let words: Vec<&str> = line.split(' ').collect(rt.alloc())?;
        assert!(rt; parse(words.as_slice()) == task, "{line}");
    }
    Ok(())
}

/// A seed has one script, and a script of so many orders is accepted, and has as many.
#[test]
fn scripts_are_accepted(rt: HostRuntime) -> Result<(), Fail> {
    for orders in [0, 1, 32, 33, 5000] {
        for seed in [0, 1, SEED, u64::MAX] {
            let text = script_text(rt.alloc(), Sequence::new(seed), orders)?;
            let again = script_text(rt.alloc(), Sequence::new(seed), orders)?;
            assert_eq!(&rt; again.as_str(), text.as_str());
            let script = Script::from_text(rt.alloc(), text.as_str())?;
            assert_eq!(&rt; script.len(), orders, "seed {seed}");
        }
    }
    let one = script_text(rt.alloc(), Sequence::new(1), 500)?;
    let other = script_text(rt.alloc(), Sequence::new(2), 500)?;
    assert!(rt; other.as_str() != one.as_str());
    Ok(())
}

/// The script of the measured seed has the orders that are given without one, also where some of its lines are empty.
#[test]
fn a_script_is_fed(rt: HostRuntime) -> Result<(), Fail> {
    let text = script_text(rt.alloc(), Sequence::new(SEED), 3000)?;
    let text = format!(in rt.alloc(); "\n{text}\n")?;
    let fed = script_orders(rt.alloc(), text.as_bytes());
    let orders = first_orders(rt.alloc(), 3000)?;
    assert_eq!(&rt; fed.ok().ok_or("not read")?.as_slice(), orders.as_slice());
    Ok(())
}

/// What took so many microseconds for so many pieces is printed with three digits, and fills a second so often.
#[test]
fn times_are_of_one_piece(rt: HostRuntime) -> Result<(), Fail> {
    for (micros, pieces, text, per_second) in [
        (1732, 10_000, "173.2", 5_773_672),
        (1840, 1_000_000, "1.84", 543_478_260),
        (59, 1_000_000, "0.05", 20_000_000_000),
        (40_000, 100_000, "400.0", 2_500_000),
        (0, 1, "0.00", 100_000_000_000),
    ] {
        let each = Nanos::each(Duration::from_micros(micros), pieces);
        assert_eq!(&rt; each.to_string(rt.alloc())?.as_str(), text);
        assert_eq!(&rt; each.per_second(), per_second, "{text}");
    }
    Ok(())
}
