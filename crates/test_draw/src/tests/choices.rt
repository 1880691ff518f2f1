//! Which orders are drawn.

use arb_draw::{Choice, ChoiceFault, Orders, Scale, chosen};
use std::process::Abort;
use std::test::Fail;

/// The first and the last order that are asked for, of so many, and the number of the first that is drawn with how many there are; or
/// why none is.
type Row = (
    Option<u32>,
    Option<u32>,
    usize,
    Result<(u32, usize), &'static str>,
);

const ROWS: &[Row] = &[
    (None, None, 16, Ok((1, 16))),
    (Some(16), None, 16, Ok((16, 1))),
    (None, Some(1), 16, Ok((1, 1))),
    (Some(7), Some(9), 16, Ok((7, 3))),
    (None, None, 2_000, Ok((1, 2_000))),
    (Some(3_001), None, 5_000, Ok((3_001, 2_000))),
    (None, None, 0, Err("no order 1: the script has 0")),
    (Some(0), None, 16, Err("no order 0: the script has 16")),
    (Some(17), None, 16, Err("no order 17: the script has 16")),
    (None, Some(17), 16, Err("no order 17: the script has 16")),
    (Some(9), Some(8), 16, Err("--from 9 is above --to 8")),
    (Some(9), Some(0), 16, Err("--from 9 is above --to 0")),
    (
        None,
        None,
        2_001,
        Err(
            "2001 orders are too many for a picture, which shows 2000: choose fewer by --from and --to",
        ),
    ),
    (
        Some(1),
        Some(4_294_967_295),
        4_294_967_295,
        Err(
            "4294967295 orders are too many for a picture, which shows 2000: choose fewer by --from and --to",
        ),
    ),
];

/// What is chosen is as the row says.
fn is_chosen<R: AllocGlobal + Abort>(rt: &R, row: &Row) -> Result<(), Fail> {
    let (from, to, orders, want) = *row;
    let scale = Scale::Orders;
    let found: Result<Orders, ChoiceFault> = chosen(&Choice { from, to, scale }, orders);
    match (found, want) {
        (Ok(found), Ok((first, count))) => {
            assert_eq!(rt; found, Orders { first, count });
        }
        (Err(found), Err(text)) => {
            let line = found.to_string(rt.alloc())?;
            assert_eq!(rt; line.as_str(), text);
        }
        _ => assert!(rt; false, "{from:?} {to:?} of {orders}"),
    }
    Ok(())
}

/// What is left out is the first and the last order. There is no order 0, and none past the last; a picture shows 2,000.
#[test]
fn orders_are_chosen(rt: HostRuntime) -> Result<(), Fail> {
    for row in ROWS {
        is_chosen(&rt, row)?;
    }
    Ok(())
}
