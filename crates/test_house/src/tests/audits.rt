//! Audits of a house with the pasts of its own clients and of another house's.

use crate::tests::course::{Course, ONE_CLIENT, follow_one};
use crate::tests::steps::Row;
use crate::tests::steps::Step::Call;
use crate::tests::tables::Finds;
use crate::tests::tables::Finds::{Agreement, Differs, Missing, Twice};
use arb_house::Past;
use arb_model::Reply;
use std::test::*;
use test_parts::Gives::{Join, Status};
use test_parts::{NO_COUNTS, Named};

const JOINS: &[Row] = &[(0, 1, Call(Join, Ok(Reply::Joined)))];

/// The other house, whose one client gives an order more.
const OTHER: Course = Course {
    beside: &[
        (0, 1, Call(Join, Ok(Reply::Joined))),
        (0, 1, Call(Status, Ok(NO_COUNTS))),
    ],
    entries: Some(2),
    ..ONE_CLIENT
};

/// A house of one client or of two, of whom the first one joins.
const ONE: Course = Course {
    beside: JOINS,
    entries: Some(1),
    ..ONE_CLIENT
};

const TWO: Course = Course {
    clients: &[(0, 0), (1, 0)],
    ..ONE
};

/// An audit of a house: whose pasts are left out, whether the past of the other house's client is put in, and what it finds.
type Audit<'a> = (Course<'a>, &'a [Named], bool, Finds);

const AUDITS: &[Audit] = &[
    (TWO, &[(0, 0), (1, 0)], false, Missing((0, 0))),
    (TWO, &[(0, 0)], false, Missing((0, 0))),
    (TWO, &[(1, 0)], true, Missing((1, 0))),
    (ONE, &[], false, Agreement),
    (ONE, &[], true, Twice((0, 0))),
    (ONE, &[(0, 0)], true, Differs((0, 0))),
];

/// A client without a past, one with two, and one with that of another house.
#[test]
fn pasts_of_a_house_and_of_another(rt: HostRuntime) -> Result<(), Fail> {
    for (house, without, with_other, finds) in AUDITS {
        let mut others: Vec<Past> = Vec::new(rt.alloc());
        if *with_other {
            others = follow_one(&rt, &OTHER, others)?;
        }
        let course = Course {
            without,
            finds: *finds,
            ..*house
        };
        let _pasts = follow_one(&rt, &course, others)?;
    }
    Ok(())
}
