//! Pasts from three houses, compared with journals.
//!
//! House X has the clients 0.0 and 1.0, houses Y and Z have 0.0 alone. 0.0 joins in each, and in Z it asks for the
//! status too; 1.0 orders nothing.

ghost use Rattle.std.specs.Prelude.{◌≡◌};

use crate::tests::tables::Finds::{Agreement, Differs, Early, Missing, Twice};
use crate::tests::tables::{Finds, clients_of};
use arb_config::Topology;
use arb_desk::{open_queue, pass_for};
use arb_house::{AuditFault, Past, compare};
use arb_model::{Entry, Reply};
use arb_page::{Blank, Pages, Point, Set};
use std::alloc::{AllocError, Global};
use std::marker::Brand;
use std::test::*;
use test_parts::{CLOCK, Gives, NO_COUNTS, Named, TWO_SOCKETS, client_of};

/// What a client leaves: who it was, what it was answered, and whether its past is whole.
type Left = (Named, &'static [(Gives, Reply)], bool);

/// An entry of a journal: whose it is, its number, the order and the reply.
type Entered = (Named, u32, (Gives, Reply));

/// The clients, the journal, the pasts, and what is found.
type Case = (&'static [Named], &'static [Entered], &'static [Left], Finds);

const JOIN: (Gives, Reply) = (Gives::Join, Reply::Joined);

const STATUS: (Gives, Reply) = (Gives::Status, NO_COUNTS);

const ZERO: Named = (0, 0);

const ONE: Named = (1, 0);

/// 0.0 in X and in Y.
const JOINED: Left = (ZERO, &[JOIN], true);

/// The same, but not whole.
const CUT: Left = (ZERO, &[JOIN], false);

/// The same with another reply.
const DONE: Left = (ZERO, &[(Gives::Join, Reply::Done)], true);

/// 0.0 in Z.
const ASKED: Left = (ZERO, &[JOIN, STATUS], true);

/// 0.0 that ordered nothing.
const IDLE: Left = (ZERO, &[], true);

/// 1.0 in X.
const SILENT: Left = (ONE, &[], true);

/// The clock, which ordered nothing.
const STILL: Left = (CLOCK, &[], true);

/// The journal of X and of Y.
const JOINS: &[Entered] = &[(ZERO, 0, JOIN)];

/// That of Z.
const ASKS: &[Entered] = &[(ZERO, 0, JOIN), (ZERO, 1, STATUS)];

/// One in which 1.0 joins too.
const BOTH_JOIN: &[Entered] = &[(ZERO, 0, JOIN), (ONE, 0, JOIN)];

/// One of the clock and 1.0.
const TICKS: &[Entered] = &[
    (CLOCK, 0, (Gives::Tick(5), Reply::Moved(0))),
    (ONE, 0, JOIN),
];

const CASES: &[Case] = &[
    // a past that isn't whole, also where another one is missing
    (&[ZERO], JOINS, &[CUT], Early),
    (&[ZERO, ONE], JOINS, &[CUT], Early),
    // all agree
    (&[ZERO, ONE], JOINS, &[JOINED, SILENT], Agreement),
    (&[ZERO], ASKS, &[ASKED], Agreement),
    // the past of a stranger that ordered nothing, and of one that did
    (&[ZERO], JOINS, &[JOINED, SILENT], Agreement),
    (&[], &[], &[JOINED], Differs(ZERO)),
    // an empty house
    (&[], &[], &[], Agreement),
    (&[], JOINS, &[], Differs(ZERO)),
    // missing pasts
    (&[ZERO, ONE], JOINS, &[SILENT], Missing(ZERO)),
    (&[ZERO, ONE], JOINS, &[JOINED, ASKED], Missing(ONE)),
    // pasts that come twice: of two houses, and of a stranger
    (&[ZERO], JOINS, &[JOINED, ASKED], Twice(ZERO)),
    (&[ZERO], JOINS, &[JOINED, SILENT, SILENT], Twice(ONE)),
    // lists that differ: another house's, without the stranger's, and with another reply
    (&[ZERO], JOINS, &[ASKED], Differs(ZERO)),
    (&[ZERO], BOTH_JOIN, &[JOINED], Differs(ONE)),
    (&[ZERO], JOINS, &[DONE], Differs(ZERO)),
    // the smallest client and not the first named
    (&[CLOCK, ONE, ZERO], &[], &[], Missing(ZERO)),
    (
        &[CLOCK, ONE, ZERO],
        TICKS,
        &[STILL, SILENT, IDLE],
        Differs(ONE),
    ),
];

/// The first point of the history of new pages.
fn beginning(alloc: Global) -> Result<Point, Fail> {
    let topology = Topology::from_text(alloc, TWO_SOCKETS)?;
    let blank = Pages::open(alloc, &topology).ok().ok_or("memory")?;
    Ok(named::<Brand>(blank))
}

fn named<K: Set>(blank: Blank) -> Point
    requires { (blank.table ≡ K.table) × (blank.machine ≡ K.machine) }
{
    let (pages, mut writer) = blank.name::<K>();
    writer.tell(&pages).into_point()
}

/// A past from a house of its own.
fn past(alloc: Global, left: &Left) -> Result<Past, Fail> {
    let (name, answers, whole) = *left;
    let client = client_of(name);
    let (orders, mut server) = open_queue(alloc)?;
    let pass = pass_for(&orders, &mut server, client);
    let mut mine = Vec::new(alloc);
    for (gives, reply) in answers {
        mine.push((gives.order(), *reply))?;
    }
    Ok(Past {
        client,
        mine,
        whole,
        pass,
        point: beginning(alloc)?,
    })
}

/// The entries of a journal.
fn journal(alloc: Global, entered: &[Entered]) -> Result<Vec<Entry>, AllocError> {
    let mut entries = Vec::new(alloc);
    for (client, number, (gives, reply)) in entered {
        entries.push(Entry {
            client: client_of(*client),
            number: *number,
            order: gives.order(),
            reply: *reply,
        })?;
    }
    Ok(entries)
}

/// What is found, where the server ended early or not.
fn compared(alloc: Global, early: bool, case: &Case) -> Result<Result<(), AuditFault>, Fail> {
    let (names, entered, lefts, _finds) = *case;
    let ids = clients_of(alloc, 0, names)?;
    let entries = journal(alloc, entered)?;
    let mut pasts = Vec::new(alloc);
    for left in lefts {
        pasts.push(past(alloc, left)?)?;
    }
    Ok(compare(early, ids.as_slice(), entries.as_slice(), pasts.as_slice()))
}

#[test]
fn pasts_and_journals(rt: HostRuntime) -> Result<(), Fail> {
    for case in CASES {
        let found = compared(rt.alloc(), false, case)?;
        assert_eq!(rt; found, case.3.outcome());
    }
    // the server's early end comes before a missing past
    let found = compared(rt.alloc(), true, &(&[ZERO, ONE], &[], &[], Early))?;
    assert_eq!(rt; found, Err(AuditFault::Early));
    Ok(())
}
