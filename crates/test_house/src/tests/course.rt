//! The course of a house: who its clients are, what they do and see, and what is left of it.

ghost use Rattle.std.specs.Prelude.{◌≡◌};

use crate::tests::same::same;
use crate::tests::steps::{Answered, Row, act, remembers};
use crate::tests::tables::{Finds, clients_of};
use arb_config::Topology;
use arb_house::{AuditFault, Client, CollectFault, Ended, House, OpenFault, Past, Server, audit};
use arb_model::{ClientId, Entry, Reply};
use arb_page::{Blank, Pages, Set};
use std::alloc::{AllocError, Global};
use std::marker::Brand;
use std::process::Abort;
use std::sync::Wait;
use std::sync::atomic::{AtomicBool, Ordering};
use std::test::Fail;
use std::thread;
use std::thread::{Threads, join};
use test_parts::{Gives, Named, THREE_ORDERS, TWO_SOCKETS, client_of, thread};

/// What becomes of a server.
#[derive(Clone, Copy)]
pub enum Fate {
    /// It serves on a thread of its own.
    Serves,
    /// It serves a while after the clients' last steps have begun.
    ServesLate,
    /// It is dropped before it serves.
    Dropped,
    /// It is dropped on a thread of its own.
    DroppedBeside,
}

impl Fate {
    /// Whether the server serves.
    fn serves(self) -> bool {
        matches!(self, Fate::Serves | Fate::ServesLate)
    }
}

/// Entries of a client that are alike: their numbers from one up to another, the order and the reply.
pub type Run = (Named, u32, u32, Gives, Reply);

/// The course of a house.
#[derive(Clone, Copy)]
pub struct Course<'a> {
    pub machine: &'a str,
    /// All threads of so many applications are clients, before those that are named.
    pub crowd: u8,
    pub clients: &'a [Named],
    /// A client that is named twice, so that the house isn't opened, and there is no more.
    pub twice: Option<Named>,
    /// The clients' steps before the server serves.
    pub before: &'a [Row<'a>],
    pub server: Fate,
    /// Their steps while the server serves or is dropped, or once it was, on one thread. Then they close, in their order.
    pub beside: &'a [Row<'a>],
    /// The last client's, on a thread of its own, where it alone is meant by index 0.
    pub apart: &'a [Row<'a>],
    /// The journal's length, if it is the same each time.
    pub entries: Option<usize>,
    /// The journal's first entries.
    pub begins: &'a [Run],
    /// Whether the limit on orders is reached.
    pub full: bool,
    /// What these clients remember, all of it.
    pub left: &'a [(usize, &'a [Answered])],
    /// Whose pasts are left out of the audit.
    pub without: &'a [Named],
    /// What the audit finds.
    pub finds: Finds,
}

/// A house without clients, whose server serves.
pub const COURSE: Course = Course {
    machine: TWO_SOCKETS,
    crowd: 0,
    clients: &[],
    twice: None,
    before: &[],
    server: Fate::Serves,
    beside: &[],
    apart: &[],
    entries: Some(0),
    begins: &[],
    full: false,
    left: &[],
    without: &[],
    finds: Finds::Agreement,
};

/// A house whose one client is 0.0.
pub const ONE_CLIENT: Course = Course {
    clients: &[(0, 0)],
    ..COURSE
};

/// One client of a machine of three orders, all of which are entered.
pub const THREE_ENTERED: Course = Course {
    machine: THREE_ORDERS,
    entries: Some(3),
    full: true,
    ..ONE_CLIENT
};

/// Follows courses, one after another.
pub fn follow<R: Threads + Wait + Abort + AllocGlobal + Sync>(
    rt: &R,
    courses: &[Course],
) -> Result<(), Fail> {
    for course in courses {
        let _pasts = follow_one(rt, course, Vec::new(rt.alloc()))?;
    }
    Ok(())
}

/// Follows a course, with the pasts of another house in its audit. Gives back what was audited.
pub fn follow_one<R: Threads + Wait + Abort + AllocGlobal + Sync>(
    rt: &R,
    course: &Course,
    others: Vec<Past>,
) -> Result<Vec<Past>, Fail> {
    let topology = Topology::from_text(rt.alloc(), course.machine)?;
    let blank = Pages::open(rt.alloc(), &topology).ok().ok_or("memory")?;
    let pasts = in_house::<Brand, _>(rt, rt.alloc(), &topology, blank, course, others)?;
    Ok(pasts)
}

fn in_house<K: Set + Send + Sync, R: Threads + Wait + Abort + Sync>(
    rt: &R,
    alloc: Global,
    topology: &Topology,
    blank: Blank,
    course: &Course,
    others: Vec<Past>,
) -> Result<Vec<Past>, AllocError>
    requires name { (blank.table ≡ K.table) × (blank.machine ≡ K.machine) }
    requires topology { blank.machine ≡ topology.now }
{
    let ids = clients_of(alloc, course.crowd, course.clients)?;
    match House::open::<K>(rt, alloc, blank, topology, ids.as_slice()) {
        Ok((server, clients)) => {
            same(rt, "twice", course.twice, None);
            opened(rt, alloc, server, clients, ids.as_slice(), course, others)
        }
        Err(fault) => {
            let want = course.twice.map(|named| OpenFault::Twice(client_of(named)));
            same(rt, "opening", Some(fault), want);
            Ok(others)
        }
    }
}

fn opened<K: Set + Send + Sync, R: Threads + Wait + Abort + Sync>(
    rt: &R,
    alloc: Global,
    server: Server<K>,
    mut clients: Vec<Client<K>>,
    ids: &[ClientId],
    course: &Course,
    others: Vec<Past>,
) -> Result<Vec<Past>, AllocError> {
    newcomers(rt, &mut clients, ids);
    act(rt, &mut clients, course.before);
    let (ended, pasts) = if let Fate::Dropped = course.server {
        drop(server);
        (None, go_on(rt, alloc, clients, course))
    } else {
        run_beside(rt, alloc, server, clients, course)
    };
    closed(rt, alloc, ended, pasts, ids, course, others)
}

/// What the clients left, and what the server did if it served. Gives back what is audited.
fn closed<K: Set>(
    rt: &impl Abort,
    alloc: Global,
    ended: Option<Ended<K>>,
    pasts: Vec<Past>,
    ids: &[ClientId],
    course: &Course,
    others: Vec<Past>,
) -> Result<Vec<Past>, AllocError> {
    remember(rt, pasts.as_slice(), ids, course);
    let without = clients_of(alloc, 0, course.without)?;
    let pasts = audited(alloc, pasts, without.as_slice(), others)?;
    if let Some(ended) = ended {
        account(rt, &ended, pasts.as_slice(), ids, course);
    }
    Ok(pasts)
}

fn newcomers<K: Set, R: Wait + Abort>(rt: &R, clients: &mut Vec<Client<K>>, ids: &[ClientId]) {
    same(rt, "number of clients", clients.len(), ids.len());
    for (client, id) in clients.iter_mut().zip(ids) {
        same(rt, "client", client.id(), *id);
        same(rt, "open orders", client.out(), 0);
        same(rt, "answered orders", client.mine().len(), 0);
        same(
            rt,
            "collect",
            client.collect(rt),
            Err(CollectFault::NothingOut),
        );
    }
}

/// The clients take their last steps, and close.
fn go_on<K: Set + Send + Sync, R: Threads + Wait + Abort + Sync>(
    rt: &R,
    alloc: Global,
    mut clients: Vec<Client<K>>,
    course: &Course,
) -> Vec<Past> {
    if course.apart.is_empty() {
        return act_and_close(rt, alloc, clients, course.beside);
    }
    let mut last = Vec::new(alloc);
    for client in clients.pop() {
        let kept = last.push(client);
        assert!(rt; kept.is_ok());
    }
    let (mut pasts, others) = join(
        rt,
        move || act_and_close(rt, alloc, clients, course.beside),
        move || act_and_close(rt, alloc, last, course.apart),
    );
    for past in others {
        let kept = pasts.push(past);
        assert!(rt; kept.is_ok());
    }
    pasts
}

fn act_and_close<K: Set, R: Wait + Abort>(
    rt: &R,
    alloc: Global,
    mut clients: Vec<Client<K>>,
    rows: &[Row],
) -> Vec<Past> {
    act(rt, &mut clients, rows);
    let mut pasts = Vec::new(alloc);
    for client in clients {
        let kept = pasts.push(client.close(rt));
        assert!(rt; kept.is_ok());
    }
    pasts
}

/// The server serves or is dropped while the clients take their last steps.
fn run_beside<K: Set + Send + Sync, R: Threads + Wait + Abort + Sync>(
    rt: &R,
    alloc: Global,
    server: Server<K>,
    clients: Vec<Client<K>>,
    course: &Course,
) -> (Option<Ended<K>>, Vec<Past>) {
    let begun = AtomicBool::new(false);
    let sign = &begun;
    join(
        rt,
        move || serve_or_drop(rt, server, course.server, sign),
        move || {
            sign.store(true, Ordering::SeqCst);
            go_on(rt, alloc, clients, course)
        },
    )
}

fn serve_or_drop<K: Set, R: Wait>(
    rt: &R,
    server: Server<K>,
    fate: Fate,
    begun: &AtomicBool,
) -> Option<Ended<K>> {
    if let Fate::ServesLate | Fate::DroppedBeside = fate {
        pass_a_while(rt, begun);
    }
    if fate.serves() {
        Some(server.serve(rt))
    } else {
        drop(server);
        None
    }
}

/// Returns a while after the last steps have begun.
fn pass_a_while<R: Wait>(rt: &R, begun: &AtomicBool) {
    for _ in rt.forever() {
        if begun.load(Ordering::SeqCst) {
            break;
        }
        thread::yield_now();
    }
    for _ in 0..10_000 {
        thread::yield_now();
    }
}

/// The clients leave their pasts, in their order: whole where they were served, and else empty. These have the lists that
/// are expected.
fn remember(rt: &impl Abort, pasts: &[Past], ids: &[ClientId], course: &Course) {
    same(rt, "number of pasts", pasts.len(), ids.len());
    let served = course.server.serves();
    for (past, id) in pasts.iter().zip(ids) {
        same(rt, "past of", past.client, *id);
        same(rt, "whole", past.whole, served);
        assert!(rt; served || past.mine.is_empty());
    }
    for (who, answered) in course.left {
        assert!(rt; *who < pasts.len());
        remembers(rt, pasts[*who].mine.as_slice(), answered);
    }
}

/// The pasts that are audited: these without those of some clients, and others.
fn audited(
    alloc: Global,
    own: Vec<Past>,
    without: &[ClientId],
    others: Vec<Past>,
) -> Result<Vec<Past>, AllocError> {
    let mut pasts = Vec::new(alloc);
    for past in own {
        if !without.contains(&past.client) {
            pasts.push(past)?;
        }
    }
    for past in others {
        pasts.push(past)?;
    }
    Ok(pasts)
}

/// The server served these clients and no other, to the end. Its journal is as expected, and what the audit finds.
fn account<K: Set>(
    rt: &impl Abort,
    ended: &Ended<K>,
    pasts: &[Past],
    ids: &[ClientId],
    course: &Course,
) {
    assert!(rt; ended.fault.is_none());
    same(rt, "full", ended.core.is_full(), course.full);
    for id in &[thread(0, 0), thread(0, 1), thread(1, 0)] {
        same(rt, "served", ended.serves(*id), ids.contains(id));
    }
    if let Some(entries) = course.entries {
        same(rt, "number of entries", ended.journal.len(), entries);
    }
    begins(rt, ended.journal.as_slice(), course.begins);
    same(rt, "audit", audit(ended, pasts), course.finds.outcome());
    if let [only] = ids {
        let want = Err(AuditFault::Missing(*only));
        same(rt, "audit of nothing", audit(ended, &[]), want);
    }
}

fn begins(rt: &impl Abort, journal: &[Entry], runs: &[Run]) {
    let mut entries = journal.iter();
    for (named, from, to, gives, reply) in runs {
        for number in *from..*to {
            let want = Entry {
                client: client_of(*named),
                number,
                order: gives.order(),
                reply: *reply,
            };
            same(rt, "entry", entries.next().copied(), Some(want));
        }
    }
}
