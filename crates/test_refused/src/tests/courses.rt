//! Opening a house for its course. Where memory is refused there may be none.

ghost use Rattle.std.specs.Prelude.{◌≡◌};

use crate::tests::closes::closing_clients;
use crate::tests::ends::three_clients;
use crate::tests::houses::one_client;
use arb_config::Topology;
use arb_house::{Client, House, OpenFault, Server};
use arb_model::ClientId;
use arb_page::{Blank, Pages, Set};
use std::alloc::Global;
use std::marker::Brand;
use std::process::Abort;
use std::sync::Wait;
use std::thread::Threads;
use test_parts::{TWO_SOCKETS, thread};

/// What goes on in a house.
#[derive(Clone, Copy, Debug, PartialEq, Eq)]
pub enum Course {
    /// One client's lists grow.
    Grows,
    /// The server ends under three clients.
    Ends,
    /// The last of three clients closes when the server's journal is full.
    Closes,
    /// The last of three clients calls once more then.
    OneMore,
    /// It posts one order more, and closes with it open.
    OneOpen,
}

/// Prints what came of a test.
fn tell(rt: &impl Print, what: &str) {
    println!(rt; "{what}").ok();
}

/// Opens a house over new pages, lets its course go on, and prints what came of it.
pub fn in_a_house<R: Threads + Wait + Abort + Print + AllocGlobal + Sync>(rt: &R, course: Course) {
    let Ok(topology) = Topology::from_text(rt.alloc(), TWO_SOCKETS) else {
        return tell(rt, "no topology");
    };
    let Ok(blank) = Pages::open(rt.alloc(), &topology) else {
        return tell(rt, "no pages");
    };
    in_named::<Brand, _>(rt, rt.alloc(), &topology, blank, course);
}

fn in_named<K: Set + Send + Sync, R: Threads + Wait + Abort + Print + Sync>(
    rt: &R,
    alloc: Global,
    topology: &Topology,
    blank: Blank,
    course: Course,
)
    requires name { (blank.table ≡ K.table) × (blank.machine ≡ K.machine) }
    requires topology { blank.machine ≡ topology.now }
{
    let three = [thread(0, 0), thread(0, 1), thread(0, 2)];
    let ids: &[ClientId] = match course {
        Course::Grows => &three[..1],
        Course::Ends | Course::Closes | Course::OneMore | Course::OneOpen => &three,
    };
    let what = match House::open::<K>(rt, alloc, blank, topology, ids) {
        Ok((server, clients)) => go_on(rt, alloc, server, clients, course),
        Err(fault) => {
            assert_eq!(rt; fault, OpenFault::Memory);
            "no house"
        }
    };
    tell(rt, what);
}

fn go_on<K: Set + Send + Sync, R: Threads + Wait + Abort + Sync>(
    rt: &R,
    alloc: Global,
    server: Server<K>,
    mut clients: Vec<Client<K>>,
    course: Course,
) -> &'static str {
    match course {
        Course::Grows => {
            assert_eq!(rt; clients.len(), 1);
            one_client(rt, server, clients.remove(0))
        }
        Course::Ends => {
            assert_eq!(rt; clients.len(), 3);
            let three = (clients.remove(0), clients.remove(0), clients.remove(0));
            three_clients(rt, server, three)
        }
        Course::Closes | Course::OneMore | Course::OneOpen => {
            assert_eq!(rt; clients.len(), 3);
            let three = (clients.remove(0), clients.remove(0), clients.remove(0));
            closing_clients(rt, alloc, server, three, course)
        }
    }
}
