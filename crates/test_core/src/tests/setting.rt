//! Arbiters whose clients give orders, line by line.

use crate::tests::setting::Line::{At, Clock, Dues, Free, Gives, Holds, Posts, Ticks};
use arb_config::{ConfigFault, Topology};
use arb_core::{ClientId, Core, Order, Place, Refusal, Reply};
use std::alloc::Global;
use std::process::Abort;
use test_parts::{TWO_SOCKETS, ask, thread};

/// A line of a run: what happens, or what is so then. It names a thread by its application and its number.
#[derive(Clone, Copy, Debug)]
pub enum Line<'a> {
    /// The thread gives an order, which has this reply, and all words that it leaves stale are posted.
    Gives(u8, u8, Order, Reply),
    /// The same, and exactly these words are posted, to these values and one after another.
    Posts(u8, u8, Order, Reply, &'a [(usize, u64)]),
    /// The clock gives a moment, which has this reply, and exactly these words are posted.
    Ticks(u64, Reply, &'a [(usize, u64)]),
    /// Of applications, the cores due to each, by the status that its first thread asks for.
    Dues(&'a [(u8, u8)]),
    /// The thread is at this place.
    At(u8, u8, Place),
    /// The thread is on this core, which is not asked back.
    Holds(u8, u8, u16),
    /// No thread is on these cores.
    Free(&'a [u16]),
    /// The latest moment is this one.
    Clock(u64),
}

/// No application: its threads are the clock.
pub const CLOCK: u8 = 16;

/// A thread waits from now on.
pub const WAITS: Reply = Reply::Now(Place::Waiting);

/// Two cores of application 1, those of its threads 0 and 3, are asked back.
pub const TWO_ASKED: &[(usize, u64)] = &[(65, 9), (68, 15), (3, 36)];

/// They are asked back no longer.
pub const TWO_SPARED: &[(usize, u64)] = &[(65, 8), (68, 14), (3, 0)];

/// The two threads on them are moved.
pub const TWO_MOVED: &[(usize, u64)] = &[(65, 2), (68, 2), (3, 0)];

/// No thread of application 1 is on a core, and it is asked for none.
pub const ALL_GONE: &[(usize, u64)] = &[(65, 0), (66, 0), (67, 0), (68, 0), (3, 0)];

/// A thread is on a core from now on.
pub fn takes(core: u16) -> Reply {
    Reply::Now(on(core))
}

pub fn refused(refusal: Refusal) -> Reply {
    Reply::Refused(refusal)
}

/// On a core that is not asked back.
pub fn on(core: u16) -> Place {
    Place::On { core, asked: false }
}

/// On a core that is asked back.
pub fn asked_on(core: u16) -> Place {
    Place::On { core, asked: true }
}

/// The arbiter of the machine that a text describes.
pub fn arbiter_of(alloc: Global, text: &str) -> Result<Core, ConfigFault> {
    Ok(Core::new(&Topology::from_text(alloc, text)?))
}

/// A client gives an order, and no word is posted yet.
pub fn step(rt: &impl Abort, core: &mut Core, client: ClientId, order: Order) -> Reply {
    assert!(rt; !core.is_full());
    assert!(rt; core.next_stale().is_none());
    core.step(client, &order)
}

/// The thread of an application gives an order, and all words that it leaves stale are posted.
pub fn gives(rt: &impl Abort, core: &mut Core, app: u8, number: u8, given: Order) -> Reply {
    let reply = step(rt, core, thread(app, number), given);
    core.post_all(&mut |_, _| {});
    reply
}

/// A client gives an order, and exactly these words are posted, to these values and one after another.
fn posts(
    rt: &impl Abort,
    core: &mut Core,
    client: ClientId,
    given: Order,
    words: &[(usize, u64)],
) -> Reply {
    let reply = step(rt, core, client, given);
    assert_eq!(rt; core.posted(0), core.orders());
    for (word, value) in words {
        let is_next = core.next_stale() == Some(*word) && core.word(*word) == *value;
        assert!(rt; is_next, "{given:?}, at word {word}");
        core.post(*word);
        assert!(rt; core.posted(*word) == *value, "{given:?}, word {word}");
    }
    assert!(rt; core.next_stale().is_none(), "{given:?}");
    reply
}

/// The cores due to an application, by the status that its first thread asks for.
pub fn due(rt: &impl Abort, core: &mut Core, app: u8) -> Option<u8> {
    match gives(rt, core, app, 0, Order::Status) {
        Reply::Counts { due, .. } => Some(due),
        _ => None,
    }
}

fn are_due(rt: &impl Abort, core: &mut Core, wanted: &[(u8, u8)]) -> bool {
    for (app, cores) in wanted {
        if due(rt, core, *app) != Some(*cores) {
            return false;
        }
    }
    true
}

fn are_free(core: &Core, cores: &[u16]) -> bool {
    cores.iter().all(|number| core.owner(*number).is_none())
}

/// What a line says comes to pass.
fn comes_to_pass(rt: &impl Abort, core: &mut Core, line: &Line) -> bool {
    match *line {
        Gives(app, number, given, reply) => gives(rt, core, app, number, given) == reply,
        Posts(app, number, given, reply, words) => {
            posts(rt, core, thread(app, number), given, words) == reply
        }
        Ticks(moment, reply, words) => {
            posts(rt, core, ClientId::clock(), Order::Tick(moment), words) == reply
        }
        Dues(wanted) => are_due(rt, core, wanted),
        At(app, number, place) => core.place(thread(app, number)) == place,
        Holds(app, number, taken) => {
            let holder = thread(app, number);
            core.place(holder) == on(taken) && core.owner(taken) == Some(holder)
        }
        Free(cores) => are_free(core, cores),
        Clock(moment) => core.clock() == moment,
    }
}

/// All lines come to pass.
pub fn plays(rt: &impl Abort, name: &str, core: &mut Core, lines: &[Line]) {
    for line in lines {
        assert!(rt; comes_to_pass(rt, core, line), "{name}: {line:?}");
    }
}

/// How many lines of the opening end as application 0 has its two cores, as application 1 has the other four, as
/// application 2 has asked for six, and as the grace of 10,000 microseconds has passed.
pub const FIRST: usize = 6;

pub const SECOND: usize = 12;

pub const THIRD: usize = 14;

pub const GRACE: usize = 18;

/// A run on the machine of two sockets.
pub fn opening() -> [Line<'static>; 18] {
    [
        Posts(0, 0, Order::Join, Reply::Joined, &[]),
        Posts(0, 0, ask(2), Reply::Due(2), &[]),
        Posts(0, 0, Order::Block, takes(1), &[(33, 4)]),
        Posts(0, 1, Order::Block, takes(2), &[(34, 6)]),
        Posts(0, 1, Order::Join, refused(Refusal::AlreadyJoined), &[]),
        Posts(3, 0, ask(1), refused(Refusal::NotJoined), &[]),
        Posts(1, 0, Order::Join, Reply::Joined, &[]),
        Posts(1, 0, ask(6), Reply::Due(4), &[]),
        Posts(1, 0, Order::Block, takes(3), &[(65, 8)]),
        Posts(1, 1, Order::Block, takes(5), &[(66, 10)]),
        Posts(1, 2, Order::Block, takes(6), &[(67, 12)]),
        Posts(1, 3, Order::Block, takes(7), &[(68, 14)]),
        Posts(2, 0, Order::Join, Reply::Joined, &[]),
        Posts(2, 0, ask(6), Reply::Due(2), TWO_ASKED),
        Ticks(9999, Reply::Moved(0), &[]),
        Ticks(10000, Reply::Moved(2), TWO_MOVED),
        Ticks(9000, refused(Refusal::ClockBack(10000)), &[]),
        Ticks(10000, Reply::Moved(0), &[]),
    ]
}

/// The arbiter after so many lines of the opening.
pub fn after(rt: &impl Abort, alloc: Global, lines: usize) -> Result<Core, ConfigFault> {
    let mut core = arbiter_of(alloc, TWO_SOCKETS)?;
    assert!(rt; lines <= GRACE);
    plays(rt, "opening", &mut core, &opening()[..lines]);
    Ok(core)
}
