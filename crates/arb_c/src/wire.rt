//! Clients, orders, replies and places as C has them.

ghost use Rattle.std.specs.Prelude.{◌≡◌, ◌<◌, ◌≤◌, length};
ghost use Rattle.std.specs.Option.{SomeIff};
ghost use Rattle.arb_share.specs.Limits.{applications};
ghost use Rattle.arb_config.specs.Machine.{cores_of};
ghost use Rattle.arb_model.specs.Limits.{all_threads};
ghost use Rattle.arb_model.specs.Standing.{the_clock};
ghost use Rattle.arb_c.specs.Wire.{counts_shown, machine_shown, order_named, place_shown, reply_shown};

use crate::codes::{ENTRY_TOO_LARGE, NO_ORDER};
use arb_config::Topology;
use arb_core::{APPLICATIONS, ClientId, Core, Order, Place, Refusal, Reply};
use arb_share::{LEVELS, Request};

/// How many threads all applications have: the number of the client that is the clock.
const CLOCK: u32 = 512;

const JOIN: u32 = 0;

const ASK: u32 = 1;

const CAP: u32 = 2;

const BLOCK: u32 = 3;

const RETIRE: u32 = 4;

const LEAVE: u32 = 5;

const STATUS: u32 = 6;

const TICK: u32 = 7;

/// An order: its kind, and what an order of that kind has.
#[derive(Clone, Copy)]
#[repr(C)]
pub struct WireOrder {
    /// Of a tick: the present moment, in microseconds.
    pub moment: u64,
    /// 0 join, 1 ask, 2 cap, 3 block, 4 retire, 5 leave, 6 status, 7 tick.
    pub kind: u32,
    /// Of a cap: how many cores.
    pub cap: u8,
    /// Of an ask: how many cores at each level.
    pub request: [u8; 8],
}

/// Where a thread is.
#[derive(Clone, Copy)]
#[repr(C)]
pub struct WirePlace {
    /// 0 unmanaged, 1 waiting, 2 moved, 3 on a core.
    pub kind: u32,
    /// The number of the core that the thread is on, or 0.
    pub core: u16,
    /// 1 where that core is asked back, else 0.
    pub asked: u8,
}

/// A reply: its kind, and what a reply of that kind has; all else is 0.
#[derive(Clone, Copy)]
#[repr(C)]
pub struct WireReply {
    /// Where the clock would go back: the clock, in microseconds.
    pub clock: u64,
    /// 0 joined, 1 due, 2 now, 3 done, 4 counts, 5 moved, 6 refused.
    pub kind: u32,
    /// 1 already joined, 2 not joined, 4 already waiting, 5 clock back, 6 not a thread, 7 cap too large.
    pub refusal: u32,
    pub place: WirePlace,
    pub due: u8,
    pub owned: u8,
    pub asked: u8,
    pub waiting: u8,
    pub moved: u8,
}

/// A page word and the value that it becomes.
#[derive(Clone, Copy)]
#[repr(C)]
pub struct WirePost {
    pub value: u64,
    pub word: u32,
}

/// What a machine has.
#[derive(Clone, Copy)]
#[repr(C)]
pub struct WireMachine {
    /// After how many microseconds a thread is moved from a core that is asked back.
    pub grace: u64,
    /// How many orders may be entered.
    pub orders: u32,
    /// How many managed cores there are: as many as positions.
    pub managed: u16,
    /// How many sockets there are.
    pub sockets: u16,
}

/// A core.
#[derive(Clone, Copy, Default)]
#[repr(C)]
pub struct WireCore {
    pub number: u16,
    pub socket: u8,
}

/// What an application has.
#[derive(Clone, Copy)]
#[repr(C)]
pub struct WireCounts {
    /// How many cores are due to it.
    pub due: u8,
    /// How many cores its threads are on.
    pub owned: u8,
    /// How many of these are asked back.
    pub asked: u8,
    /// How many of its threads wait for a core.
    pub waiting: u8,
}

/// How many cores an application asks for at each level.
#[derive(Clone, Copy)]
#[repr(C)]
pub struct WireRequest {
    pub cores: [u8; 8],
}

/// The client of a number: 32 times the application and the thread, or the clock.
pub fn client_of(number: u32) -> Option<ClientId>
    ensures { SomeIff result (number ≤ the_clock) number }
{
    if number == CLOCK {
        return Some(ClientId::clock());
    }
    thread_of(number)
}

/// The thread of a number.
pub fn thread_of(number: u32) -> Option<ClientId>
    ensures { SomeIff result (number < all_threads) number }
{
    if number < CLOCK {
        Some(ClientId::of_thread(number as u16))
    } else {
        None
    }
}

/// The application of a number.
pub fn application_of(number: u32) -> Option<u8>
    ensures { SomeIff result (number < applications) number }
{
    if number < APPLICATIONS as u32 {
        Some(number as u8)
    } else {
        None
    }
}

/// The order that C names.
///
/// # Errors
/// The code where no order is of this kind, or the request has too large an entry.
pub fn order_of(order: &WireOrder) -> Result<Order, u32>
    ensures { result ≡ order_named order.now }
{
    match order.kind {
        JOIN => Ok(Order::Join),
        ASK => match Request::new(order.request) {
            Ok(request) => Ok(Order::Ask(request)),
            Err(_) => Err(ENTRY_TOO_LARGE),
        },
        CAP => Ok(Order::Cap(order.cap)),
        BLOCK => Ok(Order::Block),
        RETIRE => Ok(Order::Retire),
        LEAVE => Ok(Order::Leave),
        STATUS => Ok(Order::Status),
        TICK => Ok(Order::Tick(order.moment)),
        _ => Err(NO_ORDER),
    }
}

/// No place in particular: of an unmanaged thread, and in replies that name none.
const NOWHERE: WirePlace = WirePlace {
    kind: 0,
    core: 0,
    asked: 0,
};

/// A place as C has it.
pub fn place_of(place: Place) -> WirePlace
    ensures { result ≡ place_shown place }
{
    match place {
        Place::Unmanaged => NOWHERE,
        Place::Waiting => WirePlace { kind: 1, ..NOWHERE },
        Place::Moved => WirePlace { kind: 2, ..NOWHERE },
        Place::On { core, asked } => WirePlace {
            kind: 3,
            core,
            asked: asked as u8,
        },
    }
}

/// A reply with nothing but its kind, 0.
const BLANK: WireReply = WireReply {
    clock: 0,
    kind: 0,
    refusal: 0,
    place: NOWHERE,
    due: 0,
    owned: 0,
    asked: 0,
    waiting: 0,
    moved: 0,
};

/// A reply as C has it.
pub fn reply_of(reply: Reply) -> WireReply
    ensures { result ≡ reply_shown reply }
{
    match reply {
        Reply::Joined => BLANK,
        Reply::Due(due) => WireReply {
            kind: 1,
            due,
            ..BLANK
        },
        Reply::Now(place) => WireReply {
            kind: 2,
            place: place_of(place),
            ..BLANK
        },
        Reply::Done => WireReply { kind: 3, ..BLANK },
        Reply::Counts {
            due,
            owned,
            asked,
            waiting,
        } => WireReply {
            kind: 4,
            due,
            owned,
            asked,
            waiting,
            ..BLANK
        },
        Reply::Moved(moved) => WireReply {
            kind: 5,
            moved,
            ..BLANK
        },
        Reply::Refused(refusal) => refused(refusal),
    }
}

/// A refusal as C has it.
fn refused(refusal: Refusal) -> WireReply
    ensures { result ≡ reply_shown (Reply.Refused refusal) }
{
    let (number, clock) = match refusal {
        Refusal::AlreadyJoined => (1, 0),
        Refusal::NotJoined => (2, 0),
        Refusal::AlreadyWaiting => (4, 0),
        Refusal::ClockBack(clock) => (5, clock),
        Refusal::NotAThread => (6, 0),
        Refusal::CapTooLarge => (7, 0),
    };
    WireReply {
        kind: 6,
        refusal: number,
        clock,
        ..BLANK
    }
}

/// A machine with a limit on orders, as C has it; `u64::MAX` is none.
pub fn machine_of(topology: &Topology, limit: u64) -> WireMachine
    ensures { result ≡ machine_shown topology.now limit }
{
    WireMachine {
        grace: topology.grace(),
        orders: if limit == u64::MAX {
            0
        } else {
            topology.orders()
        },
        managed: topology.managed() as u16,
        sockets: topology.sockets() as u16,
    }
}

/// What an application has, as C has it.
pub fn counts_of(core: &Core, application: u8) -> WireCounts
    requires { application < applications }
    ensures { result ≡ counts_shown core.now application }
{
    WireCounts {
        due: core.due(application),
        owned: core.owned(application),
        asked: core.asked(application),
        waiting: core.waiting(application),
    }
}

/// A request as C has it.
pub fn request_of(request: Request) -> WireRequest
    ensures { result.cores ≡ request }
{
    let mut cores = [request.entry(0); LEVELS];
    for level in 1..LEVELS {
        cores[level] = request.entry(level as u8);
    }
    WireRequest { cores }
}
