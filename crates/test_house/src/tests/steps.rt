//! What clients do, step by step, and what they see.

use crate::tests::same::same;
use arb_house::{CallFault, Client, CollectFault, MOST_OPEN, PostFault, WaitFault};
use arb_model::{Half, Order, Place, Reply};
use arb_page::Set;
use std::process::Abort;
use std::sync::Wait;
use std::thread;
use test_parts::{Gives, Named, client_of};

/// A place on a core that isn't asked back.
macro_rules! on {
    ($core:expr) => {
        arb_model::Place::On {
            core: $core,
            asked: false,
        }
    };
}

pub(crate) use on;

/// The reply that a thread is now on such a core.
macro_rules! now_on {
    ($core:expr) => {
        arb_model::Reply::Now(arb_model::Place::On {
            core: $core,
            asked: false,
        })
    };
}

pub(crate) use now_on;

/// What a client was answered that joined, asked for cores, of which so many are due, and blocked, and was on such a core then.
macro_rules! came_to {
    ($asks:expr, $due:expr, $core:expr) => {
        &[
            (1, test_parts::Gives::Join, arb_model::Reply::Joined),
            (1, test_parts::Gives::Ask($asks), arb_model::Reply::Due($due)),
            (1, test_parts::Gives::Block, now_on!($core)),
        ]
    };
}

pub(crate) use came_to;

/// So many orders of a client that are alike, with their reply.
pub type Answered = (usize, Gives, Reply);

/// What a client does, with what it must get or read.
#[derive(Clone, Copy)]
pub enum Step<'a> {
    /// It posts an order.
    Post(Gives, Result<(), PostFault>),
    /// It posts an order again and again until the full queue takes it.
    PostAtLast(Gives),
    /// It collects a reply.
    Collect(Result<Reply, CollectFault>),
    /// It posts an order as often as may be open, and collects as many of these replies.
    Eight(Gives, Reply),
    /// It gives an order and waits for the reply.
    Call(Gives, Result<Reply, CallFault>),
    /// It waits for a core.
    Wait(Result<u16, WaitFault>),
    /// It waits for a core while the server ends.
    WaitToTheEnd,
    /// It asks for its counts again and again until a thread of its application waits.
    UntilOneWaits,
    /// So many of its orders are open.
    Open(usize),
    /// It remembers these answered orders.
    Mine(&'a [Answered]),
    /// It is this client.
    Is(Named),
    /// Its thread is there.
    Place(Place),
    /// Whether its core is asked back.
    Release(Option<bool>),
    /// Which cores of a half are asked back of its application.
    Asked(Half, u64),
    /// Its thread is unmanaged, and no core is asked back, of it or of its application.
    HasNothing,
    /// It learns what the client of this index tells.
    Learn(usize),
    /// All clients block, one after another, and the first of them is then on core 1, the next on core 2, and so on.
    AllBlock,
}

/// A client's index, how often it takes a step, and the step.
pub type Row<'a> = (usize, u32, Step<'a>);

/// Clients take their steps, one row after another.
pub fn act<K: Set, R: Wait + Abort>(rt: &R, clients: &mut Vec<Client<K>>, rows: &[Row]) {
    for (row, (who, times, step)) in rows.iter().enumerate() {
        for _ in 0..*times {
            take(rt, clients, row, *who, step);
        }
    }
}

fn take<K: Set, R: Wait + Abort>(
    rt: &R,
    clients: &mut Vec<Client<K>>,
    row: usize,
    who: usize,
    step: &Step,
) {
    match *step {
        Step::Learn(from) => learn(rt, clients, who, from),
        Step::AllBlock => all_block(rt, clients),
        _ => {
            assert!(rt; who < clients.len());
            order(rt, &mut clients[who], row, step);
            read(rt, &mut clients[who], row, step);
        }
    }
}

fn learn<K: Set>(rt: &impl Abort, clients: &mut Vec<Client<K>>, who: usize, from: usize) {
    assert!(rt; who < clients.len() && from < clients.len());
    let note = clients[from].tell();
    clients[who].learn(note);
}

fn all_block<K: Set, R: Wait + Abort>(rt: &R, clients: &mut Vec<Client<K>>) {
    let mut core = 0;
    for client in clients {
        assert!(rt; core < 128);
        core += 1;
        let got = called(rt, client, Order::Block);
        same(rt, core, got, Ok(now_on!(core)));
    }
}

/// The steps that give orders and collect replies.
fn order<K: Set, R: Wait + Abort>(rt: &R, client: &mut Client<K>, row: usize, step: &Step) {
    match *step {
        Step::Post(gives, want) => same(rt, row, client.post(rt, gives.order()), want),
        Step::PostAtLast(gives) => post_at_last(rt, client, gives),
        Step::Collect(want) => same(rt, row, client.collect(rt), want),
        Step::Eight(gives, want) => eight(rt, client, gives, want),
        Step::Call(gives, want) => same(rt, row, called(rt, client, gives.order()), want),
        Step::Wait(want) => same(rt, row, waited(rt, client), want),
        Step::WaitToTheEnd => wait_to_the_end(rt, client),
        Step::UntilOneWaits => until_one_waits(rt, client),
        _ => {}
    }
}

/// The steps that read without the server.
fn read<K: Set>(rt: &impl Abort, client: &mut Client<K>, row: usize, step: &Step) {
    match *step {
        Step::Open(want) => same(rt, row, client.out(), want),
        Step::Mine(want) => remembers(rt, client.mine(), want),
        Step::Is(want) => same(rt, row, client.id(), client_of(want)),
        Step::Place(want) => same(rt, row, client.place(), want),
        Step::Release(want) => same(rt, row, client.must_release(), want),
        Step::Asked(half, want) => same(rt, row, client.asked_cores(half), want),
        Step::HasNothing => has_nothing(rt, client),
        _ => {}
    }
}

fn has_nothing<K: Set>(rt: &impl Abort, client: &mut Client<K>) {
    same(rt, "release", client.must_release(), None);
    same(rt, "place", client.place(), Place::Unmanaged);
    same(rt, "low half", client.asked_cores(Half::Low), 0);
    same(rt, "high half", client.asked_cores(Half::High), 0);
}

/// A client was answered so, and no more.
pub fn remembers(rt: &impl Abort, mine: &[(Order, Reply)], answered: &[Answered]) {
    let mut mine = mine.iter();
    for (times, gives, reply) in answered {
        for _ in 0..*times {
            let want = Some((gives.order(), *reply));
            same(rt, "answered order", mine.next().copied(), want);
        }
    }
    assert!(rt; mine.next().is_none());
}

/// What a client's order comes to.
pub fn called<K: Set, R: Wait + Abort>(
    rt: &R,
    client: &mut Client<K>,
    order: Order,
) -> Result<Reply, CallFault> {
    assert!(rt; client.out() == 0);
    client.call(rt, order)
}

/// What a client's wait for a core comes to.
fn waited<K: Set, R: Wait + Abort>(rt: &R, client: &mut Client<K>) -> Result<u16, WaitFault> {
    assert!(rt; client.out() == 0);
    client.wait_for_core(rt)
}

fn post_at_last<K: Set, R: Wait + Abort>(rt: &R, client: &mut Client<K>, gives: Gives) {
    for _ in rt.forever() {
        let posted = client.post(rt, gives.order());
        if posted.is_ok() {
            break;
        }
        same(rt, "post", posted, Err(PostFault::Busy));
        thread::yield_now();
    }
}

fn eight<K: Set, R: Wait + Abort>(rt: &R, client: &mut Client<K>, gives: Gives, want: Reply) {
    for _ in 0..MOST_OPEN {
        same(rt, "post", client.post(rt, gives.order()), Ok(()));
    }
    for _ in 0..MOST_OPEN {
        same(rt, "collect", client.collect(rt), Ok(want));
    }
}

/// The order to block is posted and never answered, or the end comes before it is posted.
fn wait_to_the_end<K: Set, R: Wait + Abort>(rt: &R, client: &mut Client<K>) {
    let waited = waited(rt, client);
    let unanswered = WaitFault::Call(CallFault::Collect(CollectFault::Gone));
    let unposted = WaitFault::Call(CallFault::Post(PostFault::Gone));
    assert!(rt; waited == Err(unanswered) || waited == Err(unposted));
}

fn until_one_waits<K: Set, R: Wait + Abort>(rt: &R, client: &mut Client<K>) {
    for _ in rt.forever() {
        let reply = called(rt, client, Order::Status);
        assert!(rt; reply.is_ok());
        if let Ok(Reply::Counts { waiting: 1, .. }) = reply {
            break;
        }
    }
}
