//! A client with a channel of its own: an answer that isn't to its order, and one that never comes. And a client that is gone.
//!
//! The test stands in for the server. It enters orders, whoever put them, and sends the client some of the answers.

ghost use Rattle.std.specs.Prelude.{◌≡◌, [], IfOk, length, true};
ghost use Rattle.crossbeam_queue.specs.Passes.{IsPassOf, view};
ghost use Rattle.arb_desk.specs.Passes.{client_view};

use crate::tests::same::same;
use crate::tests::stand_in::{Given, enter_all, parts, send, stand_in};
use arb_config::Topology;
use arb_desk::{Answer, Body, Desk, Message, OrderPass, Sender, open_channel, put, take};
use arb_house::CollectFault::{Full, Gone, NothingOut, Stranger};
use arb_house::{Client, CollectFault, MOST_OPEN, PostFault, Recorder, Roster, Server};
use arb_model::{ClientId, Order, Reply};
use arb_page::{Blank, Pages, Set};
use std::alloc::{AllocError, Global};
use std::marker::Brand;
use std::process::Abort;
use std::sync::{Arc, Wait};
use std::test::*;
use test_parts::{Gives, NO_COUNTS, THREE_ORDERS, TWO_SOCKETS};

/// Client 0.0 joins.
const JOINS: Given = ((0, 0), Gives::Join);

/// It asks for the status.
const ASKS: Given = ((0, 0), Gives::Status);

/// Another client joins.
const OTHER: Given = ((1, 0), Gives::Join);

/// And so does a third one.
const THIRD: Given = ((2, 0), Gives::Join);

/// What a client with a channel of its own is answered, and what comes of it.
#[derive(Drop)]
struct Case<'a> {
    /// The orders that are entered before client 0.0 posts some.
    early: &'a [Given],
    /// The orders that it posts.
    posts: &'a [Gives],
    /// The orders that are entered then.
    late: &'a [Given],
    /// Which of the answers the client gets, each by its index among those that are left.
    sent: &'a [usize],
    /// Whether the server has ended once it sent them.
    ends: bool,
    /// What it collects before it closes.
    collects: &'a [Result<Reply, CollectFault>],
    /// Whether its past is complete.
    whole: bool,
    /// How many replies it collects as it closes.
    closes_with: usize,
}

/// Answers a client as each case says, on pages of its own.
fn are_answered<R: Wait + Abort + AllocGlobal>(rt: &R, cases: &[Case]) -> Result<(), Fail> {
    for case in cases {
        let topology = Topology::from_text(rt.alloc(), THREE_ORDERS)?;
        let blank = Pages::open(rt.alloc(), &topology).ok().ok_or("memory")?;
        is_answered::<Brand, _>(rt, rt.alloc(), &topology, blank, case)?;
    }
    Ok(())
}

const ITS_OWN: Case = Case {
    early: &[],
    posts: &[Gives::Join],
    late: &[JOINS],
    sent: &[0],
    ends: false,
    collects: &[Ok(Reply::Joined)],
    whole: true,
    closes_with: 0,
};

const STRANGE: Case = Case {
    collects: &[Err(Stranger)],
    whole: false,
    ..ITS_OWN
};

const TO_OTHER_ORDERS: &[Case] = &[
    // its own entry: the first one, and the one right behind what it had seen
    ITS_OWN,
    Case {
        early: &[OTHER],
        sent: &[1],
        ..ITS_OWN
    },
    // another client's entry, one of another order, and its own of another number
    Case {
        late: &[OTHER],
        ..STRANGE
    },
    // also of a server that ends right after it
    Case {
        late: &[OTHER],
        ends: true,
        ..STRANGE
    },
    Case {
        late: &[ASKS],
        ..STRANGE
    },
    Case {
        posts: &[Gives::Status, Gives::Status],
        late: &[ASKS, ASKS],
        sent: &[1],
        ..STRANGE
    },
    // an entry that it had seen before it posted
    Case {
        early: &[JOINS],
        late: &[],
        ..STRANGE
    },
];

/// Answers below the limit: its own entry, and what isn't its.
#[test]
fn answers_to_other_orders(rt: HostRuntime) -> Result<(), Fail> {
    are_answered(&rt, TO_OTHER_ORDERS)
}

const PAST_IT: Case = Case {
    early: &[OTHER, OTHER, OTHER],
    sent: &[3],
    collects: &[Err(Full)],
    ..ITS_OWN
};

const TWICE_PAST_IT: Case = Case {
    posts: &[Gives::Status, Gives::Status],
    late: &[ASKS, ASKS],
    sent: &[3, 3],
    ..PAST_IT
};

const STRANGE_SECOND: Case = Case {
    late: &[ASKS, THIRD],
    whole: false,
    ..TWICE_PAST_IT
};

const PAST_THE_LIMIT: &[Case] = &[
    // its own order, another client's, and its own of another number
    PAST_IT,
    Case {
        late: &[THIRD],
        collects: &[Err(Stranger)],
        whole: false,
        ..PAST_IT
    },
    Case {
        early: &[JOINS, OTHER, THIRD],
        collects: &[Err(Stranger)],
        whole: false,
        ..PAST_IT
    },
    // the server ends after it: from then on the client hears that it has ended
    Case {
        ends: true,
        whole: false,
        ..PAST_IT
    },
];

/// Answers past the limit, to one order.
#[test]
fn answers_past_the_limit(rt: HostRuntime) -> Result<(), Fail> {
    are_answered(&rt, PAST_THE_LIMIT)
}

const TWO_PAST_THE_LIMIT: &[Case] = &[
    // it collects one of them, or none, before it closes
    TWICE_PAST_IT,
    Case {
        collects: &[],
        ..TWICE_PAST_IT
    },
    // the same where the second answer is a stranger's, whether it is collected or met by the close
    Case {
        collects: &[Err(Full), Err(Stranger)],
        ..STRANGE_SECOND
    },
    STRANGE_SECOND,
    Case {
        collects: &[],
        ..STRANGE_SECOND
    },
    // and where the second answer never comes
    Case {
        sent: &[3],
        whole: false,
        ..TWICE_PAST_IT
    },
    Case {
        sent: &[3],
        collects: &[],
        whole: false,
        ..TWICE_PAST_IT
    },
];

/// Answers past the limit, to two orders.
#[test]
fn two_answers_past_the_limit(rt: HostRuntime) -> Result<(), Fail> {
    are_answered(&rt, TWO_PAST_THE_LIMIT)
}

const ONE_ANSWER: Case = Case {
    ends: true,
    whole: false,
    ..ITS_OWN
};

const TWO_ANSWERS: Case = Case {
    posts: &[Gives::Join, Gives::Status],
    late: &[JOINS, ASKS],
    sent: &[0, 0],
    collects: &[],
    closes_with: 2,
    ..ONE_ANSWER
};

const BEFORE_THE_END: &[Case] = &[
    // one is collected, or met by the close
    ONE_ANSWER,
    Case {
        collects: &[],
        closes_with: 1,
        ..ONE_ANSWER
    },
    // of two both are
    TWO_ANSWERS,
    Case {
        collects: &[Ok(Reply::Joined)],
        closes_with: 1,
        ..TWO_ANSWERS
    },
    Case {
        collects: &[Ok(Reply::Joined), Ok(NO_COUNTS)],
        closes_with: 0,
        ..TWO_ANSWERS
    },
    // it ends when it has entered the order, before it answers
    Case {
        sent: &[],
        ends: false,
        collects: &[Err(Gone)],
        ..ONE_ANSWER
    },
];

/// Answers of a server that ends right after them.
#[test]
fn answers_before_the_end(rt: HostRuntime) -> Result<(), Fail> {
    are_answered(&rt, BEFORE_THE_END)
}

fn is_answered<K: Set, R: Wait + Abort>(
    rt: &R,
    alloc: Global,
    topology: &Topology,
    blank: Blank,
    case: &Case,
) -> Result<(), AllocError>
    requires name { (blank.table ≡ K.table) × (blank.machine ≡ K.machine) }
    requires topology { blank.machine ≡ topology.now }
{
    let (stand_in, mut client) = stand_in(alloc, topology, parts::<K>(alloc, topology, blank)?)?;
    let (desk, mut server, mut recorder, mut answers, mut to) = stand_in;
    post_beside(rt, &desk, &mut recorder, &mut answers, &mut client, case);
    for index in case.sent {
        send(rt, &mut to, &mut answers, *index);
    }
    drop(to);
    if case.ends {
        desk.end();
    }
    collect_and_close(rt, client, case);
    has_put(rt, &desk, &mut server, case.posts, !case.ends);
    Ok(())
}

/// The client posts its orders. Before and after that others are entered.
fn post_beside<K: Set, R: Wait + Abort>(
    rt: &R,
    desk: &Desk<K>,
    recorder: &mut Recorder<K>,
    answers: &mut Vec<Answer<K>>,
    client: &mut Client<K>,
    case: &Case,
) {
    enter_all(rt, recorder, &desk.pages, case.early, answers);
    post_all(rt, desk, client, case.posts);
    enter_all(rt, recorder, &desk.pages, case.late, answers);
}

/// The client posts orders. Another one waits for room that is there: a post finds it all the same.
fn post_all<K: Set, R: Wait + Abort>(
    rt: &R,
    desk: &Desk<K>,
    client: &mut Client<K>,
    orders: &[Gives],
) {
    let _heard = desk.room.join();
    for gives in orders {
        same(rt, "post", client.post(rt, gives.order()), Ok(()));
    }
    desk.room.leave();
}

/// The client collects what it is to, and closes. After a stranger's answer, and after the end, it is closed to orders. What it
/// doesn't collect adds nothing to its past.
fn collect_and_close<K: Set, R: Wait + Abort>(rt: &R, mut client: Client<K>, case: &Case) {
    let mut answered: usize = 0;
    let mut shut = false;
    for want in case.collects {
        same(rt, "collect", client.collect(rt), *want);
        if want.is_ok() {
            answered = answered.wrapping_add(1);
        }
        shut = matches!(want, Err(Stranger | Gone));
    }
    if shut {
        same(rt, "open orders", client.out(), 0);
        same(rt, "collect", client.collect(rt), Err(NothingOut));
    }
    if shut || case.ends {
        same(
            rt,
            "post",
            client.post(rt, Order::Join),
            Err(PostFault::Gone),
        );
    }
    let past = client.close(rt);
    same(rt, "whole", past.whole, case.whole);
    let want = answered.wrapping_add(case.closes_with);
    same(rt, "answered orders", past.mine.len(), want);
}

/// The server takes these orders of client 0.0, and then its close mark, or nothing.
fn has_put<K: Set, R: Wait + Abort>(
    rt: &R,
    desk: &Desk<K>,
    server: &mut OrderPass,
    posts: &[Gives],
    marked: bool,
)
    requires queue { IsPassOf desk.now.orders server.old }
    requires server { (view server.old).is_server ≡ true }
{
    let client = ClientId::of_thread(0);
    for gives in posts {
        let body = Body::Put(gives.order());
        let taken = take(rt, &desk.orders, server);
        same(rt, "message", taken, Some(Message { client, body }));
    }
    let mark = Message {
        client,
        body: Body::Close,
    };
    let want = if marked { Some(mark) } else { None };
    let taken = take(rt, &desk.orders, server);
    same(rt, "last message", taken, want);
}

/// Nobody hears the answers of a client that is gone. The server enters its order all the same, and ends with its close mark.
#[test]
fn a_client_that_is_gone(rt: HostRuntime) -> Result<(), Fail> {
    let topology = Topology::from_text(rt.alloc(), TWO_SOCKETS)?;
    let blank = Pages::open(rt.alloc(), &topology).ok().ok_or("memory")?;
    is_served::<Brand, _>(&rt, &topology, blank)?;
    Ok(())
}

fn is_served<K: Set, R: Wait + Abort + AllocGlobal>(
    rt: &R,
    topology: &Topology,
    blank: Blank,
) -> Result<(), AllocError>
    requires name { (blank.table ≡ K.table) × (blank.machine ≡ K.machine) }
    requires topology { blank.machine ≡ topology.now }
{
    let alloc = rt.alloc();
    let (desk, server, pass, writer) = parts::<K>(alloc, topology, blank)?;
    join_and_close(rt, &desk, pass);
    let answers = unheard(alloc)?;
    let recorder = Recorder::new(alloc, topology, writer);
    let clients = Roster::new(alloc, &[ClientId::of_thread(0)])?;
    let shared = Arc::try_clone(&desk)?;
    serve_to_the_end(
        rt,
        &shared,
        Server::new(desk, server, recorder, clients, answers),
    );
    Ok(())
}

/// Client 0.0 puts the order to join, and then its close mark.
fn join_and_close<K: Set, R: Wait + Abort>(rt: &R, desk: &Desk<K>, mut pass: OrderPass)
    requires queue { IsPassOf desk.now.orders pass }
    requires new { view pass ≡ client_view 0 [] }
{
    let client = ClientId::of_thread(0);
    let body = Body::Put(Order::Join);
    let joins = put(rt, &desk.orders, &mut pass, Message { client, body });
    assert!(rt; joins);
    let body = Body::Close;
    let closes = put(rt, &desk.orders, &mut pass, Message { client, body });
    assert!(rt; closes);
}

/// A channel that nobody hears.
fn unheard<K: Set>(alloc: Global) -> Result<Vec<Sender<Answer<K>>>, AllocError>
    ensures { IfOk result (λ answers. length answers.items ≡ 1) }
{
    let mut answers = Vec::with_capacity(alloc, 1)?;
    let (to, from) = open_channel(alloc, MOST_OPEN)?;
    drop(from);
    answers.push(to)?;
    Ok(answers)
}

/// The server enters the order, and ends.
fn serve_to_the_end<K: Set, R: Wait + Abort>(rt: &R, shared: &Desk<K>, server: Server<K>) {
    assert!(rt; !shared.has_ended());
    let ended = server.serve(rt);
    assert!(rt; shared.has_ended());
    assert!(rt; ended.fault.is_none());
    same(rt, "number of entries", ended.journal.len(), 1);
}
