//! A house in which an allocation is refused: where none is, all orders are answered.

use crate::tests::courses::{Course, in_a_house};
use arb_house::{
    AuditFault, CallFault, Client, CollectFault, Ended, MOST_OPEN, Past, PostFault, Server,
    WaitFault, audit,
};
use arb_model::{Order, Place, Reply};
use arb_page::Set;
use std::process::Abort;
use std::sync::Wait;
use std::thread::{Threads, scope, scope_env};
use test_parts::{NO_COUNTS, ask};

/// How often the client posts as many orders as may be open.
const ROUNDS: usize = 2;

/// How many orders it gives before it waits for a core. Its list of replies is full then, so that the order to block takes memory:
/// `tests/refuse-allocations` fails where no wait met a refusal.
const BEFORE_WAIT: usize = 4;

/// How many orders the client gives.
const ORDERS: usize = BEFORE_WAIT + 1 + ROUNDS * MOST_OPEN;

/// The server has ended.
#[derive(Drop)]
struct Gone;

/// What came of orders: whether want of memory was met, and the same orders were answered when they were given again.
type Came = Result<bool, Gone>;

/// Which of all orders were given again.
#[derive(Clone, Copy)]
enum Again {
    None,
    Some,
    /// That to block, in a wait for a core.
    Wait,
}

/// What came of all orders.
type AllCame = Result<Again, Gone>;

#[test]
fn a_refused_growth_loses_nothing(rt: HostRuntime) {
    in_a_house(&rt, Course::Grows);
}

/// Whether a call may fail so where the server met want of memory.
fn is_gone(fault: CallFault) -> bool {
    matches!(
        fault,
        CallFault::Post(PostFault::Gone) | CallFault::Collect(CollectFault::Gone)
    )
}

/// The client has so many answered orders and so many open ones, and reads its place.
fn assert_same<K: Set>(
    rt: &impl Abort,
    client: &mut Client<K>,
    mine: usize,
    out: usize,
    place: Place,
) {
    let counts = (client.mine().len(), client.out());
    assert_eq!(rt; (counts, client.place()), ((mine, out), place));
}

/// Gives an order and gets this reply, at once or after want of memory.
fn call<K: Set, R: Wait + Abort>(
    rt: &R,
    client: &mut Client<K>,
    order: &Order,
    want: Reply,
) -> Came {
    let mine = client.mine().len();
    assert!(rt; client.out() == 0);
    match client.call(rt, *order) {
        Ok(reply) => {
            assert_eq!(rt; reply, want);
            Ok(false)
        }
        Err(CallFault::Post(PostFault::Memory)) => {
            assert_same(rt, client, mine, 0, Place::Unmanaged);
            assert!(rt; client.out() == 0);
            let again = client.call(rt, *order);
            assert_eq!(rt; again, Ok(want));
            Ok(true)
        }
        Err(fault) => {
            assert!(rt; is_gone(fault));
            Err(Gone)
        }
    }
}

/// Waits for the first core and gets it, at once or after want of memory.
fn wait<K: Set, R: Wait + Abort>(rt: &R, client: &mut Client<K>) -> Came {
    let mine = client.mine().len();
    assert!(rt; client.out() == 0);
    match client.wait_for_core(rt) {
        Ok(core) => {
            assert_eq!(rt; core, 1);
            Ok(false)
        }
        Err(WaitFault::Call(CallFault::Post(PostFault::Memory))) => {
            assert_same(rt, client, mine, 0, Place::Unmanaged);
            assert!(rt; client.out() == 0);
            let again = client.wait_for_core(rt);
            assert_eq!(rt; again, Ok(1));
            Ok(true)
        }
        Err(WaitFault::Call(fault)) => {
            assert!(rt; is_gone(fault));
            Err(Gone)
        }
        Err(_) => {
            assert!(rt; false);
            Err(Gone)
        }
    }
}

/// Where the client is once it was given the first core.
const ON_CORE: Place = Place::On {
    core: 1,
    asked: false,
};

/// Posts an order, at once or after want of memory.
fn post<K: Set, R: Wait + Abort>(rt: &R, client: &mut Client<K>) -> Came {
    let mine = client.mine().len();
    let out = client.out();
    match client.post(rt, Order::Status) {
        Ok(()) => Ok(false),
        Err(PostFault::Memory) => {
            assert_same(rt, client, mine, out, ON_CORE);
            let again = client.post(rt, Order::Status);
            assert_eq!(rt; again, Ok(()));
            Ok(true)
        }
        Err(fault) => {
            assert_eq!(rt; fault, PostFault::Gone);
            Err(Gone)
        }
    }
}

/// Posts as many orders as may be open.
fn post_all<K: Set, R: Wait + Abort>(rt: &R, client: &mut Client<K>) -> Came {
    let mut wanted = false;
    for _ in 0..MOST_OPEN {
        wanted |= post(rt, client)?;
    }
    Ok(wanted)
}

/// Collects the replies to as many orders as may be open.
fn collect_all<K: Set, R: Wait + Abort>(rt: &R, client: &mut Client<K>) -> Result<(), Gone> {
    let counts = Reply::Counts {
        due: 1,
        owned: 1,
        asked: 0,
        waiting: 0,
    };
    for _ in 0..MOST_OPEN {
        match client.collect(rt) {
            Ok(reply) => assert_eq!(rt; reply, counts),
            Err(fault) => {
                assert_eq!(rt; fault, CollectFault::Gone);
                assert_eq!(rt; client.out(), 0);
                return Err(Gone);
            }
        }
    }
    Ok(())
}

/// Joins, counts its cores, asks for one, waits for it, and then keeps as many orders open as may be.
fn give_all<K: Set, R: Wait + Abort>(rt: &R, client: &mut Client<K>) -> AllCame {
    let mut wanted = call(rt, client, &Order::Join, Reply::Joined)?;
    for _ in 2..BEFORE_WAIT {
        wanted |= call(rt, client, &Order::Status, NO_COUNTS)?;
    }
    wanted |= call(rt, client, &ask(1), Reply::Due(1))?;
    if wait(rt, client)? {
        return give_rest(rt, client).map(|_| Again::Wait);
    }
    wanted |= give_rest(rt, client)?;
    Ok(if wanted { Again::Some } else { Again::None })
}

/// The rest of the orders, of a client on its core.
fn give_rest<K: Set, R: Wait + Abort>(rt: &R, client: &mut Client<K>) -> Came {
    let mut wanted = false;
    let place = client.place();
    assert_eq!(rt; place, ON_CORE);
    for _ in 0..ROUNDS {
        wanted |= post_all(rt, client)?;
        collect_all(rt, client)?;
    }
    Ok(wanted)
}

/// Gives all orders and closes, whatever came of them. The client reads its place also where the server has ended.
fn give_and_close<K: Set, R: Wait + Abort>(rt: &R, mut client: Client<K>) -> (AllCame, Past) {
    let came = give_all(rt, &mut client);
    let place = client.place();
    assert!(rt; place == ON_CORE || place == Place::Unmanaged);
    (came, client.close(rt))
}

/// What a server and its client leave, or where no thread can be started what the client does.
type Both<K> = (Option<Ended<K>>, (AllCame, Past));

/// The server on a thread of its own, and the client on this one. Where no thread can be started the server is dropped, and
/// the client sees that it has ended.
fn both<K: Set + Send + Sync, R: Threads + Wait + Abort + Sync>(
    rt: &R,
    server: Server<K>,
    client: Client<K>,
) -> Both<K> {
    scope(scope_env(), rt, move |scope| -> Both<K> {
        match scope.spawn(move || server.serve(rt)) {
            Ok(serving) => {
                let gave = give_and_close(rt, client);
                (Some(serving.join(rt)), gave)
            }
            Err(refused) => {
                drop(refused);
                (None, give_and_close(rt, client))
            }
        }
    })
}

/// Each order that the server took was answered, and no word is stale.
fn assert_answered<K: Set>(rt: &impl Abort, ended: &Ended<K>, past: &Past) {
    let left = (ended.core.next_stale(), past.mine.len());
    assert_eq!(rt; left, (None, ended.journal.len()));
    for (entry, (order, reply)) in ended.journal.iter().zip(past.mine.iter()) {
        let entered = (entry.client, entry.order, entry.reply);
        assert_eq!(rt; entered, (past.client, *order, *reply));
    }
}

/// The one client of a house gives its orders. Gives what came of it.
pub fn one_client<K: Set + Send + Sync, R: Threads + Wait + Abort + Sync>(
    rt: &R,
    server: Server<K>,
    client: Client<K>,
) -> &'static str {
    let (ended, (came, past)) = both(rt, server, client);
    let Some(ended) = ended else {
        assert!(rt; came.is_err() && !past.whole && past.mine.is_empty());
        return "no thread";
    };
    assert_answered(rt, &ended, &past);
    told(rt, &ended, came, past)
}

/// What came of a client that was served.
fn told<K: Set>(rt: &impl Abort, ended: &Ended<K>, came: AllCame, past: Past) -> &'static str {
    match came {
        Ok(again) => {
            let orders = past.mine.len();
            assert_eq!(rt; (orders, audit(ended, &[past])), (ORDERS, Ok(())));
            match again {
                Again::None => "all orders",
                Again::Some => "all orders, one of them again",
                Again::Wait => "all orders, the wait again",
            }
        }
        Err(Gone) => {
            assert!(rt; ended.fault.is_some() && !past.whole);
            assert_eq!(rt; audit(ended, &[past]), Err(AuditFault::Early));
            "the server ended early"
        }
    }
}
