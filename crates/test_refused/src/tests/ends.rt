//! A house in which each allocation from one on is refused: the server ends for all its clients.

use crate::tests::closes::Three;
use crate::tests::courses::{Course, in_a_house};
use arb_house::{
    CallFault, Client, CollectFault, Ended, Past, PostFault, Server, WaitFault, audit,
};
use arb_model::{Order, Reply};
use arb_page::Set;
use std::process::Abort;
use std::sync::Wait;
use std::thread::{Scope, Threads, scope, scope_env};

/// How many orders are given while a thread waits.
const ORDERS: usize = 20;

/// How many orders are given at most.
const LOOKS: usize = 10_000;

/// Where the server found no memory, a client that waits for a core comes back, and one that ordered nothing meanwhile
/// closes, and knows that its past may lack something.
#[test]
fn a_server_without_memory_ends_for_all(rt: HostRuntime) {
    in_a_house(&rt, Course::Ends);
}

/// How many threads of the client's application wait, where an order for that is answered.
fn count_waiting<K: Set, R: Wait>(rt: &R, client: &mut Client<K>) -> Option<u8> {
    if client.out() != 0 {
        return None;
    }
    match client.call(rt, Order::Status) {
        Ok(Reply::Counts { waiting, .. }) => Some(waiting),
        _ => None,
    }
}

/// Gives orders until one isn't answered, so many once a thread of its application waits, and closes. Gives whether all were
/// answered.
fn give_on<K: Set, R: Wait>(rt: &R, mut client: Client<K>) -> (bool, Past) {
    let mut left = ORDERS;
    for _ in 0..LOOKS {
        match count_waiting(rt, &mut client) {
            Some(0) => {}
            Some(_) if left > 0 => left = left.saturating_sub(1),
            _ => break,
        }
    }
    (left == 0, client.close(rt))
}

/// Waits for a core that never comes, and closes. Gives why none came.
fn wait_on<K: Set, R: Wait>(rt: &R, mut client: Client<K>) -> (Option<WaitFault>, Past) {
    if client.out() != 0 {
        return (None, client.close(rt));
    }
    let fault = client.wait_for_core(rt).err();
    (fault, client.close(rt))
}

/// Whether a wait ended so since the server had ended.
fn is_gone(fault: &WaitFault) -> bool {
    matches!(
        fault,
        WaitFault::Call(CallFault::Post(PostFault::Gone) | CallFault::Collect(CollectFault::Gone))
    )
}

/// Takes the reply to its order to join, lets its application leave, and closes. Gives whether it left. Its list of replies
/// has had room for more than one since it joined, so it takes no memory.
fn leave<K: Set, R: Wait>(rt: &R, mut client: Client<K>) -> (bool, Past) {
    let joined = client.collect(rt) == Ok(Reply::Joined);
    let left = joined && client.out() == 0 && client.call(rt, Order::Leave) == Ok(Reply::Done);
    (left, client.close(rt))
}

/// What a server, and three clients in turn, leave.
type All<K> = (
    Ended<K>,
    (bool, Past),
    (Option<WaitFault>, Past),
    (bool, Past),
);

/// What a server leaves, and the clients that give orders and leave meanwhile.
type Served<K> = (Ended<K>, (bool, Past), (bool, Past));

/// One client gives orders, and the other idles and then leaves. None where the server's thread couldn't be started.
fn serve_beside<'s, E, K: Set + Send + Sync + 's, R: Threads + Wait + Sync>(
    rt: &'s R,
    scope: &Scope<'s, E>,
    server: Server<K>,
    giver: Client<K>,
    leaver: Client<K>,
) -> Option<Served<K>> {
    let serving = scope.spawn(move || server.serve(rt)).ok()?;
    let gave = give_on(rt, giver);
    let left = leave(rt, leaver);
    Some((serving.join(rt), gave, left))
}

/// One client waits meanwhile. None where no thread could be started.
fn run<K: Set + Send + Sync, R: Threads + Wait + Sync>(
    rt: &R,
    server: Server<K>,
    giver: Client<K>,
    waiter: Client<K>,
    leaver: Client<K>,
) -> Option<All<K>> {
    scope(scope_env(), rt, move |scope| -> Option<All<K>> {
        let waiting = scope.spawn(move || wait_on(rt, waiter)).ok()?;
        let served = serve_beside(rt, scope, server, giver, leaver);
        let waited = waiting.join(rt);
        let (ended, gave, left) = served?;
        Some((ended, gave, waited, left))
    })
}

/// What came of all. Where the server ended early the audit says so.
fn told<K: Set>(rt: &impl Abort, all: All<K>) -> &'static str {
    let (ended, (answered, gave), (fault, waited), (left, past)) = all;
    let complete = past.whole;
    let early = ended.fault.is_some();
    // want of memory isn't told as the server's end
    let is_told = early || !fault.as_ref().is_some_and(is_gone);
    assert!(rt; fault.is_some() && (left || !complete) && is_told);
    let agrees = audit(&ended, &[gave, waited, past]).is_ok();
    assert!(rt; agrees != early && (early || (left && complete)));
    match (early, answered) {
        (true, _) => "the server ended early",
        (false, true) => "all orders",
        (false, false) => "fewer orders",
    }
}

/// Three clients of a house, in their order: one orders, one waits, and one idles. Gives what came of it.
pub fn three_clients<K: Set + Send + Sync, R: Threads + Wait + Abort + Sync>(
    rt: &R,
    server: Server<K>,
    clients: Three<K>,
) -> &'static str {
    let (giver, waiter, mut leaver) = clients;
    if leaver.post(rt, Order::Join).is_err() {
        return "no room";
    }
    match run(rt, server, giver, waiter, leaver) {
        Some(all) => told(rt, all),
        None => "no thread",
    }
}
