//! A server's account of what a client left.

ghost use Rattle.std.specs.Prelude.{◌≡◌, ◌++◌, ◌∷◌, [], ℕ, None, Some, IfOk, false, true, slice_get};
ghost use Rattle.arb_desk.specs.Messages.{is_closed, messages_by};
ghost use Rattle.arb_desk.specs.Passes.{IsPassAt};
ghost use Rattle.arb_client.specs.Closing.{IsComplete, PutsMark};
ghost use Rattle.arb_client.specs.Sides.{StandIn, close_mark, fresh};
ghost use Rattle.arb_house.specs.Serving.{AllClosed};

use crate::tests::same::same;
use arb_config::Topology;
use arb_house::{AuditFault, Client, Ended, House, Past, Server, audit_own};
use arb_model::{ClientId, Order, Reply};
use arb_page::{Blank, Pages, Set};
use std::alloc::Global;
use std::marker::Brand;
use std::process::Abort;
use std::sync::Wait;
use std::test::*;
use std::thread::{Threads, join};
use test_parts::{NO_COUNTS, TWO_SOCKETS, thread};

/// The client closes on one thread and is served on another.
fn serve_and_close<K: Set + Send + Sync, R: Threads + Wait + Sync>(
    rt: &R,
    server: Server<K>,
    client: Client<K>,
) -> (Ended<K>, Past)
    ensures queue { result.0.served.queue ≡ server.queue }
    ensures clients { result.0.served.clients ≡ server.clients }
    ensures closed { result.0.fault ≡ None → AllClosed result.0.served.clients result.0.served.taken }
    ensures client { result.1.client ≡ client.id }
    ensures pass { IsPassAt client.queue result.1.pass }
    ensures put { PutsMark client result.1 }
    ensures table { result.1.point.table ≡ K.table }
    ensures stand { StandIn client.id result.1.mine.items result.1.point.seen }
    ensures complete { result.1.whole ≡ true → IsComplete K.machine result.1 }
{
    join(
        rt,
        move || -> Ended<K>
            ensures queue { result.served.queue ≡ server.queue }
            ensures clients { result.served.clients ≡ server.clients }
            ensures closed { result.fault ≡ None → AllClosed result.served.clients result.served.taken }
        { server.serve(rt) },
        move || -> Past
            ensures client { result.client ≡ client.id }
            ensures queue { IsPassAt client.queue result.pass }
            ensures put { PutsMark client result }
            ensures table { result.point.table ≡ K.table }
            ensures stand { StandIn client.id result.mine.items result.point.seen }
            ensures complete { result.whole ≡ true → IsComplete K.machine result }
        { client.close(rt) },
    )
}

/// The client closes and is served. Its answered orders stand in the history whose entries are the journal, those too that it
/// collects as it closes. What was taken of it is what it put, and then its close mark, unless the server ended early.
fn serve_and_reconcile<K: Set + Send + Sync, R: Threads + Wait + Sync>(
    rt: &R,
    server: Server<K>,
    client: Client<K>,
) -> (Ended<K>, Vec<(Order, Reply)>)
    requires queue { client.queue ≡ server.queue }
    requires unclosed { is_closed client.put ≡ false }
    ensures stand { StandIn client.id result.1.items result.0.served.seen }
    ensures taken { (place : ℕ) → slice_get server.clients place ≡ Some client.id → result.0.fault ≡ None
        → messages_by client.id result.0.served.taken ≡ client.put ++ close_mark client.id ∷ [] }
{
    let (mut ended, past) = serve_and_close(rt, server, client);
    let mine = ended.reconcile(past);
    (ended, mine)
}

/// The client closes and is served. The audit of its past takes the past in, and gives its list back if there is room for one.
fn serve_and_audit<K: Set + Send + Sync, R: Threads + Wait + Sync>(
    rt: &R,
    alloc: Global,
    server: Server<K>,
    client: Client<K>,
    lists: &mut Vec<Vec<(Order, Reply)>>,
) -> Result<Result<(), AuditFault>, Fail>
    requires queue { client.queue ≡ server.queue }
{
    let (mut ended, past) = serve_and_close(rt, server, client);
    let pasts = vec![in alloc; past]?;
    Ok(audit_own(&mut ended, pasts, lists))
}

/// A house with one client.
fn open_one<K: Set, R: Wait + Abort>(
    rt: &R,
    alloc: Global,
    topology: &Topology,
    blank: Blank,
    id: ClientId,
) -> Result<(Server<K>, Client<K>), Fail>
    requires name { (blank.table ≡ K.table) × (blank.machine ≡ K.machine) }
    requires topology { blank.machine ≡ topology.now }
    ensures { IfOk result (λ opened. opened.1 ≡ fresh opened.0.queue id) }
{
    let Ok((server, mut clients)) = House::open::<K>(rt, alloc, blank, topology, &[id]) else {
        return Err("memory".into());
    };
    assert_eq!(rt; clients.len(), 1);
    Ok((server, clients.remove(0)))
}

#[test]
fn a_past_is_reconciled_or_audited(rt: HostRuntime) -> Result<(), Fail> {
    for how in [Follow::Reconciled, Follow::Audited, Follow::Listed] {
        follow_one(&rt, how)?;
    }
    Ok(())
}

/// What is done with a client's past.
#[derive(Clone, Copy)]
enum Follow {
    Reconciled,
    /// Its list is dropped, since there is no room for it.
    Audited,
    /// Its list comes behind one that was there.
    Listed,
}

/// Opens a house with one client, and follows what it leaves.
fn follow_one<R: Threads + Wait + Abort + AllocGlobal + Sync>(
    rt: &R,
    how: Follow,
) -> Result<(), Fail> {
    let topology = Topology::from_text(rt.alloc(), TWO_SOCKETS)?;
    let blank = Pages::open(rt.alloc(), &topology).ok().ok_or("memory")?;
    follow_named::<Brand, _>(rt, rt.alloc(), &topology, blank, how)
}

fn follow_named<K: Set + Send + Sync, R: Threads + Wait + Abort + Sync>(
    rt: &R,
    alloc: Global,
    topology: &Topology,
    blank: Blank,
    how: Follow,
) -> Result<(), Fail>
    requires name { (blank.table ≡ K.table) × (blank.machine ≡ K.machine) }
    requires topology { blank.machine ≡ topology.now }
{
    let (server, client) = open_one::<K, R>(rt, alloc, topology, blank, thread(0, 0))?;
    match how {
        Follow::Reconciled => reconciles(rt, server, client),
        Follow::Audited => {
            let mut lists = Vec::new(alloc);
            audits_own(rt, alloc, server, client, &mut lists)?;
            same(rt, "lists without room", lists.len(), 0);
            Ok(())
        }
        Follow::Listed => lists_own(rt, alloc, server, client),
    }
}

/// The client closes with two open orders, and gets both replies.
fn reconciles<K: Set + Send + Sync, R: Threads + Wait + Abort + Sync>(
    rt: &R,
    server: Server<K>,
    mut client: Client<K>,
) -> Result<(), Fail>
    requires queue { client.queue ≡ server.queue }
    requires unclosed { is_closed client.put ≡ false }
{
    let note = client.tell();
    same(rt, "post", client.post(rt, Order::Join), Ok(()));
    same(rt, "post", client.post(rt, Order::Status), Ok(()));
    let (mut ended, mine) = serve_and_reconcile(rt, server, client);
    ended.learn(note);
    assert!(rt; ended.fault.is_none());
    let replies = [(Order::Join, Reply::Joined), (Order::Status, NO_COUNTS)];
    assert_eq!(rt; mine.as_slice(), &replies[..]);
    same(rt, "number of entries", ended.journal.len(), 2);
    Ok(())
}

/// The client closes with an open order, and its past agrees with the journal.
fn audits_own<K: Set + Send + Sync, R: Threads + Wait + Abort + Sync>(
    rt: &R,
    alloc: Global,
    server: Server<K>,
    mut client: Client<K>,
    lists: &mut Vec<Vec<(Order, Reply)>>,
) -> Result<(), Fail>
    requires queue { client.queue ≡ server.queue }
{
    same(rt, "post", client.post(rt, Order::Join), Ok(()));
    let found = serve_and_audit(rt, alloc, server, client, lists)?;
    same(rt, "audit", found, Ok(()));
    Ok(())
}

/// The same with room for the client's list, behind one that was there.
fn lists_own<K: Set + Send + Sync, R: Threads + Wait + Abort + Sync>(
    rt: &R,
    alloc: Global,
    server: Server<K>,
    client: Client<K>,
) -> Result<(), Fail>
    requires queue { client.queue ≡ server.queue }
{
    let mut lists = one_listed(alloc)?;
    audits_own(rt, alloc, server, client, &mut lists)?;
    same(rt, "lists", lists.len(), 2);
    has_only(rt, lists.first(), (Order::Status, NO_COUNTS));
    has_only(rt, lists.last(), (Order::Join, Reply::Joined));
    Ok(())
}

/// The list of another client, and room for one more list.
fn one_listed(alloc: Global) -> Result<Vec<Vec<(Order, Reply)>>, Fail> {
    let mut lists = Vec::with_capacity(alloc, 2)?;
    lists.push(vec![in alloc; (Order::Status, NO_COUNTS)]?)?;
    Ok(lists)
}

/// Asserts that a list is there, and has this answered order alone.
fn has_only(rt: &impl Abort, list: Option<&Vec<(Order, Reply)>>, only: (Order, Reply)) {
    let found = list.map(|answered| answered.as_slice());
    assert_eq!(rt; found, Some(&[only][..]));
}
