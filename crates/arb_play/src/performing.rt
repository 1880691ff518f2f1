//! All threads, from the opening of the house to the audit.

ghost use Rattle.std.specs.Prelude.{◌≡◌, ◌≤◌, ◌++◌, [], ◌∷◌, None, false, All, IfErr, IfOk, IfSome, IsErrOf, IsTrue, List, MatchOption, is_some, length, map, vec_capacity};
ghost use Rattle.arb_desk.specs.Passes.{QueueId};
ghost use Rattle.arb_house.specs.Auditing.{Agree, IsOwnFault};
ghost use Rattle.arb_house.specs.declared.auditing.AuditFault.{AuditFault};
ghost use Rattle.arb_house.specs.Opening.{AllApart};
ghost use Rattle.arb_house.specs.OwnPasts.{IsOwnPast};
ghost use Rattle.arb_script.specs.declared.given.ClientOrder.{ClientOrder};
ghost use Rattle.arb_play.specs.GivingUp.{MayBeLetThrough};
ghost use Rattle.arb_play.specs.Outcomes.{IsOutcome};
ghost use Rattle.arb_play.specs.OwnOrders.{IsIndexOf};
ghost use Rattle.arb_play.specs.Joining.{AllAnswered};
ghost use Rattle.arb_play.specs.Performing.{FaultSays, IsBrokenBy, IsFresh, RunsAll, broken_fault, not_begun_fault};
ghost use Rattle.arb_play.specs.Scripts.{clients_in};
ghost use Rattle.arb_play.specs.Walking.{Walked};

use crate::floor::Floor;
use crate::full::{full_from_table, may_be_full};
use crate::gate::Gate;
use crate::joining::{Joined, join_all};
use crate::outcome::{Outcome, PlayFault};
use crate::own_orders::OwnOrders;
use crate::start::{AllThere, Start};
use crate::walking::{Walk, Walks, walk_script};
use arb_config::Topology;
use arb_house::{Client, Ended, House, LeavesEnded, OpenFault, Past, Server, audit_own};
use arb_model::{CLIENTS, ClientId, Order, Reply};
use arb_page::{Blank, Pages, Set};
use arb_script::Script;
use std::alloc::{AllocError, Global};
use std::marker::Brand;
use std::snapshot::Snapshot;
use std::sync::Wait;
use std::thread;
use std::thread::{PromisedHandle, Threads};

/// Runs a script: the server on a thread, and each client that the script names on a thread of its own. A client's thread
/// takes its orders in script order: it asks the gate, calls, and tells the gate. An order that the gate gives up isn't
/// posted, nor is one whose client was answered `Full` or `Gone`, or found no memory. No order is begun before all threads
/// are started. Where the gate [holds nothing back](Gate::holds_back), all clients call at once in a short play. In a long one of more
/// clients than the queue has places a few give orders at a time: each gives some, and then makes room for another. From four
/// processors on so do fewer clients, if they are more than two beyond the processors.
///
/// # Errors
/// The first that applies, in the order of [`PlayFault`]; never [`PlayFault::Write`], since nothing is written.
pub fn perform<G: Gate, R: Threads + Wait + Sync>(
    rt: &R,
    alloc: Global,
    topology: &Topology,
    script: &Script,
    gate: &G,
) -> Result<Outcome, PlayFault>
    ensures outcome { IfOk result (IsOutcome topology.now script.now) }
    ensures let_through { IfOk result (λ _. MayBeLetThrough (G.may_let_through gate.now) (length script.now)) }
    ensures fault { IfErr result (FaultSays (G.may_give_up gate.now) (G.may_let_through gate.now) script.now) }
    ensures no_write { ¬ IsErrOf result PlayFault.Write }
{
    let Ok(blank) = Pages::open(alloc, topology) else {
        return Err(PlayFault::Open(OpenFault::Memory));
    };
    perform_named::<Brand, G, R>(rt, alloc, blank, topology, script, gate)
}

/// The same, over new pages.
fn perform_named<K: Set + Send + Sync + 'static, G: Gate, R: Threads + Wait + Sync>(
    rt: &R,
    alloc: Global,
    blank: Blank,
    topology: &Topology,
    script: &Script,
    gate: &G,
) -> Result<Outcome, PlayFault>
    requires name { (blank.table ≡ K.table) × (blank.machine ≡ K.machine) }
    requires topology { blank.machine ≡ topology.now }
    ensures outcome { IfOk result (IsOutcome topology.now script.now) }
    ensures let_through { IfOk result (λ _. MayBeLetThrough (G.may_let_through gate.now) (length script.now)) }
    ensures fault { IfErr result (FaultSays (G.may_give_up gate.now) (G.may_let_through gate.now) script.now) }
    ensures no_write { ¬ IsErrOf result PlayFault.Write }
{
    // no list is kept: the journal has all that they have
    let mut lists = Vec::new(alloc);
    match open_and_run::<K, G, R>(rt, alloc, blank, topology, script, gate) {
        Ok((ended, joined)) => match conclude(ended, joined, script, &mut lists) {
            Ok(outcome) => Ok(outcome),
            Err(fault) => Err(fault.of_play()),
        },
        Err(fault) => Err(fault.of_play()),
    }
}

/// Why no thread gave an order.
pub(crate) enum NotBegun {
    /// What is needed found no memory.
    Open(OpenFault),
    /// A thread couldn't be started.
    Start,
}

impl NotBegun {
    fn of_play(self) -> PlayFault
        ensures { result ≡ not_begun_fault self }
    {
        match self {
            NotBegun::Open(fault) => PlayFault::Open(fault),
            NotBegun::Start => PlayFault::Start,
        }
    }
}

/// Why threads that all gave their orders left no outcome.
pub(crate) enum Broken {
    /// This is the first order that was given up.
    GaveUp(usize),
    /// The server or a client ended early, or an order counted as full below the limit.
    Ended,
}

impl Broken {
    fn of_play(self) -> PlayFault
        ensures { result ≡ broken_fault self }
    {
        match self {
            Broken::GaveUp(order) => PlayFault::GaveUp(order),
            Broken::Ended => PlayFault::Ended,
        }
    }
}

/// What comes of what the threads left. `lists` takes in their lists of answered orders, as far as it has room, and gets no more.
fn conclude<K: Set>(
    mut ended: Ended<K>,
    joined: Joined,
    script: &Script,
    lists: &mut Vec<Vec<(Order, Reply)>>,
) -> Result<Outcome, Broken>
    requires own { All (IsOwnPast K.table K.machine ended.served.queue) joined.pasts.items }
    requires answered { joined.gave_up ≡ None → joined.lost ≡ false → AllAnswered script.now joined.pasts.items joined.full_from.items }
    ensures outcome { IfOk result (IsOutcome K.machine script.now) }
    ensures kept { IfOk result (λ _. joined.gave_up ≡ None) }
    ensures broken { IfErr result (IsBrokenBy joined.gave_up) }
    ensures capacity { vec_capacity lists.new ≡ vec_capacity lists.old }
{
    let Joined {
        pasts,
        full_from,
        gave_up,
        lost,
        stopped: _,
    } = joined;
    if let Some(order) = gave_up {
        return Err(Broken::GaveUp(order));
    }
    if lost {
        return Err(Broken::Ended);
    }
    check_pasts(&mut ended, pasts, lists)?;
    let full_from = full_from_table(full_from.as_slice());
    if !may_be_full(script, &full_from, &ended.core) {
        return Err(Broken::Ended);
    }
    let Ended {
        journal,
        core,
        fault: _,
        served: _,
    } = ended;
    Ok(Outcome {
        journal,
        core,
        full_from,
    })
}

/// Checks that the server ended in full, and that its journal is what the clients were answered. It fails only where the server
/// or a client ended early, or a client left no past or two, never since a past differs from the journal.
fn check_pasts<K: Set>(
    ended: &mut Ended<K>,
    pasts: Vec<Past>,
    lists: &mut Vec<Vec<(Order, Reply)>>,
) -> Result<(), Broken>
    requires own { All (IsOwnPast K.table K.machine ended.old.served.queue) pasts.items }
    ensures in_full { IfOk result (λ _. ended.old.fault ≡ None) }
    ensures agrees { IfOk result (λ _. Agree (is_some ended.old.fault) ended.old.served.clients ended.old.journal.items pasts.items) }
    ensures ended { IfErr result (λ fault. (fault ≡ Broken.Ended)
        × ((why : AuditFault) × IsOwnFault (is_some ended.old.fault) ended.old.served.clients pasts.items why)) }
    ensures same { (ended.new.journal ≡ ended.old.journal) × (ended.new.core ≡ ended.old.core) × (ended.new.served.seen ≡ ended.old.served.seen) }
    ensures capacity { vec_capacity lists.new ≡ vec_capacity lists.old }
{
    match audit_own(ended, pasts, lists) {
        Ok(()) => Ok(()),
        Err(_) => Err(Broken::Ended),
    }
}

/// Opens the house, and runs all threads to their ends. All that is needed besides is made before.
fn open_and_run<K: Set + Send + Sync + 'static, G: Gate, R: Threads + Wait + Sync>(
    rt: &R,
    alloc: Global,
    blank: Blank,
    topology: &Topology,
    script: &Script,
    gate: &G,
) -> Result<(Ended<K>, Joined), NotBegun>
    requires name { (blank.table ≡ K.table) × (blank.machine ≡ K.machine) }
    requires topology { blank.machine ≡ topology.now }
    ensures runs { RunsAll (G.may_give_up gate.now) (G.may_let_through gate.now) script.now result }
    ensures own { IfOk result (λ r. All (IsOwnPast K.table K.machine r.0.served.queue) r.1.pasts.items) }
{
    let Ok((ids, joined, handles)) = make_room::<G, K>(alloc, script) else {
        return Err(NotBegun::Open(OpenFault::Memory));
    };
    let Ok(own) = OwnOrders::of(alloc, script) else {
        return Err(NotBegun::Open(OpenFault::Memory));
    };
    match House::open::<K>(rt, alloc, blank, topology, ids.as_slice()) {
        Ok((server, clients)) => {
            run_all(rt, server, clients, joined, handles, script, &own, gate)
        }
        Err(fault) => Err(NotBegun::Open(fault)),
    }
}

/// What the threads need: who is to be opened, and room for what they leave and for their handles.
type Room<'a, G, K> = (
    Vec<ClientId>,
    Joined,
    Vec<PromisedHandle<Walk, Walks<'a, G, K>>>,
);

/// Makes that room.
fn make_room<'a, G: Gate, K: Set>(
    alloc: Global,
    script: &Script,
) -> Result<Room<'a, G, K>, AllocError>
    ensures clients { IfOk result (λ room. room.0.items ≡ clients_in script.now) }
    ensures apart { IfOk result (λ room. AllApart room.0.items) }
    ensures none { IfOk result (λ room. (room.1.pasts.items ≡ []) × (room.1.full_from.items ≡ []) × (room.1.gave_up ≡ None) × (room.2.items ≡ [])) }
    ensures room { IfOk result (λ room. (length room.0.items ≤ vec_capacity room.1.pasts) × (length room.0.items ≤ vec_capacity room.1.full_from)
        × (length room.0.items ≤ vec_capacity room.2)) }
{
    let ids = clients_of(alloc, script)?;
    let joined = Joined {
        pasts: Vec::with_capacity(alloc, ids.len())?,
        full_from: Vec::with_capacity(alloc, ids.len())?,
        gave_up: None,
        lost: false,
        stopped: false,
    };
    let handles = Vec::with_capacity(alloc, ids.len())?;
    Ok((ids, joined, handles))
}

/// The clients that the script names, each once, in the order of their first orders.
fn clients_of(alloc: Global, script: &Script) -> Result<Vec<ClientId>, AllocError>
    ensures clients { IfOk result (λ ids. ids.items ≡ clients_in script.now) }
    ensures apart { IfOk result (λ ids. AllApart ids.items) }
{
    let mut ids = Vec::new(alloc);
    let mut named = [false; CLIENTS];
    for index in 0..script.len() {
        let client = script.client(index);
        if named[client.index()] {
            continue;
        }
        named[client.index()] = true;
        ids.push(client)?;
    }
    Ok(ids)
}

/// Starts all threads, the server's last, and joins them.
fn run_all<'a, K: Set + Send + Sync + 'static, G: Gate, R: Threads + Wait + Sync>(
    rt: &R,
    server: Server<K>,
    clients: Vec<Client<K>>,
    joined: Joined,
    mut handles: Vec<PromisedHandle<Walk, Walks<'a, G, K>>>,
    script: &'a Script,
    own: &'a OwnOrders,
    gate: &'a G,
) -> Result<(Ended<K>, Joined), NotBegun>
    requires index { IsIndexOf script.now own.now }
    requires fresh { All (IsFresh server.queue) clients.items }
    requires named { map (λ client. client.id) clients.items ≡ clients_in script.now }
    requires none { (joined.pasts.items ≡ []) × (joined.full_from.items ≡ []) × (joined.gave_up ≡ None) × (handles.items ≡ []) }
    ensures runs { RunsAll (G.may_give_up gate.now) (G.may_let_through gate.now) script.now result }
    ensures own { IfOk result (λ r. All (IsOwnPast K.table K.machine r.0.served.queue) r.1.pasts.items) }
{
    let start = Start::new();
    let sign = &start;
    let floor = if gate.holds_back() {
        None
    } else {
        Floor::of(rt, clients.len(), script.len())
    };
    let floor = floor.as_ref();
    thread::scope(
        thread::scope_env(),
        rt,
        move |scope| -> Result<(Ended<K>, Joined), NotBegun>
            requires index { IsIndexOf script.now own.now }
            requires fresh { All (IsFresh server.queue) clients.items }
            requires named { map (λ client. client.id) clients.items ≡ clients_in script.now }
            requires none { (joined.pasts.items ≡ []) × (joined.full_from.items ≡ []) × (joined.gave_up ≡ None) × (handles.items ≡ []) }
            ensures runs { RunsAll (G.may_give_up gate.entry.now) (G.may_let_through gate.entry.now) script.entry.now result }
            ensures own { IfOk result (λ r. All (IsOwnPast K.table K.machine r.0.served.queue) r.1.pasts.items) }
        {
            let mut all = true;
            for client in clients {
                let id = client.id();
                let started = scope.spawn_with(
                    Walks(script, gate, id, Snapshot::of(&client)),
                    move || -> Walk
                        requires fresh { (client.out ≡ []) × (client.mine ≡ []) }
                        requires index { IsIndexOf script.now own.now }
                        ensures walked { Walked (G.may_give_up gate.entry.now) (G.may_let_through gate.entry.now) script.entry.now client.id result }
                        ensures own { IsOwnPast K.table K.machine client.queue result.past }
                    { walk_script(rt, sign, gate, client, script, own, floor) },
                );
                all &= keep(&mut handles, started.ok());
            }
            if !all {
                // clients that close see that the server has ended
                drop(server);
                sign.stop(rt);
                return Err(NotBegun::Start);
            }
            let serving = scope.spawn_with(
                LeavesEnded(Snapshot::of(&server)),
                move || -> Ended<K>
                    ensures queue { result.served.queue ≡ server.queue }
                    ensures clients { result.served.clients ≡ server.clients }
                { server.serve(rt) },
            );
            match serving {
                Ok(serving) => {
                    sign.go(
                        rt,
                        AllThere::from_handles(script, handles.as_slice(), &serving),
                    );
                    let joined = join_all(rt, handles, joined, script, gate);
                    let ended = serving.join(rt);
                    // all threads were told to go, so none was stopped: this is what the contracts know of that
                    if joined.stopped {
                        return Err(NotBegun::Start);
                    }
                    Ok((ended, joined))
                }
                Err(refused) => {
                    drop(refused);
                    sign.stop(rt);
                    Err(NotBegun::Start)
                }
            }
        },
    )
}

/// Keeps one more thread of the script. It answers whether there is one.
fn keep<'a, G: Gate, K: Set>(
    handles: &mut Vec<PromisedHandle<Walk, Walks<'a, G, K>>>,
    handle: Option<PromisedHandle<Walk, Walks<'a, G, K>>>,
) -> bool
    ensures one_more { IsTrue result → MatchOption handle.entry ⊥ (λ h. handles.new.items ≡ handles.old.items ++ h ∷ []) }
    ensures same { (script : List ClientOrder) (gate : G) (queue : QueueId)
        → All (λ h. (h.promise.0.now ≡ script) × (h.promise.1.now ≡ gate) × (h.promise.3.value.queue ≡ queue)) handles.old.items
        → IfSome handle.entry (λ h. (h.promise.0.now ≡ script) × (h.promise.1.now ≡ gate) × (h.promise.3.value.queue ≡ queue))
        → All (λ h. (h.promise.0.now ≡ script) × (h.promise.1.now ≡ gate) × (h.promise.3.value.queue ≡ queue)) handles.new.items }
{
    match handle {
        Some(handle) => handles.push(handle).is_ok(),
        None => false,
    }
}
