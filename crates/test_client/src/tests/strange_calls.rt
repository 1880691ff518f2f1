//! Calls, and waits for a core, that are answered with a stranger's entry.

ghost use Rattle.std.specs.Prelude.{◌≡◌, [], true};
ghost use Rattle.std.specs.Arc.{arc_value};
ghost use Rattle.crossbeam_queue.specs.Passes.{IsPassOf, view};

use crate::tests::same::same;
use crate::tests::stand_in::{Given, StandIn, beside, enter_all, parts, send, stand_in};
use crate::tests::woken::next_body;
use arb_config::Topology;
use arb_house::CollectFault::Stranger;
use arb_house::{CallFault, Client, WaitFault};
use arb_model::{ClientId, Order, Reply};
use arb_page::{Blank, Pages, Set};
use std::alloc::{AllocError, Global};
use std::marker::Brand;
use std::process::Abort;
use std::sync::Wait;
use std::test::*;
use std::thread::Threads;
use test_parts::{Gives, TWO_SOCKETS};

/// Client 0.0 joins.
const JOINS: Given = ((0, 0), Gives::Join);

/// Another client joins.
const OTHER: Given = ((1, 0), Gives::Join);

/// The fault of a call, or of a wait for a core, that is answered with a stranger's entry.
const FAULT: Option<WaitFault> = Some(WaitFault::Call(CallFault::Collect(Stranger)));

/// A client that calls or waits for a core, and is sent another client's answer, is told of a stranger, and not of the end: also
/// where it was answered before.
#[test]
fn calls_and_waits_meet_strangers(rt: HostRuntime) -> Result<(), Fail> {
    for (waits, answered) in [(false, false), (true, false), (false, true), (true, true)] {
        let topology = Topology::from_text(rt.alloc(), TWO_SOCKETS)?;
        let blank = Pages::open(rt.alloc(), &topology).ok().ok_or("memory")?;
        let fault = fault_at_once::<Brand, _>(&rt, rt.alloc(), &topology, blank, waits, answered)?;
        same(&rt, "fault", fault, FAULT);
    }
    Ok(())
}

/// The answer is there before the client calls or waits. Gives the fault.
fn fault_at_once<K: Set, R: Wait + Abort>(
    rt: &R,
    alloc: Global,
    topology: &Topology,
    blank: Blank,
    waits: bool,
    answered: bool,
) -> Result<Option<WaitFault>, AllocError>
    requires name { (blank.table ≡ K.table) × (blank.machine ≡ K.machine) }
    requires topology { blank.machine ≡ topology.now }
{
    let (stand_in, mut client) = stand_in(alloc, topology, parts::<K>(alloc, topology, blank)?)?;
    let (desk, _server, mut recorder, mut answers, mut to) = stand_in;
    if answered {
        same(rt, "post", client.post(rt, Order::Join), Ok(()));
        enter_all(rt, &mut recorder, &desk.pages, &[JOINS], &mut answers);
        send(rt, &mut to, &mut answers, 0);
        same(rt, "collect", client.collect(rt), Ok(Reply::Joined));
    }
    enter_all(rt, &mut recorder, &desk.pages, &[OTHER], &mut answers);
    send(rt, &mut to, &mut answers, 0);
    assert!(rt; client.out() == 0);
    Ok(call_and_close(rt, client, waits))
}

/// So it is where the server ends while the client waits for its answer.
#[test]
fn calls_and_waits_meet_strangers_at_the_end(rt: HostRuntime) -> Result<(), Fail> {
    for waits in [false, true] {
        let topology = Topology::from_text(rt.alloc(), TWO_SOCKETS)?;
        let blank = Pages::open(rt.alloc(), &topology).ok().ok_or("memory")?;
        let fault = fault_at_the_end::<Brand, _>(&rt, rt.alloc(), &topology, blank, waits)?;
        same(&rt, "fault", fault, FAULT);
    }
    Ok(())
}

/// The client calls or waits on this thread, and what stands in for its server answers on another one. Gives the fault.
fn fault_at_the_end<K: Set + Send + Sync, R: Threads + Wait + Abort + Sync>(
    rt: &R,
    alloc: Global,
    topology: &Topology,
    blank: Blank,
    waits: bool,
) -> Result<Option<WaitFault>, AllocError>
    requires name { (blank.table ≡ K.table) × (blank.machine ≡ K.machine) }
    requires topology { blank.machine ≡ topology.now }
{
    let (stand_in, client) = stand_in(alloc, topology, parts::<K>(alloc, topology, blank)?)?;
    let fault = beside(
        rt,
        move || -> ()
            requires queue { IsPassOf (arc_value stand_in.0).orders stand_in.1 }
            requires server { (view stand_in.1).is_server ≡ true }
        { end_and_answer(rt, stand_in) },
        move || call_and_close(rt, client, waits),
    );
    Ok(fault.flatten())
}

/// The client calls or waits, and closes. Gives the fault.
fn call_and_close<K: Set, R: Wait + Abort>(
    rt: &R,
    mut client: Client<K>,
    waits: bool,
) -> Option<WaitFault>
    requires { client.out ≡ [] }
{
    let fault = if waits {
        client.wait_for_core(rt).err()
    } else {
        client.call(rt, Order::Join).err().map(WaitFault::Call)
    };
    let past = client.close(rt);
    same(rt, "whole", past.whole, false);
    fault
}

/// Once the client has posted, the server ends, and then sends it another client's answer.
fn end_and_answer<K: Set, R: Wait + Abort>(rt: &R, stand_in: StandIn<K>)
    requires queue { IsPassOf (arc_value stand_in.0).orders stand_in.1 }
    requires server { (view stand_in.1).is_server ≡ true }
{
    let (desk, mut server, mut recorder, mut answers, mut to) = stand_in;
    enter_all(rt, &mut recorder, &desk.pages, &[OTHER], &mut answers);
    let _order = next_body(rt, &desk, &mut server, ClientId::of_thread(0));
    desk.end();
    send(rt, &mut to, &mut answers, 0);
}
