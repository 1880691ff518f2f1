//! What it costs to wait for the floor: next to nothing, since who waits for it sleeps.

use crate::tests::crowd::{CLIENTS, CROWD, FIRST_ORDERS, PLACES};
use crate::tests::setting::{millis_used, report_of};
use arb_config::Topology;
use arb_play::Gate;
use std::process::Abort;
use std::rt::{Clock, Files};
use std::sync::Wait;
use std::sync::atomic::{AtomicU64, AtomicUsize, Ordering};
use std::test::Fail;
use std::thread::Threads;
use std::time::{Duration, Instant};
use test_parts::TWO_SOCKETS;

/// How often those on the floor sleep for their first order there, and for how long, in milliseconds: 2.5 s in all. A sleep in a wait
/// lasts a second at most, so who waits for them sleeps several times.
const NAPS: usize = 25;

const NAP: u64 = 100;

/// How much more processor time a play with these sleeps uses than one without, at most, in milliseconds. If those that wait for a
/// place look on instead, they use a processor all the time.
const MOST_MILLIS_MORE: u64 = 1_000;

/// Lets the first orders on the floor take long: each sleeps so often.
#[derive(Drop)]
struct LongGate {
    naps: usize,
    came: AtomicUsize,
    woken: AtomicU64,
}

impl Gate for LongGate {
    ghost use Rattle.std.specs.Prelude.{⊤};

    ghost may_give_up = { λ _ _. ⊥ };

    ghost may_let_through = { λ _ _. ⊤ };

    fn before<R: Wait>(&self, rt: &R, order: usize) -> bool {
        if order / CLIENTS == FIRST_ORDERS && self.came.fetch_add(1, Ordering::SeqCst) < PLACES {
            for _ in 0..self.naps {
                self.woken.park_timeout(rt, 0, Duration::from_millis(NAP));
            }
        }
        true
    }

    fn after<R: Wait>(&self, _rt: &R, _order: usize) {}

    fn holds_back(&self) -> bool {
        false
    }
}

/// A crowd plays, and its first orders on the floor sleep so often. Gives the processor time of that, in milliseconds.
fn millis_of_a_crowd<R: Threads + Wait + Clock + Files + Abort + AllocGlobal + Sync>(
    rt: &R,
    naps: usize,
) -> Result<u64, Fail> {
    let topology = Topology::from_text(rt.alloc(), TWO_SOCKETS)?;
    let script = CROWD.script(rt.alloc())?;
    let gate = LongGate {
        naps,
        came: AtomicUsize::new(0),
        woken: AtomicU64::new(0),
    };
    let (began, before) = (Instant::now(rt)?, millis_used(rt)?);
    let _report = report_of(rt, &topology, script.as_str(), &gate)?;
    let (took, after) = (began.elapsed(rt)?, millis_used(rt)?);
    assert!(rt; took >= Duration::from_millis(NAP.saturating_mul(naps as u64)));
    Ok(after.saturating_sub(before))
}

/// Who waits for the floor uses next to no processor time.
#[test]
fn who_waits_for_the_floor_sleeps(rt: HostRuntime) -> Result<(), Fail> {
    let at_once = millis_of_a_crowd(&rt, 0)?;
    let millis = millis_of_a_crowd(&rt, NAPS)?;
    let more = millis.saturating_sub(at_once);
    assert!(rt;
        more < MOST_MILLIS_MORE,
        "they used {millis} ms, and without sleeps {at_once}"
    );
    Ok(())
}
