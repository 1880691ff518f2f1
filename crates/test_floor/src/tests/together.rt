//! How long plays of many clients go forward: all together.

use crate::tests::crowd::{CLIENTS, Crowd, FEW, OWN_ORDERS, client_of, places_of_a_few};
use crate::tests::setting::report_of;
use arb_config::Topology;
use arb_play::FreeGate;
use std::process::Abort;
use std::sync::Wait;
use std::test::Fail;
use std::thread::Threads;
use test_parts::TWO_SOCKETS;

/// With so many entries a client has begun, and with so many it is far ahead: more than it gives in a few turns.
const BEGUN: usize = 8;

const AHEAD: usize = OWN_ORDERS / 4 * 3;

/// How many entries of a journal each client has, as it is read.
#[derive(Drop)]
struct Progress {
    entries: [usize; CLIENTS],
    /// How many clients have begun, and how many are far ahead.
    begun: usize,
    ahead: usize,
    /// How many clients have half of their entries, and how many have all.
    half: usize,
    ended: usize,
}

impl Progress {
    /// One entry more, of a client.
    fn enter(&mut self, client: usize) {
        let Some(count) = self.entries.get_mut(client) else {
            return;
        };
        *count = count.wrapping_add(1);
        if *count == BEGUN {
            self.begun = self.begun.wrapping_add(1);
        }
        if *count == AHEAD {
            self.ahead = self.ahead.wrapping_add(1);
        }
        if *count == OWN_ORDERS / 2 {
            self.half = self.half.wrapping_add(1);
        }
        if *count == OWN_ORDERS {
            self.ended = self.ended.wrapping_add(1);
        }
    }
}

/// Whether each of so many clients has begun before any is far ahead, and has half of its entries before any has its last one.
fn go_together(report: &str, clients: usize) -> Result<bool, Fail> {
    let mut progress = Progress {
        entries: [0; CLIENTS],
        begun: 0,
        ahead: 0,
        half: 0,
        ended: 0,
    };
    for line in report.lines() {
        if line.contains(" -> ") {
            progress.enter(client_of(line)?);
        }
        if progress.ahead > 0 && progress.begun < clients {
            return Ok(false);
        }
        if progress.ended > 0 {
            break;
        }
    }
    Ok(progress.half == clients)
}

/// So many clients play until all went forward together, which is so in most plays: a hundred times at most.
fn forward_together<R: Threads + Wait + Abort + AllocGlobal + Sync>(
    rt: &R,
    clients: usize,
) -> Result<(), Fail> {
    let topology = Topology::from_text(rt.alloc(), TWO_SOCKETS)?;
    let crowd = Crowd {
        clients,
        orders: OWN_ORDERS,
    };
    let script = crowd.script(rt.alloc())?;
    let mut seen = false;
    for _ in 0..100 {
        let report = report_of(rt, &topology, script.as_str(), &FreeGate)?;
        let report = String::from_utf8(report)?;
        seen = go_together(report.as_str(), clients)?;
        if seen {
            break;
        }
    }
    assert!(rt;
        seen,
        "clients were far ahead or ended before others had begun or were half done"
    );
    Ok(())
}

/// Places change hands in turn. A client that kept its place to its end would end before others came to it. One that kept it for fifty
/// orders would be far ahead.
#[test]
fn all_clients_go_forward_together(rt: HostRuntime) -> Result<(), Fail> {
    forward_together(&rt, CLIENTS)
}

/// So do those of fewer clients, where these have a floor too.
#[test]
fn fewer_clients_go_forward_together(rt: HostRuntime) -> Result<(), Fail> {
    match places_of_a_few(&rt)? {
        Some(places) if places < FEW => forward_together(&rt, FEW),
        _ => Ok(()),
    }
}
