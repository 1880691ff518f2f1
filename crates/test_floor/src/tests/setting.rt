//! Plays that come to their end, and what they use.

use arb_config::Topology;
use arb_play::{Gate, play};
use arb_script::Script;
use arb_share::Watched;
use std::fs;
use std::process::Abort;
use std::rt::Files;
use std::sync::Wait;
use std::test::Fail;
use std::thread::Threads;

/// Plays a script to its end. Gives the report.
pub fn report_of<G: Gate, R: Threads + Wait + Abort + AllocGlobal + Sync>(
    rt: &R,
    topology: &Topology,
    script: &str,
    gate: &G,
) -> Result<Vec<u8>, Fail> {
    let mut sink = Watched::new(Vec::new(rt.alloc()));
    let script = Script::from_text(rt.alloc(), script)?;
    let answer = play(rt, rt.alloc(), topology, &script, gate, &mut sink);
    assert_eq!(rt; answer, Ok(()));
    Ok(sink.inner)
}

/// Lets all go at once, but doesn't say so: a play with it has no floor, and all its clients call at once.
pub struct OpenGate;

impl Gate for OpenGate {
    ghost use Rattle.std.specs.Prelude.{⊤};

    ghost may_give_up = { λ _ _. ⊥ };

    ghost may_let_through = { λ _ _. ⊤ };

    fn before<R: Wait>(&self, _rt: &R, _order: usize) -> bool {
        true
    }

    fn after<R: Wait>(&self, _rt: &R, _order: usize) {}
}

/// The processor time of all threads of this process so far, in milliseconds, or `None` where Linux doesn't tell.
fn used_by_all<R: Files + AllocGlobal>(rt: &R) -> Option<u64> {
    let stat = fs::read_to_string(rt, "/proc/self/stat").ok()?;
    let (_, rest) = stat.rsplit_once(')')?;
    let mut fields = rest.split_ascii_whitespace().skip(11);
    let user = fields.next()?.parse::<u64>().ok()?;
    let kernel = fields.next()?.parse::<u64>().ok()?;
    Some(user.saturating_add(kernel).saturating_mul(10))
}

/// The same, where Linux has to tell.
pub fn millis_used<R: Files + AllocGlobal>(rt: &R) -> Result<u64, Fail> {
    Ok(used_by_all(rt).ok_or("Linux does not tell what a process used")?)
}
