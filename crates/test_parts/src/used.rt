//! What a thread used so far, as Linux tells it.

use std::fs;
use std::rt::Files;

/// What a thread used.
#[derive(Clone, Copy)]
pub struct Used {
    /// Its processor time, in milliseconds. It is told in steps of ten.
    pub millis: u64,
    /// How often it slept: it gave its processor back by itself.
    pub sleeps: u64,
    /// How often another thread had its processor meanwhile, also after a yield.
    pub breaks: u64,
}

impl Used {
    /// What was used since an earlier moment.
    pub fn since(&self, earlier: &Used) -> Used {
        Used {
            millis: self.millis.saturating_sub(earlier.millis),
            sleeps: self.sleeps.saturating_sub(earlier.sleeps),
            breaks: self.breaks.saturating_sub(earlier.breaks),
        }
    }
}

/// What this thread used so far, or `None` where Linux doesn't tell.
pub fn used_so_far<R: Files + AllocGlobal>(rt: &R) -> Option<Used> {
    let stat = fs::read_to_string(rt, "/proc/thread-self/stat").ok()?;
    let (_, rest) = stat.rsplit_once(')')?;
    let mut ticks: u64 = 0;
    for field in rest.split_ascii_whitespace().skip(11).take(2) {
        ticks = ticks.saturating_add(field.parse::<u64>().ok()?);
    }
    let status = fs::read_to_string(rt, "/proc/thread-self/status").ok()?;
    let (_, rest) = status.split_once("\nvoluntary_ctxt_switches:")?;
    let mut words = rest.split_ascii_whitespace();
    let sleeps = words.next()?.parse::<u64>().ok()?;
    let _name = words.next()?;
    let breaks = words.next()?.parse::<u64>().ok()?;
    Some(Used {
        millis: ticks.saturating_mul(10),
        sleeps,
        breaks,
    })
}
