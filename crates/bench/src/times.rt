//! The lines that say times.

use anyhow::{Context, Result, ensure};
use bench_parts::Nanos;
use std::time::Duration;

/// How often work is timed: an odd number, so that one time is in the middle.
pub const RUNS: usize = 9;

/// The time that so many of a hundred don't exceed, of times of which the least comes first.
fn time_at(times: &[Duration], percent: usize) -> Result<Duration> {
    let last = times.len().saturating_sub(1);
    let time = times.get(last.saturating_mul(percent) / 100);
    Ok(*time.context("no time")?)
}

/// Prints the least and the median of what each of so many pieces of work took, each as a line: a name, a number and a unit.
pub fn print_times(
    rt: &impl Print,
    name: &str,
    mut times: Vec<Duration>,
    pieces: u64,
    unit: &str,
) -> Result<()> {
    times.sort_unstable();
    let least = Nanos::each(time_at(times.as_slice(), 0)?, pieces);
    let median = Nanos::each(time_at(times.as_slice(), 50)?, pieces);
    println!(rt; "{name}.min {least} {unit}\n{name}.median {median} {unit}")?;
    Ok(())
}

/// Prints the most and the median of how many orders fill a second, each as a line.
pub fn print_rates(
    rt: &impl Print,
    name: &str,
    mut times: Vec<Duration>,
    orders: u64,
) -> Result<()> {
    times.sort_unstable();
    let most = Nanos::each(time_at(times.as_slice(), 0)?, orders).per_second();
    let median = Nanos::each(time_at(times.as_slice(), 50)?, orders).per_second();
    println!(rt; "{name}.max {most} orders/s\n{name}.median {median} orders/s")?;
    Ok(())
}

/// Prints how many pieces of work there were in all runs, so many in each, as a line.
pub fn print_count(rt: &impl Print, name: &str, pieces: u64, counted: &str) -> Result<()> {
    let count = pieces.saturating_mul(RUNS as u64);
    println!(rt; "{name}: {count} {counted}")?;
    Ok(())
}

/// Prints how many pieces of work there were, so many in each run, or how long one took.
pub fn print_pieces(
    rt: &impl Print,
    name: &str,
    times: Vec<Duration>,
    pieces: u64,
    counted: &str,
    timed: bool,
) -> Result<()> {
    if timed {
        return print_times(rt, name, times, pieces, "ns");
    }
    print_count(rt, name, pieces, counted)
}

/// Prints the median and the 99th percentile of some times, each as a line.
pub fn print_waits(rt: &impl Print, name: &str, mut times: Vec<Duration>) -> Result<()> {
    times.sort_unstable();
    let median = time_at(times.as_slice(), 50)?.as_nanos();
    let high = time_at(times.as_slice(), 99)?.as_nanos();
    println!(rt; "{name}.median {median} ns\n{name}.percentile_99 {high} ns")?;
    Ok(())
}

/// Refuses the times of who slept to the limit, a second, since nothing woke it.
pub fn ensure_woken(times: &[Duration]) -> Result<()> {
    let mut sum = Duration::ZERO;
    for time in times {
        sum = sum.saturating_add(*time);
    }
    let count = u32::try_from(times.len()).unwrap_or(u32::MAX);
    let most = Duration::from_millis(500).saturating_mul(count);
    ensure!(sum < most, "who slept was not woken");
    Ok(())
}
