//! The `bench_jobs` program: the jobs that users wait for, on inputs made at random from a seed, with a digest of all results.
//!
//! It prints no times: `bench/run` times it, in two builds by turns.
#![tactic(auto)]

mod dice;
mod digest;
mod jobs;
mod machines;
mod mix;
mod playing;
mod scripts;
mod serving;
mod stepping;
mod texts;

use anyhow::Result;
use digest::Number;
use jobs::Round;
use std::env;
use std::process::ExitCode;
use std::sync::Wait;
use std::thread::Threads;

/// The names of the jobs.
const JOBS: [&str; 6] = ["orders", "scripts", "plays", "calls", "live", "awkward"];

/// What the command line asks for.
#[derive(Clone, Copy)]
struct Task<'a> {
    /// The name of the job, or `all`.
    job: &'a str,
    seed: u64,
    rounds: u64,
    orders: u64,
}

/// What the words of a command line ask for. The program's own name comes first.
fn parse<'a>(words: &'a [String]) -> Option<Task<'a>> {
    let [_, job, seed, rounds, orders] = words else {
        return None;
    };
    Some(Task {
        job: job.as_str(),
        seed: seed.as_str().parse::<u64>().ok()?,
        rounds: rounds.as_str().parse::<u64>().ok()?,
        orders: orders.as_str().parse::<u64>().ok()?,
    })
}

/// Does one round of a job. Gives a digest of its results.
fn do_round<R: Threads + Wait + AllocGlobal + Sync>(
    rt: &R,
    job: &str,
    round: &Round,
) -> Result<u64> {
    match job {
        "orders" => jobs::orders(rt.alloc(), round),
        "scripts" => jobs::scripts(rt.alloc(), round),
        "plays" => jobs::plays(rt, round),
        "calls" => jobs::calls(rt, round),
        "live" => jobs::live(rt.alloc(), round),
        _ => jobs::awkward(rt.alloc(), round),
    }
}

/// Does all rounds of a job, and prints a digest of all results.
fn do_job<R: Threads + Wait + AllocGlobal + Print + Sync>(
    rt: &R,
    job: &str,
    task: &Task,
) -> Result<()> {
    let mut digest = Number::default();
    for number in 0..task.rounds {
        let round = Round {
            seed: task.seed,
            number,
            orders: task.orders,
        };
        digest.add(do_round(rt, job, &round)?);
    }
    let value = digest.value;
    println!(rt; "{job}: {value:016x}")?;
    Ok(())
}

/// Ends with status 0 where all was done, with 2 where the command line is refused, and with 1 where memory or a stream failed.
fn main(rt: HostRuntime) -> Result<ExitCode> {
    let words: Vec<String> = env::args(&rt)?.collect(rt.alloc())?;
    let Some(task) = parse(words.as_slice()) else {
        eprintln!(rt;
            "usage: bench_jobs JOB SEED ROUNDS ORDERS, where JOB is orders, scripts, plays, calls, live, awkward or all"
        )?;
        return Ok(ExitCode::from(2));
    };
    for job in JOBS {
        if task.job == job || task.job == "all" {
            do_job(&rt, job, &task)?;
        }
    }
    Ok(ExitCode::SUCCESS)
}
