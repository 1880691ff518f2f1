//! The texts on the command line.

use crate::times::RUNS;
use anyhow::Result;
use bench_parts::{MOST, USUAL};

/// Prints the help text.
pub fn print_help(rt: &impl Print) -> Result<()> {
    println!(rt;
        "\
Measures how long the arbiter takes and what it costs to wait, and writes inputs for other measures.

The orders are a fixed mixed sequence, for which 16 applications with 32 threads each contend.

Usage: bench PART

  step [--time] [ORDERS]  gives orders to the arbiter, and posts what each changes: on a machine with 64 managed cores
                          on 8 sockets, then on one with 128, on one socket with 64, and on 8 sockets of one core
  feed [--time]           the same with the orders of a script, which it reads from standard input
  grow [--time]           gives orders of three kinds to the arbiter, as the machine grows from 1 core to 128, the
                          waiting threads from none to 480, and the applications from 1 to 16
  page [--time]           reads the page word of a thread: alone, with other readers, and with a writer that stores;
                          beside it, loads the same word of a table without a rule
  call [--time]           gives orders through the service: one client, each after the reply before, beside two threads
                          that hand a word to and fro; then one client and three, with eight orders open each
  wait [--time]           waits: for a core, for a server that sleeps, for room in the queue, and for an end; and lets a
                          service do nothing
  check                   step, grow and wait, one after the other
  gen SEED N              writes a script of N orders, 0 to {MOST}, whose mixture is that of the sequence
  config                  writes the configuration of the machine with 64 cores

  ORDERS                  how many orders, 0 to {MOST}; {USUAL} if left out
  --time                  prints times in place of what was done
  -h, --help              prints this text

Without --time a part prints what it did, which is the same wherever the program runs. With --time it does its work
{RUNS} times, and prints the least time and the median, or of orders a second the most and the median, each as a line: a
name, a number and a unit. Of waits it prints the median and the 99th percentile; that takes some twenty seconds.

Example:
  $ bench gen 1 {MOST} > mixed.script
  $ bench feed --time < mixed.script"
    )?;
    Ok(())
}

/// Prints how the program is called on standard error.
pub fn print_usage(rt: &impl Eprint) -> Result<()> {
    eprintln!(rt;
        "usage: bench step [--time] [ORDERS], feed|grow|page|call|wait [--time], check, gen SEED N, or config; --help says more"
    )?;
    Ok(())
}
