//! Orders given to the arbiter on one thread, with their posts, and what a runtime reads between them.

ghost use Rattle.std.specs.Prelude.{◌≡◌, ◌<◌, None, sum};
ghost use Rattle.arb_model.specs.Posting.{next_stale_of};

use crate::digest::{Number, place_number, reply_number};
use crate::machines::Machine;
use crate::mix::{Given, Mix};
use anyhow::Result;
use arb_core::layout::WORDS;
use arb_core::{APPLICATIONS, Core};
use std::alloc::Global;

/// How the words are posted that an order left stale.
#[derive(Clone, Copy, PartialEq, Eq)]
pub enum Posting {
    /// One after another, each by a call.
    EachByCall,
    /// All by one call, which hands on each.
    AllByCall,
    /// Nobody reads them.
    Unread,
}

/// How they are posted in a round.
pub fn posting_of(round: u64) -> Posting {
    match round % 3 {
        0 => Posting::AllByCall,
        1 => Posting::EachByCall,
        _ => Posting::Unread,
    }
}

/// Posts all stale words.
fn post(core: &mut Core, posting: Posting, digest: &mut Number)
    ensures { next_stale_of core.new.standing core.new.posted ≡ None }
{
    match posting {
        Posting::EachByCall => post_each(core, digest),
        Posting::AllByCall => core.post_all(&mut |w, value| digest.add(value.wrapping_add(
            w as u64,
        ))),
        Posting::Unread => core.settle(),
    }
}

/// Posts the stale words one after another.
fn post_each(core: &mut Core, digest: &mut Number)
    ensures { next_stale_of core.new.standing core.new.posted ≡ None }
{
    while let Some(w) = core.next_stale() {
        let value = core.word(w);
        core.post(w);
        digest.add(value.wrapping_add(w as u64));
    }
}

/// Reads what a runtime reads between two orders: where a thread is, who has a core, what an application is due, or a word.
fn read(core: &Core, given: &Given, choice: u64) -> u64 {
    let number = (choice / 4) as usize;
    match choice % 4 {
        0 => place_number(core.place(given.0)),
        1 => core
            .owner((number % 128) as u16)
            .map_or(0, |thread| thread.index() as u64),
        2 => u64::from(core.due((number % APPLICATIONS) as u8)),
        _ => core.word(number % WORDS),
    }
}

/// Gives an order, posts what it left stale, and reads.
fn give(core: &mut Core, given: &Given, posting: Posting, choice: u64, digest: &mut Number)
    requires room { sum core.old.standing.counts < core.old.machine.orders }
    requires settled { next_stale_of core.old.standing core.old.posted ≡ None }
    ensures { next_stale_of core.new.standing core.new.posted ≡ None }
{
    let (client, order) = *given;
    let reply = core.step(client, &order);
    digest.add(reply_number(&reply));
    post(core, posting, digest);
    digest.add(read(core, given, choice));
}

/// Gives so many orders of a mixture to a new arbiter of a machine. Gives a digest of the replies, posts and readings.
pub fn step(
    alloc: Global,
    machine: &Machine,
    mut mix: Mix,
    orders: u64,
    posting: Posting,
) -> Result<u64> {
    let mut core = Core::new(&machine.topology(alloc)?);
    let mut digest = Number::default();
    let mut choice = 0u64;
    for _ in 0..orders {
        if core.is_full() {
            break;
        }
        let given = mix.next_order();
        choice = choice.wrapping_mul(5).wrapping_add(12_345) % 65_536;
        give(&mut core, &given, posting, choice, &mut digest);
    }
    Ok(digest.value)
}
