//! The jobs: rounds of them, each on input of its own.

use crate::dice::Dice;
use crate::digest::Number;
use crate::machines::{HASTY, NARROW, SHORT, WIDE, commented, of_round};
use crate::mix::{Crowd, EVERYBODY, Kind, Mix};
use crate::playing::{play_freely, play_in_turn};
use crate::serving::{Habit, Setting, serve};
use crate::stepping::{Posting, posting_of, step};
use crate::{scripts, texts};
use anyhow::Result;
use arb_draw::Scale;
use std::alloc::Global;
use std::sync::Wait;
use std::thread::Threads;

/// A round of a job: its seed, its number, and how many orders its inputs have.
#[derive(Clone, Copy)]
pub struct Round {
    pub seed: u64,
    pub number: u64,
    pub orders: u64,
}

impl Round {
    /// The numbers of one part of it.
    fn dice(&self, part: u64) -> Dice {
        Dice::new(self.seed, self.number, part)
    }

    /// A mixture for one part of it.
    fn mix(&self, part: u64, kind: Kind, crowd: Crowd) -> Mix {
        Mix::new(self.dice(part), kind, crowd)
    }
}

/// A runtime orders, on its own thread.
pub fn orders(alloc: Global, round: &Round) -> Result<u64> {
    let mix = round.mix(0, Kind::Usual, EVERYBODY);
    step(
        alloc,
        &of_round(round.number),
        mix,
        round.orders,
        posting_of(round.number),
    )
}

/// A script is run, and the picture of its last orders is drawn.
pub fn scripts(alloc: Global, round: &Round) -> Result<u64> {
    let topology = of_round(round.number).topology(alloc)?;
    let text = texts::plain(alloc, round.mix(0, Kind::Usual, EVERYBODY), round.orders)?;
    let mut digest = Number::default();
    digest.add(scripts::run(alloc, &topology, text.as_str())?);
    digest.add(scripts::draw(alloc, &topology, text.as_str(), round.orders, Scale::Orders)?);
    Ok(digest.value)
}

/// Lines are answered as they come.
pub fn live(alloc: Global, round: &Round) -> Result<u64> {
    let topology = of_round(round.number).topology(alloc)?;
    let mix = round.mix(0, Kind::Usual, EVERYBODY);
    let text = texts::asking(alloc, mix, round.orders, 100, round.dice(1))?;
    scripts::live(&topology, text.as_str())
}

/// A few clients of which each gives many orders.
const FEW: Crowd = Crowd {
    apps: 8,
    threads: 1,
    active: 8,
};

/// Some hundred clients.
const SOME: Crowd = Crowd {
    apps: 16,
    threads: 6,
    active: 96,
};

/// All clients there may be.
const ALL: Crowd = Crowd {
    apps: 16,
    threads: 32,
    active: 512,
};

/// One thread, and the clock.
const ONE: Crowd = Crowd {
    apps: 1,
    threads: 1,
    active: 1,
};

/// A script is played by threads, freely and in turn: by few clients, by some and by many, and by one with nearly all.
pub fn plays<R: Threads + Wait + AllocGlobal + Sync>(rt: &R, round: &Round) -> Result<u64> {
    let alloc = rt.alloc();
    let topology = NARROW.topology(alloc)?;
    let mut digest = Number::default();
    let mut part = 0u64;
    for crowd in [FEW, SOME, ALL, ONE] {
        let mix = round.mix(part, Kind::Usual, crowd);
        let script = texts::script(alloc, mix, round.orders)?;
        digest.add(play_freely(rt, &topology, &script)?);
        let mix = round.mix(part.wrapping_add(1), Kind::Usual, crowd);
        let script = texts::script(alloc, mix, round.orders / 8)?;
        digest.add(play_in_turn(rt, &topology, &script)?);
        part = part.wrapping_add(2);
    }
    Ok(digest.value)
}

/// The houses of a round.
fn settings(orders: u64) -> [Setting; 6] {
    [
        Setting {
            clients: 1,
            apps: 1,
            orders,
            habit: Habit::Call,
        },
        Setting {
            clients: 3,
            apps: 3,
            orders: orders / 4,
            habit: Habit::Call,
        },
        Setting {
            clients: 1,
            apps: 1,
            orders,
            habit: Habit::KeepOpen,
        },
        Setting {
            clients: 3,
            apps: 3,
            orders,
            habit: Habit::KeepOpen,
        },
        Setting {
            clients: 16,
            apps: 16,
            orders: orders / 8,
            habit: Habit::KeepOpen,
        },
        Setting {
            clients: 24,
            apps: 4,
            orders: orders / 512,
            habit: Habit::WaitForCores,
        },
    ]
}

/// Threads call the service.
pub fn calls<R: Threads + Wait + AllocGlobal + Sync>(rt: &R, round: &Round) -> Result<u64> {
    let mut digest = Number::default();
    let mut part = 0u64;
    for setting in settings(round.orders) {
        digest.add(serve(rt, setting, round.dice(part))?);
        part = part.wrapping_add(1);
    }
    Ok(digest.value)
}

/// Orders that are awkward: asks alone, ticks that move many, and orders of which half are refused.
fn awkward_orders(alloc: Global, round: &Round) -> Result<u64> {
    let mut digest = Number::default();
    let kinds = [
        (Kind::Asks, WIDE, Posting::AllByCall),
        (Kind::Ticks, HASTY, Posting::EachByCall),
        (Kind::Refused, NARROW, Posting::Unread),
    ];
    let mut part = 0u64;
    for (kind, machine, posting) in kinds {
        let mix = round.mix(part, kind, EVERYBODY);
        digest.add(step(alloc, &machine, mix, round.orders, posting)?);
        part = part.wrapping_add(1);
    }
    Ok(digest.value)
}

/// Scripts that are awkward: lines with tabs, CRs, several spaces and comments, and most orders past the limit.
fn awkward_scripts(alloc: Global, round: &Round) -> Result<u64> {
    let mut digest = Number::default();
    let topology = WIDE.topology(alloc)?;
    let mix = round.mix(10, Kind::Usual, EVERYBODY);
    let text = texts::unusual(alloc, mix, round.orders, round.dice(11))?;
    digest.add(scripts::run(alloc, &topology, text.as_str())?);
    digest.add(scripts::draw(alloc, &topology, text.as_str(), round.orders, Scale::Time)?);
    let text = texts::plain(alloc, round.mix(12, Kind::Asks, EVERYBODY), round.orders)?;
    digest.add(scripts::run(alloc, &SHORT.topology(alloc)?, text.as_str())?);
    Ok(digest.value)
}

/// Conversations that are awkward: about each second line asks for the owners, or many are faulty or too long.
fn awkward_lines(alloc: Global, round: &Round) -> Result<u64> {
    let mut digest = Number::default();
    let topology = WIDE.topology(alloc)?;
    let mix = round.mix(20, Kind::Usual, EVERYBODY);
    let text = texts::asking(alloc, mix, round.orders / 32, 2, round.dice(21))?;
    digest.add(scripts::live(&topology, text.as_str())?);
    let mix = round.mix(22, Kind::Usual, EVERYBODY);
    let text = texts::faulty(alloc, mix, round.orders, round.dice(23))?;
    digest.add(scripts::live(&topology, text.as_str())?);
    Ok(digest.value)
}

/// Machines' files with all cores there may be, and request rows at all levels.
fn awkward_files(alloc: Global, round: &Round) -> Result<u64> {
    let mut digest = Number::default();
    let mut dice = round.dice(30);
    for _ in 0..1 + round.orders / 4096 {
        let text = commented(alloc, &mut dice)?;
        digest.add(scripts::read_machine(alloc, text.as_str())?);
    }
    for _ in 0..1 + round.orders / 128 {
        let text = texts::rows(alloc, &mut dice)?;
        digest.add(scripts::due(text.as_str(), dice.roll(129) as u8)?);
    }
    Ok(digest.value)
}

/// Inputs that are awkward.
pub fn awkward(alloc: Global, round: &Round) -> Result<u64> {
    let mut digest = Number::default();
    digest.add(awkward_orders(alloc, round)?);
    digest.add(awkward_scripts(alloc, round)?);
    digest.add(awkward_lines(alloc, round)?);
    digest.add(awkward_files(alloc, round)?);
    Ok(digest.value)
}
