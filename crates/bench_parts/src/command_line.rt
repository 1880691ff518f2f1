//! The command line.

use crate::sequence::MOST;
use std::convert::AsStr;

/// A part of the program.
#[derive(Clone, Copy, PartialEq)]
pub enum Part {
    /// The help text.
    Help,
    /// The parts that print the same wherever the program runs, and take no more than seconds.
    Check,
    /// The arbiter's orders alone.
    Step,
    /// The orders of a script alone.
    Feed,
    /// Orders as the machine grows, the applications or the waiting threads.
    Grow,
    /// The reading of page words.
    Page,
    /// Orders through the service.
    Call,
    /// What it costs to wait, and how soon who waits goes on.
    Wait,
    /// A script of so many orders.
    Gen,
    /// The configuration of the machine with 64 cores.
    Config,
}

/// What the command line asks for.
#[derive(Clone, Copy, PartialEq)]
pub struct Task {
    /// The part.
    pub part: Part,
    /// Whether it prints times in place of what was done.
    pub timed: bool,
    /// The seed of a script.
    pub seed: u64,
    /// How many orders a script has, or are given.
    pub orders: usize,
}

/// How many orders `step` gives where the command line doesn't say.
pub const USUAL: usize = 2000;

/// The names of the parts.
const NAMES: [(&str, Part); 9] = [
    ("check", Part::Check),
    ("step", Part::Step),
    ("feed", Part::Feed),
    ("grow", Part::Grow),
    ("page", Part::Page),
    ("call", Part::Call),
    ("wait", Part::Wait),
    ("gen", Part::Gen),
    ("config", Part::Config),
];

/// The part of a name.
fn part_of(name: &str) -> Option<Part> {
    for (known, part) in NAMES {
        if known == name {
            return Some(part);
        }
    }
    None
}

/// Whether the help text is asked for, by any word.
fn asks_for_help<S: AsStr>(words: &[S]) -> bool {
    for word in words {
        let text = word.as_str();
        if text == "--help" || text == "-h" {
            return true;
        }
    }
    false
}

/// What the words of a command line ask for, or `None` where a word is missing, unknown or one too many. The program's
/// own name comes first.
pub fn parse<S: AsStr>(words: &[S]) -> Option<Task> {
    let mut task = Task {
        part: Part::Help,
        timed: false,
        seed: 0,
        orders: USUAL,
    };
    if asks_for_help(words) {
        return Some(task);
    }
    let [_, name, rest @ ..] = words else {
        return None;
    };
    task.part = part_of(name.as_str())?;
    match task.part {
        Part::Gen => task.set_seed_and_orders(rest)?,
        _ => task.set_options(rest)?,
    }
    Some(task)
}

impl Task {
    /// `SEED N`.
    fn set_seed_and_orders<S: AsStr>(&mut self, words: &[S]) -> Option<()> {
        let [seed, orders] = words else {
            return None;
        };
        self.seed = seed.as_str().parse::<u64>().ok()?;
        self.orders = count(orders.as_str())?;
        Some(())
    }

    /// `[--time] [ORDERS]`, in any order, as far as the part takes them.
    fn set_options<S: AsStr>(&mut self, words: &[S]) -> Option<()> {
        let mut takes_orders = self.part == Part::Step;
        let may_be_timed = !matches!(self.part, Part::Check | Part::Config);
        for word in words {
            let text = word.as_str();
            if text == "--time" && may_be_timed {
                self.timed = true;
            } else if takes_orders {
                self.orders = count(text)?;
                takes_orders = false;
            } else {
                return None;
            }
        }
        Some(())
    }
}

/// A number of orders within the limit.
fn count(text: &str) -> Option<usize> {
    let count = text.parse::<usize>().ok()?;
    (count <= MOST).then_some(count)
}
