//! The two ends of a channel of answers: where the other one is gone, where there is no room, and how long a receiver looks.

use crate::tests::same::same;
use arb_desk::{Receiver, Sender, open_channel};
use std::rt::{Clock, Files};
use std::sync::Wait;
use std::sync::atomic::AtomicU64;
use std::sync::atomic::Ordering::SeqCst;
use std::test::*;
use std::thread::{available_parallelism, join, sleep};
use std::time::{Duration, Instant};
use std::{fs, hint};
use test_parts::used_so_far;

#[test]
fn what_was_sent_is_received_though_the_sender_is_gone(rt: HostRuntime) -> Result<(), Fail> {
    let (mut to, mut from) = open_channel(rt.alloc(), 2)?;
    same(&rt, "first", to.send(&rt, 7u8), true);
    same(&rt, "second", to.send(&rt, 8), true);
    drop(to);
    same(&rt, "first", from.recv(&rt), Some(7));
    same(&rt, "second", from.recv(&rt), Some(8));
    same(&rt, "third", from.recv(&rt), None);
    Ok(())
}

#[test]
fn nothing_is_sent_to_a_receiver_that_is_gone(rt: HostRuntime) -> Result<(), Fail> {
    let (mut to, from) = open_channel(rt.alloc(), 2)?;
    drop(from);
    assert!(&rt; !to.send(&rt, 9u8));
    Ok(())
}

/// How many messages go through a channel that holds one.
const MANY: u64 = 1_000;

/// Sends so many numbers. Gives how many were sent.
fn send_many<R: Wait>(rt: &R, mut to: Sender<u64>) -> u64 {
    let mut sent: u64 = 0;
    for number in 0..MANY {
        sent = sent.wrapping_add(u64::from(to.send(rt, number)));
    }
    sent
}

/// Receives as many. Gives how many of them came in their order.
fn receive_many<R: Wait>(rt: &R, mut from: Receiver<u64>) -> u64 {
    let mut came: u64 = 0;
    for _ in 0..MANY {
        if from.recv(rt) == Some(came) {
            came = came.wrapping_add(1);
        }
    }
    came
}

/// Who sends waits where the channel is full: each message comes, though one has room at a time.
#[test]
fn a_send_waits_for_room(rt: HostRuntime) -> Result<(), Fail> {
    let (to, from) = open_channel(rt.alloc(), 1)?;
    let run = &rt;
    let (sent, came) = join(
        run,
        move || send_many(run, to),
        move || receive_many(run, from),
    );
    same(&rt, "sent and received", (sent, came), (MANY, MANY));
    Ok(())
}

/// By how many looks each answer is asked for later than the one before: by fewer than a receiver looks more after an answer that it
/// found by looking. One of its looks takes longer than one that is counted here.
const STEP: u64 = 13;

/// By how many the latest are: the channel's own wait has long begun to sleep then.
const LATEST: u64 = 64 * STEP;

/// How many come as late as that, one behind the other.
const LATE: u64 = 16;

/// An answer that comes within so many microseconds came with no other thread in between, as it mostly seems. Otherwise the answers
/// come soon again, and then later.
const SWIFT: u64 = 1_000;

/// In how many rounds of so many the latest come without a sleep. Where the receiver looks they do in most of them, and otherwise
/// by chance in one of many.
const AWAKE: u64 = 8;

const ROUNDS: u64 = 200;

/// How many rounds are tried at most. One counts as one of these where no more threads than there are processors want one, before it
/// and behind it: otherwise the sender may be kept from answering, and the receiver sleeps all the same.
const MOST_ROUNDS: u64 = 10_000;

/// Whether no more threads of the machine want a processor than there are, as Linux tells it.
fn is_quiet<R: Files + AllocGlobal>(rt: &R, processors: u64) -> Option<bool> {
    let load = fs::read_to_string(rt, "/proc/loadavg").ok()?;
    let (wanting, _) = load.split_ascii_whitespace().nth(3)?.split_once('/')?;
    Some(wanting.parse::<u64>().ok()? <= processors)
}

/// For how many seconds that is tried: where other threads have the processors in between, too few rounds are done to tell.
const SECONDS: u64 = 10;

/// Who asks stores the number of the answer times this, and adds by how many looks it is to be late.
const ROW: u64 = 65_536;

/// Waits until an answer is asked for with this number. Then it looks as often as it is asked to for another one, and so lets time pass.
fn wait_and_look<R: Wait>(rt: &R, asked: &AtomicU64, number: u64) -> u64 {
    let mut looks: u64 = 0;
    for _ in rt.forever() {
        looks = asked.load(SeqCst);
        if looks / ROW >= number {
            break;
        }
        hint::spin_loop();
    }
    let mut seen: u64 = 0;
    for _ in 0..looks % ROW {
        seen = seen.wrapping_add(asked.load(SeqCst));
        hint::spin_loop();
    }
    seen
}

/// Answers each number that is asked for, until the asker is gone.
fn answer_all<R: Wait>(rt: &R, asked: &AtomicU64, mut to: Sender<u64>) {
    for number in 1..u64::MAX {
        let seen = wait_and_look(rt, asked, number);
        if !to.send(rt, seen) {
            return;
        }
    }
}

/// Who asks: the number of the next answer, and where the answers come.
#[derive(Drop)]
struct Asker<'a> {
    asked: &'a AtomicU64,
    number: u64,
    from: Receiver<u64>,
}

impl<'a> Asker<'a> {
    fn new(asked: &'a AtomicU64, from: Receiver<u64>) -> Asker<'a> {
        Asker {
            asked,
            number: 1,
            from,
        }
    }

    /// Asks for so many answers, each of them late by so many looks, and awaits each.
    fn ask<R: Wait>(&mut self, rt: &R, count: u64, looks: u64) {
        for _ in 0..count {
            let word = self.number.wrapping_mul(ROW).wrapping_add(looks);
            self.asked.store(word, SeqCst);
            self.number = self.number.wrapping_add(1);
            let _answer = self.from.recv(rt);
        }
    }

    /// Asks for answers that come later and later. Gives whether they came so, until the time is over.
    fn ask_later<R: Wait + Clock>(&mut self, rt: &R, began: &Instant) -> Option<bool> {
        let mut looks: u64 = 0;
        for _ in rt.forever() {
            let before = began.elapsed(rt).ok()?;
            if looks >= LATEST || before > Duration::from_secs(SECONDS) {
                break;
            }
            self.ask(rt, 1, looks);
            let swift = before.saturating_add(Duration::from_micros(SWIFT));
            looks = if began.elapsed(rt).ok()? > swift {
                0
            } else {
                looks.saturating_add(STEP)
            };
        }
        Some(looks >= LATEST)
    }
}

/// Asks on, until the latest answers of enough rounds came without a sleep, and without a yield by which another thread came in
/// between. Gives whether they did, where there was time to tell.
fn ask_until_awake<R: Wait + Clock + Files + AllocGlobal>(
    rt: &R,
    processors: u64,
    mut asker: Asker,
) -> Option<bool> {
    let began = Instant::now(rt).ok()?;
    let (mut awake, mut told) = (0u64, 0u64);
    for _ in 0..MOST_ROUNDS {
        if awake == AWAKE || told == ROUNDS || !asker.ask_later(rt, &began)? {
            break;
        }
        let was_quiet = is_quiet(rt, processors)?;
        let before = used_so_far(rt)?;
        asker.ask(rt, LATE, LATEST);
        let meanwhile = used_so_far(rt)?.since(&before);
        if meanwhile.sleeps == 0 && meanwhile.breaks == 0 {
            awake = awake.wrapping_add(1);
        }
        if was_quiet && is_quiet(rt, processors)? {
            told = told.wrapping_add(1);
        }
    }
    Some(awake == AWAKE || told < ROUNDS)
}

/// A receiver that finds its answers by looking looks on for those that come later: it awaits such answers without a sleep. On one
/// processor no look finds anything.
#[test]
fn who_finds_answers_by_looking_looks_on(rt: HostRuntime) -> Result<(), Fail> {
    let processors = available_parallelism(&rt)?.get() as u64;
    if processors == 1 {
        println!(&rt; "skipped: on one processor no look finds anything").ok();
        return Ok(());
    }
    let (to, from) = open_channel(rt.alloc(), 1)?;
    let (run, asked) = (&rt, &AtomicU64::new(0));
    let ((), awake) = join(
        run,
        move || answer_all(run, asked, to),
        move || {
            let awake = ask_until_awake(run, processors, Asker::new(asked, from));
            asked.store(u64::MAX, SeqCst);
            awake
        },
    );
    same(&rt, "awake", awake, Some(true));
    Ok(())
}

/// How many answers a receiver finds by looking, one right behind the other, before one is withheld: some parts of so many.
const PART: u64 = 1_000;

const PARTS: u64 = 400;

/// After how many seconds no other part begins: where other threads have the processors in between, each takes long.
const SOON_SECONDS: u64 = 2;

/// How often the sender looks before each of these: the receiver looks by then.
const SOON: u64 = 10;

/// For how long the last answer is withheld, in milliseconds.
const WITHHELD: u64 = 500;

/// The receiver's processor time meanwhile at most, in milliseconds: a wait looks for some sixty microseconds at most. One that looks
/// fifteen times more after each answer looks for longer, also where each look takes a hundredth of a microsecond.
const MOST_MILLIS: u64 = 30;

/// Answers each number that is asked for, soon. The last one, which is the largest, it answers late.
fn answer_soon<R: Wait + Clock>(rt: &R, asked: &AtomicU64, mut to: Sender<u64>) {
    for number in 1..u64::MAX {
        let seen = wait_and_look(rt, asked, number);
        let last = asked.load(SeqCst) == u64::MAX;
        if last {
            sleep(rt, Duration::from_millis(WITHHELD));
        }
        if !to.send(rt, seen) || last {
            return;
        }
    }
}

/// Asks for many numbers, and for the last one. Gives how many milliseconds of its processor this thread used until that came.
fn ask_and_await_last<R: Wait + Clock + Files + AllocGlobal>(
    rt: &R,
    mut asker: Asker,
) -> Option<u64> {
    let began = Instant::now(rt).ok()?;
    for _ in 0..PARTS {
        if began.elapsed(rt).ok()? > Duration::from_secs(SOON_SECONDS) {
            break;
        }
        asker.ask(rt, PART, SOON);
    }
    let before = used_so_far(rt)?;
    asker.asked.store(u64::MAX, SeqCst);
    let _last = asker.from.recv(rt);
    Some(used_so_far(rt)?.since(&before).millis)
}

/// However many answers a receiver found by looking, it looks for a while only, and then sleeps. On one processor no look finds anything.
#[test]
fn who_found_many_answers_by_looking_sleeps(rt: HostRuntime) -> Result<(), Fail> {
    if available_parallelism(&rt)?.get() == 1 {
        println!(&rt; "skipped: on one processor no look finds anything").ok();
        return Ok(());
    }
    for _ in 0..3 {
        let (to, from) = open_channel(rt.alloc(), 1)?;
        let (run, asked) = (&rt, &AtomicU64::new(0));
        let ((), millis) = join(
            run,
            move || answer_soon(run, asked, to),
            move || ask_and_await_last(run, Asker::new(asked, from)),
        );
        let millis = millis.ok_or("not told")?;
        assert!(&rt; millis < MOST_MILLIS, "it used {millis} ms");
    }
    Ok(())
}
