//! What orders through the service can't be faster than on this machine: the same messages and answers through the same
//! queue and the same channels, with no arbiter, and with a thread for the server that never sleeps; and one word that two
//! threads hand to and fro.

use crate::house::thread;
use crate::roles::MOST_LOOKS;
use crate::times::RUNS;
use anyhow::{Result, ensure};
use arb_core::{ClientId, Entry, Order, Reply};
use arb_desk::{Receiver, Sender, open_channel};
use arb_house::MOST_OPEN;
use crossbeam_queue::ArrayQueue;
use std::alloc::Global;
use std::hint;
use std::rt::Clock;
use std::sync::Wait;
use std::sync::atomic::AtomicU64;
use std::sync::atomic::Ordering::SeqCst;
use std::thread::{Threads, map_vec};
use std::time::{Duration, Instant};

/// How many messages the queue holds, as that of the service.
const PLACES: usize = 64;

/// Who orders what.
type Message = (ClientId, Order);

/// An entry, and its index among all.
type Answer = (Entry, u64);

/// What one thread does.
#[derive(Drop)]
enum Job {
    /// It takes so many messages, and answers each.
    Answer(Vec<Sender<Answer>>, u64),
    /// A client puts so many messages, with so many open at once.
    Put(ClientId, Receiver<Answer>, u64, u64),
    /// It hands on every other number, so many for one time, from a first one on.
    HandOn(u64, u64),
}

/// Takes the next message.
fn next<R: Wait>(rt: &R, orders: &ArrayQueue<Message, Global>) -> Message {
    for _ in rt.forever() {
        if let Some(message) = orders.pop(rt) {
            return message;
        }
        hint::spin_loop();
    }
    unreachable!()
}

/// Takes so many messages, and answers each.
fn answer_all<R: Wait>(
    rt: &R,
    orders: &ArrayQueue<Message, Global>,
    answers: &mut [Sender<Answer>],
    count: u64,
) {
    for index in 0..count {
        let (client, order) = next(rt, orders);
        let entry = Entry {
            client,
            number: (index % (1 << 32)) as u32,
            order,
            reply: Reply::Done,
        };
        if let Some(to) = answers.get_mut(client.app_no().unwrap_or(0) as usize) {
            let _sent = to.send(rt, (entry, index));
        }
    }
}

/// Puts so many messages with so many open at once. Gives how many answers came.
fn put_all<R: Wait>(
    rt: &R,
    orders: &ArrayQueue<Message, Global>,
    client: ClientId,
    answers: &mut Receiver<Answer>,
    count: u64,
    open: u64,
) -> u64 {
    let mut came: u64 = 0;
    for index in 0..count.saturating_add(open) {
        if index >= open && answers.recv(rt).is_some() {
            came = came.wrapping_add(1);
        }
        if index < count {
            let _put = orders.push(rt, (client, Order::Status));
        }
    }
    came
}

/// Waits until the word is a number, and then stores the next. Gives whether it was.
fn hand_on(word: &AtomicU64, number: u64) -> bool {
    for _ in 0..MOST_LOOKS {
        if word.load(SeqCst) == number {
            word.store(number.wrapping_add(1), SeqCst);
            return true;
        }
    }
    false
}

/// Times every other number that is handed on, so many for one time, from a first one on.
fn time_hands_on<R: Clock + AllocGlobal>(
    rt: &R,
    word: &AtomicU64,
    first: u64,
    count: u64,
) -> Result<Vec<Duration>> {
    let mut times = Vec::new(rt.alloc());
    let mut number = first;
    for _ in 0..RUNS {
        let start = Instant::now(rt)?;
        for _ in 0..count {
            ensure!(hand_on(word, number), "a thread did not answer");
            number = number.wrapping_add(2);
        }
        times.push(start.elapsed(rt)?)?;
    }
    Ok(times)
}

/// Does what one thread does. Gives the times, where it measures any.
fn work<R: Wait + Clock + AllocGlobal>(
    rt: &R,
    job: Job,
    orders: &ArrayQueue<Message, Global>,
    word: &AtomicU64,
) -> Result<Vec<Duration>> {
    match job {
        Job::Answer(mut answers, count) => {
            answer_all(rt, orders, answers.as_mut_slice(), count);
        }
        Job::Put(client, mut answers, count, open) => {
            let came = put_all(rt, orders, client, &mut answers, count, open);
            ensure!(came == count, "a message was not answered");
        }
        Job::HandOn(first, count) => return time_hands_on(rt, word, first, count),
    }
    Ok(Vec::new(rt.alloc()))
}

/// Lets threads do their jobs. Gives how long that took, and the times of all.
fn work_all<R: Threads + Wait + Clock + AllocGlobal + Sync>(
    rt: &R,
    jobs: Vec<Job>,
) -> Result<(Duration, Vec<Duration>)> {
    let orders = &ArrayQueue::new(rt.alloc(), PLACES)?;
    let word = &AtomicU64::new(0);
    let start = Instant::now(rt)?;
    let done = map_vec(rt, jobs, &|job| work(rt, job, orders, word))?;
    let length = start.elapsed(rt)?;
    let mut all = Vec::new(rt.alloc());
    for times in done {
        all.append(&mut times?)?;
    }
    Ok((length, all))
}

/// Times the messages of so many clients, each of which has so many open.
fn time_messages<R: Threads + Wait + Clock + AllocGlobal + Sync>(
    rt: &R,
    clients: u8,
    count: u64,
    open: u64,
) -> Result<Duration> {
    let mut answers = Vec::new(rt.alloc());
    let mut jobs = Vec::new(rt.alloc());
    for app in 0..clients {
        let (to, from) = open_channel(rt.alloc(), MOST_OPEN)?;
        answers.push(to)?;
        jobs.push(Job::Put(thread(app, 0)?, from, count, open))?;
    }
    let all = count.saturating_mul(u64::from(clients));
    jobs.push(Job::Answer(answers, all))?;
    let (length, _) = work_all(rt, jobs)?;
    Ok(length)
}

/// Times the same messages again and again.
pub fn time_floor<R: Threads + Wait + Clock + AllocGlobal + Sync>(
    rt: &R,
    clients: u8,
    count: u64,
    open: u64,
) -> Result<Vec<Duration>> {
    let mut times = Vec::new(rt.alloc());
    for _ in 0..RUNS {
        times.push(time_messages(rt, clients, count, open)?)?;
    }
    Ok(times)
}

/// Times a word that goes to and fro between two threads, so often for each time.
pub fn time_hands<R: Threads + Wait + Clock + AllocGlobal + Sync>(
    rt: &R,
    count: u64,
) -> Result<Vec<Duration>> {
    let mut jobs = Vec::new(rt.alloc());
    for first in 0..2 {
        jobs.push(Job::HandOn(first, count))?;
    }
    let (_, mut times) = work_all(rt, jobs)?;
    // behind those of one thread stand those of the other, which are the same
    times.truncate(RUNS);
    Ok(times)
}
