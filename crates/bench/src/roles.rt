//! What the clients of a house do.

use anyhow::{Context, Result, ensure};
use arb_core::{Order, Reply};
use arb_house::{Client, MOST_OPEN, Set, WaitFault};
use arb_share::Request;
use std::alloc::Global;
use std::rt::{Clock, Files};
use std::sync::Wait;
use std::sync::atomic::AtomicU64;
use std::sync::atomic::Ordering::SeqCst;
use std::time::{Duration, Instant};
use std::{fs, hint, thread};

/// What the clients of one thread do, before they close.
#[derive(Clone, Copy)]
pub enum Role {
    /// Nothing, for so many milliseconds.
    Rest(u64),
    /// The first of them calls.
    Call(Calls),
    /// It keeps as many orders open as may be, so many in all.
    KeepOpen(u64),
    /// It ends the waits of another client.
    End(Trial),
    /// It waits, and another client ends that.
    Wait(Trial),
}

/// Calls that are measured.
#[derive(Clone, Copy)]
pub struct Calls {
    /// How often they are timed.
    pub times: usize,
    /// How many there are for one time.
    pub count: u64,
    /// For how many milliseconds the client pauses before.
    pub pause: u64,
}

/// Waits that are measured.
#[derive(Clone, Copy)]
pub struct Trial {
    /// How many there are.
    pub count: u64,
    /// For how many milliseconds one lasts at least.
    pub pause: u64,
    /// What ends one.
    pub wake: Wake,
}

/// What ends a wait.
#[derive(Clone, Copy, PartialEq)]
pub enum Wake {
    /// A core comes.
    Core,
    /// The application leaves.
    Leave,
}

impl Wake {
    /// The order that ends the wait.
    fn order(self) -> Order {
        match self {
            Wake::Core => ask(1),
            Wake::Leave => Order::Leave,
        }
    }

    /// The order that undoes it.
    fn undoing(self) -> Order {
        match self {
            Wake::Core => ask(0),
            Wake::Leave => Order::Join,
        }
    }

    /// Whether a wait ended by it.
    fn ended(self, came: &Result<u16, WaitFault>) -> bool {
        match came {
            Ok(_) => self == Wake::Core,
            Err(WaitFault::Lost(_)) => self == Wake::Leave,
            Err(_) => false,
        }
    }
}

/// A piece of work, from one moment after the start to another.
#[derive(Clone, Copy)]
pub struct Span {
    /// When it began.
    pub began: Duration,
    /// When it ended.
    pub ended: Duration,
    /// Whether all of it came to what it was to come to.
    pub good: bool,
}

impl Span {
    /// How long it took.
    pub fn length(&self) -> Duration {
        self.ended.saturating_sub(self.began)
    }
}

/// What two threads did since the start, each counted in rounds.
#[derive(Drop)]
pub struct Rounds {
    /// The start.
    start: Instant,
    /// How often a wait ended.
    came: AtomicU64,
    /// How often what ended it was undone.
    undone: AtomicU64,
}

impl Rounds {
    /// Nothing was done at the start.
    pub fn new(start: Instant) -> Rounds {
        Rounds {
            start,
            came: AtomicU64::new(0),
            undone: AtomicU64::new(0),
        }
    }

    /// How much time has passed since the start.
    pub fn now(&self, rt: &impl Clock) -> Result<Duration> {
        Ok(self.start.elapsed(rt)?)
    }
}

/// How often a thread looks at what another does, before it gives up.
pub const MOST_LOOKS: u64 = 1 << 32;

/// Looks until the count is reached. Gives whether it was.
pub fn await_count(count: &AtomicU64, wanted: u64) -> bool {
    for _ in 0..MOST_LOOKS {
        if count.load(SeqCst) >= wanted {
            return true;
        }
        hint::spin_loop();
    }
    false
}

/// Sleeps for so many milliseconds, where there are any.
pub fn pause(rt: &impl Clock, millis: u64) {
    if millis != 0 {
        thread::sleep(rt, Duration::from_millis(millis));
    }
}

/// The only span, from one moment to another.
pub fn only(alloc: Global, began: Result<Duration>, ended: Result<Duration>) -> Result<Vec<Span>> {
    let mut spans = Vec::new(alloc);
    spans.push(Span {
        began: began?,
        ended: ended?,
        good: true,
    })?;
    Ok(spans)
}

/// By what a thread acts: its runtime, and what it does in rounds with another.
#[derive(Drop)]
struct Actor<'a, R> {
    rt: &'a R,
    rounds: &'a Rounds,
}

/// Does what a role says. Gives what was done, in its order.
pub fn act<K: Set, R: Wait + Clock + AllocGlobal>(
    rt: &R,
    clients: &mut [Client<K>],
    role: Role,
    rounds: &Rounds,
) -> Result<Vec<Span>> {
    let client = clients.first_mut().context("no client")?;
    let actor = Actor { rt, rounds };
    match role {
        Role::Call(calls) => actor.call(client, calls),
        Role::KeepOpen(orders) => {
            keep_open(rt, client, orders);
            Ok(Vec::new(rt.alloc()))
        }
        Role::End(trial) => actor.end_waits(client, trial),
        Role::Wait(trial) => actor.wait_often(client, trial),
        Role::Rest(millis) => {
            pause(rt, millis);
            only(rt.alloc(), rounds.now(rt), rounds.now(rt))
        }
    }
}

/// An order for so many cores.
pub fn ask(cores: u8) -> Order {
    Order::Ask(Request::at(0, cores).unwrap_or_default())
}

/// The reply to an order, where no other order is open.
pub fn reply<K: Set, R: Wait>(rt: &R, client: &mut Client<K>, order: Order) -> Option<Reply> {
    if client.out() != 0 {
        return None;
    }
    client.call(rt, order).ok()
}

/// Takes the replies to all open orders.
fn settle<K: Set, R: Wait>(rt: &R, client: &mut Client<K>) {
    for _ in 0..client.out() {
        let _reply = client.collect(rt);
    }
}

/// How many threads of the client's application wait.
fn count_waiting<K: Set, R: Wait>(rt: &R, client: &mut Client<K>) -> Option<u8> {
    match reply(rt, client, Order::Status) {
        Some(Reply::Counts { waiting, .. }) => Some(waiting),
        _ => None,
    }
}

/// Looks until so many threads of the client's application wait.
fn await_waiting<K: Set, R: Wait>(rt: &R, client: &mut Client<K>, wanted: u8) -> Result<()> {
    for _ in 0..MOST_LOOKS {
        let waiting = count_waiting(rt, client).context("the application has not joined")?;
        if waiting >= wanted {
            return Ok(());
        }
    }
    Err(anyhow::anyhow!("the threads do not wait"))
}

/// Calls for the status so often. Gives whether each call was answered.
fn call_often<K: Set, R: Wait>(rt: &R, client: &mut Client<K>, calls: u64) -> bool {
    let mut good = true;
    for _ in 0..calls {
        good &= count_waiting(rt, client).is_some();
    }
    good
}

/// Calls for the status so often, with as many orders open as may be.
fn keep_open<K: Set, R: Wait>(rt: &R, client: &mut Client<K>, orders: u64) {
    for _ in 0..orders {
        if client.out() == MOST_OPEN {
            let _reply = client.collect(rt);
        }
        let _posted = client.post(rt, Order::Status);
    }
}

impl<'a, R: Wait + Clock + AllocGlobal> Actor<'a, R> {
    /// How much time has passed since the start.
    fn now(&self) -> Result<Duration> {
        self.rounds.now(self.rt)
    }

    /// Calls, and calls again.
    fn call<K: Set>(&self, client: &mut Client<K>, calls: Calls) -> Result<Vec<Span>> {
        settle(self.rt, client);
        let mut spans = Vec::new(self.rt.alloc());
        for _ in 0..calls.times {
            pause(self.rt, calls.pause);
            let began = self.now()?;
            let good = call_often(self.rt, client, calls.count);
            let ended = self.now()?;
            spans.push(Span { began, ended, good })?;
        }
        Ok(spans)
    }

    /// Waits as often as the trial says, each time after what ended the last wait was undone.
    fn wait_often<K: Set>(&self, client: &mut Client<K>, trial: Trial) -> Result<Vec<Span>> {
        let mut spans = Vec::new(self.rt.alloc());
        for round in 0..trial.count {
            let undone = await_count(&self.rounds.undone, round);
            ensure!(undone, "nothing was undone");
            let began = self.now()?;
            ensure!(client.out() == 0, "an order is open");
            let came = client.wait_for_core(self.rt);
            let ended = self.now()?;
            ensure!(trial.wake.ended(&came), "a wait did not end");
            self.rounds.came.store(round.wrapping_add(1), SeqCst);
            let good = true;
            spans.push(Span { began, ended, good })?;
        }
        Ok(spans)
    }

    /// Ends another client's waits as often as the trial says, and undoes that.
    fn end_waits<K: Set>(&self, client: &mut Client<K>, trial: Trial) -> Result<Vec<Span>> {
        settle(self.rt, client);
        let mut spans = Vec::new(self.rt.alloc());
        for round in 0..trial.count {
            let next = round.wrapping_add(1);
            await_waiting(self.rt, client, 1)?;
            pause(self.rt, trial.pause);
            let began = self.now()?;
            let given = reply(self.rt, client, trial.wake.order());
            let ended = self.now()?;
            let came = await_count(&self.rounds.came, next);
            let undone = reply(self.rt, client, trial.wake.undoing());
            self.rounds.undone.store(next, SeqCst);
            let good = came && is_accepted(given) && is_accepted(undone);
            ensure!(good, "an order was not answered");
            spans.push(Span { began, ended, good })?;
        }
        Ok(spans)
    }
}

/// Whether an order was answered, and not refused.
fn is_accepted(reply: Option<Reply>) -> bool {
    !matches!(reply, None | Some(Reply::Refused(_)))
}

/// Has clients of all applications look until so many threads of each wait, lets so many milliseconds pass, and has all
/// applications leave. Gives the processor time that was used meanwhile.
pub fn lead<K: Set, R: Wait + Clock + Files + AllocGlobal>(
    rt: &R,
    clients: &mut [Client<K>],
    waiting: u8,
    idle: u64,
) -> Result<Duration> {
    let used = let_pass(rt, clients, waiting, idle);
    leave_all(rt, clients)?;
    used
}

/// Lets the time pass once all threads wait. Gives the processor time that was used meanwhile.
fn let_pass<K: Set, R: Wait + Clock + Files + AllocGlobal>(
    rt: &R,
    clients: &mut [Client<K>],
    waiting: u8,
    idle: u64,
) -> Result<Duration> {
    for client in clients {
        settle(rt, client);
        await_waiting(rt, client, waiting)?;
    }
    let before = processor_time(rt)?;
    pause(rt, idle);
    Ok(processor_time(rt)?.saturating_sub(before))
}

/// Has each application leave.
fn leave_all<K: Set, R: Wait>(rt: &R, clients: &mut [Client<K>]) -> Result<()> {
    let mut good = true;
    for client in clients {
        good &= is_accepted(reply(rt, client, Order::Leave));
    }
    ensure!(good, "an application could not leave");
    Ok(())
}

/// The processor time that this process used so far, as Linux tells it, in hundredths of a second.
fn processor_time<R: Files + AllocGlobal>(rt: &R) -> Result<Duration> {
    let stat = fs::read_to_string(rt, "/proc/self/stat").context("no /proc/self/stat")?;
    let (_, rest) = stat.rsplit_once(')').context("no name in /proc/self/stat")?;
    let mut sum: u64 = 0;
    for field in rest.split_ascii_whitespace().skip(11).take(2) {
        sum = sum.saturating_add(field.parse::<u64>()?);
    }
    Ok(Duration::from_millis(sum.saturating_mul(10)))
}
