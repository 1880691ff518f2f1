//! A runtime: the threads of an application. They run slices of a job, on cores that the arbiter gives and asks back.

ghost use Rattle.std.specs.Prelude.{◌≡◌, []};
ghost use Rattle.arb_house.specs.OwnPasts.{IsOwnPast};

use arb_house::{CallFault, Client, Order, Past, Request, Set, WaitFault};
use std::sync::atomic::AtomicU64;
use std::sync::atomic::Ordering::SeqCst;
use std::sync::{Mutex, Wait};
use std::thread;

/// How many numbers a slice adds up.
const SLICE: u64 = 100;

/// What the threads of a runtime share.
#[derive(Drop)]
pub struct Runtime {
    /// At which level the application asks for cores.
    level: usize,
    slices: u64,
    taken: AtomicU64,
    /// How many threads haven't ended.
    working: Mutex<u8>,
    /// How often a thread was given a core, or ended.
    pub given: AtomicU64,
    /// How many threads of the other runtime it still has to outlast.
    pub guests: AtomicU64,
}

/// What a thread did, and its past.
pub type Left = (Result<Done, WaitFault>, Past);

/// What a thread did.
#[derive(Clone, Copy, Debug, Default)]
pub struct Done {
    slices: u64,
    sum: u64,
    /// Whether its core was asked back.
    asked_back: bool,
}

impl Done {
    /// Runs a slice: adds up its numbers.
    fn run(&mut self, slice: u64) {
        let from = slice.saturating_mul(SLICE);
        for n in from..from.saturating_add(SLICE) {
            self.sum = self.sum.saturating_add(n);
        }
        self.slices = self.slices.saturating_add(1);
    }

    /// Adds what another thread did.
    pub fn add(&mut self, other: Done) {
        self.slices = self.slices.saturating_add(other.slices);
        self.sum = self.sum.saturating_add(other.sum);
        self.asked_back |= other.asked_back;
    }
}

impl Runtime {
    pub fn new(level: usize, slices: u64, threads: u8, guests: u64) -> Runtime {
        Runtime {
            level,
            slices,
            taken: AtomicU64::new(0),
            working: Mutex::new(threads),
            given: AtomicU64::new(0),
            guests: AtomicU64::new(guests),
        }
    }

    /// The next slice, by its number.
    fn take(&self) -> Option<u64> {
        let slice = self.taken.fetch_add(1, SeqCst);
        (slice < self.slices).then_some(slice)
    }

    /// An order for so many cores.
    fn ask(&self, cores: u8) -> Order {
        Order::Ask(Request::at(self.level, cores).unwrap_or_default())
    }

    /// A thread, from its first order to its last.
    pub fn run<K: Set, R: Wait>(&self, rt: &R, mut client: Client<K>) -> Left
        requires { client.out ≡ [] }
        ensures { IsOwnPast K.table K.machine client.queue result.1 }
    {
        let done = self.work(rt, &mut client);
        self.given.fetch_add(1, SeqCst);
        let left = self.leave(rt, &mut client).map_err(WaitFault::Call);
        // the server ends once all clients have closed; the past has each answered order, with its reply
        (left.and(done), client.close(rt))
    }

    /// Joins, and runs slices while there are any.
    fn work<K: Set, R: Wait>(&self, rt: &R, client: &mut Client<K>) -> Result<Done, WaitFault>
        requires { client.old.out ≡ [] }
        ensures out { client.new.out ≡ [] }
        ensures queue { client.new.queue ≡ client.old.queue }
    {
        let mut done = Done::default();
        self.join(rt, client).map_err(WaitFault::Call)?;
        for _ in rt.forever() {
            // one load and no wait: whether its core is asked back, at or after all that it has seen; `None` on no core
            let asked_back = client.must_release();
            if asked_back != Some(false) {
                // an order to block gives back the core that it has; after that order it was on the core of this number
                let _core = client.wait_for_core(rt)?;
                self.given.fetch_add(1, SeqCst);
                done.asked_back |= asked_back == Some(true);
            }
            match self.take() {
                Some(slice) => done.run(slice),
                None if self.guests.load(SeqCst) == 0 => break,
                None => thread::yield_now(),
            }
        }
        Ok(done)
    }

    /// The application joins by its first thread's order, and asks for a core for each thread.
    fn join<K: Set, R: Wait>(&self, rt: &R, client: &mut Client<K>) -> Result<(), CallFault>
        requires { client.old.out ≡ [] }
        ensures out { client.new.out ≡ [] }
        ensures queue { client.new.queue ≡ client.old.queue }
    {
        let working = self.working.lock(rt);
        // the reply stands in the one history, past all that the client had seen; after the first thread it is a refusal
        client.call(rt, Order::Join)?;
        // the reply is the number of cores that are due to the application there
        client.call(rt, self.ask(*working))?;
        Ok(())
    }

    /// The application asks for one core fewer, and leaves by its last thread's order.
    fn leave<K: Set, R: Wait>(&self, rt: &R, client: &mut Client<K>) -> Result<(), CallFault>
        requires { client.old.out ≡ [] }
        ensures out { client.new.out ≡ [] }
        ensures queue { client.new.queue ≡ client.old.queue }
    {
        let mut working = self.working.lock(rt);
        *working = working.saturating_sub(1);
        // gives the core back for good: the thread is on no managed core, and waits for none
        client.call(rt, Order::Retire)?;
        let order = match *working {
            0 => Order::Leave,
            rest => self.ask(rest),
        };
        client.call(rt, order)?;
        Ok(())
    }
}
