//! The waiting threads, in order of blocking.

ghost use Rattle.std.specs.Prelude.{◌≡◌, ℕ, ◌+◌, ◌*◌, ◌/◌, ◌<◌, ◌≤◌, ◌==◌, [], ◌∷◌, ◌++◌, length, remove, take, filter, not, slice_index, All};
ghost use Rattle.std.specs.List.{position_or_len};
ghost use Rattle.arb_model.specs.Standing.{app_of, waiting_count};
ghost use Rattle.arb_model.specs.WellFormed.{times_waiting};
ghost use Rattle.arb_seats.specs.Slots.{AreKnown, IsLeast, slot_count, threads_in};
ghost use Rattle.arb_model.specs.Limits.{all_threads, threads};
ghost use Rattle.arb_share.specs.Limits.{applications};

use crate::holders::THREADS;
use arb_model::{ALL_THREADS, APPLICATIONS};
use std::marker::Model;

/// How many slots there are: twice as many as threads, so that gaps are closed once in as many pushes as there are threads.
const SLOTS: usize = 2 * ALL_THREADS;

/// What a slot holds where its thread left.
const GAP: u16 = ALL_THREADS as u16;

/// The slot of a thread that doesn't wait.
const NO_SLOT: u16 = SLOTS as u16;

/// The waiting threads of all applications, in order of blocking, each at most once.
///
/// Taking the first of an application looks at the slots of its threads. No call but a push that finds all
/// slots taken looks at all of them.
#[derive(Drop)]
pub struct Waiting {
    /// The threads in order of blocking, with gaps.
    slots: [u16; SLOTS],
    /// How many slots are taken.
    len: usize,
    /// The slot of each thread.
    slot_of: [u16; ALL_THREADS],
    /// How many threads of each application wait.
    counts: [u8; APPLICATIONS],
}

impl Model for Waiting {
    ghost use Rattle.std.specs.Prelude.{List, ℕ, ◌≤◌, take};
    ghost use Rattle.arb_seats.specs.Slots.{IsQueue, slot_count, threads_in};

    ghost Value = { List ℕ };

    ghost view = { λ w. threads_in (take w.len w.slots) };

    ghost invariant = { λ w. (w.len ≤ slot_count) × IsQueue (take w.len w.slots) w.slot_of w.counts };
}

impl Waiting {
    /// Nobody waits.
    pub fn new() -> Waiting
        ensures { result ≡ [] }
    {
        Waiting {
            slots: [GAP; SLOTS],
            len: 0,
            slot_of: [NO_SLOT; ALL_THREADS],
            counts: [0; APPLICATIONS],
        }
    }

    /// A thread waits, behind all others.
    pub fn push(&mut self, thread: u16)
        requires is_thread { thread < all_threads }
        requires absent { times_waiting thread self.old ≡ 0 }
        ensures { self.new ≡ self.old ++ thread ∷ [] }
    {
        self.len = make_room(&mut self.slots, self.len, &mut self.slot_of);
        self.slots[self.len] = thread;
        self.slot_of[thread as usize] = self.len as u16;
        self.len += 1;
        self.counts[(thread / THREADS) as usize] += 1;
    }

    /// How many threads of an application wait.
    pub fn count_of(&self, app: u16) -> u8
        requires { app < applications }
        ensures value { result ≡ waiting_count app self.now }
        ensures threads { All (λ t. t < all_threads) self.now }
        ensures once { (t : ℕ) → times_waiting t self.now ≤ 1 }
    {
        self.counts[app as usize]
    }

    /// The longest waiting thread of an application.
    fn first_thread(&self, app: u16) -> u16
        requires is_application { app < applications }
        requires some { 0 < waiting_count app self.now }
        ensures value { result ≡ slice_index self.now (position_or_len (λ thread. app_of thread == app) self.now) }
        ensures others { filter (λ t. not (t == result)) self.now
            ≡ remove self.now (position_or_len (λ thread. app_of thread == app) self.now) }
        ensures is_thread { result < all_threads }
        ensures present { 0 < times_waiting result self.now }
    {
        self.slots[first_slot(&self.slot_of, app) as usize]
    }

    /// Takes out the longest waiting thread of an application.
    pub fn take_first(&mut self, app: u16) -> u16
        requires is_application { app < applications }
        requires some { 0 < waiting_count app self.old }
        ensures value { result ≡ slice_index self.old (position_or_len (λ thread. app_of thread == app) self.old) }
        ensures others { self.new ≡ remove self.old (position_or_len (λ thread. app_of thread == app) self.old) }
        ensures is_thread { result < all_threads }
    {
        let thread = self.first_thread(app);
        self.remove(thread);
        thread
    }

    /// Takes out a thread.
    pub fn remove(&mut self, thread: u16)
        requires is_thread { thread < all_threads }
        requires present { 0 < times_waiting thread self.old }
        ensures { self.new ≡ filter (λ t. not (t == thread)) self.old }
    {
        let slot = self.slot_of[thread as usize];
        self.slots[slot as usize] = GAP;
        self.slot_of[thread as usize] = NO_SLOT;
        self.counts[(thread / THREADS) as usize] -= 1;
    }
}

/// How many slots are compared one after another.
const RUN: usize = THREADS as usize / 4;

/// The first slot of a quarter of an application's threads, from one on, or [`NO_SLOT`].
fn first_of_run(slot_of: &[u16; ALL_THREADS], from: usize) -> u16
    requires { from + threads / 4 ≤ all_threads }
    ensures { IsLeast slot_of.now slot_count from (threads / 4) result }
{
    let mut least = NO_SLOT;
    for thread in 0..RUN {
        let slot = slot_of[from + thread];
        if slot < least {
            least = slot;
        }
    }
    least
}

/// The first slot with a thread of an application, or [`NO_SLOT`]. A processor compares the four runs at once.
fn first_slot(slot_of: &[u16; ALL_THREADS], app: u16) -> u16
    requires { app < applications }
    ensures { IsLeast slot_of.now slot_count (app * threads) threads result }
{
    let from = app as usize * THREADS as usize;
    let first = first_of_run(slot_of, from);
    let second = first_of_run(slot_of, from + RUN);
    let third = first_of_run(slot_of, from + 2 * RUN);
    let last = first_of_run(slot_of, from + 3 * RUN);
    first.min(second).min(third.min(last))
}

/// Closes the gaps where all slots are taken; says how many are taken then.
fn make_room(slots: &mut [u16; SLOTS], len: usize, slot_of: &mut [u16; ALL_THREADS]) -> usize
    requires within { len ≤ slot_count }
    requires known { AreKnown (take len slots.old) slot_of.old }
    requires few { length (threads_in (take len slots.old)) < slot_count }
    ensures room { result < slot_count }
    ensures same { threads_in (take result slots.new) ≡ threads_in (take len slots.old) }
    ensures known { AreKnown (take result slots.new) slot_of.new }
    ensures absent { (t : ℕ) → times_waiting t (threads_in (take len slots.old)) ≡ 0 → slice_index slot_of.new t ≡ slice_index slot_of.old t }
{
    if len < SLOTS {
        return len;
    }
    let len = close_gaps(slots);
    renumber(&slots[..len], slot_of);
    len
}

/// Moves the threads together; says how many there are.
fn close_gaps(slots: &mut [u16; SLOTS]) -> usize
    ensures kept { take result slots.new ≡ threads_in slots.old }
    ensures within { result ≤ slot_count }
{
    let mut kept = 0;
    for slot in 0..SLOTS {
        let thread = slots[slot];
        if thread < GAP {
            slots[kept] = thread;
            kept += 1;
        }
    }
    kept
}

/// Notes the slot of each thread.
fn renumber(slots: &[u16], slot_of: &mut [u16; ALL_THREADS])
    requires few { length slots.now ≤ slot_count }
    requires threads { All (λ t. t < all_threads) slots.now }
    requires once { (t : ℕ) → times_waiting t slots.now ≤ 1 }
    ensures known { AreKnown slots.now slot_of.new }
    ensures absent { (t : ℕ) → times_waiting t slots.now ≡ 0 → slice_index slot_of.new t ≡ slice_index slot_of.old t }
{
    for slot in 0..slots.len() {
        slot_of[slots[slot] as usize] = slot as u16;
    }
}
