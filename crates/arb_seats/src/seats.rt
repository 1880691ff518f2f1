//! Who is where: the cores by position, the waiting threads and the moved ones, and the page words that show it.

ghost use Rattle.std.specs.Prelude.{◌≡◌, ◌+◌, ◌*◌, ◌-◌, ◌<◌, ◌≤◌, ◌==◌, ◌++◌, [], ◌∷◌, ℕ, None, Some, true, false, length, map, replicate, slice_index, slice_set, sum, count_by, MatchOption};
ghost use Rattle.std.specs.List.{range_with_len};
ghost use Rattle.arb_config.specs.Machine.{cores_of};
ghost use Rattle.arb_model.specs.Lists.{one_if};
ghost use Rattle.arb_model.specs.Standing.{Standing, app_of, holder_at, holds, is_waiting, nobody};
ghost use Rattle.arb_model.specs.WellFormed.{times_placed, times_on};
ghost use Rattle.arb_model.specs.Changes.{blocked, is_overdue, overdue_moved, unplaced};
ghost use Rattle.arb_model.specs.Step.{place_of};
ghost use Rattle.arb_model.specs.Words.{asked_bit, seat_word};
ghost use Rattle.arb_seats.specs.Moving.{overdue_at};
ghost use Rattle.arb_seats.specs.NextPost.{PostsNext};
ghost use Rattle.arb_seats.specs.ShownSeats.{ShowsSeats};
ghost use Rattle.arb_seats.specs.Tells.{Tells};
ghost use Rattle.arb_model.specs.Limits.{all_threads};
ghost use Rattle.arb_share.specs.Limits.{applications};
ghost use Rattle.arb_model.specs.Layout.{half_number, half_size, release_index, word_count};

mod rebalancing;

use crate::core_table::Cores;
use crate::holders::{THREADS, application_of, is_overdue};
use crate::positions::{first_position, without_first};
use crate::waiting::Waiting;
use crate::word_table::WordTable;
use arb_config::Topology;
use arb_model::layout::{
    FIRST_CORE, FIRST_PLACE, Half, MOVED, UNMANAGED, WAITING, half_at, release_index,
};
use arb_model::{ALL_THREADS, Holder, Place};
use std::marker::Model;

/// Who is where on a machine, and the page words that show it, with what was posted of them.
#[derive(Drop)]
pub struct Seating {
    cores: Cores,
    waiting: Waiting,
    /// Of each thread, whether it was moved.
    moved: [bool; ALL_THREADS],
    /// The page words; the place words tell the place of each thread.
    table: WordTable,
}

impl Model for Seating {
    ghost use Rattle.arb_seats.specs.ShownSeats.{ShownSeats, ShowsSeats};

    ghost Value = { ShownSeats };

    ghost view = { λ s. record {
      machine = s.cores.machine;
      seats = record { cores = s.cores.cores; waiting = s.waiting; moved = s.moved };
      posted = s.table.posted;
    } };

    ghost invariant = { λ s. ShowsSeats (record { cores = s.cores.cores; waiting = s.waiting; moved = s.moved }) s.table };
}

/// The release word of an application for a half is that of the cores again.
fn show_release(table: &mut WordTable, cores: &Cores, app: u16, half: Half)
    requires { app < applications }
    ensures { table.new ≡ record table.old {
      words = slice_set table.old.words (release_index app (half_number half)) (sum (map (asked_bit app (half_number half) cores.now.cores) (range_with_len 0 half_size)));
    } }
{
    table.set_release(
        release_index(app as u8, half),
        cores.release_bits(app, half),
    );
}

impl Seating {
    /// All threads are unmanaged, all cores free, and all words 0.
    pub fn new(topology: &Topology) -> Seating
        ensures { result ≡ record {
          machine = topology.now;
          seats = nobody (length (cores_of topology.now));
          posted = replicate word_count 0;
        } }
    {
        Seating {
            cores: Cores::new(topology),
            waiting: Waiting::new(),
            moved: [false; ALL_THREADS],
            table: WordTable::new(),
        }
    }

    /// The cores, and who is on them.
    pub fn cores(&self) -> &Cores
        ensures { result.now ≡ record { machine = self.now.machine; cores = self.now.seats.cores } }
    {
        &self.cores
    }

    /// The waiting threads.
    pub fn waiting(&self) -> &Waiting
        ensures { result.now ≡ self.now.seats.waiting }
    {
        &self.waiting
    }

    /// The page words, which show the seats.
    pub fn words(&self) -> &WordTable
        ensures posted { result.now.posted ≡ self.now.posted }
        ensures shows { ShowsSeats self.now.seats result.now }
    {
        &self.table
    }

    /// Posts a count of orders in word 0.
    pub fn post_count(&mut self, count: u64)
        ensures { self.new ≡ record self.old { posted = slice_set self.old.posted 0 count } }
    {
        self.table.post_count(count);
    }

    /// Posts a page word but word 0.
    pub fn post(&mut self, w: usize)
        requires some { 0 < w }
        requires within { w < word_count }
        ensures { self.new ≡ record self.old {
          posted = slice_set self.old.posted w (seat_word self.old.seats w);
        } }
    {
        self.table.post(w);
    }

    /// Posts the stale word that is to be posted next, if any is stale, and gives it with its value. The next one is that of each
    /// standing that has these seats, and so many orders as were posted.
    pub fn post_next(&mut self) -> Option<(usize, u64)>
        ensures rest { self.new ≡ record self.old { posted = self.new.posted } }
        ensures next { (s : Standing) → s.seats ≡ self.old.seats → sum s.counts ≡ slice_index self.old.posted 0
            → PostsNext s self.old.posted self.new.posted result }
    {
        self.table.post_next()
    }

    /// Posts all stale page words.
    pub fn settle(&mut self)
        ensures rest { self.new ≡ record self.old { posted = self.new.posted } }
        ensures long { length self.new.posted ≡ word_count }
        ensures counted { slice_index self.new.posted 0 ≡ slice_index self.old.posted 0 }
        ensures posted { (w : ℕ) → 0 < w → w < word_count
            → slice_index self.new.posted w ≡ seat_word self.old.seats w }
    {
        self.table.settle();
    }

    /// The place word of a thread, which tells where it is.
    fn place_word(&self, thread: u16) -> u64
        requires { thread < all_threads }
        ensures tells { Tells self.now.seats thread result }
        ensures once { times_placed self.now.seats thread ≤ 1 }
    {
        self.table.word(FIRST_PLACE + thread as usize)
    }

    /// The position of a thread's core and the hold there, or `None` where the thread is on none.
    fn core_of(&self, thread: u16) -> Option<(usize, Holder)>
        requires { thread < all_threads }
        ensures found { MatchOption result (times_on thread self.now.seats.cores ≡ 0)
            (λ found. (holder_at self.now.seats.cores found.0 ≡ Some found.1) × (found.1.thread ≡ thread)) }
        ensures once { times_placed self.now.seats thread ≤ 1 }
    {
        let word = self.place_word(thread);
        if word < FIRST_CORE {
            return None;
        }
        let position = ((word - FIRST_CORE) / 2) as usize;
        let holder = self.cores.holder(position)?;
        Some((position, holder))
    }

    /// Whether a thread waits.
    pub fn is_waiting(&self, thread: u16) -> bool
        requires { thread < all_threads }
        ensures { result ≡ is_waiting self.now.seats thread }
    {
        self.place_word(thread) == WAITING
    }

    /// The core at a position is asked back since a moment, or not asked back.
    fn mark(&mut self, position: usize, holder: Holder, asked: Option<u64>)
        requires { holder_at self.old.seats.cores position ≡ Some holder }
        ensures { self.new ≡ record self.old {
          seats = record self.old.seats {
            cores = slice_set self.old.seats.cores position (Some (record { thread = holder.thread; asked = asked }));
          };
        } }
    {
        self.cores.set_asked(position, holder, asked);
        self.table.set(
            FIRST_PLACE + holder.thread as usize,
            self.cores.place_word(position, asked.is_some()),
        );
        show_release(
            &mut self.table,
            &self.cores,
            application_of(holder.thread),
            half_at(position),
        );
    }

    /// A thread that is unmanaged counts as moved.
    fn mark_moved(&mut self, thread: u16)
        requires is_thread { thread < all_threads }
        requires nowhere { times_placed self.old.seats thread ≡ 0 }
        ensures { self.new ≡ record self.old {
          seats = record self.old.seats { moved = slice_set self.old.seats.moved thread true };
        } }
    {
        self.moved[thread as usize] = true;
        self.table.set(FIRST_PLACE + thread as usize, MOVED);
    }

    /// A thread that is unmanaged waits, behind all others.
    fn enqueue(&mut self, thread: u16)
        requires is_thread { thread < all_threads }
        requires nowhere { times_placed self.old.seats thread ≡ 0 }
        ensures { self.new ≡ record self.old {
          seats = record self.old.seats { waiting = self.old.seats.waiting ++ thread ∷ [] };
        } }
    {
        self.waiting.push(thread);
        self.table.set(FIRST_PLACE + thread as usize, WAITING);
    }

    /// A thread becomes unmanaged, from any place: its place word says which. The release words show that only where its core
    /// was asked back.
    pub fn unplace(&mut self, thread: u16)
        requires { thread < all_threads }
        ensures { self.new ≡ record self.old { seats = unplaced (λ t. t == thread) self.old.seats } }
    {
        let word = self.place_word(thread);
        if word == UNMANAGED {
            return;
        }
        self.table.set(FIRST_PLACE + thread as usize, UNMANAGED);
        if word == MOVED {
            self.moved[thread as usize] = false;
            return;
        }
        if word == WAITING {
            self.waiting.remove(thread);
            return;
        }
        let position = ((word - FIRST_CORE) / 2) as usize;
        let asked = (word - FIRST_CORE) % 2 == 1;
        self.cores.free_up(position, thread, asked);
        if asked {
            show_release(
                &mut self.table,
                &self.cores,
                application_of(thread),
                half_at(position),
            );
        }
    }

    /// All threads of an application become unmanaged.
    pub fn unplace_application(&mut self, app: u16)
        requires { app < applications }
        ensures { self.new ≡ record self.old { seats = unplaced (λ t. app_of t == app) self.old.seats } }
    {
        for thread in app * THREADS..app * THREADS + THREADS {
            self.unplace(thread);
        }
    }

    /// A thread returns its core, if it has one, and waits.
    pub fn block(&mut self, thread: u16)
        requires { thread < all_threads }
        ensures { self.new ≡ record self.old { seats = blocked thread self.old.seats } }
    {
        self.unplace(thread);
        self.enqueue(thread);
    }

    /// Where a thread is.
    pub fn place_of(&self, thread: u16) -> Place
        requires { thread < all_threads }
        ensures { result ≡ place_of self.now.machine self.now.seats thread }
    {
        if let Some((position, holder)) = self.core_of(thread) {
            return Place::On {
                core: self.cores.number_at(position),
                asked: holder.asked.is_some(),
            };
        }
        if self.moved[thread as usize] {
            return Place::Moved;
        }
        if self.is_waiting(thread) {
            return Place::Waiting;
        }
        Place::Unmanaged
    }

    /// The thread on a core is moved if it is overdue; says how many were moved.
    fn move_if_overdue(&mut self, position: usize, grace: u64, moment: u64) -> u8
        requires { position < length self.old.seats.cores }
        ensures moved { self.new ≡ record self.old { seats = overdue_at grace moment position self.old.seats } }
        ensures count { result ≡ one_if (holds (is_overdue grace moment) (holder_at self.old.seats.cores position)) }
    {
        match self.cores.holder(position) {
            Some(holder) if is_overdue(holder, grace, moment) => {
                self.unplace(holder.thread);
                self.mark_moved(holder.thread);
                1
            }
            _ => 0,
        }
    }

    /// Moves the threads that are overdue at a moment, in microseconds, and says how many. A move frees a core and asks
    /// for none, so the positions that are asked are looked up once.
    pub fn move_overdue(&mut self, moment: u64) -> u8
        ensures moved { self.new
            ≡ record self.old { seats = overdue_moved self.old.machine.grace moment self.old.seats } }
        ensures count { result ≡ count_by (holds (is_overdue self.old.machine.grace moment)) self.old.seats.cores }
    {
        let grace = self.cores.topology().grace();
        let mut count = 0;
        let mut rest = self.cores.asked_of_any();
        let mut next = first_position(rest, 0);
        while let Some(position) = next {
            count += self.move_if_overdue(position, grace, moment);
            rest = without_first(rest);
            next = first_position(rest, 0);
        }
        count
    }
}
