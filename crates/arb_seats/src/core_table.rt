//! The cores of a machine: who is on each, and the sets of positions that answer for all of them.

ghost use Rattle.std.specs.Prelude.{◌≡◌, ◌&&◌, ◌<◌, ◌≤◌, ◌+◌, ◌-◌, ◌*◌, ◌==◌, ◌↔◌, ℕ, IsTrue, MatchOption, None, Some, false, true, length, map, nat_lt, not, replicate, slice_index, slice_set, sum};
ghost use Rattle.std.specs.List.{range_with_len};
ghost use Rattle.arb_config.specs.Machine.{cores_of, socket_by_position};
ghost use Rattle.arb_seats.specs.Asking.{NextToAsk};
ghost use Rattle.arb_seats.specs.Bits.{has_bit};
ghost use Rattle.arb_seats.specs.CoreSets.{IsSetOf, set_size};
ghost use Rattle.arb_model.specs.Grants.{next_core};
ghost use Rattle.arb_model.specs.Standing.{asked_count, holder_at, free_count, is_asked, is_held_by, is_of, owned, owned_on};
ghost use Rattle.arb_model.specs.Words.{asked_bit};
ghost use Rattle.arb_model.specs.Limits.{all_threads};
ghost use Rattle.arb_share.specs.Limits.{applications};
ghost use Rattle.arb_model.specs.Layout.{core_word, half_number, half_size};
ghost use Rattle.arb_config.specs.Limits.{max_sockets};

use crate::app_sets::AppSets;
use crate::bits::differing;
use crate::core_sets::{below, both, count, positions_on_sockets, without};
use crate::positions::{first_position, last_position, put_position, word_of};
use crate::socket_counts::SocketCounts;
use arb_config::{MAX_MANAGED, MAX_SOCKETS, Topology};
use arb_model::layout::{Half, core_word};
use arb_model::{APPLICATIONS, Holder};
use std::marker::Model;

/// What puts a socket behind all others: more cores than an application may own on one. It is added to a number, so that the
/// compiler makes no jump, which a processor would often guess wrong.
const BEHIND: u16 = 256;

/// Who is on each managed core of a machine, by position.
///
/// The positions that belong together are kept in words, with a bit for each position, so that a question looks at a
/// few words, and never at all cores.
#[derive(Drop)]
pub struct Cores {
    topology: Topology,
    /// Who is on the core at each position.
    owners: [Option<Holder>; MAX_MANAGED],
    /// The positions of each socket.
    on_socket: [u128; MAX_SOCKETS],
    /// The positions that each application owns.
    owned_by: AppSets,
    /// The positions that are asked of each application.
    asked: AppSets,
    /// The free positions.
    free: u128,
    /// How many cores each application owns on each socket.
    counts: SocketCounts,
}

impl Model for Cores {
    ghost use Rattle.std.specs.Prelude.{length, take};
    ghost use Rattle.arb_config.specs.Machine.{cores_of};
    ghost use Rattle.arb_seats.specs.CoreTable.{CoreTable};
    ghost use Rattle.arb_seats.specs.CoreSets.{AreSets};

    ghost Value = { CoreTable };

    ghost view = { λ c. record { machine = c.topology; cores = take (length (cores_of c.topology)) c.owners } };

    ghost invariant = { λ c. AreSets c.topology (take (length (cores_of c.topology)) c.owners) c.on_socket c.owned_by c.asked c.free c.counts };
}

impl Cores {
    /// The cores of a machine, all free.
    pub fn new(topology: &Topology) -> Cores
        ensures { result
            ≡ record { machine = topology.now; cores = replicate (length (cores_of topology.now)) None } }
    {
        Cores {
            topology: topology.copied(),
            owners: [None; MAX_MANAGED],
            on_socket: positions_on_sockets(topology),
            owned_by: AppSets::new(),
            asked: AppSets::new(),
            free: below(topology.managed()),
            counts: SocketCounts::new(),
        }
    }

    /// The machine.
    pub fn topology(&self) -> &Topology
        ensures { result.now ≡ self.now.machine }
    {
        &self.topology
    }

    /// Who is on the core at a position.
    pub fn holder(&self, position: usize) -> Option<Holder>
        requires { position < length self.now.cores }
        ensures { result ≡ holder_at self.now.cores position }
    {
        let owners = &self.owners;
        owners[position]
    }

    /// How many cores an application owns.
    pub fn owned(&self, app: u16) -> u8
        requires { app < applications }
        ensures { result ≡ owned app self.now.cores }
    {
        self.owned_by.count(app)
    }

    /// How many cores are asked of an application.
    pub fn asked_count(&self, app: u16) -> u8
        requires { app < applications }
        ensures { result ≡ asked_count app self.now.cores }
    {
        self.asked.count(app)
    }

    /// The applications that aren't asked for as many cores as they own above their due numbers, a bit for each. All are
    /// compared at once.
    pub(crate) fn uneven(&self, due: &[u8; APPLICATIONS]) -> u64
        ensures { (app : ℕ) → has_bit result app ≡ (nat_lt app applications
            && not (asked_count app self.now.cores == (owned app self.now.cores - slice_index due.now app))) }
    {
        let mut asked = [0; APPLICATIONS];
        let mut over = [0; APPLICATIONS];
        for app in 0..APPLICATIONS {
            asked[app] = self.asked_count(app as u16);
            over[app] = self.owned(app as u16).saturating_sub(due[app]);
        }
        differing(&asked, &over)
    }

    /// Whether any core is free.
    pub fn has_free(&self) -> bool
        ensures { IsTrue result ↔ (0 < free_count self.now.cores) }
    {
        self.free != 0
    }

    /// How many cores are free.
    pub fn free_count(&self) -> u8
        ensures count { result ≡ free_count self.now.cores }

        // each core has a socket, for callers that need it
        ensures sockets { length self.now.cores ≡ length (socket_by_position self.now.machine) }
    {
        count(self.free)
    }

    /// How many cores of a socket an application owns.
    pub fn owned_on(&self, app: u16, socket: u8) -> u8
        requires app { app < applications }
        requires socket { socket < max_sockets }
        ensures { result ≡ owned_on (socket_by_position self.now.machine) self.now.cores app socket }
    {
        self.counts.of(app, socket)
    }

    /// The number of the core at a position.
    pub fn number_at(&self, position: usize) -> u16
        requires { position < length self.now.cores }
        ensures { result ≡ slice_index (cores_of self.now.machine) position }
    {
        self.topology.core_at(position as u8)
    }

    /// The place word of a thread on the core at a position.
    pub fn place_word(&self, position: usize, asked: bool) -> u64
        requires { position < length self.now.cores }
        ensures { result ≡ core_word position asked }
    {
        // reading a field opens what holds of the table: it has no more positions than the limit
        let _ = &self.free;
        core_word(position, asked)
    }

    /// The release word of an application for a half: bit c is set where it owns the core at the half's position of place
    /// c and is asked for it.
    pub fn release_bits(&self, app: u16, half: Half) -> u64
        requires { app < applications }
        ensures { result
            ≡ sum (map (asked_bit app (half_number half) self.now.cores) (range_with_len 0 half_size)) }
    {
        word_of(self.asked.of(app), half)
    }

    /// The positions that are asked of an application.
    pub(crate) fn asked_of(&self, app: u16) -> u128
        requires { app < applications }
        ensures set { IsSetOf result (length self.now.cores)
            (λ p. is_of app (holder_at self.now.cores p) && is_asked (holder_at self.now.cores p)) }
        ensures few { length self.now.cores ≤ set_size }
    {
        // reading a field opens what holds of the table: it has no more positions than the limit
        let _ = &self.free;
        self.asked.of(app)
    }

    /// The positions that are asked of any application.
    pub fn asked_of_any(&self) -> u128
        ensures set { IsSetOf result (length self.now.cores) (λ p. is_asked (holder_at self.now.cores p)) }
        ensures few { length self.now.cores ≤ set_size }
    {
        self.asked.any()
    }

    /// The position of the free core that an application takes next, or `None` where no core is free. Looks once at each
    /// socket. No look waits for where the last one found a core: only the comparison goes on from one to the next.
    pub fn next_free(&self, app: u16) -> Option<usize>
        requires { app < applications }
        ensures { MatchOption result (free_count self.now.cores ≡ 0)
            (λ position. (position < length self.now.cores)
            × (position ≡ next_core (socket_by_position self.now.machine) self.now.cores app)) }
    {
        // the best socket so far, and its rank: one more than the application owns there, or 0 where no core is free
        let mut best = 0;
        let mut most = 0;
        for socket in 0..MAX_SOCKETS {
            let owned = self.owned_on(app, socket as u8);
            let there = both(self.free, self.on_socket[socket]);
            let rank = if there == 0 { 0 } else { owned + 1 };
            if most < rank {
                best = socket;
                most = rank;
            }
        }
        first_position(both(self.free, self.on_socket[best]), 0)
    }

    /// The position that an application is asked for next, or `None` where all its cores are asked back. It is one of the
    /// socket where the application owns the fewest cores, and the last such. Looks once at each socket, as
    /// [`Cores::next_free`] does.
    pub fn next_to_ask(&self, app: u16) -> Option<usize>
        requires { app < applications }
        ensures { NextToAsk (socket_by_position self.now.machine) self.now.cores app (length self.now.cores) result }
    {
        let left = without(self.owned_by.of(app), self.asked.of(app));
        // the best socket so far, and its rank: how many cores the application owns there, and so many more where no core is left to
        // ask for. The first socket is always taken.
        let mut best = 0;
        let mut fewest = 2 * BEHIND;
        for socket in 0..MAX_SOCKETS {
            let there = both(left, self.on_socket[socket]);
            let behind = if there == 0 { BEHIND } else { 0 };
            let rank = u16::from(self.owned_on(app, socket as u8)) + behind;
            if rank <= fewest {
                best = socket;
                fewest = rank;
            }
        }
        last_position(both(left, self.on_socket[best]))
    }

    /// The core at a position is asked back of its holder since a moment, or not asked back. Looks at the positions that
    /// are asked alone.
    pub fn set_asked(&mut self, position: usize, holder: Holder, asked: Option<u64>)
        requires within { position < length self.old.cores }
        requires holder { holder_at self.old.cores position ≡ Some holder }
        ensures { self.new ≡ record self.old {
          cores = slice_set self.old.cores position (Some (record { thread = holder.thread; asked = asked }));
        } }
    {
        let thread = holder.thread;
        let owners = &mut self.owners;
        owners[position] = Some(Holder { thread, asked });
        self.asked.mark(position, thread, asked.is_some());
    }

    /// A free core is given to a thread; it isn't asked back.
    pub fn give(&mut self, position: usize, thread: u16)
        requires within { position < length self.old.cores }
        requires thread { thread < all_threads }
        requires free { holder_at self.old.cores position ≡ None }
        ensures { self.new ≡ record self.old {
          cores = slice_set self.old.cores position (Some (record { thread = thread; asked = None }));
        } }
    {
        let socket = self.topology.socket_of(position as u8);
        let owners = &mut self.owners;
        owners[position] = Some(Holder {
            thread,
            asked: None,
        });
        self.owned_by.mark(position, thread, true);
        self.free = put_position(self.free, position, false);
        self.counts.add_one(thread, socket);
    }

    /// The core that a thread is on becomes free. Only where it is asked back are the asked positions looked at.
    pub fn free_up(&mut self, position: usize, thread: u16, asked: bool)
        requires within { position < length self.old.cores }
        requires there { is_held_by thread (holder_at self.old.cores position) ≡ true }
        requires asked { is_asked (holder_at self.old.cores position) ≡ asked }
        ensures { self.new ≡ record self.old { cores = slice_set self.old.cores position None } }
    {
        let socket = self.topology.socket_of(position as u8);
        let owners = &mut self.owners;
        owners[position] = None;
        self.owned_by.mark(position, thread, false);
        self.free = put_position(self.free, position, true);
        self.counts.take_one(thread, socket);
        if asked {
            self.asked.mark(position, thread, false);
        }
    }
}
