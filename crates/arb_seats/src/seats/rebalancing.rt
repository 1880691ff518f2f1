//! The asks and the grants that follow a change of the seats or of the requests.

ghost use Rattle.std.specs.Prelude.{◌≡◌, ℕ, ◌+◌, ◌*◌, ◌-◌, ◌<◌, ◌==◌, MatchOption, None, Some, map, min, slice_index};
ghost use Rattle.std.specs.List.{range_with_len};
ghost use Rattle.arb_config.specs.Machine.{socket_by_position};
ghost use Rattle.arb_model.specs.Standing.{asked_count, free_count, owned, waiting_count};
ghost use Rattle.arb_seats.specs.Asking.{asked_app};
ghost use Rattle.arb_model.specs.Asks.{after_asks};
ghost use Rattle.arb_model.specs.Grants.{after_grants, granted, need_of};
ghost use Rattle.arb_share.specs.Limits.{applications};

use crate::asks::next_to_spare;
use crate::bits::{differing, first_place, put};
use crate::seats::Seating;
use arb_model::layout::FIRST_PLACE;
use arb_model::{APPLICATIONS, Holder};
use arb_share::even;

/// The first application that may have more cores, if any may. It looks at all at once.
fn first_in_need(needs: &[u8; APPLICATIONS]) -> Option<usize>
    ensures { MatchOption result ((app : ℕ) → slice_index needs.now app ≡ 0)
        (λ first. (first < applications)
        × ((0 < slice_index needs.now first) × ((app : ℕ) → app < first → slice_index needs.now app ≡ 0))) }
{
    first_place(differing(needs, &[0; APPLICATIONS]))
}

impl Seating {
    /// How many more cores an application may have now.
    fn need(&self, app: u16, due: u8) -> u8
        requires { app < applications }
        ensures { result ≡ min (due - owned app self.now.seats.cores) (waiting_count app self.now.seats.waiting) }
    {
        let below = due.saturating_sub(self.cores.owned(app));
        below.min(self.waiting.count_of(app))
    }

    /// How many more cores each application may have now.
    fn needs(&self, due: &[u8; APPLICATIONS]) -> [u8; APPLICATIONS]
        ensures { result ≡ map (need_of self.now.seats due.now) (range_with_len 0 applications) }
    {
        let mut needs = [0; APPLICATIONS];
        for app in 0..APPLICATIONS {
            needs[app] = self.need(app as u16, due[app]);
        }
        needs
    }

    /// Gives the next free core to the longest waiting thread of an application.
    fn grant(&mut self, app: u16)
        requires is_application { app < applications }
        requires some_free { 0 < free_count self.old.seats.cores }
        requires some_waiting { 0 < waiting_count app self.old.seats.waiting }
        ensures { self.new ≡ record self.old {
          seats = granted (socket_by_position self.old.machine) app self.old.seats;
        } }
    {
        if let Some(position) = self.cores.next_free(app) {
            let thread = self.waiting.take_first(app);
            self.cores.give(position, thread);
            self.table.set(
                FIRST_PLACE + thread as usize,
                self.cores.place_word(position, false),
            );
        }
    }

    /// Gives the free cores to the applications that may have more. A single one goes to the first of these: most blocks and
    /// retirements free one.
    fn grant_all(&mut self, due: &[u8; APPLICATIONS])
        ensures { self.new ≡ record self.old {
          seats = after_grants (socket_by_position self.old.machine) due.now self.old.seats;
        } }
    {
        if !self.cores.has_free() {
            return;
        }
        let needs = self.needs(due);
        let Some(first) = first_in_need(&needs) else {
            return;
        };
        let free = self.cores.free_count();
        if free == 1 {
            self.grant(first as u16);
            return;
        }
        let grants = even(&needs, free);
        'apps: for app in 0..APPLICATIONS {
            'times: for _time in 0..grants[app] {
                self.grant(app as u16);
            }
        }
    }

    /// The next of an application's cores is asked back.
    fn ask_next(&mut self, app: u16, clock: u64)
        requires is_application { app < applications }
        requires some_unasked { asked_count app self.old.seats.cores < owned app self.old.seats.cores }
        ensures rest { self.new ≡ record self.old {
          seats = record self.old.seats { cores = self.new.seats.cores };
        } }
        ensures owners { owned app self.new.seats.cores ≡ owned app self.old.seats.cores }
        ensures one_more { asked_count app self.new.seats.cores ≡ asked_count app self.old.seats.cores + 1 }
        ensures leads_on { (due : ℕ)
            → asked_count app self.old.seats.cores < owned app self.old.seats.cores - due
            → asked_app (socket_by_position self.old.machine) app due clock self.old.seats.cores
            ≡ asked_app (socket_by_position self.old.machine) app due clock self.new.seats.cores }
    {
        if let Some(position) = self.cores.next_to_ask(app) {
            if let Some(holder) = self.cores.holder(position) {
                self.mark(position, holder, Some(clock));
            }
        }
    }

    /// The next of an application's cores is asked no longer.
    fn spare_next(&mut self, app: u16)
        requires is_application { app < applications }
        requires some_asked { 0 < asked_count app self.old.seats.cores }
        ensures rest { self.new ≡ record self.old {
          seats = record self.old.seats { cores = self.new.seats.cores };
        } }
        ensures owners { owned app self.new.seats.cores ≡ owned app self.old.seats.cores }
        ensures one_fewer { asked_count app self.new.seats.cores + 1 ≡ asked_count app self.old.seats.cores }
        ensures leads_on { (due clock : ℕ)
            → owned app self.old.seats.cores - due < asked_count app self.old.seats.cores
            → asked_app (socket_by_position self.old.machine) app due clock self.old.seats.cores
            ≡ asked_app (socket_by_position self.old.machine) app due clock self.new.seats.cores }
    {
        if let Some(position) = next_to_spare(&self.cores, app) {
            if let Some(holder) = self.cores.holder(position) {
                self.mark(position, holder, None);
            }
        }
    }

    /// As many cores are asked back from an application as it owns above its due number.
    fn ask_app(&mut self, app: u16, due: u8, clock: u64)
        requires { app < applications }
        ensures { self.new ≡ record self.old {
          seats = record self.old.seats {
            cores = asked_app (socket_by_position self.old.machine) app due clock self.old.seats.cores;
          };
        } }
    {
        let over = self.cores.owned(app).saturating_sub(due);
        let mut asked = self.cores.asked_count(app);
        while asked < over {
            self.ask_next(app, clock);
            asked += 1;
        }
        while over < asked {
            self.spare_next(app);
            asked -= 1;
        }
    }

    /// Asks cores back from the applications that own more than is due. A core that was asked keeps its moment, a
    /// newly asked one has the clock's, and the others are not asked. Of most applications as many are asked as before: it goes
    /// over the others alone.
    fn ask_back(&mut self, due: &[u8; APPLICATIONS], clock: u64)
        ensures { self.new ≡ record self.old {
          seats = after_asks (socket_by_position self.old.machine) due.now clock self.old.seats;
        } }
    {
        // reading a field opens what holds of the seats: whoever is on a core is a thread
        let _ = &self.waiting;
        let mut uneven = self.cores.uneven(due);
        let mut next = first_place(uneven);
        while let Some(app) = next {
            self.ask_app(app as u16, due[app], clock);
            uneven = put(uneven, app, false);
            next = first_place(uneven);
        }
    }

    /// The asks and the grants that follow a change.
    pub fn rebalance(&mut self, due: &[u8; APPLICATIONS], clock: u64)
        ensures { self.new ≡ record self.old {
          seats = after_grants (socket_by_position self.old.machine) due.now
              (after_asks (socket_by_position self.old.machine) due.now clock self.old.seats);
        } }
    {
        self.ask_back(due, clock);
        self.grant_all(due);
    }
}
