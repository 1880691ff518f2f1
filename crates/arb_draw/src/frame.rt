//! What is drawn of a standing.

ghost use Rattle.std.specs.Prelude.{◌≡◌, ◌+◌, ◌*◌, ◌<◌, ◌≤◌, ◌≢◌, ◌++◌, ◌∷◌, [], ℕ, Bool, filter, Some, None, length, map, slice_index, slice_index_or, sum};
ghost use Rattle.arrayvec.specs.ArrayVec.{array_vec_len};
ghost use Rattle.arb_share.specs.Limits.{applications};
ghost use Rattle.arb_config.specs.Machine.{cores_of};
ghost use Rattle.arb_model.specs.Arbiter.{IsArbiter};
ghost use Rattle.arb_model.specs.Standing.{cap_of, cut_at, holder_at, request_of};
ghost use Rattle.arb_draw.specs.Bars.{owner_in};
ghost use Rattle.arb_draw.specs.Frames.{all_amounts, amounts_of, apps_below, apps_of, cell_of, cells_of, frame_of, has_threads, thread_count};
ghost use Rattle.arb_draw.specs.Measures.{no_amounts};

use crate::cell::{Amounts, AppThreads, Cell};
use crate::part::Part;
use arb_config::{MAX_MANAGED, Topology};
use arb_core::Core;
use arb_model::{ClientId, Place, THREADS};
use arb_share::{APPLICATIONS, LEVELS, Request};
use arrayvec::ArrayVec;
use std::marker::Model;

/// What is drawn of a standing: who has each managed core, and what each application owns, is due and wants.
#[derive(Drop)]
pub struct Frame {
    /// Who has each managed core, by position.
    cells: ArrayVec<Option<Cell>, MAX_MANAGED>,
    /// Of each application.
    amounts: ArrayVec<Amounts, APPLICATIONS>,
    /// The latest moment, in microseconds.
    clock: u64,
}

impl Model for Frame {
    ghost use Rattle.arb_draw.specs.Frames.{Shown};

    ghost Value = { Shown };

    ghost view = { λ f. record { cells = f.cells.items; amounts = f.amounts.items; clock = f.clock } };
}

/// Whether a place is a core that is asked back.
fn is_asked_back(place: Place) -> bool
    ensures { (core : ℕ) (asked : Bool) → place ≡ Place.On core asked → result ≡ asked }
{
    match place {
        Place::On { asked, .. } => asked,
        _ => false,
    }
}

/// Who has the core at a position.
fn cell(core: &Core, topology: &Topology, position: u8) -> Option<Cell>
    requires made { core.now.machine ≡ topology.now }
    requires within { position < length (cores_of topology.now) }
    requires arbiter { IsArbiter core.now }
    ensures { result ≡ cell_of (holder_at core.now.standing.seats.cores position) }
{
    let Some(owner) = core.owner(topology.core_at(position)) else {
        return None;
    };
    Some(Cell {
        thread: owner.index() as u16,
        asked: is_asked_back(core.place(owner)),
    })
}

/// Who has each managed core, by position.
fn cells(core: &Core, topology: &Topology) -> ArrayVec<Option<Cell>, MAX_MANAGED>
    requires made { core.now.machine ≡ topology.now }
    requires arbiter { IsArbiter core.now }
    ensures { result.items ≡ cells_of topology.now core.now.standing }
{
    let mut cells = ArrayVec::new();
    for position in 0..topology.managed() {
        cells.push(cell(core, topology, position));
    }
    cells
}

/// How many cores a request wants, at all levels together.
fn total(request: &Request) -> u16
    ensures { result ≡ sum request.now }
{
    // its clause says what holds of every request
    let _first = request.entry(0);
    let mut total = 0;
    for level in 0..LEVELS as u8 {
        total += u16::from(request.entry(level));
    }
    total
}

/// How many cores an application wants, up to its cap.
fn wanted(core: &Core, app: u8) -> u16
    requires { app < applications }
    ensures { result ≡ (amounts_of core.now.machine core.now.standing app).wants }
{
    match core.request(app) {
        Some(request) => total(&request),
        None => 0,
    }
}

/// What an application owns, is due and wants, and how many of its threads wait.
fn amounts(core: &Core, app: u8) -> Amounts
    requires { app < applications }
    ensures { result ≡ amounts_of core.now.machine core.now.standing app }
{
    Amounts {
        owns: core.owned(app),
        due: core.due(app),
        wants: wanted(core, app),
        waits: core.waiting(app),
    }
}

/// What each application owns, is due and wants, and how many of its threads wait.
fn all_amounts(core: &Core) -> ArrayVec<Amounts, APPLICATIONS>
    ensures { result.items ≡ all_amounts core.now.machine core.now.standing }
{
    let mut all = ArrayVec::new();
    for app in 0..APPLICATIONS as u8 {
        all.push(amounts(core, app));
    }
    all
}

/// Of how many threads of an application an order was entered.
fn thread_count(core: &Core, app: u8) -> u8
    requires { app < applications }
    ensures { result ≡ thread_count core.now.standing app }
{
    let mut count = 0;
    for thread in 0..THREADS as u16 {
        let client = ClientId::of_thread(THREADS as u16 * u16::from(app) + thread);
        if core.count_of(client) > 0 {
            count += 1;
        }
    }
    count
}

/// Adds an application of which a thread gave an order.
fn keep(apps: &mut ArrayVec<AppThreads, APPLICATIONS>, entry: AppThreads)
    requires { array_vec_len apps.old < applications }
    ensures apps { apps.new.items ≡ apps.old.items ++ filter has_threads (entry ∷ []) }
    ensures count { array_vec_len apps.new ≤ array_vec_len apps.old + 1 }
{
    if entry.threads > 0 {
        apps.push(entry);
    }
}

/// The applications of which a thread gave an order.
pub(crate) fn apps(core: &Core) -> ArrayVec<AppThreads, APPLICATIONS>
    ensures { result.items ≡ apps_of core.now.standing }
{
    let mut apps = ArrayVec::new();
    for app in 0..APPLICATIONS as u8 {
        let threads = thread_count(core, app);
        keep(&mut apps, AppThreads { app, threads });
    }
    apps
}

impl Frame {
    /// What is drawn of an arbiter's standing. The arbiter must have been made of this topology.
    pub fn new(core: &Core, topology: &Topology) -> Frame
        requires { core.now.machine ≡ topology.now }
        ensures { result ≡ frame_of topology.now core.now.standing }
    {
        // its clause says what holds of every arbiter
        let _orders = core.orders();
        Frame {
            cells: cells(core, topology),
            amounts: all_amounts(core),
            clock: core.clock(),
        }
    }

    /// Who has the core at a position, or where `part` is [`Part::Asked`] who has it while it is asked back. Nobody has a
    /// core at a position that isn't managed.
    pub fn owner(&self, part: Part, position: u8) -> Option<u16>
        ensures { result ≡ owner_in part (slice_index_or self.now.cells position None) }
    {
        let cell = (*self.cells.as_slice().get(position as usize)?)?;
        match part {
            Part::Held => Some(cell.thread),
            Part::Asked => { if cell.asked { Some(cell.thread) } else { None } }
        }
    }

    /// What an application owns, is due and wants; nothing where the number isn't an application's.
    pub fn amounts(&self, app: u8) -> Amounts
        ensures { result ≡ slice_index_or self.now.amounts app no_amounts }
    {
        match self.amounts.as_slice().get(app as usize) {
            Some(amounts) => *amounts,
            None => Amounts::default(),
        }
    }

    /// The latest moment, in microseconds.
    pub fn clock(&self) -> u64
        ensures { result ≡ self.now.clock }
    {
        self.clock
    }
}
