//! What sixteen applications want at each level.

ghost use Rattle.std.specs.Prelude.{◌≡◌, ◌+◌, ◌<◌, ◌≤◌, ℕ, List, None, Option, replicate, slice_index, slice_set};
ghost use Rattle.arb_share.specs.Limits.{applications, levels};
ghost use Rattle.arb_share.specs.Demands.{AreDemands};
ghost use Rattle.arb_share.specs.Due.{Entries, add_rows, due_of, entry_at};

use crate::division::{deal, wanted};
use crate::limits::{APPLICATIONS, LEVELS};
use crate::request::Request;
use std::marker::Model;

/// What each application wants at each level. It is kept by level, so that the division of a level reads one row. It
/// gives what [`due`](crate::due) gives, for a caller that changes one request at a time.
#[derive(Drop)]
pub struct Demands {
    rows: [[u8; APPLICATIONS]; LEVELS],
}

impl Model for Demands {
    ghost use Rattle.std.specs.Prelude.{List, ℕ};

    ghost Value = { List (List ℕ) };

    ghost view = { λ d. d.rows };
}

/// What an application wants at a level: nothing where it has no request.
fn entry_of(request: &Option<Request>, level: u8) -> u8
    requires { level < levels }
    ensures { result ≡ entry_at level request.now }
{
    match request {
        Some(request) => request.entry(level),
        None => 0,
    }
}

/// Adds a level's shares to what is due so far.
fn add(due: &mut [u8; APPLICATIONS], shares: &[u8; APPLICATIONS])
    requires { (app : ℕ) → slice_index due.old app + slice_index shares.now app ≤ u8.MAX }
    ensures { due.new ≡ add_rows due.old shares.now }
{
    for app in 0..APPLICATIONS {
        due[app] += shares[app];
    }
}

impl Demands {
    /// No application has a request.
    pub fn new() -> Demands
        ensures { AreDemands result (replicate applications None) }
    {
        Demands {
            rows: [[0; APPLICATIONS]; LEVELS],
        }
    }

    /// The request of an application, 0 to 15, becomes another, or none.
    pub fn set(&mut self, app: usize, request: &Option<Request>)
        requires { app < applications }
        ensures { (requests : List (Option Entries)) → AreDemands self.old requests
            → AreDemands self.new (slice_set requests app request.now) }
    {
        for level in 0..LEVELS {
            self.rows[level][app] = entry_of(request, level as u8);
        }
    }

    /// The cores due to each application on a machine with `managed` cores: see [`due`](crate::due).
    pub fn due(&self, managed: u8) -> [u8; APPLICATIONS]
        ensures { (requests : List (Option Entries)) → AreDemands self.now requests → result ≡ due_of requests managed }
    {
        let mut due = [0; APPLICATIONS];
        let mut left = managed;
        for level in 0..LEVELS {
            if left == 0 {
                return due;
            }
            let demands = &self.rows[level];
            let all = wanted(demands);
            if u16::from(left) < all {
                add(&mut due, &deal(demands, left));
                return due;
            }
            add(&mut due, demands);
            left -= all as u8;
        }
        due
    }
}
