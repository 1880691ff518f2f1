//! How many cores each application owns on each socket.

ghost use Rattle.std.specs.Prelude.{◌≡◌, ◌<◌, ◌≤◌, ◌+◌, ◌*◌, ℕ};
ghost use Rattle.arb_config.specs.Limits.{max_sockets};
ghost use Rattle.arb_model.specs.Limits.{all_threads};
ghost use Rattle.arb_model.specs.Standing.{app_of};
ghost use Rattle.arb_seats.specs.CoreSets.{set_size};
ghost use Rattle.arb_seats.specs.SocketCounts.{HasOneMore, count_at};
ghost use Rattle.arb_share.specs.Limits.{applications};

use crate::holders::application_of;
use arb_config::MAX_SOCKETS;
use arb_model::APPLICATIONS;
use std::marker::Model;

/// How many counts there are.
const COUNTS: usize = APPLICATIONS * MAX_SOCKETS;

/// How many cores each application owns on each socket.
#[derive(Drop)]
pub struct SocketCounts {
    /// The counts of an application stand together, one for each socket.
    counts: [u8; COUNTS],
}

impl Model for SocketCounts {
    ghost use Rattle.std.specs.Prelude.{ℕ, List};

    ghost Value = { List ℕ };

    ghost view = { λ c. c.counts };
}

impl SocketCounts {
    /// Nobody owns a core.
    pub fn new() -> SocketCounts
        ensures { (app socket : ℕ) → count_at result app socket ≡ 0 }
    {
        SocketCounts {
            counts: [0; COUNTS],
        }
    }

    /// How many cores of a socket an application owns.
    pub fn of(&self, app: u16, socket: u8) -> u8
        requires app { app < applications }
        requires socket { socket < max_sockets }
        ensures { result ≡ count_at self.now app socket }
    {
        self.counts[index(app, socket)]
    }

    /// The application of a thread owns one more core of a socket.
    pub fn add_one(&mut self, thread: u16, socket: u8)
        requires thread { thread < all_threads }
        requires socket { socket < max_sockets }
        requires few { count_at self.old (app_of thread) socket ≤ set_size }
        ensures { HasOneMore (app_of thread) socket self.old self.new }
    {
        self.counts[index(application_of(thread), socket)] += 1;
    }

    /// The application of a thread owns one core less of a socket.
    pub fn take_one(&mut self, thread: u16, socket: u8)
        requires thread { thread < all_threads }
        requires socket { socket < max_sockets }
        requires some { 0 < count_at self.old (app_of thread) socket }
        ensures { HasOneMore (app_of thread) socket self.new self.old }
    {
        self.counts[index(application_of(thread), socket)] -= 1;
    }
}

/// Where the count of an application and a socket stands.
fn index(app: u16, socket: u8) -> usize
    ensures { result ≡ app * max_sockets + socket }
{
    app as usize * MAX_SOCKETS + socket as usize
}
