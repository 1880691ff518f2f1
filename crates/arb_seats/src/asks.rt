//! Which of an application's asked cores is the next to be asked no longer.

ghost use Rattle.std.specs.Prelude.{◌≡◌, ◌+◌, ◌<◌, ◌&&◌, length, true};
ghost use Rattle.arb_model.specs.Standing.{holder_at, is_asked, is_of};
ghost use Rattle.arb_seats.specs.Asking.{NextToSpare, moment_of};
ghost use Rattle.arb_share.specs.Limits.{applications};

use crate::core_table::Cores;
use crate::positions::{first_position, without_first};
use arb_model::Holder;

/// Since when a core is asked back, and 0 where it isn't.
fn moment_of(core: Option<Holder>) -> u64
    ensures { result ≡ moment_of core }
{
    match core {
        Some(holder) => holder.asked.unwrap_or(0),
        None => 0,
    }
}

/// The next to spare of the cores up to this one, from the next of those before it.
fn better_to_spare(cores: &Cores, app: u16, next: Option<usize>, position: usize) -> Option<usize>
    requires in_range { position < length cores.now.cores }
    requires asked { (is_of app (holder_at cores.now.cores position) && is_asked (holder_at cores.now.cores position))
        ≡ true }
    requires so_far { NextToSpare cores.now.cores app position next }
    ensures { NextToSpare cores.now.cores app (position + 1) result }
{
    if let Some(other) = next {
        if moment_of(cores.holder(position)) < moment_of(cores.holder(other)) {
            return next;
        }
    }
    Some(position)
}

/// The core that an application is asked for no longer next: the one asked last, and of those asked at one moment the
/// one of the largest position.
pub fn next_to_spare(cores: &Cores, app: u16) -> Option<usize>
    requires { app < applications }
    ensures { NextToSpare cores.now.cores app (length cores.now.cores) result }
{
    let mut next: Option<usize> = None;
    let mut rest = cores.asked_of(app);
    let mut at = first_position(rest, 0);
    while let Some(position) = at {
        next = better_to_spare(cores, app, next, position);
        rest = without_first(rest);
        at = first_position(rest, 0);
    }
    next
}
