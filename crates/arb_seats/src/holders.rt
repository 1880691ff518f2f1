//! Facts of a holder: its application, and whether it is overdue.

ghost use Rattle.std.specs.Prelude.{◌≡◌};
ghost use Rattle.arb_model.specs.Changes.{is_overdue};
ghost use Rattle.arb_model.specs.Standing.{app_of};

use arb_model::Holder;

/// How many threads an application has at most, as thread numbers are counted.
pub const THREADS: u16 = arb_model::THREADS as u16;

/// The application of a thread.
pub fn application_of(thread: u16) -> u16
    ensures { result ≡ app_of thread }
{
    thread / THREADS
}

/// Whether a thread has stayed on its core for the grace since the core was asked back, at a moment; both in
/// microseconds.
pub fn is_overdue(holder: Holder, grace: u64, moment: u64) -> bool
    ensures { result ≡ is_overdue grace moment holder }
{
    match holder.asked {
        None => false,
        Some(since) => grace <= moment.saturating_sub(since),
    }
}
