//! Clients, orders, places and replies as text, as scripts and reports write them.

ghost use Rattle.std.specs.Prelude.{◌∷◌, decimal};
ghost use Rattle.std.specs.Fmt.{WritesOnOk};
ghost use Rattle.std.specs.List.{flat_map};
ghost use Rattle.arb_share.specs.Text.{space};

use crate::clients::{ClientId, THREADS};
use crate::orders::{Order, Place, Refusal, Reply};
use arb_share::{LEVELS, Request};
use std::fmt;

impl fmt::Display for ClientId {
    ghost use Rattle.std.specs.Prelude.{Some};
    ghost use Rattle.arb_model.specs.Texts.{client_word};

    ghost output = { λ client. Some (client_word client) };

    fn fmt<W: fmt::Write>(&self, f: &mut fmt::Formatter<W>) -> fmt::Result {
        if self.is_clock() {
            return write!(f, "clock");
        }
        let number = self.index();
        write!(f, "{}.{}", number / THREADS, number % THREADS)
    }
}

/// Writes the entries of a request, a space before each.
fn write_entries<W: fmt::Write>(request: &Request, f: &mut fmt::Formatter<W>) -> fmt::Result
    ensures { WritesOnOk W.write_str_gives f.old result (flat_map (λ entry. space ∷ decimal entry) request.now) f.new }
{
    for level in 0..LEVELS as u8 {
        let entry = request.entry(level);
        write!(f, " {entry}")?;
    }
    Ok(())
}

impl fmt::Display for Order {
    ghost use Rattle.std.specs.Prelude.{Some};
    ghost use Rattle.arb_model.specs.Texts.{order_text};

    ghost output = { λ order. Some (order_text order) };

    fn fmt<W: fmt::Write>(&self, f: &mut fmt::Formatter<W>) -> fmt::Result {
        match self {
            Order::Join => write!(f, "join"),
            Order::Ask(request) => {
                write!(f, "ask")?;
                write_entries(request, f)
            }
            Order::Cap(cap) => write!(f, "cap {cap}"),
            Order::Block => write!(f, "block"),
            Order::Retire => write!(f, "retire"),
            Order::Leave => write!(f, "leave"),
            Order::Status => write!(f, "status"),
            Order::Tick(moment) => write!(f, "tick {moment}"),
        }
    }
}

impl fmt::Display for Place {
    ghost use Rattle.std.specs.Prelude.{Some};
    ghost use Rattle.arb_model.specs.Texts.{place_text};

    ghost output = { λ place. Some (place_text place) };

    fn fmt<W: fmt::Write>(&self, f: &mut fmt::Formatter<W>) -> fmt::Result {
        match self {
            Place::Unmanaged => write!(f, "unmanaged"),
            Place::Waiting => write!(f, "waiting"),
            Place::Moved => write!(f, "moved"),
            Place::On { core, asked: false } => write!(f, "core {core}"),
            Place::On { core, asked: true } => write!(f, "core {core} asked"),
        }
    }
}

impl fmt::Display for Refusal {
    ghost use Rattle.std.specs.Prelude.{Some};
    ghost use Rattle.arb_model.specs.Texts.{refusal_text};

    ghost output = { λ refusal. Some (refusal_text refusal) };

    fn fmt<W: fmt::Write>(&self, f: &mut fmt::Formatter<W>) -> fmt::Result {
        match self {
            Refusal::AlreadyJoined => write!(f, "1 already-joined"),
            Refusal::NotJoined => write!(f, "2 not-joined"),
            Refusal::AlreadyWaiting => write!(f, "4 already-waiting"),
            Refusal::ClockBack(clock) => write!(f, "5 clock-back {clock}"),
            Refusal::NotAThread => write!(f, "6 not-a-thread"),
            Refusal::CapTooLarge => write!(f, "7 cap-too-large"),
        }
    }
}

impl fmt::Display for Reply {
    ghost use Rattle.std.specs.Prelude.{Some};
    ghost use Rattle.arb_model.specs.Texts.{reply_text};

    ghost output = { λ reply. Some (reply_text reply) };

    fn fmt<W: fmt::Write>(&self, f: &mut fmt::Formatter<W>) -> fmt::Result {
        match self {
            Reply::Joined => write!(f, "joined"),
            Reply::Due(due) => write!(f, "due {due}"),
            Reply::Now(place) => write!(f, "now {place}"),
            Reply::Done => write!(f, "done"),
            Reply::Counts {
                due,
                owned,
                asked,
                waiting,
            } => write!(
                f,
                "counts due {due} owned {owned} asked {asked} waiting {waiting}"
            ),
            Reply::Moved(threads) => write!(f, "moved {threads}"),
            Reply::Refused(refusal) => write!(f, "refused {refusal}"),
        }
    }
}
