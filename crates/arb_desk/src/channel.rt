//! A channel from one thread to another, without a lock.
//!
//! It promises nothing of what comes through: a fact that each message has to meet is kept in the message's type.

ghost use Rattle.std.specs.Prelude.{◌≡◌, ◌<◌, IfOk};

use crossbeam_channel::protocol::{Free, Split};
use crossbeam_channel::{Pass, RuledReceiver, RuledSender, TryRecvError, bounded_with};
use std::alloc::{AllocError, Global};
use std::hint;
use std::marker::Model;
use std::sync::Wait;

/// How often a receiver looks, with a pause between two looks, before the channel's own wait begins, which looks ever less often
/// and then sleeps: a microsecond or so in all. So it is at first, and after a wait that looked in vain: where threads share
/// a processor, a receiver that looks keeps the sender from it.
const FEW_LOOKS: u32 = 20;

/// How many looks more the next wait makes where a message came between two looks. To wake a receiver takes a server longer than
/// all else that it does for an order. One that found its answers by looking so waits for them where others have to be woken first.
const MORE_LOOKS: u32 = 15;

/// How many waits end so before one makes the next one longer. Who waits for a few dozen messages only sleeps now and then, and
/// so do the others that do: few are through before the others have begun.
const EARLY_WAITS: u32 = 20;

/// The most looks of a wait: some sixty microseconds in all, in which a server wakes some twenty others.
const MOST_LOOKS: u32 = 1000;

/// The end that sends. Contracts see how many messages its channel holds at most.
#[derive(Drop)]
pub struct Sender<T: Drop> {
    end: RuledSender<T, (), Free>,
    pass: Pass<T, ()>,
}

impl<T: Drop> Model for Sender<T> {
    ghost use Rattle.std.specs.Prelude.{ℕ};
    ghost use Rattle.crossbeam_channel.specs.Claims.{IsSeatAt};
    ghost use Rattle.crossbeam_channel.specs.Ends.{ruled_capacity, sends_on};

    ghost Value = { ℕ };

    ghost view = { λ s. ruled_capacity (sends_on s.end) };

    ghost invariant = { λ s. IsSeatAt (sends_on s.end) s.pass };
}

/// The end that receives. Contracts see nothing of it.
#[derive(Drop)]
pub struct Receiver<T: Drop> {
    end: RuledReceiver<T, (), Free>,
    pass: Pass<T, ()>,
    /// How often the next wait looks.
    looks: u32,
    /// How many waits are yet to end between two looks before one makes the next one longer.
    early: u32,
}

impl<T: Drop> Model for Receiver<T> {
    ghost use Rattle.std.specs.Prelude.{⊤};
    ghost use Rattle.crossbeam_channel.specs.Claims.{IsSeatAt};
    ghost use Rattle.crossbeam_channel.specs.Ends.{receives_on};

    ghost Value = { ⊤ };

    ghost view = { λ _. tt };

    ghost invariant = { λ r. IsSeatAt (receives_on r.end) r.pass };
}

/// The pass of the other end: neither knows anything.
struct Alike;

impl Split<()> for Alike {
    ghost left = { λ _. tt };

    ghost right = { λ _. tt };
}

/// A channel that holds at most so many messages. All memory that it needs is taken here.
///
/// # Errors
/// [`AllocError`] where an allocation failed.
pub fn open_channel<T: Drop>(
    alloc: Global,
    places: usize,
) -> Result<(Sender<T>, Receiver<T>), AllocError>
    requires { 0 < places }
    ensures places { IfOk result (λ ends. ends.0 ≡ places) }
{
    let (to, from, mut first) = bounded_with::<T, (), Free, Global>(alloc, places)?;
    let second = to.another::<Alike>(&mut first);
    Ok((
        Sender {
            end: to,
            pass: first,
        },
        Receiver {
            end: from,
            pass: second,
            looks: FEW_LOOKS,
            early: EARLY_WAITS,
        },
    ))
}

impl<T: Drop> Sender<T> {
    /// Sends a message. It waits while the channel is full. It answers whether it was sent: where the receiver is gone the
    /// message is dropped.
    pub fn send<R: Wait>(&mut self, rt: &R, message: T) -> bool
        ensures same { self.new ≡ self.old }
    {
        let sent = self.end.send_as::<Free, R>(rt, &mut self.pass, message);
        sent.is_ok()
    }
}

impl<T: Drop> Receiver<T> {
    /// Receives the oldest message. It waits while there is none: it looks for some microseconds, at most some sixty, and
    /// then sleeps. While the sender is in the middle of a send, it looks on. It answers `None` where there is none and the sender is gone.
    pub fn recv<R: Wait>(&mut self, rt: &R) -> Option<T> {
        for look in 0..self.looks {
            match self.end.try_recv_as::<Free, R>(rt, &mut self.pass) {
                Ok(message) => {
                    // one that was there at once doesn't tell whether looking is of use
                    if look > 0 && self.early > 0 {
                        self.early -= 1;
                    } else if look > 0 {
                        self.looks = self.looks.saturating_add(MORE_LOOKS).min(MOST_LOOKS);
                    }
                    return Some(message);
                }
                Err(TryRecvError::Disconnected) => return None,
                Err(TryRecvError::Empty) => hint::spin_loop(),
            }
        }
        self.looks = FEW_LOOKS;
        self.end.recv_as::<Free, R>(rt, &mut self.pass).ok()
    }
}
