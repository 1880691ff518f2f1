//! The layout of the page words: which word says what, and how to read one.
//!
//! Every thread sees the arbiter by [`WORDS`] words of 64 bits:
//!
//! | Words | How many | Each says |
//! |---|---|---|
//! | 0 | 1 | how many orders were entered |
//! | from [`FIRST_RELEASE`] | [`HALVES`] for each of [`APPLICATIONS`] | which of its cores an application is asked to give back: in the word of a half, bit c for a position, as said below |
//! | from [`FIRST_PLACE`] | [`ALL_THREADS`] | where a thread is |
//!
//! A machine may have more positions than a word has bits. So an application has a release word for each [`Half`] of them.
//! In the word of the low half bit c is position c, and in that of the high half it is position [`HALF_SIZE`] + c.
//!
//! [`release_index`] gives the number of an application's release word for a half, [`place_index`] that of a thread's place
//! word. A place word has one of these values:
//!
//! | Value | The thread |
//! |---|---|
//! | [`UNMANAGED`] | is unmanaged: the ordinary scheduler has it |
//! | [`WAITING`] | waits for a core |
//! | [`MOVED`] | kept its core for the grace or longer since it was asked back, and lost it: it belongs on the unmanaged cores |
//! | [`FIRST_CORE`] + 2 * p | is on the core at position p |
//! | [`FIRST_CORE`] + 2 * p + 1 | is on the core at position p, which is asked back |
//!
//! A runtime that has loaded a place word reads it by [`place_in_word`]. To see only whether to give the core back,
//! [`asked_in_word`] is enough.

ghost use Rattle.std.specs.Prelude.{◌≡◌, ◌<◌};
ghost use Rattle.arb_share.specs.Limits.{applications};
ghost use Rattle.arb_config.specs.Limits.{max_managed};
ghost use Rattle.arb_model.specs.Limits.{all_threads};
ghost use Rattle.arb_model.specs.Layout.{core_word, half_number, half_of, place_index, release_index, word_count};
ghost use Rattle.arb_model.specs.Decoding.{asked_in_word, place_in_word, AsksAreDecoded, PlacesAreDecoded};

use crate::clients::{ALL_THREADS, ClientId};
use crate::orders::Place;
use arb_config::Topology;
use arb_share::APPLICATIONS;

/// How many halves the positions are shown in.
pub const HALVES: usize = 2;

/// How many positions a half has: a release word has a bit for each.
pub const HALF_SIZE: usize = 64;

/// A half of the positions of a machine: those that one release word shows.
#[derive(Clone, Copy, Debug, PartialEq, Eq, Hash)]
pub enum Half {
    /// The positions 0 to 63.
    Low,
    /// The positions 64 to 127.
    High,
}

impl Half {
    /// The number of the half: 0 for the low one, 1 for the high one.
    pub fn number(self) -> usize
        ensures { result ≡ half_number self }
    {
        match self {
            Half::Low => 0,
            Half::High => 1,
        }
    }
}

/// The half of a position.
pub fn half_at(position: usize) -> Half
    ensures { result ≡ half_of position }
{
    if position < HALF_SIZE {
        Half::Low
    } else {
        Half::High
    }
}

/// The number of the first release word. Word 0, before it, counts the orders.
pub const FIRST_RELEASE: usize = 1;

/// The number of the first place word.
pub const FIRST_PLACE: usize = FIRST_RELEASE + HALVES * APPLICATIONS;

/// How many page words there are.
pub const WORDS: usize = FIRST_PLACE + ALL_THREADS;

/// The place word of an unmanaged thread.
pub const UNMANAGED: u64 = 0;

/// The place word of a thread that waits.
pub const WAITING: u64 = 1;

/// The place word of a thread that was moved.
pub const MOVED: u64 = 2;

/// The least place word that names a core: the core at position 0, not asked back.
pub const FIRST_CORE: u64 = 4;

/// The number of the release word of an application, 0 to 15, for a half of the positions.
pub fn release_index(app: u8, half: Half) -> usize
    requires { app < applications }
    ensures value { result ≡ release_index app (half_number half) }
    ensures within { result < word_count }
{
    FIRST_RELEASE + HALVES * app as usize + half.number()
}

/// The number of a thread's place word. The client must be a thread, since the clock has no place word.
pub fn place_index(client: ClientId) -> usize
    requires { client < all_threads }
    ensures value { result ≡ place_index client }
    ensures within { result < word_count }
{
    FIRST_PLACE + client.index()
}

/// The place word of a thread on the core at a position, 0 to 127.
pub fn core_word(position: usize, asked: bool) -> u64
    requires { position < max_managed }
    ensures { result ≡ core_word position asked }
{
    FIRST_CORE + 2 * position as u64 + asked as u64
}

/// The place that a place word of the machine names, or `None` where no thread of the machine has that word.
pub fn place_in_word(topology: &Topology, word: u64) -> Option<Place>
    ensures { result ≡ place_in_word topology.now word }
{
    if word < FIRST_CORE {
        return match word {
            UNMANAGED => Some(Place::Unmanaged),
            WAITING => Some(Place::Waiting),
            MOVED => Some(Place::Moved),
            _ => None,
        };
    }
    let position = (word - FIRST_CORE) / 2;
    if position < topology.managed() as u64 {
        Some(Place::On {
            core: topology.core_at(position as u8),
            asked: (word - FIRST_CORE) % 2 == 1,
        })
    } else {
        None
    }
}

/// Whether the core that a place word names is asked back, or `None` where it names none.
pub fn asked_in_word(word: u64) -> Option<bool>
    ensures { result ≡ asked_in_word word }
{
    if word < FIRST_CORE {
        None
    } else {
        Some((word - FIRST_CORE) % 2 == 1)
    }
}

/// The laws of the layout: there are [`WORDS`] words, and reading a place word undoes writing it. The word that shows a
/// thread's place is read as that place, and as asked back exactly where its core is.
pub fn words_are_read_as_written()
    ensures count { WORDS ≡ word_count }
    ensures places { PlacesAreDecoded }
    ensures asks { AsksAreDecoded }
{}
