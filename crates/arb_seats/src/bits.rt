//! Words as sets of places, with a bit for each place.

ghost use Rattle.std.specs.Prelude.{◌≡◌, ◌==◌, ◌&&◌, ◌<◌, ℕ, MatchOption, false, true, if◌then◌else◌, nat_lt, not, slice_index};
ghost use Rattle.arb_seats.specs.Bits.{has_bit, word_size};
ghost use Rattle.arb_share.specs.Limits.{applications};

use arb_model::APPLICATIONS;
use std::simd::prelude::*;

/// How many places a word has.
pub const WORD_SIZE: usize = 64;

/// The word with the bit of a place set, or cleared where it is not to be on. It has no branch, which a processor would often
/// guess wrong.
pub fn put(bits: u64, place: usize, on: bool) -> u64
    requires { place < word_size }
    ensures { (p : ℕ) → p < word_size → has_bit result p ≡ (if p == place then on else has_bit bits p) }
{
    let bit = (on as u64) << place;
    bits & !(1u64 << place) | bit
}

/// The first place whose bit is set.
pub fn first_place(bits: u64) -> Option<usize>
    ensures { MatchOption result ((p : ℕ) → has_bit bits p ≡ false)
        (λ q. (q < word_size) × ((has_bit bits q ≡ true) × ((p : ℕ) → p < q → has_bit bits p ≡ false))) }
{
    if bits == 0 {
        return None;
    }
    Some(bits.trailing_zeros() as usize)
}

/// The applications for which two rows differ, a bit for each. All are compared at once.
pub fn differing(a: &[u8; APPLICATIONS], b: &[u8; APPLICATIONS]) -> u64
    ensures { (app : ℕ) → has_bit result app
        ≡ (nat_lt app applications && not (slice_index a.now app == slice_index b.now app)) }
{
    u8x16::from_array(*a)
        .simd_ne(u8x16::from_array(*b))
        .to_bitmask()
}
