//! Sets of positions: numbers of 128 bits, with a bit for each position.

ghost use Rattle.std.specs.Prelude.{◌≡◌, ◌==◌, ◌*◌, ◌/◌, ◌%◌, ◌^◌, ◌<◌, ◌≤◌, ℕ, MatchOption, false, true, if◌then◌else◌};
ghost use Rattle.arb_model.specs.Layout.{half_number, half_size};
ghost use Rattle.arb_seats.specs.Bits.{has_bit};
ghost use Rattle.arb_seats.specs.CoreSets.{set_size};

use arb_model::layout::{HALF_SIZE, Half};

/// How many positions a set has.
pub const SET_SIZE: usize = 128;

/// The word of a half: bit c for the half's position of place c.
pub fn word_of(set: u128, half: Half) -> u64
    ensures { result ≡ set / 2 ^ (half_size * half_number half) % 2 ^ half_size }
{
    match half {
        Half::Low => (set & u64::MAX as u128) as u64,
        Half::High => (set >> HALF_SIZE) as u64,
    }
}

/// The set with a position put in, or taken out where it is not to be on. It has no branch, which a processor would often guess
/// wrong.
pub fn put_position(set: u128, position: usize, on: bool) -> u128
    requires { position < set_size }
    ensures { (p : ℕ) → p < set_size → has_bit result p ≡ (if p == position then on else has_bit set p) }
{
    let bit = (on as u128) << position;
    set & !(1u128 << position) | bit
}

/// The set without its first position, or the empty set again. Nothing is shifted by the position, so that the next turn of a loop
/// doesn't wait for it.
pub fn without_first(set: u128) -> u128
    ensures { (q : ℕ) → has_bit set q ≡ true → ((p : ℕ) → p < q → has_bit set p ≡ false)
        → (p : ℕ) → has_bit result p ≡ (if p == q then false else has_bit set p) }
{
    set & set.wrapping_sub(1)
}

/// The last position of a set.
pub fn last_position(set: u128) -> Option<usize>
    ensures { MatchOption result ((p : ℕ) → p < set_size → has_bit set p ≡ false)
        (λ q. (q < set_size) × ((has_bit set q ≡ true) × ((p : ℕ) → q < p → p < set_size → has_bit set p ≡ false))) }
{
    if set == 0 {
        return None;
    }
    Some(SET_SIZE - 1 - set.leading_zeros() as usize)
}

/// The first position of a set, from one on.
pub fn first_position(set: u128, from: usize) -> Option<usize>
    requires { from ≤ set_size }
    ensures { MatchOption result ((p : ℕ) → from ≤ p → p < set_size → has_bit set p ≡ false)
        (λ q. (from ≤ q)
        × ((q < set_size)
        × ((has_bit set q ≡ true) × ((p : ℕ) → from ≤ p → p < q → has_bit set p ≡ false)))) }
{
    if from == SET_SIZE {
        return None;
    }
    let rest = set >> from;
    if rest == 0 {
        return None;
    }
    Some(from + rest.trailing_zeros() as usize)
}
