//! The sets of positions that are kept beside the cores of a machine.

ghost use Rattle.std.specs.Prelude.{◌≡◌, ◌==◌, ◌&&◌, ◌<◌, ◌≤◌, ℕ, Bool, nat_lt, not, slice_index, length};
ghost use Rattle.arb_config.specs.Machine.{cores_of, socket_by_position};
ghost use Rattle.arb_seats.specs.Bits.{has_bit};
ghost use Rattle.arb_seats.specs.CoreSets.{IsSetOf, set_size};
ghost use Rattle.arb_model.specs.Lists.{count_below};
ghost use Rattle.arb_config.specs.Limits.{max_sockets};

use crate::positions::{SET_SIZE, put_position};
use arb_config::{MAX_SOCKETS, Topology};

/// How many positions are in a set.
pub fn count(bits: u128) -> u8
    ensures { (n : ℕ) (passes : ℕ → Bool) → n ≤ set_size → IsSetOf bits n passes → result ≡ count_below passes n }
{
    bits.count_ones() as u8
}

/// The positions that are in the first set, and not in the second.
pub fn without(a: u128, b: u128) -> u128
    ensures { (p : ℕ) → p < set_size → has_bit result p ≡ (has_bit a p && not (has_bit b p)) }
{
    a & !b
}

/// The positions that are in both sets.
pub fn both(a: u128, b: u128) -> u128
    ensures { (p : ℕ) → has_bit result p ≡ (has_bit a p && has_bit b p) }
{
    a & b
}

/// The first so many positions.
pub fn below(size: u8) -> u128
    requires some { 1 ≤ size }
    requires few { size ≤ set_size }
    ensures { (p : ℕ) → p < set_size → has_bit result p ≡ nat_lt p size }
{
    u128::MAX >> (SET_SIZE - size as usize)
}

/// The positions of each socket.
pub fn positions_on_sockets(topology: &Topology) -> [u128; MAX_SOCKETS]
    ensures { (socket : ℕ) → socket < max_sockets
        → IsSetOf (slice_index result socket) (length (cores_of topology.now))
        (λ p. slice_index (socket_by_position topology.now) p == socket) }
{
    let mut on_socket = [0; MAX_SOCKETS];
    for position in 0..topology.managed() {
        let socket = topology.socket_of(position) as usize;
        on_socket[socket] = put_position(on_socket[socket], position as usize, true);
    }
    on_socket
}
