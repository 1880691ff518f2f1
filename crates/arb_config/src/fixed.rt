//! Lists that stand in their owner, with no memory of their own.

ghost use Rattle.std.specs.Prelude.{◌≡◌, ◌≤◌, length, map};
ghost use Rattle.std.specs.List.{All};
ghost use Rattle.arb_config.specs.Limits.{max_managed, max_sockets};

use crate::limits::{MAX_MANAGED, MAX_SOCKETS};
use arrayvec::ArrayVec;
use std::convert::AsSlice;

/// A list of at most `N` elements.
pub fn fixed<T: Copy + Default, const N: usize>(list: &[T]) -> ArrayVec<T, N>
    requires { length list.now ≤ N }
    ensures { result.items ≡ list.now }
{
    ArrayVec::try_from(list).unwrap()
}

/// The lists of managed cores of all sockets.
pub fn fixed_lists<L: AsSlice<u16>>(
    lists: &[L],
) -> ArrayVec<ArrayVec<u16, MAX_MANAGED>, MAX_SOCKETS>
    requires few { length lists.now ≤ max_sockets }
    requires short { All (λ list. length (L.items list) ≤ max_managed) lists.now }
    ensures { map (λ list. list.items) result.items ≡ map L.items lists.now }
{
    let mut fixed_lists = ArrayVec::new();
    for list in lists {
        fixed_lists.push(fixed(list.as_slice()));
    }
    fixed_lists
}
