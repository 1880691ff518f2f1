//! What an application asks for.

ghost use Rattle.std.specs.Prelude.{◌≡◌, ◌<◌, ◌≤◌, ◌↔◌, length, slice_index, slice_set, All, EachIndex, IsOk, IfOk, IfErr, replicate};
ghost use Rattle.std.specs.Option.{SomeIff};
ghost use Rattle.arb_share.specs.Limits.{levels, max_entry};
ghost use Rattle.arb_share.specs.Request.{IsFirstAbove};
ghost use Rattle.arb_share.specs.Cut.{IsCut, cut_of};

use crate::limits::{LEVELS, MAX_ENTRY};
use std::error::Error;
use std::marker::Model;

/// How many cores an application wants at each of eight levels, of which level 0 is served first. Entry p counts the
/// cores wanted at level p, in addition to those at the levels before it. The default asks for no core.
#[derive(Clone, Copy, Debug, PartialEq, Eq, Hash)]
pub struct Request {
    entries: [u8; LEVELS],
}

impl Model for Request {
    ghost use Rattle.std.specs.Prelude.{List, ℕ, ◌≤◌, slice_index};
    ghost use Rattle.arb_share.specs.Limits.{max_entry};

    ghost Value = { List ℕ };

    ghost view = { λ r. r.entries };

    ghost invariant = { λ r. (level : ℕ) → slice_index r.entries level ≤ max_entry };

    ghost inverse = { λ entries. record { entries = entries } };
}

impl Default for Request {
    ghost is_default = { λ r. r ≡ replicate levels 0 };

    fn default() -> Request {
        Request {
            entries: [0; LEVELS],
        }
    }
}

/// An entry is above [`MAX_ENTRY`]: the first such entry, by its level and value.
#[derive(Clone, Copy, Debug, PartialEq, Eq)]
pub struct TooMany {
    /// The entry's level.
    pub level: u8,
    /// The entry.
    pub value: u8,
}

impl Error for TooMany {}

impl Request {
    /// The request with these entries.
    ///
    /// # Errors
    /// [`TooMany`] names the first entry that is above [`MAX_ENTRY`].
    pub fn new(entries: [u8; LEVELS]) -> Result<Request, TooMany>
        ensures accepted { IsOk result ↔ EachIndex entries (λ level. slice_index entries level ≤ max_entry) }
        ensures entries { IfOk result (λ request. request ≡ entries) }
        ensures first_above { IfErr result (λ fault. IsFirstAbove max_entry entries fault.level fault.value) }
    {
        for level in 0..LEVELS {
            let value = entries[level];
            if value > MAX_ENTRY {
                return Err(TooMany {
                    level: level as u8,
                    value,
                });
            }
        }
        Ok(Request { entries })
    }

    /// So many cores at one level, and none at the others. `None` where the level isn't below [`LEVELS`] or the number is
    /// above [`MAX_ENTRY`].
    ///
    /// ```
    /// assert_eq!(Request::at(2, 5), Request::new([0, 0, 5, 0, 0, 0, 0, 0]).ok());
    /// ```
    pub fn at(level: usize, cores: u8) -> Option<Request>
        ensures { SomeIff result ((level < levels) × (cores ≤ max_entry)) (slice_set (replicate levels 0) level cores) }
    {
        if level >= LEVELS || cores > MAX_ENTRY {
            return None;
        }
        let mut entries = [0; LEVELS];
        entries[level] = cores;
        Some(Request { entries })
    }

    /// How many cores are wanted at a level, in addition to those at the levels before it. The level is below [`LEVELS`].
    pub fn entry(&self, level: u8) -> u8
        requires { level < levels }
        ensures value { result ≡ slice_index self.now level }
        ensures within { result ≤ max_entry }

        // what holds of every request, for callers that keep one
        ensures one_each { length self.now ≡ levels }
        ensures limited { All (λ entry. entry ≤ max_entry) self.now }
    {
        self.entries[level as usize]
    }

    /// The request cut at a cap: at most `cap` of the cores that this one asks for, those of level 0 first. The level at
    /// which the cap is reached keeps what is left of it, and those after it keep none.
    ///
    /// ```
    /// let request = Request::new([1, 4, 0, 0, 0, 0, 0, 0])?;
    /// assert_eq!(Ok(request.cut(2)), Request::new([1, 1, 0, 0, 0, 0, 0, 0]));
    /// ```
    pub fn cut(self, cap: u8) -> Request
        ensures cut { IsCut cap self result }
        ensures named { result ≡ cut_of cap self }
    {
        let mut entries = [0; LEVELS];
        let mut left = cap;
        for level in 0..LEVELS {
            entries[level] = self.entries[level].min(left);
            left -= entries[level];
        }
        Request { entries }
    }
}
