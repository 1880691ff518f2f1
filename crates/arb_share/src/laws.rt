//! Laws of the definitions, each as a function that does nothing: its contract is the law.

ghost use Rattle.std.specs.Prelude.{◌≡◌, ℕ, List, length};
ghost use Rattle.arb_share.specs.Cut.{IsCut, HasOneCut, cut_of};
ghost use Rattle.arb_share.specs.Division.{DividesEvenly, HasOneDivision, even_of};
ghost use Rattle.arb_share.specs.Limits.{levels};
ghost use Rattle.arb_share.specs.Rows.{HasOneReading};

/// Every supply has exactly one even division over every row of demands, and `even_of` is its name.
pub fn division_is_unique()
    ensures one { HasOneDivision }
    ensures named { (demands : List ℕ) (supply : ℕ) → DividesEvenly demands supply (even_of demands supply) }
{}

/// Every request has exactly one cut at every cap, and `cut_of` is its name.
pub fn cut_is_unique()
    ensures one { HasOneCut }
    ensures named { (cap : ℕ) (full : List ℕ) → length full ≡ levels → IsCut cap full (cut_of cap full) }
{}

/// The lines of each text come to exactly one outcome: the requests, or the first fault.
pub fn rows_are_unique()
    ensures { HasOneReading }
{}
