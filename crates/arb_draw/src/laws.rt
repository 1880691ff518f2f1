//! What is proved of the bars of a run. Each function here is one that does nothing: its contract is the law.

ghost use Rattle.arb_draw.specs.Laws.{BarsAreLongest, BarsAreOwners};

/// The bars of a run are who has which core after each drawn order, and where it is asked back.
pub fn bars_are_owners()
    ensures { BarsAreOwners }
{}

/// Each bar is as long as it can be.
pub fn bars_are_longest()
    ensures { BarsAreLongest }
{}
