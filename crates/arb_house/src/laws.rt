//! Laws of the definitions, each as a function that does nothing: its contract is the law.

ghost use Rattle.arb_house.specs.Auditing.{HasOneOutcome};

/// Whatever is audited comes to exactly one outcome: all agree, or there is one first fault.
pub fn outcomes_are_unique()
    ensures { HasOneOutcome }
{}
