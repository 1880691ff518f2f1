//! Laws of the definitions, each as a function that does nothing: its contract is the law.

ghost use Rattle.arb_script.specs.Script.{HasOneScript};
ghost use Rattle.arb_script.specs.Laws.{ReadsBack};

/// The lines of each text come to exactly one outcome: the script, or the first fault.
pub fn scripts_are_unique()
    ensures { HasOneScript }
{}

/// The text that is printed of an order of a client is read again as the same order of the same client.
pub fn orders_are_read_back()
    ensures { ReadsBack }
{}
