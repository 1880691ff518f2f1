//! Laws of the definitions, each as a function that does nothing: its contract is the law.

ghost use Rattle.arb_live.specs.Laws.{EndlessIsNeverFull, ReportsAsRun};

/// Of a text whose lines are a script, the live report is what [`run`](arb_script::run) reports up to the owner table.
pub fn reports_as_run()
    ensures { ReportsAsRun }
{}

/// Without a limit on orders, an order after fewer than 2^64 lines is answered by its reply, and never as full.
pub fn endless_is_never_full()
    ensures { EndlessIsNeverFull }
{}
