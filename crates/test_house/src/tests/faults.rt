//! What the service's faults say.

use crate::tests::same::same;
use arb_house::{AuditFault, CallFault, CollectFault, OpenFault, PostFault, WaitFault};
use arb_model::{Place, Refusal};
use std::fmt::Display;
use std::process::Abort;
use std::test::*;
use test_parts::thread;

const POST: &[(PostFault, &str)] = &[
    (PostFault::Busy, "the queue is full"),
    (PostFault::TooManyOut, "as many orders are open as may be"),
    (PostFault::Full, "the limit on orders is reached"),
    (PostFault::Gone, "the server has ended"),
    (PostFault::Memory, "out of memory"),
];

const COLLECT: &[(CollectFault, &str)] = &[
    (CollectFault::NothingOut, "no order is open"),
    (CollectFault::Full, "the limit on orders is reached"),
    (CollectFault::Gone, "the server has ended"),
    (CollectFault::Stranger, "the answer is to another order"),
];

const GONE: CallFault = CallFault::Collect(CollectFault::Gone);

const CALL: &[(CallFault, &str)] = &[
    (
        CallFault::Post(PostFault::Full),
        "order not posted: the limit on orders is reached",
    ),
    (GONE, "no reply: the server has ended"),
];

const WAIT: &[(WaitFault, &str)] = &[
    (WaitFault::Call(GONE), "no reply: the server has ended"),
    (
        WaitFault::Refused(Refusal::NotJoined),
        "the order to block was refused",
    ),
    (WaitFault::Lost(Place::Moved), "the thread no longer waits"),
];

/// Each fault prints as its text.
fn say<R: AllocGlobal + Abort, F: Display + Copy>(
    rt: &R,
    faults: &[(F, &str)],
) -> Result<(), Fail> {
    for (fault, text) in faults {
        let said = format!(in rt.alloc(); "{fault}")?;
        same(rt, "text", said.as_str(), *text);
    }
    Ok(())
}

#[test]
fn faults_as_texts(rt: HostRuntime) -> Result<(), Fail> {
    let id = thread(0, 0);
    let open = [
        (OpenFault::Twice(id), "a client is named twice"),
        (OpenFault::Memory, "out of memory"),
    ];
    let audit = [
        (AuditFault::Early, "the server or a client ended early"),
        (AuditFault::Missing(id), "a client left no past"),
        (AuditFault::Twice(id), "a client left more than one past"),
        (
            AuditFault::Differs(id),
            "a client's entries aren't what it was answered",
        ),
    ];
    say(&rt, POST)?;
    say(&rt, COLLECT)?;
    say(&rt, CALL)?;
    say(&rt, WAIT)?;
    say(&rt, &open)?;
    say(&rt, &audit)
}
