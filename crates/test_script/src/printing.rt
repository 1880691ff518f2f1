//! What is printed of replies and orders, and how much of it where a writer fails.

use arb_config::Topology;
use arb_core::{ClientId, Core, Order, Place, Refusal, Reply};
use arb_script::{WriteFault, print_entry, print_full, print_reply, print_table};
use arb_share::Watched;
use std::process::Abort;
use std::test::Fail;
use test_parts::{FREE_CORES, ShortWriter, TWO_SOCKETS, ask, thread};

/// Replies with their texts.
const REPLIES: &[(Reply, &str)] = &[
    (Reply::Joined, "joined"),
    (Reply::Due(4), "due 4"),
    (Reply::Due(128), "due 128"),
    (Reply::Now(Place::Unmanaged), "now unmanaged"),
    (Reply::Now(Place::Waiting), "now waiting"),
    (Reply::Now(Place::Moved), "now moved"),
    (
        Reply::Now(Place::On {
            core: 1,
            asked: false,
        }),
        "now core 1",
    ),
    (
        Reply::Now(Place::On {
            core: 1023,
            asked: true,
        }),
        "now core 1023 asked",
    ),
    (Reply::Done, "done"),
    (
        Reply::Counts {
            due: 2,
            owned: 4,
            asked: 0,
            waiting: 31,
        },
        "counts due 2 owned 4 asked 0 waiting 31",
    ),
    (Reply::Moved(2), "moved 2"),
];

/// Refusals with the texts of their replies.
const REFUSALS: &[(Refusal, &str)] = &[
    (Refusal::AlreadyJoined, "refused 1 already-joined"),
    (Refusal::NotJoined, "refused 2 not-joined"),
    (Refusal::AlreadyWaiting, "refused 4 already-waiting"),
    (Refusal::ClockBack(10_000), "refused 5 clock-back 10000"),
    (
        Refusal::ClockBack(u64::MAX),
        "refused 5 clock-back 18446744073709551615",
    ),
    (Refusal::NotAThread, "refused 6 not-a-thread"),
    (Refusal::CapTooLarge, "refused 7 cap-too-large"),
];

/// A reply is printed so.
fn prints<R: AllocGlobal + Abort>(rt: &R, reply: Reply, text: &str) {
    let mut sink = Watched::new(Vec::new(rt.alloc()));
    let answer = print_reply(&mut sink, &reply);
    let given = (answer, sink.inner.as_slice());
    assert_eq!(rt; given, (Ok(()), text.as_bytes()), "{text}");
}

#[test]
fn each_reply(rt: HostRuntime) {
    for (reply, text) in REPLIES {
        prints(&rt, *reply, text);
    }
    for (refusal, text) in REFUSALS {
        prints(&rt, Reply::Refused(*refusal), text);
    }
}

/// An order's line, also as one that is written in part.
const ASK_LINE: &str = "0.0 ask 2 0 0 0 0 0 0 0 -> due 2\n";

/// The lines of twelve orders.
const ENTRY_LINES: &[&str] = &[
    "0.0 join -> joined",
    "0.0 ask 2 0 0 0 0 0 0 0 -> due 2",
    "0.0 cap 2 -> due 2",
    "0.1 block -> now core 2",
    "15.31 retire -> done",
    "9.10 leave -> done",
    "clock tick 10000 -> moved 1",
    "1.0 status -> counts due 2 owned 2 asked 0 waiting 1",
    "0.0 cap 129 -> refused 7 cap-too-large",
    "clock cap 1 -> refused 6 not-a-thread",
    "0.0 status -> full",
    "2.3 ask 128 0 0 0 0 0 0 0 -> full",
];

/// Orders with their replies, and at last two that came after the limit, one line behind the other.
#[test]
fn each_order_with_its_reply(rt: HostRuntime) -> Result<(), Fail> {
    let clock = ClientId::clock();
    let on = Reply::Now(Place::On {
        core: 2,
        asked: false,
    });
    let counts = Reply::Counts {
        due: 2,
        owned: 2,
        asked: 0,
        waiting: 1,
    };
    let too_large = Reply::Refused(Refusal::CapTooLarge);
    let not_a_thread = Reply::Refused(Refusal::NotAThread);
    let [one, other] = [thread(0, 0), thread(1, 0)];
    let entries = [
        (one, Order::Join, Some(Reply::Joined)),
        (one, ask(2), Some(Reply::Due(2))),
        (one, Order::Cap(2), Some(Reply::Due(2))),
        (thread(0, 1), Order::Block, Some(on)),
        (thread(15, 31), Order::Retire, Some(Reply::Done)),
        (thread(9, 10), Order::Leave, Some(Reply::Done)),
        (clock, Order::Tick(10_000), Some(Reply::Moved(1))),
        (other, Order::Status, Some(counts)),
        (one, Order::Cap(129), Some(too_large)),
        (clock, Order::Cap(1), Some(not_a_thread)),
        (one, Order::Status, None),
        (thread(2, 3), ask(128), None),
    ];
    let mut sink = Watched::new(Vec::new(rt.alloc()));
    let mut want = String::new(rt.alloc());
    assert_eq!(rt; entries.len(), ENTRY_LINES.len());
    for (place, (client, order, reply)) in entries.into_iter().enumerate() {
        let answer = match reply {
            Some(reply) => print_entry(&mut sink, client, &order, &reply),
            None => print_full(&mut sink, client, &order),
        };
        assert_eq!(rt; answer, Ok(()));
        let line = ENTRY_LINES.get(place).copied().unwrap_or("");
        want.push_str(line)?;
        want.push_str("\n")?;
        assert_eq!(rt; sink.inner.as_slice(), want.as_str().as_bytes(), "{line}");
    }
    Ok(())
}

/// A printing that wrote a prefix of a text: so many of its bytes.
fn wrote_prefix<R: Abort>(
    rt: &R,
    answer: Result<(), WriteFault>,
    sink: &Watched<ShortWriter>,
    text: &str,
    room: usize,
) {
    let all = room == text.len();
    let want = if all { Ok(()) } else { Err(WriteFault) };
    let given = (answer, Some(sink.inner.taken.as_slice()));
    let prefix = text.as_bytes().get(..room);
    assert_eq!(rt; given, (want, prefix), "{room} bytes of {text}");
}

/// A writer that takes so many bytes in all and then fails, or takes none any more: a prefix was written of an order's
/// line, and of the table of who has each core.
#[test]
fn prefixes_are_written(rt: HostRuntime) -> Result<(), Fail> {
    let topology = Topology::from_text(rt.alloc(), TWO_SOCKETS)?;
    let core = Core::new(&topology);
    for fails in [false, true] {
        for room in 0..ASK_LINE.len() + 1 {
            let mut sink = Watched::new(ShortWriter::new(rt.alloc(), 3, room, fails));
            let answer = print_entry(&mut sink, thread(0, 0), &ask(2), &Reply::Due(2));
            wrote_prefix(&rt, answer, &sink, ASK_LINE, room);
        }
        for room in 0..FREE_CORES.len() + 1 {
            let mut sink = Watched::new(ShortWriter::new(rt.alloc(), 7, room, fails));
            let answer = print_table(&mut sink, &core, &topology);
            wrote_prefix(&rt, answer, &sink, FREE_CORES, room);
        }
    }
    Ok(())
}
