//! The picture of the sample, worked out by hand from its report, and the bars of one thread.

ghost use Rattle.std.specs.Prelude.{◌≡◌};

use crate::tests::marks::{Mark, marks};
use arb_config::Topology;
use arb_core::{Core, Order};
use arb_draw::{Bar, Choice, Frame, ManagedCore, Part, Scale, bars, draw};
use arb_share::Watched;
use std::alloc::AllocError;
use std::process::Abort;
use std::test::Fail;
use test_parts::{THREE_APPLICATIONS, TWO_SOCKETS, ask, thread};

/// Bars and their asked parts: the class, the core and the thread, from where up to where among all orders, and among the
/// orders 9 to 12.
const BARS: &[(&str, &str, &str, (u64, u64), Option<(u64, u64)>)] = &[
    ("bar", "1", "0.0", (3, 17), Some((9, 13))),
    ("bar", "2", "0.1", (4, 17), Some((9, 13))),
    ("bar", "3", "1.0", (7, 14), Some((9, 13))),
    ("bar", "3", "2.0", (14, 17), None),
    ("asked", "3", "1.0", (12, 14), Some((12, 13))),
    ("bar", "5", "1.1", (8, 17), Some((9, 13))),
    ("bar", "6", "1.2", (9, 17), Some((9, 13))),
    ("bar", "7", "1.3", (10, 15), Some((10, 13))),
    ("asked", "7", "1.3", (12, 15), Some((12, 13))),
];

/// The picture of some orders of the sample has these bars, by orders and by time.
fn has_bars<R: AllocGlobal + Abort>(
    rt: &R,
    topology: &Topology,
    from: Option<u32>,
    to: Option<u32>,
    bars: &[Mark<'_>],
) -> Result<(), AllocError> {
    for scale in [Scale::Orders, Scale::Time] {
        let choice = Choice { from, to, scale };
        let mut source = Watched::new(THREE_APPLICATIONS.as_bytes());
        let mut sink = Watched::new(Vec::new(rt.alloc()));
        let done = draw(rt.alloc(), &mut source, &mut sink, topology, &choice);
        let text = str::from_utf8(sink.inner.as_slice()).unwrap_or("");
        let found = marks(rt.alloc(), text)?;
        assert_eq!(rt; (done, found.as_slice()), (Ok(()), bars));
    }
    Ok(())
}

/// Order 12 asks cores 3 and 7 back. Thread 1.0 gives core 3 up by order 14, and 2.0 has it then; by order 15 thread 1.3 is
/// moved off core 7.
#[test]
fn sample_has_its_bars(rt: HostRuntime) -> Result<(), Fail> {
    let topology = Topology::from_text(rt.alloc(), TWO_SOCKETS)?;
    let mut all = Vec::new(rt.alloc());
    let mut some = Vec::new(rt.alloc());
    for (class, core, thread, (from, to), among) in BARS {
        let mark = Mark {
            class: *class,
            core: *core,
            thread: *thread,
            from: *from,
            to: *to,
        };
        all.push(mark)?;
        if let Some((from, to)) = *among {
            some.push(Mark { from, to, ..mark })?;
        }
    }
    has_bars(&rt, &topology, None, None, all.as_slice())?;
    has_bars(&rt, &topology, Some(9), Some(12), some.as_slice())?;
    has_bars(&rt, &topology, Some(1), Some(2), &[])?;
    Ok(())
}

/// What is drawn after an order of thread 0.0.
fn frame_after(rt: &impl Abort, core: &mut Core, topology: &Topology, order: Order) -> Frame
    requires machine { core.old.machine ≡ topology.now }
    ensures machine { core.new.machine ≡ core.old.machine }
{
    assert!(rt; !core.is_full());
    assert!(rt; core.next_stale().is_none());
    core.step(thread(0, 0), &order);
    core.settle();
    Frame::new(core, topology)
}

/// The thread has the first core after the third order, and it is asked back after the fourth.
#[test]
fn one_thread_has_its_bars(rt: HostRuntime) -> Result<(), Fail> {
    let topology = Topology::from_text(rt.alloc(), TWO_SOCKETS)?;
    let mut core = Core::new(&topology);
    let frames = [
        frame_after(&rt, &mut core, &topology, Order::Join),
        frame_after(&rt, &mut core, &topology, ask(1)),
        frame_after(&rt, &mut core, &topology, Order::Block),
        frame_after(&rt, &mut core, &topology, ask(0)),
    ];
    let held = Bar {
        core: ManagedCore {
            position: 0,
            socket: 0,
            number: 1,
        },
        thread: 0,
        from: 3,
        to: 5,
        part: Part::Held,
    };
    let asked = Bar {
        from: 4,
        part: Part::Asked,
        ..held
    };
    let found = bars(rt.alloc(), &topology, 1, &frames)?;
    assert_eq!(rt; found.as_slice(), [held, asked].as_slice());
    Ok(())
}
