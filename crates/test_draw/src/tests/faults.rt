//! Inputs that have no picture, and readers and writers that fail.

use arb_config::Topology;
use arb_draw::{Choice, DrawFault, Scale, draw};
use arb_script::{ReadFault, RunFault};
use arb_share::Watched;
use std::alloc::Global;
use std::process::Abort;
use std::test::Fail;
use test_parts::{FailingReader, ShortWriter, THREE_APPLICATIONS, TWO_SOCKETS, WIDE};

/// All orders, in their order.
const ALL: Choice = Choice {
    from: None,
    to: None,
    scale: Scale::Orders,
};

/// The sample's picture.
fn sample_picture<R: AllocGlobal + Abort>(rt: &R, topology: &Topology) -> Vec<u8> {
    let mut source = Watched::new(THREE_APPLICATIONS.as_bytes());
    let mut sink = Watched::new(Vec::new(rt.alloc()));
    let done = draw(rt.alloc(), &mut source, &mut sink, topology, &ALL);
    assert_eq!(rt; done, Ok(()));
    sink.inner
}

/// A writer that fails, or takes nothing any more, after `room` bytes took a prefix of the picture.
fn takes_prefix<R: AllocGlobal + Abort>(
    rt: &R,
    topology: &Topology,
    picture: &[u8],
    room: usize,
    fails: bool,
) {
    let mut source = Watched::new(THREE_APPLICATIONS.as_bytes());
    let mut sink = Watched::new(ShortWriter::new(rt.alloc(), 1_000, room, fails));
    let answer = draw(rt.alloc(), &mut source, &mut sink, topology, &ALL);
    let (want, failures) = if room == picture.len() {
        (Ok(()), 0)
    } else {
        (Err(DrawFault::Run(RunFault::Write)), 1)
    };
    let given = (answer, sink.failures);
    assert_eq!(rt; given, (want, failures), "with room {room}");
    let prefix = picture.get(..room);
    assert!(rt; Some(sink.inner.taken.as_slice()) == prefix, "room {room}");
}

/// Writers that take no byte, some, all but one, and all.
#[test]
fn writes_fail_in_turn(rt: HostRuntime) -> Result<(), Fail> {
    let topology = Topology::from_text(rt.alloc(), TWO_SOCKETS)?;
    let picture = sample_picture(&rt, &topology);
    for room in [
        0,
        1,
        40,
        3_000,
        picture.len().saturating_sub(1),
        picture.len(),
    ] {
        for fails in [false, true] {
            takes_prefix(&rt, &topology, picture.as_slice(), room, fails);
        }
    }
    Ok(())
}

/// A reader that fails at a call: nothing is written.
fn fails_at_call<R: AllocGlobal + Abort>(rt: &R, topology: &Topology, call: usize) {
    let script = THREE_APPLICATIONS.as_bytes();
    let mut source = Watched::new(FailingReader::new(script, 64, call));
    let mut sink = Watched::new(Vec::new(rt.alloc()));
    let answer = draw(rt.alloc(), &mut source, &mut sink, topology, &ALL);
    let fault = DrawFault::Run(RunFault::Read(ReadFault::Read));
    assert_eq!(rt;
        (answer, sink.inner.len()),
        (Err(fault), 0),
        "at call {call}"
    );
}

/// A reader that fails at its first call, its second, and so on.
#[test]
fn reads_fail_in_turn(rt: HostRuntime) -> Result<(), Fail> {
    let topology = Topology::from_text(rt.alloc(), TWO_SOCKETS)?;
    for call in 0..THREE_APPLICATIONS.as_bytes().len().div_ceil(64) + 1 {
        fails_at_call(&rt, &topology, call);
    }
    Ok(())
}

/// Four applications of 32 threads that have all 128 cores. Over and over, a fifth one asks for all of them, at a level that is
/// served first, and for none again.
fn many_bars(alloc: Global, rounds: usize) -> Result<String, Fail> {
    let mut script = String::new(alloc);
    for app in 0..4 {
        script.push_str(format!(in alloc; "{app}.0 join\n{app}.0 ask 0 32\n")?.as_str())?;
        for thread in 0..32 {
            script.push_str(format!(in alloc; "{app}.{thread} block\n")?.as_str())?;
        }
    }
    script.push_str("4.0 join\n")?;
    for _ in 0..rounds {
        script.push_str("4.0 ask 128\n4.0 ask 0\n")?;
    }
    Ok(script)
}

/// What comes of a picture of so many rounds: nothing is written where it is refused.
fn comes_to<R: AllocGlobal + Abort>(
    rt: &R,
    topology: &Topology,
    rounds: usize,
    want: Result<(), DrawFault>,
) -> Result<(), Fail> {
    let script = many_bars(rt.alloc(), rounds)?;
    let mut source = Watched::new(script.as_str().as_bytes());
    let mut sink = Watched::new(Vec::new(rt.alloc()));
    let answer = draw(rt.alloc(), &mut source, &mut sink, topology, &ALL);
    let given = (answer, sink.inner.is_empty());
    assert_eq!(rt; given, (want, want.is_err()));
    Ok(())
}

/// A picture with more bars than it may have is refused, and nothing is written. Each core has one bar, and a hatched part for
/// each round.
#[test]
fn too_many_bars_are_refused(rt: HostRuntime) -> Result<(), Fail> {
    let topology = Topology::from_text(rt.alloc(), WIDE)?;
    comes_to(&rt, &topology, 155, Ok(()))?;
    let fault = DrawFault::TooManyBars { bars: 20_096 };
    comes_to(&rt, &topology, 156, Err(fault))?;
    let line = format!(in rt.alloc(); "{}", DrawFault::TooManyBars { bars: 20_001 })?;
    assert_eq!(rt;
        line.as_str(),
        "20001 bars are too many for a picture, which shows 20000: choose fewer orders by --from and --to"
    );
    Ok(())
}
