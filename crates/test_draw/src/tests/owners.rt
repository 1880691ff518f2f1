//! The bars of pictures are the owner tables after each order.

use crate::tests::marks::{Mark, marks};
use arb_config::Topology;
use arb_core::Core;
use arb_draw::{Choice, Scale, chosen, draw, picture};
use arb_model::Place;
use arb_script::{Script, TextLine, answer};
use arb_share::Watched;
use std::alloc::Global;
use std::process::Abort;
use std::test::Fail;
use test_parts::{THREE_APPLICATIONS, THREE_ORDERS, TWO_SOCKETS, WIDE};

/// Whether a bar of a class on a core covers an order.
fn covers(mark: &Mark<'_>, class: &str, core: &str, order: u64) -> bool {
    mark.class == class && mark.core == core && mark.from <= order && order < mark.to
}

/// How many bars of a class on a core cover an order.
fn covering(marks: &[Mark<'_>], class: &str, core: &str, order: u64) -> usize {
    let mut count: usize = 0;
    for mark in marks {
        if covers(mark, class, core, order) {
            count = count.saturating_add(1);
        }
    }
    count
}

/// Whether the bars of a class show a thread, and no other one, on a core after an order; the empty name is nobody's.
fn shows(marks: &[Mark<'_>], class: &str, core: &str, order: u64, thread: &str) -> bool {
    if thread == "" {
        return covering(marks, class, core, order) == 0;
    }
    for mark in marks {
        if covers(mark, class, core, order) && mark.thread != thread {
            return false;
        }
    }
    covering(marks, class, core, order) == 1
}

/// After an order, each core has the bars that the arbiter says.
fn has_owners<R: AllocGlobal + Abort>(
    rt: &R,
    core: &Core,
    topology: &Topology,
    marks: &[Mark<'_>],
    order: u64,
) -> Result<(), Fail> {
    for position in 0..topology.managed() {
        let number = topology.core_at(position);
        let name = format!(in rt.alloc(); "{number}")?;
        let mut owner = format!(in rt.alloc(); "")?;
        let mut asked_of = format!(in rt.alloc(); "")?;
        if let Some(thread) = core.owner(number) {
            let index = thread.index();
            owner = format!(in rt.alloc(); "{}.{}", index / 32, index % 32)?;
            if core.place(thread)
                == (Place::On {
                    core: number,
                    asked: true,
                })
            {
                asked_of = format!(in rt.alloc(); "{}.{}", index / 32, index % 32)?;
            }
        }
        let (name, owner, asked_of) = (name.as_str(), owner.as_str(), asked_of.as_str());
        assert!(rt;
            shows(marks, "bar", name, order, owner),
            "core {number}, order {order}"
        );
        assert!(rt;
            shows(marks, "asked", name, order, asked_of),
            "core {number}, order {order}"
        );
    }
    Ok(())
}

/// The picture of orders of a script has the owners after each of them, and none of other orders.
fn shows_owners<R: AllocGlobal + Abort>(
    rt: &R,
    machine: &str,
    script: &str,
    choice: &Choice,
) -> Result<(), Fail> {
    let topology = Topology::from_text(rt.alloc(), machine)?;
    let script = Script::from_text(rt.alloc(), script)?;
    let orders = chosen(choice, script.len())?;
    let text = picture(rt.alloc(), &topology, &script, choice.scale, orders)?;
    let marks = marks(rt.alloc(), text.as_str())?;
    let first = u64::from(orders.first);
    let end = first.saturating_add(orders.count as u64);
    for mark in marks.as_slice() {
        assert!(rt; first <= mark.from && mark.from < mark.to && mark.to <= end);
    }
    let mut core = Core::new(&topology);
    let mut line = TextLine::new();
    for index in 0..script.len() {
        let order = script.order(index);
        answer(&mut core, script.client(index), &order, &mut line);
        let number = (index as u64).saturating_add(1);
        if first <= number && number < end {
            has_owners(rt, &core, &topology, marks.as_slice(), number)?;
        }
    }
    Ok(())
}

/// The same by orders and by time.
fn shows_both<R: AllocGlobal + Abort>(
    rt: &R,
    machine: &str,
    script: &str,
    from: Option<u32>,
    to: Option<u32>,
) -> Result<(), Fail> {
    for scale in [Scale::Orders, Scale::Time] {
        shows_owners(rt, machine, script, &Choice { from, to, scale })?;
    }
    Ok(())
}

/// A script of orders of six applications and of the clock, by a seed.
fn random_script(alloc: Global, seed: u64, orders: usize) -> Result<String, Fail> {
    let given = [
        "join", "block", "ask 3 1", "block", "status", "block", "cap 2", "retire", "ask 128",
        "block", "leave", "ask 0", "join", "cap 128", "block", "block",
    ];
    let mut script = String::new(alloc);
    let mut state = seed;
    for place in 0..orders {
        state = state
            .wrapping_mul(6_364_136_223_846_793_005)
            .wrapping_add(1_442_695_040_888_963_407);
        let high = (state >> 33) as usize;
        let line = if high % 9 == 8 {
            format!(in alloc; "clock tick {}\n", place.saturating_mul(3_000))?
        } else {
            let word = given[high / 64 % 16];
            format!(in alloc; "{}.{} {word}\n", high / 1_024 % 6, high / 8_192 % 5)?
        };
        script.push_str(line.as_str())?;
    }
    Ok(script)
}

/// The sample, all of it and some of its orders; with a limit on the orders too.
#[test]
fn sample_shows_owners(rt: HostRuntime) -> Result<(), Fail> {
    for (from, to) in [(1, 16), (1, 1), (16, 16), (7, 11), (13, 15)] {
        shows_both(&rt, TWO_SOCKETS, THREE_APPLICATIONS, Some(from), Some(to))?;
    }
    shows_both(&rt, THREE_ORDERS, THREE_APPLICATIONS, None, None)
}

#[test]
fn random_runs_show_owners(rt: HostRuntime) -> Result<(), Fail> {
    for seed in 1..9 {
        let script = random_script(rt.alloc(), seed, 300)?;
        shows_both(&rt, TWO_SOCKETS, script.as_str(), None, None)?;
        shows_both(&rt, TWO_SOCKETS, script.as_str(), Some(100), Some(249))?;
    }
    let script = random_script(rt.alloc(), 17, 120)?;
    shows_both(&rt, WIDE, script.as_str(), None, None)
}

/// As many orders as a picture may have.
#[test]
fn longest_picture_is_drawn(rt: HostRuntime) -> Result<(), Fail> {
    let topology = Topology::from_text(rt.alloc(), TWO_SOCKETS)?;
    let text = random_script(rt.alloc(), 5, 2_000)?;
    let choice = Choice {
        from: None,
        to: None,
        scale: Scale::Orders,
    };
    let mut source = Watched::new(text.as_str().as_bytes());
    let mut sink = Watched::new(Vec::new(rt.alloc()));
    let done = draw(rt.alloc(), &mut source, &mut sink, &topology, &choice);
    assert_eq!(rt; done, Ok(()));
    assert!(rt; sink.inner.as_slice().starts_with(b"<svg "));
    assert!(rt; sink.inner.as_slice().ends_with(b"</svg>\n"));
    Ok(())
}
