//! Machines: what is read from a text, up to the limits, and TOML's other ways to write the same.

use arb_config::ConfigFault::{self, CoreTwice, ManagedCount, OutOfRange, SocketCount};
use arb_config::Topology;
use std::alloc::{AllocError, Global};
use std::process::Abort;
use std::test::Fail;
use test_parts::TWO_SOCKETS;

/// The machine has so many sockets, managed cores and unmanaged cores, and the usual grace and limit on orders. These
/// are its managed cores by position, each with its socket, some of the unmanaged ones, and some that it has not.
fn assert_machine(
    rt: &impl Abort,
    machine: &Topology,
    counts: (u8, u8, u16),
    managed: &[(u16, u8)],
    unmanaged: &[u16],
    missing: &[u16],
) {
    let found = (machine.sockets(), machine.managed(), machine.unmanaged());
    assert_eq!(rt; found, counts);
    assert_eq!(rt; (machine.grace(), machine.orders()), (10000, 1000000));
    assert_eq!(rt; managed.len(), machine.managed() as usize);
    for (place, (core, socket)) in managed.iter().enumerate() {
        assert!(rt; place < machine.managed() as usize);
        let position = place as u8;
        let found = (machine.core_at(position), machine.socket_of(position));
        assert_eq!(rt; found, (*core, *socket));
        let back = (machine.position_of(*core), machine.is_unmanaged(*core));
        assert_eq!(rt; back, (Some(position), false));
    }
    for (cores, listed) in [(unmanaged, true), (missing, false)] {
        for core in cores {
            let found = (machine.is_unmanaged(*core), machine.position_of(*core));
            assert_eq!(rt; found, (listed, None), "core {core}");
        }
    }
}

/// The numbers from the first up to the last, as the elements of a TOML array.
fn numbers(alloc: Global, (first, last): (u16, u16)) -> Result<String, AllocError> {
    let mut text = String::new(alloc);
    for number in first..last {
        text.push_str(format!(in alloc; "{number}, ")?.as_str())?;
    }
    text.push_str(format!(in alloc; "{last}")?.as_str())?;
    Ok(text)
}

/// One socket, with the managed and the unmanaged cores in these ranges.
fn socket(alloc: Global, managed: (u16, u16), others: (u16, u16)) -> Result<String, AllocError> {
    let managed = numbers(alloc, managed)?;
    let others = numbers(alloc, others)?;
    format!(in alloc; "socket = [{{managed = [{managed}], unmanaged = [{others}]}}]")
}

/// The managed and the unmanaged cores, the grace and the limit on orders of a machine.
type Outcome = Result<(u8, u16, u64, u32), ConfigFault>;

fn read(alloc: Global, text: &str) -> Outcome {
    let machine = Topology::from_text(alloc, text)?;
    let (grace, orders) = (machine.grace(), machine.orders());
    Ok((machine.managed(), machine.unmanaged(), grace, orders))
}

/// Ways to write the machine of two sockets.
const WRITTEN: &[&str] = &[
    TWO_SOCKETS,
    "socket = [{managed = [1, 2, 3], unmanaged = [0]}, {managed = [5, 6, 7], unmanaged = [4]}]",
    "\"grace\" = 10_000\n[['socket']]\n'managed' = [1, 2, 3]\n\"unmanaged\" = [0]\n\
     [[\"socket\"]]\n\"managed\" = [5, 6, 7]\n\"\\u0075nmanaged\" = [4]\n",
    "grace = 0x2710\norders = 0xF4240\n[[socket]]\nmanaged = [0x1, 0o2, 0b11]\nunmanaged = [+0]\n\
     [[socket]]\nmanaged = [0x5, 0o6, 0b111]\nunmanaged = [0x4]\n",
    "# a machine\n[[socket]]\nmanaged = [\n  1, # first\n  2,\n  3,\n]\nunmanaged = [ 0 ]\r\n\
     [[ socket ]]\nunmanaged = [4,]\nmanaged = [5,\n6\n,7]",
];

/// Its managed cores.
const SIX: &[(u16, u8)] = &[(1, 0), (2, 0), (3, 0), (5, 1), (6, 1), (7, 1)];

#[test]
fn machines_as_written(rt: HostRuntime) -> Result<(), Fail> {
    for text in WRITTEN {
        let machine = Topology::from_text(rt.alloc(), text)?;
        for machine in [&machine, &machine.copied()] {
            let missing = [8, 1023, 1024, 65535];
            assert_machine(&rt, machine, (2, 6, 2), SIX, &[0, 4], &missing);
        }
    }
    Ok(())
}

#[test]
fn largest_and_least_machines(rt: HostRuntime) -> Result<(), Fail> {
    let alloc = rt.alloc();
    let mut all: Vec<(u16, u8)> = Vec::new(alloc);
    for core in 1..129 {
        all.push((core, 0))?;
    }
    let most = socket(alloc, (1, 128), (0, 0))?;
    let many = socket(alloc, (0, 0), (1, 1023))?;
    let high = socket(alloc, (1023, 1023), (0, 0))?;
    // a socket may have no managed core, or no unmanaged one, as long as another has some
    let empty = "socket = [{managed = [], unmanaged = [0]}, {managed = [1], unmanaged = []}]";
    for (text, counts, managed, unmanaged, missing) in [
        (most.as_str(), (1, 128, 1), all.as_slice(), 0, 129),
        (many.as_str(), (1, 1, 1023), &[(0, 0)], 1023, 1024),
        (high.as_str(), (1, 1, 1), &[(1023, 0)], 0, 1022),
        (empty, (2, 1, 1), &[(1, 1)], 0, 2),
    ] {
        let machine = Topology::from_text(alloc, text)?;
        let (others, missing) = ([unmanaged], [missing]);
        assert_machine(&rt, &machine, counts, managed, &others, &missing);
    }
    Ok(())
}

const USUAL: Outcome = Ok((1, 1, 10000, 1000000));

const MOST: Outcome = Ok((128, 1, 10000, 1000000));

/// A line of a machine of one socket, its managed and its unmanaged cores, and what comes of it.
type Row = (&'static str, (u16, u16), (u16, u16), Outcome);

const LIMITS: &[Row] = &[
    ("", (1, 64), (0, 0), Ok((64, 1, 10000, 1000000))),
    ("", (1, 65), (0, 0), Ok((65, 1, 10000, 1000000))),
    ("", (1, 128), (0, 0), MOST),
    ("", (1, 129), (0, 0), Err(ManagedCount)),
    ("", (1, 128), (5, 5), Err(CoreTwice(5))),
    ("", (0, 0), (1, 1023), Ok((1, 1023, 10000, 1000000))),
    ("", (1023, 1023), (0, 0), USUAL),
    ("", (1024, 1024), (0, 0), Err(OutOfRange)),
    ("", (0, 0), (1023, 1023), USUAL),
    ("", (0, 0), (1024, 1024), Err(OutOfRange)),
    ("", (1, 1), (0, 0), USUAL),
    ("grace = 0\n", (1, 1), (0, 0), Err(OutOfRange)),
    ("grace = 1\n", (1, 1), (0, 0), Ok((1, 1, 1, 1000000))),
    (
        "grace = 1000000000\n",
        (1, 1),
        (0, 0),
        Ok((1, 1, 1000000000, 1000000)),
    ),
    ("grace = 1000000001\n", (1, 1), (0, 0), Err(OutOfRange)),
    ("orders = 0\n", (1, 1), (0, 0), Err(OutOfRange)),
    ("orders = 1\n", (1, 1), (0, 0), Ok((1, 1, 10000, 1))),
    ("orders = 1000000\n", (1, 1), (0, 0), USUAL),
    ("orders = 1000001\n", (1, 1), (0, 0), Err(OutOfRange)),
];

/// Counts and numbers of cores, the grace and the limit on orders.
#[test]
fn numbers_at_their_limits(rt: HostRuntime) -> Result<(), Fail> {
    let alloc = rt.alloc();
    for (line, managed, others, want) in LIMITS {
        let cores = socket(alloc, *managed, *others)?;
        let text = format!(in alloc; "{line}{cores}")?;
        assert_eq!(rt; read(alloc, text.as_str()), *want, "at {text}");
    }
    Ok(())
}

/// Managed cores are counted over all sockets together, and sockets before cores are compared.
#[test]
fn sockets_at_their_limits(rt: HostRuntime) -> Result<(), Fail> {
    let alloc = rt.alloc();
    for (second, want) in [(192, MOST), (193, Err(ManagedCount))] {
        let first = numbers(alloc, (1, 64))?;
        let other = numbers(alloc, (129, second))?;
        let text = format!(in alloc;
            "socket = [{{managed = [{first}], unmanaged = [0]}}, {{managed = [{other}], unmanaged = []}}]"
        )?;
        assert_eq!(rt; read(alloc, text.as_str()), want, "at {text}");
    }
    let repeated = "[[socket]]\nmanaged = [0]\nunmanaged = [0]\n";
    for (count, last, want) in [
        (8, "", Ok((8, 8, 10000, 1000000))),
        (9, "", Err(SocketCount)),
        (8, repeated, Err(SocketCount)),
    ] {
        let mut text = String::new(alloc);
        for core in 0..count {
            let next = format!(in alloc;
                "[[socket]]\nmanaged = [{core}]\nunmanaged = [10{core}]\n"
            )?;
            text.push_str(next.as_str())?;
        }
        text.push_str(last)?;
        assert_eq!(rt; read(alloc, text.as_str()), want, "at {text}");
    }
    Ok(())
}
