//! The faults of configurations, and the line that each is shown as.

use arb_config::ConfigFault::{
    self, BadKey, CoreTwice, ManagedCount, Memory, NoUnmanaged, NotToml, OutOfRange, SocketCount,
    UnknownKey,
};
use arb_config::Topology;
use std::alloc::Global;
use std::test::Fail;
use test_parts::TWO_SOCKETS;

/// Each fault, with a text that has it.
const EACH: &[(&str, ConfigFault)] = &[
    ("managed = [1, 2", NotToml),
    ("speed = 1", UnknownKey),
    ("", BadKey),
    ("grace = 0\nsocket = []", OutOfRange),
    ("socket = []", SocketCount),
    ("socket = [{managed = [5], unmanaged = [5]}]", CoreTwice(5)),
    ("socket = [{managed = [], unmanaged = [0]}]", ManagedCount),
    ("socket = [{managed = [1], unmanaged = []}]", NoUnmanaged),
];

/// Further texts. Where several faults apply, the first in the order of the faults counts.
const FURTHER: &[(&str, ConfigFault)] = &[
    ("[[socket]]\nunmanaged = [0]\nmanaged = [1, 2", NotToml),
    ("grace = 10000\ngrace = 10000", NotToml),
    (
        "[[socket]]\nspeed = 1\nmanaged = [1, 1024]\nunmanaged = [0]",
        UnknownKey,
    ),
    ("socket = [1, {managed = \"x\", speed = 1}]", UnknownKey),
    (
        "grace = \"1\"\nsocket = [{managed = [1], unmanaged = [0]}]",
        BadKey,
    ),
    (
        "grace = 1.0\nsocket = [{managed = [1], unmanaged = [0]}]",
        BadKey,
    ),
    ("socket = [1]", BadKey),
    ("grace = 10000\n\n[socket]\n", BadKey),
    ("socket = [[{speed = 1}]]", BadKey),
    ("socket = [{managed = [1]}]", BadKey),
    ("socket = [{unmanaged = [1]}]", BadKey),
    ("socket = [{managed = [[1], 2], unmanaged = [0]}]", BadKey),
    (
        "grace = 0\nsocket = [{managed = [true], unmanaged = [0]}]",
        BadKey,
    ),
    // keys that make tables
    (
        "grace.short = 1\nsocket = [{managed = [1], unmanaged = [0]}]",
        BadKey,
    ),
    ("socket.managed = [1]\nsocket.unmanaged = [0]", BadKey),
    ("[[socket]]\nmanaged.first = 1\nunmanaged = [0]", BadKey),
    ("[socket]\nmanaged = [1]\nunmanaged = [0]", BadKey),
    ("[socket]\nspeed = 1", BadKey),
    ("orders = 0\nsocket = []", OutOfRange),
    (
        "socket = [{managed = [1, -1], unmanaged = [0]}]",
        OutOfRange,
    ),
    (
        "socket = [{managed = [1, 1], unmanaged = [1024]}]",
        OutOfRange,
    ),
    ("socket = [{managed = [], unmanaged = []}]", ManagedCount),
    // the first core that repeats another is named
    (
        "socket = [{managed = [1, 2, 3, 5], unmanaged = [0]}, {managed = [5, 6, 7], unmanaged = [4]}]",
        CoreTwice(5),
    ),
    (
        "socket = [{managed = [1, 2, 3], unmanaged = [0]}, {managed = [5, 6, 7], unmanaged = [4, 0]}]",
        CoreTwice(0),
    ),
    (
        "socket = [{managed = [1, 2], unmanaged = [2, 1]}]",
        CoreTwice(2),
    ),
    (
        "socket = [{unmanaged = [9], managed = [1]}, {unmanaged = [1], managed = [9]}]",
        CoreTwice(9),
    ),
    (
        "socket = [{managed = [1, 1, 3, 3], unmanaged = []}]",
        CoreTwice(1),
    ),
];

fn fault_of(alloc: Global, text: &str) -> Option<ConfigFault> {
    Topology::from_text(alloc, text).err()
}

#[test]
fn each_fault(rt: HostRuntime) {
    for table in [EACH, FURTHER] {
        for (text, fault) in table {
            assert_eq!(rt; fault_of(rt.alloc(), text), Some(*fault), "at {text}");
        }
    }
}

#[test]
fn prefixes_are_no_toml_or_lack_keys(rt: HostRuntime) {
    for end in 0..TWO_SOCKETS.len() {
        if let Some(prefix) = TWO_SOCKETS.get(..end) {
            let fault = fault_of(rt.alloc(), prefix);
            let is_wanted = matches!(fault, None | Some(NotToml | BadKey));
            assert!(rt; is_wanted, "{fault:?} at {prefix}");
        }
    }
    assert_eq!(rt; fault_of(rt.alloc(), TWO_SOCKETS), None);
}

/// Each fault, with its line.
const TOLD: &[(ConfigFault, &str)] = &[
    (NotToml, "C1 not TOML"),
    (UnknownKey, "C2 unknown key"),
    (BadKey, "C3 key missing or of the wrong type"),
    (OutOfRange, "C4 number out of range"),
    (SocketCount, "C5 sockets must be 1 to 8"),
    (CoreTwice(5), "C6 core 5 listed twice"),
    (CoreTwice(1023), "C6 core 1023 listed twice"),
    (ManagedCount, "C7 managed cores must be 1 to 128"),
    (NoUnmanaged, "C8 no unmanaged core"),
    (Memory, "out of memory"),
];

#[test]
fn fault_lines(rt: HostRuntime) -> Result<(), Fail> {
    for (fault, line) in TOLD {
        assert_eq!(rt; fault.to_string(rt.alloc())?.as_str(), *line);
    }
    Ok(())
}

/// With ample memory each text has its outcome. Where an allocation fails, the outcome is `Memory` and nothing else:
/// `tests/refuse-allocations` runs this with each allocation refused.
#[test]
fn a_failed_allocation_is_memory(rt: HostRuntime) {
    let found = fault_of(rt.alloc(), TWO_SOCKETS);
    assert!(rt; matches!(found, None | Some(Memory)), "{found:?}");
    for (text, fault) in EACH {
        let found = fault_of(rt.alloc(), text);
        let is_wanted = found == Some(*fault) || found == Some(Memory);
        assert!(rt; is_wanted, "{found:?} at {text}");
    }
}
