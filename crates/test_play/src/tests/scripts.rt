//! Scripts with what comes of their orders, on the machine of two sockets.

use test_parts::{FREE_CORES, THREE_APPLICATIONS, THREE_REPORT};

/// Each is a line of the configuration that limits the orders, or nothing; a script; the lines of its orders, given in
/// script order; and who has each core then. The last two are the report.
pub const RUNS: &[(&str, &str, &str, &str)] = &[
    // without an order
    ("", "", "", FREE_CORES),
    ("", "\n", "", FREE_CORES),
    ("", " \t\r\n# no order\n", "", FREE_CORES),
    // three applications contend
    ("", THREE_APPLICATIONS, THREE_REPORT, ""),
    // requests are cut at a cap
    (
        "",
        "0.0 join\n0.0 ask 6\n0.0 cap 2\n0.0 cap 129\nclock cap 1\n3.0 cap 1\n0.0 status\n",
        "0.0 join -> joined
0.0 ask 6 0 0 0 0 0 0 0 -> due 6
0.0 cap 2 -> due 2
0.0 cap 129 -> refused 7 cap-too-large
clock cap 1 -> refused 6 not-a-thread
3.0 cap 1 -> refused 2 not-joined
0.0 status -> counts due 2 owned 0 asked 0 waiting 0
",
        FREE_CORES,
    ),
    // an order past the limit prints as full
    (
        "orders = 3\n",
        "0.0 join\n0.0 ask 2\n0.0 block\n0.0 status\n",
        "0.0 join -> joined
0.0 ask 2 0 0 0 0 0 0 0 -> due 2
0.0 block -> now core 1
0.0 status -> full
",
        "core 1 socket 0 owner 0.0
core 2 socket 0 free
core 3 socket 0 free
core 5 socket 1 free
core 6 socket 1 free
core 7 socket 1 free
",
    ),
    // so does one that would be refused, and none of them changes who has a core
    (
        "orders = 1\n",
        "0.0 join\n0.0 ask 2\n0.0 block\n0.0 join\nclock tick 7\n",
        "0.0 join -> joined
0.0 ask 2 0 0 0 0 0 0 0 -> full
0.0 block -> full
0.0 join -> full
clock tick 7 -> full
",
        FREE_CORES,
    ),
    // a refused order counts, and the orders after it are entered
    (
        "orders = 4\n",
        "0.0 status\n0.0 join\nclock join\n0.0 join\n0.0 ask 2\n",
        "0.0 status -> refused 2 not-joined
0.0 join -> joined
clock join -> refused 6 not-a-thread
0.0 join -> refused 1 already-joined
0.0 ask 2 0 0 0 0 0 0 0 -> full
",
        FREE_CORES,
    ),
    // the orders past the limit are those of several clients
    (
        "orders = 2\n",
        "0.0 join\n1.0 join\n1.0 status\nclock tick 5\n0.0 status\n1.0 status\n",
        "0.0 join -> joined
1.0 join -> joined
1.0 status -> full
clock tick 5 -> full
0.0 status -> full
1.0 status -> full
",
        FREE_CORES,
    ),
];
