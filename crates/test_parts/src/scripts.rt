//! A script and its report, on the machine of two sockets.

/// Three applications that share six cores, until the clock moves a thread.
pub const THREE_APPLICATIONS: &str = "0.0 join
0.0 ask 2
0.0 block
0.1 block
1.0 join
1.0 ask 6
1.0 block
1.1 block
1.2 block
1.3 block
2.0 join
2.0 ask 6
2.0 block
1.0 block
clock tick 10000
1.0 status
";

/// The report of [`THREE_APPLICATIONS`].
pub const THREE_REPORT: &str = "0.0 join -> joined
0.0 ask 2 0 0 0 0 0 0 0 -> due 2
0.0 block -> now core 1
0.1 block -> now core 2
1.0 join -> joined
1.0 ask 6 0 0 0 0 0 0 0 -> due 4
1.0 block -> now core 3
1.1 block -> now core 5
1.2 block -> now core 6
1.3 block -> now core 7
2.0 join -> joined
2.0 ask 6 0 0 0 0 0 0 0 -> due 2
2.0 block -> now waiting
1.0 block -> now waiting
clock tick 10000 -> moved 1
1.0 status -> counts due 2 owned 2 asked 0 waiting 1
core 1 socket 0 owner 0.0
core 2 socket 0 owner 0.1
core 3 socket 0 owner 2.0
core 5 socket 1 owner 1.1
core 6 socket 1 owner 1.2
core 7 socket 1 free
";

/// The table of a machine that nobody has a core of.
pub const FREE_CORES: &str = "core 1 socket 0 free
core 2 socket 0 free
core 3 socket 0 free
core 5 socket 1 free
core 6 socket 1 free
core 7 socket 1 free
";
