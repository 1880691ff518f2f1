//! Machines, each as the text of its configuration and as the managed cores that the text lists.

use crate::tests::arbiter::CORES;

/// The managed cores of the two sockets, with the socket of each.
pub const SIX_CORES: &[(u16, u8)] = &[(1, 0), (2, 0), (3, 0), (5, 1), (6, 1), (7, 1)];

/// Two sockets with one managed core each, which are not numbered in order.
pub const TWO_CORES: &str = "grace = 2000
socket = [{managed = [9], unmanaged = [0]}, {managed = [4], unmanaged = []}]
";

/// Its managed cores, with the socket of each.
pub const BOTH_CORES: &[(u16, u8)] = &[(9, 0), (4, 1)];

/// Four sockets, one of them without a managed core, whose cores are not numbered in order.
pub const FOUR_SOCKETS: &str = "grace = 3000

[[socket]]
managed = [40, 7, 12, 1000]
unmanaged = [0]

[[socket]]
managed = []
unmanaged = [1023, 1]

[[socket]]
managed = [3, 2, 6, 5, 4]
unmanaged = []

[[socket]]
managed = [20, 22]
unmanaged = [21]
";

/// Its managed cores, with the socket of each.
pub const ELEVEN_CORES: &[(u16, u8)] = &[
    (40, 0),
    (7, 0),
    (12, 0),
    (1000, 0),
    (3, 2),
    (2, 2),
    (6, 2),
    (5, 2),
    (4, 2),
    (20, 3),
    (22, 3),
];

/// Eight sockets with eight managed cores each, numbered from 1.
pub const EIGHT_SOCKETS: &str = "grace = 5000
socket = [
  {managed = [1, 2, 3, 4, 5, 6, 7, 8], unmanaged = [0]},
  {managed = [9, 10, 11, 12, 13, 14, 15, 16], unmanaged = []},
  {managed = [17, 18, 19, 20, 21, 22, 23, 24], unmanaged = []},
  {managed = [25, 26, 27, 28, 29, 30, 31, 32], unmanaged = []},
  {managed = [33, 34, 35, 36, 37, 38, 39, 40], unmanaged = []},
  {managed = [41, 42, 43, 44, 45, 46, 47, 48], unmanaged = []},
  {managed = [49, 50, 51, 52, 53, 54, 55, 56], unmanaged = []},
  {managed = [57, 58, 59, 60, 61, 62, 63, 64], unmanaged = []},
]
";

/// Its managed cores, with the socket of each.
pub fn sixty_four_cores() -> [(u16, u8); 64] {
    let mut cores = [(0, 0); 64];
    for position in 0..64 {
        cores[position] = (position as u16 + 1, position as u8 / 8);
    }
    cores
}

/// Three sockets with as many managed cores as there may be, of which the first 64 are not those of whole sockets.
pub const THREE_SOCKETS: &str = "grace = 4000

[[socket]]
managed = [
  201, 202, 203, 204, 205, 206, 207, 208, 209, 210, 211, 212, 213, 214, 215, 216, 217, 218, 219, 220,
  221, 222, 223, 224, 225, 226, 227, 228, 229, 230, 231, 232, 233, 234, 235, 236, 237, 238, 239, 240,
]
unmanaged = [200]

[[socket]]
managed = [
   41,  42,  43,  44,  45,  46,  47,  48,  49,  50,  51,  52,  53,  54,  55,  56,  57,  58,  59,  60,
   61,  62,  63,  64,  65,  66,  67,  68,  69,  70,  71,  72,  73,  74,  75,  76,  77,  78,  79,  80,
   81,  82,  83,  84,  85,  86,  87,  88,  89,  90,  91,  92,  93,  94,  95,  96,  97,  98,  99, 100,
]
unmanaged = []

[[socket]]
managed = [
  101, 102, 103, 104, 105, 106, 107, 108, 109, 110, 111, 112, 113, 114,
  115, 116, 117, 118, 119, 120, 121, 122, 123, 124, 125, 126, 127, 128,
]
unmanaged = []
";

/// Its managed cores, with the socket of each.
pub fn all_cores() -> [(u16, u8); CORES] {
    let mut cores = [(0, 0); CORES];
    for position in 0..CORES {
        let number = position as u16 + 1;
        cores[position] = if position < 40 {
            (number + 200, 0)
        } else if position < 100 {
            (number, 1)
        } else {
            (number, 2)
        };
    }
    cores
}
