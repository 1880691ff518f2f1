//! Texts of machines.

/// Two sockets with three managed cores each, and an unmanaged core on each. The keys of the second one stand in the other order:
/// so where the text is cut off, either key may be missing.
pub const TWO_SOCKETS: &str = "grace = 10000

[[socket]]
managed = [1, 2, 3]
unmanaged = [0]

[[socket]]
unmanaged = [4]
managed = [5, 6, 7]
";

/// The same machine, written shorter, for three orders at most.
pub const THREE_ORDERS: &str = "orders = 3
socket = [{ managed = [1, 2, 3], unmanaged = [0] }, { managed = [5, 6, 7], unmanaged = [4] }]
";

/// One socket with as many managed cores as there may be: core c is at position c - 1.
pub const WIDE: &str = "[[socket]]
managed = [
    1,   2,   3,   4,   5,   6,   7,   8,   9,  10,  11,  12,  13,  14,  15,  16,
   17,  18,  19,  20,  21,  22,  23,  24,  25,  26,  27,  28,  29,  30,  31,  32,
   33,  34,  35,  36,  37,  38,  39,  40,  41,  42,  43,  44,  45,  46,  47,  48,
   49,  50,  51,  52,  53,  54,  55,  56,  57,  58,  59,  60,  61,  62,  63,  64,
   65,  66,  67,  68,  69,  70,  71,  72,  73,  74,  75,  76,  77,  78,  79,  80,
   81,  82,  83,  84,  85,  86,  87,  88,  89,  90,  91,  92,  93,  94,  95,  96,
   97,  98,  99, 100, 101, 102, 103, 104, 105, 106, 107, 108, 109, 110, 111, 112,
  113, 114, 115, 116, 117, 118, 119, 120, 121, 122, 123, 124, 125, 126, 127, 128,
]
unmanaged = [0]
";
