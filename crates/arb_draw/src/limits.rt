//! The limits of a picture, each of which stands once more in `specs/Limits.antt`: the contracts cite that number and the
//! bodies this one, so neither can be changed alone.

/// How many orders a picture shows at most.
pub const MAX_ORDERS: usize = 2_000;

/// How many bars a picture has at most, the hatched parts among them.
pub const MAX_BARS: usize = 20_000;
