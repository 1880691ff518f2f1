//! What runs to the right in a picture.

ghost use Rattle.std.specs.Prelude.{◌≡◌};
ghost use Rattle.arb_draw.specs.ShapeText.{scale_word};

/// What runs to the right in a picture.
#[derive(Clone, Copy, Debug, PartialEq, Eq)]
pub enum Scale {
    /// Orders: each is as wide as the others.
    Orders,
    /// The clock's microseconds: orders at one moment share it.
    Time,
}

impl Scale {
    /// The name of its unit.
    pub(crate) fn word(self) -> &'static str
        ensures { result.now ≡ scale_word self }
    {
        match self {
            Scale::Orders => "order",
            Scale::Time => "microsecond",
        }
    }
}
