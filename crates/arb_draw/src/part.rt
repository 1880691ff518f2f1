//! Which part of a span a bar shows.

ghost use Rattle.std.specs.Prelude.{◌≡◌};
ghost use Rattle.arb_draw.specs.ShapeText.{part_class, part_words};

/// Which part of a span a bar shows.
#[derive(Clone, Copy, Debug, PartialEq, Eq)]
pub enum Part {
    /// All of it: the thread has the core.
    Held,
    /// Where the core is asked back.
    Asked,
}

impl Part {
    /// The class of a bar that shows it.
    pub(crate) fn class(self) -> &'static str
        ensures { result.now ≡ part_class self }
    {
        match self {
            Part::Held => "bar",
            Part::Asked => "asked",
        }
    }

    /// What the title of a bar says of it.
    pub(crate) fn words(self) -> &'static str
        ensures { result.now ≡ part_words self }
    {
        match self {
            Part::Held => "",
            Part::Asked => " asked back",
        }
    }
}
