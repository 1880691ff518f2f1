//! The shapes of a picture, and their text.

ghost use Rattle.std.specs.Prelude.{◌≡◌};

use crate::bar::Bar;
use crate::measure::Measure;
use crate::scale::Scale;
use crate::style::STYLE;
use arb_model::THREADS;
use std::fmt;

/// A shape of a picture, with what decides its text. All lengths are in tenths of a pixel at the picture's full width.
#[derive(Clone, Copy, Debug, PartialEq, Eq)]
pub enum Shape {
    /// The picture begins: its first and last order, and how high it is.
    Begin {
        first: u64,
        last: u64,
        height: u32,
    },
    /// An application's colour in the legend, and how many threads it has.
    Swatch {
        app: u8,
        threads: u8,
        x: u32,
        y: u32,
    },
    /// What the hatched parts and the lines mean.
    Key {
        y: u32,
    },
    /// What runs to the right.
    Axis {
        scale: Scale,
        y: u32,
    },
    /// An order or a moment, with a line from `top` to `bottom`.
    Tick {
        label: u64,
        x: u32,
        top: u32,
        bottom: u32,
    },
    /// The name of a socket, above its first core.
    Socket {
        number: u8,
        y: u32,
    },
    /// The row of a core.
    Row {
        core: u16,
        y: u32,
    },
    /// A bar.
    Bar {
        bar: Bar,
        x: u32,
        y: u32,
        width: u32,
    },
    /// The name of the thread on a bar.
    Name {
        thread: u16,
        x: u32,
        y: u32,
    },
    /// The panel of an application: the highest of its values stands beside it.
    Panel {
        app: u8,
        peak: u16,
        y: u32,
    },
    /// A line of steps begins, at the base line of its panel.
    Line {
        measure: Measure,
        base: u32,
    },
    /// A step to the right, and then up or down.
    Step {
        x: u32,
        y: u32,
    },
    /// A line of steps ends: the last one to the right.
    LineEnd {
        x: u32,
    },
    /// A filled line of steps ends, at the base line of its panel.
    AreaEnd {
        x: u32,
        base: u32,
    },
    /// The picture ends.
    End,
}

/// A thread, as its application's number and its own there with a dot between them.
#[derive(Clone, Copy)]
struct ThreadName(u16);

impl fmt::Display for ThreadName {
    ghost use Rattle.std.specs.Prelude.{Some};
    ghost use Rattle.arb_model.specs.Texts.{thread_word};

    ghost output = { λ name. Some (thread_word name.0) };

    fn fmt<W: fmt::Write>(&self, f: &mut fmt::Formatter<W>) -> fmt::Result {
        let app = self.0 / THREADS as u16;
        let number = self.0 % THREADS as u16;
        write!(f, "{app}.{number}")
    }
}

/// What a bar says of itself to other programs, before where it stands.
#[derive(Clone, Copy)]
struct BarSpan(Bar);

impl fmt::Display for BarSpan {
    ghost use Rattle.std.specs.Prelude.{Some};
    ghost use Rattle.arb_draw.specs.ShapeText.{span_text};

    ghost output = { λ span. Some (span_text span.0) };

    fn fmt<W: fmt::Write>(&self, f: &mut fmt::Formatter<W>) -> fmt::Result {
        let class = self.0.part.class();
        let core = self.0.core.number;
        let name = ThreadName(self.0.thread);
        let from = self.0.from;
        let to = self.0.to;
        write!(
            f,
            "<rect class=\"{class}\" data-core=\"{core}\" data-thread=\"{name}\" data-from=\"{from}\" data-to=\"{to}\""
        )
    }
}

/// What a bar says where the mouse rests on it.
#[derive(Clone, Copy)]
struct BarTitle(Bar);

impl fmt::Display for BarTitle {
    ghost use Rattle.std.specs.Prelude.{Some};
    ghost use Rattle.arb_draw.specs.ShapeText.{title_text};

    ghost output = { λ title. Some (title_text title.0) };

    fn fmt<W: fmt::Write>(&self, f: &mut fmt::Formatter<W>) -> fmt::Result {
        let name = ThreadName(self.0.thread);
        let core = self.0.core.number;
        let words = self.0.part.words();
        let from = self.0.from;
        let last = self.0.to.saturating_sub(1);
        write!(
            f,
            "<title>{name} on core {core}{words}, orders {from} to {last}</title>"
        )
    }
}

impl fmt::Display for Shape {
    ghost use Rattle.std.specs.Prelude.{Some};
    ghost use Rattle.arb_draw.specs.ShapeText.{shape_text};

    ghost output = { λ shape. Some (shape_text shape) };

    fn fmt<W: fmt::Write>(&self, f: &mut fmt::Formatter<W>) -> fmt::Result {
        match self {
            Shape::Begin {
                first,
                last,
                height,
            } => write!(
                f,
                "<svg xmlns=\"http://www.w3.org/2000/svg\" viewBox=\"0 0 12000 {height}\">\n{STYLE}<text class=\"head\" x=\"200\" y=\"330\">Who had which core, orders {first} to {last}</text>\n"
            ),
            Shape::Swatch { app, threads, x, y } => write!(
                f,
                "<g transform=\"translate({x} {y})\"><rect class=\"swatch\" data-app=\"{app}\" width=\"160\" height=\"160\"/><text x=\"220\" y=\"125\">application {app}, threads: {threads}</text></g>\n"
            ),
            Shape::Key { y } => write!(f, "<use href=\"#key\" y=\"{y}\"/>\n"),
            Shape::Axis { scale, y } => {
                let word = scale.word();
                write!(
                    f,
                    "<text class=\"core\" x=\"1420\" y=\"{y}\">{word}</text>\n"
                )
            }
            Shape::Tick {
                label,
                x,
                top,
                bottom,
            } => write!(
                f,
                "<path class=\"grid\" d=\"M{x} {top}V{bottom}\"/><text class=\"tick\" x=\"{x}\" y=\"{top}\" dy=\"-50\">{label}</text>\n"
            ),
            Shape::Socket { number, y } => write!(
                f,
                "<text class=\"socket\" x=\"200\" y=\"{y}\" dy=\"-60\">socket {number}</text>\n"
            ),
            Shape::Row { core, y } => write!(
                f,
                "<rect class=\"row\" x=\"1500\" y=\"{y}\" width=\"10300\" height=\"200\"/><text class=\"core\" x=\"1420\" y=\"{y}\" dy=\"142\">core {core}</text>\n"
            ),
            Shape::Bar { bar, x, y, width } => {
                let span = BarSpan(*bar);
                let title = BarTitle(*bar);
                let app = bar.thread / THREADS as u16;
                write!(
                    f,
                    "{span} data-app=\"{app}\" x=\"{x}\" y=\"{y}\" width=\"{width}\" height=\"200\">{title}</rect>\n"
                )
            }
            Shape::Name { thread, x, y } => {
                let name = ThreadName(*thread);
                write!(
                    f,
                    "<text class=\"name\" x=\"{x}\" y=\"{y}\" dx=\"40\" dy=\"142\">{name}</text>\n"
                )
            }
            Shape::Panel { app, peak, y } => write!(
                f,
                "<g transform=\"translate(0 {y})\"><rect class=\"swatch\" data-app=\"{app}\" x=\"200\" width=\"160\" height=\"160\"/><text x=\"420\" y=\"125\">application {app}</text><text class=\"core\" x=\"1420\" y=\"235\">{peak}</text><use href=\"#panel\"/></g>\n"
            ),
            Shape::Line { measure, base } => {
                let class = measure.class();
                write!(f, "<path class=\"{class}\" d=\"M1500 {base}")
            }
            Shape::Step { x, y } => write!(f, "H{x}V{y}"),
            Shape::LineEnd { x } => write!(f, "H{x}\"/>\n"),
            Shape::AreaEnd { x, base } => write!(f, "H{x}V{base}Z\"/>\n"),
            Shape::End => write!(f, "</svg>\n"),
        }
    }
}
