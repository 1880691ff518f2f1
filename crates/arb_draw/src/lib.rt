//! The picture of a run: who had which core over a script, as an SVG that a browser shows.
//!
//! [`draw`] reads a script, gives its orders to the arbiter of a machine, and writes the picture of the chosen ones;
//! [`picture`] makes it of a script that was read. A [`Frame`] is what is drawn of a standing. [`bars`] makes of the frames
//! of a run a [`Bar`] for each span in which one thread has a core, and for each part of it that is asked back. A picture
//! is the text of its [`Shape`]s, one after another.
//!
//! The files of `specs/`, in the order to read them:
//!
//! 1. `Limits`: how much a picture may have. `Choice`: which orders are drawn.
//! 2. `Frames`: what is drawn of a standing.
//! 3. `Spans`: the longest runs in a row. `Bars`: the bars of a run.
//! 4. `Laws`: that the bars are who has which core, and where it is asked back.
//! 5. `Layout`, `Axis`, `Measures`: where things stand. `Shapes`: the shapes of a run. `ShapeText`: their text.
//! 6. `Picture`: the picture, and what holds of an input when there is none. `FaultText`: the texts of faults.
#![tactic(auto)]

mod axis;
mod bar;
mod cell;
mod choice;
mod drawing;
mod fault;
mod frame;
pub mod laws;
mod layout;
mod limits;
mod measure;
mod part;
mod recording;
mod scale;
mod shape;
mod shapes;
mod span;
mod style;

pub use axis::Tick;
pub use bar::{Bar, ManagedCore, bars};
pub use cell::{Amounts, AppThreads, Cell};
pub use choice::{Choice, ChoiceFault, Orders, chosen};
pub use drawing::{draw, picture};
pub use fault::DrawFault;
pub use frame::Frame;
pub use limits::{MAX_BARS, MAX_ORDERS};
pub use measure::Measure;
pub use part::Part;
pub use scale::Scale;
pub use shape::Shape;
pub use style::STYLE;
