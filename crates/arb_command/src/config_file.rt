//! A configuration file, read whole, and the machine that it describes.

use crate::one_line::OneLine;
use arb_config::{ConfigFault, Topology};
use arb_script::{ReadFault, read_text};
use arb_share::Watched;
use std::rt::Files;
use std::{fmt, fs};

/// The most bytes that a configuration may have.
pub const MAX_CONFIG: usize = 65_536;

/// Why a file gave no machine.
#[derive(Clone, Copy)]
pub enum FileFault<'a> {
    /// The file of this name can't be opened. The name is printed within one line.
    CannotOpen(&'a str),
    /// The file can't be read whole, or has more than [`MAX_CONFIG`] bytes.
    Read(ReadFault),
    /// The text is refused, or memory ran out.
    Config(ConfigFault),
}

impl fmt::Display for FileFault<'_> {
    fn fmt<W: fmt::Write>(&self, f: &mut fmt::Formatter<W>) -> fmt::Result {
        match self {
            FileFault::CannotOpen(file) => write!(f, "cannot open {}", OneLine(file)),
            FileFault::Read(fault) => write!(f, "{fault}"),
            FileFault::Config(fault) => write!(f, "{fault}"),
        }
    }
}

/// The machine that a configuration file describes. A file that isn't UTF-8 is no TOML.
pub fn machine_of<'a, R: Files + AllocGlobal>(
    rt: &R,
    file: &'a str,
) -> Result<Topology, FileFault<'a>> {
    let Ok(reader) = fs::open(rt, file) else {
        return Err(FileFault::CannotOpen(file));
    };
    let text = match read_text(rt.alloc(), &mut Watched::new(reader), MAX_CONFIG) {
        Ok(text) => text,
        Err(ReadFault::NotText) => return Err(FileFault::Config(ConfigFault::NotToml)),
        Err(fault) => return Err(FileFault::Read(fault)),
    };
    match Topology::from_text(rt.alloc(), text.as_str()) {
        Ok(machine) => Ok(machine),
        Err(fault) => Err(FileFault::Config(fault)),
    }
}
