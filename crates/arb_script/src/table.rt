//! The owner table.

ghost use Rattle.std.specs.Prelude.{◌≡◌, ◌+◌, ◌<◌, ◌≤◌, ◌++◌, ℕ, Bool, length};
ghost use Rattle.arb_share.specs.Streams.{Writes};
ghost use Rattle.arb_config.specs.Machine.{cores_of};
ghost use Rattle.arb_model.specs.Arbiter.{IsArbiter};
ghost use Rattle.arb_model.specs.Standing.{holder_at};
ghost use Rattle.arb_script.specs.Table.{line_at, owner_text, table_text};

use crate::fault::WriteFault;
use crate::print::write_line;
use crate::text_line::{LINE_BYTES, TextLine};
use arb_config::Topology;
use arb_core::Core;
use arb_model::Place;
use arb_share::Sink;

/// The most bytes of an owner.
const OWNER_BYTES: usize = 19;

impl TextLine {
    /// Appends who has the core at a position, and whether it is asked back.
    fn push_owner(&mut self, core: &Core, topology: &Topology, position: u8)
        requires room { length self.old + OWNER_BYTES ≤ LINE_BYTES }
        requires made { core.now.machine ≡ topology.now }
        requires within { position < length (cores_of topology.now) }
        requires arbiter { IsArbiter core.now }
        ensures text { self.new ≡ self.old ++ owner_text (holder_at core.now.standing.seats.cores position) }
        ensures length { length self.new ≤ length self.old + OWNER_BYTES }
    {
        let Some(owner) = core.owner(topology.core_at(position)) else {
            self.push("free");
            return;
        };
        self.push("owner ");
        self.push_client(owner);
        self.push_asked(is_asked_back(core.place(owner)));
    }

    /// Makes this the line of the core at a position, as [`core_line`] gives it, whatever it was before.
    pub fn set_core(&mut self, core: &Core, topology: &Topology, position: u8)
        requires made { core.now.machine ≡ topology.now }
        requires within { position < length (cores_of topology.now) }
        ensures { self.new ≡ line_at topology.now core.now.standing.seats position }
    {
        // its clause says what holds of every arbiter
        let _orders = core.orders();
        self.clear();
        self.push("core ");
        self.push_number(u64::from(topology.core_at(position)));
        self.push(" socket ");
        self.push_small(topology.socket_of(position));
        self.push(" ");
        self.push_owner(core, topology, position);
        self.push("\n");
    }
}

/// Whether a place is a core that is asked back.
fn is_asked_back(place: Place) -> bool
    ensures { (core : ℕ) (asked : Bool) → place ≡ Place.On core asked → result ≡ asked }
{
    match place {
        Place::On { asked, .. } => asked,
        _ => false,
    }
}

/// The line of the core at a position, below the number of managed cores: a line of the table that [`print_table`]
/// writes. The core must have been made of this topology.
pub fn core_line(core: &Core, topology: &Topology, position: u8) -> TextLine
    requires made { core.now.machine ≡ topology.now }
    requires within { position < length (cores_of topology.now) }
    ensures { result ≡ line_at topology.now core.now.standing.seats position }
{
    let mut line = TextLine::new();
    line.set_core(core, topology, position);
    line
}

/// Writes who has each managed core, one line with LF each in order of position: the core, its socket, and `free`, or
/// `owner` and the thread, and `asked` where the core is asked back. The core must have been made of this topology.
/// Takes no memory.
///
/// # Errors
/// [`WriteFault`] where a call of the writer failed; a prefix of the table was written.
///
/// ```
/// print_table(&mut sink, &core, &topology)?; // core 1 socket 0 owner 0.0
/// ```
pub fn print_table<W: Sink>(
    writer: &mut W,
    core: &Core,
    topology: &Topology,
) -> Result<(), WriteFault>
    requires { core.now.machine ≡ topology.now }
    ensures { Writes W.contents W.failures writer.old writer.new result (table_text topology.now core.now.standing.seats) }
{
    for position in 0..topology.managed() {
        write_line(writer, &core_line(core, topology, position))?;
    }
    Ok(())
}
