//! What answers lines, one after another.

ghost use Rattle.std.specs.Prelude.{◌≡◌, ◌+◌, ◌<◌, ◌≤◌, ◌^◌, ◌++◌, ◌∷◌, [], List, None, ℕ, length, sum};
ghost use Rattle.arb_model.specs.Posting.{next_stale_of};
ghost use Rattle.arb_model.specs.Standing.{Standing};
ghost use Rattle.arb_script.specs.Report.{order_line, standing_next};
ghost use Rattle.arb_live.specs.Heard.{heard};
ghost use Rattle.arb_live.specs.Live.{opening_talk, error_line, owners_answer};
ghost use Rattle.arb_live.specs.Pieces.{Answered, HasRoom, IsAt, IsReady, Stands, reported};

use crate::heard::{Heard, hear};
use crate::orders::Orders;
use crate::sending::send;
use crate::two_way::TwoWay;
use arb_config::{MAX_MANAGED, Topology};
use arb_core::Core;
use arb_script::{ClientOrder, KIND_BYTES, LINE_BYTES, TextLine, WriteFault, answer};
use arrayvec::ArrayString;

/// The most bytes of an owner table with the line that ends it.
const TABLE_BYTES: usize = LINE_BYTES * (MAX_MANAGED + 1);

/// The arbiter of a machine, and how many lines came before.
#[derive(Drop)]
pub(crate) struct Answerer {
    /// The arbiter.
    pub core: Core,
    /// How many orders it takes.
    pub orders: Orders,
    /// How many lines came, skipped and faulty ones too.
    pub lines: u64,
    /// The last line that was made, kept so that none is made anew for each order.
    pub line: TextLine,
    /// The last owner table that was made, kept for the same reason.
    pub table: ArrayString<TABLE_BYTES>,
}

/// The answer to a line that is no order: its number, and what is wrong with it.
fn error_line(number: u64, what: &str) -> TextLine
    requires { length what.now ≤ KIND_BYTES }
    ensures { result ≡ error_line number what.now }
{
    let mut line = TextLine::new();
    line.push("error: line ");
    line.push_number(number);
    line.push(": ");
    line.push(what);
    line.push("\n");
    line
}

/// Makes room for one order more where orders have no limit: a full arbiter counts them from 0 again.
fn make_room(core: &mut Core, orders: Orders)
    requires settled { next_stale_of core.old.standing core.old.posted ≡ None }
    ensures stands { (talk : Standing) → Stands orders core.old.standing talk → Stands orders core.new.standing talk }
    ensures room { HasRoom orders core.new }
    ensures machine { core.new.machine ≡ core.old.machine }
    ensures settled { next_stale_of core.new.standing core.new.posted ≡ None }
{
    match orders {
        Orders::Limited => {}
        Orders::Endless => {
            if core.is_full() {
                core.renew();
            }
        }
    }
}

/// Enters an order, and makes `line` its line, whatever it was before. Where orders have no limit, no line says `full`.
fn answer_order(core: &mut Core, orders: Orders, given: ClientOrder, line: &mut TextLine)
    requires settled { next_stale_of core.old.standing core.old.posted ≡ None }
    ensures line { (talk : Standing) → Stands orders core.old.standing talk → sum talk.counts < 2 ^ 64
        → line.new ≡ order_line (reported orders core.old.machine) talk given }
    ensures stands { (talk : Standing) → Stands orders core.old.standing talk → sum talk.counts < 2 ^ 64
        → Stands orders core.new.standing (standing_next (reported orders core.old.machine) talk given) }
    ensures machine { core.new.machine ≡ core.old.machine }
    ensures settled { next_stale_of core.new.standing core.new.posted ≡ None }
{
    make_room(core, orders);
    answer(core, given.client, &given.order, line);
}

/// Makes a text the owner table, and a line that ends it, whatever it was before. Each line is made in `line`.
fn set_owners(
    text: &mut ArrayString<TABLE_BYTES>,
    line: &mut TextLine,
    core: &Core,
    topology: &Topology,
)
    requires { core.now.machine ≡ topology.now }
    ensures { text.new.bytes ≡ owners_answer topology.now core.now.standing }
{
    text.clear();
    for position in 0..topology.managed() {
        line.set_core(core, topology, position);
        text.push_str(line.as_str());
    }
    text.push_str("end\n");
}

impl Answerer {
    /// The arbiter of a machine before all lines.
    pub(crate) fn new(topology: &Topology, orders: Orders) -> Answerer
        ensures opening { IsAt result (opening_talk (reported orders topology.now)) }
        ensures ready { IsReady topology.now result }
        ensures orders { result.orders ≡ orders }
    {
        Answerer {
            core: Core::new(topology),
            orders,
            lines: 0,
            line: TextLine::new(),
            table: ArrayString::new(),
        }
    }

    /// Answers the next line, by what it is.
    pub(crate) fn answer_heard<S: TwoWay>(
        &mut self,
        topology: &Topology,
        stream: &mut S,
        what: Heard,
    ) -> Result<(), WriteFault>
        requires ready { IsReady topology.now self.old }
        requires room { self.old.lines + 1 < 2 ^ 64 }
        ensures answered { (line : List ℕ) → heard line ≡ what → Answered S.told S.failed_reads S.failed_writes topology.now
            stream.old stream.new self.old self.new result (line ∷ []) }
        ensures counted { self.new.lines ≡ self.old.lines + 1 }
    {
        self.lines += 1;
        match what {
            Heard::Skipped => Ok(()),
            Heard::Order(given) => {
                answer_order(&mut self.core, self.orders, given, &mut self.line);
                send(stream, self.line.as_bytes())
            }
            Heard::Owners => {
                set_owners(&mut self.table, &mut self.line, &self.core, topology);
                send(stream, self.table.as_str().as_bytes())
            }
            Heard::Wrong(kind) => send(stream, error_line(self.lines, kind.as_str()).as_bytes()),
            Heard::NotText => send(stream, error_line(self.lines, "not text").as_bytes()),
        }
    }

    /// Answers the next line, given without its LF.
    pub(crate) fn answer_line<S: TwoWay>(
        &mut self,
        topology: &Topology,
        stream: &mut S,
        line: &[u8],
    ) -> Result<(), WriteFault>
        requires ready { IsReady topology.now self.old }
        requires room { self.old.lines + 1 < 2 ^ 64 }
        ensures answered { Answered S.told S.failed_reads S.failed_writes topology.now
            stream.old stream.new self.old self.new result (line.now ∷ []) }
        ensures counted { self.new.lines ≡ self.old.lines + 1 }
    {
        self.answer_heard(topology, stream, hear(line))
    }
}
