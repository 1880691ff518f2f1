//! Orders, replies and entries as text.

ghost use Rattle.std.specs.Prelude.{◌≡◌, ◌+◌, ◌*◌, ◌≤◌, ◌++◌, ◌∷◌, [], length, codes, decimal};
ghost use Rattle.std.specs.List.{flat_map};
ghost use Rattle.arb_share.specs.Streams.{Writes};
ghost use Rattle.arb_share.specs.Text.{line_feed, space};
ghost use Rattle.arb_model.specs.Texts.{client_word, order_text};
ghost use Rattle.arb_script.specs.Printed.{given_text};
ghost use Rattle.arb_model.specs.Texts.{asked_text, place_text, refusal_text, reply_text};
ghost use Rattle.arb_script.specs.Printed.{entry_text, full_text};

use crate::fault::WriteFault;
use crate::text_line::{LINE_BYTES, TextLine};
use arb_core::order_cases;
use arb_model::{ClientId, Order, Place, Refusal, Reply};
use arb_share::streams::write_all;
use arb_share::{Failed, LEVELS, Request, Sink};

/// The most bytes of a client.
pub(crate) const CLIENT_BYTES: usize = 7;

/// The most bytes of an order.
pub(crate) const ORDER_BYTES: usize = 35;

/// The most bytes of what follows an asked core.
pub(crate) const ASKED_BYTES: usize = 6;

/// The most bytes of a place.
const PLACE_BYTES: usize = 31;

/// The most bytes of a refusal.
const REFUSAL_BYTES: usize = 33;

/// The most bytes of a reply.
const REPLY_BYTES: usize = 46;

/// Appends what an order carries, by what the table of orders says of it.
macro_rules! push_carried {
    ($line:ident request $request:ident) => {
        $line.push_entries(*$request);
    };
    ($line:ident cap $cap:ident) => {
        $line.push(" ");
        $line.push_small(*$cap);
    };
    ($line:ident moment $moment:ident) => {
        $line.push(" ");
        $line.push_number(*$moment);
    };
}

/// For each row of the table of orders, the order's text.
macro_rules! order_arms {
    (($line:ident $order:ident) $({ $name:ident, $word:literal, [$($field:ident)?], $who:ident, $joined:ident, $change:ident })*) => {
        match $order {
            $(Order::$name $(($field))? => {
                $line.push($word);
                $(push_carried!($line $field $field);)?
            })*
        }
    };
}

impl TextLine {
    /// Appends a client: `clock`, or an application and a thread of it. It is copied into its callers, since each line has one.
    #[inline(always)]
    pub(crate) fn push_client(&mut self, client: ClientId)
        requires { length self.old + CLIENT_BYTES ≤ LINE_BYTES }
        ensures text { self.new ≡ self.old ++ client_word client }
        ensures length { length self.new ≤ length self.old + CLIENT_BYTES }
    {
        match (client.app_no(), client.thread_no()) {
            (Some(app), Some(thread)) => {
                self.push_small(app);
                self.push(".");
                self.push_small(thread);
            }
            _ => self.push("clock"),
        }
    }

    /// Appends the entries of a request, a space before each.
    fn push_entries(&mut self, request: Request)
        requires { length self.old + 4 * LEVELS ≤ LINE_BYTES }
        ensures text { self.new ≡ self.old ++ flat_map (λ entry. space ∷ decimal entry) request }
        ensures length { length self.new ≤ length self.old + 4 * LEVELS }
    {
        for level in 0..LEVELS as u8 {
            self.push(" ");
            self.push_small(request.entry(level));
        }
    }

    /// Appends an order: its word, and what it carries.
    fn push_order(&mut self, order: &Order)
        requires { length self.old + ORDER_BYTES ≤ LINE_BYTES }
        ensures text { self.new ≡ self.old ++ order_text order.now }
        ensures length { length self.new ≤ length self.old + ORDER_BYTES }
    {
        order_cases!(order_arms!(self order))
    }

    /// Appends an order of a client, as it stands in a script.
    fn push_given(&mut self, client: ClientId, order: &Order)
        requires { length self.old + CLIENT_BYTES + 1 + ORDER_BYTES ≤ LINE_BYTES }
        ensures text { self.new ≡ self.old ++ given_text client order.now }
        ensures length { length self.new ≤ length self.old + CLIENT_BYTES + 1 + ORDER_BYTES }
    {
        self.push_client(client);
        self.push(" ");
        self.push_order(order);
    }

    /// Appends a place.
    fn push_place(&mut self, place: &Place)
        requires { length self.old + PLACE_BYTES ≤ LINE_BYTES }
        ensures text { self.new ≡ self.old ++ place_text place.now }
        ensures length { length self.new ≤ length self.old + PLACE_BYTES }
    {
        match place {
            Place::Unmanaged => self.push("unmanaged"),
            Place::Waiting => self.push("waiting"),
            Place::Moved => self.push("moved"),
            Place::On { core, asked } => {
                self.push("core ");
                self.push_number(u64::from(*core));
                self.push_asked(*asked);
            }
        }
    }

    /// Appends that a core is asked back, where it is.
    pub(crate) fn push_asked(&mut self, asked: bool)
        requires { length self.old + ASKED_BYTES ≤ LINE_BYTES }
        ensures text { self.new ≡ self.old ++ asked_text asked }
        ensures length { length self.new ≤ length self.old + ASKED_BYTES }
    {
        if asked {
            self.push(" asked");
        }
    }

    /// Appends a refusal: its number and name.
    fn push_refusal(&mut self, refusal: &Refusal)
        requires { length self.old + REFUSAL_BYTES ≤ LINE_BYTES }
        ensures text { self.new ≡ self.old ++ refusal_text refusal.now }
        ensures length { length self.new ≤ length self.old + REFUSAL_BYTES }
    {
        match refusal {
            Refusal::AlreadyJoined => self.push("1 already-joined"),
            Refusal::NotJoined => self.push("2 not-joined"),
            Refusal::AlreadyWaiting => self.push("4 already-waiting"),
            Refusal::ClockBack(clock) => {
                self.push("5 clock-back ");
                self.push_number(*clock);
            }
            Refusal::NotAThread => self.push("6 not-a-thread"),
            Refusal::CapTooLarge => self.push("7 cap-too-large"),
        }
    }

    /// Appends the cores of an application that are due, owned and asked back, and its threads that wait.
    fn push_counts(&mut self, due: u8, owned: u8, asked: u8, waiting: u8)
        requires { length self.old + REPLY_BYTES ≤ LINE_BYTES }
        ensures text { self.new ≡ self.old ++ reply_text (Reply.Counts due owned asked waiting) }
        ensures length { length self.new ≤ length self.old + REPLY_BYTES }
    {
        self.push("counts due ");
        self.push_small(due);
        self.push(" owned ");
        self.push_small(owned);
        self.push(" asked ");
        self.push_small(asked);
        self.push(" waiting ");
        self.push_small(waiting);
    }

    /// Appends a reply.
    fn push_reply(&mut self, reply: &Reply)
        requires { length self.old + REPLY_BYTES ≤ LINE_BYTES }
        ensures text { self.new ≡ self.old ++ reply_text reply.now }
        ensures length { length self.new ≤ length self.old + REPLY_BYTES }
    {
        match reply {
            Reply::Joined => self.push("joined"),
            Reply::Due(due) => {
                self.push("due ");
                self.push_small(*due);
            }
            Reply::Now(place) => {
                self.push("now ");
                self.push_place(place);
            }
            Reply::Done => self.push("done"),
            Reply::Counts {
                due,
                owned,
                asked,
                waiting,
            } => self.push_counts(*due, *owned, *asked, *waiting),
            Reply::Moved(threads) => {
                self.push("moved ");
                self.push_small(*threads);
            }
            Reply::Refused(refusal) => {
                self.push("refused ");
                self.push_refusal(refusal);
            }
        }
    }

    /// Makes this the line of an order of a client with its reply, as [`entry_line`] gives it, whatever it was before.
    pub fn set_entry(&mut self, client: ClientId, order: &Order, reply: &Reply)
        ensures { self.new ≡ entry_text client order.now reply.now }
    {
        self.clear();
        self.push_given(client, order);
        self.push(" -> ");
        self.push_reply(reply);
        self.push("\n");
    }

    /// Makes this the line of an order of a client that came after the limit on orders, as [`full_line`] gives it,
    /// whatever it was before.
    pub fn set_full(&mut self, client: ClientId, order: &Order)
        ensures { self.new ≡ full_text client order.now }
    {
        self.clear();
        self.push_given(client, order);
        self.push(" -> full\n");
    }
}

/// A line of a script: an order of a client, without its reply. It is what is read back by the law of
/// [`orders_are_read_back`](crate::laws::orders_are_read_back).
pub fn order_line(client: ClientId, order: &Order) -> TextLine
    ensures { result ≡ given_text client order.now ++ line_feed ∷ [] }
{
    let mut text = TextLine::new();
    text.push_given(client, order);
    text.push("\n");
    text
}

/// The line of an order of a client with its reply, which [`print_entry`] writes.
pub fn entry_line(client: ClientId, order: &Order, reply: &Reply) -> TextLine
    ensures { result ≡ entry_text client order.now reply.now }
{
    let mut line = TextLine::new();
    line.set_entry(client, order, reply);
    line
}

/// The line of an order of a client that came after the limit on orders, which [`print_full`] writes.
pub fn full_line(client: ClientId, order: &Order) -> TextLine
    ensures { result ≡ full_text client order.now }
{
    let mut line = TextLine::new();
    line.set_full(client, order);
    line
}

/// Writes a line of text.
pub(crate) fn write_line<W: Sink>(writer: &mut W, line: &TextLine) -> Result<(), WriteFault>
    ensures { Writes W.contents W.failures writer.old writer.new result line.now }
{
    match write_all(writer, line.as_bytes()) {
        Ok(()) => Ok(()),
        Err(Failed) => Err(WriteFault),
    }
}

/// Writes the text of a reply alone, without LF. Takes no memory.
///
/// # Errors
/// [`WriteFault`] where a call of the writer failed; a prefix of the text was written.
///
/// ```
/// let mut sink = Watched::new(Vec::new(alloc));
/// print_reply(&mut sink, &Reply::Due(2))?; // due 2
/// ```
pub fn print_reply<W: Sink>(writer: &mut W, reply: &Reply) -> Result<(), WriteFault>
    ensures { Writes W.contents W.failures writer.old writer.new result (reply_text reply.now) }
{
    let mut line = TextLine::new();
    line.push_reply(reply);
    write_line(writer, &line)
}

/// Writes an order of a client with its reply, as one line with LF: the order as it stands in a script, ` -> `, and the
/// reply. A request is written with all its entries. Takes no memory.
///
/// # Errors
/// [`WriteFault`] where a call of the writer failed; a prefix of the line was written.
///
/// ```
/// print_entry(&mut sink, client, &Order::Block, &reply)?; // 0.0 block -> now core 1
/// ```
pub fn print_entry<W: Sink>(
    writer: &mut W,
    client: ClientId,
    order: &Order,
    reply: &Reply,
) -> Result<(), WriteFault>
    ensures { Writes W.contents W.failures writer.old writer.new result (entry_text client order.now reply.now) }
{
    write_line(writer, &entry_line(client, order, reply))
}

/// Writes an order of a client that came after the limit on orders, as one line with LF: the order as it stands in a
/// script, ` -> `, and `full`. Takes no memory.
///
/// # Errors
/// [`WriteFault`] where a call of the writer failed; a prefix of the line was written.
///
/// ```
/// print_full(&mut sink, client, &Order::Status)?; // 0.0 status -> full
/// ```
pub fn print_full<W: Sink>(
    writer: &mut W,
    client: ClientId,
    order: &Order,
) -> Result<(), WriteFault>
    ensures { Writes W.contents W.failures writer.old writer.new result (full_text client order.now) }
{
    write_line(writer, &full_line(client, order))
}
