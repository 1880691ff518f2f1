//! A script, read whole.

ghost use Rattle.std.specs.Prelude.{◌≡◌, ◌≢◌, ◌<◌, ◌==◌, Some, length, slice_get, IfOk, IfErr};
ghost use Rattle.std.specs.Option.{option_map};
ghost use Rattle.arb_script.specs.Script.{IsFirstFault, IsScript, StopsAt, said_in};

use crate::fault::{ScriptFault, ScriptKind};
use crate::line::read_line;
use crate::order_list::OrderList;
use crate::usual::usual_line;
use arb_model::{ClientId, Order};
use arb_share::text::split_line;
use std::alloc::Global;
use std::marker::Model;

/// The orders of a script, in line order, with who gives each.
#[derive(Debug, Drop)]
pub struct Script {
    orders: OrderList,
}

impl Model for Script {
    ghost use Rattle.std.specs.Prelude.{List};
    ghost use Rattle.arb_script.specs.declared.given.ClientOrder.{ClientOrder as GivenOrder};

    ghost Value = { List GivenOrder };

    ghost view = { λ s. s.orders };
}

/// The order of a line found no room.
fn no_room(line: usize) -> ScriptFault
    ensures { result ≡ record { line = line; kind = ScriptKind.Memory } }
{
    ScriptFault {
        line,
        kind: ScriptKind::Memory,
    }
}

impl Script {
    /// The script of a text. A line is cut into words at spaces, tabs and CRs, and has at most
    /// [`MAX_LINE`](crate::MAX_LINE) bytes. A line without a word, or whose first word begins with `#`, is skipped. Every
    /// other line gives an order of a client:
    ///
    /// | Words | Order |
    /// |---|---|
    /// | client `join`, `block`, `retire`, `leave`, `status` | takes no word more |
    /// | client `ask` entries | one to eight entries, 0 to 128, for the levels 0, 1 and so on; missing entries are 0 |
    /// | client `cap` number | 0 to 255 |
    /// | client `tick` moment | 0 to 2^64 - 1, in microseconds |
    ///
    /// A client is `clock`, or an application, 0 to 15, and a thread, 0 to 31, with one dot between them, as `2.31`.
    /// Every order may be written with every client. Numbers are decimal, without a sign or a leading zero.
    ///
    /// # Errors
    /// [`ScriptFault`] names the first faulty line and its first fault, in this order: too long, a bad client, no second
    /// word, an unknown order, too few or too many words, a bad number. [`ScriptKind::Memory`] comes only where an
    /// allocation failed, and names the line being read; no line up to it is faulty.
    ///
    /// ```
    /// let script = Script::from_text(alloc, "0.0 join\n0.0 ask 2\n")?;
    /// assert_eq!(script.len(), 2);
    /// ```
    pub fn from_text(alloc: Global, text: &str) -> Result<Script, ScriptFault>
        ensures script { IfOk result (IsScript (said_in text.now)) }
        ensures fault { IfErr result (λ fault. fault.kind ≢ ScriptKind.Memory → IsFirstFault (said_in text.now) fault) }
        ensures memory { IfErr result (λ fault. fault.kind ≡ ScriptKind.Memory → StopsAt (said_in text.now) fault.line) }
    {
        let mut orders = OrderList::new(alloc);
        let mut line_number = 0;
        let mut rest = text.as_bytes();
        while !rest.is_empty() {
            line_number += 1;
            if let Some((given, used)) = usual_line(rest) {
                if orders.push(given).is_err() {
                    return Err(no_room(line_number));
                }
                rest = &rest[used..];
                continue;
            }
            let (line, after) = split_line(rest);
            match read_line(line) {
                Ok(None) => {}
                Ok(Some(given)) => {
                    if orders.push(given).is_err() {
                        return Err(no_room(line_number));
                    }
                }
                Err(kind) => {
                    return Err(ScriptFault {
                        line: line_number,
                        kind,
                    });
                }
            }
            rest = after;
        }
        Ok(Script { orders })
    }

    /// How many orders the script has.
    pub fn len(&self) -> usize
        ensures { result ≡ length self.now }
    {
        self.orders.len()
    }

    /// Whether the script has no order.
    pub fn is_empty(&self) -> bool
        ensures { result ≡ (length self.now == 0) }
    {
        self.orders.is_empty()
    }

    /// Who gives the order at an index, counted from 0, which must be below [`Script::len`].
    pub fn client(&self, index: usize) -> ClientId
        requires { index < length self.now }
        ensures { option_map (λ given. given.client) (slice_get self.now index) ≡ Some result }
    {
        self.orders.client(index)
    }

    /// The order at an index, counted from 0, which must be below [`Script::len`].
    pub fn order(&self, index: usize) -> Order
        requires { index < length self.now }
        ensures { option_map (λ given. given.order) (slice_get self.now index) ≡ Some result }
    {
        self.orders.order(index)
    }
}
