//! A client, and what it tells and learns.

ghost use Rattle.std.specs.Prelude.{◌≡◌, ◌+◌, [], true, false, length, vec_len, vec_capacity, ◌≤◌};
ghost use Rattle.std.specs.Arc.{arc_value};
ghost use mathlib.Core.List.{IsPrefix};
ghost use Rattle.crossbeam_queue.specs.Passes.{IsPassOf, view};
ghost use Rattle.arb_config.specs.Machine.{IsMachine};
ghost use Rattle.arb_model.specs.History.{IsLegal};
ghost use Rattle.arb_desk.specs.Answers.{IsFullPast};
ghost use Rattle.arb_page.specs.Seen.{newcomer};
ghost use Rattle.arb_desk.specs.Passes.{client_view, queue_id};
ghost use Rattle.arb_client.specs.Sides.{SeesOn, StandIn, fresh, most_open, puts_of};

use arb_desk::{Answer, Desk, OrderPass, Receiver};
use arb_model::{ClientId, Order, Reply};
use arb_page::{Note, Reader, Set};
use std::alloc::Global;
use std::marker::Model;
use std::sync::Arc;

/// How many orders of a client may be open.
pub const MOST_OPEN: usize = 8;

/// An order that was posted and not collected.
#[derive(Clone, Copy, Debug, PartialEq, Eq)]
pub struct OpenOrder {
    /// What was ordered.
    pub order: Order,
    /// How many orders stood in what the client had seen when it was posted.
    pub orders_seen: u64,
}

/// A client.
///
/// It ends by `close`. Where it is dropped without that, its close mark is never put, and the server may serve on for good.
///
/// Contracts see it as a `Side`.
#[derive(Drop)]
pub struct Client<K: Set> {
    pub(crate) id: ClientId,
    pub(crate) desk: Arc<Desk<K>, Global>,
    pub(crate) pass: OrderPass,
    pub(crate) reader: Reader<K>,
    pub(crate) answers: Receiver<Answer<K>>,
    /// The answered orders.
    pub(crate) mine: Vec<(Order, Reply)>,
    /// The open orders, the oldest first.
    pub(crate) out: Vec<OpenOrder>,
    /// Whether an order was answered as past the limit.
    pub(crate) full: bool,
    /// Whether a `collect` answered `Gone` or `Stranger`, or a wait for a core saw that the server had ended.
    pub(crate) shut: bool,
    /// Whether it was so by `Stranger`.
    pub(crate) strange: bool,
    /// Whether the server had ended when the client last looked.
    pub(crate) ended: bool,
}

impl<K: Set> Model for Client<K> {
    ghost use Rattle.std.specs.Prelude.{◌≡◌, ◌+◌, ◌-◌, ◌≤◌, true, false, length, vec_len, vec_capacity};
    ghost use Rattle.std.specs.Arc.{arc_value};
    ghost use Rattle.crossbeam_queue.specs.Passes.{IsPassOf, view as known};
    ghost use Rattle.arb_config.specs.Machine.{IsMachine};
    ghost use Rattle.arb_model.specs.History.{IsLegal};
    ghost use Rattle.arb_desk.specs.Answers.{IsFullPast};
    ghost use Rattle.arb_desk.specs.Messages.{is_closed};
    ghost use Rattle.arb_desk.specs.Passes.{queue_id};
    ghost use Rattle.arb_client.specs.Sides.{Side, StandIn, most_open, puts_of};

    ghost Value = { Side };

    ghost view = { λ c. record {
      id = c.id;
      seen = c.reader.seen;
      steps = c.reader.steps;
      mine = c.mine.items;
      out = c.out.items;
      put = (known c.pass).put;
      full = c.full;
      shut = c.shut;
      strange = c.strange;
      ended = c.ended;
      room = vec_capacity c.mine - (vec_len c.mine + vec_len c.out);
      places = vec_capacity c.out;
      queue = queue_id (arc_value c.desk).orders;
    } };

    ghost invariant = { λ c. IsPassOf (arc_value c.desk).orders c.pass
        × ((known c.pass).is_client ≡ true) × ((known c.pass).client ≡ c.id) × (is_closed (known c.pass).put ≡ false)
        × (c.full ≡ false → c.shut ≡ false → (known c.pass).put ≡ puts_of c.id c.mine.items c.out.items)
        × IsLegal K.machine c.reader.seen
        × StandIn c.id c.mine.items c.reader.seen
        × (vec_len c.mine + vec_len c.out ≤ vec_capacity c.mine)
        × (vec_len c.out ≤ most_open) × (most_open ≤ vec_capacity c.out)
        × IsMachine K.machine
        × (c.full ≡ true → IsFullPast K.machine c.reader.seen c.id (length c.mine.items)) };
}

impl<K: Set> Client<K> {
    /// A client that has seen nothing and put nothing. The list of open orders has room for as many as may be open.
    pub fn new(
        id: ClientId,
        desk: Arc<Desk<K>, Global>,
        pass: OrderPass,
        reader: Reader<K>,
        answers: Receiver<Answer<K>>,
        mine: Vec<(Order, Reply)>,
        out: Vec<OpenOrder>,
    ) -> Client<K>
        requires queue { IsPassOf (arc_value desk).orders pass }
        requires pass { view pass ≡ client_view id [] }
        requires reader { reader ≡ newcomer [] }
        requires machine { IsMachine K.machine }
        requires mine { (mine.items ≡ []) × (vec_capacity mine ≡ 0) }
        requires out { (out.items ≡ []) × (most_open ≤ vec_capacity out) }
        ensures { result ≡ record (fresh (queue_id (arc_value desk).orders) id) { places = vec_capacity out } }
    {
        Client {
            id,
            desk,
            pass,
            reader,
            answers,
            mine,
            out,
            full: false,
            shut: false,
            strange: false,
            ended: false,
        }
    }

    /// Who it is.
    pub fn id(&self) -> ClientId
        ensures { result ≡ self.now.id }
    {
        self.id
    }

    /// How many of its orders are open.
    pub fn out(&self) -> usize
        ensures count { result ≡ length self.now.out }
        ensures most { result ≤ most_open }
    {
        self.out.len()
    }

    /// The answered orders with their replies, refused ones included. Each stands in the history that was seen, as the
    /// client's entry of the same index.
    pub fn mine(&self) -> &[(Order, Reply)]
        ensures is { result.now ≡ self.now.mine }
        ensures stand { StandIn self.now.id self.now.mine self.now.seen }
        ensures legal { IsLegal K.machine self.now.seen }
        ensures machine { IsMachine K.machine }

        // until the limit or the end was met, what was put is the answered orders, and then the open ones
        ensures put { self.now.full ≡ false → self.now.shut ≡ false
            → self.now.put ≡ puts_of self.now.id self.now.mine self.now.out }

        // once the limit was met, what was seen holds as many orders as that, and of the client's just the answered ones
        ensures full { self.now.full ≡ true → IsFullPast K.machine self.now.seen self.now.id (length self.now.mine) }
    {
        self.mine.as_slice()
    }

    /// A note of what it has seen. One load.
    pub fn tell(&mut self) -> Note<K>
        ensures note { result ≡ self.old.seen }
        ensures same { SeesOn self.old self.new }
        ensures seen { self.new.seen ≡ self.old.seen }
        ensures one_load { self.new.steps ≡ self.old.steps + 1 }
    {
        self.reader.tell(&self.desk.pages)
    }

    /// It has seen what the note carries, and what it had seen. Two loads.
    pub fn learn(&mut self, note: Note<K>)
        ensures told { IsPrefix note self.new.seen }
        ensures legal { IsLegal K.machine self.new.seen }
        ensures same { SeesOn self.old self.new }
        ensures two_loads { self.new.steps ≡ self.old.steps + 2 }
    {
        self.reader.learn(&self.desk.pages, note);
    }
}
