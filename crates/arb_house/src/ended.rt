//! What a server leaves.

ghost use Rattle.std.specs.Prelude.{◌≡◌, ◌≢◌, ◌<◌, ◌≤◌, None, true, IsTrue, ◌↔◌, vec_capacity, vec_len};
ghost use Rattle.std.specs.Arc.{arc_value};
ghost use Rattle.std.specs.List.{Contains};
ghost use mathlib.Core.List.{IsPrefix};
ghost use Rattle.crossbeam_queue.specs.Passes.{IsPassOf, view};
ghost use Rattle.arb_model.specs.Arbiter.{arbiter_in};
ghost use Rattle.arb_model.specs.History.{IsLegal, IsSettled, entries_of, orders_in, state_after};
ghost use Rattle.arb_model.proofs.FactLaws.{legal_prop};
ghost use Rattle.arb_desk.specs.Messages.{is_closed, messages_by};
ghost use Rattle.arb_desk.specs.Passes.{IsPassAt, queue_id};
ghost use Rattle.arb_house.specs.Serving.{AllClosed, stepped};
ghost use Rattle.arb_house.specs.Taking.{EnteredFrom, FollowsTaken, TakenFrom};

use arb_core::Core;
use arb_desk::{Desk, OrderPass, Past, reconcile};
use arb_model::{ClientId, Entry, Order, Reply};
use arb_page::{Memory, Note, Point, Set, Writer};
use std::alloc::Global;
use std::marker::Model;
use std::sync::Arc;

/// What a server leaves when it has ended.
#[derive(Drop)]
pub struct Ended<K: Set> {
    /// The entries, in their order.
    pub journal: Vec<Entry>,
    /// The arbiter, in the state after them.
    pub core: Core,
    /// Set where the server ended early, out of memory. Then the limit on orders wasn't reached, and the journal has no
    /// room for one entry more.
    pub fault: Option<Memory>,
    /// What it had seen and taken, and whom it served.
    pub served: Served<K>,
    ghost legal: { IsLegal K.machine served.seen } by { Prim.hlevel legal_prop },
    ghost entries: { journal.items ≡ entries_of served.seen },
    ghost state: { core ≡ arbiter_in K.machine (state_after K.machine served.seen) },
    ghost settled: { IsSettled K.machine served.seen },
    ghost orders: { FollowsTaken K.machine.orders journal.items served.taken },
    ghost listed: { TakenFrom served.clients served.taken },
    ghost own: { EnteredFrom served.clients journal.items },
    ghost closed: { fault ≡ None → AllClosed served.clients served.taken },
    ghost early: { fault ≢ None → (orders_in served.seen < K.machine.orders) × (vec_capacity journal ≤ vec_len journal) },
}

/// What a server had seen and taken, and whom it served.
///
/// Contracts see the history, how many steps the server made on the pages, the messages, the clients in the order in which
/// they were named, and which queue it is.
#[derive(Drop)]
pub struct Served<K: Set> {
    desk: Arc<Desk<K>, Global>,
    pass: OrderPass,
    writer: Writer<K>,
    clients: Vec<ClientId>,
}

impl<K: Set> Model for Served<K> {
    ghost use Rattle.std.specs.Prelude.{◌≡◌, true};
    ghost use Rattle.std.specs.Arc.{arc_value};
    ghost use Rattle.crossbeam_queue.specs.Passes.{IsPassOf, view as known};
    ghost use Rattle.arb_desk.specs.Passes.{queue_id};
    ghost use Rattle.arb_house.specs.Serving.{Remains};

    ghost Value = { Remains };

    ghost view = { λ k. record {
      seen = k.writer.seen;
      steps = k.writer.steps;
      taken = (known k.pass).taken;
      clients = k.clients.items;
      queue = queue_id (arc_value k.desk).orders;
    } };

    ghost invariant = { λ k. IsPassOf (arc_value k.desk).orders k.pass × ((known k.pass).is_server ≡ true) };
}

impl<K: Set> Served<K> {
    /// What the pass, the writer and the list of clients say.
    pub(crate) fn new(
        desk: Arc<Desk<K>, Global>,
        pass: OrderPass,
        writer: Writer<K>,
        clients: Vec<ClientId>,
    ) -> Served<K>
        requires queue { IsPassOf (arc_value desk).orders pass }
        requires pass { (view pass).is_server ≡ true }
        ensures { result ≡ record { seen = writer.seen; steps = writer.steps; taken = (view pass).taken; clients = clients.items; queue = queue_id (arc_value desk).orders } }
    {
        Served {
            desk,
            pass,
            writer,
            clients,
        }
    }

    /// The clients that were served, in the order in which they were named.
    fn clients(&self) -> &[ClientId]
        ensures { result.now ≡ self.now.clients }
    {
        self.clients.as_slice()
    }

    /// Whether a client was served.
    fn serves(&self, client: ClientId) -> bool
        ensures { IsTrue result ↔ Contains self.now.clients client }
    {
        self.clients.as_slice().contains(&client)
    }

    /// Learns a note. What it carries is a prefix of the history that the server had seen. Two loads.
    fn learn(&mut self, note: Note<K>)
        ensures told { IsPrefix note self.new.seen }
        ensures same { self.new ≡ stepped self.old 2 }
    {
        self.writer.learn(&self.desk.pages, note);
    }

    /// Takes in a client's pass to the queue, and its point of the history. Four loads of page words, two of
    /// them the writer's.
    fn reconcile(&mut self, pass: OrderPass, point: Point)
        requires queue { IsPassAt self.old.queue pass }
        requires table { point.table ≡ K.table }
        requires client { (view pass).is_client ≡ true }
        ensures seen { IsPrefix point.seen self.new.seen }
        ensures begins { IsPrefix (messages_by (view pass).client self.old.taken) (view pass).put }
        ensures whole { is_closed (messages_by (view pass).client self.old.taken) ≡ true
            → (view pass).put ≡ messages_by (view pass).client self.old.taken }
        ensures same { self.new ≡ stepped self.old 2 }
    {
        reconcile(&self.desk.orders, &mut self.pass, pass);
        let mut reader = point.into_reader::<K>(&self.desk.pages);
        let note = reader.tell(&self.desk.pages);
        self.learn(note);
    }
}

impl<K: Set> Ended<K> {
    /// The clients that the server served, in the order in which they were named when the house was opened.
    pub fn clients(&self) -> &[ClientId]
        ensures { result.now ≡ self.now.served.clients }
    {
        self.served.clients()
    }

    /// Whether the server served a client: whether it was named when the house was opened.
    pub fn serves(&self, client: ClientId) -> bool
        ensures { IsTrue result ↔ Contains self.now.served.clients client }
    {
        self.served.serves(client)
    }

    /// Learns a note. What it carries is a prefix of the history whose entries are the journal. So that holds of all that
    /// a client had seen when it told the note. Two loads.
    pub fn learn(&mut self, note: Note<K>)
        ensures told { IsPrefix note self.new.served.seen }
        ensures same { (self.new.journal ≡ self.old.journal) × (self.new.core ≡ self.old.core) × (self.new.fault ≡ self.old.fault) × (self.new.served ≡ stepped self.old.served 2) }
    {
        self.served.learn(note);
    }

    /// Takes in what a client left, and gives back its answered orders. What was taken of the client begins what it put, and
    /// is all of it where its close mark was taken. What it had seen is a prefix of the history whose entries are the
    /// journal. Four loads of page words, two of them the writer's.
    ///
    /// The past must be of a client of this server: of its queue and its pages.
    pub fn reconcile(&mut self, past: Past) -> Vec<(Order, Reply)>
        requires queue { IsPassAt self.old.served.queue past.pass }
        requires table { past.point.table ≡ K.table }
        ensures mine { result.items ≡ past.mine.items }
        ensures seen { IsPrefix past.point.seen self.new.served.seen }
        ensures begins { IsPrefix (messages_by past.client self.old.served.taken) (view past.pass).put }
        ensures whole { is_closed (messages_by past.client self.old.served.taken) ≡ true
            → (view past.pass).put ≡ messages_by past.client self.old.served.taken }
        ensures same { (self.new.journal ≡ self.old.journal) × (self.new.core ≡ self.old.core) × (self.new.fault ≡ self.old.fault) × (self.new.served ≡ stepped self.old.served 2) }
    {
        let Past {
            client: _,
            mine,
            whole: _,
            pass,
            point,
        } = past;
        self.served.reconcile(pass, point);
        mine
    }
}
