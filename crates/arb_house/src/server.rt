//! The server.

ghost use Rattle.std.specs.Prelude.{◌≡◌, ◌≢◌, ◌<◌, ◌≤◌, [], true, None, IfErr, IfOk, IsFalse, IsTrue, length, vec_capacity, vec_len};
ghost use Rattle.std.specs.Arc.{arc_value};
ghost use mathlib.Core.List.{IsPrefix};
ghost use Rattle.crossbeam_queue.specs.Passes.{IsPassOf, view};
ghost use Rattle.arb_model.specs.Arbiter.{arbiter_in};
ghost use Rattle.arb_model.specs.History.{IsLegal, IsSettled, entries_of, orders_in, state_after};
ghost use Rattle.arb_desk.specs.Passes.{has, queue_id};
ghost use Rattle.arb_house.specs.Clients.{HaveClosed, ListsAll};
ghost use Rattle.arb_house.specs.Recording.{IsReady, WantsRoom};
ghost use Rattle.arb_house.specs.Serving.{AllClosed, Marked};
ghost use Rattle.arb_house.specs.Taking.{EnteredFrom, FollowsTaken, TakenFrom};

use crate::Recorder;
use crate::clients::Roster;
use crate::ended::{Ended, Served};
use crate::ends::Ends;
use crate::looks::{NoMessage, OnlyMarks, take_one};
use arb_desk::{Answer, Body, Desk, Message, OrderPass, Sender};
use arb_model::ClientId;
use arb_page::{Bell, Memory, Set, Watch};
use std::alloc::Global;
use std::marker::Model;
use std::sync::{Arc, Wait};
use std::thread;

/// Takes orders and answers them.
///
/// Contracts see the history so far, the messages that it took, its clients, and which of them have closed; for how many
/// entries its journal has room; and which queue it is.
#[derive(Drop)]
pub struct Server<K: Set> {
    ends: Ends<K>,
    pass: OrderPass,
    recorder: Recorder<K>,
    clients: Roster,
    answers: Vec<Sender<Answer<K>>>,
}

impl<K: Set> Model for Server<K> {
    ghost use Rattle.std.specs.Prelude.{◌≡◌, length, true};
    ghost use Rattle.std.specs.Arc.{arc_value};
    ghost use Rattle.crossbeam_queue.specs.Passes.{IsPassOf, view as known};
    ghost use Rattle.arb_model.specs.History.{entries_of};
    ghost use Rattle.arb_desk.specs.Passes.{queue_id};
    ghost use Rattle.arb_house.specs.Clients.{ListsAll};
    ghost use Rattle.arb_house.specs.Serving.{Marked, ServerState};
    ghost use Rattle.arb_house.specs.Taking.{FollowsTaken, TakenFrom};

    ghost Value = { ServerState };

    ghost view = { λ s. record {
      seen = s.recorder.seen;
      taken = (known s.pass).taken;
      clients = s.clients.list;
      closed = s.clients.closed;
      room = s.recorder.room;
      queue = queue_id (arc_value s.ends.desk).orders;
    } };

    ghost invariant = { λ s. IsPassOf (arc_value s.ends.desk).orders s.pass × ((known s.pass).is_server ≡ true)
        × FollowsTaken K.machine.orders (entries_of s.recorder.seen) (known s.pass).taken
        × Marked s.clients.list s.clients.closed (known s.pass).taken
        × TakenFrom s.clients.list (known s.pass).taken
        × ListsAll s.clients.list (known s.pass).made
        × (length s.answers.items ≡ length s.clients.list) };
}

impl<K: Set> Server<K> {
    /// A server that has taken nothing, and whose clients haven't closed. Each has its sender in `answers`, at its index in
    /// the list. No client but the listed ones has a pass to the queue.
    pub fn new(
        desk: Arc<Desk<K>, Global>,
        pass: OrderPass,
        recorder: Recorder<K>,
        clients: Roster,
        answers: Vec<Sender<Answer<K>>>,
    ) -> Server<K>
        requires queue { IsPassOf (arc_value desk).orders pass }
        requires pass { ((view pass).is_server ≡ true) × ((view pass).taken ≡ []) }
        requires recorder { recorder.seen ≡ [] }
        requires closed { Marked clients.list clients.closed [] }
        requires listed { ListsAll clients.list (view pass).made }
        requires answers { length answers.items ≡ length clients.list }
        ensures { result ≡ record { seen = []; taken = []; clients = clients.list; closed = clients.closed; room = recorder.room; queue = queue_id (arc_value desk).orders } }
    {
        Server {
            ends: Ends { desk },
            pass,
            recorder,
            clients,
            answers,
        }
    }

    /// Serves until each client has closed, or it is out of memory. Where the queue is empty it looks again for some fifty
    /// microseconds at most, and then sleeps until a message is put. A client that is dropped without `close` never closes:
    /// then this may wait for good.
    pub fn serve<R: Wait>(mut self, rt: &R) -> Ended<K>
        ensures clients { result.served.clients ≡ self.clients }
        ensures queue { result.served.queue ≡ self.queue }
        ensures later { IsPrefix self.seen result.served.seen }
        ensures taken { IsPrefix self.taken result.served.taken }

        // the journal is the entries of the history, after which the arbiter stands with no word stale
        ensures legal { IsLegal K.machine result.served.seen }
        ensures journal { result.journal.items ≡ entries_of result.served.seen }
        ensures core { result.core ≡ arbiter_in K.machine (state_after K.machine result.served.seen) }
        ensures settled { IsSettled K.machine result.served.seen }

        // its orders are those that were taken, up to the limit
        ensures orders { FollowsTaken K.machine.orders result.journal.items result.served.taken }

        // each message that was taken is of a client that it serves, and so each entry is
        ensures listed { TakenFrom result.served.clients result.served.taken }
        ensures own { EnteredFrom result.served.clients result.journal.items }

        // without a fault each client's close mark was taken; with one the limit wasn't reached, and the journal has no room
        ensures closed { result.fault ≡ None → AllClosed result.served.clients result.served.taken }
        ensures early { result.fault ≢ None
            → (orders_in result.served.seen < K.machine.orders) × (vec_capacity result.journal ≤ vec_len result.journal) }
    {
        let mut watch = Watch::new();
        for _ in rt.forever() {
            if self.all_closed() {
                break;
            }
            match self.turn(rt) {
                Ok(()) => watch.found(),
                Err(Untaken::Memory) => return self.end(Some(Memory)),
                Err(Untaken::NoMessage(seen)) => {
                    rest(rt, &mut watch, &self.ends.desk.messages, seen);
                }
            }
        }
        self.end(None)
    }

    /// Whether the close mark of each client was taken.
    fn all_closed(&self) -> bool
        ensures closed { IsTrue result → AllClosed self.now.clients self.now.taken }
        ensures open { IsFalse result → ¬ HaveClosed (record { list = self.now.clients; closed = self.now.closed }) }
    {
        self.clients.all_closed()
    }

    /// Takes one message, if there is one, and answers it. Where a message is there that may be an order, and its entry has no
    /// room, it asks for memory first. It is called only while a client hasn't closed.
    fn turn<R: Wait>(&mut self, rt: &R) -> Result<(), Untaken>
        requires open { ¬ HaveClosed (record { list = self.old.clients; closed = self.old.closed }) }
        ensures clients { self.new.clients ≡ self.old.clients }
        ensures queue { self.new.queue ≡ self.old.queue }
        ensures later { IsPrefix self.old.seen self.new.seen }
        ensures taken { IsPrefix self.old.taken self.new.taken }

        // nothing was taken: all is as before, but that there may be room now; where memory was missing there is none, and none was taken
        ensures untaken { IfErr result (λ _. self.new ≡ record self.old { room = self.new.room }) }
        ensures early { IfErr result (λ why. why ≡ Untaken.Memory → (orders_in self.new.seen < K.machine.orders) × (self.new.room ≡ 0)) }
        ensures unchanged { IfErr result (λ why. why ≡ Untaken.Memory → self.new ≡ self.old) }
    {
        let clients = self.answers.len();
        let room = make_room(&self.ends.desk, &mut self.pass, &mut self.recorder, clients)?;
        let message = match take_one(rt, &self.ends.desk.orders, &mut self.pass) {
            Ok(message) => message,
            Err(seen) => return Err(Untaken::NoMessage(seen)),
        };
        self.ends.desk.room.wake_one();
        let Message { client, body } = message;
        match body {
            Body::Close => self.clients.close(client),
            Body::Put(order) => {
                have_room(rt, &mut self.recorder, room);
                let answer = self.recorder.record(&self.ends.desk.pages, client, &order);
                self.send(rt, client, answer);
            }
        }
        Ok(())
    }

    /// Sends an answer to a client that is served. One that is gone gets none.
    fn send<R: Wait>(&mut self, rt: &R, client: ClientId, answer: Answer<K>)
        requires listed { has client self.old.clients ≡ true }
        ensures same { self.new ≡ self.old }
    {
        let k = self.clients.index_of(client);
        let _sent = self.answers[k].send(rt, answer);
    }

    /// What is left. The clients are told that the server has ended.
    fn end(self, fault: Option<Memory>) -> Ended<K>
        requires closed { fault ≡ None → AllClosed self.clients self.taken }
        requires early { fault ≢ None → (orders_in self.seen < K.machine.orders) × (self.room ≡ 0) }
        requires open { fault ≢ None → ¬ HaveClosed (record { list = self.clients; closed = self.closed }) }
        ensures fault { result.fault ≡ fault }
        ensures served { result.served ≡ record { seen = self.seen; steps = result.served.steps; taken = self.taken; clients = self.clients; queue = self.queue } }
    {
        let Server {
            ends,
            pass,
            recorder,
            clients,
            answers: _,
        } = self;
        let desk = ends.end();
        let (journal, core, writer) = recorder.into_parts();
        Ended {
            journal,
            core,
            fault,
            served: Served::new(desk, pass, writer, clients.into_list()),
        }
    }
}

/// Why no message was taken.
#[derive(Drop)]
enum Untaken {
    /// There was none.
    NoMessage(NoMessage),
    /// Its entry has no room, and an allocation failed.
    Memory,
}

/// What room there is where a message may be taken.
#[derive(Drop)]
enum Room {
    /// There is room for the entry of an order, or the limit is reached, so that none is entered.
    Ready,
    /// None was asked for, since only close marks come.
    NotNeeded(OnlyMarks),
}

/// Makes room for the entry of the next order, if there is none. It does so only where a message is there, and not where all
/// clients close: then only their marks come, which need no room.
fn make_room<K: Set>(
    desk: &Desk<K>,
    pass: &mut OrderPass,
    recorder: &mut Recorder<K>,
    clients: usize,
) -> Result<Room, Untaken>
    requires queue { IsPassOf desk.now.orders pass.old }
    ensures queue { IsPassOf desk.now.orders pass.new }
    ensures pass { view pass.new ≡ view pass.old }
    ensures seen { recorder.new.seen ≡ recorder.old.seen }
    ensures ready { IfOk result (λ room. room ≡ Room.Ready → IsReady K.machine recorder.new) }
    ensures wants { IfErr result (λ why. why ≡ Untaken.Memory → WantsRoom K.machine recorder.old) }
    ensures unchanged { IfErr result (λ _. recorder.new ≡ recorder.old) }
    ensures kept { ¬ WantsRoom K.machine recorder.old → recorder.new ≡ recorder.old }
{
    if recorder.has_room() {
        return Ok(Room::Ready);
    }
    if let Some(seen) = NoMessage::look(&desk.orders, pass) {
        return Err(Untaken::NoMessage(seen));
    }
    if let Some(seen) = OnlyMarks::look(desk, clients) {
        return Ok(Room::NotNeeded(seen));
    }
    match recorder.reserve() {
        Ok(()) => Ok(Room::Ready),
        Err(Memory) => Err(Untaken::Memory),
    }
}

/// Sees to it that the next entry has room. Where only close marks were to come it waits for memory, if there is none: but a
/// client that has said that it closes puts no order.
fn have_room<K: Set, R: Wait>(rt: &R, recorder: &mut Recorder<K>, room: Room)
    requires ready { room ≡ Room.Ready → IsReady K.machine recorder.old }
    ensures ready { IsReady K.machine recorder.new }
    ensures same { recorder.new.seen ≡ recorder.old.seen }
{
    match room {
        Room::Ready => {}
        Room::NotNeeded(seen) => recorder.reserve_at_last(rt, seen),
    }
}

/// Rests until the next look. The queue was seen to be empty.
fn rest<R: Wait>(rt: &R, watch: &mut Watch, messages: &Bell, _seen: NoMessage) {
    if watch.has_slept() {
        thread::yield_now();
    }
    watch.rest(rt, messages);
}
