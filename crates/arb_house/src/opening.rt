//! Opening a house: a server and its clients.

ghost use Rattle.std.specs.Prelude.{◌≡◌, ◌<◌, [], true, false, Some, IfOk, IfErr, IfNone, IfSome, length, map, replicate};
ghost use Rattle.std.specs.Arc.{arc_value};
ghost use Rattle.crossbeam_queue.specs.Passes.{IsPassOf, view};
ghost use Rattle.arb_config.specs.Machine.{IsMachine};
ghost use Rattle.arb_page.specs.Seen.{newcomer};
ghost use Rattle.arb_desk.specs.Passes.{has, makes, queue_id, server_view};
ghost use Rattle.arb_client.specs.Sides.{fresh};
ghost use Rattle.arb_house.specs.Clients.{ListsAll};
ghost use Rattle.arb_house.specs.Opening.{AllApart, IsFirstTwice, RefusesToOpen, opening_server};

use crate::clients::Roster;
use crate::recorder::Recorder;
use crate::server::Server;
use arb_client::{Client, MOST_OPEN};
use arb_config::Topology;
use arb_desk::{Answer, Desk, OrderPass, Sender, open_channel, pass_for};
use arb_model::ClientId;
use arb_page::{Blank, Reader, Set, Writer};
use std::alloc::{AllocError, Global};
use std::sync::{Arc, Wait};
use thiserror::Error;

/// Why a house wasn't opened.
#[derive(Clone, Copy, Debug, PartialEq, Eq, Error)]
pub enum OpenFault {
    /// The first client that equals an earlier one.
    #[error("a client is named twice")]
    Twice(ClientId),
    /// There was not enough memory.
    #[error("out of memory")]
    Memory,
}

/// A server and its clients.
pub struct House;

impl House {
    /// Opens a house over new pages: a server, and the clients in the order of the list, which may be empty. All allocations
    /// that the clients' orders need later are made here, but for the lists of replies and the journal.
    ///
    /// `K` must name the pages, and these be of this topology's machine.
    ///
    /// # Errors
    /// As [`OpenFault`] says; then nothing was started, and the pages are gone.
    pub fn open<K: Set>(
        _rt: &impl Wait,
        alloc: Global,
        blank: Blank,
        topology: &Topology,
        clients: &[ClientId],
    ) -> Result<(Server<K>, Vec<Client<K>>), OpenFault>
        requires name { (blank.table ≡ K.table) × (blank.machine ≡ K.machine) }
        requires topology { blank.machine ≡ topology.now }
        ensures apart { IfOk result (λ _. AllApart clients.now) }
        ensures clients { IfOk result (λ opened. opened.1.items ≡ map (fresh opened.0.queue) clients.now) }
        ensures server { IfOk result (λ opened. opened.0 ≡ opening_server opened.0.queue clients.now) }
        ensures refused { IfErr result (RefusesToOpen clients.now) }
    {
        if let Some(client) = first_twice(clients) {
            return Err(OpenFault::Twice(client));
        }
        match open_all(alloc, topology, clients, blank) {
            Ok(opened) => Ok(opened),
            Err(_) => Err(OpenFault::Memory),
        }
    }
}

/// The first client that equals an earlier one.
fn first_twice(clients: &[ClientId]) -> Option<ClientId>
    ensures apart { IfNone result (AllApart clients.now) }
    ensures first { IfSome result (IsFirstTwice clients.now) }
{
    for k in 0..clients.len() {
        for j in 0..k {
            if clients[j] == clients[k] {
                return Some(clients[k]);
            }
        }
    }
    None
}

/// The server and the clients, none of whom is listed twice.
fn open_all<K: Set>(
    alloc: Global,
    topology: &Topology,
    clients: &[ClientId],
    blank: Blank,
) -> Result<(Server<K>, Vec<Client<K>>), AllocError>
    requires name { (blank.table ≡ K.table) × (blank.machine ≡ K.machine) }
    requires topology { blank.machine ≡ topology.now }
    requires apart { AllApart clients.now }
    ensures clients { IfOk result (λ opened. opened.1.items ≡ map (fresh opened.0.queue) clients.now) }
    ensures server { IfOk result (λ opened. opened.0 ≡ opening_server opened.0.queue clients.now) }
{
    let named = Roster::new(alloc, clients)?;
    let mut sides = Vec::with_capacity(alloc, clients.len())?;
    let mut answers = Vec::with_capacity(alloc, clients.len())?;
    let (orders, mut pass) = arb_desk::open_queue(alloc)?;
    let (pages, mut writer) = blank.name::<K>();
    let desk = Arc::new(alloc, Desk::new(pages, orders, topology.copied()))?;
    open_clients(
        alloc,
        &desk,
        &mut pass,
        &mut writer,
        clients,
        &mut sides,
        &mut answers,
    )?;
    let recorder = Recorder::new(alloc, topology, writer);
    Ok((Server::new(desk, pass, recorder, named, answers), sides))
}

/// Opens the clients of the desk, none of whom is listed twice, and keeps each with the end of the channel that answers it.
fn open_clients<K: Set>(
    alloc: Global,
    desk: &Arc<Desk<K>, Global>,
    server: &mut OrderPass,
    writer: &mut Writer<K>,
    clients: &[ClientId],
    sides: &mut Vec<Client<K>>,
    answers: &mut Vec<Sender<Answer<K>>>,
) -> Result<(), AllocError>
    requires apart { AllApart clients.now }
    requires queue { IsPassOf (arc_value desk.now).orders server.old }
    requires server { view server.old ≡ server_view [] [] }
    requires writer { writer.old.seen ≡ [] }
    requires machine { IsMachine K.machine }
    requires none { (sides.old.items ≡ []) × (answers.old.items ≡ []) }
    ensures queue { IfOk result (λ _. IsPassOf (arc_value desk.now).orders server.new) }
    ensures server { IfOk result (λ _. ((view server.new).is_server ≡ true) × ((view server.new).taken ≡ [])) }
    ensures listed { IfOk result (λ _. ListsAll clients.now (view server.new).made) }
    ensures writer { IfOk result (λ _. writer.new.seen ≡ []) }
    ensures clients { IfOk result (λ _. sides.new.items ≡ map (fresh (queue_id (arc_value desk.now).orders)) clients.now) }
    ensures answers { IfOk result (λ _. length answers.new.items ≡ length clients.now) }
{
    for k in 0..clients.len() {
        let reader = writer.tell(&desk.pages).into_reader();
        let (client, to) = open_client(alloc, desk, server, reader, clients[k])?;
        sides.push(client)?;
        answers.push(to)?;
    }
    Ok(())
}

/// A client of the desk, and the end of the channel that answers it.
fn open_client<K: Set>(
    alloc: Global,
    desk: &Arc<Desk<K>, Global>,
    server: &mut OrderPass,
    reader: Reader<K>,
    id: ClientId,
) -> Result<(Client<K>, Sender<Answer<K>>), AllocError>
    requires queue { IsPassOf (arc_value desk.now).orders server.old }
    requires server { (view server.old).is_server ≡ true }
    requires new { has id (view server.old).made ≡ false }
    requires reader { reader ≡ newcomer [] }
    requires machine { IsMachine K.machine }
    ensures queue { IfOk result (λ _. IsPassOf (arc_value desk.now).orders server.new) }
    ensures made { IfOk result (λ _. view server.new ≡ makes (view server.old) id) }
    ensures client { IfOk result (λ opened. opened.0 ≡ fresh (queue_id (arc_value desk.now).orders) id) }
{
    let out = Vec::with_capacity(alloc, MOST_OPEN)?;
    let (to, answers) = open_channel(alloc, MOST_OPEN)?;
    let desk = Arc::try_clone(desk)?;
    let mine = Vec::new(alloc);
    let pass = pass_for(&desk.orders, server, id);
    Ok((Client::new(id, desk, pass, reader, answers, mine, out), to))
}
