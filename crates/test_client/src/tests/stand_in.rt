//! What stands in for a server: it has the queue's pass and the recorder, and a client with a channel of its own.

ghost use Rattle.std.specs.Prelude.{◌≡◌, ◌∷◌, [], IfOk};
ghost use Rattle.std.specs.Arc.{arc_value};
ghost use Rattle.crossbeam_queue.specs.Passes.{IsPassOf, view};
ghost use Rattle.arb_config.specs.Machine.{IsMachine};
ghost use Rattle.arb_page.specs.Seen.{newcomer};
ghost use Rattle.arb_desk.specs.Passes.{client_view, server_view};

use arb_config::Topology;
use arb_desk::{Answer, Desk, OrderPass, Sender, open_channel, open_queue, pass_for};
use arb_house::{Client, MOST_OPEN, Recorder};
use arb_model::{ClientId, Order};
use arb_page::{Blank, Pages, Reader, Set, Writer};
use std::alloc::{AllocError, Global};
use std::process::Abort;
use std::sync::{Arc, Wait};
use std::thread::{Threads, scope, scope_env};
use test_parts::{Gives, Named, client_of};

/// An order that is entered, and whose it is.
pub type Given = (Named, Gives);

/// What a house is made of: what all share, the server's pass to the queue and that of client 0.0, and the writer of the pages.
pub type Parts<K> = (Arc<Desk<K>, Global>, OrderPass, OrderPass, Writer<K>);

pub fn parts<K: Set>(
    alloc: Global,
    topology: &Topology,
    blank: Blank,
) -> Result<Parts<K>, AllocError>
    requires name { (blank.table ≡ K.table) × (blank.machine ≡ K.machine) }
    requires topology { blank.machine ≡ topology.now }
    ensures queue { IfOk result (λ p. IsPassOf (arc_value p.0).orders p.1 × IsPassOf (arc_value p.0).orders p.2) }
    ensures server { IfOk result (λ p. view p.1 ≡ server_view [] (0 ∷ [])) }
    ensures client { IfOk result (λ p. view p.2 ≡ client_view 0 []) }
    ensures writer { IfOk result (λ p. p.3.seen ≡ []) }
    ensures machine { IfOk result (λ _. IsMachine K.machine) }
{
    let (orders, mut server) = open_queue(alloc)?;
    let (pages, writer) = blank.name::<K>();
    let client = pass_for(&orders, &mut server, ClientId::of_thread(0));
    let desk = Arc::new(alloc, Desk::new(pages, orders, topology.copied()))?;
    Ok((desk, server, client, writer))
}

/// What stands in for a server: what all share, the pass to the queue, the recorder, the answers that it keeps, and the end of
/// the channel that answers client 0.0.
pub type StandIn<K> = (
    Arc<Desk<K>, Global>,
    OrderPass,
    Recorder<K>,
    Vec<Answer<K>>,
    Sender<Answer<K>>,
);

/// What stands in for the server of these parts, and client 0.0.
pub fn stand_in<K: Set>(
    alloc: Global,
    topology: &Topology,
    parts: Parts<K>,
) -> Result<(StandIn<K>, Client<K>), AllocError>
    requires queue { IsPassOf (arc_value parts.0).orders parts.2 }
    requires pass { view parts.2 ≡ client_view 0 [] }
    requires writer { parts.3.seen ≡ [] }
    requires machine { IsMachine K.machine }
    requires topology { topology.now ≡ K.machine }
    ensures desk { IfOk result (λ s. s.0.0 ≡ parts.0) }
    ensures server { IfOk result (λ s. s.0.1 ≡ parts.1) }
    ensures fresh { IfOk result (λ s. s.1.out ≡ []) }
{
    let (desk, server, pass, mut writer) = parts;
    let reader = writer.tell(&desk.pages).into_reader();
    let (client, to) = stranger_of(alloc, &desk, pass, reader)?;
    let recorder = Recorder::new(alloc, topology, writer);
    Ok(((desk, server, recorder, Vec::new(alloc), to), client))
}

/// Client 0.0, and the end of its channel that answers it.
fn stranger_of<K: Set>(
    alloc: Global,
    desk: &Arc<Desk<K>, Global>,
    pass: OrderPass,
    reader: Reader<K>,
) -> Result<(Client<K>, Sender<Answer<K>>), AllocError>
    requires queue { IsPassOf (arc_value desk.now).orders pass }
    requires pass { view pass ≡ client_view 0 [] }
    requires reader { reader ≡ newcomer [] }
    requires machine { IsMachine K.machine }
    ensures fresh { IfOk result (λ c. c.0.out ≡ []) }
{
    let (to, from) = open_channel(alloc, MOST_OPEN)?;
    let out = Vec::with_capacity(alloc, MOST_OPEN)?;
    let desk = Arc::try_clone(desk)?;
    let id = ClientId::of_thread(0);
    let client = Client::new(id, desk, pass, reader, from, Vec::new(alloc), out);
    Ok((client, to))
}

/// What stands in for a server serves on another thread, and its client acts on this one. `None` where that thread couldn't be started.
pub fn beside<T, R: Threads + Wait, S: FnOnce() + Send + Drop, A: FnOnce() -> T + Drop>(
    rt: &R,
    serves: S,
    acts: A,
) -> Option<T>
    requires serves { S.pre serves }
    requires acts { A.pre acts }
{
    scope(
        scope_env(),
        rt,
        move |scope| -> Option<T>
            requires serves { S.pre serves }
            requires acts { A.pre acts }
        {
            let serving = scope.spawn(serves).ok()?;
            let came = acts();
            serving.join(rt);
            Some(came)
        },
    )
}

/// Enters orders, and adds the answers.
pub fn enter_all<K: Set>(
    rt: &impl Abort,
    recorder: &mut Recorder<K>,
    pages: &Pages<K>,
    orders: &[Given],
    answers: &mut Vec<Answer<K>>,
) {
    for (client, gives) in orders {
        enter(
            rt,
            recorder,
            pages,
            client_of(*client),
            &gives.order(),
            answers,
        );
    }
}

/// Enters an order, and adds the answer.
pub fn enter<K: Set>(
    rt: &impl Abort,
    recorder: &mut Recorder<K>,
    pages: &Pages<K>,
    client: ClientId,
    order: &Order,
    answers: &mut Vec<Answer<K>>,
) {
    let reserved = recorder.reserve();
    assert!(rt; reserved.is_ok());
    let kept = answers.push(recorder.record(pages, client, order));
    assert!(rt; kept.is_ok());
}

/// Sends the client the answer of an index, which is then no longer among those that are left.
pub fn send<K: Set, R: Wait + Abort>(
    rt: &R,
    to: &mut Sender<Answer<K>>,
    answers: &mut Vec<Answer<K>>,
    index: usize,
) {
    assert!(rt; index < answers.len());
    let sent = to.send(rt, answers.remove(index));
    assert!(rt; sent);
}
