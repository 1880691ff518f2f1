//! Houses that are measured. A house has a server and teams of clients, each on a thread of its own. What the threads do is told
//! in moments after their start.

ghost use Rattle.std.specs.Prelude.{◌≡◌};

use crate::machine::open_pages;
use crate::roles::{Role, Rounds, Span, act, lead, only, pause};
use anyhow::{Context, Result, ensure};
use arb_config::Topology;
use arb_core::{ClientId, Order};
use arb_house::{Client, Ended, House, Past, Server, audit};
use arb_page::{Blank, Set};
use std::alloc::Global;
use std::marker::Brand;
use std::rt::{Clock, Files};
use std::sync::Wait;
use std::thread::{Threads, map_vec, scope, scope_env};
use std::time::{Duration, Instant};

/// What the server does, and the threads that lead.
#[derive(Clone, Copy)]
pub struct Setting {
    /// For how many milliseconds the server waits first.
    pub pause: u64,
    /// Whether it serves then, or else is dropped.
    pub serves: bool,
    /// How many applications are led, each by its first thread.
    pub led: u8,
    /// How many threads of each of them are to wait.
    pub waiting: u8,
    /// For how many milliseconds nothing is done then.
    pub idle: u64,
}

/// A server that serves at once, and no thread that leads.
pub const AT_ONCE: Setting = Setting {
    pause: 0,
    serves: true,
    led: 0,
    waiting: 0,
    idle: 0,
};

/// Clients of one thread.
#[derive(Drop)]
pub struct Team {
    /// Who they are.
    pub ids: Vec<ClientId>,
    /// How many orders to join each of them puts before the start.
    pub joins: usize,
    /// What they do.
    pub role: Role,
}

/// Adds a team of one client.
pub fn add_one(
    alloc: Global,
    teams: &mut Vec<Team>,
    id: ClientId,
    joins: usize,
    role: Role,
) -> Result<()> {
    let mut ids = Vec::new(alloc);
    ids.push(id)?;
    teams.push(Team { ids, joins, role })?;
    Ok(())
}

/// A thread of an application.
pub fn thread(app: u8, thread: u8) -> Result<ClientId> {
    ClientId::app(app, thread).context("no such thread")
}

/// The threads of so many applications, by the numbers of these threads: an application's stand in a row.
pub fn threads(alloc: Global, apps: u8, first: u8, count: u8) -> Result<Vec<ClientId>> {
    let mut ids = Vec::new(alloc);
    for app in 0..apps {
        for number in first..first.saturating_add(count) {
            ids.push(thread(app, number)?)?;
        }
    }
    Ok(ids)
}

/// A team of each of these threads alone.
pub fn one_each(alloc: Global, ids: Vec<ClientId>, joins: usize, role: Role) -> Result<Vec<Team>> {
    let mut teams = Vec::new(alloc);
    for id in ids {
        add_one(alloc, &mut teams, id, joins, role)?;
    }
    Ok(teams)
}

/// What came of a house.
#[derive(Drop)]
pub struct Ran {
    /// How many orders were put before the start.
    pub put: usize,
    /// How many orders were answered.
    pub answered: usize,
    /// The processor time that was used while nothing was done.
    pub used: Duration,
    /// What the server did, and then what each team did.
    pub spans: Vec<Vec<Span>>,
}

impl Ran {
    /// What a team did, counted from 1, or what the server did, which is 0.
    pub fn spans_of(&self, team: usize) -> Result<&[Span]> {
        Ok(self.spans.get(team).context("no such team")?.as_slice())
    }

    /// The first that it did.
    pub fn first(&self, team: usize) -> Result<Span> {
        Ok(*self.spans_of(team)?.first().context("nothing was done")?)
    }
}

/// Clients of one thread, and what they do.
#[derive(Drop)]
struct Act<K: Set> {
    clients: Vec<Client<K>>,
    role: Role,
}

/// What came of it.
#[derive(Drop)]
struct Done {
    /// What was done.
    acted: Result<Vec<Span>>,
    /// What the clients have that were closed.
    closed: Result<Vec<Past>>,
}

/// What the server, the threads that lead and the teams leave.
struct Left<K: Set> {
    served: (Result<Vec<Span>>, Option<Ended<K>>),
    led: (Result<Duration>, Result<Vec<Past>>),
    done: Result<Vec<Done>>,
}

/// Opens a house of these teams, and lets all threads go on to their ends.
pub fn run<R: Threads + Wait + Clock + Files + AllocGlobal + Sync>(
    rt: &R,
    topology: &Topology,
    setting: Setting,
    teams: &[Team],
) -> Result<Ran> {
    let blank = open_pages(rt.alloc(), topology)?;
    run_named::<Brand, _>(rt, topology, blank, setting, teams)
}

/// The same on pages with a name.
fn run_named<K: Set + Send + Sync, R: Threads + Wait + Clock + Files + AllocGlobal + Sync>(
    rt: &R,
    topology: &Topology,
    blank: Blank,
    setting: Setting,
    teams: &[Team],
) -> Result<Ran>
    requires name { (blank.table ≡ K.table) × (blank.machine ≡ K.machine) }
    requires topology { blank.machine ≡ topology.now }
{
    let ids = all_ids(rt.alloc(), setting.led, teams)?;
    let opened = House::open::<K>(rt, rt.alloc(), blank, topology, ids.as_slice());
    let (server, clients) = opened.ok().context("out of memory")?;
    run_opened(rt, server, clients, setting, teams)
}

/// The same in a house that was opened. First stand the clients that lead.
fn run_opened<K: Set + Send + Sync, R: Threads + Wait + Clock + Files + AllocGlobal + Sync>(
    rt: &R,
    server: Server<K>,
    clients: Vec<Client<K>>,
    setting: Setting,
    teams: &[Team],
) -> Result<Ran> {
    let mut leaders = clients;
    let clients = leaders.split_off(usize::from(setting.led).min(leaders.len()))?;
    join_all(rt, leaders.as_mut_slice(), 1);
    let mut acts = Vec::new(rt.alloc());
    let put = add_teams(rt, &mut acts, clients, teams)?;
    let rounds = &Rounds::new(Instant::now(rt)?);
    let left = run_all(rt, server, leaders, acts, setting, rounds)?;
    checked(rt.alloc(), left, put)
}

/// Serves, while the others lead and act. The server starts last: where its thread can't be started it is dropped, and those
/// that wait see that it has ended.
fn run_all<K: Set + Send + Sync, R: Threads + Wait + Clock + Files + AllocGlobal + Sync>(
    rt: &R,
    server: Server<K>,
    leaders: Vec<Client<K>>,
    acts: Vec<Act<K>>,
    setting: Setting,
    rounds: &Rounds,
) -> Result<Left<K>> {
    scope(scope_env(), rt, move |scope| -> Result<Left<K>> {
        let acting = scope.spawn(move || play_all(rt, acts, rounds))?;
        let serves = scope.spawn(move || serve(rt, server, setting, rounds))?;
        let led = lead_all(rt, leaders, setting);
        Ok(Left {
            served: serves.join(rt),
            led,
            done: acting.join(rt),
        })
    })
}

/// Leads the applications that are led, and closes their clients.
fn lead_all<K: Set, R: Wait + Clock + Files + AllocGlobal>(
    rt: &R,
    mut leaders: Vec<Client<K>>,
    setting: Setting,
) -> (Result<Duration>, Result<Vec<Past>>) {
    let used = if setting.led == 0 {
        Ok(Duration::ZERO)
    } else {
        lead(rt, leaders.as_mut_slice(), setting.waiting, setting.idle)
    };
    (used, close_all(rt, leaders))
}

/// Has each team act on a thread of its own.
fn play_all<K: Set + Send + Sync, R: Threads + Wait + Clock + AllocGlobal + Sync>(
    rt: &R,
    acts: Vec<Act<K>>,
    rounds: &Rounds,
) -> Result<Vec<Done>> {
    Ok(map_vec(rt, acts, &|acting| play(rt, acting, rounds))?)
}

/// What came of all, where all that was ordered is in the journal.
fn checked<K: Set>(alloc: Global, left: Left<K>, put: usize) -> Result<Ran> {
    let Left { served, led, done } = left;
    let (served, ended) = served;
    let (used, closed) = led;
    let mut spans = Vec::new(alloc);
    spans.push(served?)?;
    let mut pasts = closed?;
    gather(done?, &mut spans, &mut pasts)?;
    if let Some(ended) = ended {
        let same = audit(&ended, pasts.as_slice()).is_ok();
        ensure!(same, "the journal has other orders");
    }
    Ok(Ran {
        put,
        answered: count_answered(pasts.as_slice()),
        used: used?,
        spans,
    })
}

/// The threads that lead so many applications, and then the clients of all teams.
fn all_ids(alloc: Global, led: u8, teams: &[Team]) -> Result<Vec<ClientId>> {
    let mut ids = threads(alloc, led, 0, 1)?;
    for team in teams {
        for id in team.ids.as_slice() {
            ids.push(*id)?;
        }
    }
    Ok(ids)
}

/// Gives each team its clients, which stand in the order of the teams, and has them join. Gives how many orders were put.
fn add_teams<K: Set, R: Wait>(
    rt: &R,
    acts: &mut Vec<Act<K>>,
    clients: Vec<Client<K>>,
    teams: &[Team],
) -> Result<usize> {
    let mut rest = clients;
    let mut put = 0usize;
    for team in teams {
        let mut clients = rest;
        rest = clients.split_off(team.ids.len().min(clients.len()))?;
        put = put.wrapping_add(join_all(rt, clients.as_mut_slice(), team.joins));
        let role = team.role;
        acts.push(Act { clients, role })?;
    }
    Ok(put)
}

/// Puts so many orders to join for each client. Gives how many were put.
fn join_all<K: Set, R: Wait>(rt: &R, clients: &mut [Client<K>], joins: usize) -> usize {
    let mut put = 0usize;
    for client in clients {
        for _ in 0..joins {
            if client.post(rt, Order::Join).is_ok() {
                put = put.wrapping_add(1);
            }
        }
    }
    put
}

/// Does what the clients of one thread do, and closes them.
fn play<K: Set, R: Wait + Clock + AllocGlobal>(rt: &R, acting: Act<K>, rounds: &Rounds) -> Done {
    let Act { mut clients, role } = acting;
    let acted = act(rt, clients.as_mut_slice(), role, rounds);
    let closed = close_all(rt, clients);
    Done { acted, closed }
}

/// Serves, or drops the server.
fn serve<K: Set, R: Wait + Clock + AllocGlobal>(
    rt: &R,
    server: Server<K>,
    setting: Setting,
    rounds: &Rounds,
) -> (Result<Vec<Span>>, Option<Ended<K>>) {
    pause(rt, setting.pause);
    let began = rounds.now(rt);
    let ended = serve_or_drop(rt, server, setting.serves);
    (only(rt.alloc(), began, rounds.now(rt)), ended)
}

/// What the server has when it ends, or nothing where it doesn't serve.
fn serve_or_drop<K: Set, R: Wait>(rt: &R, server: Server<K>, serves: bool) -> Option<Ended<K>> {
    serves.then(|| server.serve(rt))
}

/// Closes clients.
fn close_all<K: Set, R: Wait + AllocGlobal>(rt: &R, clients: Vec<Client<K>>) -> Result<Vec<Past>> {
    let mut pasts = Vec::new(rt.alloc());
    for client in clients {
        pasts.push(client.close(rt))?;
    }
    Ok(pasts)
}

/// Adds what each team did, and what its clients have.
fn gather(done: Vec<Done>, spans: &mut Vec<Vec<Span>>, pasts: &mut Vec<Past>) -> Result<()> {
    for one in done {
        let Done { acted, closed } = one;
        spans.push(acted?)?;
        pasts.append(&mut closed?)?;
    }
    Ok(())
}

/// How many orders were answered.
fn count_answered(pasts: &[Past]) -> usize {
    let mut answered = 0usize;
    for past in pasts {
        answered = answered.wrapping_add(past.mine.len());
    }
    answered
}
