//! What the threads of a house promise to leave. A joined thread tells nothing of what it left but what its promise says.

use crate::ended::Ended;
use crate::server::Server;
use arb_client::Client;
use arb_desk::Past;
use arb_page::Set;
use std::snapshot::Snapshot;
use std::thread::Promise;

/// The promise of a client's thread that it leaves the past of that client, alone or behind what else it leaves. So who joins
/// it knows that the past is one of the client's house, as [`audit_own`](crate::audit_own) asks.
///
/// ```
/// let promise = LeavesPast(Snapshot::of(&client));
/// let thread = scope.spawn_with(promise, move || client.close(rt))?;
/// ```
#[derive(Drop)]
pub struct LeavesPast<K: Set>(pub Snapshot<Client<K>>);

impl<K: Set> Promise<Past> for LeavesPast<K> {
    ghost use Rattle.arb_house.specs.OwnPasts.{IsOwnPast};

    ghost kept_by = { λ p past. IsOwnPast K.table K.machine p.0.value.queue past };
}

impl<T, K: Set> Promise<(T, Past)> for LeavesPast<K> {
    ghost use Rattle.arb_house.specs.OwnPasts.{IsOwnPast};

    ghost kept_by = { λ p left. IsOwnPast K.table K.machine p.0.value.queue left.1 };
}

/// The promise of a server's thread: what it leaves is of the server's queue and its clients.
///
/// ```
/// let promise = LeavesEnded(Snapshot::of(&server));
/// let thread = scope.spawn_with(promise, move || server.serve(rt))?;
/// ```
#[derive(Drop)]
pub struct LeavesEnded<K: Set>(pub Snapshot<Server<K>>);

impl<K: Set> Promise<Ended<K>> for LeavesEnded<K> {
    ghost use Rattle.std.specs.Prelude.{◌≡◌};

    ghost kept_by = { λ p ended. (ended.served.queue ≡ p.0.value.queue) × (ended.served.clients ≡ p.0.value.clients) };
}
