//! What all threads leave.

ghost use Rattle.std.specs.Prelude.{◌≡◌, ◌||◌, [], None, false, All, map};
ghost use Rattle.arb_desk.specs.Passes.{QueueId};
ghost use Rattle.arb_house.specs.OwnPasts.{IsOwnPast};
ghost use Rattle.arb_play.specs.Joining.{AllAnswered, GivesUp, earlier_of};
ghost use Rattle.arb_play.specs.Scripts.{clients_in};
ghost use Rattle.arb_play.specs.Walking.{Answered};

use crate::gate::Gate;
use crate::walking::{Walk, Walks};
use arb_house::Past;
use arb_model::ClientId;
use arb_page::Set;
use arb_script::Script;
use std::thread::{PromisedHandle, Threads};

/// What the clients' threads leave.
#[derive(Drop)]
pub(crate) struct Joined {
    /// The clients' pasts.
    pub pasts: Vec<Past>,
    /// Of each client, the index in the script from which on its orders came past the limit, beside its past.
    pub full_from: Vec<(ClientId, usize)>,
    /// The first order that was given up.
    pub gave_up: Option<usize>,
    /// Whether an order was lost.
    pub lost: bool,
    /// Whether a thread ended before its first order.
    pub stopped: bool,
}

/// Joins the threads of all clients of the script, and gathers what they leave.
pub(crate) fn join_all<'a, G: Gate, K: Set, R: Threads>(
    rt: &R,
    handles: Vec<PromisedHandle<Walk, Walks<'a, G, K>>>,
    mut joined: Joined,
    script: &'a Script,
    gate: &'a G,
) -> Joined
    requires none { (joined.pasts.items ≡ []) × (joined.full_from.items ≡ []) × (joined.gave_up ≡ None) }
    requires same { All (λ h. (h.promise.0.now ≡ script.now) × (h.promise.1.now ≡ gate.now)) handles.items }
    requires clients { map (λ h. h.promise.2) handles.items ≡ clients_in script.now }
    ensures gives_up { result.stopped ≡ false → GivesUp (G.may_give_up gate.now) (G.may_let_through gate.now) script.now result.gave_up }
    ensures answered { result.gave_up ≡ None → result.lost ≡ false → AllAnswered script.now result.pasts.items result.full_from.items }
    ensures own { (queue : QueueId) → All (λ h. h.promise.3.value.queue ≡ queue) handles.entry.items
        → All (IsOwnPast K.table K.machine queue) result.pasts.items }
{
    for handle in handles {
        gather::<K>(&mut joined, handle.join(rt), script);
    }
    joined
}

/// Takes in what one thread leaves.
fn gather<K: Set>(joined: &mut Joined, walk: Walk, script: &Script)
    requires walked { walk.gave_up ≡ None → walk.lost ≡ false → Answered script.now walk.past.client walk.past.mine.items walk.full_from }
    requires so_far { joined.old.gave_up ≡ None → joined.old.lost ≡ false → AllAnswered script.now joined.old.pasts.items joined.old.full_from.items }
    ensures gave_up { joined.new.gave_up ≡ earlier_of joined.old.gave_up walk.gave_up }
    ensures stopped { joined.new.stopped ≡ (joined.old.stopped || walk.stopped) }
    ensures answered { joined.new.gave_up ≡ None → joined.new.lost ≡ false → AllAnswered script.now joined.new.pasts.items joined.new.full_from.items }
    ensures own { (queue : QueueId) → All (IsOwnPast K.table K.machine queue) joined.old.pasts.items
        → IsOwnPast K.table K.machine queue walk.past → All (IsOwnPast K.table K.machine queue) joined.new.pasts.items }
{
    let Walk {
        past,
        full_from,
        gave_up,
        lost,
        stopped,
    } = walk;
    joined.stopped |= stopped;
    joined.gave_up = earlier(joined.gave_up, gave_up);
    let pair = (past.client, full_from);
    let kept = joined.full_from.push(pair).is_ok() & joined.pasts.push(past).is_ok();
    joined.lost |= lost | !kept;
}

/// The lesser of two orders.
fn earlier(a: Option<usize>, b: Option<usize>) -> Option<usize>
    ensures { result ≡ earlier_of a b }
{
    match (a, b) {
        (Some(a), Some(b)) => Some(a.min(b)),
        (Some(a), None) => Some(a),
        (None, b) => b,
    }
}
