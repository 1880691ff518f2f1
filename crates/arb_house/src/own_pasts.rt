//! The audit of a house's own pasts, which takes them in.

ghost use Rattle.std.specs.Prelude.{◌≡◌, ◌*◌, ◌-◌, ◌<◌, ◌≤◌, ◌++◌, ◌∷◌, [], All, IfErr, IfOk, IsOk, is_some, length, vec_capacity, vec_len};
ghost use Rattle.arb_house.specs.Auditing.{Agree, IsOwnFault, LeftOneEach};
ghost use Rattle.arb_house.specs.OwnPasts.{IsOwnPast, IsTakenIn, first_lists, items_of_each};
ghost use Rattle.arb_house.specs.Serving.{stepped};

use crate::auditing::{AuditFault, audit};
use crate::ended::Ended;
use arb_desk::Past;
use arb_model::{Order, Reply};
use arb_page::Set;

/// Audits pasts that were left by clients of the server's own house, and takes each in, as [`Ended::reconcile`] does. It never
/// answers that one differs from the journal. So the answer is `Ok` where the server ended without a fault, each client of the
/// house left one past, which is complete, and none left two.
///
/// The pasts' lists of answered orders come behind those of `lists`, in the order of the pasts, whatever the answer. They are as
/// many as `lists` has room for, and the others are dropped: `Vec::with_capacity(alloc, pasts.len())?` has room for all. `lists`
/// doesn't grow, so they take no memory.
///
/// Each past must be of a client of this server, as [`Client::close`](crate::Client::close) says of the one that it leaves.
/// Where a client closes on a thread of its own, [`LeavesPast`](crate::LeavesPast) brings that to who joins it.
///
/// # Errors
/// As [`audit`] says, but never [`AuditFault::Differs`].
#[tactic(auto, using(crate::proofs::OwnListLaws::none_given))]
pub fn audit_own<K: Set>(
    ended: &mut Ended<K>,
    pasts: Vec<Past>,
    lists: &mut Vec<Vec<(Order, Reply)>>,
) -> Result<(), AuditFault>
    requires { All (λ past. IsOwnPast K.table K.machine ended.old.served.queue past) pasts.items }
    ensures agrees { IfOk result (λ _. Agree (is_some ended.old.fault) ended.old.served.clients ended.old.journal.items pasts.items) }
    ensures finds { IfErr result (IsOwnFault (is_some ended.old.fault) ended.old.served.clients pasts.items) }
    ensures passes { LeftOneEach (is_some ended.old.fault) ended.old.served.clients pasts.items → IsOk result }
    ensures told { All (λ past. IsTakenIn ended.old.served.seen ended.old.served.taken past) pasts.items }
    ensures capacity { vec_capacity lists.new ≡ vec_capacity lists.old }
    ensures mine { items_of_each lists.new.items ≡ items_of_each lists.old.items ++ first_lists (vec_capacity lists.old - vec_len lists.old) pasts.items }
    ensures same { (ended.new.journal ≡ ended.old.journal) × (ended.new.core ≡ ended.old.core) × (ended.new.fault ≡ ended.old.fault) × (ended.new.served ≡ stepped ended.old.served (2 * length pasts.items)) }
{
    let outcome = audit(ended, pasts.as_slice());
    // its clause says what holds of every arbiter
    let _orders = ended.core.orders();
    for past in pasts {
        let mine = ended.reconcile(past);
        keep(lists, mine);
    }
    outcome
}

/// Puts a list behind the others, if there is room for one more.
fn keep(lists: &mut Vec<Vec<(Order, Reply)>>, list: Vec<(Order, Reply)>)
    ensures kept { vec_len lists.old < vec_capacity lists.old → lists.new.items ≡ lists.old.items ++ list ∷ [] }
    ensures dropped { vec_capacity lists.old ≤ vec_len lists.old → lists.new.items ≡ lists.old.items }
    ensures capacity { vec_capacity lists.new ≡ vec_capacity lists.old }
{
    if lists.len() < lists.capacity() {
        lists.push_reserved(list);
    }
}
