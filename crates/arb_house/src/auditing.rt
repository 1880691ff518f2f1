//! The comparison of a server's journal with what its clients remember.

ghost use Rattle.std.specs.Prelude.{IfOk, IfErr, is_some};
ghost use Rattle.arb_house.specs.Auditing.{Agree, IsFirstFault};

use crate::differing::first_differing;
use crate::ended::Ended;
use crate::survey::Survey;
use arb_desk::Past;
use arb_model::{ClientId, Entry};
use arb_page::Set;
use thiserror::Error;

/// Why a journal and the pasts of its clients don't agree.
#[derive(Clone, Copy, Debug, PartialEq, Eq, Error)]
pub enum AuditFault {
    /// The server ended early, or a past isn't whole.
    #[error("the server or a client ended early")]
    Early,
    /// The first client of the house, by index, that left no past.
    #[error("a client left no past")]
    Missing(ClientId),
    /// The first client, by index, that left more than one past.
    #[error("a client left more than one past")]
    Twice(ClientId),
    /// The first client, by index, whose entries in the journal aren't its past's list.
    #[error("a client's entries aren't what it was answered")]
    Differs(ClientId),
}

/// Compares what clients were answered with the server's journal. Where the answer is `Ok`, each client's entries are its
/// past's list, in order, and no other client has entries.
///
/// # Errors
/// The first that applies, in the order of [`AuditFault`]. The server ended early, or a past isn't complete. A client of the
/// house left no past. A client left more than one. A client's entries aren't its past's list. Each but the first names the
/// first such client, by index. A client without a past counts as one with an empty list.
pub fn audit<K: Set>(ended: &Ended<K>, pasts: &[Past]) -> Result<(), AuditFault>
    ensures agrees { IfOk result (λ _. Agree (is_some ended.now.fault) ended.now.served.clients ended.now.journal.items pasts.now) }
    ensures finds { IfErr result (IsFirstFault (is_some ended.now.fault) ended.now.served.clients ended.now.journal.items pasts.now) }
{
    compare(
        ended.fault.is_some(),
        ended.clients(),
        ended.journal.as_slice(),
        pasts,
    )
}

/// Compares a server's journal with the pasts of its clients. `early` says whether the server ended early, and
/// `clients` are those of the house, in whatever order. Where the answer is `Ok`, each client's entries in the journal
/// are its past's list, in order, and no other client has entries.
///
/// # Errors
/// The first that applies, in the order of [`AuditFault`]. A missing past is looked for among the clients of the house; two
/// pasts and differing lists are looked for among all clients. A client without a past recalls the empty list.
pub fn compare(
    early: bool,
    clients: &[ClientId],
    journal: &[Entry],
    pasts: &[Past],
) -> Result<(), AuditFault>
    ensures agrees { IfOk result (λ _. Agree early clients.now journal.now pasts.now) }
    ensures finds { IfErr result (IsFirstFault early clients.now journal.now pasts.now) }
{
    let survey = Survey::of(pasts);
    if early || survey.cut {
        return Err(AuditFault::Early);
    }
    if let Some(client) = survey.first_missing(clients) {
        return Err(AuditFault::Missing(client));
    }
    if let Some(client) = survey.first_twice() {
        return Err(AuditFault::Twice(client));
    }
    if let Some(client) = first_differing(journal, &survey) {
        return Err(AuditFault::Differs(client));
    }
    Ok(())
}
