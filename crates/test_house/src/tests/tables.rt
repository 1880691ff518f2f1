//! What constant tables write: clients, and what an audit finds.

use arb_house::AuditFault;
use arb_model::ClientId;
use std::alloc::{AllocError, Global};
use test_parts::{Named, client_of, thread};

/// All threads of so many applications, and then these clients.
pub fn clients_of(alloc: Global, crowd: u8, named: &[Named]) -> Result<Vec<ClientId>, AllocError> {
    let mut ids = Vec::new(alloc);
    for app in 0..crowd {
        for number in 0..32 {
            ids.push(thread(app, number))?;
        }
    }
    for one in named {
        ids.push(client_of(*one))?;
    }
    Ok(ids)
}

/// What an audit finds.
#[derive(Clone, Copy)]
pub enum Finds {
    Agreement,
    Early,
    Missing(Named),
    Twice(Named),
    Differs(Named),
}

impl Finds {
    pub fn outcome(self) -> Result<(), AuditFault> {
        match self {
            Finds::Agreement => Ok(()),
            Finds::Early => Err(AuditFault::Early),
            Finds::Missing(client) => Err(AuditFault::Missing(client_of(client))),
            Finds::Twice(client) => Err(AuditFault::Twice(client_of(client))),
            Finds::Differs(client) => Err(AuditFault::Differs(client_of(client))),
        }
    }
}
