//! What came of orders.

use crate::tests::arbiter::{APPLICATIONS, Plain};
use arb_core::{Refusal, Reply};

/// What a run met.
#[derive(Drop, Default)]
pub struct Seen {
    pub refused: u64,
    pub moved: u64,
    pub asked: u64,
    pub posts: u64,
    pub blocked: u64,
    pub too_large: u64,
    /// After how many orders some application asked for more than its cap.
    pub cut: u64,
}

impl Seen {
    /// One reply more.
    pub fn reply(&mut self, reply: &Reply) {
        match reply {
            Reply::Refused(Refusal::CapTooLarge) => self.too_large = self.too_large.wrapping_add(1),
            Reply::Refused(_) => self.refused = self.refused.wrapping_add(1),
            Reply::Moved(moved) => self.moved = self.moved.wrapping_add(u64::from(*moved)),
            Reply::Now(_) => self.blocked = self.blocked.wrapping_add(1),
            Reply::Counts { asked, .. } => self.asked = self.asked.wrapping_add(u64::from(*asked)),
            _ => {}
        }
    }

    /// The requests that stand after one order more.
    pub fn caps(&mut self, plain: &Plain) {
        if (0..APPLICATIONS).any(|app| plain.is_cut(app)) {
            self.cut = self.cut.wrapping_add(1);
        }
    }
}
