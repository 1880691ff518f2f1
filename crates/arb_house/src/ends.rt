//! The server's hold on what is shared.

ghost use Rattle.std.specs.Prelude.{◌≡◌};

use arb_desk::Desk;
use arb_page::Set;
use std::alloc::Global;
use std::sync::Arc;

/// The server's hold on what is shared. However it goes, the clients are told that the server has ended.
pub struct Ends<K: Set> {
    pub desk: Arc<Desk<K>, Global>,
}

impl<K: Set> Ends<K> {
    /// Tells the clients that the server has ended, and gives what is shared.
    pub fn end(self) -> Arc<Desk<K>, Global>
        ensures { result ≡ self.desk }
    {
        let Ends { desk } = self;
        desk.end();
        desk
    }
}

impl<K: Set> Drop for Ends<K> {
    fn drop(self) {
        let Ends { desk } = self;
        desk.end();
    }
}
