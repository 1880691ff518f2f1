//! A waiting member: one thread's side.

ghost use Rattle.std.specs.Prelude.{◌≡◌, ◌+◌, ◌<◌, [], IfErr, IfOk};
ghost use mathlib.Core.List.{IsPrefix};
ghost use Rattle.arb_model.specs.History.{IsLegal};
ghost use Rattle.arb_model.specs.Layout.{word_count};
ghost use Rattle.arb_model.specs.Reading.{reading};
ghost use Rattle.arb_common.specs.Limits.{with_limit};

use crate::sleepers::Sleepers;
use arb_common::{Member, MemberOrTurn};
use arb_config::Topology;
use std::alloc::{AllocError, Global};
use std::marker::Model;
use std::sync::Arc;

/// One thread's side of an arbiter that threads share without a server: it gives orders, reads page words, and waits.
///
/// Contracts see which table it is, its machine, the history that the member has seen, the places of its own entries, how many
/// steps it has made, and how often it found the lock taken.
#[derive(Drop)]
pub struct WaitingMember {
    /// In no turn between two calls.
    pub(crate) member: MemberOrTurn,
    pub(crate) sleepers: Arc<Sleepers, Global>,
}

impl Model for WaitingMember {
    ghost use Rattle.std.specs.Prelude.{◌≡◌, false};
    ghost use Rattle.std.specs.Arc.{arc_value};
    ghost use Rattle.arb_common.specs.Limits.{with_limit};
    ghost use Rattle.arb_common.specs.Sides.{Side};

    ghost Value = { Side };

    ghost view = { λ m. m.member.side };

    ghost invariant = { λ m. (m.member.in_turn ≡ false)
        × (with_limit (arc_value m.sleepers).topology m.member.side.machine.orders ≡ m.member.side.machine) };
}

impl WaitingMember {
    /// A new history of a machine, with no order. At most `limit` orders are entered; `u64::MAX` is no limit. The limit of the
    /// topology itself doesn't count.
    pub fn open(alloc: Global, topology: &Topology, limit: u64) -> Result<WaitingMember, AllocError>
        ensures machine { IfOk result (λ m. m.machine ≡ with_limit topology.now limit) }
        ensures empty { IfOk result (λ m. (m.seen ≡ []) × (m.mine ≡ []) × (m.steps ≡ 0) × (m.busy ≡ 0)) }
    {
        let member = MemberOrTurn::new(Member::open(alloc, topology, limit)?);
        match Arc::new(alloc, Sleepers::new(topology)) {
            Ok(sleepers) => Ok(WaitingMember { member, sleepers }),
            Err(_) => Err(AllocError),
        }
    }

    /// Another thread's side, which has seen as much. One load, of word 0.
    pub fn another(&mut self) -> Result<WaitingMember, AllocError>
        ensures other { IfOk result (λ m. m ≡ record self.old { mine = []; steps = 0; busy = 0 }) }
        ensures one_load { IfOk result (λ _. self.new ≡ record self.old { steps = self.old.steps + 1 }) }
        ensures none { IfErr result (λ _. self.new ≡ self.old) }
    {
        let sleepers = Arc::try_clone(&self.sleepers)?;
        let member = self.member.another()?;
        Ok(WaitingMember { member, sleepers })
    }

    /// The value that a word, which is below `layout::WORDS`, has at a point of the history, at or after all that was
    /// seen before. One load: no lock, no wait, and no call of the arbiter.
    pub fn read(&mut self, word: usize) -> u64
        requires { word < word_count }
        ensures value { result ≡ reading self.new.seen word }
        ensures later { IsPrefix self.old.seen self.new.seen }
        ensures legal { IsLegal self.new.machine self.new.seen }
        ensures one_load { self.new ≡ record self.old { seen = self.new.seen; steps = self.old.steps + 1 } }
    {
        self.member.read(word)
    }
}
