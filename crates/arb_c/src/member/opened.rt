//! A member with its machine.

ghost use Rattle.std.specs.Prelude.{◌≡◌, ◌+◌, IfOk, Ok, false};
ghost use Rattle.toml.specs.Parse.{parse_document};
ghost use Rattle.arb_config.specs.Config.{outcome_of};
ghost use Rattle.arb_config.specs.Machine.{IsMachine};
ghost use Rattle.arb_common.specs.Sides.{out_of_turn};
ghost use Rattle.arb_c.specs.Members.{Copies, OpensMember, SameHistory};

use crate::unmanaged::{limit_of, unmanaged_cores};
use crate::wire::WireCore;
use arb_common::{Member, MemberOrTurn};
use arb_config::{CORE_NUMBERS, Topology};
use arrayvec::ArrayVec;
use std::alloc::{AllocError, Global};
use std::marker::Model;
use std::sync::Arc;

/// What a text says of its machine.
#[derive(Drop)]
pub struct Described {
    topology: Topology,
    /// The limit on orders, which is `u64::MAX` where the text states none.
    limit: u64,
    /// The machine's unmanaged cores, in the order of its text. The topology keeps no sockets of theirs.
    unmanaged: ArrayVec<WireCore, CORE_NUMBERS>,
}

impl Model for Described {
    ghost use Rattle.arb_c.specs.MemberHolding.{Description};

    ghost Value = { Description };

    ghost view = { λ d. record { machine = d.topology; limit = d.limit; unmanaged = d.unmanaged.items } };
}

/// A member, and what all members of its arbiter know of the machine.
#[derive(Drop)]
pub struct OpenedMember {
    pub member: MemberOrTurn,
    described: Arc<Described, Global>,
}

impl Model for OpenedMember {
    ghost use Rattle.std.specs.Arc.{arc_value};
    ghost use Rattle.arb_c.specs.MemberHolding.{MemberHolding};

    ghost Value = { MemberHolding };

    ghost view = { λ o. record { stance = o.member; described = arc_value o.described } };
}

impl Described {
    /// The machine.
    pub fn topology(&self) -> &Topology
        ensures { result.now ≡ self.now.machine }
    {
        &self.topology
    }

    /// The limit on orders, which is `u64::MAX` where the text states none.
    pub fn limit(&self) -> u64
        ensures { result ≡ self.now.limit }
    {
        self.limit
    }

    /// The unmanaged cores.
    pub fn unmanaged(&self) -> &[WireCore]
        ensures { result.now ≡ self.now.unmanaged }
    {
        self.unmanaged.as_slice()
    }
}

impl OpenedMember {
    /// The first member of a machine and the text that describes it, before all orders.
    ///
    /// # Errors
    /// An allocation failed.
    pub fn open(
        alloc: Global,
        text: &str,
        topology: Topology,
    ) -> Result<Box<OpenedMember, Global>, AllocError>
        requires machine { outcome_of (parse_document text.now) ≡ Ok topology }
        requires limits { IsMachine topology }
        ensures { IfOk result (λ opened. OpensMember (parse_document text.now) topology opened.value) }
    {
        let Ok(table) = toml::table_from_str(alloc, text) else {
            return Err(AllocError);
        };
        let unmanaged = unmanaged_cores(alloc, &table)?;
        let limit = limit_of(&table, &topology);
        let member = MemberOrTurn::new(Member::open(alloc, &topology, limit)?);
        let described = Described {
            topology,
            limit,
            unmanaged: ArrayVec::try_from(unmanaged.as_slice()).unwrap(),
        };
        let Ok(described) = Arc::new(alloc, described) else {
            return Err(AllocError);
        };
        boxed(alloc, OpenedMember { member, described })
    }

    /// Another thread's member, which has seen as much. Not in a turn.
    ///
    /// # Errors
    /// An allocation failed.
    pub fn another(&mut self, alloc: Global) -> Result<Box<OpenedMember, Global>, AllocError>
        requires free { self.old.stance.in_turn ≡ false }
        ensures copies { IfOk result (λ other. Copies self.old other.value) }
        ensures same { SameHistory self.old self.new }
        ensures one_load { IfOk result (λ _. self.new ≡ record self.old {
          stance = out_of_turn (record self.old.stance.side { steps = self.old.stance.side.steps + 1 });
        }) }
    {
        let described = Arc::try_clone(&self.described)?;
        let member = self.member.another()?;
        boxed(alloc, OpenedMember { member, described })
    }

    /// What its arbiter's text says of the machine.
    pub fn described(&self) -> &Described
        ensures { result.now ≡ self.now.described }
    {
        &self.described
    }
}

/// A member on the heap.
fn boxed(alloc: Global, opened: OpenedMember) -> Result<Box<OpenedMember, Global>, AllocError>
    ensures { IfOk result (λ held. held.value ≡ opened) }
{
    match Box::new(alloc, opened) {
        Ok(held) => Ok(held),
        Err(_) => Err(AllocError),
    }
}
