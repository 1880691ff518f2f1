//! The arbiter for C and for what calls C: on one thread, or shared by threads that are its members.
//!
//! This is a static library: `include/voldazpe.h` declares its functions, and wraps each with the tests that only C can
//! make. A caller keeps a [`Handle`], or each thread a [`MemberHandle`], in memory of its own. All zero bytes are a closed one.
//! `voldazpe_lib_open` and `voldazpe_lib_member_open` open one on the arbiter of a machine, which lies in memory of `malloc` until
//! the last close.
//!
//! Each call answers a code: 0 if it did its work, otherwise the first reason that applies (`codes`). If the code isn't 0, the
//! history and what the call would have written are as before. There are two exceptions: `named` tells a core that is listed
//! twice, and `voldazpe_lib_member_post_or_end` ends the turn where it answers that no word is stale. The definitions of
//! `arb_model` say what comes of a call whose code is 0: the order step, the post of the next stale word, the opening standing.
//!
//! An arbiter has no limit on orders, unless its machine's text states one: where the core takes no further order, it is
//! renewed, and `earlier` keeps the counts from before.
//!
//! `wire` has orders and replies as C has them. `opened` is the arbiter with its machine, `held` a pointer to it that
//! nobody else has; `unmanaged` reads what no topology keeps off the machine's text. The exports stand in `lifetime` (open
//! and close), `orders` (an order and its posts) and `readers`. `member` has the same for members, and `turns` and `short_turns`,
//! by which a member holds the lock.
//!
//! Read `specs/` in this order: `Codes`, `Wire`; `Holding`, `Handle`, `Calls`; `MemberHolding`, `Members`; `Held`, `HeldMember`.
#![tactic(auto)]

mod codes;
mod earlier;
mod handle;
mod held;
mod lifetime;
mod member;
mod opened;
mod orders;
mod readers;
mod unmanaged;
mod wire;

pub use handle::Handle;
pub use lifetime::{voldazpe_lib_close, voldazpe_lib_open};
pub use member::handle::MemberHandle;
pub use member::lifetime::{
    voldazpe_lib_member_another, voldazpe_lib_member_close, voldazpe_lib_member_open,
};
pub use member::orders::voldazpe_lib_member_give;
pub use member::readers::{
    voldazpe_lib_member_clock, voldazpe_lib_member_core_at, voldazpe_lib_member_counts,
    voldazpe_lib_member_machine, voldazpe_lib_member_owner, voldazpe_lib_member_place,
    voldazpe_lib_member_read, voldazpe_lib_member_requested, voldazpe_lib_member_unmanaged_at,
};
pub use member::short_turns::{voldazpe_lib_member_begin_with, voldazpe_lib_member_post_or_end};
pub use member::turns::{
    voldazpe_lib_member_begin, voldazpe_lib_member_end, voldazpe_lib_member_post,
    voldazpe_lib_member_step,
};
pub use orders::{voldazpe_lib_post, voldazpe_lib_step};
pub use readers::{
    voldazpe_lib_clock, voldazpe_lib_core_at, voldazpe_lib_count, voldazpe_lib_counts,
    voldazpe_lib_machine, voldazpe_lib_orders, voldazpe_lib_owner, voldazpe_lib_place,
    voldazpe_lib_posted, voldazpe_lib_requested, voldazpe_lib_unmanaged_at,
};
pub use wire::{
    WireCore, WireCounts, WireMachine, WireOrder, WirePlace, WirePost, WireReply, WireRequest,
};
