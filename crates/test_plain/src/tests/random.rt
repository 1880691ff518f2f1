//! Orders at random, given to the arbiter and to a plain one that was written apart from it: after each order the two
//! agree in everything that can be seen.

use crate::tests::arbiter::{CORES, Plain, WORDS};
use crate::tests::dice::Dice;
use crate::tests::machines::{
    EIGHT_SOCKETS, ELEVEN_CORES, FOUR_SOCKETS, SIX_CORES, THREE_SOCKETS, all_cores,
    sixty_four_cores,
};
use crate::tests::seen::Seen;
use arb_config::Topology;
use arb_core::{ClientId, Core, Reply};
use std::process::Abort;
use std::test::Fail;
use test_parts::TWO_SOCKETS;

/// How many orders a run has.
const ORDERS: usize = 6000;

/// In place of a number of orders after which there is a renewal each time.
const NO_RENEWAL: usize = 0;

/// Both post their next word, which is the same, and so is its value. Says whether there was one.
fn post_next(rt: &impl Abort, core: &mut Core, plain: &mut Plain) -> bool {
    let next = core.next_stale();
    assert_eq!(rt; next, plain.next_stale());
    if next.is_none() {
        return false;
    }
    let w = next.unwrap();
    assert_eq!(rt; core.word(w), plain.word(w), "word {w}");
    core.post(w);
    plain.post(w);
    true
}

/// Both post all stale words, one by one; gives how many.
fn post_both(rt: &impl Abort, core: &mut Core, plain: &mut Plain) -> u64 {
    for posts in 0..WORDS as u64 {
        if !post_next(rt, core, plain) {
            return posts;
        }
    }
    assert_eq!(rt; core.next_stale(), None);
    WORDS as u64
}

/// All words and all posted words are the same.
fn same_words(rt: &impl Abort, core: &Core, plain: &Plain) {
    for w in 0..WORDS {
        assert_eq!(rt; core.word(w), plain.word(w), "word {w}");
        assert_eq!(rt; core.posted(w), plain.posted[w], "posted word {w}");
    }
}

/// Each core has the same owner.
fn same_owners(rt: &impl Abort, core: &Core, plain: &Plain) {
    for position in 0..CORES as u32 {
        if let Some((number, _)) = plain.core(position) {
            let owner = core.owner(number).map(|client| client.index());
            assert_eq!(rt; owner, plain.owner(position), "core {number}");
        }
    }
    assert_eq!(rt; core.owner(0), None);
}

/// The same of a client: its place, and how many orders it gave.
fn same_client(rt: &impl Abort, core: &Core, plain: &Plain, client: ClientId) {
    assert_eq!(rt; core.place(client), plain.place(client.index()));
    let count = plain.counts.get(client.index()).copied().unwrap_or(0);
    assert_eq!(rt; u64::from(core.count_of(client)), count);
}

/// Both get one order of one client, and answer it alike.
fn same_order(rt: &impl Abort, core: &mut Core, plain: &mut Plain, dice: &mut Dice) -> Reply {
    let client = dice.client();
    let order = dice.order(plain.clock);
    assert!(rt; !core.is_full());
    assert!(rt; core.next_stale().is_none());
    let reply = core.step(client, &order);
    assert_eq!(rt; reply, plain.step(client.index(), &order));
    same_client(rt, core, plain, client);
    same_client(rt, core, plain, dice.client());
    assert_eq!(rt; core.clock(), plain.clock);
    reply
}

/// Both get many orders at random, on the machine that a text describes, and are renewed each time after some of them. The run
/// is no idle one.
fn same_on<R: AllocGlobal + Abort>(
    rt: &R,
    text: &str,
    mut plain: Plain,
    mut dice: Dice,
    renewal_after: usize,
) -> Result<(), Fail> {
    let mut core = Core::new(&Topology::from_text(rt.alloc(), text)?);
    let mut seen = Seen::default();
    for order in 1..=ORDERS {
        if renewal_after != 0 && order % renewal_after == 0 {
            assert!(rt; core.next_stale().is_none());
            core.renew();
            plain.renew();
            same_words(rt, &core, &plain);
        }
        let reply = same_order(rt, &mut core, &mut plain, &mut dice);
        seen.reply(&reply);
        seen.caps(&plain);
        let posts = post_both(rt, &mut core, &mut plain);
        seen.posts = seen.posts.wrapping_add(posts);
        same_words(rt, &core, &plain);
        same_owners(rt, &core, &plain);
    }
    assert!(rt; seen.refused > 500, "{}", seen.refused);
    assert!(rt; seen.moved > 50, "{}", seen.moved);
    assert!(rt; seen.asked > 20, "{}", seen.asked);
    assert!(rt; seen.posts > 1500, "{}", seen.posts);
    // more than the places of the waiting threads, so that the gaps among them were closed
    assert!(rt; seen.blocked > 1024, "{}", seen.blocked);
    assert!(rt; seen.too_large > 5, "{}", seen.too_large);
    // most of the time, but not always
    assert!(rt; seen.cut > 1500 && seen.cut < 5900, "{}", seen.cut);
    Ok(())
}

/// The dice of a run on a machine with all threads.
fn all_threads(state: u64, step: u64) -> Dice {
    Dice {
        state,
        apps: 16,
        threads: 32,
        step,
    }
}

#[test]
fn few_threads_on_two_sockets(rt: HostRuntime) -> Result<(), Fail> {
    let dice = Dice {
        state: 1,
        apps: 4,
        threads: 4,
        step: 5000,
    };
    same_on(
        &rt,
        TWO_SOCKETS,
        Plain::new(SIX_CORES, 10_000),
        dice,
        NO_RENEWAL,
    )
}

#[test]
fn all_threads_on_four_sockets(rt: HostRuntime) -> Result<(), Fail> {
    let plain = Plain::new(ELEVEN_CORES, 3000);
    same_on(&rt, FOUR_SOCKETS, plain, all_threads(2, 500), NO_RENEWAL)
}

#[test]
fn all_threads_on_eight_sockets(rt: HostRuntime) -> Result<(), Fail> {
    let plain = Plain::new(&sixty_four_cores(), 5000);
    same_on(&rt, EIGHT_SOCKETS, plain, all_threads(3, 1000), NO_RENEWAL)
}

#[test]
fn all_threads_on_all_cores(rt: HostRuntime) -> Result<(), Fail> {
    let plain = Plain::new(&all_cores(), 4000);
    same_on(&rt, THREE_SOCKETS, plain, all_threads(4, 1000), NO_RENEWAL)
}

#[test]
fn renewals_are_unseen(rt: HostRuntime) -> Result<(), Fail> {
    let plain = Plain::new(ELEVEN_CORES, 3000);
    same_on(&rt, FOUR_SOCKETS, plain, all_threads(5, 500), 7)
}
