//! Members that give orders and read words, one after another.

ghost use Rattle.std.specs.Prelude.{◌≡◌};

use arb_common::{Given, Member, MemberOrTurn};
use arb_config::Topology;
use arb_core::layout::{FIRST_CORE, FIRST_PLACE, WORDS};
use arb_core::{ClientId, Order, Place, Reply};
use std::process::Abort;
use std::test::*;
use test_parts::{THREE_ORDERS, TWO_SOCKETS, ask, thread};

/// The words of the numbers have these values.
fn words_are(rt: &impl Abort, member: &mut Member, words: &[(usize, u64)]) {
    for (w, value) in words {
        assert!(rt; *w < WORDS);
        assert_eq!(rt; member.read(*w), *value, "word {w}");
    }
}

/// Gives an order that is answered.
fn answered(rt: &impl Abort, member: &mut Member, client: ClientId, order: &Order) -> Reply
    ensures { member.new.table ≡ member.old.table }
{
    match member.give(client, order) {
        Given::Answered(reply) => reply,
        Given::Busy => panic!(rt; "nobody else has the lock"),
        Given::Full => panic!(rt; "there is room"),
    }
}

#[test]
fn members_read_what_any_of_them_gave(rt: HostRuntime) -> Result<(), Fail> {
    let topology = Topology::from_text(rt.alloc(), TWO_SOCKETS)?;
    let mut one = Member::open(rt.alloc(), &topology, u64::MAX)?;
    let mut two = one.another()?;
    for w in 0..WORDS {
        assert_eq!(&rt; two.read(w), 0);
    }

    // an order of one member is read by the other
    let client = thread(0, 0);
    assert_eq!(&rt;
        answered(&rt, &mut one, client, &Order::Join),
        Reply::Joined
    );
    words_are(&rt, &mut two, &[(0, 1), (FIRST_PLACE, 0)]);

    // four orders of both, the cores at positions 0 and 1, and none of them asked back
    answered(&rt, &mut two, client, &ask(2));
    answered(&rt, &mut one, client, &Order::Block);
    answered(&rt, &mut two, thread(0, 1), &Order::Block);
    let placed = [
        (0, 4),
        (FIRST_PLACE, FIRST_CORE),
        (FIRST_PLACE + 1, FIRST_CORE + 2),
        (1, 0),
    ];
    words_are(&rt, &mut one, &placed);
    words_are(&rt, &mut two, &placed);

    // the core at position 1 is asked back
    answered(&rt, &mut two, client, &ask(1));
    words_are(&rt, &mut one, &[(FIRST_PLACE + 1, FIRST_CORE + 3), (1, 2)]);
    Ok(())
}

#[test]
fn an_order_past_the_limit_is_full(rt: HostRuntime) -> Result<(), Fail> {
    let topology = Topology::from_text(rt.alloc(), TWO_SOCKETS)?;
    let mut one = Member::open(rt.alloc(), &topology, 3)?;
    let mut two = one.another()?;
    let client = thread(0, 0);
    for order in [Order::Join, ask(1), Order::Block] {
        answered(&rt, &mut one, client, &order);
    }
    assert_eq!(&rt; two.give(client, &Order::Status), Given::Full);
    words_are(&rt, &mut two, &[(0, 3), (FIRST_PLACE, FIRST_CORE)]);

    // the lock is free again after it
    assert_eq!(&rt; one.give(client, &Order::Status), Given::Full);
    Ok(())
}

/// The topology's own limit is three orders: its arbiter is renewed at each third one.
#[test]
fn renewals_are_unseen(rt: HostRuntime) -> Result<(), Fail> {
    let topology = Topology::from_text(rt.alloc(), THREE_ORDERS)?;
    let mut one = Member::open(rt.alloc(), &topology, u64::MAX)?;
    let client = thread(0, 0);
    for order in [Order::Join, ask(1), Order::Block] {
        answered(&rt, &mut one, client, &order);
    }
    let status = Reply::Counts {
        due: 1,
        owned: 1,
        asked: 0,
        waiting: 0,
    };
    for orders in 4..12 {
        assert_eq!(&rt; answered(&rt, &mut one, client, &Order::Status), status);
        words_are(&rt, &mut one, &[(0, orders), (FIRST_PLACE, FIRST_CORE)]);
    }
    Ok(())
}

#[test]
fn a_member_learns_what_another_has_seen(rt: HostRuntime) -> Result<(), Fail> {
    let topology = Topology::from_text(rt.alloc(), TWO_SOCKETS)?;
    let mut one = Member::open(rt.alloc(), &topology, u64::MAX)?;
    let mut two = one.another()?;
    answered(&rt, &mut two, thread(0, 0), &Order::Join);
    one.learn(two.tell());
    words_are(&rt, &mut one, &[(0, 1)]);
    Ok(())
}

/// A thread's core goes to another: the first word that is posted takes the core away, the second one gives it.
#[test]
fn a_turn_posts_word_by_word(rt: HostRuntime) -> Result<(), Fail> {
    let topology = Topology::from_text(rt.alloc(), TWO_SOCKETS)?;
    let mut one = Member::open(rt.alloc(), &topology, u64::MAX)?;
    let mut two = one.another()?;
    for number in 0..7 {
        let client = thread(0, number);
        answered(&rt, &mut two, client, &Order::Join);
        answered(&rt, &mut two, client, &ask(6));
        answered(&rt, &mut two, client, &Order::Block);
    }
    let Ok(mut turn) = one.begin() else {
        panic!(&rt; "nobody else has the lock");
    };

    // no other member has the lock meanwhile, and each may read
    assert_eq!(&rt; two.give(thread(0, 1), &Order::Status), Given::Busy);
    assert_eq!(&rt;
        turn.step(thread(0, 0), &Order::Block),
        Some(Reply::Now(Place::Waiting))
    );
    words_are(
        &rt,
        &mut two,
        &[(0, 22), (FIRST_PLACE, FIRST_CORE), (FIRST_PLACE + 6, 1)],
    );
    assert_eq!(&rt; turn.post(), Some((FIRST_PLACE, 1)));
    words_are(&rt, &mut two, &[(FIRST_PLACE, 1), (FIRST_PLACE + 6, 1)]);
    assert_eq!(&rt; turn.post(), Some((FIRST_PLACE + 6, FIRST_CORE)));
    words_are(&rt, &mut two, &[(FIRST_PLACE + 6, FIRST_CORE)]);
    assert_eq!(&rt; turn.post(), None);
    drop(turn.end());
    assert!(&rt; matches!(two.give(thread(0, 1), &Order::Status), Given::Answered(_)));
    Ok(())
}

/// A member whose type can't tell whether it has the lock does the same, and tells.
#[test]
fn a_member_or_turn_is_either(rt: HostRuntime) -> Result<(), Fail> {
    let topology = Topology::from_text(rt.alloc(), TWO_SOCKETS)?;
    let mut two = Member::open(rt.alloc(), &topology, u64::MAX)?;
    let mut one = MemberOrTurn::new(two.another()?);
    let client = thread(0, 0);
    assert_eq!(&rt; one.is_in_turn(), false);
    assert_eq!(&rt;
        one.give(client, &Order::Join),
        Given::Answered(Reply::Joined)
    );
    assert_eq!(&rt; one.give(client, &ask(1)), Given::Answered(Reply::Due(1)));

    // in a turn it reads the words as they are posted, and the arbiter as it stands
    if !one.begin() {
        panic!(&rt; "nobody else has the lock");
    }
    assert_eq!(&rt; one.is_settled(), true);
    assert_eq!(&rt;
        one.step(client, &Order::Block),
        Some(Reply::Now(Place::On {
            core: 1,
            asked: false
        }))
    );
    assert_eq!(&rt; one.is_settled(), false);
    assert_eq!(&rt; one.read(0), 3);
    assert_eq!(&rt; one.read(FIRST_PLACE), 0);
    assert_eq!(&rt; one.look(|core| core.due(0)), 1);
    assert_eq!(&rt; one.look(|core| core.owner(1)), Some(client));
    assert_eq!(&rt; two.give(client, &Order::Status), Given::Busy);
    assert_eq!(&rt; one.post(), Some((FIRST_PLACE, FIRST_CORE)));
    assert_eq!(&rt; one.post(), None);
    assert_eq!(&rt; one.read(FIRST_PLACE), FIRST_CORE);
    assert_eq!(&rt; one.is_settled(), true);
    one.end();
    assert_eq!(&rt; one.is_in_turn(), false);
    assert!(&rt; matches!(two.give(client, &Order::Status), Given::Answered(_)));

    // while another member has the lock, it begins no turn
    let Ok(turn) = two.begin() else {
        panic!(&rt; "nobody else has the lock");
    };
    assert_eq!(&rt; one.begin(), false);
    assert_eq!(&rt; one.is_in_turn(), false);
    assert_eq!(&rt; one.give(client, &Order::Status), Given::Busy);
    drop(turn.end());
    let mut three = one.another()?;
    assert_eq!(&rt; three.read(0), 4);
    Ok(())
}
