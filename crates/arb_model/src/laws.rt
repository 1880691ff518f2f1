//! Laws of the definitions, each as a function that does nothing: its contract is the law.

ghost use Rattle.arb_model.specs.Laws.{HasOneLeast, NamesTheLeast, OpensWellFormed, StaysWellFormed};
ghost use Rattle.arb_model.specs.Laws.{KeepsOwners, KeepsOwnersUnasked};
ghost use Rattle.arb_model.specs.Laws.{PostsOneLess, PostsAreDone, NoneNextNoneStale, NextIsLeast, PostingEnds};
ghost use Rattle.arb_model.specs.Laws.{EmptyIsLegal, PrefixIsLegal, LegalGoesOn, LegalWasAllowed, StatesFollow, LegalIsWellFormed};
ghost use Rattle.arb_model.specs.Laws.{EmptyReadsZero, OthersReadTheSame, OrdersAddOne, PostsAreRead, ReadsPosted};
ghost use Rattle.arb_model.specs.Laws.{NoCoreTwice, NoCoreReadTwice};
ghost use Rattle.arb_model.specs.Laws.{CountsEntries, NumbersEntries, EntriesHaveRoom, NextHasRoom, PostsWords};
ghost use Rattle.arb_model.specs.HistoryLaws.{OpensSettled, StatesBegin, LegalIsArbiter, LegalIsFact};
ghost use Rattle.arb_model.specs.HistoryLaws.{FollowsByState, EntryFollows, RepliesOfSteps, PostsSettle, SettlesOneWay};
ghost use Rattle.arb_model.specs.HistoryLaws.{ReadsOrders, ReadsSettled, PlacesArePositions, ReadsAPlace, ReadsAPlaceSince};
ghost use Rattle.arb_model.specs.HistoryLaws.{OrdersAdd, OrdersGrow, SumsOrders, OrdersWithin};
ghost use Rattle.arb_model.specs.HistoryLaws.{CountsAllEntries, CountsOwnEntries, EntriesJoin, EntriesStay, EntriesBegin, OwnEntriesBegin};
ghost use Rattle.arb_model.specs.HistoryLaws.{EntriesAppend, EntriesWereEntered, NumbersOwnEntries, OneOfEachNumber};
ghost use Rattle.arb_model.specs.Renewal.{RenewalIsUnseen, RenewedIsEndless};

/// The least few of some candidates by their keys can be picked in exactly one way, which `least_of` names.
pub fn least_choice_is_unique()
    ensures one { HasOneLeast }
    ensures named { NamesTheLeast }
{}

/// The standing before all orders is well formed, and each order whose numbers fit their types keeps it so.
pub fn standings_stay_well_formed()
    ensures opening { OpensWellFormed }
    ensures step { StaysWellFormed }
{}

/// An order changes the owner of a core only in three cases. The core was free; its thread blocks, retires or is moved;
/// or its application leaves. So a core that isn't asked back keeps its owner unless its thread gives it up or its
/// application leaves.
pub fn cores_keep_their_owners()
    ensures owners { KeepsOwners }
    ensures unasked { KeepsOwnersUnasked }
{}

/// Posting ends: each post makes the number of stale words less by one. There is no next word to post exactly where none
/// is stale. The next word is the first stale one whose posted value places a thread on a core, or else the first stale
/// one. The posts that follow a state are legal and leave no word stale.
pub fn posting_ends()
    ensures one_less { PostsOneLess }
    ensures done { PostsAreDone }
    ensures settled { NoneNextNoneStale }
    ensures least { NextIsLeast }
    ensures ends { PostingEnds }
{}

/// The empty history is legal, and so is each prefix of a legal history. A legal history goes on with each event that
/// may follow, and with no other.
pub fn legal_histories_go_on()
    ensures empty { EmptyIsLegal }
    ensures prefix { PrefixIsLegal }
    ensures next { LegalGoesOn }
    ensures allowed { LegalWasAllowed }
{}

/// After the empty history each word reads 0. An event changes the reading of at most its own word: an order adds one to
/// word 0, and a post sets its word.
pub fn events_change_one_reading()
    ensures empty { EmptyReadsZero }
    ensures others { OthersReadTheSame }
    ensures entered { OrdersAddOne }
    ensures posted { PostsAreRead }
{}

/// The state after a history is that after its prefix, changed by its last event. Where the history is legal, the
/// standing is well formed.
pub fn states_follow_histories()
    ensures next { StatesFollow }
    ensures standing { LegalIsWellFormed }
{}

/// After a legal history a word reads what was posted of it last, or 0 where nothing was.
pub fn readings_are_posted()
    ensures { ReadsPosted }
{}

/// No core is named by two posted place words, at any point of any legal history, nor by two readings at
/// one point.
pub fn no_core_is_posted_twice()
    ensures posted { NoCoreTwice }
    ensures read { NoCoreReadTwice }
{}

/// After a legal history each client's count of orders is the number of its entries. The number in an entry is how many
/// entries of its client come before it.
pub fn entries_are_numbered()
    ensures counts { CountsEntries }
    ensures numbers { NumbersEntries }
{}

/// Before each entry of a legal history stand fewer orders than the limit. Each post is of a page word other than word 0.
pub fn events_stay_in_range()
    ensures entries { EntriesHaveRoom }
    ensures next { NextHasRoom }
    ensures words { PostsWords }
{}

/// Before all orders no word is stale, and that is the state after the empty history.
pub fn histories_begin()
    ensures settled { OpensSettled }
    ensures state { StatesBegin }
{}

/// The state after a legal history is that of an arbiter: it is consistent, and has no more orders than the limit.
pub fn histories_lead_to_arbiters()
    ensures { LegalIsArbiter }
{}

/// That a history is legal is a fact, so a ghost field may hold it.
pub fn legality_is_a_fact()
    ensures { LegalIsFact }
{}

/// What may follow a history is what may happen in the state after it. An order that the arbiter may take there follows as
/// an entry, whose number the history gives. Each entry has the reply of the order step in the state before it.
pub fn events_follow_states()
    ensures event { FollowsByState }
    ensures entry { EntryFollows }
    ensures reply { RepliesOfSteps }
{}

/// The posts that follow a legal history bring it to a point at which no word is stale, and no other posts do.
pub fn histories_settle()
    ensures posts { PostsSettle }
    ensures only { SettlesOneWay }
{}

/// Word 0 reads the number of orders. Where no word is stale, each word reads what the standing has.
pub fn readings_follow_standings()
    ensures orders { ReadsOrders }
    ensures settled { ReadsSettled }
{}

/// What a place word reads was the thread's place at a point of the history. That point is no earlier than the last one at
/// which no word was stale. So a core that it names is one of the machine.
pub fn places_were_true()
    ensures place { ReadsAPlace }
    ensures since { ReadsAPlaceSince }
    ensures positions { PlacesArePositions }
{}

/// The orders of two histories joined are the sum of theirs, so they become no fewer while a history goes on. They are
/// the sum of the clients' counts after it, and within the limit where it is legal.
pub fn orders_add_up()
    ensures add { OrdersAdd }
    ensures grow { OrdersGrow }
    ensures sum { SumsOrders }
    ensures within { OrdersWithin }
{}

/// The entries of a history are as many as its orders, and a client's are as many as its own orders. The index of an entry
/// among the entries is the number of orders before it, and it stays so while the history goes on.
pub fn entries_stay()
    ensures count { CountsAllEntries }
    ensures own { CountsOwnEntries }
    ensures join { EntriesJoin }
    ensures begin { EntriesBegin }
    ensures own_begin { OwnEntriesBegin }
    ensures stay { EntriesStay }
    ensures append { EntriesAppend }
    ensures entered { EntriesWereEntered }
{}

/// In a legal history a client's entries are numbered from 0 in their order, so each number is there once.
pub fn own_entries_are_numbered()
    ensures numbers { NumbersOwnEntries }
    ensures once { OneOfEachNumber }
{}

/// No reply, place or page word tells of a renewal, but word 0, which counts orders: after any events callers see the same
/// with and without a renewal before them. So an arbiter that is renewed now and then looks like that of the same machine
/// without a limit on orders.
pub fn renewals_are_unseen()
    ensures unseen { RenewalIsUnseen }
    ensures endless { RenewedIsEndless }
{}
