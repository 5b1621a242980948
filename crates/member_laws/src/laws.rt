//! The laws of prefixes that are opened once for each node, over any system.

ghost use Rattle.member_laws.specs.Laws.{EachPendsAtFirst, PendingGoesOn, PendingIsBounded, EmptyLeavesNone, DearLeavesNone, DearIsOutOfRange, OpeningCovers, OpeningKeepsAll, OpeningGivesThePlan, JoinedMayGo, HopelessMayGo, EntriesMayBePutBack, PendingIsTold, CallsFollowTurns, RefusalKeepsAll, EndingsStand};

/// At first, where nothing was opened and the empty prefix waits, what holds between turns does, and each plan pends.
pub fn each_pends_at_first()
    ensures { EachPendsAtFirst }
{}

/// From an entry of the queue each plan that pends goes on, rearranged: to a plan with the same operators, each as often,
/// that ends in the same state and costs the same.
pub fn pending_goes_on()
    ensures { PendingGoesOn }
{}

/// Each plan that pends costs what bounds each entry at least.
pub fn pending_is_bounded()
    ensures { PendingIsBounded }
{}

/// Where the queue is empty no plan pends.
pub fn empty_leaves_none()
    ensures { EmptyLeavesNone }
{}

/// Where each entry's bound is above a cost, no plan up to it pends.
pub fn dear_leaves_none()
    ensures { DearLeavesNone }
{}

/// Where each entry's bound is above the greatest cost that is listed, each prefix that was opened costs no more than
/// that, and a plan goes on from an entry, plans pend, each of them out of range.
pub fn dear_is_out_of_range()
    ensures { DearIsOutOfRange }
{}

/// After an opening what holds between turns does.
pub fn opening_covers()
    ensures { OpeningCovers }
{}

/// The opening of a prefix that is no plan leaves what pends as it was.
pub fn opening_keeps_all()
    ensures { OpeningKeepsAll }
{}

/// The opening of a prefix that is a plan, a cheapest that pends, gives it: it pends no more, and of each other class of
/// which a plan pended one does still.
pub fn opening_gives_the_plan()
    ensures { OpeningGivesThePlan }
{}

/// An entry that joins a prefix that was opened may be left out.
pub fn joined_may_go()
    ensures { JoinedMayGo }
{}

/// An entry from which no plan goes on may be left out.
pub fn hopeless_may_go()
    ensures { HopelessMayGo }
{}

/// An entry may be put back, told better, and the queue may stand in another order.
pub fn entries_may_be_put_back()
    ensures { EntriesMayBePutBack }
{}

/// What pends are plans, and whether a list pends can be computed.
pub fn pending_is_told()
    ensures { PendingIsTold }
{}

/// A call of several turns, of which those before the last opened no plan, answers what the last answers.
pub fn calls_follow_turns()
    ensures { CallsFollowTurns }
{}

/// Where memory is refused before a plan is opened, each plan that pended pends still: what pends hangs on what was opened
/// alone, so no plan has to be held besides.
pub fn refusal_keeps_all()
    ensures { RefusalKeepsAll }
{}

/// What an answer that ends calls says still holds after it, and the answer may be given again.
pub fn endings_stand()
    ensures { EndingsStand }
{}
