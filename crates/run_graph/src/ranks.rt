//! The laws of ranks, on either side.

ghost use Rattle.run_graph.specs.RankLaws.{RanksAreLeastCosts, KeysBoundRuns, OneMoreRankIsRight, WaitingMayBeToldAnew, OtherEndMayGoOn};

/// A ranked state is reached at its cost, or leads to the goal at it, and by no run inside at less.
pub fn ranks_are_least_costs()
    ensures { RanksAreLeastCosts }
{}

/// The least key bounds what a run costs, from one end to the other, through a state that has no rank.
pub fn keys_bound_runs()
    ensures { KeysBoundRuns }
{}

/// States that wait under the least key may be ranked next, where it is no less than their cost and what lies between
/// them and the other end.
pub fn one_more_rank_is_right()
    ensures { OneMoreRankIsRight }
{}

/// Sets that wait may be split, and left out where they have ranks.
pub fn waiting_may_be_told_anew()
    ensures { WaitingMayBeToldAnew }
{}

/// Keys stay right where more is known of the other end.
pub fn other_end_may_go_on()
    ensures { OtherEndMayGoOn }
{}
