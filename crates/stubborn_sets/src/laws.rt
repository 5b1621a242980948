//! The laws of stubborn sets, over any system.

ghost use Rattle.stubborn_sets.specs.Laws.{NeighboursMayBeExchanged, FirstInsideMovesToFront, PlansMayBeginInside, ClassesKeepAMember, ChosenSetsKeepAMember};

/// Of two neighbours in a run that commute and both apply, the second may come first.
pub fn neighbours_may_be_exchanged()
    ensures { NeighboursMayBeExchanged }
{}

/// The first operator of a set in a run may come first of all, where it applies at the start and commutes with each
/// before it.
pub fn first_inside_moves_to_front()
    ensures { FirstInsideMovesToFront }
{}

/// A plan that goes on from a state may begin inside a stubborn set of the state.
pub fn plans_may_begin_inside()
    ensures { PlansMayBeginInside }
{}

/// Where each state has a stubborn set, a plan can be rearranged so that each step is in the set of its state.
pub fn classes_keep_a_member()
    ensures { ClassesKeepAMember }
{}

/// So too where a stubborn set is chosen after each list of operators that leads on, whatever another list to the same
/// state has.
pub fn chosen_sets_keep_a_member()
    ensures { ChosenSetsKeepAMember }
{}
