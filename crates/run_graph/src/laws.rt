//! The laws of layers and shut sets, on either side.

ghost use Rattle.run_graph.specs.Laws.{RightLayersAreTheSystems, SettledLayersAreRight, OneMoreCostIsSettled, NarrowingKeepsLayers, ClosedLayersAreShut, ShutSetsHaveAll};

/// A right layer of the graph is a right layer in the words of the system: reached at a cost, to the goal at a cost.
pub fn right_layers_are_the_systems()
    ensures { RightLayersAreTheSystems }
{}

/// Layers that are settled below a cost are right below it, rings included.
pub fn settled_layers_are_right()
    ensures { SettledLayersAreRight }
{}

/// A layer that begins where arcs lead from the cheaper ones, and goes on by arcs of cost 0, settles the least open
/// cost.
pub fn one_more_cost_is_settled()
    ensures { OneMoreCostIsSettled }
{}

/// Layers that are cut to some states stay settled, inside those states.
pub fn narrowing_keeps_layers()
    ensures { NarrowingKeepsLayers }
{}

/// Where no cost is open and no arc led past the range of costs, no arc leads out of the layers' union.
pub fn closed_layers_are_shut()
    ensures { ClosedLayersAreShut }
{}

/// A set that no arc leaves has every state that runs inside reach, or from which they lead to the goal.
pub fn shut_sets_have_all()
    ensures { ShutSetsHaveAll }
{}
