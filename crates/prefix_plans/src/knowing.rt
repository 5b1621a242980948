//! What the search knows now, and its next step.

ghost use Rattle.std.specs.Prelude.{◌≡◌, ◌+◌, ◌<◌, ◌^◌, OnOk, IsSome, List};
ghost use Rattle.std.specs.Bool.{Decides};
ghost use Rattle.space_api.specs.View.{View};
ghost use Rattle.lazy_plans.specs.Law.{top};
ghost use Rattle.cost_to_go.specs.Standing.{to_go_within, next_key_of, steps_left};
ghost use Rattle.prefix_tree.specs.declared.entry.Entry.{Entry};
ghost use Rattle.prefix_tree.specs.declared.tree.Node.{Node};
ghost use Rattle.prefix_tree.specs.declared.state_graph.StateGraph.{StateGraph};
ghost use Rattle.prefix_plans.specs.Left.{known_to_go, bound_at};
ghost use Rattle.prefix_plans.specs.EndChildren.{IsOutdated};
ghost use Rattle.prefix_plans.specs.EndStanding.{IsCostToGoAlone, IsEndReady};

use cost_to_go::CostToGo;
use prefix_tree::Entry;
use space_api::{Space, SpaceFault};
use std::alloc::Global;

/// The greatest cost of a plan that is given.
pub fn top_of(most: Option<u64>) -> u64
    ensures { result ≡ top most }
{
    match most {
        None => u64::MAX,
        Some(most) => most,
    }
}

/// The least bound of a prefix of this cost whose last state has no rank.
fn least_bound<T: Copy>(search: &CostToGo<T>, cost: u128) -> u128
    requires { cost + 2 ^ 64 < 2 ^ 128 }
    ensures { result ≡ bound_at (next_key_of search.now) cost }
{
    let most = cost + (1 << 64);
    match search.next() {
        Some(next) => next.min(most),
        None => most,
    }
}

/// Whether the search knows more than the entry says, whose last state had no rank.
pub fn is_outdated<T: Copy>(search: &CostToGo<T>, entry: Entry) -> bool
    requires { entry.cost + 2 ^ 64 < 2 ^ 128 }
    ensures { Decides result (IsOutdated (known_to_go search.now) entry) }
{
    entry.ring.0 < search.ranks() || entry.bound.0 < least_bound(search, entry.cost)
}

/// The search goes on by one step, where something waits for a rank. What stands on it still stands, and one that
/// succeeds leaves fewer to do.
pub fn go_on<S: Space>(
    alloc: Global,
    space: &mut S,
    search: &mut CostToGo<S::Set>,
) -> Result<(), SpaceFault>
    requires alone { IsCostToGoAlone (S.view space.old) search.old }
    requires more { IsSome (next_key_of search.old) }
    ensures system { (S.view space.new).system ≡ (S.view space.old).system }
    ensures within { to_go_within search.new ≡ to_go_within search.old }
    ensures ready { (graph : StateGraph) (tree : List Node) (entries : List Entry)
        → IsEndReady (S.view space.old) search.old graph tree entries
        → IsEndReady (S.view space.new) search.new graph tree entries }
    ensures fewer { OnOk result (steps_left (S.view space.old).system search.new
        < steps_left (S.view space.old).system search.old) }
{
    search.go_on(alloc, space)
}
