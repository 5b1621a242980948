//! The moves from a state: the operators that lead on from it, found by the values of its variables, which tell as well
//! whether a plan ends there.

use symk_task::State;
use task_run::Closed;

/// An operator that leads on: to which state, what is left of the cost there, and the first ring that has the state.
#[derive(Drop)]
pub(crate) struct Move {
    pub(crate) op: u32,
    pub(crate) state: State,
    pub(crate) cost: u64,
    pub(crate) ring: u64,
}

/// A state that operators reach, with the values of all its variables, where so much of the cost is left.
#[derive(Clone, Copy)]
struct Node<'a> {
    cost: u64,
    state: &'a State,
    values: &'a Closed,
}

/// All that follows of a state where so much of the cost is left: the moves, and whether a plan ends there.
#[derive(Drop)]
pub(crate) struct Successors {
    pub(crate) moves: Vec<Move>,
    pub(crate) ends: bool,
}

ghost use Rattle.std.specs.Prelude.{◌≡◌, ◌<◌, ◌↔◌, ◌++◌, IsTrue, IfOk, OnOk, option_to_list};
ghost use Rattle.task_run.specs.Values.{Valued};
ghost use Rattle.space_api.specs.View.{View, Valid};
ghost use Rattle.space_api.specs.States.{IsReached};
ghost use Rattle.cost_layers.specs.Layers.{Held};
ghost use Rattle.reconstruct.specs.Ways.{IsWay, LandsIn};
ghost use Rattle.reconstruct.specs.Moves.{FoundMove, AreMoves, IsEnd, AreSuccessors};

use crate::ways::{Way, first_ring, way_after, way_for};
use cost_layers::Layers;
use space_api::{Space, SpaceFault, is_goal, next_state, values_of};
use std::alloc::Global;

/// The state to which the operator leads. None where it doesn't lead into the layer.
fn state_after<S: Space>(
    alloc: Global,
    space: &S,
    node: Node<'_>,
    op: u32,
    within: S::Set,
) -> Result<Option<State>, SpaceFault>
    requires state { IsReached (S.view space.now).system node.state.now }
    requires valued { Valued (S.view space.now).task node.state.now node.values.now }
    requires within { Valid (S.view space.now) within }
    requires op { op < (S.view space.now).system.operators }
    ensures { IfOk result (LandsIn (S.view space.now) node.entry.state.now op within) }
{
    match next_state(alloc, space, op, node.state, node.values)? {
        None => Ok(None),
        Some(next) => {
            if space.has(within, &next) {
                Ok(Some(next))
            } else {
                Ok(None)
            }
        }
    }
}

/// The move by this operator. None where there is none.
fn move_by<S: Space>(
    alloc: Global,
    space: &S,
    back: &Layers<S::Set>,
    node: Node<'_>,
    way: Way<S::Set>,
    op: u32,
) -> Result<Option<Move>, SpaceFault>
    requires back { Held (S.view space.now) back.now }
    requires state { IsReached (S.view space.now).system node.state.now }
    requires valued { Valued (S.view space.now).task node.state.now node.values.now }
    requires op { op < (S.view space.now).system.operators }
    requires cost { way.cost ≡ (S.view space.now).system.cost op }
    requires way { IsWay back.now node.cost way }
    ensures { IfOk result (FoundMove (S.view space.now) back.now node.entry.cost node.entry.state.now op) }
{
    let Some(within) = way.layer else {
        return Ok(None);
    };
    match state_after(alloc, space, node, op, within)? {
        None => Ok(None),
        Some(next) => {
            let cost = node.cost - way.cost;
            let ring = first_ring(space, back, cost, &next);
            Ok(Some(Move {
                op,
                state: next,
                cost,
                ring,
            }))
        }
    }
}

/// Puts the move last, if there is one.
fn put_move(moves: &mut Vec<Move>, found: Option<Move>) -> Result<(), SpaceFault>
    ensures { OnOk result (moves.new.items ≡ moves.old.items ++ option_to_list found) }
{
    if let Some(step) = found {
        moves.push(step)?;
    }
    Ok(())
}

/// The moves from a state, in the order of the operators.
fn moves_from<S: Space>(
    alloc: Global,
    space: &S,
    back: &Layers<S::Set>,
    node: Node<'_>,
) -> Result<Vec<Move>, SpaceFault>
    requires back { Held (S.view space.now) back.now }
    requires state { IsReached (S.view space.now).system node.state.now }
    requires valued { Valued (S.view space.now).task node.state.now node.values.now }
    ensures { IfOk result (λ moves. AreMoves (S.view space.now) back.now node.entry.cost node.entry.state.now moves.items) }
{
    let mut moves = Vec::new(alloc);
    let mut way = way_for(back, node.cost, 0);
    'operators: for op in 0..space.operators() {
        way = way_after(back, node.cost, way, space.cost_of(op));
        let found = move_by(alloc, space, back, node, way, op)?;
        put_move(&mut moves, found)?;
    }
    Ok(moves)
}

/// Nothing is left to place, and the state is a goal.
fn is_end<S: Space>(space: &S, node: Node<'_>) -> bool
    requires { Valued (S.view space.now).task node.state.now node.values.now }
    ensures { IsTrue result ↔ IsEnd (S.view space.now) node.entry.cost node.entry.state.now }
{
    node.cost == 0 && is_goal(space, node.state, node.values)
}

/// All that follows of a state that operators reach, where so much of the cost is left.
pub(crate) fn successors_of<S: Space>(
    alloc: Global,
    space: &S,
    back: &Layers<S::Set>,
    cost: u64,
    state: &State,
) -> Result<Successors, SpaceFault>
    requires back { Held (S.view space.now) back.now }
    requires state { IsReached (S.view space.now).system state.now }
    ensures { IfOk result (λ all. AreSuccessors (S.view space.now) back.now cost state.now all.moves.items all.ends) }
{
    let values = values_of(alloc, space, state)?;
    let node = Node {
        cost,
        state,
        values: &values,
    };
    let moves = moves_from(alloc, space, back, node)?;
    let ends = is_end(space, node);
    Ok(Successors { moves, ends })
}
