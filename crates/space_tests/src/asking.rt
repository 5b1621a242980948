//! The calls of a space that give a set.

/// A call that gives a set.
#[derive(Clone, Copy, Debug, PartialEq, Eq)]
pub enum Call {
    Empty,
    All,
    Init,
    GoalIn,
    Unite,
    Meet,
    Minus,
    /// The image by the operators of this cost.
    ImageCost(u64),
    /// The preimage by the operators of this cost.
    PreCost(u64),
    /// The image by this operator.
    ImageOp(u32),
    /// The preimage by this operator.
    PreOp(u32),
}

ghost use Rattle.std.specs.Prelude.{◌≡◌, ◌<◌, IfOk, OnErr};
ghost use Rattle.task_system.specs.System.{State};
ghost use Rattle.space_api.specs.View.{View, Valid};
ghost use Rattle.space_api.specs.Frames.{Kept, NoMore, Gives};
ghost use Rattle.space_tests.specs.Calls.{Means, IsAmongOperators};

use space_api::{Space, SpaceFault};
use task_draws::Random;

/// Makes the call. A call that takes one set is given the first.
pub fn make<S: Space>(
    space: &mut S,
    call: Call,
    first: S::Set,
    second: S::Set,
) -> Result<S::Set, SpaceFault>
    requires first { Valid (S.view space.old) first }
    requires second { Valid (S.view space.old) second }
    requires operator { IsAmongOperators (S.view space.old).system.operators call }
    ensures kept { Kept (S.view space.old) (S.view space.new) }
    ensures ok { IfOk result (Gives (S.view space.old) (S.view space.new) (Means (S.view space.old) call first
        second)) }
    ensures err { OnErr result (NoMore (S.view space.old) (S.view space.new)) }
{
    match call {
        Call::Empty => space.empty(),
        Call::All => space.all(),
        Call::Init => space.init(),
        Call::GoalIn => space.goal_in(first),
        Call::Unite => space.unite(first, second),
        Call::Meet => space.meet(first, second),
        Call::Minus => space.minus(first, second),
        Call::ImageCost(cost) => space.image_cost(cost, first),
        Call::PreCost(cost) => space.pre_cost(cost, first, second),
        Call::ImageOp(op) => space.image_op(op, first),
        Call::PreOp(op) => space.pre_op(op, first, second),
    }
}

/// A call, drawn; the costs drawn are 0 to 4. A call by an operator is drawn only where there is one.
pub fn drawn_call(random: &mut Random, operators: u32) -> Call
    ensures { IsAmongOperators operators result }
{
    let kind = random.below(if operators == 0 { 9 } else { 11 });
    let cost = u64::from(random.below(5));
    match kind {
        0 => Call::Empty,
        1 => Call::All,
        2 => Call::Init,
        3 => Call::GoalIn,
        4 => Call::Unite,
        5 => Call::Meet,
        6 => Call::Minus,
        7 => Call::ImageCost(cost),
        8 => Call::PreCost(cost),
        9 => Call::ImageOp(random.below(operators)),
        _ => Call::PreOp(random.below(operators)),
    }
}
