//! The test whether two operators commute.

ghost use Rattle.std.specs.Prelude.{◌<◌, IsTrue, length};
ghost use Rattle.task_system.specs.Computed.{system_of};
ghost use Rattle.stubborn_sets.specs.Commuting.{Commute};

use crate::meeting::meet_on_all;
use symk_task::Task;

/// Whether the two operators are seen to commute, by the task alone: where it answers true, each applies after the
/// other in every state in which both apply, and both orders lead to the same state. Operators may commute that are not
/// seen to.
///
/// They are seen to where, of each variable that one of them writes, one doesn't touch it, or what both do to it depends
/// on its own value alone, and at each value that both allow they do the same to it in either order, let each other
/// apply, and leave it if the other reads it elsewhere. An operator that reads a derived variable is taken to read each
/// variable that a rule reads. Time: by the sizes of the two operators, and the values of the variables that both touch.
pub fn commute(task: &Task, one: u32, other: u32) -> bool
    requires one { one < length task.now.operators }
    requires other { other < length task.now.operators }
    ensures { IsTrue result → Commute (system_of task.now) one other }
{
    let parts = task.parts();
    let operators = parts.operators.as_slice();
    let first = &operators[one as usize];
    let second = &operators[other as usize];
    meet_on_all(parts, first, second, first.effects.as_slice())
        && meet_on_all(parts, first, second, second.effects.as_slice())
}
