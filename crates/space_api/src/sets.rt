//! What calls of a space together tell of its sets.

ghost use Rattle.std.specs.Prelude.{◌≡◌, ◌↔◌, IsTrue, IfOk};
ghost use Rattle.task_system.specs.System.{State};
ghost use Rattle.space_api.specs.View.{View, Valid, Meets};
ghost use Rattle.space_api.specs.Frames.{Stays};

use crate::space::{Space, SpaceFault};

/// Whether the two sets have a state in common.
pub fn meets<S: Space>(space: &mut S, a: S::Set, b: S::Set) -> Result<bool, SpaceFault>
    requires a { Valid (S.view space.old) a }
    requires b { Valid (S.view space.old) b }
    ensures stays { Stays (S.view space.old) (S.view space.new) }
    ensures task { (S.view space.new).task ≡ (S.view space.old).task }
    ensures ok { IfOk result (λ meet. IsTrue meet ↔ ((s : State) × Meets (S.view space.old) a b s)) }
{
    let both = space.meet(a, b)?;
    let empty = space.is_empty(both);
    space.forget(both);
    Ok(!empty)
}
