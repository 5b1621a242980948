//! The first of several sets that has a state in common with another.

ghost use Rattle.std.specs.Prelude.{IfOk};
ghost use Rattle.std.specs.List.{AllByRecursion};
ghost use Rattle.space_api.specs.View.{View, Valid};
ghost use Rattle.space_api.specs.Frames.{Stays};
ghost use Rattle.cost_layers.specs.Rings.{FirstMeeting};

use space_api::{Space, SpaceFault, meets};

/// The number of the first of the sets that has a state in common with `set`.
pub(crate) fn first_meeting<S: Space>(
    space: &mut S,
    rings: &[S::Set],
    set: S::Set,
) -> Result<Option<u64>, SpaceFault>
    requires each { AllByRecursion (Valid (S.view space.old)) rings.now }
    requires set { Valid (S.view space.old) set }
    ensures stays { Stays (S.view space.old) (S.view space.new) }
    ensures ok { IfOk result (FirstMeeting (S.view space.old) rings.now set) }
{
    for (i, ring) in rings.iter().enumerate() {
        if meets(space, *ring, set)? {
            return Ok(Some(i as u64));
        }
    }
    Ok(None)
}
