//! Marks that were made, kept by the numbers of states.

use symk_task::State;

/// A state, and a mark for each operator: the moves by marked operators are enough there. The state is kept with them, so
/// that what is kept is right whatever its place.
#[derive(Drop)]
pub(crate) struct Marked {
    pub(crate) state: State,
    pub(crate) marks: Vec<bool>,
}

ghost use Rattle.std.specs.Prelude.{◌≡◌, IsTrue, OnOk};
ghost use Rattle.member_plans.specs.Kept.{HasMarksAt, PutsNoOtherMark};

use symk_task::Memory;

impl Marked {
    /// Whether the marks are those of the state.
    fn is_of(&self, state: &State) -> bool
        ensures { IsTrue result → self.now.state ≡ state.now }
    {
        self.state == *state
    }
}

/// Whether the marks of the state are kept at this number.
pub(crate) fn has_at(kept: &[Option<Marked>], number: usize, state: &State) -> bool
    ensures { IsTrue result → HasMarksAt kept.now number state.now }
{
    match kept.get(number) {
        Some(Some(marked)) => marked.is_of(state),
        _ => false,
    }
}

/// Keeps the marks at this number. Out of memory, it leaves what is kept.
pub(crate) fn keep(
    kept: &mut Vec<Option<Marked>>,
    number: usize,
    marked: Marked,
) -> Result<(), Memory>
    ensures kept { OnOk result (HasMarksAt kept.new.items number marked.state) }
    ensures puts { PutsNoOtherMark kept.old.items kept.new.items marked }
{
    'places: while kept.len() <= number {
        kept.push(None)?;
    }
    kept[number] = Some(marked);
    Ok(())
}
