//! Slots for sets that wait.

ghost use Rattle.std.specs.Prelude.{◌≡◌, ◌+◌, None, Some, IsTrue, IfOk, OnOk, OnErr, slice_get};
ghost use Rattle.std.specs.List.{sum_by};
ghost use Rattle.goal_ranks.specs.Agenda.{entries_of};
ghost use Rattle.goal_ranks.specs.Entries.{AreEntries};
ghost use Rattle.goal_ranks.specs.Lists.{slot_key};
ghost use Rattle.goal_ranks.specs.Slots.{FillsSlot, PutsInSlot};
ghost use Rattle.goal_ranks.specs.Nearing.{slot_work};

use crate::agenda::Agenda;
use crate::parts::Waiting;
use symk_task::Memory;

/// Whether there is such a slot, and it is free.
fn is_free<T: Copy>(slots: &[Option<Waiting<T>>], index: usize) -> bool
    ensures { IsTrue result → slice_get slots.now index ≡ Some None }
{
    index < slots.len() && slots[index].is_none()
}

/// Puts it into the slot that was freed last, or a new one, and tells which.
fn fill<T: Copy>(
    slots: &mut Vec<Option<Waiting<T>>>,
    free: &mut Vec<usize>,
    waiting: Waiting<T>,
) -> Result<usize, Memory>
    ensures ok { IfOk result (FillsSlot slots.old.items slots.new.items waiting) }
    ensures work { OnOk result (sum_by slot_work slots.new.items ≡ sum_by slot_work slots.old.items
        + slot_work (Some waiting)) }
    ensures err { OnErr result (slots.new.items ≡ slots.old.items) }
{
    if let Some(index) = free.pop()
        && is_free(slots, index)
    {
        slots[index] = Some(waiting);
        return Ok(index);
    }
    let last = slots.len();
    slots.push(Some(waiting))?;
    Ok(last)
}

/// Puts it into a free slot, or a new one, and its key beside the others.
pub(crate) fn put<T: Copy>(
    slots: &mut Vec<Option<Waiting<T>>>,
    free: &mut Vec<usize>,
    keys: &mut Agenda,
    waiting: Waiting<T>,
) -> Result<(), Memory>
    requires { AreEntries slot_key slots.old.items (entries_of keys.old) }
    ensures ok { OnOk result (PutsInSlot slots.old.items slots.new.items waiting) }
    ensures work { OnOk result (sum_by slot_work slots.new.items ≡ sum_by slot_work slots.old.items
        + slot_work (Some waiting)) }
    ensures err { OnErr result (slots.new.items ≡ slots.old.items) }
    ensures keys { AreEntries slot_key slots.new.items (entries_of keys.new) }
{
    keys.make_room()?;
    let index = fill(slots, free, waiting)?;
    keys.add(slots, index);
    Ok(())
}
