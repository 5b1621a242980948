//! The places of the bits of a state, in the order of the file.

ghost use Rattle.std.specs.Prelude.{◌≡◌, ◌++◌, ◌<◌, ◌≤◌, length, All, IfOk};
ghost use Rattle.var_order.specs.Layout.{IsOrderOf, bits};
ghost use Rattle.certificates.specs.Texts.{state_width};
ghost use Rattle.certificates.specs.Places.{variable_places, places_of};

use std::alloc::Global;
use symk_task::{Memory, Task};
use var_order::Order;

/// Adds the places of the bits of a variable, from the highest on: none of a derived one.
fn push_places(places: &mut Vec<u32>, order: &Order, var: u32) -> Result<(), Memory>
    ensures { IfOk result (λ _. places.new.items ≡ places.old.items ++ variable_places order.now var) }
{
    if order.slot(var).is_none() {
        return Ok(());
    }
    for bit in 0..order.width(var) {
        places.push(order.place(var, bit))?;
    }
    Ok(())
}

/// The place of each bit of a state: the bits of the base variables in the order of the file, the highest of each
/// first.
pub fn places_of(alloc: Global, task: &Task, order: &Order) -> Result<Vec<u32>, Memory>
    requires { IsOrderOf task.now order.now }
    ensures are { IfOk result (λ places. places.items ≡ places_of task.now order.now) }
    ensures count { IfOk result (λ places. length places.items ≡ state_width task.now) }
    ensures most { IfOk result (λ places. length places.items ≤ 65536) }
    ensures below { IfOk result (λ places. All (λ place. place < bits order.now) places.items) }
{
    let mut places = Vec::new(alloc);
    let count = task.parts().variables.as_slice().len();
    for var in 0..count {
        push_places(&mut places, order, var as u32)?;
    }
    Ok(places)
}
