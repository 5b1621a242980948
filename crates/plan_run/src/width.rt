//! Whether the costs of a task are wide, so that a search by least costs serves it better than one cost by cost.

use symk_task::{Operator, Task};

/// How many times the measure of all costs the greatest has to be before costs are wide.
const WIDE: u64 = 50;

/// The greatest common divisor (Euclid); that of 0 and a number is the number.
fn common_divisor(a: u64, b: u64) -> u64 {
    let mut greater = a;
    let mut less = b;
    'euclid: while less != 0 {
        let left = greater % less;
        greater = less;
        less = left;
    }
    greater
}

/// What costs have in common: the greatest number that measures all of them, and the greatest of them.
#[derive(Clone, Copy, Debug)]
struct Width {
    measure: u64,
    greatest: u64,
}

impl Width {
    /// With one cost more.
    fn with(self, cost: u64) -> Width {
        Width {
            measure: common_divisor(self.measure, cost),
            greatest: self.greatest.max(cost),
        }
    }
}

/// The width of the costs that the operators state.
fn width_of(operators: &[Operator]) -> Width {
    let mut width = Width {
        measure: 0,
        greatest: 0,
    };
    for operator in operators {
        width = width.with(operator.cost);
    }
    width
}

/// Whether the greatest cost of an operator is 50 times the greatest common divisor of all costs, or more.
///
/// So many layers by exact cost may lie below a plan of few steps, and without end where a cheap circle stands beside a
/// dear operator. It is a choice of the engine alone, and changes no list.
pub(crate) fn costs_are_wide(task: &Task) -> bool {
    let parts = task.parts();
    let width = width_of(parts.operators.as_slice());
    parts.metric != 0 && 0 < width.measure && WIDE <= width.greatest / width.measure
}
