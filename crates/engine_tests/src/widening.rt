//! Tasks that seeds draw, with costs from 0 to 2^63.

use std::alloc::Global;
use std::mem::replace;
use symk_task::{List, Memory, Operator, Task};
use task_draws::{Random, drawn_parts};

/// A cost of up to 63 bits, how many of them drawn first, so that small and great ones stand side by side.
fn wide_cost(random: &mut Random) -> u64 {
    let bits = 1 + random.below(63);
    random.next() >> bits
}

/// The operators with their costs drawn anew.
fn widened(operators: Vec<Operator>, random: &mut Random) -> Vec<Operator> {
    let mut operators = operators;
    for operator in operators.iter_mut() {
        operator.cost = wide_cost(random);
    }
    operators
}

/// What `random_task` draws by the seed, with the costs of operators drawn wide. None where what was drawn is no task.
pub fn wide_task(alloc: Global, seed: u64) -> Result<Option<Task>, Memory> {
    let mut random = Random::of(seed);
    let mut parts = drawn_parts(alloc, &mut random)?;
    let operators = replace(&mut parts.operators, List::of(Vec::new(alloc)));
    parts.operators = List::of(widened(operators.into_vec(), &mut random));
    parts.metric = 1;
    if !parts.fits() {
        return Ok(None);
    }
    Ok(Some(Task::of(parts)))
}
