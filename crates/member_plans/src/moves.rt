//! Which of the moves from a state are enough.

use crate::kept::Marked;
use stubborn_sets::StubbornSets;
use symk_task::Task;
use task_run::Rules;

/// Finds the moves from states of a task that are enough, where of each class of plans one has to come.
#[derive(Drop)]
pub struct Moves<'a> {
    pub(crate) task: &'a Task,
    /// The task's rules that count.
    pub(crate) rules: Rules,
    pub(crate) sets: StubbornSets,
    /// By the number of the state. The last states may have no place here.
    pub(crate) kept: Vec<Option<Marked>>,
}

ghost use Rattle.std.specs.Prelude.{ℕ, List, IfOk, OnOk};
ghost use Rattle.task_system.specs.System.{System};
ghost use Rattle.task_system.specs.Computed.{system_of};
ghost use Rattle.space_api.specs.States.{IsReached};
ghost use Rattle.stubborn_sets.specs.Stubborn.{Stubborn};
ghost use Rattle.stubborn_sets.specs.Closing.{has_mark};
ghost use Rattle.member_plans.specs.Moves.{Serves, HasMarks, AreMarksAt};

use crate::kept::{has_at, keep};
use std::alloc::Global;
use symk_task::{Memory, State};
use task_run::closed_by;

impl<'a> Moves<'a> {
    /// For the states of the task.
    pub(crate) fn new(alloc: Global, task: &'a Task) -> Result<Moves<'a>, Memory>
        ensures { IfOk result (λ moves. Serves moves (system_of task.now)) }
    {
        // A task fits, and so its system lists the states that operators reach.
        let _ = task.parts();
        Ok(Moves {
            task,
            rules: Rules::of(alloc, task)?,
            sets: StubbornSets::new(alloc, task)?,
            kept: Vec::new(alloc),
        })
    }

    /// A mark for each operator: the moves by marked operators are enough in this state, which operators reach.
    fn make_marks(&mut self, alloc: Global, state: &State) -> Result<Vec<bool>, Memory>
        requires { (y : System) × Serves self.old y × IsReached y state.now }
        ensures serves { (y : System) → Serves self.old y → Serves self.new y }
        ensures stubborn { (y : System) → Serves self.old y → IfOk result (λ marks. Stubborn y (has_mark marks.items)
            state.now) }
    {
        // A task fits, and so operators reach no more than its states.
        let _ = self.task.parts();
        let values = closed_by(alloc, self.task, &self.rules, state)?;
        self.sets.set_of(alloc, self.task, state, &values)
    }

    /// Makes the marks of this state, which operators reach, unless they are kept at its number.
    pub(crate) fn find_marks(
        &mut self,
        alloc: Global,
        number: usize,
        state: &State,
    ) -> Result<(), Memory>
        requires { (y : System) × Serves self.old y × IsReached y state.now }
        ensures serves { (y : System) → Serves self.old y → Serves self.new y }
        ensures found { OnOk result (HasMarks self.new number state.now) }
    {
        if has_at(&self.kept, number, state) {
            return Ok(());
        }
        let marks = self.make_marks(alloc, state)?;
        let state = state.copy(alloc)?;
        keep(&mut self.kept, number, Marked { state, marks })
    }

    /// The marks of the state of this number, which were found, lent.
    pub(crate) fn marks_of(&self, number: usize) -> &[bool]
        requires { (s : List ℕ) × HasMarks self.now number s }
        ensures { AreMarksAt self.now number result.now }
    {
        match self.kept.get(number) {
            Some(Some(marked)) => &marked.marks,
            _ => unreachable!(),
        }
    }
}
