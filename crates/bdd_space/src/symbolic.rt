//! A task, a table, and sets of the task's states by number.

use crate::slots::Slots;
use bdd_ops::Ops;
use bdd_sets::StepFacts;
use bdd_table::{FALSE, Id};
use std::marker::Model;
use symk_task::{Memory, State, Task};
use task_run::Rules;
use trans_merge::OperatorRelations;
use var_order::Order;

/// The sets of states of one task, each a decision diagram.
#[derive(Drop)]
pub struct BddSpace<'a> {
    pub(crate) task: &'a Task,
    pub(crate) order: Order,
    pub(crate) initial: State,
    /// The task's rules that count.
    pub(crate) rules: Rules,
    pub(crate) ops: Ops,
    pub(crate) own: Own,
    pub(crate) relations: OperatorRelations,
    /// What the operators ask for, and what they leave.
    pub(crate) steps: StepFacts,
    pub(crate) sets: Slots,
    /// How many nodes were needed after the last collection that a caller asked for.
    pub(crate) last: usize,
    /// How many nodes the table held when it was swept last, or collected.
    pub(crate) swept: usize,
}

/// The Ids that a space keeps for itself.
#[derive(Clone, Copy)]
pub(crate) struct Own {
    /// All states.
    pub(crate) all: Id,
    /// The initial state.
    pub(crate) start: Id,
    /// The states in which the goal holds.
    pub(crate) goals: Id,
}

impl<'a> Model for BddSpace<'a> {
    ghost use Rattle.bdd_space.specs.Symbolic.{Symbolic, IsSpace};

    ghost Value = { Symbolic };

    ghost view = { λ a. record {
      task = a.task.now;
      rules = a.rules;
      order = a.order;
      nodes = a.ops;
      own = a.own;
      relations = a.relations;
      steps = a.steps;
      sets = a.sets.slots.items;
      last = a.last;
    } };

    ghost invariant = { λ a. IsSpace (record {
      task = a.task.now;
      rules = a.rules;
      order = a.order;
      nodes = a.ops;
      own = a.own;
      relations = a.relations;
      steps = a.steps;
      sets = a.sets.slots.items;
      last = a.last;
    }) a.initial };
}

ghost use Rattle.std.specs.Prelude.{◌≡◌, ◌<◌, ◌↔◌, ℕ, Some, length, IsTrue, IfOk, OnErr};
ghost use Rattle.task_system.specs.System.{Listed};
ghost use Rattle.space_api.specs.View.{View, Valid, GoalIn, Unites, Meets, Lacks, Image, CostImage, Preimage, CostPreimage};
ghost use Rattle.space_api.specs.Frames.{MakesSet};
ghost use Rattle.bdd_space.specs.Slots.{set_at};
ghost use Rattle.bdd_space.specs.Members.{has_state, IsKnownSet};
ghost use Rattle.bdd_space.specs.Symbolic.{GrowsSymbolic, Makes};
ghost use Rattle.bdd_space.specs.Seen.{seen};

impl<'a> BddSpace<'a> {
    /// The Id of a valid set, up to the next call that collects.
    pub fn id(&self, a: usize) -> Id
        requires { Valid (seen self.now) a }
        ensures is { set_at self.now.sets a ≡ Some result }
        ensures set { IsKnownSet self.now.order self.now.nodes result }
    {
        self.sets.id(a)
    }

    /// A place for a set.
    fn put(&mut self, id: Id) -> Result<usize, Memory>
        requires { IsKnownSet self.old.order self.old.nodes id }
        ensures { MakesSet (seen self.old) (seen self.new)
            (λ s. IsTrue (has_state self.old.order self.old.nodes id s)) result }
    {
        self.sets.put(id)
    }

    /// A new set. What the space doesn't need is thrown away where the table is crowded.
    pub(crate) fn add(&mut self, id: Id) -> Result<usize, Memory>
        requires { IsKnownSet self.old.order self.old.nodes id }
        ensures { MakesSet (seen self.old) (seen self.new)
            (λ s. IsTrue (has_state self.old.order self.old.nodes id s)) result }
    {
        let set = self.put(id)?;
        self.sweep();
        Ok(set)
    }
}
