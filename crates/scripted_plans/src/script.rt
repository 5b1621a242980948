//! A script of plans.

ghost use Rattle.std.specs.Prelude.{◌≡◌, ◌<◌, ◌^◌, ◌↔◌, ℕ, List, None, All, IfOk, OnOk};
ghost use Rattle.symk_task.specs.declared.parts.Mode.TheVariants.{TopK};
ghost use Rattle.scripted_plans.specs.Free.{free, is_one_of, IsOneOf, IsScript};
ghost use Rattle.scripted_plans.specs.Scripted.{fair_script, told_script};

use indexmap::IndexSet;
use lazy_plans::{Ending, LazyPlans, Steps, Stop};
use std::alloc::Global;
use std::sync::ledger::Ledger;
use symk_task::{Memory, Plan};

/// An engine of mode `TopK` of the plans that it was told, in that order, each once.
#[derive(Drop)]
pub struct Script {
    plans: IndexSet<Plan>,
    /// The number of the call that is refused memory, counted from 1.
    refused: Option<u64>,
    /// How many calls there were.
    calls: u64,
    last: Option<Ending>,
}

impl Script {
    /// A script of these plans, of which call `refused` is refused memory.
    pub fn of(alloc: Global, plans: &[&[u32]], refused: Option<u64>) -> Result<Script, Memory>
        ensures { IfOk result (λ s. ⟦<Script as LazyPlans>⟧.lawful s) }
    {
        let mut script = Script {
            plans: IndexSet::new(alloc),
            refused,
            calls: 0,
            last: None,
        };
        for plan in plans {
            script.add(alloc, *plan)?;
        }
        Ok(script)
    }

    /// Tells one plan more.
    fn add(&mut self, alloc: Global, operators: &[u32]) -> Result<(), Memory>
        requires { IsScript self.old.plans.keys None }
        ensures plans { IsScript self.new.plans.keys None }
        ensures last { self.new.last ≡ self.old.last }
    {
        let plan = Plan::of(Vec::from_slice(alloc, operators)?);
        self.plans.insert(plan)?;
        Ok(())
    }
}

impl LazyPlans for Script {
    ghost system = { λ _. free };

    ghost mode = { λ _. TopK };

    ghost most = { λ _. None };

    ghost pends = { λ x. IsOneOf x.plans.keys };

    ghost tells = { λ x. is_one_of x.plans.keys };

    ghost lawful = { λ x. IsScript x.plans.keys x.last };

    ghost last = { λ x. x.last };

    fn next_plan<L: Ledger>(
        &mut self,
        _alloc: Global,
        steps: &mut Steps<L>,
    ) -> Result<Option<Plan>, Stop> {
        if let Some(ending) = self.last {
            return ending.answer();
        }
        steps.tick();
        self.calls = self.calls.saturating_add(1);
        if self.refused == Some(self.calls) {
            self.last = Some(Ending::StoppedBy(Stop::Memory));
            return Err(Stop::Memory);
        }
        match self.plans.shift_remove_index(0) {
            Some(plan) => Ok(Some(plan)),
            None => {
                self.last = Some(Ending::Exhausted);
                Ok(None)
            }
        }
    }

    ghost fair = { λ x ok. fair_script x.plans.keys x.last ok };

    ghost told = { λ x ok p. told_script x.plans.keys p };
}
