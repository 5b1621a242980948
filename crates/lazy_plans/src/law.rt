//! The law that every engine of plans keeps.

ghost use Rattle.std.specs.Prelude.{◌≡◌, ◌≢◌, ℕ, List, Option, Bool, None};
ghost use Rattle.std.specs.Bool.{Decides};
ghost use Rattle.task_system.specs.System.{System};
ghost use Rattle.symk_task.specs.declared.parts.Mode.{Mode};
ghost use Rattle.lazy_plans.specs.Law.{Fair, Turned, Last, last_of};

use crate::steps::Steps;
use crate::stop::Stop;
use std::alloc::Global;
use std::sync::ledger::Ledger;
use symk_task::Plan;

/// An engine that hands out the plans of its mode, the cheapest first.
pub trait LazyPlans {
    /// Whose plans they are.
    ghost system: { Self → System };

    /// Which plans they are, and which two count as one.
    ghost mode: { Self → Mode };

    /// The greatest cost that is wanted, or none.
    ghost most: { Self → Option ℕ };

    /// What is still owed: the plans that pend.
    ghost pends: { Self → List ℕ → Type 0 };

    /// The same, computed.
    ghost tells: { Self → List ℕ → Bool };

    /// What every value meets between two calls.
    ghost lawful: { Self → Type 0 };

    /// The answer that ended it, which every later call repeats.
    ghost last: { Self → Last };

    /// A cheapest plan that pends, of the greatest cost that is wanted at most, or of 18446744073709551615 at
    /// most where none is; afterwards neither it nor what counts as one with it pends. `None` where no plan
    /// pends, or with a greatest cost none up to it. `CostRange`, without a greatest cost alone, where plans
    /// pend and each costs more than 18446744073709551615. `Memory` when out of memory. After these what pends
    /// stays, and each later call answers the same.
    /// Each turn adds one to `steps`.
    fn next_plan<L: Ledger>(
        &mut self,
        alloc: Global,
        steps: &mut Steps<L>,
    ) -> Result<Option<Plan>, Stop>
        requires { lawful self.old }
        ensures lawful { lawful self.new }
        ensures system { system self.new ≡ system self.old }
        ensures mode { mode self.new ≡ mode self.old }
        ensures most { most self.new ≡ most self.old }
        ensures law { Turned (system self.old) (mode self.old) (most self.old)
            (pends self.old) (pends self.new) result }
        ensures last { last self.new ≡ last_of result }
        ensures again { last self.old ≢ None → last self.new ≡ last self.old };

    /// What pends is a plan of the mode, and every plan that costs too much pends.
    ghost fair: { (x : Self) → lawful x → Fair (system x) (mode x) (most x) (pends x) };

    /// Whether a list pends can be computed.
    ghost told: { (x : Self) → lawful x → (p : List ℕ) → Decides (tells x p) (pends x p) };
}
