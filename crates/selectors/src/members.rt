//! The law of an engine that keeps a member of each class.

ghost use Rattle.std.specs.Prelude.{◌≡◌, ◌≢◌, ℕ, List, Option, Bool, None};
ghost use Rattle.std.specs.Bool.{Decides};
ghost use Rattle.task_system.specs.System.{System};
ghost use Rattle.lazy_plans.specs.Law.{Last, last_of};
ghost use Rattle.selectors.specs.Members.{TurnedMembers, ArePlans};

use lazy_plans::{Steps, Stop};
use std::alloc::Global;
use std::sync::ledger::Ledger;
use symk_task::Plan;

/// An engine that hands out plans, the cheapest first, and may leave out plans of whose class another pends. Two plans
/// are of one class where they are rearrangements: they have the same operators, each as often.
pub trait LazyMembers {
    /// Whose plans they are.
    ghost system: { Self → System };

    /// The greatest cost that is wanted, or none.
    ghost most: { Self → Option ℕ };

    /// The plans that pend: those that may still be given.
    ghost pends: { Self → List ℕ → Type 0 };

    /// The same, computed.
    ghost tells: { Self → List ℕ → Bool };

    /// What every value meets between two calls.
    ghost lawful: { Self → Type 0 };

    /// The answer that ended it, which every later call repeats.
    ghost last: { Self → Last };

    /// A cheapest plan that pends, of the greatest cost that is wanted at most, or of 18446744073709551615 at most
    /// where none is; afterwards it pends no more. Nothing pends that didn't before, and of each other class of which
    /// a plan pended, one does, too dear or not. `None` where no plan pends, or with a greatest cost none up to it.
    /// `CostRange`, without a greatest cost alone, where plans pend and each costs more than 18446744073709551615.
    /// `Memory` when out of memory. After these each class of which a plan pended keeps one that does, and each later
    /// call answers the same.
    /// Each turn adds one to `steps`.
    fn next_member<L: Ledger>(
        &mut self,
        alloc: Global,
        steps: &mut Steps<L>,
    ) -> Result<Option<Plan>, Stop>
        requires { lawful self.old }
        ensures lawful { lawful self.new }
        ensures system { system self.new ≡ system self.old }
        ensures most { most self.new ≡ most self.old }
        ensures law { TurnedMembers (system self.old) (most self.old) (pends self.old) (pends self.new) result }
        ensures last { last self.new ≡ last_of result }
        ensures again { last self.old ≢ None → last self.new ≡ last self.old };

    /// What pends is a plan of the system.
    ghost fair: { (x : Self) → lawful x → ArePlans (system x) (pends x) };

    /// Whether a list pends can be computed.
    ghost told: { (x : Self) → lawful x → (p : List ℕ) → Decides (tells x p) (pends x p) };
}
