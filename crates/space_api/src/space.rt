//! Spaces of sets of states.

ghost use Rattle.std.specs.Prelude.{◌≡◌, ◌+◌, ◌*◌, ◌<◌, ◌≤◌, ◌↔◌, ℕ, IsTrue, IsFalse, IfOk, OnOk, OnErr, length, slice_index};
ghost use Rattle.symk_task.specs.Variables.{IsBase, IsState};
ghost use Rattle.task_run.specs.Counted.{AreRulesOf};
ghost use Rattle.task_system.specs.System.{State, Listed};
ghost use Rattle.task_system.specs.Computed.{system_of};
ghost use Rattle.space_api.specs.View.{View, Valid, Has, HasMember, IsEmpty, HasSame, GoalIn, FactIn, Unites, Meets, Lacks, Image, CostImage, Preimage, CostPreimage};
ghost use Rattle.space_api.specs.Frames.{MakesSet, Forgot, Stays};
ghost use Rattle.space_api.specs.Tidied.{Tidied, SameRoom};
ghost use Rattle.space_api.specs.Listing.{ListsReached};
ghost use Rattle.space_api.specs.Costs.{costs_of};
ghost use Rattle.space_api.specs.Operators.{LeadInto, LeadFrom};

use std::alloc::Global;
use symk_task::{Fact, Memory, State, Task};
use task_run::Rules;

/// Why a call of a space is refused: out of memory alone.
pub type SpaceFault = Memory;

/// Sets of states of one task.
///
/// Each call is given valid sets of this space. Each call that gives a set gives one that was not valid before; it is
/// valid until it is handed to `forget`. No call changes the task or what a valid set has, and a refused call makes
/// no set valid.
pub trait Space {
    /// A name of a set. It is copied freely; the set is given back once, by `forget`.
    type Set: Copy;

    /// The task and its system, which sets are valid, which states each has, and how many nodes are held and were
    /// needed last.
    ghost view: { Self → View Self.Set };

    /// Whether the space needs just so many nodes for its valid sets and for itself.
    ghost needs: { Self → ℕ → Type 0 };

    /// No state.
    fn empty(&mut self) -> Result<Self::Set, SpaceFault>
        ensures { MakesSet (view self.old) (view self.new) (λ _. ⊥) result };

    /// Every state of the system. The initial state is one, and no operator leads out of them.
    fn all(&mut self) -> Result<Self::Set, SpaceFault>
        ensures reached { IfOk result (λ _. ListsReached (view self.old).system) }
        ensures makes { MakesSet (view self.old) (view self.new) (Listed (view self.old).system.states) result };

    /// The initial state alone.
    fn init(&mut self) -> Result<Self::Set, SpaceFault>
        ensures { MakesSet (view self.old) (view self.new) (λ s. s ≡ (view self.old).system.initial) result };

    /// The states of `a` where the goal holds.
    fn goal_in(&mut self, a: Self::Set) -> Result<Self::Set, SpaceFault>
        requires { Valid (view self.old) a }
        ensures { MakesSet (view self.old) (view self.new) (GoalIn (view self.old) a) result };

    /// The states of `a` where the fact, which is one of a base variable, holds.
    fn fact_in(&mut self, fact: Fact, a: Self::Set) -> Result<Self::Set, SpaceFault>
        requires fact { IsBase (view self.old).task fact.var }
        requires a { Valid (view self.old) a }
        ensures { MakesSet (view self.old) (view self.new) (FactIn (view self.old) fact a) result };

    /// The states of `a` or `b`.
    fn unite(&mut self, a: Self::Set, b: Self::Set) -> Result<Self::Set, SpaceFault>
        requires a { Valid (view self.old) a }
        requires b { Valid (view self.old) b }
        ensures { MakesSet (view self.old) (view self.new) (Unites (view self.old) a b) result };

    /// The states of both `a` and `b`.
    fn meet(&mut self, a: Self::Set, b: Self::Set) -> Result<Self::Set, SpaceFault>
        requires a { Valid (view self.old) a }
        requires b { Valid (view self.old) b }
        ensures { MakesSet (view self.old) (view self.new) (Meets (view self.old) a b) result };

    /// The states of `a` that are not in `b`.
    fn minus(&mut self, a: Self::Set, b: Self::Set) -> Result<Self::Set, SpaceFault>
        requires a { Valid (view self.old) a }
        requires b { Valid (view self.old) b }
        ensures { MakesSet (view self.old) (view self.new) (Lacks (view self.old) a b) result };

    /// The states to which operators of cost `w` lead from states of `a`.
    fn image_cost(&mut self, w: u64, a: Self::Set) -> Result<Self::Set, SpaceFault>
        requires { Valid (view self.old) a }
        ensures { MakesSet (view self.old) (view self.new) (CostImage (view self.old) w a) result };

    /// The states to which the operator leads from those states of `a` to which it applies.
    fn image_op(&mut self, op: u32, a: Self::Set) -> Result<Self::Set, SpaceFault>
        requires a { Valid (view self.old) a }
        requires op { op < (view self.old).system.operators }
        ensures { MakesSet (view self.old) (view self.new) (Image (view self.old) op a) result };

    /// The states of `within` from which an operator of cost `w` leads to a state of `a`.
    fn pre_cost(&mut self, w: u64, a: Self::Set, within: Self::Set) -> Result<Self::Set, SpaceFault>
        requires a { Valid (view self.old) a }
        requires within { Valid (view self.old) within }
        ensures { MakesSet (view self.old) (view self.new) (CostPreimage (view self.old) w a within) result };

    /// The states of `within` from which the operator leads to a state of `a`.
    fn pre_op(&mut self, op: u32, a: Self::Set, within: Self::Set) -> Result<Self::Set, SpaceFault>
        requires a { Valid (view self.old) a }
        requires within { Valid (view self.old) within }
        requires op { op < (view self.old).system.operators }
        ensures { MakesSet (view self.old) (view self.new) (Preimage (view self.old) op a within) result };

    /// Gives a set back. It takes no memory and collects nothing.
    fn forget(&mut self, a: Self::Set)
        requires { Valid (view self.old) a }
        ensures { Forgot (view self.old) (view self.new) a };

    /// How many nodes the space holds, 0 where it holds none. It takes no memory.
    fn held(&self) -> usize
        ensures { result ≡ (view self.now).held };

    /// How many nodes were needed after the last collection, 0 before the first. It takes no memory.
    fn last(&self) -> usize
        ensures { result ≡ (view self.now).last };

    /// How much work the space's operations were so far, up to wrapping, in steps of its own; 0 always where they
    /// aren't counted. It takes no memory. Those may look at it who choose between two searches: nothing that is told
    /// of sets hangs on it.
    fn work(&self) -> u64;

    /// Collects, that is throws away what the space doesn't need, where more than twice as many nodes as were needed
    /// last time, and 1,000, are held. Else nothing changes.
    fn tidy(&mut self) -> Result<(), SpaceFault>
        ensures stays { Stays (view self.old) (view self.new) }
        ensures ok { OnOk result (Tidied (needs self.old) (needs self.new) (view self.old) (view self.new)) }
        ensures err { OnErr result (SameRoom (view self.old) (view self.new)) }
        ensures task { (view self.new).task ≡ (view self.old).task };

    /// Whether the set has no state.
    fn is_empty(&self, a: Self::Set) -> bool
        requires { Valid (view self.now) a }
        ensures empty { IsTrue result ↔ IsEmpty (view self.now) a }
        ensures member { IsFalse result → HasMember (view self.now) a };

    /// Whether the two sets have the same states.
    fn same(&self, a: Self::Set, b: Self::Set) -> bool
        requires a { Valid (view self.now) a }
        requires b { Valid (view self.now) b }
        ensures { IsTrue result ↔ HasSame (view self.now) a b };

    /// Membership: whether the state is one of the set. It takes no memory.
    fn has(&self, a: Self::Set, state: &State) -> bool
        requires a { Valid (view self.now) a }
        requires state { IsState (view self.now).task state.now }
        ensures { result ≡ (view self.now).has a state.now };

    /// Whether the initial state is one of the set.
    fn has_init(&self, a: Self::Set) -> bool
        requires { Valid (view self.now) a }
        ensures { result ≡ (view self.now).has a (view self.now).system.initial };

    /// How many different costs the operators have.
    fn costs(&self) -> usize
        ensures { result ≡ length (costs_of (view self.now).system) };

    /// The cost at this place among the different ones, rising; the first is at place 0.
    fn cost_at(&self, i: usize) -> u64
        requires { i < length (costs_of (view self.now).system) }
        ensures { result ≡ slice_index (costs_of (view self.now).system) i };

    /// The number of operators.
    fn operators(&self) -> u32
        ensures { result ≡ (view self.now).system.operators };

    /// What the operator costs.
    fn cost_of(&self, op: u32) -> u64
        requires { op < (view self.now).system.operators }
        ensures { result ≡ (view self.now).system.cost op };

    /// The operators that may lead into `a`, rising: each that leads from some state to one of `a`, and perhaps others.
    fn operators_into(&self, alloc: Global, a: Self::Set) -> Result<Vec<u32>, SpaceFault>
        requires { Valid (view self.now) a }
        ensures { IfOk result (λ ops. LeadInto (view self.now) a ops.items) };

    /// The operators that may apply in states of `a`, rising: each that leads on from a state of `a`, and perhaps
    /// others.
    fn operators_from(&self, alloc: Global, a: Self::Set) -> Result<Vec<u32>, SpaceFault>
        requires { Valid (view self.now) a }
        ensures { IfOk result (λ ops. LeadFrom (view self.now) a ops.items) };

    /// The task. It takes no memory.
    fn task(&self) -> &Task
        ensures { result.now ≡ (view self.now).task };

    /// The rules of the task that count, for those who look at single states. It takes no memory.
    fn rules(&self) -> &Rules
        ensures { AreRulesOf (view self.now).task result.now };

    /// The system is that of the task.
    ghost of_task: { (x : Self) → (view x).system ≡ system_of (view x).task };
}
