//! A space that is refused memory after so many calls.

ghost use Rattle.std.specs.Prelude.{◌≡◌, ◌-◌, ◌<◌, ℕ, IsErr, IfOk, OnOk, OnErr};
ghost use Rattle.symk_task.specs.Variables.{IsBase};
ghost use Rattle.task_system.specs.System.{Listed};
ghost use Rattle.space_api.specs.View.{View, Valid, GoalIn, FactIn, Unites, Meets, Lacks, Image, CostImage, Preimage, CostPreimage};
ghost use Rattle.space_api.specs.Frames.{MakesSet, Forgot, Stays};
ghost use Rattle.space_api.specs.Tidied.{Tidied, SameRoom};
ghost use Rattle.space_api.specs.Listing.{ListsReached};
ghost use Rattle.space_api.specs.Operators.{LeadInto, LeadFrom};
ghost use Rattle.explicit_space.specs.Spent.{Spends};

use space_api::{Space, SpaceFault};
use std::alloc::{AllocError, Global};
use symk_task::{Fact, State, Task};
use task_run::Rules;

/// A space over another, for callers who want to see what stands after a refusal.
///
/// `tidy` and each call that gives a set take one from `left` and are passed on. With none left they answer Memory and
/// nothing changes. `forget` and the calls that only ask are passed on always.
#[derive(Drop)]
pub struct FuseSpace<S> {
    /// The space that the calls are passed to.
    pub inner: S,
    /// How many calls that give a set or tidy are still passed on.
    pub left: u64,
}

impl<S> FuseSpace<S> {
    /// The space that passes on this many calls.
    pub fn new(inner: S, n: u64) -> FuseSpace<S>
        ensures inner { result.inner ≡ inner }
        ensures left { result.left ≡ n }
    {
        FuseSpace { inner, left: n }
    }
}

/// Takes one call from those that are left.
fn spend(left: &mut u64) -> Result<(), SpaceFault>
    ensures left { left.new ≡ left.old - 1 }
    ensures ok { OnOk result (0 < left.old) }
    ensures err { OnErr result (left.old ≡ 0) }
{
    if *left == 0 {
        return Err(AllocError);
    }
    *left -= 1;
    Ok(())
}

impl<S: Space> Space for FuseSpace<S> {
    type Set = S::Set;

    ghost view = { λ f. S.view f.inner };

    ghost needs = { λ f. S.needs f.inner };

    ghost of_task = { λ f. S.of_task f.inner };

    fn empty(&mut self) -> Result<S::Set, SpaceFault>
        ensures makes { MakesSet (S.view self.old.inner) (S.view self.new.inner) (λ _. ⊥) result }
        ensures spends { Spends self.old.left self.new.left self.old.inner self.new.inner result }
    {
        spend(&mut self.left)?;
        self.inner.empty()
    }

    fn all(&mut self) -> Result<S::Set, SpaceFault>
        ensures reached { IfOk result (λ _. ListsReached (S.view self.old.inner).system) }
        ensures makes { MakesSet (S.view self.old.inner) (S.view self.new.inner)
            (Listed (S.view self.old.inner).system.states) result }
        ensures spends { Spends self.old.left self.new.left self.old.inner self.new.inner result }
    {
        spend(&mut self.left)?;
        self.inner.all()
    }

    fn init(&mut self) -> Result<S::Set, SpaceFault>
        ensures makes { MakesSet (S.view self.old.inner) (S.view self.new.inner)
            (λ s. s ≡ (S.view self.old.inner).system.initial) result }
        ensures spends { Spends self.old.left self.new.left self.old.inner self.new.inner result }
    {
        spend(&mut self.left)?;
        self.inner.init()
    }

    fn goal_in(&mut self, a: S::Set) -> Result<S::Set, SpaceFault>
        requires { Valid (S.view self.old.inner) a }
        ensures makes { MakesSet (S.view self.old.inner) (S.view self.new.inner)
            (GoalIn (S.view self.old.inner) a) result }
        ensures spends { Spends self.old.left self.new.left self.old.inner self.new.inner result }
    {
        spend(&mut self.left)?;
        self.inner.goal_in(a)
    }

    fn fact_in(&mut self, fact: Fact, a: S::Set) -> Result<S::Set, SpaceFault>
        requires fact { IsBase (S.view self.old.inner).task fact.var }
        requires a { Valid (S.view self.old.inner) a }
        ensures makes { MakesSet (S.view self.old.inner) (S.view self.new.inner)
            (FactIn (S.view self.old.inner) fact a) result }
        ensures spends { Spends self.old.left self.new.left self.old.inner self.new.inner result }
    {
        spend(&mut self.left)?;
        self.inner.fact_in(fact, a)
    }

    fn unite(&mut self, a: S::Set, b: S::Set) -> Result<S::Set, SpaceFault>
        requires a { Valid (S.view self.old.inner) a }
        requires b { Valid (S.view self.old.inner) b }
        ensures makes { MakesSet (S.view self.old.inner) (S.view self.new.inner)
            (Unites (S.view self.old.inner) a b) result }
        ensures spends { Spends self.old.left self.new.left self.old.inner self.new.inner result }
    {
        spend(&mut self.left)?;
        self.inner.unite(a, b)
    }

    fn meet(&mut self, a: S::Set, b: S::Set) -> Result<S::Set, SpaceFault>
        requires a { Valid (S.view self.old.inner) a }
        requires b { Valid (S.view self.old.inner) b }
        ensures makes { MakesSet (S.view self.old.inner) (S.view self.new.inner)
            (Meets (S.view self.old.inner) a b) result }
        ensures spends { Spends self.old.left self.new.left self.old.inner self.new.inner result }
    {
        spend(&mut self.left)?;
        self.inner.meet(a, b)
    }

    fn minus(&mut self, a: S::Set, b: S::Set) -> Result<S::Set, SpaceFault>
        requires a { Valid (S.view self.old.inner) a }
        requires b { Valid (S.view self.old.inner) b }
        ensures makes { MakesSet (S.view self.old.inner) (S.view self.new.inner)
            (Lacks (S.view self.old.inner) a b) result }
        ensures spends { Spends self.old.left self.new.left self.old.inner self.new.inner result }
    {
        spend(&mut self.left)?;
        self.inner.minus(a, b)
    }

    fn image_cost(&mut self, w: u64, a: S::Set) -> Result<S::Set, SpaceFault>
        requires { Valid (S.view self.old.inner) a }
        ensures makes { MakesSet (S.view self.old.inner) (S.view self.new.inner)
            (CostImage (S.view self.old.inner) w a) result }
        ensures spends { Spends self.old.left self.new.left self.old.inner self.new.inner result }
    {
        spend(&mut self.left)?;
        self.inner.image_cost(w, a)
    }

    fn image_op(&mut self, op: u32, a: S::Set) -> Result<S::Set, SpaceFault>
        requires a { Valid (S.view self.old.inner) a }
        requires op { op < (S.view self.old.inner).system.operators }
        ensures makes { MakesSet (S.view self.old.inner) (S.view self.new.inner)
            (Image (S.view self.old.inner) op a) result }
        ensures spends { Spends self.old.left self.new.left self.old.inner self.new.inner result }
    {
        spend(&mut self.left)?;
        self.inner.image_op(op, a)
    }

    fn pre_cost(&mut self, w: u64, a: S::Set, within: S::Set) -> Result<S::Set, SpaceFault>
        requires a { Valid (S.view self.old.inner) a }
        requires within { Valid (S.view self.old.inner) within }
        ensures makes { MakesSet (S.view self.old.inner) (S.view self.new.inner)
            (CostPreimage (S.view self.old.inner) w a within) result }
        ensures spends { Spends self.old.left self.new.left self.old.inner self.new.inner result }
    {
        spend(&mut self.left)?;
        self.inner.pre_cost(w, a, within)
    }

    fn pre_op(&mut self, op: u32, a: S::Set, within: S::Set) -> Result<S::Set, SpaceFault>
        requires a { Valid (S.view self.old.inner) a }
        requires within { Valid (S.view self.old.inner) within }
        requires op { op < (S.view self.old.inner).system.operators }
        ensures makes { MakesSet (S.view self.old.inner) (S.view self.new.inner)
            (Preimage (S.view self.old.inner) op a within) result }
        ensures spends { Spends self.old.left self.new.left self.old.inner self.new.inner result }
    {
        spend(&mut self.left)?;
        self.inner.pre_op(op, a, within)
    }

    fn forget(&mut self, a: S::Set)
        requires { Valid (S.view self.old.inner) a }
        ensures forgot { Forgot (S.view self.old.inner) (S.view self.new.inner) a }
        ensures left { self.new.left ≡ self.old.left }
    {
        self.inner.forget(a)
    }

    fn held(&self) -> usize {
        self.inner.held()
    }

    fn last(&self) -> usize {
        self.inner.last()
    }

    fn work(&self) -> u64 {
        self.inner.work()
    }

    fn tidy(&mut self) -> Result<(), SpaceFault>
        ensures stays { Stays (S.view self.old.inner) (S.view self.new.inner) }
        ensures ok { OnOk result (Tidied (S.needs self.old.inner) (S.needs self.new.inner)
            (S.view self.old.inner) (S.view self.new.inner)) }
        ensures err { OnErr result (SameRoom (S.view self.old.inner) (S.view self.new.inner)) }
        ensures task { (S.view self.new.inner).task ≡ (S.view self.old.inner).task }
        ensures spends { Spends self.old.left self.new.left self.old.inner self.new.inner result }
    {
        spend(&mut self.left)?;
        self.inner.tidy()
    }

    fn is_empty(&self, a: S::Set) -> bool {
        self.inner.is_empty(a)
    }

    fn same(&self, a: S::Set, b: S::Set) -> bool {
        self.inner.same(a, b)
    }

    fn has(&self, a: S::Set, state: &State) -> bool {
        self.inner.has(a, state)
    }

    fn has_init(&self, a: S::Set) -> bool {
        self.inner.has_init(a)
    }

    fn costs(&self) -> usize {
        self.inner.costs()
    }

    fn cost_at(&self, i: usize) -> u64 {
        self.inner.cost_at(i)
    }

    fn operators(&self) -> u32 {
        self.inner.operators()
    }

    fn cost_of(&self, op: u32) -> u64 {
        self.inner.cost_of(op)
    }

    fn operators_into(&self, alloc: Global, a: S::Set) -> Result<Vec<u32>, SpaceFault> {
        self.inner.operators_into(alloc, a)
    }

    fn operators_from(&self, alloc: Global, a: S::Set) -> Result<Vec<u32>, SpaceFault> {
        self.inner.operators_from(alloc, a)
    }

    fn task(&self) -> &Task {
        self.inner.task()
    }

    fn rules(&self) -> &Rules {
        self.inner.rules()
    }
}
