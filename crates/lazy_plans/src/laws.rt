//! What follows from the law of one call for the list of all plans given.

ghost use Rattle.std.specs.Prelude.{ℕ, ◌-◌, ◌<◌, ◌≤◌, ◌^◌, List, [], ◌∷◌, ◌++◌, Option, Some, None, IsSomeAnd, slice_get, length};
ghost use Rattle.symk_task.specs.declared.parts.Mode.{Mode};
ghost use Rattle.symk_task.specs.Plans.{IsListed};
ghost use Rattle.task_system.specs.System.{System, IsSystemPlanOf, IsRightOfSystem, AllSystemPlansListed, AllSystemPlansInRange, HasDearerSystemPlan, cost_in_system};
ghost use Rattle.lazy_plans.specs.declared.stop.Stop.TheVariants.{CostRange};
ghost use Rattle.lazy_plans.specs.Law.{Gave, NoneLeft, PendsAlike, MayStop};
ghost use Rattle.lazy_plans.specs.Rest.{Rest, IsGood, EndsBy, IsMissing};

use crate::law::LazyPlans;

/// The plans that an engine gives are a right list, in the order in which it gives them, where at first every plan of
/// its mode pends. Each call keeps what pends to be the plans that are not listed; where nothing pends all plans are
/// listed, and where each that pends is too dear all others are.
pub fn given_plans_are_right<I: LazyPlans>()
    ensures first { (x : I) → I.lawful x → ((p : List ℕ) → IsSystemPlanOf (I.system x) (I.mode x) p → I.pends x p) →
        Rest (I.system x) (I.mode x) [] (I.pends x) }
    ensures more { (system : System) (mode : Mode) (most : Option ℕ) (plans : List (List ℕ))
        (x y : I) (p : List ℕ) →
        IsRightOfSystem system mode plans → Rest system mode plans (I.pends x) →
        Gave system mode most (I.pends x) (I.pends y) p →
        IsRightOfSystem system mode (plans ++ p ∷ []) × Rest system mode (plans ++ p ∷ []) (I.pends y) }
    ensures none { (system : System) (mode : Mode) (plans : List (List ℕ)) (x : I) →
        Rest system mode plans (I.pends x) → NoneLeft system None (I.pends x) → AllSystemPlansListed system mode plans }
    ensures range { (system : System) (mode : Mode) (plans : List (List ℕ)) (x : I) →
        Rest system mode plans (I.pends x) → MayStop system None (I.pends x) CostRange →
        AllSystemPlansInRange system mode plans × HasDearerSystemPlan system mode }
    ensures up_to { (system : System) (mode : Mode) (most : ℕ) (plans : List (List ℕ)) (x : I) →
        Rest system mode plans (I.pends x) → NoneLeft system (Some most) (I.pends x) →
        (p : List ℕ) → IsSystemPlanOf system mode p → cost_in_system system p ≤ most → IsListed mode plans p }
    ensures stays { (system : System) (mode : Mode) (plans : List (List ℕ)) (x y : I) →
        Rest system mode plans (I.pends x) → PendsAlike (I.pends x) (I.pends y) → Rest system mode plans (I.pends y) }
{}

/// The same from an earlier list on, where what pends is the rest of it: the first answer tells whether that list is
/// right. It is where the plan given costs no less than its last member, and where none is given because none is left
/// or each is too dear; then the plans given go on from it. Else the plan given is a cheapest that it misses.
pub fn earlier_plans_are_right<I: LazyPlans>()
    ensures given { (system : System) (mode : Mode) (most : Option ℕ) (plans : List (List ℕ))
        (x y : I) (p : List ℕ) →
        IsGood system mode plans → Rest system mode plans (I.pends x) →
        Gave system mode most (I.pends x) (I.pends y) p →
        EndsBy system plans (cost_in_system system p) → IsRightOfSystem system mode plans }
    ensures missing { (system : System) (mode : Mode) (most : Option ℕ) (plans : List (List ℕ))
        (x y : I) (p : List ℕ) →
        Rest system mode plans (I.pends x) → Gave system mode most (I.pends x) (I.pends y) p →
        IsSomeAnd (slice_get plans (length plans - 1)) (λ last. cost_in_system system p < cost_in_system system last) →
        IsMissing system mode plans p }
    ensures none { (system : System) (mode : Mode) (plans : List (List ℕ)) (x : I) →
        IsGood system mode plans → Rest system mode plans (I.pends x) → NoneLeft system None (I.pends x) →
        IsRightOfSystem system mode plans }
    ensures range { (system : System) (mode : Mode) (plans : List (List ℕ)) (x : I) →
        IsGood system mode plans → EndsBy system plans (2 ^ 64 - 1) → Rest system mode plans (I.pends x) →
        MayStop system None (I.pends x) CostRange → IsRightOfSystem system mode plans }
    ensures up_to { (system : System) (mode : Mode) (most : ℕ) (plans : List (List ℕ)) (x : I) →
        IsGood system mode plans → EndsBy system plans most → Rest system mode plans (I.pends x) →
        NoneLeft system (Some most) (I.pends x) → IsRightOfSystem system mode plans }
{}
