//! What ties the system of a task to the task.

ghost use Rattle.std.specs.Prelude.{◌≡◌, ℕ, ◌<◌, ◌↔◌, IsTrue, List, [], ◌∷◌, ◌++◌, All};
ghost use Rattle.symk_task.specs.declared.parts.Mode.{Mode};
ghost use Rattle.symk_task.specs.declared.parts.TaskParts.{TaskParts};
ghost use Rattle.symk_task.specs.Variables.{IsState};
ghost use Rattle.symk_task.specs.Steps.{Holds, Applies, After};
ghost use Rattle.symk_task.specs.Plans as meaning;
ghost use Rattle.symk_task.specs.Plans.{IsInitial, Trace, AllDifferent, Same, IsListed};
ghost use Rattle.symk_task.specs.Fits.{Fits};
ghost use Rattle.task_run.specs.Values.{Valued};
ghost use Rattle.task_system.specs.Lists.{IsRightList};
ghost use Rattle.task_system.specs.System.{State, System, Listed, Leads, RunsInSystem, trace, cost_in_system, IsSystemPlanOf, same, IsRightOfSystem, AllSystemPlansListed, AllSystemPlansInRange, HasDearerSystemPlan};
ghost use Rattle.task_system.specs.Computed.{values_in, system_of};

/// What a task says is said once: it has one initial state, a step leads to one state, a run has one end and passes one
/// list of states.
pub fn what_a_task_says_is_one()
    ensures initial { (task : TaskParts) (s t : State) → IsInitial task s → IsInitial task t → s ≡ t }
    ensures successor { (task : TaskParts) (s : State) (a : ℕ) (t u : State) → IsState task s →
        After task s a t → After task s a u → t ≡ u }
    ensures end { (task : TaskParts) (p : List ℕ) (s t u : State) → Fits task → IsState task s →
        meaning.Runs task s p t → meaning.Runs task s p u → t ≡ u }
    ensures trace { (task : TaskParts) (p : List ℕ) (s : State) (passed other : List State) → Fits task
        → IsState task s →
        Trace task s p passed → Trace task s p other → passed ≡ other }
{}

/// The computed values are those that hold in the state, derived variables included.
pub fn values_are_the_tasks()
    ensures { (task : TaskParts) (s : State) → Fits task → Valued task s (values_in task s) }
{}

/// From a state, an operator leads in the system to the state to which it leads in the task, and nowhere where it
/// doesn't apply.
pub fn step_is_the_tasks()
    ensures step { (task : TaskParts) (s : State) (a : ℕ) (t : State) → Fits task → IsState task s →
        ((system_of task).step a s ≡ Some t) ↔ (Applies task s a × After task s a t) }
    ensures leads { (task : TaskParts) (s : State) (a : ℕ) (t : State) → Fits task → IsState task s →
        Leads (system_of task) a s t ↔ (Applies task s a × After task s a t) }
{}

/// The system's test of a state tells whether each goal fact holds there.
pub fn goal_is_the_tasks()
    ensures { (task : TaskParts) (s : State) → Fits task →
        IsTrue ((system_of task).goal s) ↔ All (Holds task s) task.goal }
{}

/// The states of the system are those of the task, each listed once. It begins in the initial state, and no operator
/// leads out of the states.
pub fn states_are_all()
    ensures each { (task : TaskParts) (s : State) → IsState task s ↔ Listed (system_of task).states s }
    ensures once { (task : TaskParts) → AllDifferent (system_of task).states }
    ensures initial { (task : TaskParts) → Fits task → IsInitial task (system_of task).initial }
    ensures begun { (task : TaskParts) → Fits task → Listed (system_of task).states (system_of task).initial }
    ensures kept { (task : TaskParts) (s : State) (a : ℕ) (t : State) → Fits task →
        Listed (system_of task).states s → Leads (system_of task) a s t → Listed (system_of task).states t }
{}

/// Runs, the states that they pass, plans of each mode and costs are the same in the system and in the task.
pub fn plans_are_the_tasks()
    ensures runs { (task : TaskParts) (p : List ℕ) (s t : State) → Fits task → IsState task s →
        RunsInSystem (system_of task) s p t ↔ meaning.Runs task s p t }
    ensures traces { (task : TaskParts) (p : List ℕ) (s : State) (passed : List State) → Fits task → IsState task s →
        Trace task s p passed ↔ (((t : State) × RunsInSystem (system_of task) s p t)
        × (passed ≡ trace (system_of task) s p)) }
    ensures plans { (task : TaskParts) (mode : Mode) (p : List ℕ) → Fits task →
        IsSystemPlanOf (system_of task) mode p ↔ meaning.IsPlanOf task mode p }
    ensures costs { (task : TaskParts) (p : List ℕ) → cost_in_system (system_of task) p ≡ meaning.cost_of task p }
{}

/// The test tells which plans count as one.
pub fn same_tells_which_count_as_one()
    ensures { (mode : Mode) (p q : List ℕ) → IsTrue (same mode p q) ↔ Same mode p q }
{}

/// A right list of the system is one of the task, and the other way round. What is right is said once, of whatever
/// counts as a plan and whatever it costs, and the task's own definition is that one for its plans and costs.
pub fn right_lists_are_the_tasks()
    ensures right { (task : TaskParts) (mode : Mode) (plans : List (List ℕ)) → Fits task →
        IsRightOfSystem (system_of task) mode plans ↔ meaning.IsRight task mode plans }
    ensures one_definition { (task : TaskParts) (mode : Mode) (plans : List (List ℕ)) →
        meaning.IsRight task mode plans ↔
        IsRightList (meaning.IsPlanOf task mode) (Same mode) (meaning.cost_of task) plans }
{}

/// The empty list is right. A right list stays so when a plan is added that counts as one with no member, where each
/// cheaper plan counts as one with a member.
pub fn right_lists_grow()
    ensures none { (system : System) (mode : Mode) → IsRightOfSystem system mode [] }
    ensures more { (system : System) (mode : Mode) (plans : List (List ℕ)) (p : List ℕ) →
        IsRightOfSystem system mode plans → IsSystemPlanOf system mode p → ¬ IsListed mode plans p →
        ((q : List ℕ) → IsSystemPlanOf system mode q → cost_in_system system q < cost_in_system system p
        → IsListed mode plans q) →
        IsRightOfSystem system mode (plans ++ p ∷ []) }
{}

/// A list has all plans of the system where it has all of the task, and likewise those whose cost 64 bits hold. A
/// dearer plan of the one is a dearer plan of the other.
pub fn ends_are_the_tasks()
    ensures all_listed { (task : TaskParts) (mode : Mode) (plans : List (List ℕ)) → Fits task →
        AllSystemPlansListed (system_of task) mode plans ↔ meaning.AllListed task mode plans }
    ensures all_in_range { (task : TaskParts) (mode : Mode) (plans : List (List ℕ)) → Fits task →
        AllSystemPlansInRange (system_of task) mode plans ↔ meaning.AllInRange task mode plans }
    ensures dearer { (task : TaskParts) (mode : Mode) → Fits task →
        HasDearerSystemPlan (system_of task) mode ↔ meaning.HasDearer task mode }
{}
