//! What follows from the definitions alone.

ghost use Rattle.std.specs.Prelude.{◌≡◌, ℕ, List, ◌++◌};
ghost use Rattle.std.specs.List.Sorted.{IsStrictlyIncreasing};
ghost use Rattle.symk_task.specs.declared.parts.TaskParts.{TaskParts};
ghost use Rattle.symk_task.specs.Fits.{Fits};
ghost use Rattle.symk_task.specs.Plans.{IsInitial, Runs};
ghost use Rattle.task_system.specs.System.{State};
ghost use Rattle.task_system.specs.Computed.{system_of};
ghost use Rattle.run_graph.specs.Reached.{Useful};
ghost use Rattle.mutex_use.specs.Groups.{GroupsHold, KeepsGroups, AreGreatestGroups, CoversAll, IsPartOf, IsKeeper};
ghost use Rattle.mutex_use.specs.Rounds.{IsRound};

/// Two sets of groups that hold are together one.
pub fn groups_hold_together()
    ensures { (task : TaskParts) (one other : List ℕ) →
        GroupsHold task one → GroupsHold task other → GroupsHold task (one ++ other) }
{}

/// The greatest set of groups that hold is one: two rising lists of it are equal.
pub fn greatest_is_one()
    ensures { (task : TaskParts) (one other : List ℕ) → AreGreatestGroups task one → AreGreatestGroups task other →
        IsStrictlyIncreasing one → IsStrictlyIncreasing other → one ≡ other }
{}

/// Every state that a run from the initial state leads to keeps the groups that hold.
pub fn states_keep_groups()
    ensures { (task : TaskParts) (groups p : List ℕ) (s t : State) → Fits task → GroupsHold task groups →
        IsInitial task s → Runs task s p t → KeepsGroups task t groups }
{}

/// A state that a plan passes, and so each useful one, is among the states that keep the groups that hold.
pub fn useful_states_keep_groups()
    ensures { (task : TaskParts) (groups : List ℕ) (s : State) → Fits task → GroupsHold task groups →
        Useful (system_of task) s → IsKeeper task groups s }
{}

/// A round that throws out the groups that fail keeps all that hold; where it throws none out, what is left is the
/// greatest set.
pub fn rounds_find_the_greatest()
    ensures round { (task : TaskParts) (groups left : List ℕ) →
        CoversAll task groups → IsRound task groups left → CoversAll task left }
    ensures done { (task : TaskParts) (groups left : List ℕ) →
        CoversAll task groups → IsRound task groups left → IsPartOf groups left → AreGreatestGroups task groups }
{}
