//! What follows from the definitions alone.

ghost use Rattle.std.specs.Prelude.{◌≡◌, ℕ, List};
ghost use Rattle.symk_task.specs.declared.parts.Mode.{Mode};
ghost use Rattle.symk_task.specs.declared.parts.TaskParts.{TaskParts};
ghost use Rattle.symk_task.specs.Fits.{Fits};
ghost use Rattle.plan_out.specs.declared.blocks.ReadBlock.{ReadBlock};
ghost use Rattle.plan_out.specs.declared.check.Checked.TheVariants.{Good};
ghost use Rattle.plan_out.specs.Fails.{Finds};
ghost use Rattle.plan_out.specs.Lists.{IsGoodList};
ghost use Rattle.plan_out.specs.Plans.{IsPlansOf};

/// The lines of a plan text are those of one list of blocks alone.
pub fn text_states_one_list()
    ensures { (lines : List (List ℕ)) (one other : List ReadBlock) → IsPlansOf lines one → IsPlansOf lines
        other → one ≡ other }
{}

/// Where no block fails, the blocks are different plans of the mode, by cost, and each is printed as its plan is.
pub fn good_blocks_are_plans()
    ensures { (task : TaskParts) (mode : Mode) (blocks : List ReadBlock) (n : ℕ) →
        Fits task → Finds task mode blocks (Good n) → IsGoodList task mode blocks }
{}
