//! The next plan of the cost that is being listed.

ghost use Rattle.std.specs.Prelude.{◌≡◌, ℕ, ◌+◌, ◌<◌, ◌≤◌, Bool, length, IfOk, OnErr};
ghost use Rattle.space_api.specs.View.{View};
ghost use Rattle.space_api.specs.Owned.{Trades};
ghost use Rattle.cost_layers.specs.Layers.{Held, known_of};
ghost use Rattle.plan_cuts.specs.declared.Cut.{Cut};
ghost use Rattle.reconstruct.specs.Entries.{SetIn, RightSides};
ghost use Rattle.reconstruct.specs.Expansions.{AreRightExpansions};
ghost use Rattle.reconstruct.specs.Turned.{IsQueue, EndsSingle};
ghost use Rattle.reconstruct.specs.Walked.{AreEntriesApart, IsLawful, OwesOn, GaveFrom};

use crate::expansions::Expansions;
use crate::partial::single_out;
use crate::queue::Queue;
use crate::turns::turn;
use cost_layers::Layers;
use lazy_plans::Steps;
use space_api::{Space, SpaceFault};
use std::alloc::Global;
use std::sync::ledger::Ledger;

/// Turns until a plan is given: at least one, and at most as many as it has operators, and two.
///
/// Out of memory, it leaves a queue that owes what it owed; no set is lost.
pub(crate) fn walk<S: Space, L: Ledger>(
    alloc: Global,
    space: &mut S,
    front: &Layers<S::Set>,
    back: &Layers<S::Set>,
    queue: &mut Queue<S::Set>,
    memo: &mut Expansions,
    steps: &mut Steps<L>,
) -> Result<Vec<u32>, SpaceFault>
    requires front { Held (S.view space.old) front.now }
    requires back { Held (S.view space.old) back.now }
    requires sides { RightSides (S.view space.old).system (S.view space.old) front.now back.now
        (known_of front.now) (known_of back.now) }
    requires queue { IsQueue (S.view space.old) queue.old }
    requires some { 0 < length queue.old }
    requires single { EndsSingle queue.old }
    requires front_apart { AreEntriesApart queue.old front.now }
    requires back_apart { AreEntriesApart queue.old back.now }
    requires memo { AreRightExpansions (S.view space.old) back.now memo.old }
    requires lawful { (cost : ℕ) × (undrawn : Cut → Bool) × IsLawful (S.view space.old) front.now back.now cost
        queue.old undrawn }
    ensures queue { IsQueue (S.view space.new) queue.new }
    ensures trades { Trades (S.view space.old) (S.view space.new) (SetIn queue.old) (SetIn queue.new) }
    ensures memo { AreRightExpansions (S.view space.new) back.now memo.new }
    ensures gave { IfOk result (λ p. GaveFrom (S.view space.old) (S.view space.new) front.now back.now
        queue.old queue.new p.items) }
    ensures steps { IfOk result (λ p. (steps.old < steps.new) × (steps.new ≤ steps.old + length p.items + 2)) }
    ensures owes { OnErr result (OwesOn (S.view space.old) (S.view space.new) front.now back.now
        queue.old queue.new) }
{
    'turns: loop {
        match turn(alloc, space, front, back, queue, memo, steps)? {
            Some(plan) => return Ok(plan),
            None => single_out(alloc, space, front, queue)?,
        }
    }
}
