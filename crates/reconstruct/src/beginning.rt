//! Engines over a space, before the first call.

ghost use Rattle.std.specs.Prelude.{None, Some, IfOk};
ghost use Rattle.space_api.specs.View.{View};
ghost use Rattle.space_api.specs.Owned.{Trades};
ghost use Rattle.bidirectional.specs.Both.{IsBoth, IsOwnOf};
ghost use Rattle.reconstruct.specs.Engine.{IsReadyFor, IsNewCutEngine};

use crate::engine::TopPlans;
use crate::expansions::Expansions;
use crate::next_plan::Agenda;
use crate::queue::Queue;
use bidirectional::{Both, Choose};
use lazy_plans::Shell;
use space_api::Space;
use std::alloc::Global;
use symk_task::Memory;

/// When the backward side is kept to the set that is handed over: from the first step on, or once the search for a cost
/// takes long.
#[derive(Clone, Copy)]
enum When {
    AtFirst,
    OnceLong,
}

/// The search from both ends, the backward side kept to the set that is handed over, if one is.
fn both_of<S: Space, P: Choose + Drop>(
    alloc: Global,
    space: &mut S,
    choose: P,
    within: Option<S::Set>,
    when: When,
) -> Result<Both<S::Set, P>, Memory>
    requires { IsReadyFor (S.view space.old) within }
    ensures both { IfOk result (IsBoth (S.view space.new)) }
    ensures trades { IfOk result (λ h. Trades (S.view space.old) (S.view space.new) (λ a. ⊥) (IsOwnOf h)) }
{
    match within {
        None => Both::new(alloc, space, choose),
        Some(set) => match when {
            When::AtFirst => Both::new_within(alloc, space, choose, set),
            When::OnceLong => Both::new_later(alloc, space, choose, set),
        },
    }
}

/// An engine of which nothing was asked yet.
fn begin<S: Space + Drop, P: Choose + Drop>(
    alloc: Global,
    space: S,
    choose: P,
    most: Option<u64>,
    within: Option<S::Set>,
    when: When,
) -> Result<TopPlans<S, P>, Memory>
    requires { IsReadyFor (S.view space) within }
    ensures { IfOk result (IsNewCutEngine S.view (S.view space) most) }
{
    let mut space = space;
    let both = both_of(alloc, &mut space, choose, within, when)?;
    Ok(TopPlans {
        space,
        both,
        within,
        agenda: Agenda {
            listed: None,
            queue: Queue::new(alloc),
            memo: Expansions::new(alloc),
        },
        shell: Shell::new(most),
    })
}

impl<S: Space + Drop, P: Choose + Drop> TopPlans<S, P> {
    /// All plans of the space's system. No plan is taken yet: each one pends.
    ///
    /// The caller knows that no set of the space is valid.
    pub fn new(alloc: Global, space: S, choose: P) -> Result<TopPlans<S, P>, Memory>
        requires { IsReadyFor (S.view space) None }
        ensures { IfOk result (IsNewCutEngine S.view (S.view space) None) }
    {
        begin(alloc, space, choose, None, None, When::AtFirst)
    }

    /// The same, where no plan that costs more than `most` is wanted. Such plans pend for ever, and it ends without
    /// them.
    pub fn within(alloc: Global, space: S, choose: P, most: u64) -> Result<TopPlans<S, P>, Memory>
        requires { IsReadyFor (S.view space) None }
        ensures { IfOk result (IsNewCutEngine S.view (S.view space) (Some most)) }
    {
        begin(alloc, space, choose, Some(most), None, When::AtFirst)
    }

    /// As `new`, with a set that has every useful state, to which the backward side is kept.
    ///
    /// The caller knows that no other set of the space is valid. It is the engine's from then on.
    pub fn new_within(
        alloc: Global,
        space: S,
        choose: P,
        within: S::Set,
    ) -> Result<TopPlans<S, P>, Memory>
        requires { IsReadyFor (S.view space) (Some within) }
        ensures { IfOk result (IsNewCutEngine S.view (S.view space) None) }
    {
        begin(alloc, space, choose, None, Some(within), When::AtFirst)
    }

    /// As `within`, with a set that has every useful state, to which the backward side is kept.
    ///
    /// The caller knows that no other set of the space is valid. It is the engine's from then on.
    pub fn within_most(
        alloc: Global,
        space: S,
        choose: P,
        most: u64,
        within: S::Set,
    ) -> Result<TopPlans<S, P>, Memory>
        requires { IsReadyFor (S.view space) (Some within) }
        ensures { IfOk result (IsNewCutEngine S.view (S.view space) (Some most)) }
    {
        begin(
            alloc,
            space,
            choose,
            Some(most),
            Some(within),
            When::AtFirst,
        )
    }

    /// As `new` or `within`, with a set that has every useful state, to which the backward side is kept once the search
    /// for a cost takes long: both sides begin again then.
    ///
    /// The caller knows that no other set of the space is valid. It is the engine's from then on.
    pub fn within_later(
        alloc: Global,
        space: S,
        choose: P,
        most: Option<u64>,
        within: S::Set,
    ) -> Result<TopPlans<S, P>, Memory>
        requires { IsReadyFor (S.view space) (Some within) }
        ensures { IfOk result (IsNewCutEngine S.view (S.view space) most) }
    {
        begin(alloc, space, choose, most, Some(within), When::OnceLong)
    }
}
