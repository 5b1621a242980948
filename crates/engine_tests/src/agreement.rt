//! Lists of tasks that seeds draw.

use crate::choice::{BACKWARD, FORWARD, LIGHTER, LOWER};
use crate::engines::{Engine, Request, Sets, listed};
use crate::following::{Firsts, Priced, follows, give_alike};
use crate::widening::wide_task;
use bidirectional::Choice;
use std::alloc::Global;
use std::test::Fail;
use symk_task::{Memory, Mode, Task};
use task_draws::{loose_task, random_task};

const STATES: Sets = Sets::States { calls: u64::MAX };

/// The engines of all plans, and of classes of rearrangements.
const TOPS: [Engine; 5] = [
    Engine::Top(FORWARD),
    Engine::Top(BACKWARD),
    Engine::Top(LOWER),
    Engine::Top(LIGHTER),
    Engine::Prefixes,
];

const CLASSES: [Engine; 4] = [
    Engine::Unordered(LOWER),
    Engine::Unordered(LIGHTER),
    Engine::PrefixClasses,
    Engine::Classes,
];

/// How far a list goes.
#[derive(Clone, Copy)]
struct Reach {
    /// The greatest cost that is wanted, where there is one.
    most: Option<u64>,
    /// How many plans are wanted.
    count: u32,
}

/// How many plans of an engine are compared, and how many of all plans are taken; and how many where costs are bounded.
const SHORT: Reach = Reach {
    most: None,
    count: 8,
};

const LONG: Reach = Reach {
    most: None,
    count: 40,
};

const MANY: u32 = 100;

/// How many tasks are drawn.
const SEEDS: u64 = 300;

/// The list over the sets that goes so far, where it is good.
fn priced(
    alloc: Global,
    task: &Task,
    engine: Engine,
    sets: Sets,
    reach: Reach,
) -> Result<Option<Priced>, Memory> {
    let request = Request {
        engine,
        sets,
        most: reach.most,
        handed: false,
        count: reach.count,
    };
    let listing = listed(alloc, task, request)?;
    Priced::of(alloc, task, engine.mode(), listing)
}

/// Lists of an engine, over each space.
#[derive(Drop)]
struct Pair {
    states: Priced,
    diagrams: Priced,
}

/// The lists over both spaces that go so far, where they are good, cost the same and end alike.
fn both(alloc: Global, task: &Task, engine: Engine, reach: Reach) -> Result<Option<Pair>, Memory> {
    let Some(states) = priced(alloc, task, engine, STATES, reach)? else {
        return Ok(None);
    };
    let Some(diagrams) = priced(alloc, task, engine, Sets::Diagrams, reach)? else {
        return Ok(None);
    };
    if states.costs != diagrams.costs || states.listing.ending != diagrams.listing.ending {
        return Ok(None);
    }
    Ok(Some(Pair { states, diagrams }))
}

/// Whether a list of the engine must begin with the firsts themselves: its plans come as those of the long list do.
fn gives_firsts(engine: Engine) -> bool {
    match engine {
        Engine::Top(Choice::Lower) | Engine::Unordered(Choice::Lower) => true,
        _ => false,
    }
}

/// Whether the list of the engine, for which so many plans were asked, follows from the list of all plans over the same
/// sets.
fn list_follows(
    alloc: Global,
    engine: Engine,
    all: &Priced,
    firsts: &Firsts,
    count: u32,
    list: &Priced,
) -> Result<bool, Memory> {
    let alike = !gives_firsts(engine) || give_alike(&firsts.plans, &list.listing.plans);
    Ok(alike && follows(alloc, engine.mode(), all, firsts, count as usize, list)?)
}

/// Whether the lists of the engines of a mode that go so far agree with one another, and follow from the lists of all
/// plans.
fn mode_agrees(
    alloc: Global,
    task: &Task,
    mode: Mode,
    engines: &[Engine],
    all: &Pair,
    reach: Reach,
) -> Result<bool, Memory> {
    let Some(states) = Firsts::of(alloc, task, mode, &all.states)? else {
        return Ok(false);
    };
    let Some(diagrams) = Firsts::of(alloc, task, mode, &all.diagrams)? else {
        return Ok(false);
    };
    for engine in engines {
        let Some(lists) = both(alloc, task, *engine, reach)? else {
            return Ok(false);
        };
        let count = reach.count;
        if !list_follows(alloc, *engine, &all.states, &states, count, &lists.states)?
            || !list_follows(
                alloc,
                *engine,
                &all.diagrams,
                &diagrams,
                count,
                &lists.diagrams,
            )?
        {
            return Ok(false);
        }
    }
    Ok(true)
}

/// Whether the lists of these engines agree with the list of all plans by one of them.
fn task_agrees(
    alloc: Global,
    task: &Task,
    first: Engine,
    tops: &[Engine],
    classes: &[Engine],
) -> Result<bool, Memory> {
    let Some(all) = both(alloc, task, first, LONG)? else {
        return Ok(false);
    };
    Ok(
        mode_agrees(alloc, task, Mode::TopK, tops, &all, SHORT)?
            && mode_agrees(alloc, task, Mode::Unordered, classes, &all, SHORT)?
            && mode_agrees(
                alloc,
                task,
                Mode::Loopless,
                &[Engine::Loopless],
                &all,
                SHORT,
            )?,
    )
}

/// Whether what the seed draws is no task, or a task of which the lists of all engines agree.
fn seed_agrees(alloc: Global, seed: u64) -> Result<bool, Memory> {
    match random_task(alloc, seed)? {
        Some(task) => task_agrees(alloc, &task, Engine::Top(LOWER), &TOPS, &CLASSES),
        None => Ok(true),
    }
}

/// The same where costs are drawn wide, of the engines that take no longer for it.
fn wide_agrees(alloc: Global, seed: u64) -> Result<bool, Memory> {
    match wide_task(alloc, seed)? {
        Some(task) => task_agrees(
            alloc,
            &task,
            Engine::Prefixes,
            &[Engine::Prefixes],
            &[Engine::PrefixClasses, Engine::Classes],
        ),
        None => Ok(true),
    }
}

/// So much more than what a cheapest plan costs, and 0 where there is none.
fn dearer(alloc: Global, task: &Task, more: u64) -> Result<u64, Memory> {
    let one = Reach {
        most: None,
        count: 1,
    };
    let Some(first) = priced(alloc, task, Engine::Prefixes, STATES, one)? else {
        return Ok(0);
    };
    match first.costs.first() {
        Some(cost) => Ok(cost.saturating_add(more)),
        None => Ok(0),
    }
}

/// Whether the classes that cost so much more than a cheapest plan at most are those of all such plans, cost the same
/// and end alike.
fn classes_agree(alloc: Global, task: &Task, more: u64) -> Result<bool, Memory> {
    let reach = Reach {
        most: Some(dearer(alloc, task, more)?),
        count: MANY,
    };
    let Some(all) = both(alloc, task, Engine::Top(LOWER), reach)? else {
        return Ok(false);
    };
    mode_agrees(
        alloc,
        task,
        Mode::Unordered,
        &[Engine::Classes],
        &all,
        reach,
    )
}

/// Whether what the seed draws is no task, or a task of which the classes are those of all plans.
fn seed_has_classes(alloc: Global, seed: u64) -> Result<bool, Memory> {
    match random_task(alloc, seed)? {
        Some(task) => classes_agree(alloc, &task, 3),
        None => Ok(true),
    }
}

/// The same where many operators commute.
fn loose_has_classes(alloc: Global, seed: u64) -> Result<bool, Memory> {
    match loose_task(alloc, seed)? {
        Some(task) => classes_agree(alloc, &task, 1),
        None => Ok(true),
    }
}

#[test]
fn lists_of_all_engines_agree(rt: HostRuntime) -> Result<(), Fail> {
    let alloc = rt.alloc();
    for seed in 0..SEEDS {
        assert!(rt; seed_agrees(alloc, seed)?, "at seed {seed}");
    }
    Ok(())
}

#[test]
fn lists_agree_where_costs_are_wide(rt: HostRuntime) -> Result<(), Fail> {
    let alloc = rt.alloc();
    for seed in 0..SEEDS {
        assert!(rt; wide_agrees(alloc, seed)?, "at seed {seed}");
    }
    Ok(())
}

#[test]
fn classes_are_those_of_all_plans(rt: HostRuntime) -> Result<(), Fail> {
    let alloc = rt.alloc();
    for seed in 0..SEEDS {
        assert!(rt; seed_has_classes(alloc, seed)?, "at seed {seed}");
    }
    Ok(())
}

#[test]
fn classes_are_those_of_all_plans_where_many_operators_commute(
    rt: HostRuntime,
) -> Result<(), Fail> {
    let alloc = rt.alloc();
    for seed in 0..SEEDS {
        assert!(rt; loose_has_classes(alloc, seed)?, "at seed {seed}");
    }
    Ok(())
}
