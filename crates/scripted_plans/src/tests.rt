//! Each selector over scripts.

ghost use Rattle.std.specs.Prelude.{◌≡◌, IfOk};
ghost use Rattle.symk_task.specs.declared.parts.Mode.TheVariants.{TopK, Unordered as unordered};

use crate::{Endless, Script};
use selectors::{After, Classes, LazyPlans, Limited, Stop, Unordered, Whole};
use std::alloc::Global;
use std::test::Fail;
use symk_task::{List, Memory, Mode, Plan};

/// The digits of the operators.
fn write_plan(text: &mut Vec<u8>, plan: &Plan) -> Result<(), Memory> {
    for op in plan.as_slice() {
        text.push(b'0' + (*op % 10) as u8)?;
    }
    Ok(())
}

/// The first `k` plans of the engine, by the digits of their operators, each in brackets; `memory` when out of memory,
/// and how many plans were counted. Nothing comes after the last item.
fn listed<I: LazyPlans + Drop>(alloc: Global, engine: I, k: u64) -> Result<(Vec<u8>, u64), Memory>
    requires { I.lawful engine }
{
    let mut text = Vec::new(alloc);
    let mut plans = Limited::new(alloc, engine, k);
    while let Some(item) = plans.next() {
        match item {
            Ok(plan) => {
                text.push(b'[')?;
                write_plan(&mut text, &plan)?;
                text.push(b']')?;
            }
            Err(Stop::Memory) => text.extend_from_slice(b"memory")?,
            Err(Stop::CostRange) => text.extend_from_slice(b"range")?,
        }
    }
    if plans.next().is_some() {
        text.push(b'!')?;
    }
    Ok((text, plans.listed()))
}

/// The plans of these operators.
fn list(alloc: Global, rows: &[&[u32]]) -> Result<List<Plan>, Memory> {
    let mut plans = Vec::new(alloc);
    for row in rows {
        plans.push(Plan::of(Vec::from_slice(alloc, *row)?))?;
    }
    Ok(List::of(plans))
}

/// Plans of a task with circles that cost nothing: 0 leads to the goal, 1 leads back where it began.
const CIRCLES: &[&[u32]] = &[
    &[0],
    &[1, 0],
    &[0, 1],
    &[1, 1, 0],
    &[1, 0, 1],
    &[0, 1, 1],
    &[1, 1, 1, 0],
];

#[test]
fn gives_the_first_plans_and_asks_for_no_more(rt: HostRuntime) -> Result<(), Fail> {
    let alloc = rt.alloc();
    for (k, refused, want, count) in [
        (0, 1, "", 0),
        (2, 3, "[0][10]", 2),
        (3, 3, "[0][10]memory", 2),
        (9, 9, "[0][10][01][110][101][011][1110]", 7),
    ] {
        let script = Script::of(alloc, CIRCLES, Some(refused))?;
        let (text, plans) = listed(alloc, script, k)?;
        assert_eq!(rt; text.as_slice(), want.as_bytes(), "the first {k}");
        assert_eq!(rt; plans, count, "the first {k}");
    }
    Ok(())
}

#[test]
fn gives_one_plan_of_each_class_of_rearrangements(rt: HostRuntime) -> Result<(), Fail> {
    let alloc = rt.alloc();
    for (k, refused, want) in [
        (9, None, "[0][10][110][1110]"),
        (3, None, "[0][10][110]"),
        (9, Some(3), "[0][10]memory"),
        (9, Some(5), "[0][10][110]memory"),
    ] {
        let script = Script::of(alloc, CIRCLES, refused)?;
        let (text, _) = listed(alloc, Unordered::new(alloc, script)?, k)?;
        assert_eq!(rt; text.as_slice(), want.as_bytes());
    }
    Ok(())
}

/// The plans that the list lacks, of a script.
fn after_list(
    alloc: Global,
    rows: &[&[u32]],
    refused: Option<u64>,
    earlier: &[&[u32]],
) -> Result<Vec<u8>, Memory> {
    let script = Script::of(alloc, rows, refused)?;
    let after = After::new(alloc, script, Mode::TopK, &list(alloc, earlier)?)?;
    let (text, _) = listed(alloc, after, 9)?;
    Ok(text)
}

/// The same where rearrangements count as one.
fn after_classes(
    alloc: Global,
    rows: &[&[u32]],
    refused: Option<u64>,
    earlier: &[&[u32]],
) -> Result<Vec<u8>, Memory> {
    let classes = Unordered::new(alloc, Script::of(alloc, rows, refused)?)?;
    let after = After::new(alloc, classes, Mode::Unordered, &list(alloc, earlier)?)?;
    let (text, _) = listed(alloc, after, 9)?;
    Ok(text)
}

/// Plans, an earlier list, the call that is refused memory, and what is given.
type Row<'a> = (&'a [&'a [u32]], &'a [&'a [u32]], Option<u64>, &'a str);

#[test]
fn gives_what_an_earlier_list_lacks(rt: HostRuntime) -> Result<(), Fail> {
    let alloc = rt.alloc();
    let rows: [Row<'_>; 5] = [
        (&[&[0, 1], &[1, 0]], &[&[1, 0]], None, "[01]"),
        (&[&[0, 1], &[1, 0]], &[&[0, 1], &[1, 0]], None, ""),
        (
            &[&[0], &[0, 1, 0], &[0, 1, 0, 1, 0]],
            &[&[0, 1, 0]],
            None,
            "[0][01010]",
        ),
        (
            &[&[0], &[0, 1, 0], &[0, 1, 0, 1, 0]],
            &[&[0]],
            Some(2),
            "memory",
        ),
        (&[&[0, 1], &[1, 0]], &[], None, "[01][10]"),
    ];
    for (plans, earlier, refused, want) in rows {
        assert_eq!(rt;
            after_list(alloc, plans, refused, earlier)?.as_slice(),
            want.as_bytes()
        );
    }
    Ok(())
}

#[test]
fn gives_the_classes_that_an_earlier_list_lacks(rt: HostRuntime) -> Result<(), Fail> {
    let alloc = rt.alloc();
    let rows: [Row<'_>; 4] = [
        (&[&[0, 1], &[1, 0]], &[&[1, 0]], None, ""),
        (CIRCLES, &[&[1, 0]], None, "[0][110][1110]"),
        (CIRCLES, &[&[0, 1, 1], &[0]], Some(5), "[10]memory"),
        (CIRCLES, &[], None, "[0][10][110][1110]"),
    ];
    for (plans, earlier, refused, want) in rows {
        assert_eq!(rt;
            after_classes(alloc, plans, refused, earlier)?.as_slice(),
            want.as_bytes()
        );
    }
    Ok(())
}

/// One plan of each class, of an engine that leaves out rearrangements that it was not told.
fn classes_of_members(alloc: Global, rows: &[&[u32]], k: u64) -> Result<Vec<u8>, Memory> {
    let classes = Classes::new(alloc, Endless::of(alloc, rows)?);
    let (text, _) = listed(alloc, classes, k)?;
    Ok(text)
}

/// The same of an engine of all plans.
fn classes_of_whole(alloc: Global, rows: &[&[u32]], k: u64) -> Result<Vec<u8>, Memory> {
    let classes = Classes::new(alloc, Whole::new(Endless::of(alloc, rows)?));
    let (text, _) = listed(alloc, classes, k)?;
    Ok(text)
}

#[test]
fn gives_one_plan_of_each_class_of_which_members_are_kept(rt: HostRuntime) -> Result<(), Fail> {
    let alloc = rt.alloc();
    let rows: [(&[&[u32]], u64, &str); 4] = [
        (CIRCLES, 9, "[0][10][110][1110]memory"),
        (CIRCLES, 2, "[0][10]"),
        (
            &[&[2, 0, 1], &[1, 2, 0], &[0, 0], &[0, 1, 2], &[0, 1]],
            9,
            "[201][00][01]memory",
        ),
        (&[], 9, "memory"),
    ];
    for (plans, k, want) in rows {
        let members = classes_of_members(alloc, plans, k)?;
        assert_eq!(rt; members.as_slice(), want.as_bytes());
        let whole = classes_of_whole(alloc, plans, k)?;
        assert_eq!(rt; whole.as_slice(), want.as_bytes());
        let (same, _) = listed(alloc, Unordered::new(alloc, Endless::of(alloc, plans)?)?, k)?;
        assert_eq!(rt; same.as_slice(), want.as_bytes());
    }
    Ok(())
}
