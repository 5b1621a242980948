//! Lists by each search: a hundred plans, and the plan of a counter whose 2^40 states none can go through first.

use super::World;
use super::files::*;
use super::rows::gives;
use super::texts::{push_counter, push_plans};
use crate::Status;
use std::alloc::Global;
use std::process::Abort;
use std::test::Fail;
use symk_text::Text;

/// Each of these requests is answered by the text, which has as many plans as were asked for.
fn reach(
    rt: &impl Abort,
    alloc: Global,
    file: &[u8],
    requests: &[&str],
    text: &[u8],
) -> Result<(), Fail> {
    let world = World::of(file, b"");
    for words in requests {
        gives(rt, alloc, &world, *words, Status::Reached, text)?;
    }
    Ok(())
}

#[test]
fn lists_a_hundred_plans_by_each_search(rt: HostRuntime) -> Result<(), Fail> {
    let requests = [
        "plan FILE --k 100 --search auto",
        "plan FILE --k 100 --search forward",
        "plan FILE --k 100 --search backward",
        "plan FILE --k 100 --search bidirectional",
    ];
    let mut text = Text::new(rt.alloc());
    push_plans(&mut text, 100)?;
    reach(&rt, rt.alloc(), SWITCH_AND_BACK, &requests, text.as_slice())
}

#[test]
fn lists_as_many_plans_as_a_number_with_zeros_before_it_says(rt: HostRuntime) -> Result<(), Fail> {
    let mut text = Text::new(rt.alloc());
    push_plans(&mut text, 7)?;
    let requests = ["plan FILE --k 007"];
    reach(&rt, rt.alloc(), SWITCH_AND_BACK, &requests, text.as_slice())
}

#[test]
fn counts_up_by_each_search(rt: HostRuntime) -> Result<(), Fail> {
    let requests = [
        "plan FILE --k 1 --search auto",
        "plan FILE --k 1 --search forward",
        "plan FILE --k 1 --search backward",
        "plan FILE --k 1 --search bidirectional",
    ];
    let mut file = Text::new(rt.alloc());
    push_counter(&mut file, &mut Text::new(rt.alloc()))?;
    let text = b"; plan 1\n; ops 0\n(inc)\n; cost = 1 (unit cost)\n; reached 1\n";
    reach(&rt, rt.alloc(), file.as_slice(), &requests, text)
}
