//! Large texts: too long ones, and tasks at the limits.

use super::earlier::FIRST_AND_END;
use super::files::*;
use super::rows::gives;
use super::texts::{push_alike, push_chain, push_wide};
use super::{World, answer};
use crate::Status;
use std::alloc::Global;
use std::process::Abort;
use std::test::Fail;
use symk_text::Text;

/// So many blanks in the place of FILE or of PLANS and CERT are answered by the status and the text.
fn refuses_blanks(
    rt: &impl Abort,
    alloc: Global,
    (file, plans): (Option<u64>, Option<u64>),
    words: &str,
    status: Status,
    text: &[u8],
) -> Result<(), Fail> {
    let mut world = World::of(ONE_SWITCH, b"");
    world.blank_file = file;
    world.blank_plans = plans;
    gives(rt, alloc, &world, words, status, text)
}

#[test]
fn refuses_long_texts(rt: HostRuntime) -> Result<(), Fail> {
    let one_more = Some(268_435_457);
    for (blanks, words, text) in [
        (
            (one_more, None),
            "plan FILE --k 3",
            b"file too long\n".as_slice(),
        ),
        (
            (None, one_more),
            "check FILE PLANS",
            b"plans too long\n".as_slice(),
        ),
        (
            (None, one_more),
            "refute FILE CERT",
            b"cert too long\n".as_slice(),
        ),
    ] {
        refuses_blanks(&rt, rt.alloc(), blanks, words, Status::TooLong, text)?;
    }
    Ok(())
}

#[test]
fn reads_the_longest_text(rt: HostRuntime) -> Result<(), Fail> {
    refuses_blanks(
        &rt,
        rt.alloc(),
        (Some(268_435_456), None),
        "plan FILE --k 3",
        Status::Offending,
        b"line 1: wanted begin_version\n",
    )
}

const GO: &[u8] = b"; plan 1\n; ops 0\n(go)\n; cost = 1 (unit cost)\n; exhausted 1\n";

/// Two plans are asked for, and the text answers.
fn answers(
    rt: &impl Abort,
    alloc: Global,
    file: &[u8],
    status: Status,
    text: &[u8],
) -> Result<(), Fail> {
    let world = World::of(file, b"");
    gives(rt, alloc, &world, "plan FILE --k 2", status, text)
}

#[test]
fn closes_over_1000_rules(rt: HostRuntime) -> Result<(), Fail> {
    for layered in [true, false] {
        let mut text = Text::new(rt.alloc());
        push_chain(&mut text, layered)?;
        answers(&rt, rt.alloc(), text.as_slice(), Status::Exhausted, GO)?;
    }
    Ok(())
}

#[test]
fn plans_over_65536_bits(rt: HostRuntime) -> Result<(), Fail> {
    let mut text = Text::new(rt.alloc());
    push_wide(&mut text, 2)?;
    let listed = FIRST_AND_END;
    answers(&rt, rt.alloc(), text.as_slice(), Status::Exhausted, listed)
}

#[test]
fn refuses_one_bit_more(rt: HostRuntime) -> Result<(), Fail> {
    let mut text = Text::new(rt.alloc());
    push_wide(&mut text, 3)?;
    let wanted = b"line 458756: wanted range\n";
    answers(&rt, rt.alloc(), text.as_slice(), Status::Offending, wanted)
}

#[test]
fn tells_operators_of_one_name_apart(rt: HostRuntime) -> Result<(), Fail> {
    let mut text = Text::new(rt.alloc());
    push_alike(&mut text)?;
    let listed = answer(
        rt.alloc(),
        &World::of(text.as_slice(), b""),
        "plan FILE --k 1001",
    )?;
    assert!(&rt; listed.status == Status::Exhausted);
    assert!(&rt; listed.bytes.as_slice().ends_with(b"\n; exhausted 1000\n"));
    let world = World::of(text.as_slice(), listed.bytes.as_slice());
    gives(
        &rt,
        rt.alloc(),
        &world,
        "check FILE PLANS",
        Status::Good,
        b"good 1000\n",
    )
}
