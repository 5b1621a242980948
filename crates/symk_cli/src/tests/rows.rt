//! A table of requests and the texts that may answer them.

use super::{World, answer};
use crate::Status;
use std::alloc::Global;
use std::process::Abort;
use std::test::Fail;

/// A request over a file and a plan text, its status, and the two texts that may answer it.
#[derive(Clone, Copy)]
pub struct Row<'a> {
    words: &'a str,
    file: &'a [u8],
    plans: &'a [u8],
    status: Status,
    text: &'a [u8],
    other: &'a [u8],
}

/// A request over a file that one text answers.
pub fn ask<'a>(words: &'a str, file: &'a [u8], status: Status, text: &'a [u8]) -> Row<'a> {
    ask_either(words, file, status, text, text)
}

/// A request over a file that either text answers.
pub fn ask_either<'a>(
    words: &'a str,
    file: &'a [u8],
    status: Status,
    text: &'a [u8],
    other: &'a [u8],
) -> Row<'a> {
    Row {
        words,
        file,
        plans: b"",
        status,
        text,
        other,
    }
}

/// A request over a file and a plan text that one text answers.
pub fn ask_check<'a>(
    words: &'a str,
    file: &'a [u8],
    plans: &'a [u8],
    status: Status,
    text: &'a [u8],
) -> Row<'a> {
    Row {
        words,
        file,
        plans,
        status,
        text,
        other: text,
    }
}

/// The words are answered over these files by the status and the text.
pub fn gives(
    rt: &impl Abort,
    alloc: Global,
    world: &World,
    words: &str,
    status: Status,
    text: &[u8],
) -> Result<(), Fail> {
    gives_either(rt, alloc, world, words, status, text, text)
}

/// The words are answered over these files by the status and one of the texts.
fn gives_either(
    rt: &impl Abort,
    alloc: Global,
    world: &World,
    words: &str,
    status: Status,
    text: &[u8],
    other: &[u8],
) -> Result<(), Fail> {
    let given = answer(alloc, world, words)?;
    let bytes = given.bytes.as_slice();
    assert!(rt; given.status == status, "{words}: {:?}", given.status);
    assert!(rt; text == bytes || other == bytes, "{words}: {bytes:?}");
    Ok(())
}

/// Each request is answered by its status and one of its texts.
pub fn holds(rt: &impl Abort, alloc: Global, rows: &[Row]) -> Result<(), Fail> {
    for row in rows {
        let world = World::of(row.file, row.plans);
        gives_either(
            rt, alloc, &world, row.words, row.status, row.text, row.other,
        )?;
    }
    Ok(())
}
