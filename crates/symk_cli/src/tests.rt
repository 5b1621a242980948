//! Runs over files and a sink in memory: the worked examples, and each call that fails once.

mod certs;
mod checks;
mod cuts;
mod drawn;
mod earlier;
mod faults;
mod files;
mod further;
mod large;
mod memory;
mod mutexes;
mod plans;
mod refusals;
mod rows;
mod searches;
mod texts;
mod words;

use crate::{Status, run, run_in_memory};
use std::alloc::{AllocError, Global};
use symk_io::{MemFile, MemFiles, MemSink, MemText, NoFaultFiles, NoFaultSink};

/// What a run answers, and the bytes that it put.
#[derive(Drop)]
struct Outcome {
    status: Status,
    bytes: Vec<u8>,
}

/// The files of a run, and which of its calls fail. PLANS and CERT are two names of one text. A count of blanks
/// stands in the place of a text.
#[derive(Clone, Copy)]
struct World<'a> {
    file: &'a [u8],
    plans: &'a [u8],
    blank_file: Option<u64>,
    blank_plans: Option<u64>,
    failing_files: &'a [u64],
    failing_sink: &'a [u64],
    most: usize,
}

impl<'a> World<'a> {
    fn of(file: &'a [u8], plans: &'a [u8]) -> World<'a> {
        World {
            file,
            plans,
            blank_file: None,
            blank_plans: None,
            failing_files: &[],
            failing_sink: &[],
            most: usize::MAX,
        }
    }
}

fn file(
    alloc: Global,
    name: &str,
    text: &[u8],
    blanks: Option<u64>,
) -> Result<MemFile, AllocError> {
    Ok(MemFile {
        name: String::from_str(alloc, name)?,
        text: match blanks {
            Some(count) => MemText::Run { byte: b' ', count },
            None => MemText::Bytes(Vec::from_slice(alloc, text)?),
        },
    })
}

/// The program's name, and the words of one text, in which a space stands between two of them.
fn words_of(alloc: Global, words: &str) -> Result<Vec<String>, AllocError> {
    let mut given = Vec::new(alloc);
    given.push(String::from_str(alloc, "symk")?)?;
    for word in words.split_whitespace() {
        given.push(String::from_str(alloc, word)?)?;
    }
    Ok(given)
}

/// Runs the words of one text over FILE, PLANS and CERT.
fn answer(alloc: Global, world: &World, words: &str) -> Result<Outcome, AllocError> {
    let given = words_of(alloc, words)?;
    let mut shelf = Vec::new(alloc);
    shelf.push(file(alloc, "FILE", world.file, world.blank_file)?)?;
    for name in ["PLANS", "CERT"] {
        shelf.push(file(alloc, name, world.plans, world.blank_plans)?)?;
    }
    let mut files = MemFiles::new(shelf, Vec::from_slice(alloc, world.failing_files)?);
    let failing = Vec::from_slice(alloc, world.failing_sink)?;
    let mut sink = MemSink::new(alloc, failing, world.most);
    let status = run(alloc, &given, &mut files, &mut sink);
    Ok(Outcome {
        status,
        bytes: Vec::from_slice(alloc, sink.bytes())?,
    })
}

/// Runs the words of one text over FILE alone, and a sink, neither of which can fail.
fn answer_in_memory(alloc: Global, text: &[u8], words: &str) -> Result<Outcome, AllocError> {
    let given = words_of(alloc, words)?;
    let mut shelf = Vec::new(alloc);
    shelf.push(file(alloc, "FILE", text, None)?)?;
    let mut files = NoFaultFiles::new(shelf);
    let mut sink = NoFaultSink::new(alloc);
    let status = run_in_memory(alloc, &given, &mut files, &mut sink);
    Ok(Outcome {
        status,
        bytes: Vec::from_slice(alloc, sink.bytes())?,
    })
}
