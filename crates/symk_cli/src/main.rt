//! The planner: words, files and a sink in, plans, a verdict or a certificate and a status out.
//!
//! `run` is the whole program over any files and any sink: it opens at most the files that the words name, in their
//! order, and puts each block, the line that ends a list and every other text as one piece, with one flush. `main`
//! makes those of the system, calls it and ends with its status. Plans come from an engine of lazy plans over
//! decision diagrams, and whichever it is, a list is right by the law of such engines alone. It stands on `plan_run`,
//! which lists them, on `cert_run`, which writes and checks certificates that no plan exists, and on the crates of
//! words, files and texts.
#![tactic(auto)]

mod checking;
mod continuing;
mod demo;
mod pieces;
mod reading;
mod request;
mod top;

ghost use Rattle.std.specs.Prelude.{◌≡◌, pos};
ghost use Rattle.std.specs.Process.{exit_status};
ghost use Rattle.run_status.specs.Codes.{status_code_of};

pub use run_status::Status;
use std::env;
use std::process::ExitCode;
use symk_io::{HostFiles, HostSink};
pub use top::{run, run_in_memory};

/// The greatest number of bytes of a file or a plan text.
pub const LIMIT: u64 = 268_435_456;

fn main(rt: HostRuntime) -> ExitCode {
    exit_of(answer(rt))
}

/// What the program ends with: the number of the status.
fn exit_of(status: Status) -> ExitCode
    ensures { pos (exit_status result) ≡ status_code_of status }
{
    ExitCode::from(u8::try_from(status.code()).unwrap_or(u8::MAX))
}

/// The status of a run over the system's words, files and output.
fn answer(rt: HostRuntime) -> Status {
    let Ok(words) = env::args(&rt) else {
        return Status::Memory;
    };
    let Ok(words) = words.collect(rt.alloc()) else {
        return Status::Memory;
    };
    let Ok(system) = rt.clone() else {
        return Status::Memory;
    };
    let mut files = HostFiles::new(system);
    let mut sink = HostSink::new(rt.stdout());
    let words: Vec<String> = words;
    run(rt.alloc(), &words, &mut files, &mut sink)
}

#[cfg(test)]
mod tests;
