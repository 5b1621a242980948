//! Times the search for all states that a task's operators reach, by the calls of a space.
//!
//! The words name a space and a task file (SAS, version 3): `explicit FILE` or `diagrams FILE`. The output says
//! how many rounds found a state, which is how many operators it takes at most to reach one, and whether a goal
//! state is reached; standard error says the time and how much the space holds. `bench/images.sh` runs it
//! beside a program on BuDDy that does the same. What it says is exact, over any `Space`. It stands on
//! `reached_states` for the search, on the spaces, and for the file on `symk_io` and `sas_reader`.
#![tactic(auto)]

mod exploring;
mod reading;

use bdd_space::BddSpace;
use explicit_space::ExplicitSpace;
use exploring::explore;
use reading::task_of;
use space_api::Space;
use std::time::Instant;
use std::{env, io};
use symk_io::HostFiles;
use symk_task::Task;

fn main(rt: HostRuntime) -> io::Result<()> {
    let words: Vec<String> = env::args(&rt)?.collect(rt.alloc())?;
    let [_, kind, name] = words.as_slice() else {
        eprintln!(rt; "usage: space_bench explicit|diagrams FILE")?;
        return Ok(());
    };
    let mut files = HostFiles::new(rt.clone()?);
    let Some(task) = task_of(rt.alloc(), &mut files, name.as_str())? else {
        eprintln!(rt; "no task file")?;
        return Ok(());
    };
    run(&rt, kind.as_str(), &task)
}

/// Does the search over the space of that name.
fn run(rt: &HostRuntime, kind: &str, task: &Task) -> io::Result<()> {
    match kind {
        "explicit" => tell(rt, &mut ExplicitSpace::of(rt.alloc(), task)?),
        "diagrams" => tell(rt, &mut BddSpace::of(rt.alloc(), task)?),
        _ => { eprintln!(rt; "no such space") }
    }
}

/// Does the search, and says what came of it.
fn tell<S: Space>(rt: &HostRuntime, space: &mut S) -> io::Result<()> {
    let start = Instant::now(rt)?;
    let found = explore(space)?;
    let took = start.elapsed(rt)?.as_micros();
    let rounds = found.rounds;
    let goal = if found.goal { "yes" } else { "no" };
    let held = space.held();
    println!(rt; "rounds {rounds} goal {goal}")?;
    eprintln!(rt; "microseconds {took} held {held}")
}
