//! Times the operations on decision diagrams, on works that are known to the field.
//!
//! The words name a work, its size, and how many results the cache may hold: `queens N CACHE`, `switches N
//! CACHE`, `sliding N CACHE` (a board of three rows and N columns), `gripper N CACHE`, or `deep N CACHE`
//! (diagrams of 2 N levels, to see that they run within the stack). The output says how many rounds the work
//! took and how many nodes its last diagram has; standard error says the time. `bench/diagrams.sh` runs it
//! beside a program on BuDDy that does the same. It stands on `bdd_table` and `bdd_ops`.
#![tactic(auto)]

mod calls;
mod deep;
mod gripper;
mod moves;
mod nodes;
mod places;
mod queens;
mod sliding;
mod switches;
mod work;

use bdd_ops::Ops;
use bdd_table::Table;
use calls::known;
use nodes::of_root;
use std::time::Instant;
use std::{env, io};
use work::{Work, work_of};

fn main(rt: HostRuntime) -> io::Result<()> {
    let words: Vec<String> = env::args(&rt)?.collect(rt.alloc())?;
    let Some(work) = work_of(&words) else {
        eprintln!(rt; "usage: bdd_bench queens|switches|sliding|gripper|deep N CACHE")?;
        return Ok(());
    };
    run(&rt, work)
}

/// Does the work on a table of its own, and says what came of it.
fn run(rt: &HostRuntime, work: Work) -> io::Result<()> {
    let cache = (work.cache as usize).max(1).min(1_048_576);
    let table = Table::new(rt.alloc())?;
    let mut ops = Ops::new(table, cache)?;
    tell(rt, &mut ops, work)
}

/// Does the work, and says what came of it.
fn tell(rt: &HostRuntime, ops: &mut Ops, work: Work) -> io::Result<()> {
    let start = Instant::now(rt)?;
    let made = work.make(ops)?;
    let took = start.elapsed(rt)?.as_micros();
    let all = ops.table().held();
    let root = known(ops, made.set);
    let nodes = of_root(ops, root)?;
    let (rounds, collected) = (made.rounds, made.collected);
    println!(rt; "rounds {rounds} nodes {nodes}")?;
    eprintln!(rt; "microseconds {took} table {all} collected {collected}")
}
