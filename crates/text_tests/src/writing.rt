//! Worked rows.

use sas_reader::read_task;
use sas_writer::write_task;
use small_tasks::{fact, name, none, one, one_switch, stated, two};
use std::alloc::Global;
use std::process::Abort;
use std::test::Fail;
use symk_task::{Effect, Fact, List, Memory, Operator, Rule, Task, TaskParts, Variable};

fn variable(
    alloc: Global,
    called: &[u8],
    layer: Option<u32>,
    first: &[u8],
    second: &[u8],
) -> Result<Variable, Memory> {
    Ok(Variable {
        name: name(alloc, called)?,
        layer,
        values: two(alloc, name(alloc, first)?, name(alloc, second)?)?,
    })
}

fn variables(alloc: Global) -> Result<List<Variable>, Memory> {
    two(
        alloc,
        variable(alloc, b"x", None, b"", b"x1")?,
        variable(alloc, b"d", Some(7), b"no", b"yes")?,
    )
}

fn effect(conds: List<Fact>, pre: Option<u32>, post: u32) -> Effect {
    Effect {
        conds,
        var: 0,
        pre,
        post,
    }
}

fn effects(alloc: Global) -> Result<List<Effect>, Memory> {
    let conds = two(alloc, fact(0, 0), fact(1, 0))?;
    two(
        alloc,
        effect(conds, None, 1),
        effect(none(alloc), Some(1), 0),
    )
}

fn flip(alloc: Global) -> Result<Operator, Memory> {
    Ok(Operator {
        name: name(alloc, b"flip\r")?,
        prevail: one(alloc, fact(1, 0))?,
        effects: effects(alloc)?,
        cost: u64::MAX,
    })
}

fn raise(alloc: Global) -> Result<Rule, Memory> {
    Ok(Rule {
        conds: one(alloc, fact(0, 1))?,
        var: 1,
        new: 1,
    })
}

/// A task with something in each section, a name that ends with CR, and costs that the metric leaves out.
fn full(alloc: Global) -> Result<TaskParts, Memory> {
    Ok(TaskParts {
        metric: 0,
        variables: variables(alloc)?,
        mutexes: one(alloc, two(alloc, fact(0, 0), fact(0, 1))?)?,
        initial: two(alloc, 0, 0)?,
        goal: one(alloc, fact(1, 1))?,
        operators: one(alloc, flip(alloc)?)?,
        rules: one(alloc, raise(alloc)?)?,
    })
}

fn check_text(rt: &impl Abort, alloc: Global, task: &Task, text: &str) -> Result<(), Memory> {
    let bytes = write_task(alloc, task)?;
    assert!(rt; bytes.as_slice() == text.as_bytes());
    Ok(())
}

const SWITCH: &str =
    "begin_version\n3\nend_version\nbegin_metric\n0\nend_metric\n1\nbegin_variable\nvar0\n-1\n2\noff\non\nend_variable\n0\nbegin_state\n0\nend_state\nbegin_goal\n1\n0 1\nend_goal\n1\nbegin_operator\nswitch-on\n0\n1\n0 0 0 1\n1\nend_operator\n0\n";

const FULL: &str =
    "begin_version\n3\nend_version\nbegin_metric\n0\nend_metric\n2\nbegin_variable\nx\n-1\n2\n\nx1\nend_variable\nbegin_variable\nd\n7\n2\nno\nyes\nend_variable\n1\nbegin_mutex_group\n2\n0 0\n0 1\nend_mutex_group\nbegin_state\n0\n0\nend_state\nbegin_goal\n1\n1 1\nend_goal\n1\nbegin_operator\nflip\r\r\n1\n1 0\n2\n2 0 0 1 0 0 -1 1\n0 0 1 0\n18446744073709551615\nend_operator\n1\nbegin_rule\n1\n0 1\n1 0 1\nend_rule\n";

#[test]
fn writes_the_lines_of_a_switch(rt: HostRuntime) -> Result<(), Fail> {
    let task = one_switch(rt.alloc())?;
    check_text(&rt, rt.alloc(), &task, SWITCH)?;
    Ok(())
}

#[test]
fn writes_the_lines_of_each_section(rt: HostRuntime) -> Result<(), Fail> {
    let task = stated(full(rt.alloc())?).expect(&rt, "the parts fit");
    check_text(&rt, rt.alloc(), &task, FULL)?;
    Ok(())
}

/// The text is read, and written as the same bytes.
fn check_round(rt: &impl Abort, alloc: Global, text: &str) -> Result<(), Fail> {
    let task = read_task(alloc, text.as_bytes())?;
    check_text(rt, alloc, &task, text)?;
    Ok(())
}

#[test]
fn writes_what_was_read(rt: HostRuntime) -> Result<(), Fail> {
    for text in [SWITCH, FULL] {
        check_round(&rt, rt.alloc(), text)?;
    }
    Ok(())
}

fn check_start(rt: &impl Abort, alloc: Global, task: &Task) -> Result<(), Memory> {
    let start = task.start(alloc)?;
    assert_eq!(rt; start.as_slice(), [0].as_slice());
    Ok(())
}

#[test]
fn starts_in_the_state_that_was_read(rt: HostRuntime) -> Result<(), Fail> {
    let task = read_task(rt.alloc(), SWITCH.as_bytes())?;
    check_start(&rt, rt.alloc(), &task)?;
    Ok(())
}
