//! The tasks of one switch and of the most.

use std::alloc::Global;
use std::test::Fail;
use symk_task::{Fact, List, Memory, Operator, Variable};
use task_gen::switches;

/// The names of variables and their values, a comma after each.
fn named(alloc: Global, variables: &List<Variable>) -> Result<Vec<u8>, Memory> {
    let mut text = Vec::new(alloc);
    for variable in variables.as_slice() {
        text.extend_from_slice(variable.name.as_slice())?;
        text.push(b',')?;
        for value in variable.values.as_slice() {
            text.extend_from_slice(value.as_slice())?;
            text.push(b',')?;
        }
    }
    Ok(text)
}

/// The name of the last operator.
fn last_name(alloc: Global, operators: &List<Operator>) -> Result<Vec<u8>, Memory> {
    match operators.as_slice() {
        [.., last] => Vec::from_slice(alloc, last.name.as_slice()),
        [] => Ok(Vec::new(alloc)),
    }
}

/// Whether the one fact is this.
fn is_one(facts: &List<Fact>, var: u32, val: u32) -> bool {
    facts.as_slice() == [Fact { var, val }].as_slice()
}

#[test]
fn states_the_task_of_one_switch(rt: HostRuntime) -> Result<(), Fail> {
    let alloc = rt.alloc();
    let task = switches(alloc, 1)?;
    let parts = task.parts();
    assert_eq!(rt;
        named(alloc, &parts.variables)?.as_slice(),
        b"s0,off,on,all,no,yes,".as_slice()
    );
    assert_eq!(rt; parts.initial.as_slice(), [0, 0].as_slice());
    assert!(rt; is_one(&parts.goal, 1, 1));
    assert_eq!(rt;
        last_name(alloc, &parts.operators)?.as_slice(),
        b"flip 0".as_slice()
    );
    Ok(())
}

#[test]
fn numbers_the_switches(rt: HostRuntime) -> Result<(), Fail> {
    let alloc = rt.alloc();
    let task = switches(alloc, 64)?;
    let parts = task.parts();
    assert_eq!(rt; parts.variables.len(), 65);
    assert_eq!(rt; parts.operators.len(), 64);
    assert_eq!(rt;
        last_name(alloc, &parts.operators)?.as_slice(),
        b"flip 63".as_slice()
    );
    Ok(())
}
