//! Certificates of small tasks.

use cert_out::write_cert;
use small_tasks::{goal_at_start, no_operator, no_plan, one_switch};
use std::alloc::Global;
use std::test::Fail;
use symk_task::{Memory, Task};

/// Whether the certificate of the task is written so; None where it has a plan.
fn is_written(alloc: Global, task: &Task, text: Option<&[u8]>) -> Result<bool, Memory> {
    let written = write_cert(alloc, task)?;
    match (&written, text) {
        (Some(written), Some(text)) => Ok(written.as_slice() == text),
        (None, None) => Ok(true),
        _ => Ok(false),
    }
}

#[test]
fn a_set_of_one_state_is_written(rt: HostRuntime) -> Result<(), Fail> {
    let alloc = rt.alloc();
    let text = b"symk-cert 1\nbits 1\nnodes 1\n0 1 0\nroot 2\nend\n";
    assert!(rt; is_written(alloc, &no_operator(alloc)?, Some(text))?);
    Ok(())
}

#[test]
fn a_bit_that_does_not_matter_has_no_node(rt: HostRuntime) -> Result<(), Fail> {
    let alloc = rt.alloc();
    let text = b"symk-cert 1\nbits 2\nnodes 1\n0 1 0\nroot 2\nend\n";
    assert!(rt; is_written(alloc, &no_plan(alloc)?, Some(text))?);
    Ok(())
}

#[test]
fn none_is_written_where_a_plan_exists(rt: HostRuntime) -> Result<(), Fail> {
    let alloc = rt.alloc();
    assert!(rt; is_written(alloc, &one_switch(alloc)?, None)?);
    assert!(rt; is_written(alloc, &goal_at_start(alloc)?, None)?);
    Ok(())
}
