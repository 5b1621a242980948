//! What is put of certificates of small tasks.

use cert_run::{prove, refute};
use run_status::Status;
use small_tasks::{no_operator, no_plan, one_switch};
use std::alloc::Global;
use std::test::Fail;
use symk_io::{MemSink, NoFaultSink};
use symk_task::Task;

/// Certificates of the task whose variable is to change and can't, and what they show.
const ONE_BIT: [(&[u8], Status, &[u8]); 4] = [
    (
        b"symk-cert 1\nbits 1\nnodes 1\n0 1 0\nroot 2\nend\n",
        Status::Refuted,
        b"no plan\n",
    ),
    (
        b"symk-cert 1\nbits 1\nnodes 0\nroot 1\nend\n",
        Status::NotShown,
        b"not shown: goal\n",
    ),
    (
        b"symk-cert 1\nbits 1\nnodes 0\nroot 0\nend\n",
        Status::NotShown,
        b"not shown: initial state\n",
    ),
    (
        b"symk-cert 1\nbits 1\nnodes 1\n0 1 5\nroot 2\nend\n",
        Status::Offending,
        b"cert line 4\n",
    ),
];

/// Certificates of the task whose lamp can be switched and whose aim can't.
const TWO_BITS: [(&[u8], Status, &[u8]); 2] = [
    (
        b"symk-cert 1\nbits 2\nnodes 2\n1 1 0\n0 2 0\nroot 3\nend\n",
        Status::NotShown,
        b"not shown: operator 0\n",
    ),
    (
        b"symk-cert 1\nbits 2\nnodes 1\n0 1 0\nroot 2\nend\n",
        Status::Refuted,
        b"no plan\n",
    ),
];

/// Whether `prove` ends so, and puts this.
fn proves(alloc: Global, task: &Task, status: Status, text: &[u8]) -> bool {
    let mut sink = NoFaultSink::new(alloc);
    let ended = prove(alloc, task, &mut sink);
    ended == status && sink.bytes() == text && sink.flushes() == 1
}

/// Whether `refute` ends so, and puts this.
fn refutes(alloc: Global, task: &Task, cert: &[u8], status: Status, text: &[u8]) -> bool {
    let mut sink = NoFaultSink::new(alloc);
    let ended = refute(alloc, task, cert, &mut sink);
    ended == status && sink.bytes() == text && sink.flushes() == 1
}

#[test]
fn certificates_are_put(rt: HostRuntime) -> Result<(), Fail> {
    let alloc = rt.alloc();
    let text = b"symk-cert 1\nbits 1\nnodes 1\n0 1 0\nroot 2\nend\n";
    assert!(rt; proves(alloc, &no_operator(alloc)?, Status::Proved, text));
    let text = b"symk-cert 1\nbits 2\nnodes 1\n0 1 0\nroot 2\nend\n";
    assert!(rt; proves(alloc, &no_plan(alloc)?, Status::Proved, text));
    assert!(rt; proves(alloc, &one_switch(alloc)?, Status::HasPlan, b"has a plan\n"));
    Ok(())
}

#[test]
fn what_certificates_show_is_put(rt: HostRuntime) -> Result<(), Fail> {
    let alloc = rt.alloc();
    let task = no_operator(alloc)?;
    for (cert, status, text) in &ONE_BIT {
        assert!(rt; refutes(alloc, &task, cert, *status, text));
    }
    let task = no_plan(alloc)?;
    for (cert, status, text) in &TWO_BITS {
        assert!(rt; refutes(alloc, &task, cert, *status, text));
    }
    Ok(())
}

#[test]
fn a_sink_that_fails_ends_the_run(rt: HostRuntime) -> Result<(), Fail> {
    let alloc = rt.alloc();
    let task = no_plan(alloc)?;
    let mut sink = MemSink::new(alloc, vec![in alloc; 2]?, 5);
    assert!(rt;
        prove(alloc, &task, &mut sink) == Status::WriteFault && sink.bytes() == b"symk-".as_slice()
    );
    let mut sink = MemSink::new(alloc, vec![in alloc; 1]?, 5);
    assert!(rt;
        refute(alloc, &task, b"", &mut sink) == Status::WriteFault && sink.bytes().is_empty()
    );
    Ok(())
}
