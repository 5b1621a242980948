//! Certificates that are written are accepted, on tasks that seeds draw.

use cert_check::{CertFault, CertVerdict, check_cert};
use cert_out::write_cert;
use small_tasks::{no_operator, no_plan};
use std::alloc::Global;
use std::test::Fail;
use symk_task::Task;
use task_draws::random_task;

/// Whether the certificate that is written for the task is accepted; None where the task has a plan.
fn accepted(alloc: Global, task: &Task) -> Result<Option<bool>, CertFault> {
    let written = write_cert(alloc, task)?;
    match &written {
        Some(text) => Ok(Some(check_cert(alloc, task, text)? == CertVerdict::Yes)),
        None => Ok(None),
    }
}

/// Whether 100 certificates are accepted, of tasks that the seeds from this one on draw, 1,000 of them at most.
fn are_accepted(alloc: Global, first: u64) -> Result<bool, CertFault> {
    let mut count = 0_u32;
    for seed in first..first.saturating_add(1000) {
        if count == 100 {
            break;
        }
        if let Some(task) = random_task(alloc, seed)? {
            match accepted(alloc, &task)? {
                Some(true) => count = count.saturating_add(1),
                Some(false) => return Ok(false),
                None => {}
            }
        }
    }
    Ok(count == 100)
}

#[test]
fn certificates_of_small_tasks_are_accepted(rt: HostRuntime) -> Result<(), Fail> {
    let alloc = rt.alloc();
    assert_eq!(rt; accepted(alloc, &no_operator(alloc)?)?, Some(true));
    assert_eq!(rt; accepted(alloc, &no_plan(alloc)?)?, Some(true));
    Ok(())
}

#[test]
fn the_first_hundred_certificates_are_accepted(rt: HostRuntime) -> Result<(), Fail> {
    assert!(rt; are_accepted(rt.alloc(), 0)?);
    Ok(())
}

#[test]
fn the_second_hundred_certificates_are_accepted(rt: HostRuntime) -> Result<(), Fail> {
    assert!(rt; are_accepted(rt.alloc(), 1000)?);
    Ok(())
}

#[test]
fn the_third_hundred_certificates_are_accepted(rt: HostRuntime) -> Result<(), Fail> {
    assert!(rt; are_accepted(rt.alloc(), 2000)?);
    Ok(())
}

#[test]
fn the_fourth_hundred_certificates_are_accepted(rt: HostRuntime) -> Result<(), Fail> {
    assert!(rt; are_accepted(rt.alloc(), 3000)?);
    Ok(())
}

#[test]
fn the_fifth_hundred_certificates_are_accepted(rt: HostRuntime) -> Result<(), Fail> {
    assert!(rt; are_accepted(rt.alloc(), 4000)?);
    Ok(())
}
