//! Runs of workloads as a second implementation tells them.
use crate::{Summary, run_workload};
use std::alloc::{AllocError, Global};
use std::test::Fail;

/// The numbers in order.
fn numbers(summary: &Summary) -> [u64; 6] {
    [
        summary.commands,
        summary.version,
        summary.rows,
        summary.answers,
        summary.answer_rows,
        summary.exact,
    ]
}

#[test]
fn one_step(rt: HostRuntime) -> Result<(), Fail> {
    let summary = run_workload(rt.alloc(), 1, 0)?;
    assert!(rt; numbers(&summary) == [2, 2, 1, 16, 0, 16]);
    assert!(rt; summary.last.version == 2);
    Ok(())
}

#[test]
fn some_steps(rt: HostRuntime) -> Result<(), Fail> {
    let summary = run_workload(rt.alloc(), 250, 7)?;
    assert!(rt; numbers(&summary) == [251, 4, 179, 16, 100, 16]);
    assert!(rt; summary.last.catalog.as_bytes()[..4] == [0x2c, 0xd0, 0x44, 0x82]);
    Ok(())
}

#[test]
fn many_batches(rt: HostRuntime) -> Result<(), Fail> {
    let summary = run_workload(rt.alloc(), 1000, 3)?;
    assert!(rt; numbers(&summary) == [1001, 11, 711, 16, 107, 16]);
    Ok(())
}
