//! Workers of the command, of whom one is held at a gate.
use crate::module::{REPORT, by_workers};
use bt_command::Status;
use std::sync::atomic::{AtomicU64, Ordering};
use std::test::Fail;
use std::thread;
use worker_pool::Gate;

/// Holds the first claim of the worker that comes first until another worker has passed, or 100,000,000 turns are over.
#[derive(Drop)]
struct HoldFirst {
    first: AtomicU64,
    passed: AtomicU64,
    overdue: AtomicU64,
}

impl Gate for HoldFirst {
    fn pass(&self, worker: u32, _number: u64) {
        let me = worker as u64 + 1;
        match self
            .first
            .compare_exchange(0, me, Ordering::SeqCst, Ordering::SeqCst)
        {
            Ok(_) => {
                for _turn in 0..100_000_000u64 {
                    if self.passed.load(Ordering::SeqCst) != 0 {
                        return;
                    }
                    thread::yield_now();
                }
                self.overdue.store(1, Ordering::SeqCst);
            }
            Err(first) => {
                if first != me {
                    self.passed.store(1, Ordering::SeqCst);
                }
            }
        }
    }
}

// A worker of the command passes another that is held, and the report is the same.
#[test]
fn a_worker_of_the_command_passes_another(rt: HostRuntime) -> Result<(), Fail> {
    let gate = HoldFirst {
        first: AtomicU64::new(0),
        passed: AtomicU64::new(0),
        overdue: AtomicU64::new(0),
    };
    let answer = by_workers(&rt, rt.alloc(), "bound i c a --workers 2", &gate)?;
    assert_eq!(rt; gate.passed.load(Ordering::SeqCst), 1);
    assert_eq!(rt; gate.overdue.load(Ordering::SeqCst), 0);
    assert_eq!(rt; answer.status, Status::Bounded);
    assert!(rt; answer.text.as_slice() == REPORT.as_bytes());
    Ok(())
}
