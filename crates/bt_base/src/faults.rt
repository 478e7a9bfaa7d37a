use std::alloc::{AllocError, AllocFailed};
use thiserror::Error;

/// Want of memory: an allocation was refused.
#[derive(Clone, Copy, Debug, PartialEq, Eq, Error)]
#[error("out of memory")]
pub struct Want;

impl From<AllocError> for Want {
    fn from(_refused: AllocError) -> Want {
        Want
    }
}

impl<T: Drop> From<AllocFailed<T>> for Want {
    fn from(_refused: AllocFailed<T>) -> Want {
        Want
    }
}

/// A write that failed.
#[derive(Clone, Copy, Debug, PartialEq, Eq, Error)]
#[error("the write failed")]
pub struct Failed;
