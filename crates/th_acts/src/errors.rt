//! Why runs are cut off.
use std::alloc::{AllocError, AllocFailed};
use thiserror::Error;

/// Why a run was cut off.
#[derive(Clone, Copy, PartialEq, Eq, Debug, Drop, Error)]
pub enum InterpretError {
    #[error("the source of bytes failed")]
    ReadFault,
    #[error("the sink of bytes failed")]
    WriteFault,
    #[error("no memory for the run")]
    Memory,
}

impl From<AllocError> for InterpretError {
    fn from(_error: AllocError) -> InterpretError {
        InterpretError::Memory
    }
}

impl<T: Drop> From<AllocFailed<T>> for InterpretError {
    fn from(_error: AllocFailed<T>) -> InterpretError {
        InterpretError::Memory
    }
}
