use std::alloc::AllocError;
use thiserror::Error;

/// Why a line of a text of rows can't be read.
#[derive(Clone, Copy, Debug, PartialEq, Eq, Error)]
pub enum RowFault {
    #[error("the line is no row")]
    Row,
    #[error("no text has this name")]
    Name,
    #[error("no such escape")]
    Escape,
    #[error("these are no hexadecimal digits")]
    Digits,
    #[error("out of memory")]
    NoMemory,
}

impl From<AllocError> for RowFault {
    fn from(_error: AllocError) -> RowFault {
        RowFault::NoMemory
    }
}
