use desk_io::Memory;
use std::alloc::{AllocError, AllocFailed};

/// Why the cases are not tried to their end.
#[derive(Clone, Copy)]
pub enum Stop {
    /// A line is no line of a case.
    BadLine,
    /// There is no memory.
    Memory,
}

impl From<AllocError> for Stop {
    fn from(_: AllocError) -> Self {
        Stop::Memory
    }
}

impl<T: Drop> From<AllocFailed<T>> for Stop {
    fn from(_: AllocFailed<T>) -> Self {
        Stop::Memory
    }
}

impl From<Memory> for Stop {
    fn from(_: Memory) -> Self {
        Stop::Memory
    }
}
