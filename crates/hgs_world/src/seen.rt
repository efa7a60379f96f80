//! What is seen of an event.
use std::alloc::{AllocError, AllocFailed};

/// What an event writes.
#[derive(Drop)]
pub enum Seen {
    /// This text.
    Text(Vec<u8>),
    /// Nothing more, since there was no memory.
    Memory,
}

/// There was no memory.
#[derive(Clone, Copy, Debug)]
pub struct NoMemory;

impl From<AllocError> for NoMemory {
    ghost from_gives = { λ _ e. Unit {0} };

    fn from(_: AllocError) -> NoMemory {
        NoMemory
    }
}

impl<T: Drop> From<AllocFailed<T>> for NoMemory {
    ghost from_gives = { λ _ e. Unit {0} };

    fn from(_: AllocFailed<T>) -> NoMemory {
        NoMemory
    }
}
