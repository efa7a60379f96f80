//! Bytes that several states of the files have together.
ghost use Rattle.std.specs.Prelude.{◌≡◌, take, IfOk};

use hgs_bytes::bytes::Bytes;
use hgs_bytes::parts::front;
use std::alloc::{AllocError, Global};
use std::marker::Model;
use std::sync::Arc;

/// Bytes with several owners, which nobody changes. A copy takes no memory.
#[derive(Drop)]
pub struct SharedBytes {
    bytes: Arc<Bytes>,
}

impl Model for SharedBytes {
    ghost use Rattle.std.specs.Prelude.{List, ℕ};
    ghost use Rattle.std.specs.Arc.{arc_value};

    ghost Value = { List ℕ };

    ghost view = { λ s. arc_value s.bytes };
}

impl SharedBytes {
    /// Takes the bytes over.
    pub fn new(alloc: Global, bytes: Bytes) -> Result<SharedBytes, AllocError>
        ensures { IfOk result (λ s. s ≡ bytes) }
    {
        Ok(SharedBytes {
            bytes: Arc::new(alloc, bytes)?,
        })
    }

    /// The first bytes, at most so many.
    pub fn first(&self, alloc: Global, most: usize) -> Result<SharedBytes, AllocError>
        ensures { IfOk result (λ s. s ≡ take most self.now) }
    {
        if self.bytes.len() <= most {
            return self.clone();
        }
        SharedBytes::new(
            alloc,
            Bytes::from_slice(alloc, front(self.bytes.as_slice(), most))?,
        )
    }

    pub fn get(&self) -> &Bytes
        ensures { result.now ≡ self.now }
    {
        &self.bytes
    }
}

impl Clone for SharedBytes {
    ghost is_clone = { λ a b. b ≡ a };

    fn clone(&self) -> Result<SharedBytes, AllocError> {
        Ok(SharedBytes {
            bytes: Arc::try_clone(&self.bytes)?,
        })
    }
}
