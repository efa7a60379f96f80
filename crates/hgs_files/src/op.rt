//! Operations on files.
use crate::path::StorePath;
use hgs_bytes::bytes::Bytes;

/// One change of the files, as a log has it.
#[derive(Debug, Drop)]
pub enum Op {
    /// Adds bytes at the end of a file, which it makes where it is absent.
    Append { path: StorePath, bytes: Bytes },
    /// Shortens a file that is longer than `len` bytes.
    Cut { path: StorePath, len: u64 },
    /// Gives a file another name, in place of what stood there.
    Rename { from: StorePath, to: StorePath },
    /// Takes a file away.
    Remove { path: StorePath },
    /// Makes a file of these bytes, or replaces it.
    Create { path: StorePath, bytes: Bytes },
    /// Makes the bytes of a file last; it changes no file.
    Sync { path: StorePath },
    /// Makes the names last; it changes no file.
    Settle,
}
