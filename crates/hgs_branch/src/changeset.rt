//! What branch heads ask of a changeset.

use hgs_bytes::bytes::Bytes;

/// A changeset that is taken: its parents and the name of its branch.
#[derive(Debug, Drop)]
pub struct OnBranch {
    pub p1: Option<u32>,
    pub p2: Option<u32>,
    pub branch: Bytes,
}
