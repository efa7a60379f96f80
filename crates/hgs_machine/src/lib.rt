//! Carries a transaction out over files, takes it back where it fails, and takes and releases the two locks of a writer.
#![tactic(auto)]

pub mod carry;
pub mod ended;
pub mod laws;
pub mod locks;
pub mod machine;
