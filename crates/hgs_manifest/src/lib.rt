//! Manifests: the files of a changeset, by path.
#![tactic(auto)]

pub mod laws;
pub mod manifest;
pub mod place;
pub mod print;
pub mod read;

pub use hgs_index::kinds::Flag;
pub use hgs_index::texts::ManifestFault;
