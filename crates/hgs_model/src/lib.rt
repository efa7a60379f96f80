//! The plain repository: changesets, phases, bookmarks and working parents, the revisions that they give, and what each
//! command makes of them.
//!
//! The repository itself stands in definitions alone. What code shares are the commands, why one is refused, and the
//! test of ancestors.
#![tactic(auto)]

pub mod ancestor;
pub mod answers;
pub mod changes;
pub mod command;
pub mod commits;
pub mod examples;
pub mod files;
pub mod history_laws;
pub mod imports;
pub mod laws;
pub mod names;
pub mod phase;

pub use hgs_index::kinds::Flag;
