//! The text of a changeset: reading and printing it.
#![tactic(auto)]

pub mod date;
pub mod header;
pub mod print;
pub mod text;

pub use hgs_index::texts::ChangeFault;
