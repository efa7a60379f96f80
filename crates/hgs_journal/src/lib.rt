//! The journal of an open transaction, the list of its backups, and the operations that undo it.
#![tactic(auto)]

pub mod backups;
pub mod examples;
pub mod fault;
pub mod journal;
pub mod laws;
pub mod names;
mod offset;
mod print;
pub mod undo;
