//! Puts a transaction together: from what it appends and what it replaces, its operations and those that undo it.
#![tactic(auto)]

pub mod assemble;
mod gathered;
pub mod laws;
pub mod parts;
mod puts;
