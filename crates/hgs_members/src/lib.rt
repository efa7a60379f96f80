//! The members of sets of revisions over a loaded repository, and how these are found.
#![tactic(auto)]

pub mod answer;
mod bits;
pub mod eval;
pub mod laws;
pub mod members;
mod operand;
mod passes;
pub mod text;
