//! Which paths are tracked, what a filelog's files are called in the store, and the list `fncache` of these names.
#![tactic(auto)]

pub mod check;
pub mod fncache;
pub mod grammar;
pub mod laws;
pub mod listed;
pub mod name;
mod owners;
mod parts;
mod spell;
