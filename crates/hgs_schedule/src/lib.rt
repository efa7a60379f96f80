//! Reading a schedule: what happens, one event after another, to a repository with one writer and some readers.
#![tactic(auto)]

pub mod event;
pub mod laws;
pub mod line;
mod number;
pub mod schedule;
