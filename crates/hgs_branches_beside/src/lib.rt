//! The heads of branches beside writers.
#![tactic(auto)]

pub mod laws;
