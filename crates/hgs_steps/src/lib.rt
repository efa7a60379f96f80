//! What a writer has loaded, and the steps that phase and bookmark commands make of it.
#![tactic(auto)]

pub mod commands;
pub mod fault;
pub mod laws;
pub mod loaded;
pub mod names;
pub mod replaced;
pub mod step;
