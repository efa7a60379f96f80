//! Sets of revisions: how they are written, and which changesets they hold.
#![tactic(auto)]

pub mod fault;
pub mod grammar;
pub mod laws;
pub mod read;
pub mod set;
pub mod step;
