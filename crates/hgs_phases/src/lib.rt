//! Phases: which changesets are published, and the roots that the file `phaseroots` names.
#![tactic(auto)]

pub mod fault;
pub mod laws;
pub mod moved;
pub mod moves;
pub mod phases;
pub mod print;
pub mod roots;
