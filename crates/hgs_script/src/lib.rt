//! Reading the script of a session: the jobs of workers who run at the same time. And the text of what came of it.
#![tactic(auto)]

pub mod job;
pub mod laws;
mod line;
pub mod result;
pub mod script;
pub mod workers;
