//! Why a command that writes is refused, in the repository's words, and that nothing else keeps it from being done.
#![tactic(auto)]

pub mod laws;
