//! What a writer answers to a command, and how that is printed.
#![tactic(auto)]

pub mod answer;
pub mod outcome;
