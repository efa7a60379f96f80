//! Nodes, index entries, and the definitions of the texts that the history stands on.
#![tactic(auto)]

pub mod entry;
mod fields;
pub mod head;
pub mod inline;
pub mod kinds;
pub mod laws;
pub mod node;
pub mod texts;
