//! Reading what a command is given on its input: the record of a new changeset.
#![tactic(auto)]

mod apart;
pub mod fault;
mod head;
pub mod import;
pub mod input;
pub mod laws;
pub mod line;
pub mod number;
pub mod record;
mod tree;
