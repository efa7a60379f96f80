//! Undoes a transaction that was left open, and removes what is left over of transactions.
#![tactic(auto)]

pub mod answer;
mod find;
pub mod laws;
mod leftovers;
pub mod recover;
mod undo;
