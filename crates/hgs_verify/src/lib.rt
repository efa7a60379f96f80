//! What `verify` reads of a store's files, and what it finds there.
#![tactic(auto)]

pub mod adding;
pub mod batch;
pub mod filelog;
pub mod inline;
pub mod judging;
pub mod laws;
pub mod progress;
pub mod report;
pub mod revlog;
pub mod store;
pub mod task;
pub mod texts;
pub mod walk;
pub mod whole;
