//! Commands carried out over the files of a repository; and laws: what is planned of a commit is what the repository says of it, what a
//! call leaves is a piece of a legal log, and whose transaction it publishes.
#![tactic(auto)]

pub mod answers;
pub mod begin;
pub mod commit_laws;
pub mod import;
pub mod import_laws;
mod joined;
pub mod laws;
pub mod loaded;
mod paths;
pub mod piece_laws;
pub mod plan;
pub mod turn_laws;
pub mod write;
