//! The heads of branches of a session's history, kept up to date as it goes on.
#![tactic(auto)]

pub mod branches;
mod read;
mod window;
