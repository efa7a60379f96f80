//! Sessions: workers that commit to a repository and ask it at the same time, over shared files.
#![tactic(auto)]

mod close;
pub mod desk;
pub mod gate;
pub mod history;
pub mod named;
pub mod naming;
pub mod noted;
mod room;
pub mod session;
pub mod worker;
