//! The top call: what the program does with its words, the place of its repository, its input and its output.
#![tactic(auto)]

pub mod alone;
pub mod ran;
pub mod run;
pub mod script;
pub mod session;

pub use hgs_top::words::asks_session;
