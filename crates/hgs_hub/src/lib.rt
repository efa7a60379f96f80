//! Files in memory that one end writes and many ends read meanwhile.
#![tactic(auto)]

pub mod book;
mod close;
pub mod front;
pub mod hub;
pub mod moment;
mod open;
pub mod reader;
pub mod rule;
pub mod show;
pub mod told;
pub mod writer;
