//! A repository in memory with one writer and some readers, and what happens to it, one event after another.
#![tactic(auto)]

pub mod book;
pub mod laws;
pub mod parts;
pub mod questions;
pub mod reading;
pub mod seen;
pub mod state;
pub mod texts;
pub mod working;
pub mod world;
