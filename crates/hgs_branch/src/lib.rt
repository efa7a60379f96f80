//! The branches of changesets, and the heads of each.
#![tactic(auto)]

mod bits;
pub mod changeset;
mod course;
pub mod extras;
pub mod heads;
pub mod laws;
mod print;
mod reach;
