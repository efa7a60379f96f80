//! Files under what is to be written to them, as a reader would find both.
#![tactic(auto)]

pub mod laws;
pub mod layers;
pub mod overlay;
