//! What `verify` finds of a whole store, from what was read of it, and that nothing else is found.
#![tactic(auto)]

pub mod laws;
pub mod lines;
pub mod lists;
pub mod logs;
pub mod names;
pub mod sets;
pub mod small;
pub mod store;
pub mod tracked;
pub mod working;
