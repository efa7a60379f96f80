//! Files in memory on a disk whose power may fail.
#![tactic(auto)]

pub mod disk;
pub mod file;
pub mod laws;
pub mod left;
pub mod names;
#[cfg(test)]
mod tests;
