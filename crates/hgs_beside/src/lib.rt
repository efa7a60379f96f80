//! Sessions over a reading end of shared files, to which a writer of the repository adds meanwhile, and sessions of workers over both ends.
#![tactic(auto)]

pub mod load;
pub mod workers;
