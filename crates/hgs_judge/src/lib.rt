//! What `verify` finds of one revlog and of one path, from bytes and from what the changesets say.
#![tactic(auto)]

pub mod apart;
pub mod changesets;
pub mod kinds;
pub mod laws;
pub mod path;
pub mod paths;
pub mod reading;
pub mod report;
mod search;
pub mod trees;
pub mod words;
