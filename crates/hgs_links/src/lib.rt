//! The links of revisions: to which changeset each revision of a history belongs, and what the links of an index's entries tell.
#![tactic(auto)]

pub mod examples;
pub mod laws;
