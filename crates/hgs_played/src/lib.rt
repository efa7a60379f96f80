//! What a play shows of the headline: its log, the commands that it has published, and the views that its readers load.
#![tactic(auto)]

pub mod examples;
pub mod laws;
