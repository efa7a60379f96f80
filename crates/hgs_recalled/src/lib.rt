//! What a session that keeps texts of manifests answers while writers are at work.
#![tactic(auto)]

pub mod laws;
