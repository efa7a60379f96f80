//! A session that keeps the texts of the manifests that were used last, so that a question about one of them does not read it
//! again.
#![tactic(auto)]

pub mod laws;
mod manifest;
pub mod session;
pub mod texts;
