//! The text of a file revision: a metadata block, which may be missing, and the body.
#![tactic(auto)]

pub mod file_text;
