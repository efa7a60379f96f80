//! Bytes and lists of bytes as contracts see them, and the words that every crate says of texts.
#![tactic(auto)]

pub mod bytes;
pub mod names;
pub mod parts;
