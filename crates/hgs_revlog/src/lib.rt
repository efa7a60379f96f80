//! Revlogs over bytes: an index of 64-byte entries, and the chunks of the texts in a file of their own, or, inline, each behind its entry.
//!
//! Each text is stored whole (Mercurial's help page `internals.revlogs`).
#![tactic(auto)]

pub mod add;
mod chains;
pub mod fault;
pub mod laws;
mod places;
pub mod revlog;
