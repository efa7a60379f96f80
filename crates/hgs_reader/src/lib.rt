//! A session over a loaded repository, and the questions that it answers, while others may write.
#![tactic(auto)]

pub mod contents;
pub mod find;
pub mod heads;
pub mod laws;
pub mod line;
pub mod names;
pub mod refusal;
pub mod session;
pub mod shown;
