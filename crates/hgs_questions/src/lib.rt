//! One question of a session, answered over files that others may change meanwhile.
#![tactic(auto)]

mod answers;
pub mod ask;
mod tell;
