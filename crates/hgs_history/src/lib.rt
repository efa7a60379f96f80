//! The history of a session: the log of its writing end publishes the transactions of the jobs that its result lists, in their
//! order.
#![tactic(auto)]

pub mod examples;
pub mod laws;
pub mod question_laws;
