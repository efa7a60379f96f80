//! What a writing job of a session did.

use hgs_answers::answer::Answer;
use hgs_files::ends::Told;
use hgs_index::node::Node;

/// A job that writes, what it answered, the changeset that its transaction made or named, where one was planned, and what the writing
/// end had done then.
#[derive(Drop)]
pub struct Noted<F: Told> {
    pub worker: u32,
    pub job: u32,
    pub answer: Answer,
    pub changeset: Option<(u32, Node)>,
    pub front: F,
}
