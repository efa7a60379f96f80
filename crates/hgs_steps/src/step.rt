//! Steps: what a command comes to.

use hgs_index::node::Node;
use hgs_transaction::parts::Parts;

/// What a command comes to: the parts of its transaction, and the changeset that it answers.
#[derive(Debug, Drop)]
pub struct Step {
    pub parts: Parts,
    pub rev: u32,
    pub node: Node,
}
