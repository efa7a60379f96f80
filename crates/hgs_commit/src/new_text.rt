//! What the text of a new revision became.

use crate::appended::Growth;
use hgs_index::node::Node;

/// What the text of a new revision became: a revision that stands, a new one, or none, where something was met that keeps
/// it from being written.
#[derive(Drop)]
pub struct NewText {
    pub node: Node,
    /// The revision that it is already.
    pub standing: Option<u32>,
    pub growth: Option<Growth>,
}
