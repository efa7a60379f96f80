//! A line of a followed history, and the order of lines.
use hgs_bytes::bytes::Bytes;
use hgs_index::node::Node;
use std::cmp::Reverse;

/// A file revision that was reached. The later changeset comes first, then the path that is less by its bytes.
#[derive(Debug, PartialEq, Eq, PartialOrd, Ord, Drop)]
pub struct Line {
    /// The changeset that made it.
    pub link: Reverse<u32>,
    pub path: Bytes,
    /// Its number in the filelog.
    pub rev: u32,
    pub node: Node,
}
