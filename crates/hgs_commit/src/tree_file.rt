//! A file of the new tree.
ghost use Rattle.std.specs.Prelude.{◌≡◌, true};
ghost use Rattle.std.specs.Option.{ForSome};
ghost use Rattle.hgs_transaction.specs.declared.parts.Change.TheVariants.{Append};
ghost use Rattle.hgs_commit.specs.Appended.{is_beside};

use crate::appended::Growth;
use hgs_bytes::bytes::Bytes;
use hgs_index::kinds::Flag;
use hgs_index::node::Node;

/// A file of the new tree: its revision, whether the changeset lists it as changed, and what is appended of a new revision.
#[derive(Drop)]
pub struct TreeFile {
    pub path: Bytes,
    pub node: Node,
    pub flag: Flag,
    pub changed: bool,
    pub growth: Option<Growth>,
    /// Whether its filelog is new, so that the list of filelogs gets the names of its files.
    pub listed: bool,
    /// Whether its filelog is inline, and so has no data file.
    pub inline: bool,
    pub ghost growth_beside: { ForSome growth (λ g. is_beside (Append g.entry) ≡ true) },
}
