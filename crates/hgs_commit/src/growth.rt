//! What a text becomes in a revlog, and what is appended to the revlog's two files.
ghost use Rattle.std.specs.Prelude.{◌≡◌, ◌<◌, ◌^◌, false, length, IfOk, IfSome};
ghost use Rattle.std.specs.Option.{option_copied};
ghost use Rattle.hgs_bytes.specs.Answer.{Gives};
ghost use Rattle.hgs_index.specs.Revision.{parent_node};
ghost use Rattle.hgs_revlog.specs.Add.{added, entry_with, next_entry, IsChunkOf};
ghost use Rattle.hgs_revlog.specs.Fault.{is_memory};
ghost use Rattle.hgs_revlog.specs.Log.{nodes_of};
ghost use Rattle.hgs_commit.specs.Revised.{Fits, revised};

use crate::hindrance_kind::Hindrance;
use hgs_bytes::bytes::Bytes;
use hgs_index::node::{Node, node_of};
use hgs_revlog::add::Added;
use hgs_revlog::fault::RevFault;
use hgs_revlog::laws::new_revision;
use hgs_revlog::revlog::Revlog;

/// What a text became.
#[derive(Debug, Drop)]
pub enum Became {
    /// This revision stands already, and is used again.
    Standing(u32),
    /// What is written of the new revision.
    New { entry: [u8; 64], chunk: Bytes },
    Hindered(Hindrance),
}

/// A text with its node in a revlog.
#[derive(Debug, Drop)]
pub struct Revised {
    pub node: Node,
    pub became: Became,
}

// The node of a parent, the null node where there is none.
fn parent_node(log: &Revlog, parent: Option<u32>) -> Node
    requires { IfSome parent (λ rev. rev < length log.now.entries) }
    ensures { result.0 ≡ parent_node (nodes_of log.now.entries) parent }
{
    match parent {
        Some(rev) => log.entry(rev).node,
        None => Node([0; 20]),
    }
}

/// The node of a text with these parents.
pub fn node_for(log: &Revlog, text: &[u8], p1: Option<u32>, p2: Option<u32>) -> Node
    requires first { IfSome p1 (λ rev. rev < length log.now.entries) }
    requires second { IfSome p2 (λ rev. rev < length log.now.entries) }
    ensures { result.0 ≡ (next_entry log.now.entries (record { text = text.now; parents = (p1, p2); link = 0 })).node.0 }
{
    node_of(&parent_node(log, p1), &parent_node(log, p2), text)
}

/// What a text with these parents and this link becomes in a revlog. `standing` is the chunk of the revision that has the
/// node already, given exactly where there is one; a fault is that of this chunk, or want of memory.
pub fn revise(
    log: &Revlog,
    text: &[u8],
    p1: Option<u32>,
    p2: Option<u32>,
    link: u32,
    standing: Option<&[u8]>,
) -> Result<Revised, RevFault>
    requires first { IfSome p1 (λ rev. rev < length log.now.entries) }
    requires second { IfSome p2 (λ rev. rev < length log.now.entries) }
    requires link { link < 2 ^ 31 }
    requires standing { IsChunkOf (entry_with log.now.entries (next_entry log.now.entries (record { text = text.now; parents = (p1, p2); link = link })).node.0) (option_copied standing) }
    ensures fits { log.now.inline ≡ false → IfOk result (λ r. Fits log.now r.node r.became) }
    ensures revised { Gives is_memory (λ revised. revised) result (revised log.now (record { text = text.now; parents = (p1, p2); link = link }) (added log.now (record { text = text.now; parents = (p1, p2); link = link }) (option_copied standing.entry))) }
{
    new_revision();
    let became = match log.add(text, p1, p2, link, standing) {
        Ok(Added::New { entry, chunk, node }) => {
            return Ok(Revised {
                node,
                became: Became::New { entry, chunk },
            });
        }
        Ok(Added::Old(rev)) => Became::Standing(rev),
        Err(RevFault::Collision(rev)) => Became::Hindered(Hindrance::Collision(rev)),
        Err(RevFault::Limit(which)) => Became::Hindered(Hindrance::Limit(which)),
        Err(fault) => return Err(fault),
    };
    Ok(Revised {
        node: node_for(log, text, p1, p2),
        became,
    })
}
