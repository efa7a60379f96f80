//! One more revision.
ghost use Rattle.std.specs.Prelude.{◌≡◌, ◌<◌, ◌^◌, ◌≤◌, false, length, slice_get, IfOk, IfSome};
ghost use Rattle.std.specs.Option.{option_copied};
ghost use Rattle.hgs_bytes.specs.Answer.{Gives};
ghost use Rattle.hgs_index.specs.Revision.{same_parent, same_parents};
ghost use Rattle.hgs_index.specs.Revlog.{chunk_of};
ghost use Rattle.hgs_revlog.specs.Fault.{is_memory};
ghost use Rattle.hgs_revlog.specs.Log.{place_of};
ghost use Rattle.hgs_revlog.specs.Add.{added, added_new, matched, next_entry, parents_of, entry_with, IsChunkOf};
ghost use Rattle.hgs_revlog.specs.Text.{text_of};

use crate::fault::RevFault;
use crate::revlog::{MOST_DATA, MOST_REVISIONS, MOST_TEXT, Revlog};
use hgs_bytes::bytes::Bytes;
use hgs_bytes::parts::equal;
use hgs_index::entry::{Entry, Header, encode};
use hgs_index::kinds::Which;
use hgs_index::node::{Node, node_of};
use std::alloc::{AllocError, Global};

/// What a text became.
#[derive(Debug, Drop)]
pub enum Added {
    /// The revision stands already, with the same text and the same parents in either order.
    Old(u32),
    /// What is to be appended to the index and to the data file, or one behind the other to an inline index, and the new node.
    New {
        entry: [u8; 64],
        chunk: Bytes,
        node: Node,
    },
}

fn equal_parents(a: Option<u32>, b: Option<u32>) -> bool
    ensures { result ≡ same_parent a b }
{
    match (a, b) {
        (None, None) => true,
        (None, Some(_)) => false,
        (Some(_), None) => false,
        (Some(a), Some(b)) => a == b,
    }
}

// The chunk that is written of a text.
fn chunk_for(alloc: Global, text: &[u8]) -> Result<Bytes, AllocError>
    ensures { IfOk result (λ chunk. chunk ≡ chunk_of text.now) }
{
    let mut chunk = Vec::new(alloc);
    match text {
        [] => {}
        [0, ..] => {}
        [_, ..] => chunk.push(b'u')?,
    }
    chunk.extend_from_slice(text)?;
    Ok(Bytes::from_vec(chunk))
}

impl Revlog {
    /// The revision that has the node of a text with these parents, if there is one: `add` is given its chunk.
    pub fn standing(&self, text: &[u8], p1: Option<u32>, p2: Option<u32>) -> Option<u32>
        ensures place { result ≡ place_of self.now.entries (next_entry self.now.entries (record { text = text.now; parents = (p1, p2); link = 0 })).node.0 }
        ensures stands { IfSome result (λ rev. rev < length self.now.entries) }
    {
        self.rev_of(&node_of(&self.parent_node(p1), &self.parent_node(p2), text))
    }

    /// What a text with these parents and this link becomes as the next revision. Nothing changes.
    ///
    /// `standing` is the chunk of the revision that has the node already, given exactly where there is one. The node
    /// is taken from the text and the parents. That it is not the null node is not tested: no text is known whose node
    /// that is, and what the laws say of a new revision has it as a premise. The entry and the chunk are the same in either
    /// form, but that a first entry's header says it; in an inline revlog the chunk goes behind the entry.
    pub fn add(
        &self,
        text: &[u8],
        p1: Option<u32>,
        p2: Option<u32>,
        link: u32,
        standing: Option<&[u8]>,
    ) -> Result<Added, RevFault>
        requires first { IfSome p1 (λ rev. rev < length self.now.entries) }
        requires second { IfSome p2 (λ rev. rev < length self.now.entries) }
        requires link { link < 2 ^ 31 }
        requires standing { IsChunkOf (entry_with self.now.entries (next_entry self.now.entries (record { text = text.now; parents = (p1, p2); link = link })).node.0) (option_copied standing) }
        ensures { Gives is_memory (λ what. what) result (added self.now (record { text = text.now; parents = (p1, p2); link = link }) (option_copied standing.entry)) }
    {
        let node = node_of(&self.parent_node(p1), &self.parent_node(p2), text);
        match self.rev_of(&node) {
            None => self.added_new(text, p1, p2, link, node),
            Some(rev) => self.matched(rev, standing.unwrap_or(&[]), text, p1, p2),
        }
    }

    // Whether this is the revision that has its node.
    fn matched(
        &self,
        rev: u32,
        chunk: &[u8],
        text: &[u8],
        p1: Option<u32>,
        p2: Option<u32>,
    ) -> Result<Added, RevFault>
        requires stands { rev < length self.now.entries }
        requires within { IfSome (slice_get self.now.entries rev) (λ e. length chunk.now ≤ e.stored) }
        ensures { result ≡ matched self.now text.now (p1, p2) rev (text_of self.now.entries rev chunk.now) }
    {
        let found = self.text(rev, chunk)?;
        if equal(text, found) && self.has_parents(rev, p1, p2) {
            Ok(Added::Old(rev))
        } else {
            Err(RevFault::Collision(rev))
        }
    }

    // Whether a revision has these parents, in either order.
    fn has_parents(&self, rev: u32, p1: Option<u32>, p2: Option<u32>) -> bool
        requires { rev < length self.now.entries }
        ensures { result ≡ same_parents (p1, p2) (parents_of (slice_get self.now.entries rev)) }
    {
        let entry = self.entry(rev);
        (equal_parents(p1, entry.p1) && equal_parents(p2, entry.p2))
            || (equal_parents(p1, entry.p2) && equal_parents(p2, entry.p1))
    }

    // What is written of a revision whose node does not stand.
    fn added_new(
        &self,
        text: &[u8],
        p1: Option<u32>,
        p2: Option<u32>,
        link: u32,
        node: Node,
    ) -> Result<Added, RevFault>
        requires first { IfSome p1 (λ rev. rev < length self.now.entries) }
        requires second { IfSome p2 (λ rev. rev < length self.now.entries) }
        requires link { link < 2 ^ 31 }
        requires node { node ≡ (next_entry self.now.entries (record { text = text.now; parents = (p1, p2); link = link })).node }
        ensures { Gives is_memory (λ what. what) result (added_new self.now (record { text = text.now; parents = (p1, p2); link = link })) }
    {
        let base = self.len();
        if base >= MOST_REVISIONS {
            return Err(RevFault::Limit(Which::Changesets));
        }
        if text.len() > MOST_TEXT as usize {
            return Err(RevFault::Limit(Which::Text));
        }
        let chunk = chunk_for(self.allocator(), text)?;
        let offset = self.end();
        if offset + chunk.len() as u64 > MOST_DATA {
            return Err(RevFault::Limit(Which::Data));
        }
        let entry = Entry {
            offset,
            flags: 0,
            stored: chunk.len() as u32,
            size: text.len() as u32,
            base,
            link,
            p1,
            p2,
            node,
        };
        Ok(Added::New {
            entry: encode(&entry, self.header()),
            chunk,
            node,
        })
    }
}
