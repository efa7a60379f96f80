//! The revision of each node.
ghost use Rattle.std.specs.Prelude.{◌≡◌, ◌≤◌, length, List, ℕ, IfOk};
ghost use Rattle.std.specs.BTreeMap.{get};
ghost use Rattle.std.specs.Cmp.Lexicographic.{slice_cmp};
ghost use Rattle.std.specs.Ordering.{nat_cmp};
ghost use Rattle.hgs_revlog.specs.Load.{most_revisions};

use crate::chains::Chains;
use hgs_index::entry::Entry;
use std::alloc::{AllocError, Global};
use std::collections::BTreeMap;

/// The revision of each node: of those that were there when an index was loaded by chains, of those that came since in a tree.
///
/// Whoever wrote the index chose the nodes, and may have chosen them so that chains are long: then all are in the tree.
#[derive(Drop)]
pub(crate) struct Places {
    chains: Chains,
    since: BTreeMap<[u8; 20], u32>,
}

// The same revisions once more.
fn copy_of(since: &BTreeMap<[u8; 20], u32>) -> Result<BTreeMap<[u8; 20], u32>, AllocError>
    ensures { IfOk result (λ copy. (node : List ℕ) → get (slice_cmp nat_cmp) copy node ≡ get (slice_cmp nat_cmp) since.now node) }
{
    Ok(since.clone()?)
}

impl Places {
    ghost use Rattle.std.specs.Prelude.{Some, None, if◌then◌else◌, IfSome, OnOk, OnErr};
    ghost use Rattle.std.specs.BTreeMap.{is_at};
    ghost use Rattle.hgs_index.specs.declared.entry.Entry.{Entry as IndexEntry};
    ghost use Rattle.hgs_revlog.specs.Chains.{AreChains};
    ghost use Rattle.hgs_revlog.specs.Log.{place_of};
    ghost use Rattle.hgs_revlog.specs.Places.{chained, place_in};

    pub(crate) fn new(alloc: Global) -> Places
        ensures chains { (entries : List IndexEntry) → AreChains result.chains (chained result entries) }
        ensures none { (entries : List IndexEntry) (node : List ℕ) → place_in result entries node ≡ None }
    {
        Places {
            chains: Chains::new(alloc),
            since: BTreeMap::new(alloc),
        }
    }

    /// The revisions of the nodes of these entries, or none where a node stands twice or a chain is long.
    ///
    /// The time is that of one pass.
    pub(crate) fn of(alloc: Global, entries: &[Entry]) -> Result<Option<Places>, AllocError>
        requires { length entries.now ≤ most_revisions }
        ensures chains { IfOk result (λ found. IfSome found (λ places. AreChains places.chains entries.now)) }
        ensures places { IfOk result (λ found. IfSome found (λ places. (node : List ℕ) → place_in places entries.now node ≡ place_of entries.now node)) }
    {
        match Chains::of(alloc, entries)? {
            Some(chains) => Ok(Some(Places {
                chains,
                since: BTreeMap::new(alloc),
            })),
            None => Ok(None),
        }
    }

    /// The revision that has this node, of these entries.
    pub(crate) fn get(&self, entries: &[Entry], node: &[u8; 20]) -> Option<u32>
        requires { AreChains self.now.chains (chained self.now entries.now) }
        ensures { result ≡ place_in self.now entries.now node.now }
    {
        match self.chains.find(&entries[..self.chains.len()], node) {
            Some(rev) => Some(rev),
            None => self.since.get(node).copied(),
        }
    }

    /// Gives a node that has none its revision. Changes nothing where there is no memory.
    pub(crate) fn put(&mut self, node: [u8; 20], rev: u32) -> Result<(), AllocError>
        ensures ok { OnOk result ((entries : List IndexEntry) (q : List ℕ) → place_in self.old entries node ≡ None → place_in self.new entries q ≡ (if is_at (slice_cmp nat_cmp node) q then Some rev else place_in self.old entries q)) }
        ensures chains { self.new.chains ≡ self.old.chains }
        ensures kept { OnErr result ((entries : List IndexEntry) (q : List ℕ) → place_in self.new entries q ≡ place_in self.old entries q) }
    {
        self.since.insert(node, rev)?;
        Ok(())
    }

    pub(crate) fn copy(&self) -> Result<Places, AllocError>
        ensures chains { IfOk result (λ copy. (entries : List IndexEntry) → AreChains self.now.chains (chained self.now entries) → AreChains copy.chains (chained copy entries)) }
        ensures places { IfOk result (λ copy. (entries : List IndexEntry) (node : List ℕ) → place_in copy entries node ≡ place_in self.now entries node) }
    {
        Ok(Places {
            chains: self.chains.copy()?,
            since: copy_of(&self.since)?,
        })
    }
}
