//! Entries in chains, by the first bytes of their nodes.
ghost use Rattle.std.specs.Prelude.{◌≡◌, ◌<◌, ◌≤◌, true, false, [], length, IfOk, IfSome};
ghost use Rattle.hgs_revlog.specs.Load.{most_revisions};
ghost use Rattle.hgs_revlog.specs.Chains.{AreChains, part_of};

use hgs_index::entry::Entry;
use std::alloc::{AllocError, Global};

/// No chain of nodes that are hashes is as long: there are more parts than entries.
const LONGEST: u32 = 32;

/// The last entry of each part of the nodes, and of each entry the one before it in its part: each as the number of entries
/// up to it, 0 where there is none.
#[derive(Drop)]
pub(crate) struct Chains {
    lasts: Vec<u32>,
    links: Vec<u32>,
}

// The part that a node belongs to, of so many.
fn part_of(node: &[u8; 20], parts: usize) -> usize
    requires { 0 < parts }
    ensures value { result ≡ part_of parts node.now }
    ensures within { result < parts }
{
    let (first, _) = node.split_at(4);
    u32::from_be_bytes([first[0], first[1], first[2], first[3]]) as usize % parts
}

impl Chains {
    ghost use Rattle.std.specs.Prelude.{◌++◌, ◌∷◌, slice_get, Some, None, Ok, take};
    ghost use Rattle.hgs_revlog.specs.Log.{place_of};
    ghost use Rattle.hgs_revlog.specs.Chains.{IsOn};

    /// The chains of no entries. Takes no memory.
    pub(crate) fn new(alloc: Global) -> Chains
        ensures { AreChains result [] }
    {
        Chains {
            lasts: Vec::new(alloc),
            links: Vec::new(alloc),
        }
    }

    /// The chains of these entries, or none where a node stands twice or a chain is long.
    pub(crate) fn of(alloc: Global, entries: &[Entry]) -> Result<Option<Chains>, AllocError>
        requires { length entries.now ≤ most_revisions }
        ensures { IfOk result (λ found. IfSome found (λ chains. AreChains chains entries.now)) }
    {
        let mut chains = Chains {
            lasts: vec![in alloc; 0; 2 * entries.len() + 1]?,
            links: Vec::with_capacity(alloc, entries.len())?,
        };
        while chains.len() < entries.len() {
            let rev = chains.len();
            if !chains.put(&entries[..rev], &entries[rev])? {
                return Ok(None);
            }
        }
        Ok(Some(chains))
    }

    /// How many entries are on chains.
    pub(crate) fn len(&self) -> usize
        ensures { result ≡ length self.now.links.items }
    {
        self.links.len()
    }

    // Puts an entry behind those that are on chains; false where one of them has its node or its chain is long.
    fn put(&mut self, known: &[Entry], entry: &Entry) -> Result<bool, AllocError>
        requires chains { AreChains self.old known.now }
        requires room { 0 < length self.old.lasts.items }
        requires few { length known.now < most_revisions }
        ensures chains { result ≡ Ok true → AreChains self.new (known.now ++ entry.now ∷ []) }
        ensures room { 0 < length self.new.lasts.items }
    {
        let part = part_of(&entry.node.0, self.lasts.len());
        let last = self.lasts[part];
        if self.is_long(last) || self.find_from(known, last, &entry.node.0).is_some() {
            return Ok(false);
        }
        self.links.push(last)?;
        self.lasts[part] = self.links.len() as u32;
        Ok(true)
    }

    // Whether a chain has more entries than those of hashes have.
    fn is_long(&self, last: u32) -> bool {
        let mut until = last;
        for _ in 0..LONGEST {
            if until == 0 {
                return false;
            }
            until = match self.links.get(until as usize - 1) {
                Some(link) => *link,
                None => 0,
            };
        }
        true
    }

    // The revision of a node among those up to here, from which on none of its part follows.
    fn find_from(&self, known: &[Entry], last: u32, node: &[u8; 20]) -> Option<u32>
        requires chains { AreChains self.now known.now }
        requires on { IsOn self.now known.now node.now last }
        ensures { result ≡ place_of known.now node.now }
    {
        let mut until = last;
        while until > 0 {
            let rev = until - 1;
            if known[rev as usize].node.0 == *node {
                return Some(rev);
            }
            until = self.links[rev as usize];
        }
        None
    }

    /// The revision of a node.
    pub(crate) fn find(&self, known: &[Entry], node: &[u8; 20]) -> Option<u32>
        requires { AreChains self.now known.now }
        ensures { result ≡ place_of known.now node.now }
    {
        if self.links.is_empty() {
            return None;
        }
        let part = part_of(node, self.lasts.len());
        self.find_from(known, self.lasts[part], node)
    }

    /// The same chains once more.
    pub(crate) fn copy(&self) -> Result<Chains, AllocError>
        ensures lasts { IfOk result (λ copy. copy.lasts.items ≡ self.now.lasts.items) }
        ensures links { IfOk result (λ copy. copy.links.items ≡ self.now.links.items) }
    {
        Ok(Chains {
            lasts: self.lasts.clone()?,
            links: self.links.clone()?,
        })
    }
}
