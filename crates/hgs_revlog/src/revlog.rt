//! A loaded index.
ghost use Rattle.std.specs.Prelude.{◌≡◌, ◌+◌, ◌<◌, ◌≤◌, ◌/◌, true, false, not, [], length, slice_get, Some, None, Ok, IfSome, IfOk, IfErr, IsOk, OnOk, OnErr};
ghost use Rattle.std.specs.Option.{option_map};
ghost use Rattle.std.specs.Result.{result_map_both};
ghost use Rattle.hgs_bytes.specs.Answer.{Gives};
ghost use Rattle.hgs_bytes.specs.Bytes.{same};
ghost use Rattle.hgs_index.specs.Inline.{is_inline};
ghost use Rattle.hgs_index.specs.Revision.{parent_node};
ghost use Rattle.hgs_index.specs.Revlog.{chunk_text};
ghost use Rattle.hgs_revlog.specs.declared.fault.RevFault.TheVariants.{Memory};
ghost use Rattle.hgs_revlog.specs.Fault.{is_memory};
ghost use Rattle.hgs_revlog.specs.Loaded.{HaveOwnNodes};
ghost use Rattle.hgs_revlog.specs.Log.{Log, place_of, nodes_of, new_header, stored_sum, with_entry};
ghost use Rattle.hgs_revlog.specs.Load.{loaded, load_from, loaded_either, cell_of, separate_at, is_taken, entry_behind, fault_of, is_above, ends_at, at_end, most_data, most_revisions, pushed};
ghost use Rattle.hgs_revlog.specs.Text.{span_in, span_of, node_with, text_of};

use crate::fault::{RevFault, Tail};
use crate::places::Places;
use hgs_index::entry::{Entry, EntryFault, Header, decode};
use hgs_index::inline::{is_inline, whole_item, without_inline};
use hgs_index::kinds::{Span, Which};
use hgs_index::node::{Node, node_of};
use std::alloc::{AllocError, Global};
use std::marker::Model;

pub(crate) const MOST_REVISIONS: u32 = 1_000_000;

pub(crate) const MOST_TEXT: u32 = 33_554_432;

pub(crate) const MOST_DATA: u64 = 0xffff_ffff_ffff;

/// The entries of a revlog, and the revision of each node.
#[derive(Drop)]
pub struct Revlog {
    inline: bool,
    entries: Vec<Entry>,
    /// The revision of each node.
    places: Places,
    /// Where the next chunk begins: the sum of the stored lengths.
    end: u64,
}

impl Model for Revlog {
    ghost use Rattle.hgs_revlog.specs.Log.{Log};

    ghost Value = { Log };

    ghost view = { λ a. record { inline = a.inline; entries = a.entries.items } };

    ghost use Rattle.hgs_revlog.specs.Indexed.{IsIndexed};

    ghost invariant = { IsIndexed };
}

fn above(rev: u32, parent: Option<u32>) -> bool
    ensures { result ≡ is_above rev parent }
{
    match parent {
        None => false,
        Some(parent) => rev <= parent,
    }
}

fn ends(tail: &Tail, entry: &Entry) -> bool
    ensures { result ≡ ends_at tail.now entry.now }
{
    match tail {
        Tail::Ignore => false,
        Tail::Refuse => false,
        Tail::Until(node) => entry.node == *node,
    }
}

// Whether an entry has no fault behind others, whose chunks end here, where none of them has its node.
fn fits(before: &[Entry], end: u64, entry: &Entry) -> bool
    requires few { length before.now < most_revisions }
    requires sum { end ≡ stored_sum before.now }
    requires short { end ≤ most_data }
    ensures faultless { result ≡ true → place_of before.now entry.now.node.0 ≡ None → fault_of before.now entry.now ≡ None }
    ensures short { result ≡ true → end + entry.now.stored ≤ most_data }
{
    let rev = before.len() as u32;
    if entry.offset != end || entry.size > MOST_TEXT {
        return false;
    }
    if above(rev, entry.p1) || above(rev, entry.p2) || Node([0; 20]) == entry.node {
        return false;
    }
    end + entry.stored as u64 <= MOST_DATA
}

// The entry that these bytes are behind others, where all is right with it but that one of them may have its node.
fn fitting_entry(before: &[Entry], end: u64, bytes: &[u8; 64]) -> Option<Entry>
    requires sum { end ≡ stored_sum before.now }
    requires short { end ≤ most_data }
    ensures few { IfSome result (λ entry. length before.now < most_revisions) }
    ensures behind { IfSome result (λ entry. place_of before.now entry.node.0 ≡ None → entry_behind before.now bytes.now ≡ Ok entry) }
    ensures short { IfSome result (λ entry. end + entry.stored ≤ most_data) }
{
    if before.len() >= MOST_REVISIONS as usize {
        return None;
    }
    match separate_entry(bytes, before.len() as u32) {
        Ok(entry) => {
            if fits(before, end, &entry) {
                Some(entry)
            } else {
                None
            }
        }
        Err(_) => None,
    }
}

/// Entries, and where their chunks end.
#[derive(Drop)]
struct Fitting {
    entries: Vec<Entry>,
    end: u64,
}

// The entries that an index has up to where its tail is, where all is right with each but that two may have one node.
fn fitting_entries(alloc: Global, index: &[u8], tail: Tail) -> Result<Option<Fitting>, AllocError>
    ensures few { IfOk result (λ found. IfSome found (λ fitting. length fitting.entries.items ≤ most_revisions)) }
    ensures sum { IfOk result (λ found. IfSome found (λ fitting. fitting.end ≡ stored_sum fitting.entries.items)) }
    ensures loads { IfOk result (λ found. IfSome found (λ fitting. HaveOwnNodes fitting.entries.items → loaded tail index.now ≡ Ok (record { inline = false; entries = fitting.entries.items }))) }
{
    let mut entries = Vec::with_capacity(alloc, index.len() / 64)?;
    let mut end = 0;
    let mut rest = index;
    while let Some((bytes, behind)) = rest.split_first_chunk::<64>() {
        let Some(entry) = fitting_entry(&entries, end, bytes) else {
            return Ok(None);
        };
        entries.push(entry)?;
        end += entry.stored as u64;
        if ends(&tail, &entry) {
            return Ok(Some(Fitting { entries, end }));
        }
        rest = behind;
    }
    if is_end(tail, rest) {
        Ok(Some(Fitting { entries, end }))
    } else {
        Ok(None)
    }
}

// Whether an index may end with these bytes, which are no whole entry.
fn is_end(tail: Tail, rest: &[u8]) -> bool
    ensures { (log : Log) → result ≡ true → at_end tail log rest.now ≡ Ok log }
{
    match tail {
        Tail::Ignore => true,
        Tail::Refuse => rest.is_empty(),
        Tail::Until(_) => false,
    }
}

// The same entries once more.
fn copy_of(alloc: Global, entries: &[Entry]) -> Result<Vec<Entry>, AllocError>
    ensures { IfOk result (λ copy. copy.items ≡ entries.now) }
{
    let mut copy = Vec::new(alloc);
    copy.extend_from_slice(entries)?;
    Ok(copy)
}

impl Revlog {
    /// A revlog without revisions. Takes no memory.
    pub fn empty(alloc: Global, inline: bool) -> Revlog
        ensures { result ≡ record { inline = inline; entries = [] } }
    {
        Revlog {
            inline,
            entries: Vec::new(alloc),
            places: Places::new(alloc),
            end: 0,
        }
    }

    /// The revlog of a separate index, or its first fault in the order of revisions.
    ///
    /// An inline one is refused for its header. The index is not copied. The time is that of sorting the nodes; an index with a
    /// fault is read twice.
    pub fn load(alloc: Global, index: &[u8], tail: Tail) -> Result<Revlog, RevFault>
        ensures { Gives is_memory (λ log. log) result (loaded tail index.now) }
    {
        match Revlog::load_faultless(alloc, index, tail) {
            Ok(Some(log)) => Ok(log),
            Ok(None) => Revlog::empty(alloc, false).load_on(index, tail),
            Err(_) => Err(RevFault::Memory),
        }
    }

    // The revlog of a separate index without fault.
    fn load_faultless(alloc: Global, index: &[u8], tail: Tail) -> Result<Option<Revlog>, AllocError>
        ensures { IfOk result (λ found. IfSome found (λ log. loaded tail index.now ≡ Ok log)) }
    {
        let Some(fitting) = fitting_entries(alloc, index, tail)? else {
            return Ok(None);
        };
        let Some(places) = Places::of(alloc, &fitting.entries)? else {
            return Ok(None);
        };
        let Fitting { entries, end } = fitting;
        Ok(Some(Revlog {
            inline: false,
            entries,
            places,
            end,
        }))
    }

    /// The revlog with the entries of these bytes behind its own, or their first fault. The bytes are those of a separate
    /// index behind the entries that it has.
    pub fn load_on(self, index: &[u8], tail: Tail) -> Result<Revlog, RevFault>
        ensures { Gives is_memory (λ log. log) result (load_from tail (length index.now / 64) self index.now) }
    {
        let mut log = self;
        let mut rest = index;
        while let Some((bytes, behind)) = rest.split_first_chunk::<64>() {
            let entry = match log.take_entry(bytes) {
                Ok(entry) => entry,
                Err(fault) => return Err(fault),
            };
            if ends(&tail, &entry) {
                return Ok(log);
            }
            rest = behind;
        }
        log.ended(tail, rest)
    }

    /// The revlog of an index of either form, as its header says. An entry whose chunk is cut is no whole one.
    pub fn load_either(alloc: Global, index: &[u8], tail: Tail) -> Result<Revlog, RevFault>
        ensures { Gives is_memory (λ log. log) result (loaded_either tail index.now) }
    {
        if is_inline(index) {
            Revlog::load_inline(alloc, index, tail)
        } else {
            Revlog::load(alloc, index, tail)
        }
    }

    // The revlog of an inline index.
    fn load_inline(alloc: Global, index: &[u8], tail: Tail) -> Result<Revlog, RevFault>
        requires { is_inline index.now ≡ true }
        ensures { Gives is_memory (λ log. log) result (loaded_either tail index.now) }
    {
        let mut log = Revlog::empty(alloc, true);
        let mut rest = index;
        while let Some((bytes, behind)) = whole_item(rest) {
            let cell = log.cell(bytes);
            let entry = match log.take_entry(&cell) {
                Ok(entry) => entry,
                Err(fault) => return Err(fault),
            };
            if ends(&tail, &entry) {
                return Ok(log);
            }
            rest = behind;
        }
        Revlog::ended(log, tail, rest)
    }

    // An entry of an inline index as the next one of a separate index.
    fn cell(&self, bytes: &[u8; 64]) -> [u8; 64]
        ensures { result ≡ cell_of self.now.entries bytes.now }
    {
        if self.entries.is_empty() {
            without_inline(bytes)
        } else {
            *bytes
        }
    }

    // What is answered where no whole entry is left.
    fn ended(self, tail: Tail, rest: &[u8]) -> Result<Revlog, RevFault>
        ensures { result ≡ at_end tail self rest.now }
    {
        match tail {
            Tail::Ignore => Ok(self),
            Tail::Refuse => {
                if rest.is_empty() {
                    Ok(self)
                } else {
                    Err(RevFault::Tail(self.len()))
                }
            }
            Tail::Until(_) => Err(RevFault::Missing),
        }
    }

    /// Takes as the next revision the entry that `add` gave, and changes nothing where there is no memory.
    pub fn push(&mut self, entry: &[u8; 64]) -> Result<(), RevFault>
        requires { IsOk (entry_behind self.old.entries entry.now) }
        ensures ok { OnOk result (Ok self.new ≡ pushed self.old entry.now) }
        ensures err { IfErr result (λ fault. fault ≡ Memory) }
        ensures kept { OnErr result (self.new ≡ self.old) }
    {
        let entry = self.next_entry(entry)?;
        self.append(entry)
    }

    // Takes an entry without fault as the next one, or changes nothing where there is no memory.
    fn append(&mut self, entry: Entry) -> Result<(), RevFault>
        requires few { length self.old.entries < most_revisions }
        requires faultless { fault_of self.old.entries entry ≡ None }
        ensures ok { OnOk result (self.new ≡ with_entry self.old entry) }
        ensures err { IfErr result (λ fault. fault ≡ Memory) }
        ensures kept { OnErr result (self.new ≡ self.old) }
    {
        let rev = self.entries.len() as u32;
        self.entries.push(entry)?;
        match self.places.put(entry.node.0, rev) {
            Ok(()) => {
                self.end += entry.stored as u64;
                Ok(())
            }
            Err(_) => {
                self.entries.pop();
                Err(RevFault::Memory)
            }
        }
    }

    // Takes the entry that these bytes are as the next one, or answers its first fault.
    fn take_entry(&mut self, bytes: &[u8; 64]) -> Result<Entry, RevFault>
        ensures answer { Gives is_memory (λ entry. entry) result (entry_behind self.old.entries bytes.now) }
        ensures taken { IfOk result (λ entry. self.new ≡ with_entry self.old entry) }
    {
        let entry = self.next_entry(bytes)?;
        match self.append(entry) {
            Ok(()) => Ok(entry),
            Err(fault) => Err(fault),
        }
    }

    /// The same revlog once more.
    pub fn copy(&self) -> Result<Revlog, AllocError>
        ensures { IfOk result (λ copy. copy ≡ self.now) }
    {
        Ok(Revlog {
            inline: self.inline,
            entries: copy_of(self.allocator(), &self.entries)?,
            places: self.places.copy()?,
            end: self.end,
        })
    }

    // Where what is written of a revision takes its memory.
    pub(crate) fn allocator(&self) -> Global {
        *self.entries.allocator()
    }

    /// The entries of its revisions.
    pub fn entries(&self) -> &[Entry]
        ensures { result.now ≡ self.now.entries }
    {
        &self.entries
    }

    /// How many revisions there are.
    pub fn len(&self) -> u32
        ensures { result ≡ length self.now.entries }
    {
        self.entries.len() as u32
    }

    /// The entry of a revision.
    pub fn entry(&self, rev: u32) -> &Entry
        requires { rev < length self.now.entries }
        ensures { slice_get self.now.entries rev ≡ Some result.now }
    {
        &self.entries[rev as usize]
    }

    /// The revision that has this node.
    pub fn rev_of(&self, node: &Node) -> Option<u32>
        ensures { result ≡ place_of self.now.entries node.now.0 }
    {
        self.places.get(&self.entries, &node.0)
    }

    /// Whether the chunks stand in the index, each behind its entry.
    pub fn is_inline(&self) -> bool
        ensures { result ≡ self.now.inline }
    {
        self.inline
    }

    /// Where the chunk of a revision stands among all chunks, and so in the data file of a separate revlog, in bytes.
    pub fn text_span(&self, rev: u32) -> Span
        requires { rev < length self.now.entries }
        ensures { option_map span_of (slice_get self.now.entries rev) ≡ Some result }
    {
        let entry = self.entry(rev);
        Span {
            from: entry.offset,
            len: entry.stored as u64,
        }
    }

    /// Where the chunk of a revision stands in its file, in bytes: in the data file, or in the index of an inline revlog.
    pub fn span_in_file(&self, rev: u32) -> Span
        requires { rev < length self.now.entries }
        ensures { option_map (span_in self.now.inline rev) (slice_get self.now.entries rev) ≡ Some result }
    {
        let entry = self.entry(rev);
        let entries = if self.inline { rev as u64 + 1 } else { 0 };
        Span {
            from: entry.offset + 64 * entries,
            len: entry.stored as u64,
        }
    }

    // Where the next chunk begins.
    pub(crate) fn end(&self) -> u64
        ensures sum { result ≡ stored_sum self.now.entries }
        ensures fits { result ≤ most_data }
    {
        self.end
    }

    // What the entry of the next revision begins with: the header, in the first one.
    pub(crate) fn header(&self) -> Option<Header>
        ensures { result ≡ new_header self.now }
    {
        if self.entries.is_empty() {
            Some(Header {
                inline: self.inline,
                generaldelta: false,
            })
        } else {
            None
        }
    }

    // The node of a parent; the null node where there is none.
    pub(crate) fn parent_node(&self, parent: Option<u32>) -> Node
        ensures { result.0 ≡ parent_node (nodes_of self.now.entries) parent }
    {
        match parent {
            None => Node([0; 20]),
            Some(rev) => match self.entries.get(rev as usize) {
                None => Node([0; 20]),
                Some(entry) => entry.node,
            },
        }
    }

    // Whether the node is another than that of the text with the entry's parents.
    fn has_other_hash(&self, entry: &Entry, text: &[u8]) -> bool
        ensures { result ≡ not (same (node_with self.now.entries entry.now text.now) entry.now.node.0) }
    {
        let first = self.parent_node(entry.p1);
        let second = self.parent_node(entry.p2);
        node_of(&first, &second, text) != entry.node
    }

    /// The text of a revision in the bytes that were read at its span, or the first fault.
    ///
    /// Fewer bytes than the span are refused as `Short`. The text is a part of the chunk and is not copied.
    pub fn text<'a>(&self, rev: u32, chunk: &'a [u8]) -> Result<&'a [u8], RevFault>
        requires stands { rev < length self.now.entries }
        requires within { IfSome (slice_get self.now.entries rev) (λ e. length chunk.now ≤ e.stored) }
        ensures { result_map_both (λ text. text.now) (λ fault. fault) result ≡ text_of self.now.entries rev chunk.now }
    {
        let entry = self.entry(rev);
        if entry.flags != 0 {
            return Err(RevFault::Flagged(rev));
        }
        if entry.base != rev {
            return Err(RevFault::Delta(rev));
        }
        if chunk.len() < entry.stored as usize {
            return Err(RevFault::Short(rev));
        }
        let text = match plain_text(chunk) {
            None => return Err(RevFault::Compressed(rev)),
            Some(text) => text,
        };
        if text.len() != entry.size as usize {
            return Err(RevFault::Length(rev));
        }
        if self.has_other_hash(entry, text) {
            return Err(RevFault::Hash(rev));
        }
        Ok(text)
    }

    // Whether a revision has this node. None has the null node, so it counts as taken.
    fn is_node_taken(&self, node: &Node) -> bool
        ensures { result ≡ is_taken self.now.entries node.now.0 }
    {
        Node([0; 20]) == *node || self.rev_of(node).is_some()
    }

    // The first fault of an entry as the next one.
    fn fault(&self, entry: &Entry) -> Option<RevFault>
        ensures { result ≡ fault_of self.now.entries entry.now }
    {
        let rev = self.len();
        if entry.offset != self.end {
            return Some(RevFault::Offset(rev));
        }
        if above(rev, entry.p1) || above(rev, entry.p2) {
            return Some(RevFault::Parent(rev));
        }
        if self.is_node_taken(&entry.node) {
            return Some(RevFault::Twice(rev));
        }
        if entry.size > MOST_TEXT {
            return Some(RevFault::Limit(Which::Text));
        }
        if entry.offset + entry.stored as u64 > MOST_DATA {
            return Some(RevFault::Limit(Which::Data));
        }
        None
    }

    // The entry that these bytes are as the next one, or its first fault.
    pub(crate) fn next_entry(&self, bytes: &[u8; 64]) -> Result<Entry, RevFault>
        ensures { result ≡ entry_behind self.now.entries bytes.now }
    {
        let rev = self.len();
        if rev >= MOST_REVISIONS {
            return Err(RevFault::Limit(Which::Changesets));
        }
        let entry = match separate_entry(bytes, rev) {
            Ok(entry) => entry,
            Err(fault) => return Err(RevFault::Entry(rev, fault)),
        };
        match self.fault(&entry) {
            None => Ok(entry),
            Some(fault) => Err(fault),
        }
    }
}

/// The entry that 64 bytes of a separate index are at this revision. Its header has no bit 16.
pub fn separate_entry(bytes: &[u8; 64], rev: u32) -> Result<Entry, EntryFault>
    ensures { result ≡ separate_at bytes.now rev }
{
    if rev == 0 && is_inline(bytes) {
        return Err(EntryFault::HeaderFlags);
    }
    decode(bytes, rev)
}

// The text in a chunk, none where it is compressed.
fn plain_text(chunk: &[u8]) -> Option<&[u8]>
    ensures { option_map (λ text. text.now) result ≡ chunk_text chunk.now }
{
    match chunk {
        [] => Some(chunk),
        [0, ..] => Some(chunk),
        [b'u', text @ ..] => Some(text),
        [_, ..] => None,
    }
}
