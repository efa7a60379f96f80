//! What can be read of a revlog: its revisions up to the first fault.
ghost use Rattle.std.specs.Prelude.{◌≡◌, ◌<◌, ◌≤◌, ◌*◌, false, ℕ, List, length, unwrap_or, IfOk, IfErr, IfSome, Ok, OnOk};
ghost use Rattle.hgs_bytes.specs.Answer.{Gives};
ghost use Rattle.hgs_index.specs.declared.entry.Entry.{Entry as IndexEntry};
ghost use Rattle.hgs_revlog.specs.Fault.{is_memory};
ghost use Rattle.hgs_revlog.specs.Held.{chunk_in};
ghost use Rattle.hgs_index.specs.Revlog.{chunk_text};
ghost use Rattle.hgs_model.specs.History.{text_at};
ghost use Rattle.hgs_revlog.specs.Loaded.{parents_in};
ghost use Rattle.hgs_revlog.specs.Log.{stored_sum};
ghost use Rattle.hgs_findings.specs.Sight.{place};
ghost use Rattle.hgs_findings.specs.Reading.{has_data_rest, has_index_rest};
ghost use Rattle.hgs_judge.specs.Read.{AreFirst, AreRead, links_in, revisions_in, IsEnd, IsRead, IsRefused, IsSound, KeepsLimits, is_refusal};

use hgs_bytes::parts::{front, past};
use hgs_index::entry::Entry;
use hgs_index::node::Node;
use hgs_revlog::fault::{RevFault, Tail};
use hgs_revlog::laws::places_of_nodes;
use hgs_revlog::revlog::Revlog;
use std::alloc::{AllocError, Global};

/// The revisions of a revlog before its first fault, and whether there is one.
#[derive(Drop)]
pub struct Reading {
    pub log: Revlog,
    pub broken: bool,
}

// The chunk of an entry, as far as the data has it.
pub(crate) fn chunk<'a>(entry: &Entry, data_bytes: &'a [u8]) -> &'a [u8]
    ensures { result.now ≡ chunk_in data_bytes.now entry.now }
{
    front(
        past(data_bytes, entry.offset as usize),
        entry.stored as usize,
    )
}

// The text that a chunk spells, or the chunk where it spells none.
fn plain(chunk: &[u8]) -> &[u8]
    ensures { result.now ≡ unwrap_or (chunk_text chunk.now) chunk.now }
{
    match chunk {
        [b'u', text @ ..] => text,
        whole => whole,
    }
}

// Whether a fault is no finding but a refusal.
fn is_refusal(fault: &RevFault) -> bool
    ensures { result ≡ is_refusal fault.now }
{
    matches!(fault, RevFault::Limit(_) | RevFault::Memory)
}

// Loads so many entries, which have no fault.
fn load_front(alloc: Global, index: &[u8], count: usize) -> Result<Revlog, RevFault>
    requires { 64 * count ≤ length index.now }
    ensures { (entries : List IndexEntry) → AreFirst index.now entries → length entries ≡ count → Gives is_memory (λ log. log) result (Ok (record { inline = false; entries = entries })) }
{
    Revlog::load(alloc, &index[..64 * count], Tail::Ignore)
}

// Loads all entries, or those before the first that has a fault.
fn load_sound(alloc: Global, index: &[u8]) -> Result<Reading, RevFault>
    ensures ok { IfOk result (λ r. IsEnd index.now r.log.entries r.broken) }
    ensures err { IfErr result (λ fault. IsRefused index.now fault) }
    ensures limits { OnOk result (KeepsLimits index.now) }
{
    let fault = match Revlog::load(alloc, index, Tail::Ignore) {
        Ok(log) => return Ok(Reading { log, broken: false }),
        Err(fault) => fault,
    };
    if is_refusal(&fault) {
        return Err(fault);
    }
    match load_front(alloc, index, fault.place() as usize) {
        Ok(log) => Ok(Reading { log, broken: true }),
        Err(fault) => Err(fault),
    }
}

// How many texts can be read before the first fault of one.
fn sound(log: &Revlog, data_bytes: &[u8]) -> u32
    ensures { IsSound log.now.entries data_bytes.now result }
{
    for rev in 0..log.len() {
        if log.text(rev, chunk(log.entry(rev), data_bytes)).is_err() {
            return rev;
        }
    }
    log.len()
}

/// Reads a revlog of these two files up to its first fault.
///
/// It is refused where the entries pass a limit, and for want of memory. An index with a fault is loaded up to three times.
pub fn read(alloc: Global, index: &[u8], data_bytes: &[u8]) -> Result<Reading, RevFault>
    ensures ok { IfOk result (λ r. IsRead index.now data_bytes.now r.log.entries r.broken) }
    ensures err { IfErr result (λ fault. IsRefused index.now fault) }
    ensures limits { OnOk result (KeepsLimits index.now) }
{
    let reading = match load_sound(alloc, index) {
        Ok(reading) => reading,
        Err(fault) => return Err(fault),
    };
    let count = sound(&reading.log, data_bytes);
    if count == reading.log.len() {
        return Ok(reading);
    }
    match load_front(alloc, index, count as usize) {
        Ok(log) => Ok(Reading { log, broken: true }),
        Err(fault) => Err(fault),
    }
}

impl Reading {
    /// The parents of each revision.
    pub fn parents(&self, alloc: Global) -> Result<Vec<(Option<u32>, Option<u32>)>, AllocError>
        ensures { IfOk result (λ parents. parents.items ≡ parents_in self.now.log.entries) }
    {
        let mut parents = Vec::with_capacity(alloc, self.log.len() as usize)?;
        for rev in 0..self.log.len() {
            let entry = self.log.entry(rev);
            parents.push((entry.p1, entry.p2))?;
        }
        Ok(parents)
    }

    /// The link of each revision.
    pub fn links(&self, alloc: Global) -> Result<Vec<u32>, AllocError>
        ensures { IfOk result (λ links. links.items ≡ links_in self.now.log.entries) }
    {
        let mut links = Vec::with_capacity(alloc, self.log.len() as usize)?;
        for rev in 0..self.log.len() {
            links.push(self.log.entry(rev).link)?;
        }
        Ok(links)
    }

    /// The text of a revision, in the data that it was read of. It is not hashed again.
    pub fn text<'a>(&self, rev: u32, data_bytes: &'a [u8]) -> &'a [u8]
        requires stands { rev < length self.now.log.entries }
        requires read { AreRead self.now.log.entries data_bytes.now }
        ensures { result.now ≡ text_at (revisions_in self.now.log.entries data_bytes.now) rev }
    {
        plain(chunk(self.log.entry(rev), data_bytes))
    }

    /// The revision that has this node.
    pub fn place(&self, node: &Node) -> Option<u32>
        ensures place { (data_bytes : List ℕ) → AreRead self.now.log.entries data_bytes → result ≡ place (revisions_in self.now.log.entries data_bytes) node.now.0 }
        ensures stands { IfSome result (λ rev. rev < length self.now.log.entries) }
    {
        places_of_nodes();
        self.log.rev_of(node)
    }

    // How many bytes the chunks take.
    fn stored(&self) -> u64
        ensures { result ≡ stored_sum self.now.log.entries }
    {
        let mut sum = 0;
        for rev in 0..self.log.len() {
            sum += self.log.entry(rev).stored as u64;
        }
        sum
    }

    /// Whether bytes stand behind the last whole entry of the index, where there is no fault.
    pub fn has_index_rest(&self, index: &[u8]) -> bool
        ensures { (data_bytes : List ℕ) → IsRead index.now data_bytes self.now.log.entries self.now.broken → result ≡ has_index_rest index.now data_bytes }
    {
        !self.broken && index.len() % 64 != 0
    }

    /// Whether bytes stand behind the last chunk of the data, where there is no fault.
    pub fn has_data_rest(&self, data_bytes: &[u8]) -> bool
        ensures { (index : List ℕ) → IsRead index data_bytes.now self.now.log.entries self.now.broken → result ≡ has_data_rest index data_bytes.now }
    {
        !self.broken && self.stored() < data_bytes.len() as u64
    }
}
