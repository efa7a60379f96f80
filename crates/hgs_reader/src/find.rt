//! Texts that are known by their nodes.
ghost use Rattle.std.specs.Prelude.{◌≡◌, ◌<◌, ◌≤◌, ◌/◌, [], false, true, length, take, drop, slice_get, unwrap_or, Some, IfOk, IfSome};
ghost use Rattle.hgs_bytes.specs.Answer.{Gives};
ghost use Rattle.hgs_files.specs.Reads.{Grows};
ghost use Rattle.hgs_revlog.specs.declared.fault.Tail.TheVariants.{Until};
ghost use Rattle.hgs_revlog.specs.Load.{loaded, loaded_either, most_text};
ghost use Rattle.hgs_revlog.specs.Loaded.{HaveSmallTexts};
ghost use Rattle.hgs_revlog.specs.Log.{place_of};
ghost use Rattle.hgs_revlog.specs.Text.{text_of};
ghost use Rattle.hgs_load.specs.Answer.{is_of_outside, HasFaultCause, NeverFaults};
ghost use Rattle.hgs_load.specs.Asks.{Answers, answer, then_asks};
ghost use Rattle.hgs_load.specs.Beyond.{IsShown};
ghost use Rattle.hgs_load.specs.Given.{Takes};
ghost use Rattle.hgs_reader.specs.Find.{has_node, has_item, is_far, more_pieces, bytes_behind, text_answer, text_at_asks, placed_text, inline_text, inline_behind, separate_behind, text_asks};
ghost use Rattle.hgs_load.specs.View.{log_answer};
ghost use Rattle.hgs_reader.specs.Passed.{IsPassed, HasCome};

use hgs_bytes::bytes::Bytes;
use hgs_bytes::parts::{equal, front, past};
use hgs_files::files::Reads;
use hgs_files::path::StorePath;
use hgs_index::inline::{is_inline, whole_item};
use hgs_index::kinds::Span;
use hgs_index::node::Node;
use hgs_load::answer::ReadAnswer;
use hgs_load::ask::{bytes_of, read_part};
use hgs_load::pieces::{MOST_PIECES, PIECE};
use hgs_load::refusal::of_revlog;
use hgs_revlog::fault::{RevFault, Tail};
use hgs_revlog::laws::{either_form, loaded_entries};
use hgs_revlog::revlog::Revlog;
use std::alloc::{AllocError, Global};
use std::marker::Model;

/// As many pieces hold more than the chunks and the entries that a revlog may have.
const MOST_INLINE_PIECES: u64 = 0x2_0000_0000;

/// The two files of a revlog.
#[derive(Drop)]
pub struct RevlogPaths {
    pub index: StorePath,
    pub chunks: StorePath,
}

/// A text in the chunk that was read of it.
#[derive(Drop)]
pub struct StoredText {
    chunk: Bytes,
    /// Where the text begins.
    from: usize,
}

impl Model for StoredText {
    ghost use Rattle.std.specs.Prelude.{List, ℕ, drop};

    ghost Value = { List ℕ };

    ghost view = { λ t. drop t.from t.chunk };
}

impl StoredText {
    pub fn as_slice(&self) -> &[u8]
        ensures { result.now ≡ self.now }
    {
        past(self.chunk.as_slice(), self.from)
    }
}

// Whether an entry has this node.
fn has_node(piece: &[u8], node: &Node) -> bool
    ensures { result ≡ has_node node.now.0 (length piece.now / 64) piece.now }
{
    let mut rest = piece;
    while let Some((entry, behind)) = rest.split_first_chunk::<64>() {
        if equal(&entry[32..52], &node.0) {
            return true;
        }
        rest = behind;
    }
    false
}

/// What the search for a node has come to in an index that is read in pieces.
#[derive(Drop)]
enum Search {
    /// No further piece is read.
    Ended,
    /// The node may stand further on. Of an inline index the first so many bytes are whole entries and chunks without it.
    Passed(usize),
}

// Searches the whole entries of an inline index, of which the first so many bytes were passed before.
fn pass_items(bytes: &[u8], passed: usize, node: &Node) -> Search
    requires { IsPassed node.now.0 bytes.now passed }
    ensures { HasCome (has_item node.now.0 (length bytes.now) bytes.now) node.now.0 bytes.now result }
{
    let mut rest = past(bytes, passed);
    while let Some((entry, behind)) = whole_item(rest) {
        if equal(&entry[32..52], &node.0) {
            return Search::Ended;
        }
        // An entry whose stored length has its sign set may reach into a later piece, so the last one is not passed yet.
        if behind.is_empty() {
            break;
        }
        rest = behind;
    }
    Search::Passed(bytes.len() - rest.len())
}

// Searches the bytes of an index, of which the last piece is this, and the first so many were passed before.
fn search_piece(inline: bool, bytes: &[u8], passed: usize, piece: &[u8], node: &Node) -> Search
    requires { IsPassed node.now.0 bytes.now passed }
    ensures { HasCome (is_far inline node.now.0 bytes.now piece.now) node.now.0 bytes.now result }
{
    if (piece.len() as u64) < PIECE {
        return Search::Ended;
    }
    if inline {
        return pass_items(bytes, passed, node);
    }
    if has_node(piece, node) {
        Search::Ended
    } else {
        Search::Passed(passed)
    }
}

// How many pieces are read behind the first.
fn more_pieces(inline: bool) -> u64
    ensures { result ≡ more_pieces inline }
{
    if inline {
        MOST_INLINE_PIECES
    } else {
        MOST_PIECES as u64 - 1
    }
}

// Reads the pieces of an index behind the first, up to the one that has the node.
fn read_behind<R: Reads>(
    alloc: Global,
    files: &mut R,
    index: &StorePath,
    node: &Node,
    first: &[u8],
    inline: bool,
) -> Result<Vec<u8>, ReadAnswer>
    ensures answer { Answers (λ bytes. bytes.items) (R.seen files.old) (R.start files.old) (R.seen files.new) (bytes_behind inline index.now node.now.0 first.now) result }
    ensures given { Takes (λ bytes. bytes.items) (R.given files.old) (R.given files.new) (R.seen files.old) (R.start files.old) (R.seen files.new) (bytes_behind inline index.now node.now.0 first.now) result }
    ensures seen { Grows (R.seen files.old) (R.seen files.new) }
    ensures same_start { R.start files.new ≡ R.start files.old }
    ensures still { R.alone ≡ true → R.seen files.new ≡ R.seen files.old }
    ensures same_ties { R.ties files.new ≡ R.ties files.old }
    ensures shown { IsShown R.shows (R.start files.old) (R.seen files.old) → IsShown R.shows (R.start files.new) (R.seen files.new) }
    ensures cause { HasFaultCause (R.faults files.old) (R.faults files.new) (R.denied files.old) (R.denied files.new) result }
{
    let mut bytes = Vec::from_slice(alloc, first)?;
    let mut passed = match search_piece(inline, first, 0, first, node) {
        Search::Ended => return Ok(bytes),
        Search::Passed(passed) => passed,
    };
    let mut left = more_pieces(inline);
    while left > 0 {
        let part = read_part(alloc, files, index, bytes.len() as u64, PIECE)?;
        let piece = bytes_of(&part);
        bytes.extend_from_slice(piece)?;
        match search_piece(inline, &bytes, passed, piece, node) {
            Search::Ended => return Ok(bytes),
            Search::Passed(more) => passed = more,
        }
        left -= 1;
    }
    Ok(bytes)
}

// The revlog that these bytes of its index are up to the node.
fn log_from(
    alloc: Global,
    index: &StorePath,
    bytes: &[u8],
    node: &Node,
) -> Result<Revlog, ReadAnswer>
    ensures log { Gives is_of_outside (λ log. log) result (log_answer index.now (loaded (Until (record { 0 = node.now.0 })) bytes.now)) }
    ensures small { IfOk result (λ log. HaveSmallTexts log.entries) }
    ensures inner { NeverFaults result }
{
    loaded_entries();
    match Revlog::load(alloc, bytes, Tail::Until(*node)) {
        Ok(log) => Ok(log),
        Err(fault) => Err(of_revlog(alloc, index, fault)),
    }
}

// Reads a separate index, of which the first piece was read, up to the node, and no further.
fn load_behind<R: Reads>(
    alloc: Global,
    files: &mut R,
    index: &StorePath,
    node: &Node,
    first: &[u8],
) -> Result<Revlog, ReadAnswer>
    ensures answer { Answers (λ log. log) (R.seen files.old) (R.start files.old) (R.seen files.new) (then_asks (bytes_behind false index.now node.now.0 first.now) (λ bytes. answer (log_answer index.now (loaded (Until (record { 0 = node.now.0 })) bytes)))) result }
    ensures given { Takes (λ log. log) (R.given files.old) (R.given files.new) (R.seen files.old) (R.start files.old) (R.seen files.new) (then_asks (bytes_behind false index.now node.now.0 first.now) (λ bytes. answer (log_answer index.now (loaded (Until (record { 0 = node.now.0 })) bytes)))) result }
    ensures small { IfOk result (λ log. HaveSmallTexts log.entries) }
    ensures seen { Grows (R.seen files.old) (R.seen files.new) }
    ensures same_start { R.start files.new ≡ R.start files.old }
    ensures still { R.alone ≡ true → R.seen files.new ≡ R.seen files.old }
    ensures same_ties { R.ties files.new ≡ R.ties files.old }
    ensures shown { IsShown R.shows (R.start files.old) (R.seen files.old) → IsShown R.shows (R.start files.new) (R.seen files.new) }
    ensures cause { HasFaultCause (R.faults files.old) (R.faults files.new) (R.denied files.old) (R.denied files.new) result }
{
    match read_behind(alloc, files, index, node, first, false) {
        Ok(bytes) => log_from(alloc, index, &bytes, node),
        Err(refusal) => Err(refusal),
    }
}

// The text of a revision in its chunk.
fn text_in(
    alloc: Global,
    index: &StorePath,
    log: &Revlog,
    rev: u32,
    chunk: Option<Bytes>,
) -> Result<StoredText, ReadAnswer>
    requires stands { rev < length log.now.entries }
    requires within { IfSome (slice_get log.now.entries rev) (λ e. length (unwrap_or chunk []) ≤ e.stored) }
    ensures text { Gives is_of_outside (λ text. text) result (text_answer index.now (text_of log.now.entries rev (unwrap_or chunk []))) }
    ensures small { HaveSmallTexts log.now.entries → IfOk result (λ text. length text ≤ most_text) }
    ensures inner { NeverFaults result }
{
    let chunk = chunk.unwrap_or(Bytes::new(alloc));
    let from = match log.text(rev, chunk.as_slice()) {
        Ok(text) => chunk.len().saturating_sub(text.len()),
        Err(fault) => return Err(of_revlog(alloc, index, fault)),
    };
    Ok(StoredText { chunk, from })
}

/// Reads the chunk of a revision, and takes its text.
pub fn read_text<R: Reads>(
    alloc: Global,
    files: &mut R,
    paths: &RevlogPaths,
    log: &Revlog,
    rev: u32,
) -> Result<StoredText, ReadAnswer>
    requires { rev < length log.now.entries }
    ensures answer { Answers (λ text. text) (R.seen files.old) (R.start files.old) (R.seen files.new) (text_at_asks paths.now.index paths.now.chunks log.now (Some rev)) result }
    ensures given { Takes (λ text. text) (R.given files.old) (R.given files.new) (R.seen files.old) (R.start files.old) (R.seen files.new) (text_at_asks paths.now.index paths.now.chunks log.now (Some rev)) result }
    ensures small { HaveSmallTexts log.now.entries → IfOk result (λ text. length text ≤ most_text) }
    ensures seen { Grows (R.seen files.old) (R.seen files.new) }
    ensures same_start { R.start files.new ≡ R.start files.old }
    ensures still { R.alone ≡ true → R.seen files.new ≡ R.seen files.old }
    ensures same_ties { R.ties files.new ≡ R.ties files.old }
    ensures shown { IsShown R.shows (R.start files.old) (R.seen files.old) → IsShown R.shows (R.start files.new) (R.seen files.new) }
    ensures cause { HasFaultCause (R.faults files.old) (R.faults files.new) (R.denied files.old) (R.denied files.new) result }
{
    let span = log.text_span(rev);
    let chunk = read_part(alloc, files, &paths.chunks, span.from, span.len)?;
    match text_in(alloc, &paths.index, log, rev, chunk) {
        Ok(text) => Ok(text),
        Err(refusal) => Err(refusal),
    }
}

// Reads the text with this node in a revlog that is loaded.
fn text_in_log<R: Reads>(
    alloc: Global,
    files: &mut R,
    paths: &RevlogPaths,
    log: &Revlog,
    node: &Node,
) -> Result<StoredText, ReadAnswer>
    ensures answer { Answers (λ text. text) (R.seen files.old) (R.start files.old) (R.seen files.new) (text_at_asks paths.now.index paths.now.chunks log.now (place_of log.now.entries node.now.0)) result }
    ensures given { Takes (λ text. text) (R.given files.old) (R.given files.new) (R.seen files.old) (R.start files.old) (R.seen files.new) (text_at_asks paths.now.index paths.now.chunks log.now (place_of log.now.entries node.now.0)) result }
    ensures small { HaveSmallTexts log.now.entries → IfOk result (λ text. length text ≤ most_text) }
    ensures seen { Grows (R.seen files.old) (R.seen files.new) }
    ensures same_start { R.start files.new ≡ R.start files.old }
    ensures still { R.alone ≡ true → R.seen files.new ≡ R.seen files.old }
    ensures same_ties { R.ties files.new ≡ R.ties files.old }
    ensures shown { IsShown R.shows (R.start files.old) (R.seen files.old) → IsShown R.shows (R.start files.new) (R.seen files.new) }
    ensures cause { HasFaultCause (R.faults files.old) (R.faults files.new) (R.denied files.old) (R.denied files.new) result }
{
    match log.rev_of(node) {
        Some(rev) => read_text(alloc, files, paths, log, rev),
        None => Err(of_revlog(alloc, &paths.index, RevFault::Missing)),
    }
}

// Reads the text with this node of a separate revlog, of whose index the first piece was read.
fn separate_text<R: Reads>(
    alloc: Global,
    files: &mut R,
    paths: &RevlogPaths,
    node: &Node,
    first: &[u8],
) -> Result<StoredText, ReadAnswer>
    ensures answer { Answers (λ text. text) (R.seen files.old) (R.start files.old) (R.seen files.new) (separate_behind paths.now.index paths.now.chunks node.now.0 first.now) result }
    ensures given { Takes (λ text. text) (R.given files.old) (R.given files.new) (R.seen files.old) (R.start files.old) (R.seen files.new) (separate_behind paths.now.index paths.now.chunks node.now.0 first.now) result }
    ensures small { IfOk result (λ text. length text ≤ most_text) }
    ensures seen { Grows (R.seen files.old) (R.seen files.new) }
    ensures same_start { R.start files.new ≡ R.start files.old }
    ensures still { R.alone ≡ true → R.seen files.new ≡ R.seen files.old }
    ensures same_ties { R.ties files.new ≡ R.ties files.old }
    ensures shown { IsShown R.shows (R.start files.old) (R.seen files.old) → IsShown R.shows (R.start files.new) (R.seen files.new) }
    ensures cause { HasFaultCause (R.faults files.old) (R.faults files.new) (R.denied files.old) (R.denied files.new) result }
{
    match load_behind(alloc, files, &paths.index, node, first) {
        Ok(log) => text_in_log(alloc, files, paths, &log, node),
        Err(refusal) => Err(refusal),
    }
}

// The chunk of a revision in the bytes of an inline index.
fn chunk_placed(alloc: Global, bytes: &[u8], span: Span) -> Result<Bytes, AllocError>
    ensures chunk { IfOk result (λ chunk. chunk ≡ take span.len (drop span.from bytes.now)) }
{
    let behind = past(bytes, span.from as usize);
    Bytes::from_slice(alloc, front(behind, span.len as usize))
}

// The text of a revision in the bytes of an inline index.
fn placed_text(
    alloc: Global,
    index: &StorePath,
    bytes: &[u8],
    log: &Revlog,
    rev: u32,
) -> Result<StoredText, ReadAnswer>
    requires { rev < length log.now.entries }
    ensures text { Gives is_of_outside (λ text. text) result (placed_text index.now bytes.now log.now (Some rev)) }
    ensures small { HaveSmallTexts log.now.entries → IfOk result (λ text. length text ≤ most_text) }
    ensures inner { NeverFaults result }
{
    let chunk = chunk_placed(alloc, bytes, log.span_in_file(rev))?;
    text_in(alloc, index, log, rev, Some(chunk))
}

// The text with this node in the bytes of an inline index.
fn inline_text(
    alloc: Global,
    index: &StorePath,
    bytes: &[u8],
    node: &Node,
) -> Result<StoredText, ReadAnswer>
    ensures text { Gives is_of_outside (λ text. text) result (inline_text index.now node.now.0 bytes.now (loaded_either (Until (record { 0 = node.now.0 })) bytes.now)) }
    ensures small { IfOk result (λ text. length text ≤ most_text) }
    ensures inner { NeverFaults result }
{
    either_form();
    let log = match Revlog::load_either(alloc, bytes, Tail::Until(*node)) {
        Ok(log) => log,
        Err(fault) => return Err(of_revlog(alloc, index, fault)),
    };
    match log.rev_of(node) {
        Some(rev) => placed_text(alloc, index, bytes, &log, rev),
        None => Err(of_revlog(alloc, index, RevFault::Missing)),
    }
}

// Reads the text with this node of an inline revlog, of whose index the first piece was read.
fn inline_text_of<R: Reads>(
    alloc: Global,
    files: &mut R,
    index: &StorePath,
    node: &Node,
    first: &[u8],
) -> Result<StoredText, ReadAnswer>
    ensures answer { Answers (λ text. text) (R.seen files.old) (R.start files.old) (R.seen files.new) (inline_behind index.now node.now.0 first.now) result }
    ensures given { Takes (λ text. text) (R.given files.old) (R.given files.new) (R.seen files.old) (R.start files.old) (R.seen files.new) (inline_behind index.now node.now.0 first.now) result }
    ensures small { IfOk result (λ text. length text ≤ most_text) }
    ensures seen { Grows (R.seen files.old) (R.seen files.new) }
    ensures same_start { R.start files.new ≡ R.start files.old }
    ensures still { R.alone ≡ true → R.seen files.new ≡ R.seen files.old }
    ensures same_ties { R.ties files.new ≡ R.ties files.old }
    ensures shown { IsShown R.shows (R.start files.old) (R.seen files.old) → IsShown R.shows (R.start files.new) (R.seen files.new) }
    ensures cause { HasFaultCause (R.faults files.old) (R.faults files.new) (R.denied files.old) (R.denied files.new) result }
{
    match read_behind(alloc, files, index, node, first, true) {
        Ok(bytes) => inline_text(alloc, index, &bytes, node),
        Err(refusal) => Err(refusal),
    }
}

/// Reads the text with this node: the index up to the node, and its chunk, which in an inline revlog stands in the index.
pub fn text_of_node<R: Reads>(
    alloc: Global,
    files: &mut R,
    paths: &RevlogPaths,
    node: &Node,
) -> Result<StoredText, ReadAnswer>
    ensures answer { Answers (λ text. text) (R.seen files.old) (R.start files.old) (R.seen files.new) (text_asks paths.now.index paths.now.chunks node.now.0) result }
    ensures given { Takes (λ text. text) (R.given files.old) (R.given files.new) (R.seen files.old) (R.start files.old) (R.seen files.new) (text_asks paths.now.index paths.now.chunks node.now.0) result }
    ensures small { IfOk result (λ text. length text ≤ most_text) }
    ensures seen { Grows (R.seen files.old) (R.seen files.new) }
    ensures same_start { R.start files.new ≡ R.start files.old }
    ensures still { R.alone ≡ true → R.seen files.new ≡ R.seen files.old }
    ensures same_ties { R.ties files.new ≡ R.ties files.old }
    ensures shown { IsShown R.shows (R.start files.old) (R.seen files.old) → IsShown R.shows (R.start files.new) (R.seen files.new) }
    ensures cause { HasFaultCause (R.faults files.old) (R.faults files.new) (R.denied files.old) (R.denied files.new) result }
{
    let part = read_part(alloc, files, &paths.index, 0, PIECE)?;
    let first = bytes_of(&part);
    if is_inline(first) {
        match inline_text_of(alloc, files, &paths.index, node, first) {
            Ok(text) => Ok(text),
            Err(refusal) => Err(refusal),
        }
    } else {
        match separate_text(alloc, files, paths, node, first) {
            Ok(text) => Ok(text),
            Err(refusal) => Err(refusal),
        }
    }
}
