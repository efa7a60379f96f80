//! Revlogs, as they are loaded before more is appended to them.
ghost use Rattle.std.specs.Prelude.{◌≡◌, ◌≤◌, ◌*◌, ◌^◌, true, take, Ok, IfOk};
ghost use Rattle.hgs_bytes.specs.Answer.{Gives};
ghost use Rattle.hgs_files.specs.Reads.{Grows};
ghost use Rattle.hgs_files.specs.Tree.{bytes_at};
ghost use Rattle.hgs_revlog.specs.declared.fault.Tail.TheVariants.{Refuse};
ghost use Rattle.hgs_revlog.specs.Load.{loaded_either};
ghost use Rattle.hgs_revlog.specs.Loaded.{AreEntries};
ghost use Rattle.hgs_revlog.specs.Log.{stored_sum};
ghost use Rattle.hgs_load.specs.Answer.{is_of_outside, HasFaultCause, NeverFaults};
ghost use Rattle.hgs_load.specs.View.{log_answer, piece_length};
ghost use Rattle.hgs_loading.specs.Found.{Finds};
ghost use Rattle.hgs_loading.specs.Logs.{data_in, either_data_in, either_index_in, either_log_in, has_more, index_in};

use crate::whole::size_of;
use hgs_files::files::Reads;
use hgs_files::path::StorePath;
use hgs_index::inline::is_inline;
use hgs_load::answer::ReadAnswer;
use hgs_load::ask::{bytes_of, read_part};
use hgs_load::refusal::of_revlog;
use hgs_reader::find::RevlogPaths;
use hgs_revlog::fault::{RevFault, Tail};
use hgs_revlog::laws::either_form;
use hgs_revlog::revlog::Revlog;
use std::alloc::Global;

/// The bytes of one read of an index: 1,024 entries.
pub(crate) const PIECE: u64 = 65_536;

/// As many pieces hold more entries than a revlog may have.
pub(crate) const MOST_PIECES: u64 = 977;

/// More pieces than a list of bytes can have.
const ALL_PIECES: u64 = 0x1_0000_0000_0000;

// Reads an index in pieces, until one is shorter or as many were read as may be.
fn read_index<R: Reads>(
    alloc: Global,
    files: &mut R,
    index: &StorePath,
    pieces: u64,
) -> Result<Vec<u8>, ReadAnswer>
    requires { pieces ≤ 2 ^ 48 }
    ensures found { Finds (λ bytes. bytes.items) R.alone (R.seen files.new) (R.start files.new) (λ t. Ok (take (pieces * piece_length) (bytes_at t index.now))) result }
    ensures seen { Grows (R.seen files.old) (R.seen files.new) }
    ensures same_start { R.start files.new ≡ R.start files.old }
    ensures still { R.alone ≡ true → R.seen files.new ≡ R.seen files.old }
    ensures cause { HasFaultCause (R.faults files.old) (R.faults files.new) (R.denied files.old) (R.denied files.new) result }
{
    let mut bytes = Vec::new(alloc);
    let mut left = pieces;
    while left > 0 {
        let part = read_part(alloc, files, index, bytes.len() as u64, PIECE)?;
        let piece = bytes_of(&part);
        bytes.extend_from_slice(piece)?;
        if (piece.len() as u64) < PIECE {
            return Ok(bytes);
        }
        left -= 1;
    }
    Ok(bytes)
}

// Reads as much of an index as one of entries may have.
fn read_entries<R: Reads>(
    alloc: Global,
    files: &mut R,
    index: &StorePath,
) -> Result<Vec<u8>, ReadAnswer>
    ensures found { Finds (λ bytes. bytes.items) R.alone (R.seen files.new) (R.start files.new) (λ t. Ok (index_in index.now t)) result }
    ensures seen { Grows (R.seen files.old) (R.seen files.new) }
    ensures same_start { R.start files.new ≡ R.start files.old }
    ensures still { R.alone ≡ true → R.seen files.new ≡ R.seen files.old }
    ensures cause { HasFaultCause (R.faults files.old) (R.faults files.new) (R.denied files.old) (R.denied files.new) result }
{
    read_index(alloc, files, index, MOST_PIECES)
}

// Reads all of an index.
fn read_all<R: Reads>(
    alloc: Global,
    files: &mut R,
    index: &StorePath,
) -> Result<Vec<u8>, ReadAnswer>
    ensures found { Finds (λ bytes. bytes.items) R.alone (R.seen files.new) (R.start files.new) (λ t. Ok (bytes_at t index.now)) result }
    ensures seen { Grows (R.seen files.old) (R.seen files.new) }
    ensures same_start { R.start files.new ≡ R.start files.old }
    ensures still { R.alone ≡ true → R.seen files.new ≡ R.seen files.old }
    ensures cause { HasFaultCause (R.faults files.old) (R.faults files.new) (R.denied files.old) (R.denied files.new) result }
{
    match read_index(alloc, files, index, ALL_PIECES) {
        Ok(bytes) => Ok(bytes),
        Err(refusal) => Err(refusal),
    }
}

// Whether an index may have more bytes than these, which are as many as one of entries may have.
fn has_more(bytes: &[u8]) -> bool
    ensures { result ≡ has_more bytes.now }
{
    (bytes.len() as u64) >= MOST_PIECES * PIECE && is_inline(bytes)
}

// Reads an index of either form, an inline one with its chunks.
fn read_either_index<R: Reads>(
    alloc: Global,
    files: &mut R,
    index: &StorePath,
) -> Result<Vec<u8>, ReadAnswer>
    ensures found { Finds (λ bytes. bytes.items) R.alone (R.seen files.new) (R.start files.new) (λ t. Ok (either_index_in index.now t)) result }
    ensures seen { Grows (R.seen files.old) (R.seen files.new) }
    ensures same_start { R.start files.new ≡ R.start files.old }
    ensures still { R.alone ≡ true → R.seen files.new ≡ R.seen files.old }
    ensures cause { HasFaultCause (R.faults files.old) (R.faults files.new) (R.denied files.old) (R.denied files.new) result }
{
    let bytes = match read_entries(alloc, files, index) {
        Ok(bytes) => bytes,
        Err(refusal) => return Err(refusal),
    };
    if !has_more(&bytes) {
        return Ok(bytes);
    }
    match read_all(alloc, files, index) {
        Ok(bytes) => Ok(bytes),
        Err(refusal) => Err(refusal),
    }
}

// The revlog that these bytes of its index are, in the form that they say.
fn either_log_from(alloc: Global, index: &StorePath, bytes: &[u8]) -> Result<Revlog, ReadAnswer>
    ensures log { Gives is_of_outside (λ log. log) result (log_answer index.now (loaded_either Refuse bytes.now)) }
    ensures entries { IfOk result (λ log. AreEntries log.entries) }
    ensures inner { NeverFaults result }
{
    either_form();
    match Revlog::load_either(alloc, bytes, Tail::Refuse) {
        Ok(log) => Ok(log),
        Err(fault) => Err(of_revlog(alloc, index, fault)),
    }
}

/// Loads the revlog with this index in the form that it says. Behind the last whole entry, in an inline index with its chunk,
/// no byte may stand. An absent index is one of no revisions. The data file is not looked at.
pub fn load_either_log<R: Reads>(
    alloc: Global,
    files: &mut R,
    paths: &RevlogPaths,
) -> Result<Revlog, ReadAnswer>
    ensures found { Finds (λ log. log) R.alone (R.seen files.new) (R.start files.new) (either_log_in paths.now.index) result }
    ensures entries { IfOk result (λ log. AreEntries log.entries) }
    ensures seen { Grows (R.seen files.old) (R.seen files.new) }
    ensures same_start { R.start files.new ≡ R.start files.old }
    ensures still { R.alone ≡ true → R.seen files.new ≡ R.seen files.old }
    ensures cause { HasFaultCause (R.faults files.old) (R.faults files.new) (R.denied files.old) (R.denied files.new) result }
{
    let bytes = match read_either_index(alloc, files, &paths.index) {
        Ok(bytes) => bytes,
        Err(refusal) => return Err(refusal),
    };
    match either_log_from(alloc, &paths.index, &bytes) {
        Ok(log) => Ok(log),
        Err(refusal) => Err(refusal),
    }
}

/// Where the last chunk ends.
pub fn end_of(log: &Revlog) -> u64
    requires { AreEntries log.now.entries }
    ensures { result ≡ stored_sum log.now.entries }
{
    let count = log.len();
    if count == 0 {
        return 0;
    }
    let span = log.text_span(count - 1);
    span.from + span.len
}

// Tests that a data file ends where the last chunk does, so that the next chunk stands right behind it. An absent file is
// empty.
fn test_data<R: Reads>(
    alloc: Global,
    files: &mut R,
    paths: &RevlogPaths,
    log: &Revlog,
) -> Result<(), ReadAnswer>
    requires { AreEntries log.now.entries }
    ensures found { Finds (λ x. x) R.alone (R.seen files.new) (R.start files.new) (data_in paths.now.index paths.now.chunks log.now) result }
    ensures seen { Grows (R.seen files.old) (R.seen files.new) }
    ensures same_start { R.start files.new ≡ R.start files.old }
    ensures still { R.alone ≡ true → R.seen files.new ≡ R.seen files.old }
    ensures cause { HasFaultCause (R.faults files.old) (R.faults files.new) (R.denied files.old) (R.denied files.new) result }
{
    let size = size_of(files, &paths.chunks)?;
    if size.unwrap_or(0) == end_of(log) {
        return Ok(());
    }
    Err(of_revlog(alloc, &paths.index, RevFault::Tail(log.len())))
}

/// The same of a revlog in either form, so that the next chunk stands right behind the last: beside an inline index no data
/// file is looked at.
pub fn test_either_data<R: Reads>(
    alloc: Global,
    files: &mut R,
    paths: &RevlogPaths,
    log: &Revlog,
) -> Result<(), ReadAnswer>
    requires { AreEntries log.now.entries }
    ensures found { Finds (λ x. x) R.alone (R.seen files.new) (R.start files.new) (either_data_in paths.now.index paths.now.chunks log.now) result }
    ensures seen { Grows (R.seen files.old) (R.seen files.new) }
    ensures same_start { R.start files.new ≡ R.start files.old }
    ensures still { R.alone ≡ true → R.seen files.new ≡ R.seen files.old }
    ensures cause { HasFaultCause (R.faults files.old) (R.faults files.new) (R.denied files.old) (R.denied files.new) result }
{
    if log.is_inline() {
        return Ok(());
    }
    test_data(alloc, files, paths, log)
}
