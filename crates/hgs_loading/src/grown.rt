//! Revlogs that were loaded before and may have been appended to since.
ghost use Rattle.std.specs.Prelude.{◌≡◌, ◌≤◌, ◌+◌, ◌*◌, ◌/◌, true, false, length, IfOk};
ghost use Rattle.hgs_bytes.specs.Answer.{Gives};
ghost use Rattle.hgs_files.specs.Reads.{Grows};
ghost use Rattle.hgs_revlog.specs.declared.fault.Tail.TheVariants.{Refuse};
ghost use Rattle.hgs_revlog.specs.Load.{load_from};
ghost use Rattle.hgs_revlog.specs.Loaded.{AreEntries};
ghost use Rattle.hgs_load.specs.Answer.{is_of_outside, HasFaultCause, NeverFaults};
ghost use Rattle.hgs_load.specs.View.{log_answer, piece_length};
ghost use Rattle.hgs_loading.specs.Found.{AtRest, Finds};
ghost use Rattle.hgs_loading.specs.Logs.{HasGrown, either_log_in, most_index, whole_log_in};

use crate::logs::{MOST_PIECES, PIECE, load_either_log, test_either_data};
use hgs_files::files::Reads;
use hgs_files::path::StorePath;
use hgs_load::answer::ReadAnswer;
use hgs_load::ask::{bytes_of, read_part};
use hgs_load::refusal::of_revlog;
use hgs_reader::find::RevlogPaths;
use hgs_revlog::fault::Tail;
use hgs_revlog::laws::pushed_entries;
use hgs_revlog::revlog::Revlog;
use std::alloc::Global;

// Whether the index of this revlog is of entries alone, and one more piece of it is no more than may be read.
fn can_go_on(log: &Revlog) -> bool
    ensures separate { result ≡ true → log.now.inline ≡ false }
    ensures some { result ≡ true → 1 ≤ length log.now.entries }
    ensures few { result ≡ true → 64 * length log.now.entries + piece_length ≤ most_index }
{
    let count = log.len() as u64;
    !log.is_inline() && count > 0 && 64 * count + PIECE <= MOST_PIECES * PIECE
}

// The revlog with the entries of these bytes of its index behind its last one. No byte may stand behind the last whole entry.
fn log_on(
    alloc: Global,
    index: &StorePath,
    log: Revlog,
    behind: &[u8],
) -> Result<Revlog, ReadAnswer>
    requires { AreEntries log.entries }
    ensures log { Gives is_of_outside (λ log. log) result (log_answer index.now (load_from Refuse (length behind.now / 64) log behind.now)) }
    ensures entries { IfOk result (λ log. AreEntries log.entries) }
    ensures inner { NeverFaults result }
{
    pushed_entries();
    match log.load_on(behind, Tail::Refuse) {
        Ok(log) => Ok(log),
        Err(fault) => Err(of_revlog(alloc, index, fault)),
    }
}

// Loads a revlog that was loaded as this one before, and to whose index nothing was done since but that bytes were appended. Its
// data file is not looked at.
fn load_either_log_on<R: Reads>(
    alloc: Global,
    files: &mut R,
    paths: &RevlogPaths,
    log: Revlog,
) -> Result<Revlog, ReadAnswer>
    requires entries { AreEntries log.entries }
    requires grown { AtRest R.alone (R.seen files.old) (R.start files.old) (HasGrown paths.now.index log) }
    ensures found { Finds (λ log. log) R.alone (R.seen files.new) (R.start files.new) (either_log_in paths.now.index) result }
    ensures entries { IfOk result (λ log. AreEntries log.entries) }
    ensures seen { Grows (R.seen files.old) (R.seen files.new) }
    ensures same_start { R.start files.new ≡ R.start files.old }
    ensures still { R.alone ≡ true → R.seen files.new ≡ R.seen files.old }
    ensures cause { HasFaultCause (R.faults files.old) (R.faults files.new) (R.denied files.old) (R.denied files.new) result }
{
    if !can_go_on(&log) {
        return load_either_log(alloc, files, paths);
    }
    let part = read_part(alloc, files, &paths.index, 64 * log.len() as u64, PIECE)?;
    let behind = bytes_of(&part);
    if behind.len() as u64 >= PIECE {
        return load_either_log(alloc, files, paths);
    }
    log_on(alloc, &paths.index, log, behind)
}

/// Loads a revlog in either form, and tests its data file. It was loaded as this one before, and nothing was done to its index
/// since but that bytes were appended: of a separate index only these are read, where they are less than 1,024 entries.
pub fn load_whole_on<R: Reads>(
    alloc: Global,
    files: &mut R,
    paths: &RevlogPaths,
    log: Revlog,
) -> Result<Revlog, ReadAnswer>
    requires entries { AreEntries log.entries }
    requires grown { AtRest R.alone (R.seen files.old) (R.start files.old) (HasGrown paths.now.index log) }
    ensures found { Finds (λ log. log) R.alone (R.seen files.new) (R.start files.new) (whole_log_in paths.now.index paths.now.chunks) result }
    ensures entries { IfOk result (λ log. AreEntries log.entries) }
    ensures seen { Grows (R.seen files.old) (R.seen files.new) }
    ensures same_start { R.start files.new ≡ R.start files.old }
    ensures still { R.alone ≡ true → R.seen files.new ≡ R.seen files.old }
    ensures cause { HasFaultCause (R.faults files.old) (R.faults files.new) (R.denied files.old) (R.denied files.new) result }
{
    let log = load_either_log_on(alloc, files, paths, log)?;
    test_either_data(alloc, files, paths, &log)?;
    Ok(log)
}
