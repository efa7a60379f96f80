//! The small files of a store, and what is found of them.
ghost use Rattle.std.specs.Prelude.{◌≡◌, ◌++◌, IfOk, OnOk, Ok, true, false, option_map, IfErr};
ghost use Rattle.hgs_bytes.specs.Answer.{Gives};
ghost use Rattle.hgs_verify.specs.Refusal.{is_refusal, IsLimited, most_fncache, required_in};
ghost use Rattle.hgs_load.specs.Open.{most_bookmarks_text, most_dirstate, most_roots, requires_path};
ghost use Rattle.hgs_load.specs.Requirements.{requires_answer};
ghost use Rattle.hgs_load.specs.Whole.{is_above};
ghost use Rattle.hgs_stands.specs.Places.{bookmarks_path, dirstate_path, fncache_path, roots_path};
ghost use Rattle.hgs_findings.specs.Reading.{sight_of};
ghost use Rattle.hgs_findings.specs.Regular.{used_paths};
ghost use Rattle.hgs_judge.specs.Report.{findings_in};
ghost use Rattle.hgs_load.specs.Answer.{HasFaultCause, is_of_outside};
ghost use Rattle.hgs_report.specs.Adds.{Adds};
ghost use Rattle.hgs_report.specs.Names.{AreInline, IsOfNames, unused_in};
ghost use Rattle.hgs_report.specs.Parts.{IsOfCalls};
ghost use Rattle.hgs_report.specs.Store.{IsStoreOf};
ghost use Rattle.hgs_report.specs.Texts.{IsOfBookmarks, IsOfDirstate, IsOfRoots};
ghost use Rattle.hgs_verify.specs.Looked.{OfTree};
ghost use Rattle.hgs_verify.specs.Report.{of_all_unused, of_standing, of_unused};

use crate::whole::{read_text, size_of};
use hgs_bytes::bytes::Bytes;
use hgs_files::files::Reads;
use hgs_files::path::{StorePath, path_of};
use hgs_judge::report::Finding;
use hgs_load::answer::ReadAnswer;
use hgs_load::ask::bytes_of;
use hgs_load::requirements::test_requirements;
use hgs_report::laws::calls_that_stand;
use hgs_report::lines::add_file;
use hgs_report::names::add_used_names;
use hgs_report::small::{add_bookmarks, add_roots, add_working};
use hgs_report::store::Store;
use std::alloc::Global;
use std::collections::BTreeSet;

/// The numbers of bytes above which a file is refused.
const MOST_REQUIRES: u64 = 65_536;

const MOST_BOOKMARKS: u64 = 16_777_216;

const MOST_DIRSTATE: u64 = 33_554_432;

const MOST_ROOTS: u64 = 67_108_864;

const MOST_FNCACHE: u64 = 268_435_456;

/// Reads the phase roots, and adds what is found of them.
pub fn add_roots_file<R: Reads>(
    alloc: Global,
    files: &mut R,
    store: &Store,
    into: &mut Vec<Finding>,
) -> Result<(), ReadAnswer>
    ensures added { OnOk result (OfTree R.alone (R.seen files.new) (R.start files.new) (λ t. IsStoreOf store.now t → Adds t (IsOfRoots t) (findings_in into.old.items) (findings_in into.new.items))) }
    ensures same_start { R.start files.new ≡ R.start files.old }
    ensures still { R.alone ≡ true → R.seen files.new ≡ R.seen files.old }
    ensures cause { HasFaultCause (R.faults files.old) (R.faults files.new) (R.denied files.old) (R.denied files.new) result }
    ensures refused { IfErr result (λ e. is_refusal e ≡ true) }
    ensures why { IfErr result (λ e. OfTree R.alone (R.seen files.new) (R.start files.new) (IsLimited e)) }
    ensures short { OnOk result (OfTree R.alone (R.seen files.new) (R.start files.new) (λ t. is_above most_roots (t roots_path) ≡ false)) }
{
    let path = path_of(alloc, b"store/phaseroots")?;
    let text = read_text(alloc, files, &path, MOST_ROOTS)?;
    add_roots(alloc, &path, bytes_of(&text), store, into)?;
    Ok(())
}

/// Reads the bookmarks, and adds what is found of them.
pub fn add_bookmarks_file<R: Reads>(
    alloc: Global,
    files: &mut R,
    store: &Store,
    into: &mut Vec<Finding>,
) -> Result<(), ReadAnswer>
    ensures added { OnOk result (OfTree R.alone (R.seen files.new) (R.start files.new) (λ t. IsStoreOf store.now t → Adds t (IsOfBookmarks t) (findings_in into.old.items) (findings_in into.new.items))) }
    ensures same_start { R.start files.new ≡ R.start files.old }
    ensures still { R.alone ≡ true → R.seen files.new ≡ R.seen files.old }
    ensures cause { HasFaultCause (R.faults files.old) (R.faults files.new) (R.denied files.old) (R.denied files.new) result }
    ensures refused { IfErr result (λ e. is_refusal e ≡ true) }
    ensures why { IfErr result (λ e. OfTree R.alone (R.seen files.new) (R.start files.new) (IsLimited e)) }
    ensures short { OnOk result (OfTree R.alone (R.seen files.new) (R.start files.new) (λ t. is_above most_bookmarks_text (t bookmarks_path) ≡ false)) }
{
    let path = path_of(alloc, b"bookmarks")?;
    let text = read_text(alloc, files, &path, MOST_BOOKMARKS)?;
    add_bookmarks(alloc, &path, bytes_of(&text), store, into)?;
    Ok(())
}

/// Reads the working parents and the tracked paths, and adds what is found of them.
pub fn add_dirstate_file<R: Reads>(
    alloc: Global,
    files: &mut R,
    store: &Store,
    into: &mut Vec<Finding>,
) -> Result<(), ReadAnswer>
    ensures added { OnOk result (OfTree R.alone (R.seen files.new) (R.start files.new) (λ t. IsStoreOf store.now t → Adds t (IsOfDirstate t) (findings_in into.old.items) (findings_in into.new.items))) }
    ensures same_start { R.start files.new ≡ R.start files.old }
    ensures still { R.alone ≡ true → R.seen files.new ≡ R.seen files.old }
    ensures cause { HasFaultCause (R.faults files.old) (R.faults files.new) (R.denied files.old) (R.denied files.new) result }
    ensures refused { IfErr result (λ e. is_refusal e ≡ true) }
    ensures why { IfErr result (λ e. OfTree R.alone (R.seen files.new) (R.start files.new) (IsLimited e)) }
    ensures short { OnOk result (OfTree R.alone (R.seen files.new) (R.start files.new) (λ t. is_above most_dirstate (t dirstate_path) ≡ false)) }
{
    let path = path_of(alloc, b"dirstate")?;
    let text = read_text(alloc, files, &path, MOST_DIRSTATE)?;
    add_working(alloc, &path, bytes_of(&text), store, into)?;
    Ok(())
}

/// Reads the list of filelogs' files, adds what is found of it, and hands back the files of the names that no path uses. Some of
/// the used paths have inline filelogs.
pub fn add_names_file<R: Reads>(
    alloc: Global,
    files: &mut R,
    used: &BTreeSet<Bytes>,
    inline: &BTreeSet<Vec<u8>>,
    into: &mut Vec<Finding>,
) -> Result<Vec<StorePath>, ReadAnswer>
    ensures added { IfOk result (λ unused. OfTree R.alone (R.seen files.new) (R.start files.new) (λ t. used.now.keys ≡ used_paths (sight_of t) → AreInline t inline.now.keys → Adds t (IsOfNames t) (findings_in into.old.items) (findings_in into.new.items) × (unused.items ≡ unused_in t))) }
    ensures same_start { R.start files.new ≡ R.start files.old }
    ensures still { R.alone ≡ true → R.seen files.new ≡ R.seen files.old }
    ensures cause { HasFaultCause (R.faults files.old) (R.faults files.new) (R.denied files.old) (R.denied files.new) result }
    ensures refused { IfErr result (λ e. is_refusal e ≡ true) }
    ensures why { IfErr result (λ e. OfTree R.alone (R.seen files.new) (R.start files.new) (IsLimited e)) }
    ensures short { OnOk result (OfTree R.alone (R.seen files.new) (R.start files.new) (λ t. is_above most_fncache (t fncache_path) ≡ false)) }
{
    let path = path_of(alloc, b"store/fncache")?;
    let text = read_text(alloc, files, &path, MOST_FNCACHE)?;
    let unused = add_used_names(alloc, &path, bytes_of(&text), used, inline, into)?;
    Ok(unused)
}

// Adds a file where it stands.
fn add_standing<R: Reads>(
    alloc: Global,
    files: &mut R,
    path: &StorePath,
    kind: u8,
    into: &mut Vec<Finding>,
) -> Result<(), ReadAnswer>
    ensures added { OnOk result (OfTree R.alone (R.seen files.new) (R.start files.new) (λ t. findings_in into.new.items ≡ findings_in into.old.items ++ of_standing t path.now kind)) }
    ensures same_start { R.start files.new ≡ R.start files.old }
    ensures still { R.alone ≡ true → R.seen files.new ≡ R.seen files.old }
    ensures cause { HasFaultCause (R.faults files.old) (R.faults files.new) (R.denied files.old) (R.denied files.new) result }
    ensures refused { IfErr result (λ e. is_refusal e ≡ true) }
    ensures outside { IfErr result (λ e. is_of_outside e ≡ true) }
{
    let size = size_of(files, path)?;
    add_file(alloc, size.is_some(), path, kind, into)?;
    Ok(())
}

// Adds a file that has bytes and that no path uses.
fn add_unused_file<R: Reads>(
    alloc: Global,
    files: &mut R,
    path: &StorePath,
    into: &mut Vec<Finding>,
) -> Result<(), ReadAnswer>
    ensures added { OnOk result (OfTree R.alone (R.seen files.new) (R.start files.new) (λ t. findings_in into.new.items ≡ findings_in into.old.items ++ of_unused t path.now)) }
    ensures same_start { R.start files.new ≡ R.start files.old }
    ensures still { R.alone ≡ true → R.seen files.new ≡ R.seen files.old }
    ensures cause { HasFaultCause (R.faults files.old) (R.faults files.new) (R.denied files.old) (R.denied files.new) result }
    ensures refused { IfErr result (λ e. is_refusal e ≡ true) }
    ensures outside { IfErr result (λ e. is_of_outside e ≡ true) }
{
    let size = size_of(files, path)?;
    add_file(alloc, size.unwrap_or(0) != 0, path, 12, into)?;
    Ok(())
}

/// Adds those of these files that have bytes.
pub fn add_unused<R: Reads>(
    alloc: Global,
    files: &mut R,
    unused: &[StorePath],
    into: &mut Vec<Finding>,
) -> Result<(), ReadAnswer>
    ensures added { OnOk result (OfTree R.alone (R.seen files.new) (R.start files.new) (λ t. findings_in into.new.items ≡ findings_in into.old.items ++ of_all_unused t unused.now)) }
    ensures same_start { R.start files.new ≡ R.start files.old }
    ensures still { R.alone ≡ true → R.seen files.new ≡ R.seen files.old }
    ensures cause { HasFaultCause (R.faults files.old) (R.faults files.new) (R.denied files.old) (R.denied files.new) result }
    ensures refused { IfErr result (λ e. is_refusal e ≡ true) }
    ensures outside { IfErr result (λ e. is_of_outside e ≡ true) }
{
    for path in unused {
        add_unused_file(alloc, files, path, into)?;
    }
    Ok(())
}

/// Adds the journal and the locks that stand.
pub fn add_calls<R: Reads>(
    alloc: Global,
    files: &mut R,
    into: &mut Vec<Finding>,
) -> Result<(), ReadAnswer>
    ensures added { OnOk result (OfTree R.alone (R.seen files.new) (R.start files.new) (λ t. Adds t (IsOfCalls t) (findings_in into.old.items) (findings_in into.new.items))) }
    ensures same_start { R.start files.new ≡ R.start files.old }
    ensures still { R.alone ≡ true → R.seen files.new ≡ R.seen files.old }
    ensures cause { HasFaultCause (R.faults files.old) (R.faults files.new) (R.denied files.old) (R.denied files.new) result }
    ensures refused { IfErr result (λ e. is_refusal e ≡ true) }
    ensures outside { IfErr result (λ e. is_of_outside e ≡ true) }
{
    calls_that_stand();
    let journal = path_of(alloc, b"store/journal")?;
    let working_lock = path_of(alloc, b"wlock")?;
    let store_lock = path_of(alloc, b"store/lock")?;
    add_standing(alloc, files, &journal, 1, into)?;
    add_standing(alloc, files, &working_lock, 2, into)?;
    add_standing(alloc, files, &store_lock, 2, into)?;
    Ok(())
}

// What a read gave, as a slice.
fn slice_of(text: &Option<Bytes>) -> Option<&[u8]>
    ensures { option_map (λ p. p.now) result ≡ text.now }
{
    match text {
        Some(bytes) => Some(bytes.as_slice()),
        None => None,
    }
}

/// Tests what the repository requires. It is refused as none where `requires` isn't there.
pub fn test_requires<R: Reads>(alloc: Global, files: &mut R) -> Result<(), ReadAnswer>
    ensures required { OnOk result (OfTree R.alone (R.seen files.new) (R.start files.new) (λ t. requires_answer (t requires_path) ≡ Ok tt)) }
    ensures same_start { R.start files.new ≡ R.start files.old }
    ensures still { R.alone ≡ true → R.seen files.new ≡ R.seen files.old }
    ensures cause { HasFaultCause (R.faults files.old) (R.faults files.new) (R.denied files.old) (R.denied files.new) result }
    ensures refused { IfErr result (λ e. is_refusal e ≡ true) }
    ensures given { OfTree R.alone (R.seen files.new) (R.start files.new) (λ t. Gives is_of_outside (λ x. x) result (required_in t)) }
{
    let path = path_of(alloc, b"requires")?;
    let text = read_text(alloc, files, &path, MOST_REQUIRES)?;
    match test_requirements(alloc, slice_of(&text)) {
        Ok(()) => Ok(()),
        Err(refusal) => Err(refusal),
    }
}
