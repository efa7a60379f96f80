//! The report of a store.
ghost use Rattle.std.specs.Prelude.{◌≡◌, ◌≤◌, IfOk, OnOk, Ok, true, false, length, IfErr};
ghost use Rattle.hgs_verify.specs.Refusal.{is_refusal, HaveShortTexts, IsLimited, IsWhy, PartsKeepLimits, PassesNone, PathsKeepLimits, most_fncache, required_in};
ghost use Rattle.hgs_load.specs.Open.{requires_path};
ghost use Rattle.hgs_load.specs.Requirements.{requires_answer};
ghost use Rattle.hgs_load.specs.Whole.{is_above};
ghost use Rattle.hgs_stands.specs.Places.{fncache_path};
ghost use Rattle.hgs_findings.specs.Reading.{sight_of};
ghost use Rattle.hgs_findings.specs.Regular.{used_paths};
ghost use Rattle.hgs_judge.specs.Report.{findings_in};
ghost use Rattle.hgs_load.specs.Answer.{HasFaultCause};
ghost use Rattle.hgs_report.specs.Parts.{AreParts};
ghost use Rattle.hgs_report.specs.Store.{IsStoreOf};
ghost use Rattle.hgs_verify.specs.Looked.{OfTree};
ghost use Rattle.hgs_verify.specs.Parts.{HaveShortLogs};
ghost use Rattle.hgs_verify.specs.Report.{AddsBeside, AddsPaths, AddsSmall, IsReportOf};

use crate::inline::inline_filelogs;
use crate::judging::Workers;
use crate::progress::Progress;
use crate::store::read_store;
use crate::texts::{
    add_bookmarks_file, add_calls, add_dirstate_file, add_names_file, add_roots_file, add_unused,
    test_requires,
};
use crate::walk::judge_paths;
use hgs_bytes::bytes::Bytes;
use hgs_files::files::Reads;
use hgs_findings::laws::one_path;
use hgs_judge::laws::path_findings;
use hgs_judge::paths::used_paths;
use hgs_judge::report::{Finding, in_order};
use hgs_load::answer::ReadAnswer;
use hgs_report::laws::{parts_make_report, unused_that_stand};
use hgs_report::lists::{add_marked, wrong_lists};
use hgs_report::store::{LogPaths, Store, add_store};
use std::alloc::{AllocError, Global};
use std::collections::BTreeSet;
use std::thread::Threads;

/// Paths have numbers below this.
const MOST: usize = 0x1_0000_0000;

/// What is found of a store: how many changesets can be read of it, how many paths their trees have, and the findings by
/// path, then by revision, none first, then by kind, each once.
#[derive(Drop)]
pub struct Report {
    pub changesets: u32,
    pub filelogs: u32,
    pub findings: Vec<Finding>,
}

// Adds what is found of the roots, the bookmarks and the dirstate.
fn add_small<R: Reads>(
    alloc: Global,
    files: &mut R,
    store: &Store,
    into: &mut Vec<Finding>,
) -> Result<(), ReadAnswer>
    ensures added { OnOk result (OfTree R.alone (R.seen files.new) (R.start files.new) (λ t. IsStoreOf store.now t → AddsSmall t (findings_in into.old.items) (findings_in into.new.items))) }
    ensures same_start { R.start files.new ≡ R.start files.old }
    ensures still { R.alone ≡ true → R.seen files.new ≡ R.seen files.old }
    ensures cause { HasFaultCause (R.faults files.old) (R.faults files.new) (R.denied files.old) (R.denied files.new) result }
    ensures refused { IfErr result (λ e. is_refusal e ≡ true) }
    ensures why { IfErr result (λ e. OfTree R.alone (R.seen files.new) (R.start files.new) (IsLimited e)) }
    ensures short { OnOk result (OfTree R.alone (R.seen files.new) (R.start files.new) HaveShortTexts) }
{
    add_roots_file(alloc, files, store, into)?;
    add_bookmarks_file(alloc, files, store, into)?;
    add_dirstate_file(alloc, files, store, into)?;
    Ok(())
}

// Adds what is found of the list of filelogs' files, and of the names of the used paths' files.
fn add_listed<R: Reads>(
    alloc: Global,
    files: &mut R,
    used: &BTreeSet<Bytes>,
    into: &mut Vec<Finding>,
) -> Result<(), ReadAnswer>
    ensures added { OnOk result (OfTree R.alone (R.seen files.new) (R.start files.new) (λ t. used.now.keys ≡ used_paths (sight_of t) → AddsBeside t (findings_in into.old.items) (findings_in into.new.items))) }
    ensures same_start { R.start files.new ≡ R.start files.old }
    ensures still { R.alone ≡ true → R.seen files.new ≡ R.seen files.old }
    ensures cause { HasFaultCause (R.faults files.old) (R.faults files.new) (R.denied files.old) (R.denied files.new) result }
    ensures refused { IfErr result (λ e. is_refusal e ≡ true) }
    ensures why { IfErr result (λ e. OfTree R.alone (R.seen files.new) (R.start files.new) (IsLimited e)) }
    ensures short { OnOk result (OfTree R.alone (R.seen files.new) (R.start files.new) (λ t. is_above most_fncache (t fncache_path) ≡ false)) }
{
    unused_that_stand();
    let inline = inline_filelogs(alloc, files, used)?;
    let unused = add_names_file(alloc, files, used, &inline, into)?;
    add_unused(alloc, files, &unused, into)?;
    Ok(())
}

// Adds what is found of the used paths, and of the lists of changed files.
fn add_paths<T: Threads + Sync, R: Reads, P: Progress>(
    workers: &Workers<'_, T>,
    progress: &mut P,
    alloc: Global,
    files: &mut R,
    store: &Store,
    paths: &LogPaths,
    used: BTreeSet<Bytes>,
    into: &mut Vec<Finding>,
) -> Result<(), ReadAnswer>
    ensures added { OnOk result (OfTree R.alone (R.seen files.new) (R.start files.new) (λ t. IsStoreOf store.now t → used.keys ≡ used_paths (sight_of t) → AddsPaths t (findings_in into.old.items) (findings_in into.new.items))) }
    ensures same_start { R.start files.new ≡ R.start files.old }
    ensures still { R.alone ≡ true → R.seen files.new ≡ R.seen files.old }
    ensures cause { HasFaultCause (R.faults files.old) (R.faults files.new) (R.denied files.old) (R.denied files.new) result }
    ensures refused { IfErr result (λ e. is_refusal e ≡ true) }
    ensures why { IfErr result (λ e. OfTree R.alone (R.seen files.new) (R.start files.new) (λ t. used.keys ≡ used_paths (sight_of t) → IsLimited e t)) }
    ensures limits { OnOk result (OfTree R.alone (R.seen files.new) (R.start files.new) (PathsKeepLimits used.keys)) }
{
    one_path();
    path_findings();
    let mut marks = wrong_lists(alloc, store, &used)?;
    judge_paths(
        workers, progress, alloc, files, store, used, into, &mut marks,
    )?;
    add_marked(alloc, &paths.changelog, &marks, into)?;
    Ok(())
}

// Everything that is found of a store with these used paths.
fn gather<T: Threads + Sync, R: Reads, P: Progress>(
    workers: &Workers<'_, T>,
    progress: &mut P,
    alloc: Global,
    files: &mut R,
    store: &Store,
    used: BTreeSet<Bytes>,
) -> Result<Vec<Finding>, ReadAnswer>
    ensures parts { IfOk result (λ all. OfTree R.alone (R.seen files.new) (R.start files.new) (λ t. IsStoreOf store.now t → used.keys ≡ used_paths (sight_of t) → AreParts t (findings_in all.items))) }
    ensures same_start { R.start files.new ≡ R.start files.old }
    ensures still { R.alone ≡ true → R.seen files.new ≡ R.seen files.old }
    ensures cause { HasFaultCause (R.faults files.old) (R.faults files.new) (R.denied files.old) (R.denied files.new) result }
    ensures refused { IfErr result (λ e. is_refusal e ≡ true) }
    ensures why { IfErr result (λ e. OfTree R.alone (R.seen files.new) (R.start files.new) (λ t. used.keys ≡ used_paths (sight_of t) → IsLimited e t)) }
    ensures limits { OnOk result (OfTree R.alone (R.seen files.new) (R.start files.new) (λ t. used.keys ≡ used_paths (sight_of t) → PartsKeepLimits t)) }
{
    let paths = LogPaths::new(alloc)?;
    let mut found = Vec::new(alloc);
    add_calls(alloc, files, &mut found)?;
    add_store(alloc, &paths, store, &mut found)?;
    add_small(alloc, files, store, &mut found)?;
    add_listed(alloc, files, &used, &mut found)?;
    add_paths(
        workers, progress, alloc, files, store, &paths, used, &mut found,
    )?;
    Ok(found)
}

// How many paths there are.
fn count_of(used: &BTreeSet<Bytes>) -> Result<u32, AllocError>
    ensures { IfOk result (λ count. count ≡ length used.now.keys) }
{
    if used.len() >= MOST {
        return Err(AllocError);
    }
    Ok(used.len() as u32)
}

// The report of a store whose changelog and manifest were read.
fn report_of<T: Threads + Sync, R: Reads, P: Progress>(
    workers: &Workers<'_, T>,
    progress: &mut P,
    alloc: Global,
    files: &mut R,
    store: &Store,
) -> Result<Report, ReadAnswer>
    ensures report { IfOk result (λ report. OfTree R.alone (R.seen files.new) (R.start files.new) (λ t. IsStoreOf store.now t → IsReportOf report t)) }
    ensures same_start { R.start files.new ≡ R.start files.old }
    ensures still { R.alone ≡ true → R.seen files.new ≡ R.seen files.old }
    ensures cause { HasFaultCause (R.faults files.old) (R.faults files.new) (R.denied files.old) (R.denied files.new) result }
    ensures refused { IfErr result (λ e. is_refusal e ≡ true) }
    ensures why { IfErr result (λ e. OfTree R.alone (R.seen files.new) (R.start files.new) (λ t. IsStoreOf store.now t → IsLimited e t)) }
    ensures limits { OnOk result (OfTree R.alone (R.seen files.new) (R.start files.new) (λ t. IsStoreOf store.now t → PartsKeepLimits t)) }
{
    parts_make_report();
    let used = used_paths(alloc, &store.trees, &store.changesets)?;
    let filelogs = count_of(&used)?;
    let found = gather(workers, progress, alloc, files, store, used)?;
    let findings = in_order(found)?;
    Ok(Report {
        changesets: store.changelog.reading.log.len(),
        filelogs,
        findings,
    })
}

/// Verifies a store: everything that is wrong with it, and nothing that is not. The caller reads, and at most so many threads
/// judge the filelogs of one batch after another; the report is the same for each number of them.
///
/// It is refused as any question is where there is no repository or one of another profile, for a fault of the files, where a
/// file passes a limit, and for want of memory; damage is a finding.
pub fn verify<T: Threads + Sync, R: Reads, P: Progress>(
    rt: &T,
    alloc: Global,
    files: &mut R,
    jobs: u32,
    progress: &mut P,
) -> Result<Report, ReadAnswer>
    requires some { 1 ≤ jobs }
    requires most { jobs ≤ 64 }
    ensures report { IfOk result (λ report. OfTree R.alone (R.seen files.new) (R.start files.new) (IsReportOf report)) }
    ensures short { OnOk result (OfTree R.alone (R.seen files.new) (R.start files.new) HaveShortLogs) }
    ensures required { OnOk result (OfTree R.alone (R.seen files.new) (R.start files.new) (λ t. requires_answer (t requires_path) ≡ Ok tt)) }
    ensures profile { OnOk result (OfTree R.alone (R.seen files.new) (R.start files.new) (λ t. required_in t ≡ Ok tt)) }
    ensures same_start { R.start files.new ≡ R.start files.old }
    ensures still { R.alone ≡ true → R.seen files.new ≡ R.seen files.old }
    ensures cause { HasFaultCause (R.faults files.old) (R.faults files.new) (R.denied files.old) (R.denied files.new) result }
    ensures refused { IfErr result (λ e. is_refusal e ≡ true) }
    ensures why { IfErr result (λ e. OfTree R.alone (R.seen files.new) (R.start files.new) (IsWhy e)) }
    ensures limits { OnOk result (OfTree R.alone (R.seen files.new) (R.start files.new) PassesNone) }
{
    test_requires(alloc, files)?;
    let store = read_store(alloc, files)?;
    let report = report_of(&Workers::new(rt, jobs), progress, alloc, files, &store)?;
    Ok(report)
}
