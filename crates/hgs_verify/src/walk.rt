//! The paths of a store, one batch after another.
ghost use Rattle.std.specs.Prelude.{◌≡◌, IfErr, IfOk, OnOk, true};
ghost use Rattle.hgs_findings.specs.Regular.{used_paths};
ghost use Rattle.hgs_findings.specs.Reading.{sight_of};
ghost use Rattle.hgs_files.specs.Reads.{Grows};
ghost use Rattle.hgs_judge.specs.Report.{findings_in};
ghost use Rattle.hgs_load.specs.Answer.{HasFaultCause, is_of_outside};
ghost use Rattle.hgs_report.specs.Store.{IsStoreOf};
ghost use Rattle.hgs_verify.specs.Looked.{OfTree};
ghost use Rattle.hgs_verify.specs.Refusal.{is_refusal, IsLimited, PathsKeepLimits};
ghost use Rattle.hgs_verify.specs.Task.{AreJudged, AreNext, AreReadOf};
ghost use Rattle.hgs_verify.specs.Walk.{AddPaths};

use crate::adding::add_all;
use crate::batch::{Batch, read_batch};
use crate::judging::Workers;
use crate::progress::Progress;
use crate::task::Task;
use hgs_bytes::bytes::Bytes;
use hgs_files::files::Reads;
use hgs_judge::report::Finding;
use hgs_load::answer::ReadAnswer;
use hgs_report::store::Store;
use std::alloc::Global;
use std::collections::BTreeSet;
use std::thread::Threads;

// Judges filelogs, and meanwhile reads those of the paths that come next.
fn judge_and_read<T: Threads + Sync, R: Reads>(
    workers: &Workers<'_, T>,
    alloc: Global,
    files: &mut R,
    store: &Store,
    tasks: &mut [Task],
    paths: &mut BTreeSet<Bytes>,
) -> Result<Batch, ReadAnswer>
    ensures judged { AreJudged store.now tasks.old tasks.new }
    ensures next { IfOk result (λ batch. AreNext batch.tasks.items paths.old.keys paths.new.keys) }
    ensures read { IfOk result (λ batch. OfTree R.alone (R.seen files.new) (R.start files.new) (AreReadOf batch.tasks.items)) }
    ensures seen { Grows (R.seen files.old) (R.seen files.new) }
    ensures same_start { R.start files.new ≡ R.start files.old }
    ensures still { R.alone ≡ true → R.seen files.new ≡ R.seen files.old }
    ensures cause { HasFaultCause (R.faults files.old) (R.faults files.new) (R.denied files.old) (R.denied files.new) result }
    ensures refused { IfErr result (λ e. is_refusal e ≡ true) }
    ensures outside { IfErr result (λ e. is_of_outside e ≡ true) }
{
    workers.judge_beside(alloc, store, tasks, &mut || read_batch(alloc, files, paths))
}

/// Judges these paths: adds what is found of each, and marks the changesets whose lists of changed files are wrong at one of
/// them.
///
/// The caller reads the filelogs of one batch after another, and the workers judge each while the next one is read.
pub fn judge_paths<T: Threads + Sync, R: Reads, P: Progress>(
    workers: &Workers<'_, T>,
    progress: &mut P,
    alloc: Global,
    files: &mut R,
    store: &Store,
    mut paths: BTreeSet<Bytes>,
    into: &mut Vec<Finding>,
    marks: &mut [bool],
) -> Result<(), ReadAnswer>
    ensures added { OnOk result (OfTree R.alone (R.seen files.new) (R.start files.new) (λ t. IsStoreOf store.now t → AddPaths paths.keys (findings_in into.old.items) (findings_in into.new.items) marks.old marks.new t)) }
    ensures seen { Grows (R.seen files.old) (R.seen files.new) }
    ensures same_start { R.start files.new ≡ R.start files.old }
    ensures still { R.alone ≡ true → R.seen files.new ≡ R.seen files.old }
    ensures cause { HasFaultCause (R.faults files.old) (R.faults files.new) (R.denied files.old) (R.denied files.new) result }
    ensures refused { IfErr result (λ e. is_refusal e ≡ true) }
    ensures why { IfErr result (λ e. OfTree R.alone (R.seen files.new) (R.start files.new) (λ t. paths.keys ≡ used_paths (sight_of t) → IsLimited e t)) }
    ensures limits { OnOk result (OfTree R.alone (R.seen files.new) (R.start files.new) (PathsKeepLimits paths.keys)) }
{
    let all = paths.len();
    let mut tasks = read_batch(alloc, files, &mut paths)?.tasks;
    while !tasks.is_empty() {
        let left = paths.len().saturating_add(tasks.len());
        progress.tell(all.saturating_sub(left), all);
        let next = judge_and_read(workers, alloc, files, store, &mut tasks, &mut paths);
        add_all(alloc, tasks, into, marks)?;
        tasks = next?.tasks;
    }
    Ok(())
}
