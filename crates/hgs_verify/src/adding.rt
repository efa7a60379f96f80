//! What is found of some paths, which is added to what was found before.
ghost use Rattle.std.specs.Prelude.{◌≡◌, ◌++◌, IfErr, IfOk, OnOk, true, false, [], unwrap_or};
ghost use Rattle.hgs_files.specs.Tree.{Tree};
ghost use Rattle.hgs_judge.specs.Read.{KeepsLimits};
ghost use Rattle.hgs_judge.specs.Report.{findings_in, of_path};
ghost use Rattle.hgs_load.specs.Answer.{is_fault};
ghost use Rattle.hgs_report.specs.Store.{IsStoreOf};
ghost use Rattle.hgs_verify.specs.Added.{AddsPath};
ghost use Rattle.hgs_verify.specs.Refusal.{is_refusal, IsOfIndex, IsOfPaths, PathsKeepLimits};
ghost use Rattle.hgs_verify.specs.Task.{AreRightIn, IsReadOf, IsRight, paths_of, AreRefusedIn, AreWithinIn, HasCause, IsWithin};
ghost use Rattle.hgs_verify.specs.Walk.{AddPaths, AreMarked};

use crate::revlog::of_refusal;
use crate::task::Task;
use hgs_files::path::StorePath;
use hgs_judge::laws::added_findings;
use hgs_judge::path::PathFindings;
use hgs_judge::report::{Finding, add_path};
use hgs_load::answer::ReadAnswer;
use hgs_report::store::Store;
use std::alloc::{AllocError, Global};

/// Revisions and changesets have numbers below this.
const MOST: usize = 0x1_0000_0000;

// Adds what was found of a path, and hands back for each changeset whether its list of changed files is wrong there.
fn add_found(
    alloc: Global,
    index: &StorePath,
    chunks: &StorePath,
    found: PathFindings,
    into: &mut Vec<Finding>,
) -> Result<Vec<bool>, AllocError>
    ensures added { OnOk result (findings_in into.new.items ≡ findings_in into.old.items ++ of_path index.now chunks.now found) }
    ensures lists { IfOk result (λ wrong. wrong.items ≡ found.listed_wrongly.items) }
{
    if found.kinds.len() >= MOST || found.lacking.len() >= MOST {
        return Err(AllocError);
    }
    add_path(alloc, index, chunks, &found, into)?;
    let PathFindings {
        count: _,
        broken: _,
        kinds: _,
        index_rest: _,
        data_rest: _,
        listed_wrongly,
        lacking: _,
    } = found;
    Ok(listed_wrongly)
}

// Adds what was found of one of them, and hands back for each changeset whether its list of changed files is wrong there.
fn add_task(alloc: Global, task: Task, into: &mut Vec<Finding>) -> Result<Vec<bool>, ReadAnswer>
    ensures added { IfOk result (λ wrong. (s : Store) (t : Tree) → IsStoreOf s t → IsReadOf task t → IsRight s task → AddsPath task.path (findings_in into.old.items) (findings_in into.new.items) wrong.items t) }
    ensures fault { IfErr result (λ e. is_fault e ≡ false) }
    ensures refused { IfErr result (λ e. is_refusal e ≡ true) }
    ensures index { IfErr result (λ e. HasCause task → IsOfIndex (unwrap_or task.parts.index []) e) }
    ensures limits { OnOk result (IsWithin task → KeepsLimits (unwrap_or task.parts.index [])) }
{
    added_findings();
    let Task {
        path: _,
        index,
        chunks,
        parts: _,
        found,
    } = task;
    match found {
        Ok(found) => Ok(add_found(alloc, &index, &chunks, found, into)?),
        Err(fault) => Err(of_refusal(fault)),
    }
}

// Marks those that are marked among the others.
fn mark(marks: &mut [bool], more: &[bool])
    ensures { AreMarked marks.old more.now marks.new }
{
    for at in 0..marks.len() {
        if at < more.len() {
            marks[at] = marks[at] || more[at];
        }
    }
}

/// Adds what was found of each of them, and marks the changesets whose lists of changed files are wrong at one of them.
///
/// It is refused where the index of one passes a limit, and for want of memory.
pub fn add_all(
    alloc: Global,
    tasks: Vec<Task>,
    into: &mut Vec<Finding>,
    marks: &mut [bool],
) -> Result<(), ReadAnswer>
    ensures added { OnOk result ((s : Store) (t : Tree) → IsStoreOf s t → AreRightIn s t tasks.items → AddPaths (paths_of tasks.items) (findings_in into.old.items) (findings_in into.new.items) marks.old marks.new t) }
    ensures fault { IfErr result (λ e. is_fault e ≡ false) }
    ensures refused { IfErr result (λ e. is_refusal e ≡ true) }
    ensures index { IfErr result (λ e. (t : Tree) → AreRefusedIn t tasks.items → IsOfPaths (paths_of tasks.items) e t) }
    ensures limits { OnOk result ((t : Tree) → AreWithinIn t tasks.items → PathsKeepLimits (paths_of tasks.items) t) }
{
    for task in tasks {
        let wrong = add_task(alloc, task, into)?;
        mark(marks, &wrong);
    }
    Ok(())
}
