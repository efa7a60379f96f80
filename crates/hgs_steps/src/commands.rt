//! Phase and bookmark commands.
ghost use Rattle.std.specs.Prelude.{◌≡◌, ◌<◌, true, length, IfOk};
ghost use Rattle.hgs_bytes.specs.Answer.{Gives};
ghost use Rattle.hgs_index.specs.MarkName.{is_mark_name};
ghost use Rattle.hgs_model.specs.Step.{guard, points_at};
ghost use Rattle.hgs_model.specs.declared.command.Refusal.TheVariants.{NothingChanged};
ghost use Rattle.hgs_reader.specs.Names.{mark_named};
ghost use Rattle.hgs_steps.specs.Fault.{is_memory};
ghost use Rattle.hgs_steps.specs.Steps.{CanBeAssembled, as_fault, if_separate, mark_of, mark_target, marked_at, move_allowed, move_of, move_target, moved, moved_at, planned, step_of, step_with, unmark_of};

use crate::fault::PlanFault;
use crate::loaded::Loaded;
use crate::replaced::{moved_roots, replace_bookmarks, replace_marks, test_counts};
use crate::step::Step;
use hgs_index::kinds::Which;
use hgs_model::command::Refusal;
use hgs_model::phase::Phase;
use hgs_phases::phases::Phases;
use hgs_transaction::parts::{Change, Changes, Parts, Replacing, Replacings};
use std::alloc::{AllocError, Global};

/// The step that replaces one file and answers this changeset, unless the changelog or the manifest is inline.
fn step_with(alloc: Global, loaded: &Loaded, file: Replacing, rev: u32) -> Result<Step, PlanFault>
    requires { rev < length loaded.now.changelog.entries }
    ensures step { result ≡ if_separate loaded.now (step_with loaded.now file rev) }
    ensures ready { IfOk result (λ step. CanBeAssembled step.parts) }
{
    if loaded.has_inline() {
        return Err(PlanFault::Limit(Which::Inline));
    }
    Ok(Step {
        parts: Parts {
            before: Changes::from_vec(Vec::new(alloc)),
            publishing: Change::Replace(file),
            after: Replacings::from_vec(Vec::new(alloc)),
        },
        rev,
        node: loaded.changelog.entry(rev).node,
    })
}

/// That a changeset may be moved to a phase.
fn test_move(loaded: &Loaded, rev: u32, to: Phase, force: bool) -> Result<(), PlanFault>
    requires { rev < length loaded.now.changelog.entries }
    ensures { result ≡ as_fault (move_allowed loaded.now rev to force) }
{
    let phase = loaded.phases.get(rev).number();
    if phase < to.number() && !force {
        return Err(PlanFault::Refused(Refusal::NeedsForce(rev)));
    }
    if to.number() == phase {
        return Err(PlanFault::Refused(Refusal::NothingChanged(rev)));
    }
    Ok(())
}

/// The changeset that is to be moved to a phase.
fn move_target(loaded: &Loaded, name: &[u8], to: Phase, force: bool) -> Result<u32, PlanFault>
    ensures target { result ≡ as_fault (move_target loaded.now name.now to force) }
    ensures below { IfOk result (λ rev. rev < length loaded.now.changelog.entries) }
{
    let rev = loaded.found(name)?;
    test_move(loaded, rev, to, force)?;
    Ok(rev)
}

/// The phases after a changeset was moved to a phase.
#[tactic(auto, using(crate::proofs::MovedLemmas::length_advanced, crate::proofs::MovedLemmas::length_retracted))]
fn moved(loaded: &Loaded, rev: u32, to: Phase) -> Result<Phases, AllocError>
    requires { rev < length loaded.now.changelog.entries }
    ensures phases { IfOk result (λ phases. phases ≡ moved loaded.now rev to) }
    ensures fit { IfOk result (λ phases. length phases ≡ length loaded.now.changelog.entries) }
{
    let mut phases = loaded.phases.copy()?;
    if to.number() < loaded.phases.get(rev).number() {
        phases.advance(rev, to, &loaded.changelog);
    } else {
        phases.retract(rev, to, &loaded.changelog);
    }
    Ok(phases)
}

/// The step that moves a changeset to a phase.
fn moved_step(alloc: Global, loaded: &Loaded, rev: u32, to: Phase) -> Result<Step, PlanFault>
    requires { rev < length loaded.now.changelog.entries }
    ensures step { Gives is_memory (λ step. step) result (step_of loaded.now (moved_at loaded.now to rev)) }
    ensures ready { IfOk result (λ step. CanBeAssembled step.parts) }
{
    test_counts(loaded, &loaded.bookmarks)?;
    let phases = moved(loaded, rev, to)?;
    let file = moved_roots(alloc, loaded, &phases)?;
    match step_with(alloc, loaded, file, rev) {
        Ok(step) => Ok(step),
        Err(fault) => Err(fault),
    }
}

/// Moves a changeset to a phase: to a lesser one with its ancestors, by force to a greater one with its descendants.
pub fn move_phase(
    alloc: Global,
    loaded: &Loaded,
    name: &[u8],
    to: Phase,
    force: bool,
) -> Result<Step, PlanFault>
    ensures step { Gives is_memory (λ step. step) result (planned loaded.now (move_of loaded.now name.now to force)) }
    ensures ready { IfOk result (λ step. CanBeAssembled step.parts) }
{
    match move_target(loaded, name, to, force) {
        Ok(rev) => moved_step(alloc, loaded, rev, to),
        Err(fault) => Err(fault),
    }
}

/// That a bookmark does not point at a changeset yet.
fn test_mark(loaded: &Loaded, name: &[u8], rev: u32) -> Result<(), PlanFault>
    ensures { result ≡ as_fault (guard (points_at (mark_named loaded.now.changelog.entries loaded.now.bookmarks name.now) rev) (NothingChanged rev)) }
{
    match loaded.bookmarked(name) {
        Some(other) if other == rev => Err(PlanFault::Refused(Refusal::NothingChanged(rev))),
        _ => Ok(()),
    }
}

/// The changeset that a bookmark is to be set to.
fn mark_target(loaded: &Loaded, name: &[u8], rev: &[u8]) -> Result<u32, PlanFault>
    ensures target { result ≡ as_fault (mark_target loaded.now name.now rev.now) }
    ensures below { IfOk result (λ rev. rev < length loaded.now.changelog.entries) }
{
    let target = loaded.found(rev)?;
    test_mark(loaded, name, target)?;
    Ok(target)
}

/// The step that sets a bookmark to a changeset.
fn marked_step(alloc: Global, loaded: &Loaded, name: &[u8], rev: u32) -> Result<Step, PlanFault>
    requires name { is_mark_name name.now ≡ true }
    requires stands { rev < length loaded.now.changelog.entries }
    ensures step { Gives is_memory (λ step. step) result (step_of loaded.now (marked_at loaded.now name.now rev)) }
    ensures ready { IfOk result (λ step. CanBeAssembled step.parts) }
{
    let node = loaded.changelog.entry(rev).node;
    match replace_bookmarks(alloc, loaded, name, node) {
        Ok(file) => match step_with(alloc, loaded, file, rev) {
            Ok(step) => Ok(step),
            Err(fault) => Err(fault),
        },
        Err(fault) => Err(fault),
    }
}

/// Sets a bookmark to the changeset that a name names, whether it stood or not.
pub fn mark(alloc: Global, loaded: &Loaded, name: &[u8], rev: &[u8]) -> Result<Step, PlanFault>
    requires { is_mark_name name.now ≡ true }
    ensures step { Gives is_memory (λ step. step) result (planned loaded.now (mark_of loaded.now name.now rev.now)) }
    ensures ready { IfOk result (λ step. CanBeAssembled step.parts) }
{
    match mark_target(loaded, name, rev) {
        Ok(target) => marked_step(alloc, loaded, name, target),
        Err(fault) => Err(fault),
    }
}

/// Deletes a bookmark. The step answers the changeset that it had.
pub fn unmark(alloc: Global, loaded: &Loaded, name: &[u8]) -> Result<Step, PlanFault>
    ensures step { Gives is_memory (λ step. step) result (planned loaded.now (unmark_of loaded.now name.now)) }
    ensures ready { IfOk result (λ step. CanBeAssembled step.parts) }
{
    let Some(rev) = loaded.bookmarked(name) else {
        return Err(PlanFault::Refused(Refusal::UnknownRevision));
    };
    let mut marks = loaded.bookmarks.copy()?;
    marks.delete(name);
    let file = replace_marks(alloc, loaded, &marks)?;
    match step_with(alloc, loaded, file, rev) {
        Ok(step) => Ok(step),
        Err(fault) => Err(fault),
    }
}
