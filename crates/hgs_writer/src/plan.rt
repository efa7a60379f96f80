//! What a command is planned to do, by what is read under the locks.
ghost use Rattle.std.specs.Prelude.{◌≡◌, ◌≤◌, ◌<◌, ◌*◌, ℕ, [], true, false, length, unwrap_or, IfOk, IfSome};
ghost use Rattle.hgs_commit.specs.Fault.{HasCause};
ghost use Rattle.hgs_files.specs.Tree.{Tree, after_all, bytes_at};
ghost use Rattle.hgs_machine.specs.Planned.{IsPlanned};
ghost use Rattle.hgs_machine.specs.Sound.{AreSound};
ghost use Rattle.hgs_index.specs.MarkName.{is_mark_name};
ghost use Rattle.hgs_model.specs.Valid.{IsNewChange, IsValid};
ghost use Rattle.hgs_load.specs.View.{changelog_index};
ghost use Rattle.hgs_revlog.specs.Loaded.{AreEntries};
ghost use Rattle.hgs_steps.specs.Steps.{CanBeAssembled, mark_of, move_of, planned as planned_of, unmark_of};
ghost use Rattle.hgs_loading.specs.Store.{view_store};
ghost use Rattle.hgs_commit.specs.Commit.{AtRest, Steps};
ghost use Rattle.hgs_commit.specs.OfCommit.{ArePartsOfCommit};
ghost use Rattle.hgs_writer.specs.Planning.{ComesTo, GivesStep, IsLoadedFrom, Plans};

use crate::import::import;
use crate::laws::{changelogs_are_counted, commits_are_sound, steps_are_sound, stores_are_loaded};
use crate::loaded::loaded_of;
use crate::paths::command_names_bytes;
use hgs_commit::commit::commit;
use hgs_commit::fault::CommitFault;
use hgs_files::files::Reads;
use hgs_index::node::Node;
use hgs_loading::store::history;
use hgs_machine::laws::plans_can_be_carried_out;
use hgs_model::command::{Command, NewChange};
use hgs_model::phase::Phase;
use hgs_steps::commands::{mark, move_phase, unmark};
use hgs_steps::fault::PlanFault;
use hgs_steps::loaded::Loaded;
use hgs_steps::step::Step;
use hgs_transaction::assemble::{Plan, assemble};
use std::alloc::Global;

/// A plan, and the changeset that is answered once it is carried out.
#[derive(Drop)]
pub struct Planned {
    pub plan: Plan,
    pub rev: u32,
    pub node: Node,
}

// The step of a phase command.
fn moved(
    alloc: Global,
    loaded: &Loaded,
    name: &[u8],
    to: Phase,
    force: bool,
) -> Result<Step, CommitFault>
    ensures comes { GivesStep result (planned_of loaded.now (move_of loaded.now name.now to force)) }
    ensures ready { IfOk result (λ step. CanBeAssembled step.parts) }
    ensures sound { IfOk result (λ step. (t : Tree) → AreSound t step.parts) }
    ensures cause { (faults : ℕ) → HasCause faults faults result }
{
    steps_are_sound();
    match move_phase(alloc, loaded, name, to, force) {
        Ok(step) => Ok(step),
        Err(fault) => Err(CommitFault::Refused(fault)),
    }
}

// The step that sets a bookmark.
fn marked(alloc: Global, loaded: &Loaded, name: &[u8], rev: &[u8]) -> Result<Step, CommitFault>
    requires { is_mark_name name.now ≡ true }
    ensures comes { GivesStep result (planned_of loaded.now (mark_of loaded.now name.now rev.now)) }
    ensures ready { IfOk result (λ step. CanBeAssembled step.parts) }
    ensures sound { IfOk result (λ step. (t : Tree) → AreSound t step.parts) }
    ensures cause { (faults : ℕ) → HasCause faults faults result }
{
    steps_are_sound();
    match mark(alloc, loaded, name, rev) {
        Ok(step) => Ok(step),
        Err(fault) => Err(CommitFault::Refused(fault)),
    }
}

// The step that deletes a bookmark.
fn unmarked(alloc: Global, loaded: &Loaded, name: &[u8]) -> Result<Step, CommitFault>
    ensures comes { GivesStep result (planned_of loaded.now (unmark_of loaded.now name.now)) }
    ensures ready { IfOk result (λ step. CanBeAssembled step.parts) }
    ensures sound { IfOk result (λ step. (t : Tree) → AreSound t step.parts) }
    ensures cause { (faults : ℕ) → HasCause faults faults result }
{
    steps_are_sound();
    match unmark(alloc, loaded, name) {
        Ok(step) => Ok(step),
        Err(fault) => Err(CommitFault::Refused(fault)),
    }
}

// The step of a commit.
fn committed<R: Reads>(
    alloc: Global,
    files: &mut R,
    loaded: Loaded,
    change: &NewChange,
) -> Result<Step, CommitFault>
    requires changelog { AreEntries loaded.changelog.entries }
    requires manifest { AreEntries loaded.manifest.entries }
    requires valid { IsNewChange change.now }
    ensures comes { AtRest R.alone (R.seen files.new) (R.start files.new) (λ t. Steps loaded change.now t result) }
    ensures parts { IfOk result (λ step. ArePartsOfCommit loaded.changelog step.parts) }
    ensures ready { IfOk result (λ step. CanBeAssembled step.parts) }
    ensures sound { IfOk result (λ step. (t : Tree) → (loaded.changelog.inline ≡ false → length (bytes_at t changelog_index) ≡ 64 * length loaded.changelog.entries) → AreSound t step.parts) }
    ensures same_start { R.start files.new ≡ R.start files.old }
    ensures still { R.alone ≡ true → R.seen files.new ≡ R.seen files.old }
    ensures later { R.faults files.old ≤ R.faults files.new }
    ensures refused { R.denied files.old ≤ R.denied files.new }
    ensures cause { HasCause (R.faults files.old) (R.faults files.new) result }
{
    commits_are_sound();
    match commit(alloc, files, loaded, change) {
        Ok(step) => Ok(step),
        Err(fault) => Err(fault),
    }
}

// The step of a command.
fn step_of<R: Reads>(
    alloc: Global,
    files: &mut R,
    loaded: Loaded,
    command: &Command,
) -> Result<Step, CommitFault>
    requires changelog { AreEntries loaded.changelog.entries }
    requires manifest { AreEntries loaded.manifest.entries }
    requires valid { IsValid command.now }
    ensures comes { AtRest R.alone (R.seen files.new) (R.start files.new) (λ t. ComesTo t loaded command.now result) }
    ensures ready { IfOk result (λ step. CanBeAssembled step.parts) }
    ensures sound { IfOk result (λ step. (t : Tree) → (loaded.changelog.inline ≡ false → length (bytes_at t changelog_index) ≡ 64 * length loaded.changelog.entries) → AreSound t step.parts) }
    ensures same_start { R.start files.new ≡ R.start files.old }
    ensures still { R.alone ≡ true → R.seen files.new ≡ R.seen files.old }
    ensures later { R.faults files.old ≤ R.faults files.new }
    ensures refused { R.denied files.old ≤ R.denied files.new }
    ensures cause { HasCause (R.faults files.old) (R.faults files.new) result }
{
    match command {
        Command::Commit(change) => committed(alloc, files, loaded, change),
        Command::Import(changes) => import(alloc, files, loaded, changes.as_slice()),
        Command::Move { rev, phase, force } => {
            moved(alloc, &loaded, rev.as_slice(), *phase, *force)
        }
        Command::Mark { name, rev } => marked(alloc, &loaded, name.as_slice(), rev.as_slice()),
        Command::Unmark { name } => unmarked(alloc, &loaded, name.as_slice()),
    }
}

/// The plan of a command, by what the files are that nobody else writes meanwhile.
pub fn plan<R: Reads>(
    alloc: Global,
    files: &mut R,
    command: &Command,
) -> Result<Planned, CommitFault>
    requires { IsValid command.now }
    ensures found { R.alone ≡ true → IfSome (R.seen files.new) (λ log. Plans command.now (after_all log (R.start files.new)) result) }
    ensures planned { R.alone ≡ true → IfOk result (λ planned. IfSome (R.seen files.new) (λ log. IsPlanned (after_all log (R.start files.new)) planned.plan)) }
    ensures same_start { R.start files.new ≡ R.start files.old }
    ensures still { R.alone ≡ true → R.seen files.new ≡ R.seen files.old }
    ensures later { R.faults files.old ≤ R.faults files.new }
    ensures refused { R.denied files.old ≤ R.denied files.new }
    ensures cause { HasCause (R.faults files.old) (R.faults files.new) result }
{
    plans_can_be_carried_out();
    stores_are_loaded();
    command_names_bytes(command);
    let store = match history(alloc, files) {
        Ok(store) => store,
        Err(refusal) => return Err(CommitFault::Unread(refusal)),
    };
    changelogs_are_counted();
    let loaded = loaded_of(store);
    let Step { parts, rev, node } = match step_of(alloc, files, loaded, command) {
        Ok(step) => step,
        Err(fault) => return Err(fault),
    };
    match assemble(alloc, parts) {
        Ok(plan) => Ok(Planned { plan, rev, node }),
        Err(_) => Err(CommitFault::Refused(PlanFault::Memory)),
    }
}
