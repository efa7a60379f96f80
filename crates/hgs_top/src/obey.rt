//! Doing what a command asks for that changes files.
ghost use Rattle.std.specs.Prelude.{◌≡◌, ◌≢◌, ◌≤◌, ◌⊎◌, ℕ, List, Option, IfOk, IfErr, is_some, true};
ghost use Rattle.hgs_answers.specs.declared.outcome.Outcome.TheVariants.{Fault, Unfinished};
ghost use Rattle.hgs_answers.specs.declared.outcome.Published.{Published};
ghost use Rattle.hgs_files.specs.Files.{GoesOn};
ghost use Rattle.hgs_files.specs.Reads.{Rose};
ghost use Rattle.hgs_files.specs.Tree.{Tree};
ghost use Rattle.hgs_files.specs.declared.op.Op.{Op};
ghost use Rattle.hgs_index.specs.MarkName.{is_mark_name};
ghost use Rattle.hgs_machine.specs.Carry.{tree_now};
ghost use Rattle.hgs_machine.specs.Refusals.{WereRefused};
ghost use Rattle.hgs_model.specs.Valid.{IsValid};
ghost use Rattle.hgs_model.specs.declared.command.Command.{Command as ModelCommand};
ghost use Rattle.hgs_top.specs.Orders.{AllowedHasCause, ComesTo, HasCause, IsAllowed, IsAtEnd, IsCommandOf, IsFit, IsReadBy, LeavesEach, LeavesInput, LeftHasCause, ended_status, lock_text};
ghost use Rattle.hgs_writer.specs.Refusals.{refusals_of};
ghost use Rattle.hgs_writer.specs.Written.{IsWritten};
ghost use Rattle.hgs_top.specs.Words.{Job, do_commit, do_import, do_mark, do_move, do_unmark, job_of};

use crate::ended::Ended;
use crate::init::init;
use crate::input::read_input;
use crate::orders::Order;
use hgs_answers::answer::Answer;
use hgs_bytes::bytes::Bytes;
use hgs_files::files::Files;
use hgs_files::streams::{IoFault, Source};
use hgs_input::fault::InputFault;
use hgs_input::import::read_import;
use hgs_input::laws::{
    imports_are_decided_by_fronts, long_inputs_are_decided, read_imports_are_imports,
    read_records_are_records,
};
use hgs_input::record::read_commit;
use hgs_load::answer::ReadAnswer;
use hgs_loading::whole::test_requires;
use hgs_model::command::Command;
use hgs_model::phase::Phase;
use hgs_recover::recover::recover;
use hgs_writer::write::write;
use std::alloc::{AllocError, Global};

/// What stands in the locks of a writer.
pub(crate) const WHO: &[u8; 8] = b"hg-store";

// The commit whose record stands on the input.
fn commit_from<S: Source>(alloc: Global, input: &mut S) -> Result<Command, Ended>
    ensures valid { IfOk result (λ command. IsValid command) }
    ensures command { IfOk result (λ command. IsCommandOf do_commit (S.left input.old) command) }
    ensures refused { IfErr result (λ ended. (log : Option (List Op)) (start : Tree) → ComesTo do_commit (S.left input.old) log log start ended) }
    ensures whole { IfOk result (λ command. IsAtEnd (S.left input.new)) }
    ensures other { IfErr result (λ ended. ended_status ended ≢ 0) }
    ensures left { IfErr result (λ ended. (log : Option (List Op)) (start : Tree) → LeftHasCause (λ n. ⊥) log log start ended) }
    ensures cause { IfErr result (λ ended. (faults_old faults_new denied_old denied_new : ℕ) → HasCause faults_old faults_new denied_old denied_new (S.faults input.old) (S.faults input.new) ended) }
{
    let bytes = match read_input(alloc, input) {
        Ok(bytes) => bytes,
        Err(IoFault::Failed) => return Err(Ended::NoInput),
        Err(IoFault::Memory) => return Err(Ended::NoRecord(InputFault::Memory)),
    };
    read_records_are_records();
    long_inputs_are_decided();
    match read_commit(alloc, &bytes) {
        Ok(change) => Ok(Command::Commit(change)),
        Err(fault) => Err(Ended::NoRecord(fault)),
    }
}

// The import whose records stand on the input.
fn import_from<S: Source>(alloc: Global, input: &mut S) -> Result<Command, Ended>
    ensures valid { IfOk result (λ command. IsValid command) }
    ensures command { IfOk result (λ command. IsCommandOf do_import (S.left input.old) command) }
    ensures refused { IfErr result (λ ended. (log : Option (List Op)) (start : Tree) → ComesTo do_import (S.left input.old) log log start ended) }
    ensures whole { IfOk result (λ command. IsAtEnd (S.left input.new)) }
    ensures other { IfErr result (λ ended. ended_status ended ≢ 0) }
    ensures left { IfErr result (λ ended. (log : Option (List Op)) (start : Tree) → LeftHasCause (λ n. ⊥) log log start ended) }
    ensures cause { IfErr result (λ ended. (faults_old faults_new denied_old denied_new : ℕ) → HasCause faults_old faults_new denied_old denied_new (S.faults input.old) (S.faults input.new) ended) }
{
    let bytes = match read_input(alloc, input) {
        Ok(bytes) => bytes,
        Err(IoFault::Failed) => return Err(Ended::NoInput),
        Err(IoFault::Memory) => return Err(Ended::NoRecord(InputFault::Memory)),
    };
    read_imports_are_imports();
    imports_are_decided_by_fronts();
    match read_import(alloc, &bytes) {
        Ok(changes) => Ok(Command::Import(changes)),
        Err(fault) => Err(Ended::NoRecord(fault)),
    }
}

fn move_of(alloc: Global, rev: &[u8], phase: Phase, force: bool) -> Result<Command, AllocError>
    ensures command { IfOk result (λ command. (left : Option (List ℕ)) → IsCommandOf (do_move rev.now phase force) left command) }
    ensures valid { IfOk result (λ command. IsValid command) }
{
    Ok(Command::Move {
        rev: Bytes::from_slice(alloc, rev)?,
        phase,
        force,
    })
}

fn mark_of(alloc: Global, name: &[u8], rev: &[u8]) -> Result<Command, AllocError>
    requires { is_mark_name name.now ≡ true }
    ensures command { IfOk result (λ command. (left : Option (List ℕ)) → IsCommandOf (do_mark name.now rev.now) left command) }
    ensures valid { IfOk result (λ command. IsValid command) }
{
    Ok(Command::Mark {
        name: Bytes::from_slice(alloc, name)?,
        rev: Bytes::from_slice(alloc, rev)?,
    })
}

fn unmark_of(alloc: Global, name: &[u8]) -> Result<Command, AllocError>
    ensures command { IfOk result (λ command. (left : Option (List ℕ)) → IsCommandOf (do_unmark name.now) left command) }
    ensures valid { IfOk result (λ command. IsValid command) }
{
    Ok(Command::Unmark {
        name: Bytes::from_slice(alloc, name)?,
    })
}

// What a writer answers.
fn written<F: Files>(alloc: Global, files: &mut F, command: &Command) -> Answer
    requires valid { IsValid command.now }
    requires allows { (log : List Op) → F.allows (F.start files.old) log }
    ensures log { GoesOn (F.log files.old) (F.log files.new) (IsWritten lock_text command.now (tree_now (F.log files.old) (F.start files.old)) result) }
    ensures fault { result.outcome ≡ Fault → Rose (F.faults files.old) (F.faults files.new) }
    ensures unfinished { (published : Published) → result.outcome ≡ Unfinished published → Rose (F.faults files.old) (F.faults files.new) ⊎ Rose (F.denied files.old) (F.denied files.new) }
    ensures calls { WereRefused (refusals_of (is_some (F.log files.old)) result) (F.faults files.old) (F.faults files.new) (F.denied files.old) (F.denied files.new) }
    ensures left { LeavesEach (λ n. WereRefused n (F.faults files.old) (F.faults files.new) (F.denied files.old) (F.denied files.new)) (F.log files.old) (F.log files.new) (F.start files.old) command.now result }
    ensures later { F.faults files.old ≤ F.faults files.new }
    ensures denied { F.denied files.old ≤ F.denied files.new }
    ensures same_start { F.start files.new ≡ F.start files.old }
{
    write(alloc, files, command, WHO)
}

// What a writer answers, where `requires` is of the profile.
fn answer_to<F: Files>(
    alloc: Global,
    files: &mut F,
    command: &Command,
) -> Result<Answer, ReadAnswer>
    requires valid { IsValid command.now }
    requires allows { (log : List Op) → F.allows (F.start files.old) log }
    ensures comes { IsAllowed command.now (F.log files.old) (F.log files.new) (F.start files.old) result }
    ensures calls { IfOk result (λ answer. WereRefused (refusals_of (is_some (F.log files.old)) answer) (F.faults files.old) (F.faults files.new) (F.denied files.old) (F.denied files.new)) }
    ensures left { IfOk result (λ answer. LeavesEach (λ n. WereRefused n (F.faults files.old) (F.faults files.new) (F.denied files.old) (F.denied files.new)) (F.log files.old) (F.log files.new) (F.start files.old) command.now answer) }
    ensures cause { AllowedHasCause (F.faults files.old) (F.faults files.new) (F.denied files.old) (F.denied files.new) result }
    ensures same_start { F.start files.new ≡ F.start files.old }
{
    match test_requires(alloc, files) {
        Ok(()) => Ok(written(alloc, files, command)),
        Err(refusal) => Err(refusal),
    }
}

// Carries out a command over a repository of the profile.
fn obey<F: Files>(alloc: Global, files: &mut F, command: Command) -> Ended
    requires valid { IsValid command }
    requires allows { (log : List Op) → F.allows (F.start files.old) log }
    ensures comes { (job : Job) (left : Option (List ℕ)) → IsCommandOf job left command → ComesTo job left (F.log files.old) (F.log files.new) (F.start files.old) result }
    ensures left { LeftHasCause (λ n. WereRefused n (F.faults files.old) (F.faults files.new) (F.denied files.old) (F.denied files.new)) (F.log files.old) (F.log files.new) (F.start files.old) result }
    ensures cause { (input_old input_new : ℕ) → HasCause (F.faults files.old) (F.faults files.new) (F.denied files.old) (F.denied files.new) input_old input_new result }
    ensures same_start { F.start files.new ≡ F.start files.old }
{
    match answer_to(alloc, files, &command) {
        Ok(answer) => Ended::Answered { command, answer },
        Err(refusal) => Ended::Refused(refusal),
    }
}

// Carries out a command of words alone, if there was memory for it.
fn obey_named<F: Files>(alloc: Global, files: &mut F, command: Result<Command, AllocError>) -> Ended
    requires valid { IfOk command (λ command. IsValid command) }
    requires allows { (log : List Op) → F.allows (F.start files.old) log }
    ensures comes { (job : Job) → ((left : Option (List ℕ)) → (c : ModelCommand) × IsCommandOf job left c) → IfOk command (λ command. (left : Option (List ℕ)) → IsCommandOf job left command) → (left : Option (List ℕ)) → ComesTo job left (F.log files.old) (F.log files.new) (F.start files.old) result }
    ensures left { LeftHasCause (λ n. WereRefused n (F.faults files.old) (F.faults files.new) (F.denied files.old) (F.denied files.new)) (F.log files.old) (F.log files.new) (F.start files.old) result }
    ensures cause { (input_old input_new : ℕ) → HasCause (F.faults files.old) (F.faults files.new) (F.denied files.old) (F.denied files.new) input_old input_new result }
    ensures same_start { F.start files.new ≡ F.start files.old }
{
    match command {
        Ok(command) => obey(alloc, files, command),
        Err(_) => Ended::Refused(ReadAnswer::Memory),
    }
}

// Commits the record that stands on the input.
fn commit<F: Files, S: Source>(alloc: Global, files: &mut F, input: &mut S) -> Ended
    requires { (log : List Op) → F.allows (F.start files.old) log }
    ensures comes { ComesTo do_commit (S.left input.old) (F.log files.old) (F.log files.new) (F.start files.old) result }
    ensures whole { ended_status result ≡ 0 → IsAtEnd (S.left input.new) }
    ensures left { LeftHasCause (λ n. WereRefused n (F.faults files.old) (F.faults files.new) (F.denied files.old) (F.denied files.new)) (F.log files.old) (F.log files.new) (F.start files.old) result }
    ensures cause { HasCause (F.faults files.old) (F.faults files.new) (F.denied files.old) (F.denied files.new) (S.faults input.old) (S.faults input.new) result }
    ensures same_start { F.start files.new ≡ F.start files.old }
{
    match commit_from(alloc, input) {
        Ok(command) => obey(alloc, files, command),
        Err(ended) => ended,
    }
}

// Commits the records that stand on the input, all at once.
fn import<F: Files, S: Source>(alloc: Global, files: &mut F, input: &mut S) -> Ended
    requires { (log : List Op) → F.allows (F.start files.old) log }
    ensures comes { ComesTo do_import (S.left input.old) (F.log files.old) (F.log files.new) (F.start files.old) result }
    ensures whole { ended_status result ≡ 0 → IsAtEnd (S.left input.new) }
    ensures left { LeftHasCause (λ n. WereRefused n (F.faults files.old) (F.faults files.new) (F.denied files.old) (F.denied files.new)) (F.log files.old) (F.log files.new) (F.start files.old) result }
    ensures cause { HasCause (F.faults files.old) (F.faults files.new) (F.denied files.old) (F.denied files.new) (S.faults input.old) (S.faults input.new) result }
    ensures same_start { F.start files.new ≡ F.start files.old }
{
    match import_from(alloc, input) {
        Ok(command) => obey(alloc, files, command),
        Err(ended) => ended,
    }
}

/// Does what the command asks for, and answers what it came to.
pub fn do_order<F: Files, S: Source>(
    alloc: Global,
    order: Order<'_>,
    files: &mut F,
    input: &mut S,
) -> Ended
    requires fit { IsFit order }
    requires allows { (log : List Op) → F.allows (F.start files.old) log }
    ensures comes { ComesTo (job_of order.entry) (S.left input.old) (F.log files.old) (F.log files.new) (F.start files.old) result }
    ensures left { LeftHasCause (λ n. WereRefused n (F.faults files.old) (F.faults files.new) (F.denied files.old) (F.denied files.new)) (F.log files.old) (F.log files.new) (F.start files.old) result }
    ensures cause { HasCause (F.faults files.old) (F.faults files.new) (F.denied files.old) (F.denied files.new) (S.faults input.old) (S.faults input.new) result }
    ensures whole { IsReadBy (job_of order.entry) (ended_status result) (S.left input.new) }
    ensures input { LeavesInput (job_of order.entry) (S.left input.old) (S.left input.new) (S.faults input.old) (S.faults input.new) }
    ensures same_start { F.start files.new ≡ F.start files.old }
{
    match order {
        Order::Init => init(alloc, files),
        Order::Commit => commit(alloc, files, input),
        Order::Import => import(alloc, files, input),
        Order::Recover => Ended::Recovered(recover(alloc, files)),
        Order::Move { rev, phase, force } => {
            obey_named(alloc, files, move_of(alloc, rev, phase, force))
        }
        Order::Mark { name, rev } => obey_named(alloc, files, mark_of(alloc, name, rev)),
        Order::Unmark { name } => obey_named(alloc, files, unmark_of(alloc, name)),
    }
}
