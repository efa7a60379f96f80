//! A writer at work, whose operations are done one event after another.
ghost use Rattle.std.specs.Prelude.{◌≡◌, ◌≤◌, ◌<◌, ◌+◌, ◌^◌, [], IfOk, Ok, OnOk, Some, true};
ghost use Rattle.hgs_files.specs.declared.op.Op.{Op};
ghost use Rattle.hgs_files.specs.Files.{GoesOn};
ghost use Rattle.hgs_machine.specs.Asked.{Doing, asked};
ghost use Rattle.hgs_machine.specs.SoFar.{questions_left};
ghost use Rattle.hgs_mem.specs.Steady.{steady_log, steady_start, steady_tree};
ghost use Rattle.hgs_world.specs.Texts.{word_line};
ghost use Rattle.hgs_world.specs.Working.{Acts, AnswersSize, asks_part, Does, HasBytes, IsAtNext, CanGoOn, KeepsSoFar, OfOperation, RunsTo, at_machine, StopsWithin, asks_rest, is_at, is_ending, is_part, is_rest, line_at, publishes_with};

use crate::parts::{do_part, do_rest, op_length};
use crate::seen::NoMemory;
use crate::texts::{answer_line, word_line};
use hgs_files::files::Reads;
use hgs_files::op::Op;
use hgs_index::node::Node;
use hgs_machine::laws::sources_stand;
use hgs_machine::machine::{Machine, Next, Reply};
use hgs_mem::steady::SteadyFiles;
use std::alloc::Global;

/// A writer at work.
#[derive(Drop)]
pub struct Working {
    pub machine: Machine,
    /// How many bytes of its next operation are done.
    pub part: u64,
    /// The changeset that it answers once it is done.
    pub rev: u32,
    pub node: Node,
}

/// What is done of the writer's next operation.
#[derive(Clone, Copy, Debug)]
pub enum Deed {
    /// All that is left of it.
    All,
    /// So many more bytes.
    Part(u64),
    /// So many more bytes, and then it fails.
    Fail(u64),
}

/// Up to where a writer goes on.
#[derive(Clone, Copy, Debug)]
pub enum Goal {
    /// Its next operation publishes.
    Publishing,
    /// Its next operation removes the journal of what is published.
    Cleaning,
    End,
}

// Answers the question for a size, if that is what the writer asks for.
fn answer_size(files: &mut SteadyFiles, machine: &mut Machine) -> Result<bool, NoMemory>
    ensures answers { IfOk result (AnswersSize (steady_tree files.old) machine.old machine.new) }
    ensures so_far { OnOk result (KeepsSoFar (steady_tree files.old) machine.old machine.new) }
    ensures fewer { result ≡ Ok true → questions_left machine.new < questions_left machine.old }
    ensures log { steady_log files.new ≡ steady_log files.old }
    ensures same_start { steady_start files.new ≡ steady_start files.old }
{
    let size = match machine.next() {
        Next::Size(path) => files.size(path),
        _ => return Ok(false),
    };
    match size {
        Ok(size) => {
            machine.feed(Reply::Size(size));
            Ok(true)
        }
        Err(_) => Err(NoMemory),
    }
}

// Answers the writer's questions for sizes, up to its next operation.
fn come_to_next(files: &mut SteadyFiles, machine: &mut Machine) -> Result<(), NoMemory>
    ensures next { OnOk result (IsAtNext (steady_tree files.old) machine.old machine.new) }
    ensures fewer { OnOk result (questions_left machine.new ≤ questions_left machine.old) }
    ensures so_far { OnOk result (KeepsSoFar (steady_tree files.old) machine.old machine.new) }
    ensures log { steady_log files.new ≡ steady_log files.old }
    ensures same_start { steady_start files.new ≡ steady_start files.old }
{
    'sizes: loop {
        match answer_size(files, machine) {
            Ok(true) => {}
            Ok(false) => return Ok(()),
            Err(fault) => return Err(fault),
        }
    }
}

// Whether fewer bytes are to be done than are left.
fn is_part(op: &Op, part: u64, count: u64) -> bool
    ensures part { result ≡ is_part op.now part count }
    ensures small { result ≡ true → part + count < 2 ^ 64 }
{
    count < op_length(op).saturating_sub(part)
}

// Whether so many more bytes are all that is left of an append of some.
fn is_rest(op: &Op, part: u64, count: u64) -> bool
    ensures { result ≡ is_rest op.now part count }
{
    match op {
        Op::Append { bytes, .. } => {
            0 < bytes.len() && (bytes.len() as u64).saturating_sub(part) <= count
        }
        _ => false,
    }
}

impl Working {
    /// Answers questions for sizes, up to the next operation.
    pub fn come(&mut self, files: &mut SteadyFiles) -> Result<(), NoMemory>
        requires at_work { CanGoOn (steady_tree files.old) self.old }
        ensures next { OnOk result (IsAtNext (steady_tree files.old) self.old.machine self.new.machine) }
        ensures same { OnOk result (self.new ≡ at_machine self.old self.new.machine) }
        ensures at_work { OnOk result (CanGoOn (steady_tree files.new) self.new) }
        ensures fewer { OnOk result (questions_left self.new.machine ≤ questions_left self.old.machine) }
        ensures log { steady_log files.new ≡ steady_log files.old }
        ensures same_start { steady_start files.new ≡ steady_start files.old }
    {
        come_to_next(files, &mut self.machine)
    }

    // Does all that is left of the next operation.
    fn finish_next(&mut self, files: &mut SteadyFiles) -> Result<(), NoMemory>
        requires at_work { CanGoOn (steady_tree files.old) self.old }
        ensures does { OnOk result (GoesOn (Some (steady_log files.old)) (Some (steady_log files.new)) (λ done. OfOperation (asked self.old.machine) (λ op. Does Deed.All op self.old done self.new) ((done ≡ []) × (self.new ≡ self.old)))) }
        ensures at_work { OnOk result (CanGoOn (steady_tree files.new) self.new) }
        ensures same_start { steady_start files.new ≡ steady_start files.old }
        ensures fewer { OnOk result ((op : Op) → asked self.old.machine ≡ Doing op → questions_left self.new.machine < questions_left self.old.machine) }
    {
        sources_stand();
        match self.machine.next() {
            Next::Do(op) => do_rest(files, op, self.part)?,
            _ => return Ok(()),
        }
        self.machine.feed(Reply::Done);
        self.part = 0;
        Ok(())
    }

    // Whether more than so many bytes of the next operation are left.
    fn has_part(&self, count: u64) -> bool
        ensures part { result ≡ asks_part (asked self.now.machine) self.now.part count }
        ensures small { result ≡ true → self.now.part + count < 2 ^ 64 }
    {
        match self.machine.next() {
            Next::Do(op) => is_part(op, self.part, count),
            _ => false,
        }
    }

    // Does so many bytes of the next operation, or all that is left of it.
    fn do_more(&mut self, files: &mut SteadyFiles, count: u64) -> Result<(), NoMemory>
        requires at_work { CanGoOn (steady_tree files.old) self.old }
        requires some { 1 ≤ count }
        ensures does { OnOk result (GoesOn (Some (steady_log files.old)) (Some (steady_log files.new)) (λ done. OfOperation (asked self.old.machine) (λ op. Does (Deed.Part count) op self.old done self.new) ((done ≡ []) × (self.new ≡ self.old)))) }
        ensures at_work { OnOk result (CanGoOn (steady_tree files.new) self.new) }
        ensures same_start { steady_start files.new ≡ steady_start files.old }
    {
        if !self.has_part(count) {
            return self.finish_next(files);
        }
        match self.machine.next() {
            Next::Do(op) => do_part(files, op, self.part, count)?,
            _ => return Ok(()),
        }
        self.part += count;
        Ok(())
    }

    // Does so many bytes of the next operation, which then fails.
    fn fail_next(&mut self, files: &mut SteadyFiles, count: u64) -> Result<(), NoMemory>
        requires at_work { CanGoOn (steady_tree files.old) self.old }
        ensures does { OnOk result (GoesOn (Some (steady_log files.old)) (Some (steady_log files.new)) (λ done. OfOperation (asked self.old.machine) (λ op. Does (Deed.Fail count) op self.old done self.new) ((done ≡ []) × (self.new ≡ self.old)))) }
        ensures at_work { OnOk result (CanGoOn (steady_tree files.new) self.new) }
        ensures same_start { steady_start files.new ≡ steady_start files.old }
    {
        match self.machine.next() {
            Next::Do(op) => do_part(files, op, self.part, count)?,
            _ => return Ok(()),
        }
        self.machine.feed(Reply::Failed);
        self.part = 0;
        Ok(())
    }

    /// Does this of the next operation, before which it answers questions for sizes.
    pub fn act(&mut self, files: &mut SteadyFiles, deed: Deed) -> Result<(), NoMemory>
        requires at_work { CanGoOn (steady_tree files.old) self.old }
        requires some { HasBytes deed }
        ensures acts { OnOk result (GoesOn (Some (steady_log files.old)) (Some (steady_log files.new)) (λ done. Acts deed (steady_tree files.old) self.old done self.new)) }
        ensures at_work { OnOk result (CanGoOn (steady_tree files.new) self.new) }
        ensures same_start { steady_start files.new ≡ steady_start files.old }
    {
        self.come(files)?;
        match deed {
            Deed::All => self.finish_next(files),
            Deed::Part(count) => self.do_more(files, count),
            Deed::Fail(count) => self.fail_next(files, count),
        }
    }

    // Whether it is where it is to go on to.
    fn is_at(&self, goal: Goal) -> bool
        ensures { result ≡ is_at goal self.now.machine }
    {
        match goal {
            Goal::Publishing => self.machine.is_publishing(),
            Goal::Cleaning => self.machine.is_cleaning(),
            Goal::End => false,
        }
    }

    /// Whether nothing is left for it to do.
    pub fn has_ended(&self) -> bool
        ensures { result ≡ is_ending (asked self.now.machine) }
    {
        matches!(self.machine.next(), Next::End(_))
    }

    /// Does operations up to a goal, or to its end.
    pub fn run(&mut self, files: &mut SteadyFiles, goal: Goal) -> Result<(), NoMemory>
        requires at_work { CanGoOn (steady_tree files.old) self.old }
        ensures runs { OnOk result (GoesOn (Some (steady_log files.old)) (Some (steady_log files.new)) (λ done. RunsTo goal (steady_tree files.old) self.old done self.new)) }
        ensures at_work { OnOk result (CanGoOn (steady_tree files.new) self.new) }
        ensures same_start { steady_start files.new ≡ steady_start files.old }
    {
        'ops: loop {
            self.come(files)?;
            if self.has_ended() || self.is_at(goal) {
                return Ok(());
            }
            self.finish_next(files)?;
        }
    }

    // Whether so many more bytes are all that is left of the next operation, an append of some.
    fn has_rest(&self, count: u64) -> bool
        ensures { result ≡ asks_rest (asked self.now.machine) self.now.part count }
    {
        match self.machine.next() {
            Next::Do(op) => is_rest(op, self.part, count),
            _ => false,
        }
    }

    /// Whether the last byte of the publishing operation stands once so many more bytes of the next operation are done.
    pub fn publishes_with(&self, count: u64) -> bool
        ensures { result ≡ publishes_with count self.now }
    {
        self.machine.is_published() || self.machine.is_publishing() && self.has_rest(count)
    }

    /// Does so many bytes of the next operation, and nothing more.
    pub fn stop(&mut self, files: &mut SteadyFiles, count: u64) -> Result<(), NoMemory>
        requires at_work { CanGoOn (steady_tree files.old) self.old }
        ensures stops { OnOk result (GoesOn (Some (steady_log files.old)) (Some (steady_log files.new)) (λ done. StopsWithin count (steady_tree files.old) self.old done self.new)) }
        ensures same_start { steady_start files.new ≡ steady_start files.old }
    {
        self.come(files)?;
        match self.machine.next() {
            Next::Do(op) => do_part(files, op, self.part, count),
            Next::Size(_) => Ok(()),
            Next::End(_) => Ok(()),
        }
    }

    /// Its line: its answer where nothing is left to do, else these words.
    pub fn line(&self, alloc: Global, words: &[u8]) -> Result<Vec<u8>, NoMemory>
        ensures { IfOk result (λ line. line.items ≡ line_at (asked self.now.machine) (word_line words.now) self.now) }
    {
        match self.machine.next() {
            Next::End(ended) => answer_line(alloc, ended, self.rev, &self.node),
            _ => word_line(alloc, words),
        }
    }
}
