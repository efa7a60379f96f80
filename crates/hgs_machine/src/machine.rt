//! A transaction as a machine, which asks for one call on the files after another and is told what became of it.
ghost use Rattle.std.specs.Prelude.{◌≡◌, ◌==◌, ◌<◌, ◌≤◌, ◌+◌, ◌&&◌, [], true, length, slice_get, if◌then◌else◌, nat_lt, ◌-◌, unwrap_or, IsSome, None};
ghost use Rattle.std.specs.Option.{option_map};
ghost use Rattle.hgs_files.specs.Tree.{Tree};
ghost use Rattle.hgs_machine.specs.Planned.{IsPlanned};
ghost use Rattle.hgs_machine.specs.Asked.{IsNext, asked, asks_size, bytes_in, is_size_asked_of, makes, op_at_hand, size_question, stray_end, was_made};
ghost use Rattle.hgs_machine.specs.Fed.{fed, is_acknowledged, is_cleaning, is_published, is_publishing, new_machine};
ghost use Rattle.hgs_machine.specs.declared.ended.Ended.{Ended};
ghost use Rattle.hgs_machine.specs.declared.machine.Reply.{Reply};
ghost use Rattle.hgs_machine.specs.SoFar.{Blames, EndsWell, Fits, HasNoSize, SoFar, Steps, questions_left, sweep_from};

use crate::ended::{Ended, Published, Short};
use hgs_bytes::parts::equal;
use hgs_files::op::Op;
use hgs_files::path::StorePath;
use hgs_transaction::assemble::Plan;

/// What a machine asks for.
#[derive(Debug, Drop)]
pub enum Next<'a> {
    /// This operation.
    Do(&'a Op),
    /// The size of this file.
    Size(&'a StorePath),
    /// Nothing more.
    End(Ended),
}

/// What became of what a machine asked for.
#[derive(Clone, Copy, Debug, PartialEq, Eq)]
pub enum Reply {
    /// The operation was done.
    Done,
    /// It failed.
    Failed,
    /// It found no memory.
    Memory,
    /// The size of the file, none where it is absent.
    Size(Option<u64>),
    /// The question for the size failed.
    SizeFailed,
    /// It found no memory.
    SizeMemory,
}

/// How far a transaction has come.
#[derive(Clone, Copy, Debug, PartialEq, Eq)]
enum Stage {
    /// Before its journal.
    Preparing,
    /// At the rename that gives its journal the name.
    Beginning,
    /// Behind that, and before its publishing operation.
    Working,
    /// At its publishing operation.
    Publishing,
    /// The publishing append failed: the size of its file is asked for.
    Asking,
    /// Behind the publishing operation.
    Finishing,
    /// It is taken back.
    Undoing,
    /// The removals behind it.
    Sweeping,
    /// At the removal of a file that stands.
    Removing,
}

/// A transaction that is carried out. No call of it takes memory.
#[derive(Drop)]
pub struct Machine {
    plan: Plan,
    stage: Stage,
    /// How many operations of the plan are done.
    done: usize,
    /// The place in the operations that undo, and then that of a removal in the operations of the plan.
    place: usize,
    outcome: Short,
    swept: bool,
}

/// Whether an operation makes this file.
fn makes(op: &Op, path: &StorePath) -> bool
    ensures { result ≡ makes path.now op.now }
{
    match op {
        Op::Create { path: made, .. } => equal(made.bytes(), path.bytes()),
        _ => false,
    }
}

/// The question for the size of the file of an operation.
fn size_of(op: &Op) -> Next<'_>
    ensures { (e : Ended) → IsNext e (size_question op.now) result }
{
    match op {
        Op::Append { path, .. } => Next::Size(path),
        Op::Remove { path } => Next::Size(path),
        _ => Next::Do(op),
    }
}

impl Machine {
    /// Takes the plan over.
    pub fn new(plan: Plan) -> Machine
        ensures begins { (t : Tree) → IsPlanned t plan → SoFar t result [] }
        ensures plan { result.plan ≡ plan }
        ensures outcome { result.outcome ≡ Short.Done }
        ensures swept { result.swept ≡ true }
        ensures exact { result ≡ new_machine plan }
    {
        Machine {
            plan,
            stage: Stage::Preparing,
            done: 0,
            place: 0,
            outcome: Short::Done,
            swept: true,
        }
    }

    /// How it ends, where it asks for nothing more.
    pub fn ended(&self) -> Ended
        ensures { result ≡ record { outcome = self.now.outcome; swept = self.now.swept } }
    {
        Ended {
            outcome: self.outcome,
            swept: self.swept,
        }
    }

    /// Whether the next operation, or its rest, is the one that publishes.
    pub fn is_publishing(&self) -> bool
        ensures { result ≡ is_publishing self.now }
    {
        matches!(self.stage, Stage::Publishing)
    }

    /// Whether the next operation removes the journal of a transaction that is published.
    pub fn is_cleaning(&self) -> bool
        ensures { result ≡ is_cleaning self.now }
    {
        matches!(self.stage, Stage::Finishing) && self.done == self.plan.commit as usize
    }

    /// Whether the publishing operation is done.
    pub fn is_published(&self) -> bool
        ensures { result ≡ is_published self.now }
    {
        match self.stage {
            Stage::Finishing => true,
            Stage::Sweeping | Stage::Removing => matches!(
                self.outcome,
                Short::Done | Short::Unfinished(Published::Yes)
            ),
            _ => false,
        }
    }

    /// Whether the journal of what is published is removed, so that nothing takes it back.
    pub fn is_acknowledged(&self) -> bool
        ensures { result ≡ is_acknowledged self.now }
    {
        match self.stage {
            Stage::Sweeping | Stage::Removing => matches!(self.outcome, Short::Done),
            _ => false,
        }
    }

    /// Whether this transaction made the file.
    fn was_made(&self, path: &StorePath) -> bool
        ensures { result ≡ was_made self.now path.now }
    {
        self.plan
            .ops
            .iter()
            .take(self.done)
            .any(|op| makes(op, path))
    }

    /// The place behind the removals of the files that may not stand, which is that of the locks.
    fn stray_end(&self) -> usize
        ensures { result ≡ stray_end self.now.plan }
    {
        self.plan.ops.len().saturating_sub(2)
    }

    /// Whether it is not known that the file of a removal stands.
    fn is_unknown(&self, op: &Op) -> bool
        ensures { result ≡ is_size_asked_of self.now op.now }
    {
        match op {
            Op::Remove { path } => self.place < self.stray_end() && !self.was_made(path),
            _ => false,
        }
    }

    fn asks_size(&self, op: &Op) -> bool
        ensures { result ≡ asks_size self.now op.now }
    {
        match self.stage {
            Stage::Asking => true,
            Stage::Sweeping => self.is_unknown(op),
            _ => false,
        }
    }

    /// The operation at hand.
    fn op_at_hand(&self) -> Option<&Op>
        ensures { option_map (λ op. op.now) result ≡ op_at_hand self.now }
    {
        match self.stage {
            Stage::Undoing => self.plan.undo.get(self.place),
            Stage::Sweeping | Stage::Removing => self.plan.ops.get(self.place),
            _ => self.plan.ops.get(self.done),
        }
    }

    /// What it asks for now. Where that is nothing more, the log is that of a plan that was carried out to its end.
    pub fn next(&self) -> Next<'_>
        ensures question { IsNext (record { outcome = self.now.outcome; swept = self.now.swept }) (asked self.now) result }
        ensures ends { EndsWell self.now (asked self.now) }
    {
        match self.op_at_hand() {
            None => Next::End(self.ended()),
            Some(op) if self.asks_size(op) => size_of(op),
            Some(op) => Next::Do(op),
        }
    }

    /// Comes to a stage with the operation at hand done.
    fn advance(&mut self, stage: Stage)
        requires { self.old.done < length self.old.plan.ops.items }
        ensures { self.new ≡ record self.old { stage = stage; done = self.old.done + 1 } }
    {
        self.done += 1;
        self.stage = stage;
    }

    /// Begins to undo.
    fn undo(&mut self, outcome: Short)
        ensures { self.new ≡ record self.old { stage = Stage.Undoing; place = 0; outcome = outcome } }
    {
        self.outcome = outcome;
        self.place = 0;
        self.stage = Stage::Undoing;
    }

    /// Begins the removals behind it.
    fn sweep(&mut self, outcome: Short)
        ensures { self.new ≡ record self.old { stage = Stage.Sweeping; place = sweep_from self.old.plan outcome; outcome = outcome } }
    {
        self.place = match outcome {
            Short::Unfinished(_) => self.stray_end(),
            _ => self.plan.commit as usize + 1,
        };
        self.outcome = outcome;
        self.stage = Stage::Sweeping;
    }

    /// Goes to the next removal.
    fn pass(&mut self, gone: bool)
        requires { self.old.place < length self.old.plan.ops.items }
        ensures { self.new ≡ record self.old { stage = Stage.Sweeping; place = self.old.place + 1; swept = self.old.swept && gone } }
    {
        self.place += 1;
        self.stage = Stage::Sweeping;
        self.swept = self.swept && gone;
    }

    /// The stage behind the operation at hand, before the journal.
    fn after_preparing(&self) -> Stage
        requires { self.now.done < length self.now.plan.ops.items }
        ensures { result ≡ (if self.now.done + 1 == self.now.plan.journal then Stage.Beginning else Stage.Preparing) }
    {
        if self.done + 1 == self.plan.journal as usize {
            Stage::Beginning
        } else {
            Stage::Preparing
        }
    }

    /// The stage behind the operation at hand, from the journal's rename on.
    fn after_working(&self) -> Stage
        requires { self.now.done < length self.now.plan.ops.items }
        ensures { result ≡ (if self.now.done + 1 == self.now.plan.publish then Stage.Publishing else Stage.Working) }
    {
        if self.done + 1 == self.plan.publish as usize {
            Stage::Publishing
        } else {
            Stage::Working
        }
    }

    fn finished(&mut self)
        requires { self.old.done < length self.old.plan.ops.items }
        ensures plan { self.new.plan ≡ self.old.plan }
        ensures more { self.old.done < self.old.plan.commit → self.new ≡ record self.old { done = self.old.done + 1; stage = Stage.Finishing } }
        ensures last { self.old.plan.commit ≤ self.old.done → self.new ≡ record self.old { done = self.old.done + 1; stage = Stage.Sweeping; place = self.old.plan.commit + 1; outcome = Short.Done } }
    {
        let last = self.done >= self.plan.commit as usize;
        self.advance(Stage::Finishing);
        if last {
            self.sweep(Short::Done);
        }
    }

    fn undone(&mut self)
        requires { self.old.place < length self.old.plan.undo.items }
        ensures plan { self.new.plan ≡ self.old.plan }
        ensures more { self.old.place + 1 < length self.old.plan.undo.items → self.new ≡ record self.old { place = self.old.place + 1 } }
        ensures last { length self.old.plan.undo.items ≤ self.old.place + 1 → self.new ≡ record self.old { stage = Stage.Sweeping; place = sweep_from self.old.plan self.old.outcome } }
    {
        if self.place + 1 < self.plan.undo.len() {
            self.place += 1;
        } else {
            self.sweep(self.outcome);
        }
    }

    /// How many bytes the publishing append has, 0 where it is a rename.
    fn published_len(&self) -> u64
        ensures { result ≡ bytes_in (slice_get self.now.plan.ops.items self.now.done) }
    {
        match self.plan.ops.get(self.done) {
            Some(Op::Append { bytes, .. }) => bytes.len() as u64,
            _ => 0,
        }
    }

    /// The publishing operation failed. An append may stand in part, or whole.
    fn unpublished(&mut self)
        ensures plan { self.new.plan ≡ self.old.plan }
        ensures append { 0 < bytes_in (slice_get self.old.plan.ops.items self.old.done) → self.new ≡ record self.old { stage = Stage.Asking; outcome = Short.Fault } }
        ensures rename { bytes_in (slice_get self.old.plan.ops.items self.old.done) ≡ 0 → self.new ≡ record self.old { stage = Stage.Undoing; place = 0; outcome = Short.Fault } }
    {
        if self.published_len() > 0 {
            self.stage = Stage::Asking;
            self.outcome = Short::Fault;
        } else {
            self.undo(Short::Fault);
        }
    }

    /// Whether a size says that the publishing append stands in part, or not at all.
    fn is_short(&self, size: Option<u64>) -> bool
        ensures { result ≡ nat_lt (unwrap_or size 0 - self.now.plan.before) (bytes_in (slice_get self.now.plan.ops.items self.now.done)) }
    {
        size.unwrap_or(0).saturating_sub(self.plan.before) < self.published_len()
    }

    /// The size of the file that the publishing operation appends to.
    fn published_size(&mut self, size: Option<u64>)
        requires { self.old.done < length self.old.plan.ops.items }
        ensures plan { self.new.plan ≡ self.old.plan }
        ensures short { unwrap_or size 0 - self.old.plan.before < bytes_in (slice_get self.old.plan.ops.items self.old.done) → self.new ≡ record self.old { stage = Stage.Undoing; place = 0 } }
        ensures whole { bytes_in (slice_get self.old.plan.ops.items self.old.done) ≤ unwrap_or size 0 - self.old.plan.before → self.new ≡ record self.old { stage = Stage.Finishing; done = self.old.done + 1 } }
    {
        if self.is_short(size) {
            self.undo(self.outcome);
        } else {
            self.advance(Stage::Finishing);
        }
    }

    /// The size of a file that is to be removed.
    fn stray_size(&mut self, size: Option<u64>)
        requires { self.old.place < length self.old.plan.ops.items }
        ensures plan { self.new.plan ≡ self.old.plan }
        ensures stands { IsSome size → self.new ≡ record self.old { stage = Stage.Removing } }
        ensures absent { size ≡ None → self.new ≡ record self.old { stage = Stage.Sweeping; place = self.old.place + 1 } }
    {
        match size {
            Some(_) => self.stage = Stage::Removing,
            None => self.pass(true),
        }
    }

    /// The operation at hand was done.
    fn feed_done(&mut self)
        requires { Fits (asked self.old) Reply.Done }
        ensures steps { Steps self.old Reply.Done self.new }
        ensures plan { self.new.plan ≡ self.old.plan }
        ensures fewer { questions_left self.new < questions_left self.old }
        ensures blames { Blames self.old Reply.Done self.new }
        ensures exact { self.new ≡ fed self.old Reply.Done }
    {
        match self.stage {
            Stage::Preparing => {
                let stage = self.after_preparing();
                self.advance(stage)
            }
            Stage::Beginning | Stage::Working => {
                let stage = self.after_working();
                self.advance(stage)
            }
            Stage::Publishing | Stage::Asking => self.advance(Stage::Finishing),
            Stage::Finishing => self.finished(),
            Stage::Undoing => self.undone(),
            Stage::Sweeping | Stage::Removing => self.pass(true),
        }
    }

    /// The operation at hand failed.
    fn feed_failed(&mut self)
        requires { Fits (asked self.old) Reply.Failed }
        ensures steps { Steps self.old Reply.Failed self.new }
        ensures plan { self.new.plan ≡ self.old.plan }
        ensures fewer { questions_left self.new < questions_left self.old }
        ensures blames { Blames self.old Reply.Failed self.new }
        ensures exact { self.new ≡ fed self.old Reply.Failed }
    {
        match self.stage {
            Stage::Preparing | Stage::Beginning => self.sweep(Short::Fault),
            Stage::Working | Stage::Asking => self.undo(Short::Fault),
            Stage::Publishing => self.unpublished(),
            Stage::Finishing => self.sweep(Short::Unfinished(Published::Yes)),
            Stage::Undoing => self.sweep(Short::Unfinished(Published::No)),
            Stage::Sweeping | Stage::Removing => self.pass(false),
        }
    }

    /// The operation at hand found no memory.
    fn feed_denied(&mut self)
        requires { Fits (asked self.old) Reply.Memory }
        ensures steps { Steps self.old Reply.Memory self.new }
        ensures plan { self.new.plan ≡ self.old.plan }
        ensures fewer { questions_left self.new < questions_left self.old }
        ensures blames { Blames self.old Reply.Memory self.new }
        ensures exact { self.new ≡ fed self.old Reply.Memory }
    {
        match self.stage {
            Stage::Preparing | Stage::Beginning => self.sweep(Short::Memory),
            Stage::Working | Stage::Publishing | Stage::Asking => self.undo(Short::Memory),
            Stage::Finishing => self.sweep(Short::Unfinished(Published::Yes)),
            Stage::Undoing => self.sweep(Short::Unfinished(Published::No)),
            Stage::Sweeping | Stage::Removing => self.pass(false),
        }
    }

    /// The size was had.
    fn feed_size(&mut self, size: Option<u64>)
        requires { Fits (asked self.old) (Reply.Size size) }
        ensures steps { Steps self.old (Reply.Size size) self.new }
        ensures plan { self.new.plan ≡ self.old.plan }
        ensures fewer { questions_left self.new < questions_left self.old }
        ensures blames { Blames self.old (Reply.Size size) self.new }
        ensures exact { self.new ≡ fed self.old (Reply.Size size) }
    {
        match self.stage {
            Stage::Asking => self.published_size(size),
            _ => self.stray_size(size),
        }
    }

    /// The size could not be had.
    fn feed_no_size(&mut self)
        requires { Fits (asked self.old) Reply.SizeFailed }
        ensures steps { (reply : Reply) → HasNoSize reply → Steps self.old reply self.new }
        ensures plan { self.new.plan ≡ self.old.plan }
        ensures fewer { questions_left self.new < questions_left self.old }
        ensures blames { (reply : Reply) → HasNoSize reply → Blames self.old reply self.new }
        ensures exact { self.new ≡ fed self.old Reply.SizeFailed }
    {
        match self.stage {
            Stage::Asking => self.sweep(Short::Unfinished(Published::Unknown)),
            _ => self.pass(false),
        }
    }

    /// Takes the reply to what it asks for.
    pub fn feed(&mut self, reply: Reply)
        requires { Fits (asked self.old) reply }
        ensures steps { Steps self.old reply self.new }
        ensures plan { self.new.plan ≡ self.old.plan }
        ensures fewer { questions_left self.new < questions_left self.old }
        ensures blames { Blames self.old reply self.new }
        ensures exact { self.new ≡ fed self.old reply }
    {
        match reply {
            Reply::Done => self.feed_done(),
            Reply::Failed => self.feed_failed(),
            Reply::Memory => self.feed_denied(),
            Reply::Size(size) => self.feed_size(size),
            Reply::SizeFailed | Reply::SizeMemory => self.feed_no_size(),
        }
    }
}
