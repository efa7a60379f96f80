//! A worker of a session.
ghost use Rattle.std.specs.Prelude.{◌≡◌, [], Some, IfSome, length, slice_get, false};
ghost use Rattle.std.specs.List.{AllByRecursion};
ghost use Rattle.hgs_model.specs.Valid.{IsValid};
ghost use Rattle.hgs_script.specs.declared.job.Job.TheVariants.{Ask, Change};
ghost use Rattle.hgs_script.specs.Script.{CanBeDone};
ghost use Rattle.hgs_session.specs.Calls.{MayMake, job_in};
ghost use Rattle.hgs_session.specs.Desk.{IsDone};
ghost use Rattle.hgs_session.specs.Jobs.{HasDone};
ghost use Rattle.hgs_session.specs.Session.{HasEnded};

use crate::desk::{Desk, Done};
use crate::gate::Gate;
use crate::history::Front;
use crate::named::Follower;
use crate::naming::Naming;
use hgs_files::ends::{Follows, Leads, Told};
use hgs_model::command::Command;
use hgs_questions::ask::ask;
use hgs_reader::session::Session;
use hgs_script::job::{Job, Jobs, Question};
use hgs_script::result::{Answered, Answers};
use std::alloc::Global;
use std::sync::{Mutex, Wait};

/// A worker: its number, its reading end, what it has loaded, the history up to its last writing job, and its answers so far. It is
/// broken once an answer found no memory.
#[derive(Drop)]
pub struct Worker<N: Naming, R: Follows> {
    pub(crate) number: u32,
    follower: Follower<N, R>,
    session: Option<Session>,
    history: Front<N, R::Front>,
    replies: Vec<Answered>,
    broken: bool,
    ghost done: { ∥ (broken ≡ false → HasDone N.begins number history (record { done = length replies.items; place = length history; told = (R.Reads.ties follower.end).told; seen = R.Reads.seen follower.end; start = R.Reads.start follower.end; view = session; faults = R.Reads.faults follower.end; denied = R.Reads.denied follower.end }) replies.items) ∥₁ },
}

// Holds the desk for a job that writes.
fn write_at<N: Naming, W: Leads, T: Wait>(
    rt: &T,
    alloc: Global,
    desk: &Mutex<Desk<N, W>>,
    command: &Command,
    worker: u32,
    job: u32,
) -> Option<Done<N, W::Front>>
    requires job { job_in N.begins.jobs worker job ≡ Some (Change command.now) }
    requires valid { IsValid command.now }
    requires allows { MayMake N.begins W.allows }
    ensures home { IfSome result (λ done. W.Front.home done.front ≡ N.home) }
    ensures done { IfSome result (λ done. ∥ IsDone worker job command.now (W.Front.log done.front) done.history done.answered ∥₁) }
{
    desk.lock(rt).write(alloc, command, worker, job)
}

impl<N: Naming, R: Follows> Worker<N, R> {
    // Takes a writing job's answer along, and learns what was done; or breaks where there is no memory for the answer. In no run its
    // history does not go on from that of the worker.
    fn take(&mut self, done: Done<N, R::Front>, command: &Command)
        requires sound { self.old.broken ≡ false }
        requires job { job_in N.begins.jobs self.old.number (length self.old.replies.items) ≡ Some (Change command.now) }
        requires home { R.Front.home done.front ≡ N.home }
        requires done { ∥ IsDone self.old.number (length self.old.replies.items) command.now (R.Front.log done.front) done.history done.answered ∥₁ }
        ensures number { self.new.number ≡ self.old.number }
    {
        let Done {
            front,
            history,
            answered,
        } = done;
        self.broken = true;
        if self.history.len() >= history.len() {
            return;
        }
        if !self.history.begins(&history) {
            return;
        }
        match self.replies.push(answered) {
            Ok(()) => {
                self.follower.learn(front);
                self.history = history;
                self.broken = false;
            }
            Err(_) => {}
        }
    }

    // Does a job that writes. The desk is held meanwhile.
    fn change<T: Wait, W: Leads<Front = R::Front>>(
        &mut self,
        rt: &T,
        alloc: Global,
        desk: &Mutex<Desk<N, W>>,
        command: &Command,
        job: u32,
    )
        requires sound { self.old.broken ≡ false }
        requires number { job ≡ length self.old.replies.items }
        requires job { job_in N.begins.jobs self.old.number job ≡ Some (Change command.now) }
        requires valid { IsValid command.now }
        requires allows { MayMake N.begins W.allows }
        ensures number { self.new.number ≡ self.old.number }
    {
        match write_at(rt, alloc, desk, command, self.number, job) {
            Some(done) => self.take(done, command),
            None => self.broken = true,
        }
    }

    // Answers a question.
    fn answer(&mut self, alloc: Global, question: &Question)
        requires sound { self.old.broken ≡ false }
        requires job { job_in N.begins.jobs self.old.number (length self.old.replies.items) ≡ Some (Ask question.now) }
        ensures number { self.new.number ≡ self.old.number }
    {
        self.broken = true;
        let answered = ask(alloc, &mut self.follower, &mut self.session, question);
        match self.replies.push(answered) {
            Ok(()) => self.broken = false,
            Err(_) => {}
        }
    }

    // Does a job.
    fn job<T: Wait, W: Leads<Front = R::Front>>(
        &mut self,
        rt: &T,
        alloc: Global,
        desk: &Mutex<Desk<N, W>>,
        job: &Job,
        number: u32,
    )
        requires sound { self.old.broken ≡ false }
        requires place { number ≡ length self.old.replies.items }
        requires job { job_in N.begins.jobs self.old.number number ≡ Some job.now }
        requires can { CanBeDone job.now }
        requires allows { MayMake N.begins W.allows }
        ensures number { self.new.number ≡ self.old.number }
    {
        match job {
            Job::Change(command) => self.change(rt, alloc, desk, command, number),
            Job::Ask(question) => self.answer(alloc, question),
        }
    }

    // Does the next of its jobs, between two calls of the gate, and says whether there was one.
    fn next<T: Wait, W: Leads<Front = R::Front>, G: Gate>(
        &mut self,
        rt: &T,
        alloc: Global,
        desk: &Mutex<Desk<N, W>>,
        jobs: &[Job],
        gate: &G,
    ) -> bool
        requires jobs { slice_get N.begins.jobs self.old.number ≡ Some jobs.now }
        requires can { AllByRecursion CanBeDone jobs.now }
        requires allows { MayMake N.begins W.allows }
        ensures number { self.new.number ≡ self.old.number }
    {
        let place = self.replies.len();
        if self.broken || place >= jobs.len() {
            return false;
        }
        let Ok(number) = u32::try_from(place) else {
            return false;
        };
        gate.before(self.number, number);
        self.job(rt, alloc, desk, &jobs[place], number);
        gate.after(self.number, number);
        true
    }

    /// Does these jobs one after another.
    pub(crate) fn work<T: Wait, W: Leads<Front = R::Front>, G: Gate>(
        &mut self,
        rt: &T,
        alloc: Global,
        desk: &Mutex<Desk<N, W>>,
        jobs: &[Job],
        gate: &G,
    )
        requires jobs { slice_get N.begins.jobs self.old.number ≡ Some jobs.now }
        requires can { AllByRecursion CanBeDone jobs.now }
        requires allows { MayMake N.begins W.allows }
        ensures number { self.new.number ≡ self.old.number }
    {
        for _ in 0..jobs.len() {
            if !self.next(rt, alloc, desk, jobs, gate) {
                return;
            }
        }
    }

    /// A worker of this number that has done nothing yet. `room` takes its answers.
    pub(crate) fn new(
        number: u32,
        end: R,
        history: Front<N, R::Front>,
        room: Vec<Answered>,
    ) -> Worker<N, R>
        requires home { (R.Reads.ties end).home ≡ N.home }
        requires begins { IfSome N.begins.first.log (λ log. (R.Reads.seen end ≡ Some []) × ((R.Reads.ties end).told ≡ []) × (R.Reads.start end ≡ N.begins.start)) }
        requires faults { R.Reads.faults end ≡ 0 }
        requires denied { R.Reads.denied end ≡ 0 }
        requires history { history ≡ [] }
        requires room { room.items ≡ [] }
        ensures number { result.number ≡ number }
    {
        Worker {
            number,
            follower: Follower::new(end),
            session: None,
            history,
            replies: room,
            broken: false,
        }
    }

    /// Takes the worker apart: its reading end, and its answers where it has this number and has answered all of its jobs, by fronts
    /// of this history.
    pub(crate) fn ended(
        self,
        number: usize,
        jobs: &[Jobs],
        history: &Front<N, R::Front>,
    ) -> (R, Option<Answers>)
        requires { jobs.now ≡ N.begins.jobs }
        ensures home { (R.Reads.ties result.0).home ≡ N.home }
        ensures answers { IfSome result.1 (λ answers. ∥ HasEnded N.begins number history.now (record { told = (R.Reads.ties result.0).told; seen = R.Reads.seen result.0; faults = R.Reads.faults result.0; denied = R.Reads.denied result.0 }) answers ∥₁) }
    {
        let begins = self.history.begins(history);
        let Worker {
            number: own,
            follower,
            session: _,
            history: _,
            replies,
            broken,
        } = self;
        let end = follower.into_end();
        if broken || !begins || number >= jobs.len() {
            return (end, None);
        }
        if own as usize != number || replies.len() != jobs[number].len() {
            return (end, None);
        }
        (end, Some(Answers::from_vec(replies)))
    }
}
