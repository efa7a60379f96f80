//! What lies under the lock of a session: the writing end, with the history of what was done by it.
ghost use Rattle.std.specs.Prelude.{◌≡◌, ◌++◌, ◌∷◌, ◌≤◌, [], Some, IfOk, IfSome, OnOk, false, true, length};
ghost use Rattle.hgs_answers.specs.Answer.{answer_text, status_of};
ghost use Rattle.hgs_model.specs.Valid.{IsValid};
ghost use Rattle.hgs_script.specs.declared.job.Job.TheVariants.{Change};
ghost use Rattle.hgs_session.specs.Calls.{MayMake, is_published, is_unsure, job_in, name_of, published_by, unsure_with};
ghost use Rattle.hgs_session.specs.Desk.{HasMade, IsDone, IsOpen, StandsAt};
ghost use Rattle.hgs_session.specs.Noted.{call_of};

use crate::history::{Front, Head};
use crate::named::Leader;
use crate::naming::Naming;
use crate::noted::Noted;
use hgs_answers::answer::Answer;
use hgs_answers::outcome::{Outcome, Published};
use hgs_bytes::bytes::Bytes;
use hgs_files::ends::{Leads, Told};
use hgs_model::command::Command;
use hgs_plan::print::push_number;
use hgs_script::result::{Answered, PublishedJob};
use hgs_writer::write::{Written, write_told};
use std::alloc::{AllocError, Global};

/// What a writing job takes from the desk: what the writing end has done, the history with the job's call last, and its answer.
#[derive(Drop)]
pub struct Done<N: Naming, F: Told> {
    pub front: F,
    pub history: Front<N, F>,
    pub answered: Answered,
}

/// The writing end, the history of its calls, what these published, and the job of which that is not known. It is broken once a call
/// could not be noted. `next` has of each worker the number of the first job that may still be done.
#[derive(Drop)]
pub struct Desk<N: Naming, W: Leads> {
    leader: Leader<N, W>,
    head: Head<N, W::Front>,
    history: Front<N, W::Front>,
    published: Vec<PublishedJob>,
    unsure: Option<(u32, u32)>,
    broken: bool,
    next: Vec<u64>,
    ghost start: { W.start leader.end ≡ N.begins.start },
    ghost made: { ∥ StandsAt N.begins (record { log = W.log leader.end; faults = W.faults leader.end; denied = W.denied leader.end }) history published.items unsure broken next.items ∥₁ },
}

/// The most bytes that a lock may hold.
const MOST_NAME: usize = 255;

/// The writing end, and what was listed of its calls.
pub struct Listed<N: Naming, W: Leads> {
    pub(crate) end: W,
    pub(crate) history: Front<N, W::Front>,
    pub(crate) published: Vec<PublishedJob>,
    pub(crate) unsure: Option<(u32, u32)>,
    pub(crate) broken: bool,
    ghost home: { (W.ties end).home ≡ N.home },
    ghost earlier: { (W.ties end).earlier ≡ N.earlier },
    ghost earlier_start: { (W.ties end).earlier_start ≡ N.earlier_start },
    ghost made: { ∥ HasMade N.begins (record { log = W.log end; faults = W.faults end; denied = W.denied end }) history published.items unsure broken ∥₁ },
}

// What stands in the locks while a job writes.
fn name_of(alloc: Global, worker: u32, job: u32) -> Result<Vec<u8>, AllocError>
    ensures { IfOk result (λ name. name.items ≡ name_of worker job) }
{
    let mut name = Vec::from_slice(alloc, b"hg-store ")?;
    push_number(&mut name, worker as u64)?;
    name.push(b' ')?;
    push_number(&mut name, job as u64)?;
    Ok(name)
}

// Whether a transaction was published.
fn is_published(outcome: &Outcome) -> bool
    ensures { result ≡ is_published outcome.now }
{
    matches!(
        outcome,
        Outcome::Done { .. } | Outcome::Unfinished(Published::Yes)
    )
}

// Whether it is not known if one was.
fn is_unsure(outcome: &Outcome) -> bool
    ensures { result ≡ is_unsure outcome.now }
{
    matches!(outcome, Outcome::Unfinished(Published::Unknown))
}

// Lists a job that published. Where there is no memory, nothing is listed.
fn list<F: Told>(published: &mut Vec<PublishedJob>, noted: &Noted<F>) -> Result<(), AllocError>
    ensures { OnOk result (published.new.items ≡ published.old.items ++ published_by (call_of F.log noted.now)) }
{
    if !is_published(&noted.answer.outcome) {
        return Ok(());
    }
    let Some((rev, node)) = noted.changeset else {
        return Ok(());
    };
    published.push(PublishedJob {
        worker: noted.worker,
        job: noted.job,
        rev,
        node,
    })?;
    Ok(())
}

// The job of which it is not known whether it published, once this one was done.
fn unsure_with<F: Told>(known: Option<(u32, u32)>, noted: &Noted<F>) -> Option<(u32, u32)>
    ensures { result ≡ unsure_with known (call_of F.log noted.now) }
{
    if is_unsure(&noted.answer.outcome) {
        Some((noted.worker, noted.job))
    } else {
        known
    }
}

// What a job says.
fn said(alloc: Global, command: &Command, answer: &Answer) -> Result<Answered, AllocError>
    ensures status { IfOk result (λ a. a.status ≡ status_of answer.now.outcome) }
    ensures text { IfOk result (λ a. a.text ≡ answer_text command.now answer.now) }
{
    let mut text = Vec::new(alloc);
    answer.print(alloc, command, &mut text)?;
    Ok(Answered {
        status: answer.status(),
        text: Bytes::from_vec(text),
    })
}

impl<N: Naming, W: Leads> Desk<N, W> {
    /// The desk of a writing end that has done nothing yet. `room` takes the entries of what is published, and `next` has a number for
    /// each worker.
    pub(crate) fn new(
        leader: Leader<N, W>,
        head: Head<N, W::Front>,
        history: Front<N, W::Front>,
        room: Vec<PublishedJob>,
        next: Vec<u64>,
    ) -> Desk<N, W>
        requires start { W.start leader.end ≡ N.begins.start }
        requires log { W.log leader.end ≡ N.begins.first.log }
        requires faults { W.faults leader.end ≡ N.begins.first.faults }
        requires denied { W.denied leader.end ≡ N.begins.first.denied }
        requires history { history ≡ [] }
        requires room { room.items ≡ [] }
    {
        Desk {
            leader,
            head,
            history,
            published: room,
            unsure: None,
            broken: false,
            next,
        }
    }

    // Whether a worker has done neither the job of this number nor a later one. In each run it has not.
    fn is_open(&self, worker: u32, job: u32) -> bool
        ensures { result ≡ true → IsOpen self.now.next.items worker job }
    {
        match self.next.get(worker as usize) {
            Some(next) => *next <= job as u64,
            None => false,
        }
    }

    // Calls the writer, and leaves the desk broken until that is noted.
    fn call(
        &mut self,
        alloc: Global,
        command: &Command,
        worker: u32,
        job: u32,
        name: &[u8],
    ) -> Noted<W::Front>
        requires sound { self.old.broken ≡ false }
        requires may { IsOpen self.old.next.items worker job }
        requires job { job_in N.begins.jobs worker job ≡ Some (Change command.now) }
        requires name { name.now ≡ name_of worker job }
        requires valid { IsValid command.now }
        requires least { 1 ≤ length name.now }
        requires most { length name.now ≤ 255 }
        requires allows { MayMake N.begins W.allows }
        ensures broken { self.new.broken ≡ true }
        ensures worker { result.worker ≡ worker }
        ensures job { result.job ≡ job }
        ensures home { W.Front.home result.front ≡ N.home }
        ensures made { ∥ StandsAt N.begins (record { log = W.log self.new.leader.end; faults = W.faults self.new.leader.end; denied = W.denied self.new.leader.end }) (self.new.history ++ call_of W.Front.log result ∷ []) (self.new.published.items ++ published_by (call_of W.Front.log result)) (unsure_with self.new.unsure (call_of W.Front.log result)) false self.new.next.items ∥₁ }
    {
        self.broken = true;
        self.next[worker as usize] = job as u64 + 1;
        let Written { answer, changeset } = write_told(alloc, &mut self.leader, command, name);
        Noted {
            worker,
            job,
            answer,
            changeset,
            front: self.leader.front(),
        }
    }

    // Notes a job that was done, and gives the history with it; or nothing where there is no memory.
    fn note(&mut self, noted: &Noted<W::Front>) -> Option<Front<N, W::Front>>
        requires broken { self.old.broken ≡ true }
        requires made { ∥ StandsAt N.begins (record { log = W.log self.old.leader.end; faults = W.faults self.old.leader.end; denied = W.denied self.old.leader.end }) (self.old.history ++ call_of W.Front.log noted.now ∷ []) (self.old.published.items ++ published_by (call_of W.Front.log noted.now)) (unsure_with self.old.unsure (call_of W.Front.log noted.now)) false self.old.next.items ∥₁ }
        ensures leader { self.new.leader ≡ self.old.leader }
        ensures history { IfSome result (λ front. front ≡ self.old.history ++ call_of W.Front.log noted.now ∷ []) }
    {
        let history = self.history.with(&self.head, noted)?;
        list(&mut self.published, noted).ok()?;
        self.unsure = unsure_with(self.unsure, noted);
        self.history = history.again();
        self.broken = false;
        Some(history)
    }

    /// Does a writing job, in whose name the locks are taken, and gives what the worker takes along; or nothing where no memory
    /// was left for that, and then no job is done any more.
    pub(crate) fn write(
        &mut self,
        alloc: Global,
        command: &Command,
        worker: u32,
        job: u32,
    ) -> Option<Done<N, W::Front>>
        requires job { job_in N.begins.jobs worker job ≡ Some (Change command.now) }
        requires valid { IsValid command.now }
        requires allows { MayMake N.begins W.allows }
        ensures home { IfSome result (λ done. W.Front.home done.front ≡ N.home) }
        ensures done { IfSome result (λ done. ∥ IsDone worker job command.now (W.Front.log done.front) done.history done.answered ∥₁) }
    {
        if self.broken || !self.is_open(worker, job) {
            return None;
        }
        let name = name_of(alloc, worker, job).ok()?;
        if name.is_empty() || name.len() > MOST_NAME {
            return None;
        }
        let noted = self.call(alloc, command, worker, job, &name);
        let history = self.note(&noted)?;
        let answered = said(alloc, command, &noted.answer).ok()?;
        Some(Done {
            front: noted.front,
            history,
            answered,
        })
    }

    /// What is left of the desk once all jobs are done.
    pub(crate) fn into_parts(self) -> Listed<N, W> {
        let Desk {
            leader,
            head: _,
            history,
            published,
            unsure,
            broken,
            next: _,
        } = self;
        Listed {
            end: leader.into_end(),
            history,
            published,
            unsure,
            broken,
        }
    }
}
