//! What a command came to, by why it was not planned and by how its transaction ended.
ghost use Rattle.std.specs.Prelude.{◌≡◌};
ghost use Rattle.hgs_writer.specs.Outcomes.{outcome_of_commit, outcome_of_ended, outcome_of_lock, outcome_of_plan, outcome_of_read, outcome_of_refusal, published_of};

use hgs_answers::answer::Answer;
use hgs_answers::outcome::{Outcome, Published};
use hgs_commit::fault::CommitFault;
use hgs_index::node::Node;
use hgs_load::answer::ReadAnswer;
use hgs_machine::ended;
use hgs_machine::ended::Short;
use hgs_machine::locks::{LockRefusal, NotLocked};
use hgs_model::command::Refusal;
use hgs_steps::fault::PlanFault;

/// What a command came to whose files could not be read. A file that is missed and what a repository requires are looked
/// at before a writer begins.
pub fn of_read(refusal: ReadAnswer) -> Outcome
    ensures { result ≡ outcome_of_read refusal }
{
    match refusal {
        ReadAnswer::Damaged(damage) => Outcome::Damaged(damage),
        ReadAnswer::Fault => Outcome::Fault,
        ReadAnswer::Limit(which) => Outcome::Limit(which),
        ReadAnswer::UnknownPath
        | ReadAnswer::NotARepository
        | ReadAnswer::Requirement(_)
        | ReadAnswer::Memory => Outcome::Memory,
    }
}

fn of_refusal(refusal: Refusal) -> Outcome
    ensures { result ≡ outcome_of_refusal refusal }
{
    match refusal {
        Refusal::UnknownRevision => Outcome::UnknownRevision,
        Refusal::UnknownPath => Outcome::UnknownPath,
        Refusal::CopyOver(path) => Outcome::CopyOver(path),
        Refusal::NeedsForce(rev) => Outcome::NeedsForce(rev),
        Refusal::NothingChanged(rev) => Outcome::NothingChanged(rev),
    }
}

/// What a command came to of which no step was planned.
pub fn of_plan(fault: PlanFault) -> Outcome
    ensures { result ≡ outcome_of_plan fault }
{
    match fault {
        PlanFault::Refused(refusal) => of_refusal(refusal),
        PlanFault::Limit(which) => Outcome::Limit(which),
        PlanFault::NameClash(other) => Outcome::NameClash(other),
        PlanFault::InTheWay(path) => Outcome::InTheWay(path),
        PlanFault::Collision { path, rev } => Outcome::Collision { path, rev },
        PlanFault::Memory => Outcome::Memory,
    }
}

/// The same of a commit.
pub fn of_commit(fault: CommitFault) -> Outcome
    ensures { result ≡ outcome_of_commit fault }
{
    match fault {
        CommitFault::Unread(refusal) => of_read(refusal),
        CommitFault::Refused(fault) => of_plan(fault),
    }
}

fn of_published(published: ended::Published) -> Published
    ensures { result ≡ published_of published }
{
    match published {
        ended::Published::No => Published::No,
        ended::Published::Yes => Published::Yes,
        ended::Published::Unknown => Published::Unknown,
    }
}

/// What a command came to whose transaction ended so.
pub fn of_ended(ended: Short, rev: u32, node: Node) -> Outcome
    ensures { result ≡ outcome_of_ended ended rev node }
{
    match ended {
        Short::Done => Outcome::Done { rev, node },
        Short::Fault => Outcome::Fault,
        Short::Unfinished(published) => Outcome::Unfinished(of_published(published)),
        Short::Memory => Outcome::Memory,
    }
}

fn of_lock(why: LockRefusal) -> Outcome
    ensures { result ≡ outcome_of_lock why }
{
    match why {
        LockRefusal::Held(holder) => Outcome::LockHeld(holder),
        LockRefusal::Abandoned => Outcome::Abandoned,
        LockRefusal::Fault => Outcome::Fault,
        LockRefusal::Memory => Outcome::Memory,
    }
}

/// The answer to a command whose locks were not taken.
pub fn of_locks(refusal: NotLocked) -> Answer
    ensures outcome { result.outcome ≡ outcome_of_lock refusal.why }
    ensures swept { result.swept ≡ refusal.swept }
{
    let NotLocked { why, swept } = refusal;
    Answer {
        outcome: of_lock(why),
        swept,
    }
}
