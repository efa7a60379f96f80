//! Room for what a session lists, made before its workers start.
ghost use Rattle.std.specs.Prelude.{◌≡◌, [], IfOk, IfSome};
ghost use Rattle.hgs_session.specs.Calls.{one_if_change};
ghost use Rattle.hgs_session.specs.Session.{changes_among, changes_in};

use hgs_script::job::{Job, Jobs};
use hgs_script::result::{Answered, Answers, PublishedJob};
use std::alloc::{AllocError, Global};

/// Room for an entry of each job that writes, for the answers to each worker's jobs, the last worker's first, for the reading ends, and
/// for the answers of all workers; and of each worker the number of its next job, which is 0.
#[derive(Drop)]
pub(crate) struct Room<R> {
    pub(crate) published: Vec<PublishedJob>,
    pub(crate) answers: Vec<Vec<Answered>>,
    pub(crate) ends: Vec<R>,
    pub(crate) replies: Vec<Answers>,
    pub(crate) next: Vec<u64>,
}

fn one_if_change(job: &Job) -> u64
    ensures { result ≡ one_if_change job.now }
{
    match job {
        Job::Change(_) => 1,
        Job::Ask(_) => 0,
    }
}

// How many of these jobs write, if the number fits.
fn changes_among(jobs: &[Job]) -> Option<u64>
    ensures { IfSome result (λ count. count ≡ changes_among jobs.now) }
{
    let mut count = 0u64;
    for job in jobs {
        count = count.checked_add(one_if_change(job))?;
    }
    Some(count)
}

/// How many jobs write, if the number fits.
pub(crate) fn changes_in(workers: &[Jobs]) -> Option<u64>
    ensures { IfSome result (λ count. count ≡ changes_in workers.now) }
{
    let mut count = 0u64;
    for jobs in workers {
        count = count.checked_add(changes_among(jobs.as_slice())?)?;
    }
    Some(count)
}

impl<R: Drop> Room<R> {
    /// Room for a session of these jobs.
    pub(crate) fn new(alloc: Global, workers: &[Jobs]) -> Result<Room<R>, AllocError>
        ensures published { IfOk result (λ room. room.published.items ≡ []) }
        ensures ends { IfOk result (λ room. room.ends.items ≡ []) }
        ensures replies { IfOk result (λ room. room.replies.items ≡ []) }
    {
        let mut answers = Vec::with_capacity(alloc, workers.len())?;
        let mut next = Vec::with_capacity(alloc, workers.len())?;
        for jobs in workers.iter().rev() {
            answers.push(Vec::with_capacity(alloc, jobs.len())?)?;
            next.push(0u64)?;
        }
        Ok(Room {
            published: Vec::with_capacity(alloc, changes_in(workers).unwrap_or(0) as usize)?,
            answers,
            ends: Vec::with_capacity(alloc, workers.len())?,
            replies: Vec::with_capacity(alloc, workers.len())?,
            next,
        })
    }
}
