//! The end of a session: what its workers have done is put together.
ghost use Rattle.std.specs.Prelude.{◌≡◌, [], All, length, map, false, true, vec_len};
ghost use Rattle.hgs_session.specs.Session.{EndedFrom, HasEnded};

use crate::history::Front;
use crate::naming::Naming;
use crate::worker::Worker;
use hgs_files::ends::Follows;
use hgs_script::job::Jobs;
use hgs_script::result::Answers;
use std::marker::PhantomData;

/// The reading ends of the workers, in their order, and the answers of each; not whole where a job was not done.
pub(crate) struct Gathered<N: Naming, R: Follows + Drop> {
    pub(crate) ends: Vec<R>,
    pub(crate) replies: Vec<Answers>,
    pub(crate) whole: bool,
    pub(crate) of: PhantomData<N>,
}

impl<N: Naming, R: Follows + Drop> Gathered<N, R> {
    // Adds an end, and its answers.
    fn keep(&mut self, end: R, answers: Answers, history: &Front<N, R::Front>)
        requires was { self.old.whole ≡ true }
        requires home { (R.Reads.ties end).home ≡ N.home }
        requires homes { All (λ r. (R.Reads.ties r).home ≡ N.home) self.old.ends.items }
        requires ended { ∥ HasEnded N.begins (vec_len self.old.replies) history.now (record { told = (R.Reads.ties end).told; seen = R.Reads.seen end; faults = R.Reads.faults end; denied = R.Reads.denied end }) answers ∥₁ }
        requires whole { ∥ EndedFrom N.begins 0 history.now (map (λ r. record { told = (R.Reads.ties r).told; seen = R.Reads.seen r; faults = R.Reads.faults r; denied = R.Reads.denied r }) self.old.ends.items) self.old.replies.items ∥₁ }
        ensures homes { All (λ r. (R.Reads.ties r).home ≡ N.home) self.new.ends.items }
        ensures whole { self.new.whole ≡ true → ∥ EndedFrom N.begins 0 history.now (map (λ r. record { told = (R.Reads.ties r).told; seen = R.Reads.seen r; faults = R.Reads.faults r; denied = R.Reads.denied r }) self.new.ends.items) self.new.replies.items ∥₁ }
    {
        self.whole = false;
        match self.ends.push(end) {
            Ok(()) => {}
            Err(_) => return,
        }
        match self.replies.push(answers) {
            Ok(()) => {}
            Err(_) => return,
        }
        self.whole = true;
    }

    // Adds an end without answers.
    fn lose(&mut self, end: R)
        requires home { (R.Reads.ties end).home ≡ N.home }
        requires homes { All (λ r. (R.Reads.ties r).home ≡ N.home) self.old.ends.items }
        ensures homes { All (λ r. (R.Reads.ties r).home ≡ N.home) self.new.ends.items }
        ensures whole { self.new.whole ≡ false }
    {
        self.whole = false;
        match self.ends.push(end) {
            Ok(()) => {}
            Err(_) => {}
        }
    }

    // Adds what a worker has done.
    fn add(&mut self, worker: Worker<N, R>, jobs: &[Jobs], history: &Front<N, R::Front>)
        requires jobs { jobs.now ≡ N.begins.jobs }
        requires homes { All (λ r. (R.Reads.ties r).home ≡ N.home) self.old.ends.items }
        requires whole { self.old.whole ≡ true → ∥ EndedFrom N.begins 0 history.now (map (λ r. record { told = (R.Reads.ties r).told; seen = R.Reads.seen r; faults = R.Reads.faults r; denied = R.Reads.denied r }) self.old.ends.items) self.old.replies.items ∥₁ }
        ensures homes { All (λ r. (R.Reads.ties r).home ≡ N.home) self.new.ends.items }
        ensures whole { self.new.whole ≡ true → ∥ EndedFrom N.begins 0 history.now (map (λ r. record { told = (R.Reads.ties r).told; seen = R.Reads.seen r; faults = R.Reads.faults r; denied = R.Reads.denied r }) self.new.ends.items) self.new.replies.items ∥₁ }
    {
        let (end, answers) = worker.ended(self.replies.len(), jobs, history);
        match answers {
            Some(answers) => {
                if self.whole {
                    self.keep(end, answers, history);
                } else {
                    self.lose(end);
                }
            }
            None => self.lose(end),
        }
    }
}

/// Takes the workers apart, into rooms that take all of them.
pub(crate) fn gather<N: Naming, R: Follows + Drop>(
    workers: Vec<Worker<N, R>>,
    jobs: &[Jobs],
    history: &Front<N, R::Front>,
    ends: Vec<R>,
    replies: Vec<Answers>,
) -> Gathered<N, R>
    requires jobs { jobs.now ≡ N.begins.jobs }
    requires ends { ends.items ≡ [] }
    requires replies { replies.items ≡ [] }
    ensures home { All (λ r. (R.Reads.ties r).home ≡ N.home) result.ends.items }
    ensures whole { result.whole ≡ true → ∥ EndedFrom N.begins 0 history.now (map (λ r. record { told = (R.Reads.ties r).told; seen = R.Reads.seen r; faults = R.Reads.faults r; denied = R.Reads.denied r }) result.ends.items) result.replies.items ∥₁ }
    ensures count { result.whole ≡ true → length result.replies.items ≡ length jobs.now }
{
    let mut gathered = Gathered {
        ends,
        replies,
        whole: true,
        of: PhantomData,
    };
    for worker in workers {
        gathered.add(worker, jobs, history);
    }
    if gathered.replies.len() != jobs.len() {
        gathered.whole = false;
    }
    gathered
}
