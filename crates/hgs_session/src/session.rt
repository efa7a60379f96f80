//! A session: its workers do their jobs at the same time, over shared files.
ghost use Rattle.std.specs.Prelude.{◌≡◌, ⊤, [], false, All, IfOk, IsOk, Ok, length, map, true};
ghost use Rattle.hgs_files.specs.Ends.{EndsWithin, Follow, total_of};
ghost use Rattle.hgs_files.specs.Reads.{counted};
ghost use Rattle.hgs_script.specs.Script.{CanBeRun};
ghost use Rattle.hgs_session.specs.Calls.{Beginning, MayMake};
ghost use Rattle.hgs_session.specs.Session.{AreCounted, AreOfOneStart, AreOfStart, BeginsOver, Comes, EndedFrom, IfParts, IsAt, IsNew, IsWhole, LeftAs, MayRun, RestsOn, changes_in};

use crate::close::{Gathered, gather};
use crate::desk::{Desk, Listed};
use crate::gate::Gate;
use crate::history::{Front, Opened};
use crate::named::Leader;
use crate::naming::Naming;
use crate::room::{Room, changes_in};
use crate::worker::Worker;
use hgs_files::ends::{Follows, Leads, Told};
use hgs_files::yard::{Left, Yard};
use hgs_script::result::{Answered, Answers, PublishedJob, PublishedJobs, Replies, SessionResult};
use hgs_script::script::Script;
use std::alloc::Global;
use std::marker::Brand;
use std::sync::{Mutex, Wait};
use std::thread;
use std::thread::Threads;

/// There was no memory, so a session has no result.
#[derive(Clone, Copy, Debug, PartialEq, Eq)]
pub struct NoResult;

/// What a session leaves of its yard, and what came of it.
#[derive(Drop)]
pub struct SessionEnd<Y: Yard> {
    pub left: Left<Y>,
    pub result: Result<SessionResult, NoResult>,
}

// A worker for each of these ends.
fn workers_of<N: Naming, R: Follows + Drop>(
    alloc: Global,
    rs: Vec<R>,
    history: &Front<N, R::Front>,
    rooms: Vec<Vec<Answered>>,
) -> Vec<Worker<N, R>>
    requires home { All (λ r. (R.Reads.ties r).home ≡ N.home) rs.items }
    requires new { All (λ r. IsNew N.begins.first.log N.begins.start (R.Reads.seen r) (R.Reads.start r) (R.Reads.ties r).told (R.Reads.faults r) (R.Reads.denied r)) rs.items }
    requires history { history.now ≡ [] }
{
    let mut rooms = rooms;
    let mut workers = Vec::new(alloc);
    let mut number = 0u32;
    for end in rs {
        let Some(mut room) = rooms.pop() else {
            return workers;
        };
        room.clear();
        let _ = workers.push(Worker::new(number, end, history.again(), room));
        number = number.wrapping_add(1);
    }
    workers
}

// Does the jobs of a worker.
fn run_worker<N: Naming, R: Follows + Drop, W: Leads<Front = R::Front>, T: Wait, G: Gate>(
    rt: &T,
    alloc: Global,
    desk: &Mutex<Desk<N, W>>,
    worker: &mut Worker<N, R>,
    script: &Script,
    gate: &G,
)
    requires jobs { script.now.workers ≡ N.begins.jobs }
    requires can { CanBeRun script.now }
    requires allows { MayMake N.begins W.allows }
{
    if let Some(jobs) = script.workers.as_slice().get(worker.number as usize) {
        worker.work(rt, alloc, desk, jobs.as_slice(), gate);
    }
}

// Has all workers do their jobs, each in a thread of its own.
fn work_all<
    N: Naming + Send + Sync,
    R: Follows + Drop + Send,
    W: Leads<Front = R::Front> + Send,
    T: Threads + Wait + Sync,
    G: Gate,
>(
    rt: &T,
    alloc: Global,
    desk: &Mutex<Desk<N, W>>,
    workers: &mut Vec<Worker<N, R>>,
    script: &Script,
    gate: &G,
)
    requires jobs { script.now.workers ≡ N.begins.jobs }
    requires can { CanBeRun script.now }
    requires allows { MayMake N.begins W.allows }
{
    let threads = workers.len();
    if threads == 0 {
        return;
    }
    thread::for_each_mut(
        rt,
        workers.as_mut_slice(),
        threads,
        &|_, worker: &mut Worker<N, R>|
            requires { (script.now.workers ≡ N.begins.jobs) × CanBeRun script.now × MayMake N.begins W.allows }
        { run_worker(rt, alloc, desk, worker, script, gate) },
    );
}

// Puts the ends together, with what is to be told.
fn put_together<Y: Yard>(
    w: Y::W,
    rs: Vec<Y::R>,
    told: Result<SessionResult, NoResult>,
) -> SessionEnd<Y>
where
    Y::R: Drop,
    requires { All (λ r. (Y.R.ties r).home ≡ (Y.W.ties w).home) rs.items }
    ensures left { LeftAs result.left (λ y. Follow (Y.W.ties w) (Y.W.log w) (Y.A.log (Y.files y)) (Y.A.start (Y.files y))) (λ end. IsAt (record { log = Y.W.log w; faults = Y.W.faults w; denied = Y.W.denied w }) (Y.W.log end) (Y.W.faults end) (Y.W.denied end)) }
    ensures told { IfOk result.result (λ r. told ≡ Ok r) }
    ensures within { IfOk result.result (λ r. All (λ r. EndsWithin (Y.W.log w) (Y.R.seen r) (Y.R.ties r).told) rs.items) }
    ensures counts { IsOk result.result → LeftAs result.left (λ y. (Y.A.faults (Y.files y) ≡ counted (Y.W.faults w) (total_of Y.R.faults rs.items)) × (Y.A.denied (Y.files y) ≡ counted (Y.W.denied w) (total_of Y.R.denied rs.items))) (λ end. ⊤) }
    ensures parts { IfParts result.left (λ end rs. AreOfStart (Y.W.ties w).earlier (Y.W.ties w).earlier_start (Y.W.ties end) (λ r. Y.R.ties r) rs) }
    ensures whole { IsOk result.result → IsWhole result.left }
{
    match Y::finish(w, rs) {
        Ok(yard) => SessionEnd {
            left: Left::Whole(yard),
            result: told,
        },
        Err((w, rs)) => SessionEnd {
            left: Left::Parts(w, rs),
            result: Err(NoResult),
        },
    }
}

// The result, where all was listed and every job was done.
fn result_of<N: Naming, F: Told>(
    script: &Script,
    history: &Front<N, F>,
    published: Vec<PublishedJob>,
    unsure: Option<(u32, u32)>,
    broken: bool,
    replies: Vec<Answers>,
    whole: bool,
) -> Result<SessionResult, NoResult>
    ensures sound { IfOk result (λ r. (broken ≡ false) × (whole ≡ true)) }
    ensures all { IfOk result (λ r. length history.now ≡ changes_in script.now.workers) }
    ensures published { IfOk result (λ r. r.published ≡ published.items) }
    ensures unsure { IfOk result (λ r. r.unsure ≡ unsure) }
    ensures replies { IfOk result (λ r. r.replies ≡ replies.items) }
{
    if !whole || broken {
        return Err(NoResult);
    }
    match changes_in(script.workers.as_slice()) {
        Some(count) if count == history.len() => Ok(SessionResult {
            published: PublishedJobs::from_vec(published),
            unsure,
            replies: Replies::from_vec(replies),
        }),
        _ => Err(NoResult),
    }
}

// The end of a session.
fn close<N: Naming, Y: Yard>(
    listed: Listed<N, Y::W>,
    gathered: Gathered<N, Y::R>,
    script: &Script,
) -> SessionEnd<Y>
where
    Y::R: Drop,
    requires jobs { script.now.workers ≡ N.begins.jobs }
    requires home { All (λ r. (Y.R.ties r).home ≡ N.home) gathered.ends.items }
    requires whole { gathered.whole ≡ true → ∥ EndedFrom N.begins 0 listed.history (map (λ r. record { told = (Y.R.ties r).told; seen = Y.R.seen r; faults = Y.R.faults r; denied = Y.R.denied r }) gathered.ends.items) gathered.replies.items ∥₁ }
    requires count { gathered.whole ≡ true → length gathered.replies.items ≡ length script.now.workers }
    ensures comes { ∥ Comes N.begins (λ last. LeftAs result.left (λ y. RestsOn N.earlier N.earlier_start last.log (Y.A.log (Y.files y)) (Y.A.start (Y.files y))) (λ w. IsAt last (Y.W.log w) (Y.W.faults w) (Y.W.denied w))) (λ last states. LeftAs result.left (λ y. AreCounted last states (Y.A.faults (Y.files y)) (Y.A.denied (Y.files y))) (λ w. ⊤)) result.result ∥₁ }
    ensures parts { IfParts result.left (λ w rs. AreOfStart N.earlier N.earlier_start (Y.W.ties w) (λ r. Y.R.ties r) rs) }
    ensures whole { IsOk result.result → IsWhole result.left }
{
    let Listed {
        end,
        history,
        published,
        unsure,
        broken,
    } = listed;
    let Gathered {
        ends,
        replies,
        whole,
        of: _,
    } = gathered;
    let told = result_of(script, &history, published, unsure, broken, replies, whole);
    put_together(end, ends, told)
}

// Runs the workers over the ends of one start.
fn run<N: Naming + Send + Sync, Y: Yard, T: Threads + Wait + Sync, G: Gate>(
    rt: &T,
    alloc: Global,
    w: Y::W,
    rs: Vec<Y::R>,
    opened: Opened<Y::Front>,
    room: Room<Y::R>,
    script: &Script,
    gate: &G,
) -> SessionEnd<Y>
where
    Y::W: Send,
    Y::R: Drop + Send,
    requires jobs { script.now.workers ≡ N.begins.jobs }
    requires can { CanBeRun script.now }
    requires allows { MayMake N.begins Y.W.allows }
    requires book { opened.seen.book ≡ N.book }
    requires home { (Y.W.ties w).home ≡ N.home }
    requires earlier { (Y.W.ties w).earlier ≡ N.earlier }
    requires earlier_start { (Y.W.ties w).earlier_start ≡ N.earlier_start }
    requires start { Y.W.start w ≡ N.begins.start }
    requires first { record { log = Y.W.log w; faults = Y.W.faults w; denied = Y.W.denied w } ≡ N.begins.first }
    requires homes { All (λ r. (Y.R.ties r).home ≡ N.home) rs.items }
    requires new { All (λ r. IsNew N.begins.first.log N.begins.start (Y.R.seen r) (Y.R.start r) (Y.R.ties r).told (Y.R.faults r) (Y.R.denied r)) rs.items }
    requires room { (room.published.items ≡ []) × (room.ends.items ≡ []) × (room.replies.items ≡ []) }
    ensures comes { ∥ Comes N.begins (λ last. LeftAs result.left (λ y. RestsOn N.earlier N.earlier_start last.log (Y.A.log (Y.files y)) (Y.A.start (Y.files y))) (λ w. IsAt last (Y.W.log w) (Y.W.faults w) (Y.W.denied w))) (λ last states. LeftAs result.left (λ y. AreCounted last states (Y.A.faults (Y.files y)) (Y.A.denied (Y.files y))) (λ w. ⊤)) result.result ∥₁ }
    ensures parts { IfParts result.left (λ w rs. AreOfStart N.earlier N.earlier_start (Y.W.ties w) (λ r. Y.R.ties r) rs) }
    ensures whole { IsOk result.result → IsWhole result.left }
{
    let (head, history) = opened.named::<N>();
    let Room {
        published,
        answers,
        ends,
        replies,
        next,
    } = room;
    let mut workers = workers_of::<N, Y::R>(alloc, rs, &history, answers);
    let desk = Mutex::new(Desk::new(Leader::new(w), head, history, published, next));
    work_all(rt, alloc, &desk, &mut workers, script, gate);
    let listed = desk.into_inner().into_parts();
    let gathered = gather(
        workers,
        script.workers.as_slice(),
        &listed.history,
        ends,
        replies,
    );
    close::<N, Y>(listed, gathered, script)
}

/// Runs a script: each of its workers does its jobs in their order, all workers at the same time, over the files of the yard.
///
/// Each worker has a reading end of its own. A question is answered of what is loaded for it: at first all, later what may have changed;
/// nothing is older than what the worker's own jobs wrote before. A job that writes holds the writing end alone, and the locks are
/// taken by the name `hg-store W J` of its worker and its number. The gate is told of each job before it and after it.
///
/// The writing end need take no more than what the script's writing jobs may leave, one behind another, from the tree of the files at rest.
///
/// There is no result where there was no memory for it; the writing jobs that were done stand in the files all the same. A thread
/// that cannot be started is no refusal: its worker then does its jobs before or behind another one's.
pub fn session<T: Threads + Wait + Sync, Y: Yard, G: Gate>(
    rt: &T,
    alloc: Global,
    yard: Y,
    script: &Script,
    gate: &G,
) -> SessionEnd<Y>
where
    Y::W: Send,
    Y::R: Drop + Send,
    requires can { CanBeRun script.now }
    requires allows { MayRun script.now.workers (Y.A.log (Y.files yard)) (Y.A.start (Y.files yard)) Y.W.allows }
    ensures comes { ∥ ((x : Beginning) × BeginsOver x script.now.workers (Y.A.log (Y.files yard)) (Y.A.start (Y.files yard)) (Y.A.faults (Y.files yard)) (Y.A.denied (Y.files yard)) × Comes x (λ last. LeftAs result.left (λ y. RestsOn (Y.A.log (Y.files yard)) (Y.A.start (Y.files yard)) last.log (Y.A.log (Y.files y)) (Y.A.start (Y.files y))) (λ w. IsAt last (Y.W.log w) (Y.W.faults w) (Y.W.denied w))) (λ last states. LeftAs result.left (λ y. AreCounted last states (Y.A.faults (Y.files y)) (Y.A.denied (Y.files y))) (λ w. ⊤)) result.result) ∥₁ }
    ensures parts { IfParts result.left (λ w rs. AreOfOneStart (Y.A.log (Y.files yard)) (Y.A.start (Y.files yard)) (Y.W.ties w) (λ r. Y.R.ties r) rs) }
    ensures whole { IsOk result.result → IsWhole result.left }
{
    let Ok(room) = Room::new(alloc, script.workers.as_slice()) else {
        return SessionEnd {
            left: Left::Whole(yard),
            result: Err(NoResult),
        };
    };
    match yard.start(script.workers.len() as u32) {
        Ok((w, rs)) => {
            run::<Brand, Y, T, G>(rt, alloc, w, rs, Opened::new(), room, script, gate)
        }
        Err(yard) => SessionEnd {
            left: Left::Whole(yard),
            result: Err(NoResult),
        },
    }
}
