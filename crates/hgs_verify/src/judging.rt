//! Threads that judge the filelogs of some paths, side by side.
ghost use Rattle.std.specs.Prelude.{◌≡◌, ◌<◌, ◌≤◌, ◌^◌, IfOk, length, IfErr, OnOk};
ghost use Rattle.hgs_judge.specs.Read.{IsRefused, KeepsLimits};
ghost use Rattle.hgs_files.specs.Tree.{Tree};
ghost use Rattle.hgs_findings.specs.OnePath as findings;
ghost use Rattle.hgs_findings.specs.Reading.{sight_of};
ghost use Rattle.hgs_judge.specs.Path.{IsJudged};
ghost use Rattle.hgs_judge.specs.Words.{words_in};
ghost use Rattle.hgs_report.specs.Store.{IsStoreOf};
ghost use Rattle.hgs_verify.specs.Task.{AreJudged, IsJudgedAs};

use crate::task::Task;
use hgs_judge::path::{PathFindings, judge_path};
use hgs_judge::trees::words;
use hgs_judge::words::Word;
use hgs_load::ask::bytes_of;
use hgs_report::store::Store;
use hgs_revlog::fault::RevFault;
use std::alloc::{AllocError, Global};
use std::thread;
use std::thread::{Threads, join_mut};

/// Changesets have numbers below this.
const MOST: usize = 0x1_0000_0000;

// What each changeset says of a path; there are no more of them than have numbers.
fn words_of(alloc: Global, store: &Store, path: &[u8]) -> Result<Vec<Word>, AllocError>
    ensures said { IfOk result (λ w. (t : Tree) → IsStoreOf store.now t → words_in path.now w.items ≡ findings.words (sight_of t) path.now) }
    ensures few { IfOk result (λ w. length w.items < 2 ^ 32) }
{
    let words = words(alloc, &store.trees, &store.changesets, path)?;
    if words.len() >= MOST {
        return Err(AllocError);
    }
    Ok(words)
}

// What is found of a path, of the bytes of its filelog and what the changesets say of it.
fn judge_bytes(
    alloc: Global,
    store: &Store,
    path: &[u8],
    index: &[u8],
    chunks: &[u8],
) -> Result<PathFindings, RevFault>
    ensures found { IfOk result (λ f. (t : Tree) → IsStoreOf store.now t → IsJudged index.now chunks.now (findings.words (sight_of t) path.now) f) }
    ensures refused { IfErr result (λ fault. IsRefused index.now fault) }
    ensures limits { OnOk result (KeepsLimits index.now) }
{
    let words = words_of(alloc, store, path)?;
    match judge_path(alloc, index, chunks, &words) {
        Ok(found) => Ok(found),
        Err(fault) => Err(fault),
    }
}

// Judges one of them.
fn judge(alloc: Global, store: &Store, task: &mut Task)
    ensures { IsJudgedAs store.now task.old task.new }
{
    task.found = judge_bytes(
        alloc,
        store,
        task.path.as_slice(),
        bytes_of(&task.parts.index),
        bytes_of(&task.parts.chunks),
    );
}

/// The threads that judge: at most so many at a time.
#[derive(Drop)]
pub struct Workers<'a, T> {
    rt: &'a T,
    most: usize,
    ghost some: { 0 < most },
}

impl<'a, T: Threads + Sync> Workers<'a, T> {
    /// At most so many threads. None is started yet. Of four or more one is left to the caller, who reads meanwhile.
    pub fn new(rt: &'a T, jobs: u32) -> Workers<'a, T>
        requires { 0 < jobs }
        ensures { result.most ≤ jobs }
    {
        let most = if jobs < 4 { jobs } else { jobs - 1 };
        Workers {
            rt,
            most: most as usize,
        }
    }

    /// Judges them. What a thread would do that can't be had, the caller does.
    pub fn judge_all(&self, alloc: Global, store: &Store, tasks: &mut [Task])
        ensures { AreJudged store.now tasks.old tasks.new }
    {
        thread::for_each_mut(
            self.rt,
            tasks,
            self.most,
            &|_at: usize, task: &mut Task|
                ensures { IsJudgedAs store.entry.now task.old task.new }
            { judge(alloc, store, task) },
        );
    }

    /// Judges them while the caller does something else, and before that where one thread is to do all.
    pub fn judge_beside<A, F: FnMut() -> A>(
        &self,
        alloc: Global,
        store: &Store,
        tasks: &mut [Task],
        other: &mut F,
    ) -> A
        requires { F.pre other.old }
        ensures judged { AreJudged store.now tasks.old tasks.new }
        ensures other { F.step other.old result other.new }
    {
        if self.most == 1 {
            self.judge_all(alloc, store, tasks);
            return other();
        }
        let mut judge = ||
            ensures { AreJudged store.entry.now tasks.entry.now tasks.exit.now }
        { self.judge_all(alloc, store, tasks) };
        let ((), answer) = join_mut(self.rt, &mut judge, other);
        answer
    }
}
