//! Workers over shared files in memory. Gates hold them: two that meet, and one that waits for the other's end. So they run at the
//! same time.
ghost use Rattle.std.specs.Prelude.{IfOk};
ghost use Rattle.hgs_script.specs.Script.{CanBeRun};

use crate::ends::Free;
use crate::files::put;
use hgs_hub::hub::Hub;
use hgs_mem::mem::MemFiles;
use hgs_script::laws::read_scripts_can_be_run;
use hgs_script::result::SessionResult;
use hgs_script::script::Script;
use hgs_session::gate::Gate;
use hgs_session::session::{SessionEnd, session};
use std::alloc::Global;
use std::sync::atomic::AtomicU64;
use std::sync::atomic::Ordering::SeqCst;
use std::test::Fail;

/// More turns than a wait takes.
const TURNS: u64 = 1_000_000_000;

const REQUIRES: &[u8] = b"dotencode\nfncache\nrevlogv1\nstore\n";

const COMMITS: &[u8] =
    b"session 2\n0 commit\ncommit\nuser u\ndate 0 0\ndesc 1\na\nfile - 2 a\na\n\nend\n1 commit\ncommit\nuser u\ndate 0 0\ndesc 1\nb\nfile - 2 b\nb\n\nend\nend session\n";

const LOG_BEHIND: &[u8] =
    b"session 2\n0 log\n1 commit\ncommit\nuser u\ndate 0 0\ndesc 1\nb\nfile - 2 b\nb\n\nend\nend session\n";

// Waits until so much is counted, and says whether that came.
fn comes_to(count: &AtomicU64, wanted: u64) -> bool {
    for _ in 0..TURNS {
        if count.load(SeqCst) >= wanted {
            return true;
        }
    }
    false
}

/// What a worker waits for before a job: for nothing, until the other one of two is about to begin, or, but for the worker of this number,
/// until that one's job has ended.
#[derive(Clone, Copy)]
enum Waits {
    Never,
    Together,
    Behind(u32),
}

/// A gate that holds workers so.
#[derive(Drop)]
struct Hold {
    waits: Waits,
    here: AtomicU64,
    ended: AtomicU64,
    came: AtomicU64,
}

impl Gate for Hold {
    fn before(&self, worker: u32, _job: u32) {
        self.here.fetch_add(1, SeqCst);
        let came = match self.waits {
            Waits::Never => false,
            Waits::Together => comes_to(&self.here, 2),
            Waits::Behind(first) => worker != first && comes_to(&self.ended, 1),
        };
        if came {
            self.came.fetch_add(1, SeqCst);
        }
    }

    fn after(&self, worker: u32, _job: u32) {
        if let Waits::Behind(first) = self.waits {
            if worker == first {
                self.ended.fetch_add(1, SeqCst);
            }
        }
    }
}

fn new_gate(waits: Waits) -> Hold {
    Hold {
        waits,
        here: AtomicU64::new(0),
        ended: AtomicU64::new(0),
        came: AtomicU64::new(0),
    }
}

fn script_of(alloc: Global, text: &[u8]) -> Result<Script, Fail>
    ensures { IfOk result (λ script. CanBeRun script) }
{
    read_scripts_can_be_run();
    match Script::read(alloc, text) {
        Ok(script) => Ok(script),
        Err(_) => Err(Fail::new("no script")),
    }
}

// The files of a new repository.
pub(crate) fn new_repository(alloc: Global) -> Result<MemFiles, Fail> {
    let mut files = MemFiles::new(alloc)?;
    put(alloc, &mut files, b"requires", REQUIRES)?;
    Ok(files)
}

/// How many commits each of two workers makes, while two others ask as often.
const COMMITS_OF_EACH: u32 = 50;

// A script of four workers: two that commit and ask for a file behind each commit, and two that list.
fn script_of_four(alloc: Global) -> Result<Vec<u8>, Fail> {
    let mut text = Vec::from_slice(alloc, b"session 4\n")?;
    for at in 10..10 + COMMITS_OF_EACH {
        for worker in 0..2u32 {
            let jobs = format!(in alloc;
                "{worker} commit\ncommit\nuser u\ndate {at} 0\ndesc 1\nc\nfile - 3 f\n{worker}{at}\nend\n{worker} cat tip f\n"
            )?;
            text.extend_from_slice(jobs.as_bytes())?;
        }
        text.extend_from_slice(b"2 log\n3 log\n")?;
    }
    text.extend_from_slice(b"end session\n")?;
    Ok(text)
}

/// What comes of a script: how often a worker came to what it waited for, how many jobs are listed, of which workers where their order is
/// sure, and how the first worker's first answer ends.
#[derive(Drop)]
struct Wanted<'a> {
    came: u64,
    count: usize,
    workers: &'a [u32],
    said: &'a [u8],
}

fn comes<'a>(came: u64, count: usize, workers: &'a [u32], said: &'a [u8]) -> Wanted<'a> {
    Wanted {
        came,
        count,
        workers,
        said,
    }
}

// Whether that came, and each job was done.
fn is_so(gate: &Hold, told: &SessionResult, wanted: &Wanted<'_>) -> bool {
    let listed = told.published.as_slice();
    for (entry, worker) in listed.iter().zip(wanted.workers.iter()) {
        if entry.worker != *worker {
            return false;
        }
    }
    for answers in told.replies.as_slice() {
        for answered in answers.as_slice() {
            if answered.status != 0 {
                return false;
            }
        }
    }
    let Some(answers) = told.replies.as_slice().first() else {
        return false;
    };
    let Some(first) = answers.as_slice().first() else {
        return false;
    };
    gate.came.load(SeqCst) == wanted.came
        && listed.len() == wanted.count
        && first.text.as_slice().ends_with(wanted.said)
}

#[test]
fn workers_run_beside_each_other(rt: HostRuntime) -> Result<(), Fail> {
    let alloc = rt.alloc();
    let four = script_of_four(alloc)?;
    let runs: [(&[u8], Waits, Wanted<'_>); 5] = [
        (COMMITS, Waits::Together, comes(2, 2, &[], b"\n")),
        (COMMITS, Waits::Behind(0), comes(1, 2, &[0, 1], b"\n")),
        (COMMITS, Waits::Behind(1), comes(1, 2, &[1, 0], b"\n")),
        (LOG_BEHIND, Waits::Behind(1), comes(1, 1, &[1], b"\tu\tb\n")),
        (&four, Waits::Never, comes(0, 100, &[], b"\n")),
    ];
    for (text, waits, wanted) in runs {
        let gate = new_gate(waits);
        let script = script_of(alloc, text)?;
        let files = new_repository(alloc)?;
        let hub: Hub<Free, HostRuntime> = Hub::new(rt, files);
        let SessionEnd { left: _, result } = session(&rt, alloc, hub, &script, &gate);
        let Ok(told) = result else {
            panic!(rt; "no result");
        };
        assert!(rt; is_so(&gate, &told, &wanted));
    }
    Ok(())
}
