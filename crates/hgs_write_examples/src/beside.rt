//! A session is refreshed, and takes the heads of branches on, behind each operation of a commit. The nodes are Mercurial's.
ghost use Rattle.std.specs.Prelude.{IfOk};
ghost use Rattle.hgs_model.specs.Valid.{IsValid};

use crate::files::put;
use crate::given::given;
use hgs_answers::outcome::Outcome;
use hgs_branches::branches::Branches;
use hgs_input::laws::read_records_are_records;
use hgs_input::record::read_commit;
use hgs_mem::mem::MemFiles;
use hgs_model::command::Command;
use hgs_reader::session::Session;
use hgs_writer::write::write;
use std::alloc::Global;
use std::test::Fail;

const REQUIRES: &[u8] = b"dotencode\nfncache\nrevlogv1\nstore\n";

const FIRST: &[u8] =
    b"commit\nuser test\ndate 0 0\nphase public\ndesc 1\na\nfile - 2 a\na\n\nend\n";

const ON_A_BRANCH: &[u8] =
    b"commit\nparent tip\nuser test\ndate 60 0\nbranch side\ndesc 1\nb\nfile - 2 a\na\n\nfile - 2 b\nb\n\nend\n";

const HEADS_BEFORE: &[u8] = b"default\x090\x09cb9a9f314b8b07ba71012fcdbc544b5a4d82ff5b\n";

const HEADS_BEHIND: &[u8] =
    b"default\x090\x09cb9a9f314b8b07ba71012fcdbc544b5a4d82ff5b\nside\x091\x0989c35e91dd0767fdc86032f5e4df2e08b8549b05\n";

/// More calls than a commit makes.
const CALLS: u64 = 100;

/// What stands in the locks of a writer.
pub(crate) const WHO: &[u8] = b"me";

pub(crate) fn commit_of(alloc: Global, record: &[u8]) -> Result<Command, Fail>
    ensures { IfOk result (λ command. IsValid command) }
{
    read_records_are_records();
    match read_commit(alloc, record) {
        Ok(change) => Ok(Command::Commit(change)),
        Err(_) => Err(Fail::new("no record")),
    }
}

/// The files of a repository with the first changeset, which is public.
fn committed(alloc: Global) -> Result<MemFiles, Fail> {
    let mut files = MemFiles::new(alloc)?;
    put(alloc, &mut files, b"requires", REQUIRES)?;
    let first = commit_of(alloc, FIRST)?;
    let answer = write(alloc, &mut files, &first, WHO);
    if matches!(answer.outcome, Outcome::Done { .. }) {
        Ok(files)
    } else {
        Err(Fail::new("no first changeset"))
    }
}

/// The lines of the heads behind a refresh, once all changesets that the session has are taken.
fn refreshed_heads(
    alloc: Global,
    session: &mut Session,
    branches: &mut Branches,
    files: &mut MemFiles,
) -> Result<Vec<u8>, Fail> {
    given(session.refresh(files))?;
    let upto = session.len();
    if upto < branches.count() {
        return Err(Fail::new("a shorter history"));
    }
    given(branches.advance(session, files, upto))?;
    let mut text = Vec::new(alloc);
    given(branches.print(session, &mut text))?;
    Ok(text)
}

/// The files behind so many calls of a commit on another branch.
fn files_behind(alloc: Global, calls: u64) -> Result<MemFiles, Fail> {
    let mut files = committed(alloc)?;
    files.stop(files.calls().saturating_add(calls), 64);
    let second = commit_of(alloc, ON_A_BRANCH)?;
    write(alloc, &mut files, &second, WHO);
    Ok(files.restart())
}

/// The branch of the new changeset has a head as soon as the session has that changeset, and the other branch keeps its own.
#[test]
fn heads_of_branches_behind_each_operation_of_a_commit(rt: HostRuntime) -> Result<(), Fail> {
    let alloc = rt.alloc();
    let mut first = committed(alloc)?;
    let mut session = given(Session::open(alloc, &mut first))?;
    let mut branches = Branches::new(alloc);
    for calls in 0..CALLS {
        let mut files = files_behind(alloc, calls)?;
        let text = refreshed_heads(alloc, &mut session, &mut branches, &mut files)?;
        let wanted = if session.len() > 1 {
            HEADS_BEHIND
        } else {
            HEADS_BEFORE
        };
        assert!(rt; text.as_slice() == wanted);
    }
    assert_eq!(rt; session.len(), 2);
    Ok(())
}
