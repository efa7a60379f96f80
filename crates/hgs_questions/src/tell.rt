//! What a loaded session answers to each question.
ghost use Rattle.std.specs.Prelude.{◌≡◌, ◌≢◌, ◌≤◌, ◌<◌, true, length, slice_get, IfOk};
ghost use Rattle.hgs_files.specs.Reads.{Grows, Rose};
ghost use Rattle.hgs_load.specs.Beyond.{IsShown};
ghost use Rattle.hgs_script.specs.declared.job.Question.TheVariants.{Phase, Log, Heads, Bookmarks, Parents, Files, Cat};
ghost use Rattle.hgs_questions.specs.Asked.{Tells, TellsAtOnce};
ghost use Rattle.hgs_questions.specs.Said.{IsStatus, phase_line};

use crate::answers::{lost, refuse, said, unknown};
use hgs_bytes::bytes::Bytes;
use hgs_files::files::Reads;
use hgs_reader::session::Session;
use hgs_script::job::Question;
use hgs_script::result::Answered;
use std::alloc::{AllocError, Global};

// The line of a changeset's phase.
fn phase_line(alloc: Global, session: &Session, rev: u32) -> Result<Vec<u8>, AllocError>
    requires { rev < length session.now.changelog.entries }
    ensures { IfOk result (λ line. line.items ≡ phase_line (slice_get session.now.phases rev)) }
{
    let mut line = Vec::from_slice(alloc, session.phase(rev).name())?;
    line.push(b'\n')?;
    Ok(line)
}

// The phase of the changeset with this name.
fn phase_told(alloc: Global, session: &Session, name: &Bytes) -> Answered
    ensures told { TellsAtOnce session.now (Phase name.now) result }
    ensures statuses { IsStatus result.status }
    ensures never { result.status ≢ 16 }
{
    let Some(rev) = session.resolve(name.as_slice()) else {
        return unknown(alloc);
    };
    match phase_line(alloc, session, rev) {
        Ok(line) => said(line),
        Err(_) => lost(alloc),
    }
}

fn heads_told(alloc: Global, session: &Session) -> Answered
    ensures told { TellsAtOnce session.now Heads result }
    ensures statuses { IsStatus result.status }
    ensures never { result.status ≢ 16 }
{
    let mut lines = Vec::new(alloc);
    match session.heads(&mut lines) {
        Ok(()) => said(lines),
        Err(_) => lost(alloc),
    }
}

fn bookmarks_told(alloc: Global, session: &Session) -> Answered
    ensures told { TellsAtOnce session.now Bookmarks result }
    ensures statuses { IsStatus result.status }
    ensures never { result.status ≢ 16 }
{
    let mut lines = Vec::new(alloc);
    match session.bookmarks(&mut lines) {
        Ok(()) => said(lines),
        Err(_) => lost(alloc),
    }
}

fn parents_told(alloc: Global, session: &Session) -> Answered
    ensures told { TellsAtOnce session.now Parents result }
    ensures statuses { IsStatus result.status }
    ensures never { result.status ≢ 16 }
{
    let mut lines = Vec::new(alloc);
    match session.parents(&mut lines) {
        Ok(()) => said(lines),
        Err(_) => lost(alloc),
    }
}

// The files of the changeset with this name.
fn files_told<R: Reads>(
    alloc: Global,
    files: &mut R,
    session: &mut Session,
    name: &Bytes,
) -> Answered
    ensures told { Tells (R.seen files.old) (R.start files.old) (R.seen files.new) session.old (Files name.now) (R.faults files.old) (R.faults files.new) result }
    ensures kept { session.new ≡ session.old }
    ensures seen { Grows (R.seen files.old) (R.seen files.new) }
    ensures same_start { R.start files.new ≡ R.start files.old }
    ensures still { R.alone ≡ true → R.seen files.new ≡ R.seen files.old }
    ensures same_ties { R.ties files.new ≡ R.ties files.old }
    ensures shown { IsShown R.shows (R.start files.old) (R.seen files.old) → IsShown R.shows (R.start files.new) (R.seen files.new) }
    ensures later { R.faults files.old ≤ R.faults files.new }
    ensures later_denied { R.denied files.old ≤ R.denied files.new }
    ensures statuses { IsStatus result.status }
    ensures fault { result.status ≡ 16 → Rose (R.faults files.old) (R.faults files.new) }
{
    let Some(rev) = session.resolve(name.as_slice()) else {
        return unknown(alloc);
    };
    let mut text = Vec::new(alloc);
    match session.files(files, rev, &mut text) {
        Ok(()) => said(text),
        Err(refusal) => refuse(alloc, text, &refusal),
    }
}

// The body of a file of the changeset with this name.
fn cat_told<R: Reads>(
    alloc: Global,
    files: &mut R,
    session: &mut Session,
    name: &Bytes,
    path: &Bytes,
) -> Answered
    ensures told { Tells (R.seen files.old) (R.start files.old) (R.seen files.new) session.old (Cat name.now path.now) (R.faults files.old) (R.faults files.new) result }
    ensures kept { session.new ≡ session.old }
    ensures seen { Grows (R.seen files.old) (R.seen files.new) }
    ensures same_start { R.start files.new ≡ R.start files.old }
    ensures still { R.alone ≡ true → R.seen files.new ≡ R.seen files.old }
    ensures same_ties { R.ties files.new ≡ R.ties files.old }
    ensures shown { IsShown R.shows (R.start files.old) (R.seen files.old) → IsShown R.shows (R.start files.new) (R.seen files.new) }
    ensures later { R.faults files.old ≤ R.faults files.new }
    ensures later_denied { R.denied files.old ≤ R.denied files.new }
    ensures statuses { IsStatus result.status }
    ensures fault { result.status ≡ 16 → Rose (R.faults files.old) (R.faults files.new) }
{
    let Some(rev) = session.resolve(name.as_slice()) else {
        return unknown(alloc);
    };
    let mut text = Vec::new(alloc);
    match session.cat(files, rev, path.as_slice(), &mut text) {
        Ok(()) => said(text),
        Err(refusal) => refuse(alloc, text, &refusal),
    }
}

// The line of each changeset, newest first, up to the first that can't be read.
fn log_told<R: Reads>(alloc: Global, files: &mut R, session: &mut Session) -> Answered
    ensures told { Tells (R.seen files.old) (R.start files.old) (R.seen files.new) session.old Log (R.faults files.old) (R.faults files.new) result }
    ensures kept { session.new ≡ session.old }
    ensures seen { Grows (R.seen files.old) (R.seen files.new) }
    ensures same_start { R.start files.new ≡ R.start files.old }
    ensures still { R.alone ≡ true → R.seen files.new ≡ R.seen files.old }
    ensures same_ties { R.ties files.new ≡ R.ties files.old }
    ensures shown { IsShown R.shows (R.start files.old) (R.seen files.old) → IsShown R.shows (R.start files.new) (R.seen files.new) }
    ensures later { R.faults files.old ≤ R.faults files.new }
    ensures later_denied { R.denied files.old ≤ R.denied files.new }
    ensures statuses { IsStatus result.status }
    ensures fault { result.status ≡ 16 → Rose (R.faults files.old) (R.faults files.new) }
{
    let mut text = Vec::new(alloc);
    let mut left = session.len();
    while left > 0 {
        left -= 1;
        if let Err(refusal) = session.log_line(files, left, &mut text) {
            return refuse(alloc, text, &refusal);
        }
    }
    said(text)
}

/// What a session answers to a question, of what it loaded last. A refusal behind the lines of `log` ends them.
pub(crate) fn tell<R: Reads>(
    alloc: Global,
    files: &mut R,
    session: &mut Session,
    question: &Question,
) -> Answered
    ensures told { Tells (R.seen files.old) (R.start files.old) (R.seen files.new) session.old question.now (R.faults files.old) (R.faults files.new) result }
    ensures kept { session.new ≡ session.old }
    ensures seen { Grows (R.seen files.old) (R.seen files.new) }
    ensures same_start { R.start files.new ≡ R.start files.old }
    ensures still { R.alone ≡ true → R.seen files.new ≡ R.seen files.old }
    ensures same_ties { R.ties files.new ≡ R.ties files.old }
    ensures shown { IsShown R.shows (R.start files.old) (R.seen files.old) → IsShown R.shows (R.start files.new) (R.seen files.new) }
    ensures later { R.faults files.old ≤ R.faults files.new }
    ensures later_denied { R.denied files.old ≤ R.denied files.new }
    ensures statuses { IsStatus result.status }
    ensures fault { result.status ≡ 16 → Rose (R.faults files.old) (R.faults files.new) }
{
    match question {
        Question::Phase(name) => phase_told(alloc, session, name),
        Question::Log => log_told(alloc, files, session),
        Question::Heads => heads_told(alloc, session),
        Question::Bookmarks => bookmarks_told(alloc, session),
        Question::Parents => parents_told(alloc, session),
        Question::Files(name) => files_told(alloc, files, session, name),
        Question::Cat { rev, path } => cat_told(alloc, files, session, rev, path),
    }
}
