//! One question of a session: a load, and the answer of what was loaded.
ghost use Rattle.std.specs.Prelude.{◌≡◌, ◌≤◌, true, Some, None, Option};
ghost use Rattle.hgs_files.specs.Reads.{Grows, Rose};
ghost use Rattle.hgs_load.specs.Beyond.{IsShown};
ghost use Rattle.hgs_questions.specs.Asked.{Asked};
ghost use Rattle.hgs_questions.specs.Said.{IsStatus};

use crate::answers::refuse;
use crate::tell::tell;
use hgs_files::files::Reads;
use hgs_reader::session::Session;
use hgs_script::job::Question;
use hgs_script::result::Answered;
use std::alloc::Global;

// The first question: all is loaded.
fn ask_first<R: Reads>(
    alloc: Global,
    files: &mut R,
    session: &mut Option<Session>,
    question: &Question,
) -> Answered
    requires { session.old ≡ None }
    ensures asked { Asked (R.ties files.old).told (R.seen files.old) (R.start files.old) (R.seen files.new) session.old session.new question.now (R.faults files.old) (R.faults files.new) result }
    ensures seen { Grows (R.seen files.old) (R.seen files.new) }
    ensures same_start { R.start files.new ≡ R.start files.old }
    ensures still { R.alone ≡ true → R.seen files.new ≡ R.seen files.old }
    ensures same_ties { R.ties files.new ≡ R.ties files.old }
    ensures shown { IsShown R.shows (R.start files.old) (R.seen files.old) → IsShown R.shows (R.start files.new) (R.seen files.new) }
    ensures later { R.faults files.old ≤ R.faults files.new }
    ensures later_denied { R.denied files.old ≤ R.denied files.new }
    ensures statuses { IsStatus result.status }
    ensures fault { result.status ≡ 16 → Rose (R.faults files.old) (R.faults files.new) }
{
    let mut opened = match Session::open(alloc, files) {
        Ok(opened) => opened,
        Err(refusal) => return refuse(alloc, Vec::new(alloc), &refusal),
    };
    let answered = tell(alloc, files, &mut opened, question);
    *session = Some(opened);
    answered
}

// A later question: what may have changed is loaded again.
fn ask_again<R: Reads>(
    alloc: Global,
    files: &mut R,
    session: &mut Session,
    question: &Question,
) -> Answered
    ensures asked { Asked (R.ties files.old).told (R.seen files.old) (R.start files.old) (R.seen files.new) (Some session.old) (Some session.new) question.now (R.faults files.old) (R.faults files.new) result }
    ensures seen { Grows (R.seen files.old) (R.seen files.new) }
    ensures same_start { R.start files.new ≡ R.start files.old }
    ensures still { R.alone ≡ true → R.seen files.new ≡ R.seen files.old }
    ensures same_ties { R.ties files.new ≡ R.ties files.old }
    ensures shown { IsShown R.shows (R.start files.old) (R.seen files.old) → IsShown R.shows (R.start files.new) (R.seen files.new) }
    ensures later { R.faults files.old ≤ R.faults files.new }
    ensures later_denied { R.denied files.old ≤ R.denied files.new }
    ensures statuses { IsStatus result.status }
    ensures fault { result.status ≡ 16 → Rose (R.faults files.old) (R.faults files.new) }
{
    match session.refresh(files) {
        Ok(()) => tell(alloc, files, session, question),
        Err(refusal) => refuse(alloc, Vec::new(alloc), &refusal),
    }
}

/// Answers a question over files that others may change meanwhile: what the command would write, and its exit status.
///
/// The first question loads all, and each later one what may have changed since, so that an answer is never older than what was
/// known of the files when the question came. A load that is refused leaves the session as it was. `Fault` is answered only
/// where the files counted one; the lines of `log` before it stand. Without memory the status is 30 and the text is empty.
pub fn ask<R: Reads>(
    alloc: Global,
    files: &mut R,
    session: &mut Option<Session>,
    question: &Question,
) -> Answered
    ensures asked { Asked (R.ties files.old).told (R.seen files.old) (R.start files.old) (R.seen files.new) session.old session.new question.now (R.faults files.old) (R.faults files.new) result }
    ensures seen { Grows (R.seen files.old) (R.seen files.new) }
    ensures same_start { R.start files.new ≡ R.start files.old }
    ensures still { R.alone ≡ true → R.seen files.new ≡ R.seen files.old }
    ensures same_ties { R.ties files.new ≡ R.ties files.old }
    ensures shown { IsShown R.shows (R.start files.old) (R.seen files.old) → IsShown R.shows (R.start files.new) (R.seen files.new) }
    ensures later { R.faults files.old ≤ R.faults files.new }
    ensures later_denied { R.denied files.old ≤ R.denied files.new }
    ensures statuses { IsStatus result.status }
    ensures fault { result.status ≡ 16 → Rose (R.faults files.old) (R.faults files.new) }
{
    match session {
        Some(session) => ask_again(alloc, files, session, question),
        None => ask_first(alloc, files, session, question),
    }
}
