//! Questions to what a reader has loaded.
ghost use Rattle.std.specs.Prelude.{◌≡◌, ◌++◌, ◌<◌, IfOk, OnOk, false};
ghost use Rattle.hgs_mem.specs.Steady.{steady_log, steady_start, steady_tree};
ghost use Rattle.hgs_load.specs.Answer.{is_of_outside, refusal_line};
ghost use Rattle.hgs_reader.specs.Shown.{marks_text};
ghost use Rattle.hgs_world.specs.Questions.{body_text, log_text, phase_text};

use crate::seen::NoMemory;
use crate::texts::word_line;
use hgs_load::answer::ReadAnswer;
use hgs_mem::steady::SteadyFiles;
use hgs_reader::session::Session;
use std::alloc::Global;

// Adds the line of a refusal, where it speaks of the repository.
fn push_refusal(alloc: Global, refusal: &ReadAnswer, into: &mut Vec<u8>) -> Result<(), NoMemory>
    ensures line { OnOk result (into.new.items ≡ into.old.items ++ refusal_line refusal.now) }
    ensures inner { OnOk result (is_of_outside refusal.now ≡ false) }
{
    match refusal {
        ReadAnswer::Fault | ReadAnswer::Memory => Err(NoMemory),
        _ => {
            refusal.print(alloc, into)?;
            Ok(())
        }
    }
}

/// The line of a refusal, where it speaks of the repository.
pub fn refusal_line(alloc: Global, refusal: &ReadAnswer) -> Result<Vec<u8>, NoMemory>
    ensures line { IfOk result (λ line. line.items ≡ refusal_line refusal.now) }
    ensures inner { IfOk result (λ line. is_of_outside refusal.now ≡ false) }
{
    let mut line = Vec::new(alloc);
    push_refusal(alloc, refusal, &mut line)?;
    Ok(line)
}

/// The line of each changeset, newest first, up to the first that can't be read.
pub fn log_text(
    alloc: Global,
    files: &mut SteadyFiles,
    session: &mut Session,
) -> Result<Vec<u8>, NoMemory>
    ensures text { IfOk result (λ text. text.items ≡ log_text (steady_tree files.old) session.old) }
    ensures kept { session.new ≡ session.old }
    ensures log { steady_log files.new ≡ steady_log files.old }
    ensures same_start { steady_start files.new ≡ steady_start files.old }
{
    let mut text = Vec::new(alloc);
    let mut left = session.len();
    while left > 0 {
        left -= 1;
        if let Err(refusal) = session.log_line(files, left, &mut text) {
            push_refusal(alloc, &refusal, &mut text)?;
            return Ok(text);
        }
    }
    Ok(text)
}

/// The body of a file of the changeset with this name.
pub fn body_text(
    alloc: Global,
    files: &mut SteadyFiles,
    session: &mut Session,
    name: &[u8],
    path: &[u8],
) -> Result<Vec<u8>, NoMemory>
    ensures text { IfOk result (λ text. text.items ≡ body_text (steady_tree files.old) session.old name.now path.now) }
    ensures kept { session.new ≡ session.old }
    ensures log { steady_log files.new ≡ steady_log files.old }
    ensures same_start { steady_start files.new ≡ steady_start files.old }
{
    let Some(rev) = session.resolve(name) else {
        return word_line(alloc, b"abort: unknown revision");
    };
    let mut text = Vec::new(alloc);
    match session.cat(files, rev, path, &mut text) {
        Ok(()) => Ok(text),
        Err(refusal) => refusal_line(alloc, &refusal),
    }
}

/// The phase of the changeset with this name.
pub fn phase_text(alloc: Global, session: &Session, name: &[u8]) -> Result<Vec<u8>, NoMemory>
    ensures { IfOk result (λ text. text.items ≡ phase_text session.now name.now) }
{
    match session.resolve(name) {
        Some(rev) => word_line(alloc, session.phase(rev).name()),
        None => word_line(alloc, b"abort: unknown revision"),
    }
}

/// The bookmarks, a line for each.
pub fn bookmarks_text(alloc: Global, session: &Session) -> Result<Vec<u8>, NoMemory>
    ensures { IfOk result (λ text. text.items ≡ marks_text session.now) }
{
    let mut text = Vec::new(alloc);
    session.bookmarks(&mut text)?;
    Ok(text)
}
