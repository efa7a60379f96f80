// What the lines of a script say, each without its LF.
ghost use Rattle.std.specs.Prelude.{◌≡◌, IfOk};
ghost use Rattle.std.specs.Option.{option_map};
ghost use Rattle.hgs_script.specs.Read.{workers_of, worker_of, call_of, word_question, phase_question_of, files_of, cat_of, question_of, move_of, mark_of, unmark_of, change_of, job_of};

use crate::job::{Job, Question};
use crate::workers::Workers;
use hgs_bytes::bytes::Bytes;
use hgs_bytes::parts::{equal, split_at_byte};
use hgs_input::line::behind;
use hgs_input::number::number_up_to;
use hgs_marks::name::is_mark_name;
use hgs_model::command::Command;
use hgs_schedule::line::{has_space, target_from};
use std::alloc::{AllocError, Global};

const MOST_WORKERS: u64 = 64;

/// How many workers there are.
pub(crate) fn workers_from(line: &[u8]) -> Option<u32>
    ensures { result ≡ workers_of line.now }
{
    let number = number_up_to(behind(line, b"session ")?, MOST_WORKERS)?;
    if 1 <= number && number <= MOST_WORKERS {
        Some(number as u32)
    } else {
        None
    }
}

// The number of a worker who may have one more job.
fn worker_from(workers: &Workers, text: &[u8]) -> Option<usize>
    ensures { result ≡ worker_of workers.now text.now }
{
    let number = number_up_to(text, MOST_WORKERS)? as usize;
    if workers.has_room(number) {
        Some(number)
    } else {
        None
    }
}

/// Whose job a line says, and the words of the job.
pub(crate) fn call_from<'a>(workers: &Workers, line: &'a [u8]) -> Option<(usize, &'a [u8])>
    ensures { option_map (λ c. (c.0, c.1.now)) result ≡ call_of workers.now line.now }
{
    let (worker, said) = split_at_byte(line, b' ')?;
    Some((worker_from(workers, worker)?, said))
}

// The questions that are words alone.
fn word_question(said: &[u8]) -> Option<Question>
    ensures { result ≡ word_question said.now }
{
    if equal(said, b"log") {
        Some(Question::Log)
    } else if equal(said, b"heads") {
        Some(Question::Heads)
    } else if equal(said, b"bookmarks") {
        Some(Question::Bookmarks)
    } else if equal(said, b"parents") {
        Some(Question::Parents)
    } else {
        None
    }
}

fn phase_question_from(alloc: Global, said: &[u8]) -> Result<Option<Question>, AllocError>
    ensures { IfOk result (λ q. q ≡ phase_question_of said.now) }
{
    let Some(rev) = behind(said, b"phase ") else {
        return Ok(None);
    };
    if has_space(rev) {
        return Ok(None);
    }
    Ok(Some(Question::Phase(Bytes::from_slice(alloc, rev)?)))
}

fn files_from(alloc: Global, said: &[u8]) -> Result<Option<Question>, AllocError>
    ensures { IfOk result (λ q. q ≡ files_of said.now) }
{
    let Some(rev) = behind(said, b"files ") else {
        return Ok(None);
    };
    if has_space(rev) {
        return Ok(None);
    }
    Ok(Some(Question::Files(Bytes::from_slice(alloc, rev)?)))
}

fn cat_from(alloc: Global, said: &[u8]) -> Result<Option<Question>, AllocError>
    ensures { IfOk result (λ q. q ≡ cat_of said.now) }
{
    let Some(text) = behind(said, b"cat ") else {
        return Ok(None);
    };
    let Some((rev, path)) = split_at_byte(text, b' ') else {
        return Ok(None);
    };
    Ok(Some(Question::Cat {
        rev: Bytes::from_slice(alloc, rev)?,
        path: Bytes::from_slice(alloc, path)?,
    }))
}

fn question_from(alloc: Global, said: &[u8]) -> Result<Option<Question>, AllocError>
    ensures { IfOk result (λ q. q ≡ question_of said.now) }
{
    if let Some(question) = word_question(said) {
        return Ok(Some(question));
    }
    if let Some(question) = phase_question_from(alloc, said)? {
        return Ok(Some(question));
    }
    if let Some(question) = files_from(alloc, said)? {
        return Ok(Some(question));
    }
    cat_from(alloc, said)
}

fn move_from(alloc: Global, said: &[u8]) -> Result<Option<Command>, AllocError>
    ensures { IfOk result (λ c. c ≡ move_of said.now) }
{
    let Some(text) = behind(said, b"phase ") else {
        return Ok(None);
    };
    let Some((rev, target)) = split_at_byte(text, b' ') else {
        return Ok(None);
    };
    let Some((phase, force)) = target_from(target) else {
        return Ok(None);
    };
    let rev = Bytes::from_slice(alloc, rev)?;
    Ok(Some(Command::Move { rev, phase, force }))
}

fn mark_from(alloc: Global, said: &[u8]) -> Result<Option<Command>, AllocError>
    ensures { IfOk result (λ c. c ≡ mark_of said.now) }
{
    let Some(text) = behind(said, b"bookmark ") else {
        return Ok(None);
    };
    let Some((rev, name)) = split_at_byte(text, b' ') else {
        return Ok(None);
    };
    if !is_mark_name(name) {
        return Ok(None);
    }
    Ok(Some(Command::Mark {
        name: Bytes::from_slice(alloc, name)?,
        rev: Bytes::from_slice(alloc, rev)?,
    }))
}

fn unmark_from(alloc: Global, said: &[u8]) -> Result<Option<Command>, AllocError>
    ensures { IfOk result (λ c. c ≡ unmark_of said.now) }
{
    let Some(name) = behind(said, b"unbookmark ") else {
        return Ok(None);
    };
    if !is_mark_name(name) {
        return Ok(None);
    }
    let name = Bytes::from_slice(alloc, name)?;
    Ok(Some(Command::Unmark { name }))
}

// The command of a job that writes, where a line says all of it.
fn change_from(alloc: Global, said: &[u8]) -> Result<Option<Command>, AllocError>
    ensures { IfOk result (λ c. c ≡ change_of said.now) }
{
    if let Some(command) = move_from(alloc, said)? {
        return Ok(Some(command));
    }
    if let Some(command) = mark_from(alloc, said)? {
        return Ok(Some(command));
    }
    unmark_from(alloc, said)
}

/// The job that the words of a line say alone.
pub(crate) fn job_from(alloc: Global, said: &[u8]) -> Result<Option<Job>, AllocError>
    ensures { IfOk result (λ j. j ≡ job_of said.now) }
{
    if let Some(command) = change_from(alloc, said)? {
        return Ok(Some(Job::Change(command)));
    }
    match question_from(alloc, said)? {
        Some(question) => Ok(Some(Job::Ask(question))),
        None => Ok(None),
    }
}
