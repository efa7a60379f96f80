//! What the lines of a schedule say, each without its LF.
ghost use Rattle.std.specs.Prelude.{◌≡◌, ◌==◌, IfOk};
ghost use Rattle.hgs_schedule.specs.Read.{readers_of, word_event, count_behind, written_of, bytes_event, reader_behind, reader_event, cat_of, phase_question_of, target_of, move_of, mark_of, unmark_of, has_space, begin_of, asked_of, event_of};

use crate::event::Event;
use crate::number::{number_from, reader_from};
use hgs_bytes::bytes::Bytes;
use hgs_bytes::parts::{equal, split_at_byte};
use hgs_input::line::behind;
use hgs_marks::name::is_mark_name;
use hgs_model::command::Command;
use hgs_model::phase::Phase;
use std::alloc::{AllocError, Global};

const MOST_READERS: u64 = 64;

/// How many readers there are.
pub(crate) fn readers_from(line: &[u8]) -> Option<u32>
    ensures { result ≡ readers_of line.now }
{
    let number = number_from(behind(line, b"play ")?)?;
    if 1 <= number && number <= MOST_READERS {
        Some(number as u32)
    } else {
        None
    }
}

// The events that are words alone.
fn word_event(line: &[u8]) -> Option<Event>
    ensures { result ≡ word_event line.now }
{
    if equal(line, b"write") {
        Some(Event::Write(None))
    } else if equal(line, b"until publish") {
        Some(Event::UntilPublish)
    } else if equal(line, b"until clean") {
        Some(Event::UntilClean)
    } else if equal(line, b"finish") {
        Some(Event::Finish)
    } else if equal(line, b"recover") {
        Some(Event::Recover)
    } else {
        None
    }
}

fn count_behind(word: &[u8], line: &[u8]) -> Option<u64>
    ensures { result ≡ count_behind word.now line.now }
{
    number_from(behind(line, word)?)
}

fn written_from(line: &[u8]) -> Option<Event>
    ensures { result ≡ written_of line.now }
{
    let count = count_behind(b"write ", line)?;
    if 1 <= count {
        Some(Event::Write(Some(count)))
    } else {
        None
    }
}

// The events that say a number of bytes.
fn bytes_event(line: &[u8]) -> Option<Event>
    ensures { result ≡ bytes_event line.now }
{
    if let Some(event) = written_from(line) {
        return Some(event);
    }
    if let Some(count) = count_behind(b"fail ", line) {
        return Some(Event::Fail(count));
    }
    let count = count_behind(b"stop ", line)?;
    Some(Event::Stop(count))
}

fn reader_behind(word: &[u8], readers: u32, line: &[u8]) -> Option<u32>
    ensures { result ≡ reader_behind word.now readers line.now }
{
    reader_from(readers, behind(line, word)?)
}

// The events that say a reader and nothing else.
fn reader_event(readers: u32, line: &[u8]) -> Option<Event>
    ensures { result ≡ reader_event readers line.now }
{
    if let Some(reader) = reader_behind(b"open ", readers, line) {
        return Some(Event::Open(reader));
    }
    if let Some(reader) = reader_behind(b"read ", readers, line) {
        return Some(Event::Read(reader));
    }
    if let Some(reader) = reader_behind(b"load ", readers, line) {
        return Some(Event::Load(reader));
    }
    if let Some(reader) = reader_behind(b"log ", readers, line) {
        return Some(Event::Log(reader));
    }
    let reader = reader_behind(b"bookmarks ", readers, line)?;
    Some(Event::Bookmarks(reader))
}

fn cat_from(alloc: Global, readers: u32, line: &[u8]) -> Result<Option<Event>, AllocError>
    ensures { IfOk result (λ e. e ≡ cat_of readers line.now) }
{
    let Some(text) = behind(line, b"cat ") else {
        return Ok(None);
    };
    let Some((reader, rest)) = split_at_byte(text, b' ') else {
        return Ok(None);
    };
    let Some(reader) = reader_from(readers, reader) else {
        return Ok(None);
    };
    let Some((rev, path)) = split_at_byte(rest, b' ') else {
        return Ok(None);
    };
    Ok(Some(Event::Cat {
        reader,
        rev: Bytes::from_slice(alloc, rev)?,
        path: Bytes::from_slice(alloc, path)?,
    }))
}

/// Whether a space stands in a text.
pub fn has_space(text: &[u8]) -> bool
    ensures { result ≡ has_space text.now }
{
    text.iter().any(|byte| *byte == b' ')
}

fn phase_question_from(
    alloc: Global,
    readers: u32,
    line: &[u8],
) -> Result<Option<Event>, AllocError>
    ensures { IfOk result (λ e. e ≡ phase_question_of readers line.now) }
{
    let Some(text) = behind(line, b"phase ") else {
        return Ok(None);
    };
    let Some((reader, rev)) = split_at_byte(text, b' ') else {
        return Ok(None);
    };
    let Some(reader) = reader_from(readers, reader) else {
        return Ok(None);
    };
    if has_space(rev) {
        return Ok(None);
    }
    let rev = Bytes::from_slice(alloc, rev)?;
    Ok(Some(Event::Phase { reader, rev }))
}

/// A phase, and whether it is forced.
pub fn target_from(text: &[u8]) -> Option<(Phase, bool)>
    ensures { result ≡ target_of text.now }
{
    let Some((name, force)) = split_at_byte(text, b' ') else {
        return Some((Phase::named(text)?, false));
    };
    let phase = Phase::named(name)?;
    if equal(force, b"force") {
        Some((phase, true))
    } else {
        None
    }
}

fn move_from(alloc: Global, line: &[u8]) -> Result<Option<Command>, AllocError>
    ensures { IfOk result (λ e. e ≡ move_of line.now) }
{
    let Some(text) = behind(line, b"begin phase ") else {
        return Ok(None);
    };
    let Some((rev, target)) = split_at_byte(text, b' ') else {
        return Ok(None);
    };
    let Some((phase, force)) = target_from(target) else {
        return Ok(None);
    };
    let rev = Bytes::from_slice(alloc, rev)?;
    Ok(Some(Command::Move { rev, phase, force }))
}

fn mark_from(alloc: Global, line: &[u8]) -> Result<Option<Command>, AllocError>
    ensures { IfOk result (λ e. e ≡ mark_of line.now) }
{
    let Some(text) = behind(line, b"begin bookmark ") else {
        return Ok(None);
    };
    let Some((rev, name)) = split_at_byte(text, b' ') else {
        return Ok(None);
    };
    if !is_mark_name(name) {
        return Ok(None);
    }
    Ok(Some(Command::Mark {
        name: Bytes::from_slice(alloc, name)?,
        rev: Bytes::from_slice(alloc, rev)?,
    }))
}

fn unmark_from(alloc: Global, line: &[u8]) -> Result<Option<Command>, AllocError>
    ensures { IfOk result (λ e. e ≡ unmark_of line.now) }
{
    let Some(name) = behind(line, b"begin unbookmark ") else {
        return Ok(None);
    };
    if !is_mark_name(name) {
        return Ok(None);
    }
    let name = Bytes::from_slice(alloc, name)?;
    Ok(Some(Command::Unmark { name }))
}

// The command of a writer, where a line says all of it.
fn begin_from(alloc: Global, line: &[u8]) -> Result<Option<Command>, AllocError>
    ensures { IfOk result (λ e. e ≡ begin_of line.now) }
{
    if let Some(command) = move_from(alloc, line)? {
        return Ok(Some(command));
    }
    if let Some(command) = mark_from(alloc, line)? {
        return Ok(Some(command));
    }
    unmark_from(alloc, line)
}

// The events that say names.
fn asked_from(alloc: Global, readers: u32, line: &[u8]) -> Result<Option<Event>, AllocError>
    ensures { IfOk result (λ e. e ≡ asked_of readers line.now) }
{
    if let Some(command) = begin_from(alloc, line)? {
        return Ok(Some(Event::Begin(command)));
    }
    if let Some(event) = cat_from(alloc, readers, line)? {
        return Ok(Some(event));
    }
    phase_question_from(alloc, readers, line)
}

/// The event that a line says alone.
pub(crate) fn event_from(
    alloc: Global,
    readers: u32,
    line: &[u8],
) -> Result<Option<Event>, AllocError>
    ensures { IfOk result (λ e. e ≡ event_of readers line.now) }
{
    if let Some(event) = word_event(line) {
        return Ok(Some(event));
    }
    if let Some(event) = bytes_event(line) {
        return Ok(Some(event));
    }
    if let Some(event) = reader_event(readers, line) {
        return Ok(Some(event));
    }
    asked_from(alloc, readers, line)
}
