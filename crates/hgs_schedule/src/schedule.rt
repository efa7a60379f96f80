//! The schedule of an input.
ghost use Rattle.std.specs.Prelude.{[], length};
ghost use Rattle.hgs_bytes.specs.Answer.{Gives};
ghost use Rattle.hgs_input.specs.Read.{required, is_memory};
ghost use Rattle.hgs_input.specs.View.{Reads};
ghost use Rattle.hgs_schedule.specs.Read.{readers_of, next_event, events_from, schedule_from, read_schedule};

use crate::event::{Event, Events, Schedule};
use crate::line::{event_from, readers_from};
use hgs_bytes::parts::equal;
use hgs_input::fault::InputFault;
use hgs_input::input::{Input, bad_at};
use hgs_input::laws::{imports_stand_in_front, records_stand_in_front};
use hgs_model::command::Command;
use std::alloc::Global;

fn readers<'a>(input: &mut Input<'a>) -> Result<u32, InputFault>
    ensures { Reads (λ n. n) result input.new (required readers_of input.old) }
{
    let (line, rest) = input.line()?;
    let Some(readers) = readers_from(line) else {
        return Err(bad_at(input.place()));
    };
    *input = rest;
    Ok(readers)
}

// The next event, or none at the last line.
fn event<'a>(
    alloc: Global,
    readers: u32,
    input: &mut Input<'a>,
) -> Result<Option<Event>, InputFault>
    ensures { Reads (λ e. e) result input.new (next_event readers input.old) }
{
    let place = input.place();
    let (line, rest) = input.line()?;
    *input = rest;
    if equal(line, b"end") {
        return Ok(None);
    }
    if equal(line, b"begin commit") {
        let change = input.record(alloc)?;
        return Ok(Some(Event::Begin(Command::Commit(change))));
    }
    if equal(line, b"begin import") {
        let changes = input.import(alloc)?;
        return Ok(Some(Event::Begin(Command::Import(changes))));
    }
    let Some(event) = event_from(alloc, readers, line)? else {
        return Err(bad_at(place));
    };
    Ok(Some(event))
}

fn events<'a>(alloc: Global, readers: u32, input: &mut Input<'a>) -> Result<Events, InputFault>
    ensures { Reads (λ e. e) result input.new (events_from readers (length input.old.bytes) [] input.old) }
{
    records_stand_in_front();
    imports_stand_in_front();
    let mut events = Events::new(alloc);
    while let Some(event) = event(alloc, readers, input)? {
        events.push(event)?;
    }
    Ok(events)
}

fn schedule<'a>(alloc: Global, input: &mut Input<'a>) -> Result<Schedule, InputFault>
    ensures { Reads (λ s. s) result input.new (schedule_from input.old) }
{
    let readers = readers(input)?;
    let events = events(alloc, readers, input)?;
    Ok(Schedule { readers, events })
}

/// The schedule of an input, or its first fault.
///
/// It has, each with an LF: `play N`, the number of readers, 1 to 64; the events, each in a line, but for `begin commit`,
/// behind whose line a record stands, and `begin import`, behind whose line those of an import stand, with their last line; `end`, with
/// nothing behind it.
///
/// An input that is too long is decided as that of a record is.
///
/// The time grows with the length of the input.
pub fn read_schedule(alloc: Global, bytes: &[u8]) -> Result<Schedule, InputFault>
    ensures { Gives is_memory (λ s. s) result (read_schedule bytes.now) }
{
    let mut input = Input::new(bytes);
    let schedule = schedule(alloc, &mut input)?;
    input.nothing_behind()?;
    Ok(schedule)
}
