//! The script of an input.
ghost use Rattle.std.specs.Prelude.{[], length, replicate};
ghost use Rattle.hgs_bytes.specs.Answer.{Gives};
ghost use Rattle.hgs_input.specs.Read.{required, is_memory};
ghost use Rattle.hgs_input.specs.View.{Reads};
ghost use Rattle.hgs_script.specs.Read.{workers_of, job_at, next_task, jobs_from, script_from, read_script};

use crate::job::Job;
use crate::line::{call_from, job_from, workers_from};
use crate::workers::Workers;
use hgs_bytes::parts::equal;
use hgs_input::fault::InputFault;
use hgs_input::input::{Input, bad_at};
use hgs_input::laws::records_stand_in_front;
use hgs_model::command::Command;
use std::alloc::Global;

/// What each worker has to do.
#[derive(Debug, Drop)]
pub struct Script {
    pub workers: Workers,
}

fn count<'a>(input: &mut Input<'a>) -> Result<u32, InputFault>
    ensures { Reads (λ n. n) result input.new (required workers_of input.old) }
{
    let (line, rest) = input.line()?;
    let Some(count) = workers_from(line) else {
        return Err(bad_at(input.place()));
    };
    *input = rest;
    Ok(count)
}

// The job whose words are said in the line at this place.
fn job<'a>(
    alloc: Global,
    place: usize,
    said: &[u8],
    input: &mut Input<'a>,
) -> Result<Job, InputFault>
    ensures { Reads (λ j. j) result input.new (job_at place said.now input.old) }
{
    if equal(said, b"commit") {
        let change = input.record(alloc)?;
        return Ok(Job::Change(Command::Commit(change)));
    }
    let Some(job) = job_from(alloc, said)? else {
        return Err(bad_at(place));
    };
    Ok(job)
}

// The next job and whose it is, or none at the last line.
fn task<'a>(
    alloc: Global,
    workers: &Workers,
    input: &mut Input<'a>,
) -> Result<Option<(usize, Job)>, InputFault>
    ensures { Reads (λ t. t) result input.new (next_task workers.now input.old) }
{
    let place = input.place();
    let (line, rest) = input.line()?;
    *input = rest;
    if equal(line, b"end session") {
        return Ok(None);
    }
    let Some((worker, said)) = call_from(workers, line) else {
        return Err(bad_at(place));
    };
    let job = job(alloc, place, said, input)?;
    Ok(Some((worker, job)))
}

// The jobs of so many workers.
fn jobs<'a>(alloc: Global, count: u32, input: &mut Input<'a>) -> Result<Workers, InputFault>
    ensures { Reads (λ w. w) result input.new (jobs_from (length input.old.bytes) (replicate count []) input.old) }
{
    records_stand_in_front();
    let mut workers = Workers::idle(alloc, count)?;
    while let Some((worker, job)) = task(alloc, &workers, input)? {
        workers.push(worker, job)?;
    }
    Ok(workers)
}

fn script_lines<'a>(alloc: Global, input: &mut Input<'a>) -> Result<Script, InputFault>
    ensures { Reads (λ s. s) result input.new (script_from input.old) }
{
    let count = count(input)?;
    let workers = jobs(alloc, count, input)?;
    Ok(Script { workers })
}

impl Script {
    /// The script of an input, or its first fault.
    ///
    /// It has, each with an LF: `session N`, the number of workers, 1 to 64; the jobs, each in a line that begins with its
    /// worker's number and a space, but for `commit`, behind whose line a record stands; `end session`, with nothing behind
    /// it. A worker has at most 10,000 jobs.
    ///
    /// An input that is too long is decided as that of a record is.
    ///
    /// The time grows with the length of the input.
    pub fn read(alloc: Global, bytes: &[u8]) -> Result<Script, InputFault>
        ensures { Gives is_memory (λ s. s) result (read_script bytes.now) }
    {
        let mut input = Input::new(bytes);
        let script = script_lines(alloc, &mut input)?;
        input.nothing_behind()?;
        Ok(script)
    }
}
