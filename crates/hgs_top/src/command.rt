//! A command over files at rest, and the line of its refusal.
ghost use Rattle.std.specs.Prelude.{◌≡◌, ◌≤◌, Err, Ok, true, IfOk, [], ◌∷◌, ◌≢◌, ◌<◌};
ghost use Rattle.std.specs.Result.{result_map_both};
ghost use Rattle.hgs_files.specs.Reads.{Rose};
ghost use Rattle.hgs_files.specs.declared.streams.IoFault.TheVariants.{Failed};
ghost use Rattle.hgs_load.specs.declared.answer.ReadAnswer.TheVariants.{Fault};
ghost use Rattle.hgs_load.specs.Answer.{refusal_line, status_of};
ghost use Rattle.hgs_top.specs.Given.{question_reads, ReadsOnly};
ghost use Rattle.hgs_top.specs.Run.{IsOneOf, OfReply, IsReplied, Replied, SaysBadWord, Concludes, bad_set_line, bad_word_line, EndsLine, status_of_sink};
ghost use Rattle.hgs_top.specs.Words.{question_of};

use crate::branches::write_branches;
use crate::contents::{About, write_contents};
use crate::listing::{Listing, write_listing};
use crate::log::{write_last, write_log};
use crate::output::write_all;
use crate::sets::write_set;
use crate::stopped::{Said, Stopped};
use crate::words::Command;
use hgs_files::files::{Files, Reads};
use hgs_files::streams::{IoFault, Sink};
use hgs_load::answer::ReadAnswer;
use hgs_plan::print::push_number;
use std::alloc::{AllocError, Global};

/// The line of want of memory, which takes none.
pub const OUT_OF_MEMORY: &[u8; 21] = b"abort: out of memory\n";

// The status of a sink that takes no more.
pub(crate) fn status_of_fault(fault: IoFault) -> u8
    ensures { result ≡ status_of_sink fault }
{
    match fault {
        IoFault::Failed => 19,
        IoFault::Memory => 30,
    }
}

/// Writes the last line of a run, and gives the status.
pub fn end_with<K: Sink>(out: &mut K, line: &[u8], status: u8) -> u8
    ensures line { EndsLine line.now status result (K.written out.old) (K.written out.new) }
    ensures later { K.faults out.old ≤ K.faults out.new }
    ensures sink { status ≢ 19 → result ≡ 19 → Rose (K.faults out.old) (K.faults out.new) }
{
    match write_all(out, line) {
        Ok(()) => status,
        Err(fault) => status_of_fault(fault),
    }
}

// The line of words that don't fit.
fn bad_word(alloc: Global, place: usize) -> Result<Vec<u8>, AllocError>
    ensures { IfOk result (λ line. line.items ≡ bad_word_line place) }
{
    let mut line = Vec::from_slice(alloc, b"abort: bad word ")?;
    push_number(&mut line, place as u64)?;
    line.push(b'\n')?;
    Ok(line)
}

/// Says which word doesn't fit, and gives the status.
pub fn refuse_words<K: Sink>(alloc: Global, place: usize, out: &mut K) -> u8
    ensures says { SaysBadWord place result (K.written out.old) (K.written out.new) }
    ensures later { K.faults out.old ≤ K.faults out.new }
    ensures sink { result ≡ 19 → Rose (K.faults out.old) (K.faults out.new) }
{
    match bad_word(alloc, place) {
        Ok(line) => end_with(out, &line, 28),
        Err(_) => end_with(out, OUT_OF_MEMORY, 30),
    }
}

/// Writes the line of a refusal, and gives the status.
pub fn refuse<K: Sink>(alloc: Global, refusal: &ReadAnswer, out: &mut K) -> u8
    ensures line { EndsLine (refusal_line refusal.now) (status_of refusal.now) result (K.written out.old) (K.written out.new) }
    ensures later { K.faults out.old ≤ K.faults out.new }
    ensures sink { result ≡ 19 → Rose (K.faults out.old) (K.faults out.new) }
    ensures fault { result ≡ 16 → status_of refusal.now ≡ 16 }
    ensures statuses { IsOneOf (15 ∷ 16 ∷ 19 ∷ 20 ∷ 23 ∷ 24 ∷ 27 ∷ 30 ∷ []) result }
{
    let mut line = Vec::new(alloc);
    match refusal.print(alloc, &mut line) {
        Ok(()) => end_with(out, &line, refusal.status()),
        Err(_) => end_with(out, OUT_OF_MEMORY, 30),
    }
}

// The line of a text that is no set.
fn bad_set(alloc: Global, place: usize) -> Result<Vec<u8>, AllocError>
    ensures { IfOk result (λ line. line.items ≡ bad_set_line place) }
{
    let mut line = Vec::from_slice(alloc, b"abort: bad set at ")?;
    push_number(&mut line, place as u64)?;
    line.push(b'\n')?;
    Ok(line)
}

// Says where a text is no set, and gives the status.
fn refuse_set<K: Sink>(alloc: Global, place: usize, out: &mut K) -> u8
    ensures line { EndsLine (bad_set_line place) 33 result (K.written out.old) (K.written out.new) }
    ensures later { K.faults out.old ≤ K.faults out.new }
    ensures sink { result ≡ 19 → Rose (K.faults out.old) (K.faults out.new) }
    ensures statuses { IsOneOf (19 ∷ 30 ∷ 33 ∷ []) result }
{
    match bad_set(alloc, place) {
        Ok(line) => end_with(out, &line, 33),
        Err(_) => end_with(out, OUT_OF_MEMORY, 30),
    }
}

// Says that no revision has a name, where a text is no set, or why a command did not come to its end, if so, and gives the
// status.
fn conclude<K: Sink>(alloc: Global, ended: Result<Said, Stopped>, out: &mut K) -> u8
    ensures concluded { Concludes ended (K.written out.old) (K.written out.new) result }
    ensures later { K.faults out.old ≤ K.faults out.new }
    ensures sink { ended ≢ Err (Stopped.Unwritten Failed) → result ≡ 19 → Rose (K.faults out.old) (K.faults out.new) }
    ensures fault { result ≡ 16 → ended ≡ Err (Stopped.Refused Fault) }
    ensures statuses { IsOneOf (0 ∷ 12 ∷ 15 ∷ 16 ∷ 19 ∷ 20 ∷ 23 ∷ 24 ∷ 27 ∷ 30 ∷ 33 ∷ []) result }
{
    match ended {
        Ok(Said::Whole) => 0,
        Ok(Said::UnknownRevision) => end_with(out, b"abort: unknown revision\n", 12),
        Ok(Said::BadSet(place)) => refuse_set(alloc, place, out),
        Err(Stopped::Refused(refusal)) => refuse(alloc, &refusal, out),
        Err(Stopped::Unwritten(fault)) => status_of_fault(fault),
    }
}

// What a command came to that has no name of a revision.
fn whole(ended: Result<(), Stopped>) -> Result<Said, Stopped>
    ensures { result ≡ result_map_both (λ _. Said.Whole) (λ stopped. stopped) ended }
{
    match ended {
        Ok(()) => Ok(Said::Whole),
        Err(stopped) => Err(stopped),
    }
}

// Answers the question that a command is, or says what stopped it.
fn answer<R: Reads, K: Sink>(
    alloc: Global,
    command: Command<'_>,
    files: &mut R,
    out: &mut K,
) -> Result<Said, Stopped>
    ensures told { R.alone ≡ true → OfReply (question_of command.entry) (R.seen files.old) (R.start files.old) (λ reply. IsReplied reply (K.written out.old) (K.written out.new) result) }
    ensures given { ReadsOnly (R.given files.old) (R.given files.new) (R.seen files.old) (R.start files.old) (R.seen files.new) (question_reads (question_of command.entry)) }
    ensures same_start { R.start files.new ≡ R.start files.old }
    ensures still { R.alone ≡ true → R.seen files.new ≡ R.seen files.old }
    ensures fault { result ≡ Err (Stopped.Refused Fault) → Rose (R.faults files.old) (R.faults files.new) }
    ensures later { R.faults files.old ≤ R.faults files.new }
    ensures later_sink { K.faults out.old ≤ K.faults out.new }
    ensures failed { result ≡ Err (Stopped.Unwritten Failed) → Rose (K.faults out.old) (K.faults out.new) }
{
    match command {
        Command::Shown(page) => whole(write_last(out, page.text())),
        Command::Log => whole(write_log(alloc, files, out)),
        Command::Heads => whole(write_listing(alloc, files, Listing::Heads, out)),
        Command::Bookmarks => whole(write_listing(alloc, files, Listing::Bookmarks, out)),
        Command::Parents => whole(write_listing(alloc, files, Listing::Parents, out)),
        Command::Files { rev } => write_contents(alloc, files, rev, About::Files, out),
        Command::Cat { rev, path } => write_contents(alloc, files, rev, About::Body(path), out),
        Command::Phase { rev } => write_contents(alloc, files, rev, About::AtPhase, out),
        Command::Set { text } => write_set(alloc, files, text, out),
        Command::Branches { steps } => whole(write_branches(alloc, files, steps, out)),
    }
}

/// Does a command over files at rest, and gives the status.
pub fn run_command<F: Files, K: Sink>(
    alloc: Global,
    command: Command<'_>,
    files: &mut F,
    out: &mut K,
) -> u8
    ensures says { OfReply (question_of command.entry) (F.log files.old) (F.start files.old) (λ reply. Replied (Rose (F.faults files.old) (F.faults files.new)) reply result (K.written out.old) (K.written out.new)) }
    ensures fault { result ≡ 16 → Rose (F.faults files.old) (F.faults files.new) }
    ensures sink { result ≡ 19 → Rose (K.faults out.old) (K.faults out.new) }
    ensures given { ReadsOnly (F.given files.old) (F.given files.new) (F.seen files.old) (F.start files.old) (F.seen files.new) (question_reads (question_of command.entry)) }
    ensures log { F.log files.new ≡ F.log files.old }
    ensures same_start { F.start files.new ≡ F.start files.old }
    ensures statuses { IsOneOf (0 ∷ 12 ∷ 15 ∷ 16 ∷ 19 ∷ 20 ∷ 23 ∷ 24 ∷ 27 ∷ 30 ∷ 33 ∷ []) result }
{
    let ended = answer(alloc, command, files, out);
    conclude(alloc, ended, out)
}
