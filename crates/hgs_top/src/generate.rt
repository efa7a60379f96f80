//! A repository that a number gives: it is made, it grows commit by commit, and it is verified.
ghost use Rattle.std.specs.Prelude.{◌≡◌, ◌≤◌, ◌⊎◌, ◌++◌, ◌∷◌, [], ℕ, List, OnOk, IfOk};
ghost use Rattle.hgs_answers.specs.Answer.{leftover_text};
ghost use Rattle.hgs_files.specs.Reads.{Rose};
ghost use Rattle.hgs_files.specs.declared.op.Op.{Op};
ghost use Rattle.hgs_judge.specs.Report.{findings_in};
ghost use Rattle.hgs_load.specs.Answer.{refusal_line, status_of};
ghost use Rattle.hgs_machine.specs.Refusals.{WereRefused};
ghost use Rattle.hgs_top.specs.Orders.{Generates, Grows, Summarizes};
ghost use Rattle.hgs_top.specs.Run.{EndsLine, IsOneOf, memory_line};
ghost use Rattle.hgs_top.specs.Verified.{report_status, summary_text};

use crate::command::{OUT_OF_MEMORY, end_with};
use crate::ended::Ended;
use crate::init::init;
use crate::obey::WHO;
use crate::told::say;
use crate::verified::status_of;
use hgs_answers::answer::Answer;
use hgs_files::files::Files;
use hgs_files::streams::Sink;
use hgs_grown::commits::{Stop, Tip, commit_all};
use hgs_index::node::Node;
use hgs_index::texts::hex_of;
use hgs_load::answer::ReadAnswer;
use hgs_plan::print::push_number;
use hgs_verify::progress::Unseen;
use hgs_verify::report::{Report, verify};
use std::alloc::{AllocError, Global};
use std::thread::Threads;

// A line more where commits left something over.
fn push_leftover(into: &mut Vec<u8>, swept: bool) -> Result<(), AllocError>
    ensures { OnOk result (into.new.items ≡ into.old.items ++ leftover_text swept) }
{
    if swept {
        Ok(())
    } else {
        into.extend_from_slice(b"leftover files remain\n")
    }
}

// What was verified, and the last node.
fn summary_of(alloc: Global, report: &Report, tip: &Node) -> Result<Vec<u8>, AllocError>
    ensures { IfOk result (λ text. text.items ≡ summary_text (findings_in report.now.findings.items) report.now.changesets report.now.filelogs tip.now) }
{
    let mut text = Vec::from_slice(alloc, b"changesets ")?;
    push_number(&mut text, report.changesets as u64)?;
    text.extend_from_slice(b"\nfiles ")?;
    push_number(&mut text, report.filelogs as u64)?;
    text.extend_from_slice(b"\ntip ")?;
    text.extend_from_slice(hex_of(tip).as_slice())?;
    text.extend_from_slice(b"\nfindings ")?;
    push_number(&mut text, report.findings.len() as u64)?;
    text.push(b'\n')?;
    Ok(text)
}

// The text of a summary.
fn text_of(alloc: Global, report: &Report, tip: &Tip) -> Result<Vec<u8>, AllocError>
    ensures { IfOk result (λ text. text.items ≡ summary_text (findings_in report.now.findings.items) report.now.changesets report.now.filelogs tip.now.node ++ leftover_text tip.now.swept) }
{
    let mut text = summary_of(alloc, report, &tip.node)?;
    push_leftover(&mut text, tip.swept)?;
    Ok(text)
}

// Writes a summary, and gives the status.
fn tell<K: Sink>(alloc: Global, report: &Report, tip: &Tip, out: &mut K) -> u8
    ensures line { EndsLine (summary_text (findings_in report.now.findings.items) report.now.changesets report.now.filelogs tip.now.node ++ leftover_text tip.now.swept) (report_status (findings_in report.now.findings.items)) result (K.written out.old) (K.written out.new) }
    ensures sink { result ≡ 19 → Rose (K.faults out.old) (K.faults out.new) }
    ensures statuses { IsOneOf (0 ∷ 19 ∷ 29 ∷ 30 ∷ []) result }
{
    match text_of(alloc, report, tip) {
        Ok(text) => end_with(out, &text, status_of(report)),
        Err(_) => end_with(out, OUT_OF_MEMORY, 30),
    }
}

// The text of a refusal.
fn refusal_text(alloc: Global, refusal: &ReadAnswer, swept: bool) -> Result<Vec<u8>, AllocError>
    ensures { IfOk result (λ text. text.items ≡ refusal_line refusal.now ++ leftover_text swept) }
{
    let mut text = Vec::new(alloc);
    refusal.print(alloc, &mut text)?;
    push_leftover(&mut text, swept)?;
    Ok(text)
}

// Says why there is no report, and gives the status.
fn tell_refusal<K: Sink>(alloc: Global, refusal: &ReadAnswer, swept: bool, out: &mut K) -> u8
    ensures line { EndsLine (refusal_line refusal.now ++ leftover_text swept) (status_of refusal.now) result (K.written out.old) (K.written out.new) }
    ensures sink { result ≡ 19 → Rose (K.faults out.old) (K.faults out.new) }
    ensures fault { result ≡ 16 → status_of refusal.now ≡ 16 }
    ensures statuses { IsOneOf (15 ∷ 16 ∷ 19 ∷ 20 ∷ 23 ∷ 24 ∷ 27 ∷ 30 ∷ []) result }
{
    match refusal_text(alloc, refusal, swept) {
        Ok(text) => end_with(out, &text, refusal.status()),
        Err(_) => end_with(out, OUT_OF_MEMORY, 30),
    }
}

// Says that there was no memory for the next commit, and gives the status.
fn tell_memory<K: Sink>(swept: bool, out: &mut K) -> u8
    ensures line { EndsLine (memory_line ++ leftover_text swept) 30 result (K.written out.old) (K.written out.new) }
    ensures sink { result ≡ 19 → Rose (K.faults out.old) (K.faults out.new) }
    ensures statuses { IsOneOf (19 ∷ 30 ∷ []) result }
{
    if swept {
        end_with(out, OUT_OF_MEMORY, 30)
    } else {
        end_with(out, b"abort: out of memory\nleftover files remain\n", 30)
    }
}

// Verifies the grown repository by one job, and writes what that came to.
fn summarize<T: Threads + Sync, F: Files, K: Sink>(
    rt: &T,
    alloc: Global,
    files: &mut F,
    tip: &Tip,
    out: &mut K,
) -> u8
    ensures summarizes { Summarizes tip.now (F.log files.old) (F.start files.old) result (K.written out.old) (K.written out.new) }
    ensures later { F.faults files.old ≤ F.faults files.new }
    ensures refused { F.denied files.old ≤ F.denied files.new }
    ensures fault { result ≡ 16 → Rose (F.faults files.old) (F.faults files.new) }
    ensures sink { result ≡ 19 → Rose (K.faults out.old) (K.faults out.new) }
    ensures log { F.log files.new ≡ F.log files.old }
    ensures same_start { F.start files.new ≡ F.start files.old }
    ensures statuses { IsOneOf (0 ∷ 15 ∷ 16 ∷ 19 ∷ 20 ∷ 23 ∷ 24 ∷ 27 ∷ 29 ∷ 30 ∷ []) result }
{
    match verify(rt, alloc, files, 1, &mut Unseen) {
        Ok(report) => tell(alloc, &report, tip, out),
        Err(refusal) => tell_refusal(alloc, &refusal, tip.swept, out),
    }
}

// Commits one changeset after another, verifies the repository, and says what it came to.
fn grow<T: Threads + Sync, F: Files, K: Sink>(
    rt: &T,
    alloc: Global,
    files: &mut F,
    seed: u64,
    count: u32,
    out: &mut K,
) -> u8
    requires some { 1 ≤ count }
    requires few { count ≤ 5000 }
    requires allows { (log : List Op) → F.allows (F.start files.old) log }
    ensures grows { Grows (λ n. WereRefused n (F.faults files.old) (F.faults files.new) (F.denied files.old) (F.denied files.new)) seed count (F.log files.old) (F.log files.new) (F.start files.old) result (K.written out.old) (K.written out.new) }
    ensures fault { result ≡ 16 → Rose (F.faults files.old) (F.faults files.new) }
    ensures unfinished { result ≡ 17 → Rose (F.faults files.old) (F.faults files.new) ⊎ Rose (F.denied files.old) (F.denied files.new) }
    ensures no_input { (a b : ℕ) → result ≡ 18 → Rose a b }
    ensures sink { result ≡ 19 → Rose (K.faults out.old) (K.faults out.new) }
    ensures statuses { IsOneOf (0 ∷ 1 ∷ 10 ∷ 11 ∷ 12 ∷ 13 ∷ 14 ∷ 15 ∷ 16 ∷ 17 ∷ 18 ∷ 19 ∷ 20 ∷ 21 ∷ 22 ∷ 23 ∷ 24 ∷ 25 ∷ 26 ∷ 27 ∷ 29 ∷ 30 ∷ 31 ∷ 32 ∷ 34 ∷ []) result }
    ensures same_start { F.start files.new ≡ F.start files.old }
{
    match commit_all(alloc, files, WHO, seed, count) {
        Ok(tip) => summarize(rt, alloc, files, &tip, out),
        Err(Stop::Memory { swept }) => tell_memory(swept, out),
        Err(
            Stop::Answered {
                command,
                answer,
                swept,
            },
        ) => {
            let answer = Answer {
                outcome: answer.outcome,
                swept: answer.swept & swept,
            };
            say(alloc, &Ended::Answered { command, answer }, out)
        }
    }
}

/// Makes a repository, commits so many of the changesets that the number gives, verifies all, and writes the counts, the last
/// node and how much was found. A commit that is refused ends it with that refusal. Where a commit left files over, a line more
/// says so.
pub fn run_generate<T: Threads + Sync, F: Files, K: Sink>(
    rt: &T,
    alloc: Global,
    files: &mut F,
    seed: u64,
    count: u32,
    out: &mut K,
) -> u8
    requires some { 1 ≤ count }
    requires few { count ≤ 5000 }
    requires allows { (log : List Op) → F.allows (F.start files.old) log }
    ensures generates { Generates (λ n. WereRefused n (F.faults files.old) (F.faults files.new) (F.denied files.old) (F.denied files.new)) seed count (F.log files.old) (F.log files.new) (F.start files.old) result (K.written out.old) (K.written out.new) }
    ensures fault { result ≡ 16 → Rose (F.faults files.old) (F.faults files.new) }
    ensures unfinished { result ≡ 17 → Rose (F.faults files.old) (F.faults files.new) ⊎ Rose (F.denied files.old) (F.denied files.new) }
    ensures no_input { (a b : ℕ) → result ≡ 18 → Rose a b }
    ensures sink { result ≡ 19 → Rose (K.faults out.old) (K.faults out.new) }
    ensures statuses { IsOneOf (0 ∷ 1 ∷ 10 ∷ 11 ∷ 12 ∷ 13 ∷ 14 ∷ 15 ∷ 16 ∷ 17 ∷ 18 ∷ 19 ∷ 20 ∷ 21 ∷ 22 ∷ 23 ∷ 24 ∷ 25 ∷ 26 ∷ 27 ∷ 29 ∷ 30 ∷ 31 ∷ 32 ∷ 34 ∷ []) result }
    ensures same_start { F.start files.new ≡ F.start files.old }
{
    match init(alloc, files) {
        Ended::Made => grow(rt, alloc, files, seed, count, out),
        ended => say(alloc, &ended, out),
    }
}
