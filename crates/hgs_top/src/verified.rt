//! The report of a repository, and how it is written.
ghost use Rattle.std.specs.Prelude.{◌≡◌, ◌≤◌, ◌++◌, ◌∷◌, [], IfOk, OnOk, length};
ghost use Rattle.hgs_files.specs.Reads.{Rose};
ghost use Rattle.hgs_judge.specs.Report.{finding_in, findings_in};
ghost use Rattle.hgs_top.specs.Run.{EndsLine, IsOneOf, Verifies};
ghost use Rattle.hgs_top.specs.Verified.{counts_line, finding_line, finding_lines, report_status, report_text, rev_text};

use crate::command::{OUT_OF_MEMORY, end_with, refuse};
use hgs_files::files::Files;
use hgs_files::streams::Sink;
use hgs_judge::report::Finding;
use hgs_plan::print::push_number;
use hgs_verify::progress::Progress;
use hgs_verify::report::{Report, verify};
use std::alloc::{AllocError, Global};
use std::thread::Threads;

// Adds the number of a revision or of a line, or `-` where there is none.
fn push_rev(into: &mut Vec<u8>, rev: Option<u32>) -> Result<(), AllocError>
    ensures { OnOk result (into.new.items ≡ into.old.items ++ rev_text rev) }
{
    match rev {
        Some(rev) => push_number(into, rev as u64),
        None => into.extend_from_slice(b"-"),
    }
}

// Adds the line of a finding.
fn push_finding(into: &mut Vec<u8>, finding: &Finding) -> Result<(), AllocError>
    ensures { OnOk result (into.new.items ≡ into.old.items ++ finding_line (finding_in finding.now)) }
{
    into.extend_from_slice(finding.path.bytes())?;
    into.push(b' ')?;
    push_rev(into, finding.rev)?;
    into.push(b' ')?;
    push_number(into, finding.kind as u64)?;
    into.push(b'\n')?;
    Ok(())
}

// Adds the lines of findings.
fn push_findings(into: &mut Vec<u8>, findings: &[Finding]) -> Result<(), AllocError>
    ensures { OnOk result (into.new.items ≡ into.old.items ++ finding_lines (findings_in findings.now)) }
{
    for finding in findings.iter() {
        push_finding(into, finding)?;
    }
    Ok(())
}

// Adds the last line.
fn push_counts(into: &mut Vec<u8>, report: &Report) -> Result<(), AllocError>
    ensures { OnOk result (into.new.items ≡ into.old.items ++ counts_line report.now.changesets report.now.filelogs (length report.now.findings.items)) }
{
    into.extend_from_slice(b"checked ")?;
    push_number(into, report.changesets as u64)?;
    into.extend_from_slice(b" changesets, ")?;
    push_number(into, report.filelogs as u64)?;
    into.extend_from_slice(b" filelogs, ")?;
    push_number(into, report.findings.len() as u64)?;
    into.extend_from_slice(b" findings\n")?;
    Ok(())
}

// The text of a report.
fn text_of(alloc: Global, report: &Report) -> Result<Vec<u8>, AllocError>
    ensures { IfOk result (λ text. text.items ≡ report_text (findings_in report.now.findings.items) report.now.changesets report.now.filelogs) }
{
    let mut text = Vec::new(alloc);
    push_findings(&mut text, &report.findings)?;
    push_counts(&mut text, report)?;
    Ok(text)
}

/// 29 where there is a finding.
pub(crate) fn status_of(report: &Report) -> u8
    ensures { result ≡ report_status (findings_in report.now.findings.items) }
{
    if report.findings.is_empty() { 0 } else { 29 }
}

// Writes a report, and gives the status.
fn tell<K: Sink>(alloc: Global, report: &Report, out: &mut K) -> u8
    ensures line { EndsLine (report_text (findings_in report.now.findings.items) report.now.changesets report.now.filelogs) (report_status (findings_in report.now.findings.items)) result (K.written out.old) (K.written out.new) }
    ensures sink { result ≡ 19 → Rose (K.faults out.old) (K.faults out.new) }
    ensures statuses { IsOneOf (0 ∷ 19 ∷ 29 ∷ 30 ∷ []) result }
{
    match text_of(alloc, report) {
        Ok(text) => end_with(out, &text, status_of(report)),
        Err(_) => end_with(out, OUT_OF_MEMORY, 30),
    }
}

/// Writes what is wrong with the repository, and gives the status: 0 where nothing is, 29 where something is. At most so many
/// threads judge the files, and what is written is the same for each number of them.
pub fn run_verify<T: Threads + Sync, F: Files, K: Sink, P: Progress>(
    rt: &T,
    alloc: Global,
    files: &mut F,
    jobs: u32,
    out: &mut K,
    progress: &mut P,
) -> u8
    requires some { 1 ≤ jobs }
    requires most { jobs ≤ 64 }
    ensures verifies { Verifies (Rose (F.faults files.old) (F.faults files.new)) (F.log files.old) (F.start files.old) result (K.written out.old) (K.written out.new) }
    ensures fault { result ≡ 16 → Rose (F.faults files.old) (F.faults files.new) }
    ensures sink { result ≡ 19 → Rose (K.faults out.old) (K.faults out.new) }
    ensures log { F.log files.new ≡ F.log files.old }
    ensures same_start { F.start files.new ≡ F.start files.old }
    ensures statuses { IsOneOf (0 ∷ 15 ∷ 16 ∷ 19 ∷ 20 ∷ 23 ∷ 24 ∷ 27 ∷ 29 ∷ 30 ∷ []) result }
{
    let verified = verify(rt, alloc, files, jobs, progress);
    progress.end();
    match verified {
        Ok(report) => tell(alloc, &report, out),
        Err(refusal) => refuse(alloc, &refusal, out),
    }
}
