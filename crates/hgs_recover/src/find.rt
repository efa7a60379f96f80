//! What recovering finds: the journal, the list of backups, each backup and the length of each file, in this order.
ghost use Rattle.std.specs.Prelude.{◌≡◌, true, false, length, Ok, IfOk, IfSome};
ghost use Rattle.std.specs.Option.{option_map};
ghost use Rattle.std.specs.List.{All};
ghost use Rattle.hgs_bytes.specs.Answer.{Gives};
ghost use Rattle.hgs_journal.specs.Names.{backups_path, journal_path};
ghost use Rattle.hgs_journal.specs.Texts.{HasPath, IsBackupLine};
ghost use Rattle.hgs_loading.specs.Found.{Finds};
ghost use Rattle.hgs_load.specs.Answer.{HasFaultCause, IsRefusal, NeverFaults, is_fault, is_of_outside};
ghost use Rattle.hgs_recover.specs.Found.{all_kept_in, backups_in, backups_said, found_in, journal_said, kept_in, length_in, lengths_in, standing_in, text_refusal, undo_in};
ghost use Rattle.hgs_recover.specs.Undoing.{IsUndoList};

use hgs_bytes::bytes::Bytes;
use hgs_files::files::Reads;
use hgs_files::op::Op;
use hgs_files::path::StorePath;
use hgs_journal::backups::{BackupLine, Backups};
use hgs_journal::fault::JournalFault;
use hgs_journal::journal::{Journal, JournalLine};
use hgs_journal::names::path_of;
use hgs_journal::undo::undo_plan;
use hgs_load::answer::ReadAnswer;
use hgs_load::ask::{bytes_of, read_part};
use hgs_load::refusal::damage;
use hgs_loading::whole::size_of;
use hgs_plan::damage::Part;
use std::alloc::Global;

// What a fault of the text of the file with this path is.
fn of_text(alloc: Global, path: &StorePath, fault: JournalFault) -> ReadAnswer
    ensures refusal { IsRefusal result (text_refusal path.now fault) }
    ensures inner { is_fault result ≡ false }
{
    match fault {
        JournalFault::Line(line) => damage(alloc, path, Part::Journal, 1, line),
        JournalFault::Version => damage(alloc, path, Part::Journal, 2, 0),
        JournalFault::Memory => ReadAnswer::Memory,
    }
}

// The journal of a text.
fn journal_of(alloc: Global, path: &StorePath, text: &[u8]) -> Result<Journal, ReadAnswer>
    requires { path.now ≡ journal_path }
    ensures said { Gives is_of_outside (λ j. j.lines) result (journal_said text.now) }
    ensures paths { IfOk result (λ j. All HasPath j.lines) }
    ensures inner { NeverFaults result }
{
    match Journal::read(alloc, text) {
        Ok(journal) => Ok(journal),
        Err(fault) => Err(of_text(alloc, path, fault)),
    }
}

// The list of backups of a text.
fn backups_of(alloc: Global, path: &StorePath, text: &[u8]) -> Result<Backups, ReadAnswer>
    requires { path.now ≡ backups_path }
    ensures said { Gives is_of_outside (λ b. b.lines) result (backups_said text.now) }
    ensures lines { IfOk result (λ b. All IsBackupLine b.lines) }
    ensures inner { NeverFaults result }
{
    match Backups::read(alloc, text) {
        Ok(backups) => Ok(backups),
        Err(fault) => Err(of_text(alloc, path, fault)),
    }
}

// The bytes of a file, however many, and none where it isn't there.
fn read_file<R: Reads>(
    alloc: Global,
    files: &mut R,
    path: &StorePath,
) -> Result<Option<Bytes>, ReadAnswer>
    ensures found { Finds (λ bytes. bytes) R.alone (R.seen files.new) (R.start files.new) (λ t. Ok (t path.now)) result }
    ensures same_start { R.start files.new ≡ R.start files.old }
    ensures still { R.alone ≡ true → R.seen files.new ≡ R.seen files.old }
    ensures cause { HasFaultCause (R.faults files.old) (R.faults files.new) (R.denied files.old) (R.denied files.new) result }
{
    let part = read_part(alloc, files, path, 0, u64::MAX)?;
    prove!(bytes_of(&part).len() < usize::MAX);
    Ok(part)
}

// The bytes of a file that is to be there.
fn read_standing<R: Reads>(
    alloc: Global,
    files: &mut R,
    path: &StorePath,
) -> Result<Bytes, ReadAnswer>
    ensures found { Finds (λ bytes. bytes) R.alone (R.seen files.new) (R.start files.new) (standing_in path.now) result }
    ensures same_start { R.start files.new ≡ R.start files.old }
    ensures still { R.alone ≡ true → R.seen files.new ≡ R.seen files.old }
    ensures cause { HasFaultCause (R.faults files.old) (R.faults files.new) (R.denied files.old) (R.denied files.new) result }
{
    match read_file(alloc, files, path)? {
        Some(bytes) => Ok(bytes),
        None => Err(damage(alloc, path, Part::Journal, 5, 0)),
    }
}

fn read_backups<R: Reads>(alloc: Global, files: &mut R) -> Result<Backups, ReadAnswer>
    ensures found { Finds (λ b. b.lines) R.alone (R.seen files.new) (R.start files.new) backups_in result }
    ensures lines { IfOk result (λ b. All IsBackupLine b.lines) }
    ensures same_start { R.start files.new ≡ R.start files.old }
    ensures still { R.alone ≡ true → R.seen files.new ≡ R.seen files.old }
    ensures cause { HasFaultCause (R.faults files.old) (R.faults files.new) (R.denied files.old) (R.denied files.new) result }
{
    let path = path_of(alloc, false, b"journal.backupfiles")?;
    let bytes = read_standing(alloc, files, &path)?;
    match backups_of(alloc, &path, bytes.as_slice()) {
        Ok(backups) => Ok(backups),
        Err(refusal) => Err(refusal),
    }
}

// The bytes of the backup of a line, none where it names none.
fn read_kept<R: Reads>(alloc: Global, files: &mut R, line: &BackupLine) -> Result<Bytes, ReadAnswer>
    requires { IsBackupLine line.now }
    ensures found { Finds (λ bytes. bytes) R.alone (R.seen files.new) (R.start files.new) (kept_in line.now) result }
    ensures same_start { R.start files.new ≡ R.start files.old }
    ensures still { R.alone ≡ true → R.seen files.new ≡ R.seen files.old }
    ensures cause { HasFaultCause (R.faults files.old) (R.faults files.new) (R.denied files.old) (R.denied files.new) result }
{
    if line.backup.is_empty() {
        return Ok(Bytes::new(alloc));
    }
    let path = path_of(alloc, line.plain, line.backup.as_slice())?;
    read_standing(alloc, files, &path)
}

// The bytes of the backups of lines.
fn read_all_kept<R: Reads>(
    alloc: Global,
    files: &mut R,
    lines: &[BackupLine],
) -> Result<Vec<Bytes>, ReadAnswer>
    requires { All IsBackupLine lines.now }
    ensures found { Finds (λ kept. kept.items) R.alone (R.seen files.new) (R.start files.new) (all_kept_in lines.now) result }
    ensures same_start { R.start files.new ≡ R.start files.old }
    ensures still { R.alone ≡ true → R.seen files.new ≡ R.seen files.old }
    ensures cause { HasFaultCause (R.faults files.old) (R.faults files.new) (R.denied files.old) (R.denied files.new) result }
    ensures count { IfOk result (λ kept. length kept.items ≡ length lines.now) }
{
    let mut kept = Vec::new(alloc);
    for line in lines.iter() {
        let bytes = read_kept(alloc, files, line)?;
        kept.push(bytes)?;
    }
    Ok(kept)
}

// Tests that the file of a line is no shorter than that says.
fn test_length<R: Reads>(alloc: Global, files: &mut R, line: &JournalLine) -> Result<(), ReadAnswer>
    requires { HasPath line.now }
    ensures found { Finds (λ x. x) R.alone (R.seen files.new) (R.start files.new) (length_in line.now) result }
    ensures same_start { R.start files.new ≡ R.start files.old }
    ensures still { R.alone ≡ true → R.seen files.new ≡ R.seen files.old }
    ensures cause { HasFaultCause (R.faults files.old) (R.faults files.new) (R.denied files.old) (R.denied files.new) result }
{
    let path = path_of(alloc, false, line.name.as_slice())?;
    let size = size_of(files, &path)?;
    if size.unwrap_or(0) < line.offset {
        return Err(damage(alloc, &path, Part::Journal, 4, line.offset));
    }
    Ok(())
}

// Tests the files of lines.
fn test_lengths<R: Reads>(
    alloc: Global,
    files: &mut R,
    lines: &[JournalLine],
) -> Result<(), ReadAnswer>
    requires { All HasPath lines.now }
    ensures found { Finds (λ x. x) R.alone (R.seen files.new) (R.start files.new) (lengths_in lines.now) result }
    ensures same_start { R.start files.new ≡ R.start files.old }
    ensures still { R.alone ≡ true → R.seen files.new ≡ R.seen files.old }
    ensures cause { HasFaultCause (R.faults files.old) (R.faults files.new) (R.denied files.old) (R.denied files.new) result }
{
    for line in lines.iter() {
        test_length(alloc, files, line)?;
    }
    Ok(())
}

// The operations that undo the transaction of a journal with this text.
fn undo_of<R: Reads>(
    alloc: Global,
    files: &mut R,
    path: &StorePath,
    text: &[u8],
) -> Result<Vec<Op>, ReadAnswer>
    requires { path.now ≡ journal_path }
    ensures found { Finds (λ ops. ops.items) R.alone (R.seen files.new) (R.start files.new) (undo_in text.now) result }
    ensures undo { IfOk result (λ ops. IsUndoList ops.items) }
    ensures same_start { R.start files.new ≡ R.start files.old }
    ensures still { R.alone ≡ true → R.seen files.new ≡ R.seen files.old }
    ensures cause { HasFaultCause (R.faults files.old) (R.faults files.new) (R.denied files.old) (R.denied files.new) result }
{
    let journal = journal_of(alloc, path, text)?;
    let backups = read_backups(alloc, files)?;
    let kept = read_all_kept(alloc, files, backups.lines.as_slice())?;
    test_lengths(alloc, files, journal.lines.as_slice())?;
    let ops = undo_plan(alloc, &journal, &backups, &kept)?;
    Ok(ops)
}

/// The operations that undo the open transaction, none where no journal stands. All that they need is read before.
pub fn find<R: Reads>(alloc: Global, files: &mut R) -> Result<Option<Vec<Op>>, ReadAnswer>
    ensures found { Finds (option_map (λ ops. ops.items)) R.alone (R.seen files.new) (R.start files.new) found_in result }
    ensures undo { IfOk result (λ found. IfSome found (λ ops. IsUndoList ops.items)) }
    ensures same_start { R.start files.new ≡ R.start files.old }
    ensures still { R.alone ≡ true → R.seen files.new ≡ R.seen files.old }
    ensures cause { HasFaultCause (R.faults files.old) (R.faults files.new) (R.denied files.old) (R.denied files.new) result }
{
    let path = path_of(alloc, false, b"journal")?;
    match read_file(alloc, files, &path)? {
        Some(text) => match undo_of(alloc, files, &path, text.as_slice()) {
            Ok(ops) => Ok(Some(ops)),
            Err(refusal) => Err(refusal),
        },
        None => Ok(None),
    }
}
