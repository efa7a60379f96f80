//! The backups of an open transaction: which files it replaces, and where their bytes before are kept (the file
//! `store/journal.backupfiles`).
ghost use Rattle.std.specs.Prelude.{◌≡◌, IfOk, option_map};
ghost use Rattle.std.specs.List.{All};
ghost use Rattle.hgs_bytes.specs.Answer.{Gives};
ghost use Rattle.hgs_journal.specs.Read.{backup_line_of, fields, is_backup_line, is_memory, plain_of, read_backups, three_of_four, whole_line};
ghost use Rattle.hgs_journal.specs.Texts.{IsBackupLine, is_backup};

use crate::fault::JournalFault;
use crate::names::{has_path, new_name};
use hgs_bytes::bytes::Bytes;
use hgs_bytes::parts::{equal, next_line, past, split_at_byte, starts};
use std::alloc::{AllocError, Global};
use std::marker::Model;

/// A file that a transaction replaces.
#[derive(Debug, Drop)]
pub struct BackupLine {
    /// Whether the file's name is plain, and not in the store.
    pub plain: bool,
    pub file: Bytes,
    /// The name of its backup, beside it; empty where the file was absent.
    pub backup: Bytes,
}

/// Lines of a list of backups, in their order.
#[derive(Debug, Drop)]
pub struct BackupLines {
    items: Vec<BackupLine>,
}

impl Model for BackupLines {
    ghost use Rattle.std.specs.Prelude.{List};
    ghost use Rattle.hgs_journal.specs.declared.backups.BackupLine.{BackupLine};

    ghost Value = { List BackupLine };

    ghost view = { λ l. l.items.items };
}

impl BackupLines {
    /// The lines of a vector, which it takes over without memory.
    pub fn from_vec(items: Vec<BackupLine>) -> Self
        ensures { result ≡ items.items }
    {
        BackupLines { items }
    }

    /// The vector of the lines, handed back without memory.
    pub fn into_vec(self) -> Vec<BackupLine>
        ensures { result.items ≡ self }
    {
        self.items
    }

    pub fn as_slice(&self) -> &[BackupLine]
        ensures { result.now ≡ self.now }
    {
        self.items.as_slice()
    }
}

/// The list of a transaction's backups.
#[derive(Debug, Drop)]
pub struct Backups {
    pub lines: BackupLines,
}

/// Where a file is, by its location: `plain`, or nothing for the store.
fn plain_from(location: &[u8]) -> Option<bool>
    ensures { result ≡ plain_of location.now }
{
    if equal(location, b"") {
        Some(false)
    } else if equal(location, b"plain") {
        Some(true)
    } else {
        None
    }
}

/// The location, the file and the backup of a line that has just four fields.
fn fields_of(line: &[u8]) -> Option<(&[u8], &[u8], &[u8])>
    ensures { option_map (λ f. (f.0.now, f.1.now, f.2.now)) result ≡ three_of_four (fields line.now) }
{
    let (location, rest) = split_at_byte(line, 0)?;
    let (file, rest) = split_at_byte(rest, 0)?;
    let (backup, cache) = split_at_byte(rest, 0)?;
    match split_at_byte(cache, 0) {
        Some(_) => None,
        None => Some((location, file, backup)),
    }
}

/// Whether a backup is a path where its file is, or there is none.
fn is_backup(alloc: Global, plain: bool, backup: &[u8]) -> Result<bool, AllocError>
    ensures { IfOk result (λ fits. fits ≡ is_backup plain backup.now) }
{
    if backup.len() == 0 {
        return Ok(true);
    }
    has_path(alloc, plain, backup)
}

/// Whether a file, its new name and its backup are paths.
fn is_backup_line(
    alloc: Global,
    plain: bool,
    file: &[u8],
    backup: &[u8],
) -> Result<bool, AllocError>
    ensures { IfOk result (λ fits. fits ≡ is_backup_line plain file.now backup.now) }
{
    if !has_path(alloc, plain, file)? {
        return Ok(false);
    }
    let new = new_name(alloc, file)?;
    if !has_path(alloc, plain, &new)? {
        return Ok(false);
    }
    is_backup(alloc, plain, backup)
}

/// The line of a text without its LF, if it has the form.
fn line_from(alloc: Global, text: &[u8]) -> Result<Option<BackupLine>, AllocError>
    ensures { IfOk result (λ line. line ≡ backup_line_of text.now) }
{
    let Some((location, file, backup)) = fields_of(text) else {
        return Ok(None);
    };
    let Some(plain) = plain_from(location) else {
        return Ok(None);
    };
    if !is_backup_line(alloc, plain, file, backup)? {
        return Ok(None);
    }
    let file = Bytes::from_slice(alloc, file)?;
    let backup = Bytes::from_slice(alloc, backup)?;
    Ok(Some(BackupLine {
        plain,
        file,
        backup,
    }))
}

/// The line of a text, if it has its LF and the form.
fn whole_line(alloc: Global, text: &[u8], is_whole: bool) -> Result<Option<BackupLine>, AllocError>
    ensures { IfOk result (λ line. line ≡ whole_line (text.now, is_whole)) }
{
    if !is_whole {
        return Ok(None);
    }
    line_from(alloc, text)
}

impl Backups {
    /// The list of a text, or its first fault: `Version`, or the first line out of form. The line of the version is line 1.
    pub fn read(alloc: Global, text: &[u8]) -> Result<Backups, JournalFault>
        ensures read { Gives is_memory (λ b. b.lines) result (read_backups text.now) }
        ensures paths { IfOk result (λ b. All IsBackupLine b.lines) }
    {
        if !starts(text, b"2\n") {
            return Err(JournalFault::Version);
        }
        let mut lines = Vec::new(alloc);
        let mut rest = past(text, 2);
        let mut number = 1;
        while rest.len() > 0 {
            let (line, is_whole, behind) = next_line(rest);
            number += 1;
            let Some(line) = whole_line(alloc, line, is_whole)? else {
                return Err(JournalFault::Line(number));
            };
            lines.push(line)?;
            rest = behind;
        }
        let lines = BackupLines::from_vec(lines);
        Ok(Backups { lines })
    }
}
