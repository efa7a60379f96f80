// Printing a journal and a list of backups.
ghost use Rattle.std.specs.Prelude.{◌≡◌, ◌++◌, OnOk, OnErr, codes};
ghost use Rattle.hgs_bytes.specs.Bytes.{IsPrefixOf};
ghost use Rattle.hgs_journal.specs.Texts.{backup_line, backups_text, journal_line, journal_text};

use crate::backups::{BackupLine, Backups};
use crate::journal::{Journal, JournalLine};
use crate::offset::print_number;
use std::alloc::AllocError;

/// Adds a line of a journal; where there is no memory, a part of it.
fn print_line(line: &JournalLine, into: &mut Vec<u8>) -> Result<(), AllocError>
    ensures ok { OnOk result (into.new.items ≡ into.old.items ++ journal_line line.now) }
    ensures front { IsPrefixOf into.old.items into.new.items }
{
    into.extend_from_slice(line.name.as_slice())?;
    into.push(0)?;
    print_number(line.offset, into)?;
    into.push(b'\n')?;
    Ok(())
}

/// Adds the lines of a journal; where there is no memory, a part of them.
fn print_lines(lines: &[JournalLine], into: &mut Vec<u8>) -> Result<(), AllocError>
    ensures ok { OnOk result (into.new.items ≡ into.old.items ++ journal_text lines.now) }
    ensures front { IsPrefixOf into.old.items into.new.items }
{
    for line in lines {
        print_line(line, into)?;
    }
    Ok(())
}

/// Adds a line of a list of backups; where there is no memory, a part of it.
fn print_backup(line: &BackupLine, into: &mut Vec<u8>) -> Result<(), AllocError>
    ensures ok { OnOk result (into.new.items ≡ into.old.items ++ backup_line line.now (codes "0")) }
    ensures front { IsPrefixOf into.old.items into.new.items }
{
    if line.plain {
        into.extend_from_slice(b"plain")?;
    }
    into.push(0)?;
    into.extend_from_slice(line.file.as_slice())?;
    into.push(0)?;
    into.extend_from_slice(line.backup.as_slice())?;
    into.extend_from_slice(b"\x000\n")?;
    Ok(())
}

/// Adds the lines of a list of backups; where there is no memory, a part of them.
fn print_backups(lines: &[BackupLine], into: &mut Vec<u8>) -> Result<(), AllocError>
    ensures ok { OnOk result (into.new.items ≡ into.old.items ++ backups_text lines.now) }
    ensures front { IsPrefixOf into.old.items into.new.items }
{
    into.extend_from_slice(b"2\n")?;
    for line in lines {
        print_backup(line, into)?;
    }
    Ok(())
}

impl Journal {
    /// Adds the text of the journal, or changes nothing where there is no memory.
    pub fn print(&self, into: &mut Vec<u8>) -> Result<(), AllocError>
        ensures ok { OnOk result (into.new.items ≡ into.old.items ++ journal_text self.now.lines) }
        ensures err { OnErr result (into.new.items ≡ into.old.items) }
    {
        let before = into.len();
        match print_lines(self.lines.as_slice(), into) {
            Ok(()) => Ok(()),
            Err(_) => {
                into.truncate(before);
                Err(AllocError)
            }
        }
    }
}

impl Backups {
    /// Adds the text of the list, or changes nothing where there is no memory.
    pub fn print(&self, into: &mut Vec<u8>) -> Result<(), AllocError>
        ensures ok { OnOk result (into.new.items ≡ into.old.items ++ backups_text self.now.lines) }
        ensures err { OnErr result (into.new.items ≡ into.old.items) }
    {
        let before = into.len();
        match print_backups(self.lines.as_slice(), into) {
            Ok(()) => Ok(()),
            Err(_) => {
                into.truncate(before);
                Err(AllocError)
            }
        }
    }
}
