//! The journal of an open transaction: which files it appends to, and how long they were before (the file `store/journal`).
ghost use Rattle.std.specs.Prelude.{◌≡◌, IfOk};
ghost use Rattle.std.specs.List.{All};
ghost use Rattle.hgs_bytes.specs.Answer.{Gives};
ghost use Rattle.hgs_journal.specs.Read.{is_memory, journal_line_of, read_journal};
ghost use Rattle.hgs_journal.specs.Texts.{HasPath};

use crate::fault::JournalFault;
use crate::names::has_path;
use crate::offset::offset_from;
use hgs_bytes::bytes::Bytes;
use hgs_bytes::parts::split_at_byte;
use std::alloc::{AllocError, Global};
use std::marker::Model;

/// A file that a transaction appends to.
#[derive(Debug, Drop)]
pub struct JournalLine {
    /// The file's name in the store.
    pub name: Bytes,
    /// Its length before the transaction, 0 where it was absent.
    pub offset: u64,
}

/// Lines of a journal, in their order.
#[derive(Debug, Drop)]
pub struct JournalLines {
    items: Vec<JournalLine>,
}

impl Model for JournalLines {
    ghost use Rattle.std.specs.Prelude.{List};
    ghost use Rattle.hgs_journal.specs.declared.journal.JournalLine.{JournalLine};

    ghost Value = { List JournalLine };

    ghost view = { λ l. l.items.items };
}

impl JournalLines {
    /// The lines of a vector, which it takes over without memory.
    pub fn from_vec(items: Vec<JournalLine>) -> Self
        ensures { result ≡ items.items }
    {
        JournalLines { items }
    }

    /// The vector of the lines, handed back without memory.
    pub fn into_vec(self) -> Vec<JournalLine>
        ensures { result.items ≡ self }
    {
        self.items
    }

    pub fn as_slice(&self) -> &[JournalLine]
        ensures { result.now ≡ self.now }
    {
        self.items.as_slice()
    }
}

/// The journal of a transaction.
#[derive(Debug, Drop)]
pub struct Journal {
    pub lines: JournalLines,
}

/// The line of a text without its LF, if it has the form.
fn line_from(alloc: Global, text: &[u8]) -> Result<Option<JournalLine>, AllocError>
    ensures { IfOk result (λ line. line ≡ journal_line_of text.now) }
{
    let Some((name, digits)) = split_at_byte(text, 0) else {
        return Ok(None);
    };
    let Some(offset) = offset_from(digits) else {
        return Ok(None);
    };
    if !has_path(alloc, false, name)? {
        return Ok(None);
    }
    let name = Bytes::from_slice(alloc, name)?;
    Ok(Some(JournalLine { name, offset }))
}

impl Journal {
    /// The journal of a text, or its first line out of form. A last line without its LF was cut by a stop and is passed over.
    pub fn read(alloc: Global, text: &[u8]) -> Result<Journal, JournalFault>
        ensures read { Gives is_memory (λ j. j.lines) result (read_journal text.now) }
        ensures paths { IfOk result (λ j. All HasPath j.lines) }
    {
        let mut lines = Vec::new(alloc);
        let mut rest = text;
        let mut number = 0;
        while let Some((line, behind)) = split_at_byte(rest, b'\n') {
            number += 1;
            let Some(line) = line_from(alloc, line)? else {
                return Err(JournalFault::Line(number));
            };
            lines.push(line)?;
            rest = behind;
        }
        let lines = JournalLines::from_vec(lines);
        Ok(Journal { lines })
    }
}
