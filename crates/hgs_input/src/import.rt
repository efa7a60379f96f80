//! The records of an import.
ghost use Rattle.std.specs.Prelude.{[], length};
ghost use Rattle.hgs_bytes.specs.Answer.{Gives};
ghost use Rattle.hgs_input.specs.Import.{import_from, next_record, read_import};
ghost use Rattle.hgs_input.specs.Read.{is_memory};
ghost use Rattle.hgs_input.specs.View.{Reads};

use crate::fault::InputFault;
use crate::input::{Input, bad_at};
use hgs_bytes::parts::equal;
use hgs_model::changes::NewChanges;
use hgs_model::command::NewChange;
use std::alloc::Global;

const MOST_RECORDS: usize = 10_000;

impl<'a> Input<'a> {
    // The next changeset behind so many, or none at the last line.
    fn next_record(&mut self, alloc: Global, count: usize) -> Result<Option<NewChange>, InputFault>
        ensures { Reads (λ c. c) result self.new (next_record count self.old) }
    {
        let (line, rest) = self.line()?;
        if equal(line, b"end import") && count != 0 {
            *self = rest;
            return Ok(None);
        }
        if count >= MOST_RECORDS {
            return Err(bad_at(self.place()));
        }
        let change = self.record(alloc)?;
        Ok(Some(change))
    }

    /// Reads the records up to the line behind them, whatever stands behind that.
    pub fn import(&mut self, alloc: Global) -> Result<NewChanges, InputFault>
        ensures { Reads (λ c. c) result self.new (import_from self.old) }
    {
        let mut changes = NewChanges::new(alloc);
        while let Some(change) = self.next_record(alloc, changes.len())? {
            changes.push(change)?;
        }
        Ok(changes)
    }
}

/// The changesets of an import, or the first fault of the input.
///
/// It has 1 to 10,000 records of commits, one after another, and then the line `end import` with an LF, with nothing behind it.
///
/// An input that is too long is decided as that of one record is. The time grows with the length of the input, and for each file
/// with the logarithm of their number in its record.
pub fn read_import(alloc: Global, bytes: &[u8]) -> Result<NewChanges, InputFault>
    ensures { Gives is_memory (λ c. c) result (read_import bytes.now) }
{
    let mut input = Input::new(bytes);
    let changes = input.import(alloc)?;
    input.nothing_behind()?;
    Ok(changes)
}
