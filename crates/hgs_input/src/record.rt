//! The record of a new changeset.
ghost use Rattle.hgs_bytes.specs.Answer.{Gives};
ghost use Rattle.std.specs.Prelude.{◌≡◌, IfOk};
ghost use Rattle.hgs_input.specs.Read.{read_record, record_from, is_memory, change_with};
ghost use Rattle.hgs_input.specs.View.{Reads, view_head};

use crate::fault::InputFault;
use crate::head::Head;
use crate::input::Input;
use crate::tree::copied;
use hgs_bytes::bytes::Bytes;
use hgs_model::command::NewChange;
use hgs_model::files::NewFiles;
use hgs_model::phase::Phase;
use std::alloc::{AllocError, Global};

// The changeset of these parts.
fn change_with(
    alloc: Global,
    head: Head<'_>,
    description: &[u8],
    files: NewFiles,
) -> Result<NewChange, AllocError>
    ensures { IfOk result (λ c. c ≡ change_with (view_head head.entry) description.now files) }
{
    Ok(NewChange {
        parents: head.parents,
        user: Bytes::from_slice(alloc, head.user)?,
        seconds: head.date.seconds,
        offset: head.date.offset,
        phase: head.phase.unwrap_or(Phase::Draft),
        bookmark: copied(alloc, head.bookmark)?,
        branch: copied(alloc, head.branch)?,
        description: Bytes::from_slice(alloc, description)?,
        files,
    })
}

impl<'a> Input<'a> {
    /// Reads a record up to its last line, whatever stands behind it.
    pub fn record(&mut self, alloc: Global) -> Result<NewChange, InputFault>
        ensures { Reads (λ c. c) result self.new (record_from self.old) }
    {
        let head = self.head(alloc)?;
        let description = self.description()?;
        let files = self.files(alloc)?;
        self.word(b"end")?;
        Ok(change_with(alloc, head, description, files)?)
    }
}

/// The changeset of a record, or the first fault of the input.
///
/// The record has, each with an LF: `commit`; up to two lines `parent NAME`; `user TEXT`; `date SECONDS OFFSET`; where it
/// says them `phase PHASE`, `bookmark NAME` and `branch NAME`; `desc LEN`, and so many bytes of text; for each file of the
/// tree, where it is a copy `copyfrom PATH`, then `file FLAG LEN PATH`, and so many bytes; `end`, with nothing behind it.
///
/// Of an input that is longer than the limit, 268,435,456 bytes, the first byte past it is the last that is looked at: what
/// breaks the form before it is told, else the limit.
///
/// The time grows with the length of the input, and for each file with the logarithm of their number.
pub fn read_commit(alloc: Global, bytes: &[u8]) -> Result<NewChange, InputFault>
    ensures { Gives is_memory (λ c. c) result (read_record bytes.now) }
{
    let mut input = Input::new(bytes);
    let change = input.record(alloc)?;
    input.nothing_behind()?;
    Ok(change)
}
