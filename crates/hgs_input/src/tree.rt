// The description and the files of a record: texts that a line counts.
ghost use Rattle.std.specs.Prelude.{◌≡◌, [], IfOk, length};
ghost use Rattle.std.specs.Result.{result_map_both};
ghost use Rattle.std.specs.Option.{option_map};
ghost use Rattle.hgs_input.specs.Read.{required, optional, length_of, description_from, copyfrom_of, file_line_from, allowed, next_file, files_from};
ghost use Rattle.hgs_input.specs.View.{Reads, view_line, IsTree};

use crate::apart::fits_behind;
use crate::fault::InputFault;
use crate::input::{Input, bad_at, fault_at};
use crate::line::{FileLine, MOST_FILE, file_from, length_from, source_from};
use hgs_bytes::bytes::Bytes;
use hgs_changelog::date::is_text;
use hgs_index::kinds::Which;
use hgs_model::files::{NewFile, NewFiles};
use std::alloc::{AllocError, Global};

const MOST_FILES: usize = 20_000;

// The line of a file behind these files, or why it may not stand there.
fn allowed<'a>(
    place: usize,
    files: &[NewFile],
    line: FileLine<'a>,
) -> Result<FileLine<'a>, InputFault>
    requires { IsTree files.now }
    ensures { result_map_both view_line (λ e. e) result ≡ allowed place files.now (view_line line.entry) }
{
    if !fits_behind(files, line.path) {
        return Err(bad_at(place));
    }
    if line.size > MOST_FILE {
        return Err(fault_at(place, InputFault::Limit(Which::FileText)));
    }
    if files.len() >= MOST_FILES {
        return Err(fault_at(place, InputFault::Limit(Which::Tree)));
    }
    Ok(line)
}

/// A copy of a text, where there is one.
pub(crate) fn copied(alloc: Global, text: Option<&[u8]>) -> Result<Option<Bytes>, AllocError>
    ensures { IfOk result (λ b. b ≡ option_map (λ x. x.now) text.entry) }
{
    match text {
        Some(text) => Ok(Some(Bytes::from_slice(alloc, text)?)),
        None => Ok(None),
    }
}

impl<'a> Input<'a> {
    fn length(&mut self) -> Result<u64, InputFault>
        ensures { Reads (λ n. n) result self.new (required length_of self.old) }
    {
        let (line, rest) = self.line()?;
        let Some(length) = length_from(line) else {
            return Err(bad_at(self.place()));
        };
        *self = rest;
        Ok(length)
    }

    pub(crate) fn description(&mut self) -> Result<&'a [u8], InputFault>
        ensures { Reads (λ t. t.now) result self.new (description_from self.old) }
    {
        let length = self.length()?;
        let place = self.place();
        let text = self.counted(length as usize)?;
        if is_text(text) {
            Ok(text)
        } else {
            Err(bad_at(place))
        }
    }

    // The path of the file that the next one is a copy of.
    fn source(&mut self) -> Result<Option<&'a [u8]>, InputFault>
        ensures { Reads (option_map (λ x. x.now)) result self.new (optional copyfrom_of self.old) }
    {
        let (line, rest) = self.line()?;
        let Some(path) = source_from(line) else {
            return Ok(None);
        };
        *self = rest;
        Ok(Some(path))
    }

    fn file_line(&mut self, wanted: bool) -> Result<Option<FileLine<'a>>, InputFault>
        ensures { Reads (option_map view_line) result self.new (file_line_from wanted self.old) }
    {
        let (line, rest) = self.line()?;
        let Some(said) = file_from(line) else {
            if wanted {
                return Err(bad_at(self.place()));
            }
            return Ok(None);
        };
        *self = rest;
        Ok(Some(said))
    }

    // The next file behind these, where there is one more.
    fn file(&mut self, alloc: Global, files: &[NewFile]) -> Result<Option<NewFile>, InputFault>
        requires { IsTree files.now }
        ensures { Reads (λ f. f) result self.new (next_file files.now self.old) }
    {
        let source = self.source()?;
        let place = self.place();
        let Some(line) = self.file_line(source.is_some())? else {
            return Ok(None);
        };
        let line = allowed(place, files, line)?;
        let body = self.counted(line.size as usize)?;
        Ok(Some(NewFile {
            path: Bytes::from_slice(alloc, line.path)?,
            flag: line.flag,
            from: copied(alloc, source)?,
            body: Bytes::from_slice(alloc, body)?,
        }))
    }

    pub(crate) fn files(&mut self, alloc: Global) -> Result<NewFiles, InputFault>
        ensures { Reads (λ f. f) result self.new (files_from (length self.old.bytes) [] self.old) }
    {
        let mut files = NewFiles::new(alloc);
        while let Some(file) = self.file(alloc, files.as_slice())? {
            files.push(file)?;
        }
        Ok(files)
    }
}
