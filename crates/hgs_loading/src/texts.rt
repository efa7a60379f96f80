//! The chunks and the texts of a revlog that is loaded.
ghost use Rattle.std.specs.Prelude.{◌≡◌, ◌<◌, ◌≤◌, true, length, slice_get, Ok, IfOk, IfSome};
ghost use Rattle.hgs_bytes.specs.Answer.{Gives};
ghost use Rattle.hgs_files.specs.Reads.{Grows};
ghost use Rattle.hgs_revlog.specs.Load.{most_text};
ghost use Rattle.hgs_revlog.specs.Loaded.{HaveSmallTexts};
ghost use Rattle.hgs_revlog.specs.Text.{text_of};
ghost use Rattle.hgs_load.specs.Answer.{is_of_outside, HasFaultCause, NeverFaults};
ghost use Rattle.hgs_reader.specs.Find.{text_answer};
ghost use Rattle.hgs_loading.specs.Found.{Finds};
ghost use Rattle.hgs_loading.specs.Logs.{chunk_file, chunk_in_form};

use hgs_bytes::bytes::Bytes;
use hgs_files::files::Reads;
use hgs_files::path::StorePath;
use hgs_load::answer::ReadAnswer;
use hgs_load::ask::read_part;
use hgs_load::refusal::of_revlog;
use hgs_reader::find::RevlogPaths;
use hgs_revlog::revlog::Revlog;
use std::alloc::Global;

// The file that the chunks of a revlog in this form stand in.
fn chunk_file(paths: &RevlogPaths, inline: bool) -> &StorePath
    ensures { result.now ≡ chunk_file inline paths.now.index paths.now.chunks }
{
    if inline { &paths.index } else { &paths.chunks }
}

/// Reads the chunk of a revision of a revlog in either form: as many of its bytes as stand where the form has it.
pub fn read_chunk<R: Reads>(
    alloc: Global,
    files: &mut R,
    paths: &RevlogPaths,
    log: &Revlog,
    rev: u32,
) -> Result<Bytes, ReadAnswer>
    requires { rev < length log.now.entries }
    ensures found { Finds (λ chunk. chunk) R.alone (R.seen files.new) (R.start files.new) (λ t. Ok (chunk_in_form paths.now.index paths.now.chunks log.now rev t)) result }
    ensures within { IfOk result (λ chunk. IfSome (slice_get log.now.entries rev) (λ e. length chunk ≤ e.stored)) }
    ensures seen { Grows (R.seen files.old) (R.seen files.new) }
    ensures same_start { R.start files.new ≡ R.start files.old }
    ensures still { R.alone ≡ true → R.seen files.new ≡ R.seen files.old }
    ensures cause { HasFaultCause (R.faults files.old) (R.faults files.new) (R.denied files.old) (R.denied files.new) result }
{
    let span = log.span_in_file(rev);
    let file = chunk_file(paths, log.is_inline());
    let part = read_part(alloc, files, file, span.from, span.len)?;
    Ok(part.unwrap_or(Bytes::new(alloc)))
}

/// The text of a revision, in its chunk.
pub fn text_in_chunk<'a>(
    alloc: Global,
    index: &StorePath,
    log: &Revlog,
    rev: u32,
    chunk: &'a [u8],
) -> Result<&'a [u8], ReadAnswer>
    requires stands { rev < length log.now.entries }
    requires within { IfSome (slice_get log.now.entries rev) (λ e. length chunk.now ≤ e.stored) }
    ensures text { Gives is_of_outside (λ text. text.now) result (text_answer index.now (text_of log.now.entries rev chunk.now)) }
    ensures small { HaveSmallTexts log.now.entries → IfOk result (λ text. length text.now ≤ most_text) }
    ensures inner { NeverFaults result }
{
    match log.text(rev, chunk) {
        Ok(text) => Ok(text),
        Err(fault) => Err(of_revlog(alloc, index, fault)),
    }
}
