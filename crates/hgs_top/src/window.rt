//! The windows in which `log` reads the chunks of changesets.
ghost use Rattle.std.specs.Prelude.{◌≡◌, ◌<◌, ◌≤◌, true, length};
ghost use Rattle.hgs_files.specs.Reads.{Grows};
ghost use Rattle.hgs_load.specs.Answer.{HasFaultCause, NeverFaults};
ghost use Rattle.hgs_load.specs.Asks.{AddsGiven, Answers};
ghost use Rattle.hgs_load.specs.Given.{Takes};
ghost use Rattle.hgs_reader.specs.Line.{line_at};
ghost use Rattle.hgs_top.specs.Windows.{chunk_in, chunk_span, held_asks, no_window, stands_in, window_of};

use hgs_bytes::bytes::Bytes;
use hgs_files::files::Reads;
use hgs_index::kinds::Span;
use hgs_load::answer::ReadAnswer;
use hgs_load::ask::{bytes_of, read_part};
use hgs_reader::session::Session;
use hgs_revlog::revlog::Revlog;
use std::alloc::Global;

/// The most bytes of a window with more than one chunk.
const MOST_WINDOW: u64 = 262_144;

/// What one read gave of the file in which the chunks stand, none where the file isn't there. The file may end before the span does.
#[derive(Drop)]
pub(crate) struct Window {
    span: Span,
    part: Option<Bytes>,
}

// Whether the chunk stands in the window.
fn has_chunk(window: &Span, chunk: &Span) -> bool
    ensures { result ≡ stands_in window.now chunk.now }
{
    if chunk.from < window.from {
        return false;
    }
    let before = chunk.from - window.from;
    before <= window.len && chunk.len <= window.len - before
}

// The window that ends with the chunk of this changeset, and goes back over whole chunks.
fn window_before(log: &Revlog, rev: u32) -> Span
    requires { rev < length log.now.entries }
    ensures { result ≡ window_of log.now rev }
{
    let mut window = log.span_in_file(rev);
    let mut first = rev;
    while first > 0 && window.len <= MOST_WINDOW {
        let from = log.span_in_file(first - 1).from;
        if from > window.from || window.from - from > MOST_WINDOW - window.len {
            return window;
        }
        window = Span {
            from,
            len: window.len + (window.from - from),
        };
        first -= 1;
    }
    window
}

impl Window {
    /// No bytes.
    pub(crate) fn empty() -> Window
        ensures { result ≡ no_window }
    {
        Window {
            span: Span { from: 0, len: 0 },
            part: None,
        }
    }

    /// The window in which the chunk of a changeset stands: this one, or the next, which is read.
    pub(crate) fn hold<R: Reads>(
        self,
        alloc: Global,
        session: &Session,
        files: &mut R,
        rev: u32,
    ) -> Result<Window, ReadAnswer>
        requires { rev < length session.now.changelog.entries }
        ensures answer { Answers (λ window. window) (R.seen files.old) (R.start files.old) (R.seen files.new) (held_asks session.now self rev) result }
        ensures given { Takes (λ window. window) (R.given files.old) (R.given files.new) (R.seen files.old) (R.start files.old) (R.seen files.new) (held_asks session.now self rev) result }
        ensures seen { Grows (R.seen files.old) (R.seen files.new) }
        ensures same_start { R.start files.new ≡ R.start files.old }
        ensures still { R.alone ≡ true → R.seen files.new ≡ R.seen files.old }
        ensures cause { HasFaultCause (R.faults files.old) (R.faults files.new) (R.denied files.old) (R.denied files.new) result }
    {
        let log = session.loaded().changelog();
        if has_chunk(&self.span, &log.span_in_file(rev)) {
            return Ok(self);
        }
        let span = window_before(log, rev);
        match read_part(alloc, files, session.chunks(), span.from, span.len) {
            Ok(part) => Ok(Window { span, part }),
            Err(refusal) => Err(refusal),
        }
    }

    // What was read of a chunk.
    fn chunk(&self, span: &Span) -> &[u8]
        ensures bytes { result.now ≡ chunk_in self.now span.now }
        ensures short { length result.now ≤ span.now.len }
    {
        let bytes = bytes_of(&self.part);
        let rest = match bytes.get(span.from.saturating_sub(self.span.from) as usize..) {
            Some(rest) => rest,
            None => return &[],
        };
        match rest.get(..span.len as usize) {
            Some(chunk) => chunk,
            None => rest,
        }
    }

    /// Adds the line of a changeset from what was read of its chunk. A refusal adds nothing.
    pub(crate) fn add_line(
        &self,
        session: &Session,
        rev: u32,
        into: &mut Vec<u8>,
    ) -> Result<(), ReadAnswer>
        requires { rev < length session.now.changelog.entries }
        ensures line { AddsGiven (line_at session.now rev (chunk_in self.now (chunk_span session.now.changelog rev))) into.old.items into.new.items result }
        ensures inner { NeverFaults result }
    {
        let span = session.loaded().changelog().span_in_file(rev);
        let line = match session.line_from(rev, self.chunk(&span)) {
            Ok(line) => line,
            Err(refusal) => return Err(refusal),
        };
        into.extend_from_slice(&line)?;
        Ok(())
    }
}
