//! The windows in which the chunks of changesets are read, oldest first.
ghost use Rattle.std.specs.Prelude.{◌≡◌, ◌<◌, ◌≤◌, true, length, IfOk, IfErr};
ghost use Rattle.hgs_bytes.specs.Answer.{Gives};
ghost use Rattle.hgs_changelog.specs.View.{view_change};
ghost use Rattle.hgs_files.specs.Reads.{Grows};
ghost use Rattle.hgs_load.specs.Answer.{is_of_outside, HasFaultCause, NeverFaults};
ghost use Rattle.hgs_load.specs.Asks.{Answers};
ghost use Rattle.hgs_load.specs.Given.{Takes};
ghost use Rattle.hgs_reader.specs.Line.{change_at};
ghost use Rattle.hgs_branches.specs.Windows.{chunk_in, chunk_span, held_asks, held_run, no_window, window_of};

use hgs_bytes::bytes::Bytes;
use hgs_changelog::text::ChangeText;
use hgs_files::files::Reads;
use hgs_index::kinds::Span;
use hgs_load::answer::ReadAnswer;
use hgs_load::ask::{bytes_of, read_part};
use hgs_reader::session::Session;
use hgs_revlog::revlog::Revlog;
use std::alloc::Global;

/// The most bytes of a window with more than one chunk.
const MOST_WINDOW: u64 = 262_144;

/// Where chunks stand that come right behind one another.
#[derive(Clone, Copy, Debug)]
pub(crate) struct Run {
    pub span: Span,
    /// The number behind that of the last of their changesets.
    pub end: u32,
}

/// What one read gave of such chunks, none where the file isn't there. The file may end before the span does.
#[derive(Drop)]
pub(crate) struct Window {
    run: Run,
    part: Option<Bytes>,
}

// The run that begins with the chunk of this changeset, and goes on to those of others that come before this number.
fn run_from(log: &Revlog, rev: u32, upto: u32) -> Run
    requires order { rev < upto }
    requires there { upto ≤ length log.now.entries }
    ensures { result ≡ window_of log.now rev upto }
{
    let mut span = log.span_in_file(rev);
    let mut end = rev + 1;
    while end < upto {
        let chunk = log.span_in_file(end);
        if chunk.from < span.from || chunk.from - span.from != span.len {
            return Run { span, end };
        }
        if span.len > MOST_WINDOW || chunk.len > MOST_WINDOW - span.len {
            return Run { span, end };
        }
        span = Span {
            from: span.from,
            len: span.len + chunk.len,
        };
        end += 1;
    }
    Run { span, end }
}

impl Window {
    /// No bytes, before this changeset.
    pub(crate) fn before(rev: u32) -> Window
        ensures { result ≡ no_window rev }
    {
        Window {
            run: Run {
                span: Span { from: 0, len: 0 },
                end: rev,
            },
            part: None,
        }
    }

    /// The window in which the chunk of a changeset stands: this one, or the next, which is read.
    pub(crate) fn hold<R: Reads>(
        self,
        alloc: Global,
        session: &Session,
        files: &mut R,
        rev: u32,
        upto: u32,
    ) -> Result<Window, ReadAnswer>
        requires order { rev < upto }
        requires there { upto ≤ length session.now.changelog.entries }
        ensures answer { Answers (λ window. window) (R.seen files.old) (R.start files.old) (R.seen files.new) (held_asks session.now self rev upto) result }
        ensures given { Takes (λ window. window) (R.given files.old) (R.given files.new) (R.seen files.old) (R.start files.old) (R.seen files.new) (held_asks session.now self rev upto) result }
        ensures run { IfOk result (λ window. window.run ≡ held_run session.now self rev upto) }
        ensures outside { IfErr result (λ e. is_of_outside e ≡ true) }
        ensures seen { Grows (R.seen files.old) (R.seen files.new) }
        ensures same_start { R.start files.new ≡ R.start files.old }
        ensures still { R.alone ≡ true → R.seen files.new ≡ R.seen files.old }
        ensures cause { HasFaultCause (R.faults files.old) (R.faults files.new) (R.denied files.old) (R.denied files.new) result }
    {
        if rev < self.run.end {
            return Ok(self);
        }
        let run = run_from(session.loaded().changelog(), rev, upto);
        match read_part(alloc, files, session.chunks(), run.span.from, run.span.len) {
            Ok(part) => Ok(Window { run, part }),
            Err(refusal) => Err(refusal),
        }
    }

    // What was read of a chunk.
    fn chunk(&self, span: &Span) -> &[u8]
        ensures bytes { result.now ≡ chunk_in self.now span.now }
        ensures short { length result.now ≤ span.now.len }
    {
        let bytes = bytes_of(&self.part);
        let rest = match bytes.get(span.from.saturating_sub(self.run.span.from) as usize..) {
            Some(rest) => rest,
            None => return &[],
        };
        match rest.get(..span.len as usize) {
            Some(chunk) => chunk,
            None => rest,
        }
    }

    /// A changeset by what was read of its chunk.
    pub(crate) fn change(&self, session: &Session, rev: u32) -> Result<ChangeText, ReadAnswer>
        requires { rev < length session.now.changelog.entries }
        ensures change { Gives is_of_outside view_change result (change_at session.now rev (chunk_in self.now (chunk_span session.now.changelog rev))) }
        ensures inner { NeverFaults result }
    {
        let span = session.loaded().changelog().span_in_file(rev);
        session.change_from(rev, self.chunk(&span))
    }
}
