//! How far long work is, on standard error where that is a terminal. Nothing that is read, written or answered depends on it.

use std::io::{self, IsTerminal, Read, Write};
use std::time::Instant;

/// Work that takes no longer than this is not told of, and the line is not drawn again before it, in milliseconds.
const PAUSE: u128 = 1_000;

/// The index of all changesets.
const CHANGELOG: &[u8] = b"store/00changelog.i";

/// A line that is drawn over itself as the work goes on. What becomes of it does not matter.
#[derive(Drop)]
pub struct Line {
    rt: HostRuntime,
    /// When the work began, or the line was last drawn; none where nobody looks.
    last: Option<Instant>,
}

impl Line {
    /// The work begins now.
    pub fn new(rt: HostRuntime) -> Line {
        let last = if rt.stderr().is_terminal() {
            Instant::now(&rt).ok()
        } else {
            None
        };
        Line { rt, last }
    }

    // Whether it is time to draw.
    fn is_time(&self) -> bool {
        match self.last {
            Some(last) => match last.elapsed(&self.rt) {
                Ok(spent) => spent.as_millis() > PAUSE,
                Err(_) => false,
            },
            None => false,
        }
    }

    // Says that so many of something are done by a command.
    fn draw(&mut self, command: &str, count: u64, what: &str) {
        if self.is_time() {
            let _ = eprint!(self.rt; "\r\x1b[K{command}: {count} {what}");
            self.last = Instant::now(&self.rt).ok();
        }
    }

    // Says how many of all changesets are there.
    fn draw_part(&mut self, command: &str, count: u64, all: u32) {
        if self.is_time() {
            let _ = eprint!(self.rt; "\r\x1b[K{command}: {count} of {all} changesets");
            self.last = Instant::now(&self.rt).ok();
        }
    }

    // Takes the line away, where it may have been drawn.
    fn clear(&mut self) {
        if self.is_time() {
            let _ = eprint!(self.rt; "\r\x1b[K");
        }
        self.last = None;
    }
}

/// What a command does with its files.
#[derive(Clone, Copy, Debug)]
pub enum Work {
    /// It adds to the texts of many files.
    Files(&'static str),
    /// It makes so many changesets, one after another.
    Changesets(&'static str, u32),
}

/// Looks on while a command reads and writes the files of a repository.
#[derive(Drop)]
pub struct Watch {
    line: Line,
    work: Work,
    read: u64,
    written: u64,
}

// Whether this is the index of a file's texts.
fn is_filelog(path: &[u8]) -> bool {
    (path.starts_with(b"store/data/") || path.starts_with(b"store/dh/")) && path.ends_with(b".i")
}

impl Watch {
    pub fn new(rt: HostRuntime, work: Work) -> Watch {
        Watch {
            line: Line::new(rt),
            work,
            read: 0,
            written: 0,
        }
    }

    /// A file is read from this place on.
    pub fn reads(&mut self, path: &[u8], from: u64) {
        if let Work::Files(command) = self.work {
            if from == 0 && is_filelog(path) {
                self.read = self.read.saturating_add(1);
                self.line.draw(command, self.read, "files read");
            }
        }
    }

    /// A file is added to.
    pub fn appends(&mut self, path: &[u8]) {
        match self.work {
            Work::Files(command) if is_filelog(path) => {
                self.written = self.written.saturating_add(1);
                self.line.draw(command, self.written, "files written");
            }
            Work::Changesets(command, all) if path == CHANGELOG => {
                self.written = self.written.saturating_add(1);
                self.line.draw_part(command, self.written, all);
            }
            _ => {}
        }
    }
}

/// What a command reads of its input, a MiB told as it is through.
#[derive(Drop)]
pub struct WatchedInput<R: Read + Drop> {
    input: R,
    line: Line,
    command: Option<&'static str>,
    count: u64,
}

impl<R: Read + Drop> WatchedInput<R> {
    /// Nobody looks on where no command is named.
    pub fn new(rt: HostRuntime, input: R, command: Option<&'static str>) -> WatchedInput<R> {
        WatchedInput {
            input,
            line: Line::new(rt),
            command,
            count: 0,
        }
    }
}

impl<R: Read + Drop> Read for WatchedInput<R> {
    fn read(&mut self, buf: &mut [u8]) -> io::Result<usize> {
        let count = self.input.read(buf)?;
        self.count = self.count.saturating_add(count as u64);
        if let Some(command) = self.command {
            self.line
                .draw(command, self.count >> 20, "MiB of input read");
        }
        Ok(count)
    }
}

/// An output before whose first bytes the line is taken away.
#[derive(Drop)]
pub struct Cleared<W: Write + Drop> {
    output: W,
    line: Line,
}

impl<W: Write + Drop> Cleared<W> {
    pub fn new(rt: HostRuntime, output: W) -> Cleared<W> {
        Cleared {
            output,
            line: Line::new(rt),
        }
    }
}

impl<W: Write + Drop> Write for Cleared<W> {
    fn write(&mut self, buf: &[u8]) -> io::Result<usize> {
        self.line.clear();
        self.output.write(buf)
    }

    fn flush(&mut self) -> io::Result<()> {
        self.output.flush()
    }
}
