//! How far a verification is, on standard error where that is a terminal.

use hgs_verify::progress::Progress;
use std::io::IsTerminal;
use std::time::Instant;

/// Work that takes no longer than this is not told of, in milliseconds.
const SHORT: u128 = 1_000;

/// The line is not drawn again before this, in milliseconds.
const PAUSE: u128 = 100;

/// A line that is drawn over itself as the work goes on, and taken away at its end.
#[derive(Drop)]
pub struct OsProgress {
    rt: HostRuntime,
    /// When the work began or was last drawn; none where nobody looks.
    last: Option<Instant>,
    drawn: bool,
}

impl OsProgress {
    /// The work begins now.
    pub fn new(rt: HostRuntime) -> OsProgress {
        let last = if rt.stderr().is_terminal() {
            Instant::now(&rt).ok()
        } else {
            None
        };
        OsProgress {
            rt,
            last,
            drawn: false,
        }
    }

    // Whether it is time to draw.
    fn is_time(&self) -> bool {
        let pause = if self.drawn { PAUSE } else { SHORT };
        match self.last {
            Some(last) => match last.elapsed(&self.rt) {
                Ok(spent) => spent.as_millis() > pause,
                Err(_) => false,
            },
            None => false,
        }
    }
}

impl Progress for OsProgress {
    // What becomes of the line does not matter.
    fn tell(&mut self, done: usize, all: usize) {
        if self.is_time() {
            let _ = eprint!(self.rt; "\rchecked {done} of {all} files");
            self.last = Instant::now(&self.rt).ok();
            self.drawn = true;
        }
    }

    fn end(&mut self) {
        if self.drawn {
            let _ = eprint!(self.rt; "\r{:60}\r", "");
            self.drawn = false;
        }
    }
}
