//! The source and the sink over what std reads and writes: standard input and standard output, in the program.
//!
//! They tell no content, and keep a count of what failed.
ghost use Rattle.std.specs.Prelude.{◌≡◌, ◌≤◌, None, IfOk, length};
ghost use Rattle.hgs_os.specs.Reading.{AddsAnswered};

use hgs_files::streams::{IoFault, Sink, Source};
use std::io::{self, Read, Write};

/// One read asks for no more than this.
const PIECE: usize = 65_536;

/// A call that a signal interrupted is made so often before that is an error.
const TRIES: u32 = 1_000;

// Reads once, again where a signal interrupts it.
fn read_piece<R: Read>(reader: &mut R, piece: &mut [u8]) -> io::Result<usize>
    ensures same { length piece.new ≡ length piece.old }
    ensures count { IfOk result (λ k. k ≤ length piece.old) }
{
    for _ in 1..TRIES {
        match reader.read(piece) {
            Err(error) if error.kind() == io::ErrorKind::Interrupted => {}
            answer => return answer,
        }
    }
    reader.read(piece)
}

// Writes once, again where a signal interrupts it.
fn write_piece<W: Write>(writer: &mut W, bytes: &[u8]) -> io::Result<usize>
    ensures { IfOk result (λ k. k ≤ length bytes.now) }
{
    for _ in 1..TRIES {
        match writer.write(bytes) {
            Err(error) if error.kind() == io::ErrorKind::Interrupted => {}
            answer => return answer,
        }
    }
    writer.write(bytes)
}

/// Reads once, adds at most `most` bytes at the end of `into`, and answers how many. An error adds none.
pub fn read_once<R: Read>(reader: &mut R, most: u64, into: &mut Vec<u8>) -> io::Result<u64>
    ensures { AddsAnswered most into.old.items into.new.items result }
{
    let start = into.len();
    let room = PIECE.min(most as usize);
    into.resize(start + room, 0)?;
    match read_piece(reader, &mut into[start..]) {
        Ok(count) => {
            into.truncate(start + count);
            Ok(count as u64)
        }
        Err(error) => {
            into.truncate(start);
            Err(error)
        }
    }
}

/// What a reader of std gives.
#[derive(Drop)]
pub struct OsSource<R: Read + Drop> {
    reader: R,
    faults: u64,
}

impl<R: Read + Drop> OsSource<R> {
    pub fn new(reader: R) -> OsSource<R> {
        OsSource { reader, faults: 0 }
    }
}

impl<R: Read + Drop> Source for OsSource<R> {
    ghost left = { λ _. None };

    ghost faults = { λ source. source.faults };

    fn read(&mut self, most: u64, into: &mut Vec<u8>) -> Result<u64, IoFault> {
        match read_once(&mut self.reader, most, into) {
            Ok(count) => Ok(count),
            Err(error) if error.kind() == io::ErrorKind::OutOfMemory => Err(IoFault::Memory),
            Err(_) => {
                self.faults = self.faults.saturating_add(1);
                Err(IoFault::Failed)
            }
        }
    }
}

/// What a writer of std takes.
#[derive(Drop)]
pub struct OsSink<W: Write + Drop> {
    writer: W,
    faults: u64,
}

impl<W: Write + Drop> OsSink<W> {
    pub fn new(writer: W) -> OsSink<W> {
        OsSink { writer, faults: 0 }
    }
}

impl<W: Write + Drop> Sink for OsSink<W> {
    ghost written = { λ _. None };

    ghost faults = { λ sink. sink.faults };

    fn write(&mut self, bytes: &[u8]) -> Result<u64, IoFault> {
        match write_piece(&mut self.writer, bytes) {
            Ok(count) if count > 0 || bytes.is_empty() => Ok(count as u64),
            _ => {
                self.faults = self.faults.saturating_add(1);
                Err(IoFault::Failed)
            }
        }
    }
}
