//! A source and a sink in memory.
ghost use Rattle.std.specs.Prelude.{◌≡◌, [], Some, None, IfOk};
ghost use Rattle.hgs_files.specs.Reads.{counted};
ghost use Rattle.hgs_files.specs.Streams.{Takes, Writes, CountsFailed};
ghost use Rattle.hgs_mem.specs.Streams.{left_of, source_calls, source_named, source_faults, written_to, sink_calls, sink_named, sink_faults, FailsAt};

use hgs_bytes::parts::{front, past};
use hgs_files::streams::{IoFault, Sink, Source};
use std::alloc::{AllocError, Global};

/// Bytes to read from memory, which can be told to fail at one call. Calls have numbers from 0.
#[derive(Drop)]
pub struct MemSource {
    bytes: Vec<u8>,
    at: u64,
    calls: u64,
    named: Option<u64>,
    faults: u64,
}

impl MemSource {
    /// A source that has these bytes.
    pub fn new(alloc: Global, bytes: &[u8]) -> Result<MemSource, AllocError>
        ensures left { IfOk result (λ source. left_of source ≡ bytes.now) }
        ensures calls { IfOk result (λ source. source_calls source ≡ 0) }
        ensures named { IfOk result (λ source. source_named source ≡ None) }
        ensures faults { IfOk result (λ source. source_faults source ≡ 0) }
    {
        Ok(MemSource {
            bytes: Vec::from_slice(alloc, bytes)?,
            at: 0,
            calls: 0,
            named: None,
            faults: 0,
        })
    }

    /// Makes the call with this number fail, in place of the one named before.
    pub fn fail(&mut self, call: u64)
        ensures named { source_named self.new ≡ Some call }
        ensures left { left_of self.new ≡ left_of self.old }
        ensures calls { source_calls self.new ≡ source_calls self.old }
        ensures faults { source_faults self.new ≡ source_faults self.old }
    {
        self.named = Some(call);
    }
}

impl Source for MemSource {
    ghost left = { λ source. Some (left_of source) };

    ghost faults = { λ source. source_faults source };

    fn read(&mut self, most: u64, into: &mut Vec<u8>) -> Result<u64, IoFault>
        ensures bytes { Takes (Some (left_of self.old)) (Some (left_of self.new)) most into.old.items into.new.items result }
        ensures counts { CountsFailed (source_faults self.old) (source_faults self.new) result }
        ensures fate { FailsAt (source_named self.old) (source_calls self.old) result }
        ensures calls { source_calls self.new ≡ counted (source_calls self.old) 1 }
        ensures named { source_named self.new ≡ source_named self.old }
    {
        let call = self.calls;
        self.calls = call.saturating_add(1);
        if self.named == Some(call) {
            self.faults = self.faults.saturating_add(1);
            return Err(IoFault::Failed);
        }
        let part = front(past(self.bytes.as_slice(), self.at as usize), most as usize);
        let count = part.len() as u64;
        match into.extend_from_slice(part) {
            Ok(()) => {
                self.at += count;
                Ok(count)
            }
            Err(_) => Err(IoFault::Memory),
        }
    }
}

/// Bytes that were written to memory, by calls one of which can be told to fail. Calls have numbers from 0.
#[derive(Drop)]
pub struct MemSink {
    bytes: Vec<u8>,
    calls: u64,
    named: Option<u64>,
    faults: u64,
}

impl MemSink {
    /// A sink with nothing written. Takes no memory.
    pub fn new(alloc: Global) -> MemSink
        ensures written { written_to result ≡ [] }
        ensures calls { sink_calls result ≡ 0 }
        ensures named { sink_named result ≡ None }
        ensures faults { sink_faults result ≡ 0 }
    {
        MemSink {
            bytes: Vec::new(alloc),
            calls: 0,
            named: None,
            faults: 0,
        }
    }

    /// The bytes that were written.
    pub fn bytes(&self) -> &[u8]
        ensures { result.now ≡ written_to self.now }
    {
        self.bytes.as_slice()
    }

    /// Makes the call with this number fail, in place of the one named before.
    pub fn fail(&mut self, call: u64)
        ensures named { sink_named self.new ≡ Some call }
        ensures written { written_to self.new ≡ written_to self.old }
        ensures calls { sink_calls self.new ≡ sink_calls self.old }
        ensures faults { sink_faults self.new ≡ sink_faults self.old }
    {
        self.named = Some(call);
    }
}

impl Sink for MemSink {
    ghost written = { λ sink. Some (written_to sink) };

    ghost faults = { λ sink. sink_faults sink };

    fn write(&mut self, bytes: &[u8]) -> Result<u64, IoFault>
        ensures bytes { Writes (Some (written_to self.old)) (Some (written_to self.new)) bytes.now result }
        ensures counts { CountsFailed (sink_faults self.old) (sink_faults self.new) result }
        ensures fate { FailsAt (sink_named self.old) (sink_calls self.old) result }
        ensures calls { sink_calls self.new ≡ counted (sink_calls self.old) 1 }
        ensures named { sink_named self.new ≡ sink_named self.old }
    {
        let call = self.calls;
        self.calls = call.saturating_add(1);
        if self.named == Some(call) {
            self.faults = self.faults.saturating_add(1);
            return Err(IoFault::Failed);
        }
        match self.bytes.extend_from_slice(bytes) {
            Ok(()) => Ok(bytes.len() as u64),
            Err(_) => Err(IoFault::Memory),
        }
    }
}
