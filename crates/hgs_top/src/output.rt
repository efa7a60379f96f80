//! Writing all of some bytes to a sink.
ghost use Rattle.std.specs.Prelude.{◌≤◌, OnOk, OnErr, IsErrOf};
ghost use Rattle.hgs_files.specs.Reads.{Rose};
ghost use Rattle.hgs_files.specs.Streams.{IsWritten};
ghost use Rattle.hgs_files.specs.declared.streams.IoFault.TheVariants.{Failed};
ghost use Rattle.hgs_top.specs.Run.{IsCut};

use hgs_files::streams::{IoFault, Sink};

/// Writes all of the bytes. A refusal has written a front of them, and not all.
pub fn write_all<K: Sink>(out: &mut K, bytes: &[u8]) -> Result<(), IoFault>
    ensures ok { OnOk result (IsWritten (K.written out.old) (K.written out.new) bytes.now) }
    ensures err { OnErr result (IsCut (K.written out.old) (K.written out.new) bytes.now) }
    ensures later { K.faults out.old ≤ K.faults out.new }
    ensures failed { IsErrOf result Failed → Rose (K.faults out.old) (K.faults out.new) }
{
    let mut at: usize = 0;
    while at < bytes.len() {
        match out.write(&bytes[at..]) {
            Ok(count) => at += count as usize,
            Err(fault) => return Err(fault),
        }
    }
    Ok(())
}
