//! A file on a disk whose power may fail.
ghost use Rattle.std.specs.Prelude.{◌≡◌, length, IfOk, OnOk};
ghost use Rattle.hgs_power.specs.Disk.{File, firm};
ghost use Rattle.hgs_power.specs.Power.{filled, times};
ghost use Rattle.hgs_power_loss.specs.Kept.{file_after};

use hgs_bytes::bytes::Bytes;
use hgs_bytes::parts::front;
use hgs_files::op::Op;
use std::alloc::{AllocError, Global};
use std::marker::Model;

/// A file: its bytes, how many of the first are safe, and the greatest length that it had since its last sync.
#[derive(Drop)]
pub struct DiskFile {
    bytes: Bytes,
    safe: usize,
    most: usize,
}

impl Model for DiskFile {
    ghost use Rattle.hgs_power.specs.Disk.{File};

    ghost Value = { File };

    ghost view = { λ f. record { bytes = f.bytes; safe = f.safe; most = f.most } };
}

/// A byte, so many times.
fn repeated(alloc: Global, byte: u8, count: usize) -> Result<Vec<u8>, AllocError>
    ensures { IfOk result (λ bytes. bytes.items ≡ times count byte) }
{
    vec![in alloc; byte; count]
}

impl DiskFile {
    /// A file of these bytes, all of them safe.
    pub fn firm(bytes: Bytes) -> DiskFile
        ensures { result ≡ firm bytes }
    {
        let len = bytes.len();
        DiskFile {
            bytes,
            safe: len,
            most: len,
        }
    }

    /// Does an operation on it.
    pub fn apply(&mut self, alloc: Global, op: &Op) -> Result<(), AllocError>
        ensures { OnOk result (self.new ≡ file_after op.now self.old) }
    {
        match op {
            Op::Append { path: _, bytes } => {
                self.bytes.append(bytes.as_slice())?;
                self.most = self.most.max(self.bytes.len());
            }
            Op::Create { path: _, bytes } => {
                self.bytes = bytes.copy(alloc)?;
                self.safe = 0;
                self.most = self.most.max(self.bytes.len());
            }
            Op::Cut { path: _, len } => {
                self.bytes.cut(*len as usize);
                self.safe = self.safe.min(self.bytes.len());
            }
            Op::Sync { path: _ } => {
                self.safe = self.bytes.len();
                self.most = self.bytes.len();
            }
            Op::Rename { from: _, to: _ } => {}
            Op::Remove { path: _ } => {}
            Op::Settle => {}
        }
        Ok(())
    }

    /// What a loss of power leaves: the safe bytes, then a byte, up to so many more and to the greatest length.
    pub fn filled(&self, alloc: Global, keep: u64, fill: u8) -> Result<Bytes, AllocError>
        ensures { IfOk result (λ bytes. bytes ≡ filled keep fill self.now) }
    {
        let unsynced = self.most.saturating_sub(self.safe);
        let count = keep.min(unsynced as u64) as usize;
        let mut left = Bytes::from_slice(alloc, front(self.bytes.as_slice(), self.safe))?;
        left.append(&repeated(alloc, fill, count)?)?;
        Ok(left)
    }
}
