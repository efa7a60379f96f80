//! Filelogs that are read one after another and judged side by side.
ghost use Rattle.std.specs.Prelude.{◌≡◌, ◌+◌, ◌++◌, ◌∷◌, ◌||◌, [], IfErr, IfOk, OnOk, length, min, nat_le, true, unwrap_or};
ghost use Rattle.hgs_files.specs.Reads.{Grows, counted};
ghost use Rattle.hgs_load.specs.Answer.{HasFaultCause, is_of_outside};
ghost use Rattle.hgs_verify.specs.Looked.{OfTree};
ghost use Rattle.hgs_verify.specs.Refusal.{is_refusal};
ghost use Rattle.hgs_verify.specs.Task.{AreNext, AreReadOf};

use crate::filelog::read_task;
use crate::task::Task;
use hgs_bytes::bytes::Bytes;
use hgs_files::files::Reads;
use hgs_load::answer::ReadAnswer;
use hgs_load::ask::bytes_of;
use std::alloc::{AllocError, Global};
use std::collections::BTreeSet;

/// The most paths of a batch, and the bytes from which on it gets no further path.
const MOST_PATHS: usize = 96;

const MOST_BYTES: u64 = 0x200_0000;

/// Filelogs that are held at a time: those of at most 96 paths, and of no further path once they have 32 MiB.
#[derive(Drop)]
pub struct Batch {
    pub tasks: Vec<Task>,
    /// How many bytes their filelogs have.
    bytes: u64,
}

// How many bytes a filelog has.
fn length_of(task: &Task) -> u64
    ensures { result ≡ min (length (unwrap_or task.now.parts.index []) + length (unwrap_or task.now.parts.chunks [])) 18446744073709551615 }
{
    let index = bytes_of(&task.parts.index).len() as u64;
    index.saturating_add(bytes_of(&task.parts.chunks).len() as u64)
}

impl Batch {
    /// A batch of no filelogs. Takes no memory.
    pub fn new(alloc: Global) -> Batch
        ensures none { result.tasks.items ≡ [] }
        ensures empty { result.bytes ≡ 0 }
    {
        Batch {
            tasks: Vec::new(alloc),
            bytes: 0,
        }
    }

    /// Whether it gets no further filelog.
    pub fn is_full(&self) -> bool
        ensures { result ≡ (nat_le 96 (length self.now.tasks.items) || nat_le 33554432 self.now.bytes) }
    {
        self.tasks.len() >= MOST_PATHS || self.bytes >= MOST_BYTES
    }

    /// Adds a filelog that was read.
    pub fn add(&mut self, task: Task) -> Result<(), AllocError>
        ensures added { OnOk result (self.new.tasks.items ≡ self.old.tasks.items ++ task ∷ []) }
        ensures counted { OnOk result (self.new.bytes ≡ counted self.old.bytes (length (unwrap_or task.parts.index []) + length (unwrap_or task.parts.chunks []))) }
    {
        self.bytes = self.bytes.saturating_add(length_of(&task));
        self.tasks.push(task)?;
        Ok(())
    }
}

/// Takes the first of these paths, and reads their filelogs until a batch is full or no path is left.
pub fn read_batch<R: Reads>(
    alloc: Global,
    files: &mut R,
    paths: &mut BTreeSet<Bytes>,
) -> Result<Batch, ReadAnswer>
    ensures next { IfOk result (λ batch. AreNext batch.tasks.items paths.old.keys paths.new.keys) }
    ensures read { IfOk result (λ batch. OfTree R.alone (R.seen files.new) (R.start files.new) (AreReadOf batch.tasks.items)) }
    ensures seen { Grows (R.seen files.old) (R.seen files.new) }
    ensures same_start { R.start files.new ≡ R.start files.old }
    ensures still { R.alone ≡ true → R.seen files.new ≡ R.seen files.old }
    ensures cause { HasFaultCause (R.faults files.old) (R.faults files.new) (R.denied files.old) (R.denied files.new) result }
    ensures refused { IfErr result (λ e. is_refusal e ≡ true) }
    ensures outside { IfErr result (λ e. is_of_outside e ≡ true) }
{
    let mut batch = Batch::new(alloc);
    while let Some(path) = paths.pop_first() {
        let task = read_task(alloc, files, path)?;
        batch.add(task)?;
        if batch.is_full() {
            return Ok(batch);
        }
    }
    Ok(batch)
}
