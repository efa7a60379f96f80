//! The bytes of a revlog, as a separate one has them.
ghost use Rattle.std.specs.Prelude.{◌≡◌, IfErr, IfOk, OnOk, true, false, List, ℕ, ◌<◌, ◌^◌};
ghost use Rattle.hgs_index.specs.declared.kinds.Which.TheVariants.{Part};
ghost use Rattle.hgs_load.specs.declared.answer.ReadAnswer.TheVariants.{Limit};
ghost use Rattle.hgs_judge.specs.Read.{IsRefused};
ghost use Rattle.hgs_index.specs.Either.{chunks_either};
ghost use Rattle.hgs_index.specs.Inline.{index_apart};
ghost use Rattle.hgs_files.specs.Reads.{Grows};
ghost use Rattle.hgs_files.specs.Tree.{bytes_at};
ghost use Rattle.hgs_load.specs.Answer.{HasFaultCause, is_fault, is_of_outside};
ghost use Rattle.hgs_verify.specs.Looked.{OfTree};
ghost use Rattle.hgs_verify.specs.Parts.{AreBytes, is_long_inline};
ghost use Rattle.hgs_verify.specs.Refusal.{is_refusal, IsOfIndex};

use crate::whole::read_file;
use hgs_bytes::bytes::Bytes;
use hgs_files::files::Reads;
use hgs_files::path::StorePath;
use hgs_index::inline::is_inline;
use hgs_index::kinds::Which;
use hgs_judge::apart::{Apart, take_apart};
use hgs_load::answer::ReadAnswer;
use hgs_load::ask::bytes_of;
use hgs_revlog::fault::RevFault;
use std::alloc::Global;

/// An index and the chunks, none where a file isn't there.
#[derive(Drop)]
pub struct Parts {
    pub index: Option<Bytes>,
    pub chunks: Option<Bytes>,
}

// What the refusal of a revlog is to a reader.
pub(crate) fn of_refusal(fault: RevFault) -> ReadAnswer
    ensures fault { is_fault result ≡ false }
    ensures refused { is_refusal result ≡ true }
    ensures index { (index : List ℕ) → IsRefused index fault → IsOfIndex index result }
{
    match fault {
        RevFault::Limit(which) => ReadAnswer::Limit(which),
        _ => ReadAnswer::Memory,
    }
}

// Whether an index is inline and has more than so many bytes.
fn is_long(index: &[u8], most: u64) -> bool
    ensures { result ≡ is_long_inline most index.now }
{
    is_inline(index) && index.len() as u64 > most
}

/// Reads a revlog in the form that its index says. Beside an inline index no data is read, and one of more than `most` bytes
/// is refused.
pub fn read_either<R: Reads>(
    alloc: Global,
    files: &mut R,
    index: &StorePath,
    chunks: &StorePath,
    most: u64,
) -> Result<Parts, ReadAnswer>
    ensures found { IfOk result (λ parts. OfTree R.alone (R.seen files.new) (R.start files.new) (λ t. AreBytes parts (index_apart (bytes_at t index.now)) (chunks_either (bytes_at t index.now) (bytes_at t chunks.now)))) }
    ensures short { OnOk result (OfTree R.alone (R.seen files.new) (R.start files.new) (λ t. is_long_inline most (bytes_at t index.now) ≡ false)) }
    ensures long { IfErr result (λ e. is_of_outside e ≡ false → OfTree R.alone (R.seen files.new) (R.start files.new) (λ t. is_long_inline most (bytes_at t index.now) ≡ true)) }
    ensures seen { Grows (R.seen files.old) (R.seen files.new) }
    ensures same_start { R.start files.new ≡ R.start files.old }
    ensures still { R.alone ≡ true → R.seen files.new ≡ R.seen files.old }
    ensures cause { HasFaultCause (R.faults files.old) (R.faults files.new) (R.denied files.old) (R.denied files.new) result }
    ensures refused { IfErr result (λ e. is_refusal e ≡ true) }
    ensures few { IfErr result (λ e. is_of_outside e ≡ false → most < 2 ^ 62) }
    ensures part { IfErr result (λ e. is_of_outside e ≡ false → e ≡ Limit Part) }
{
    let index = read_file(alloc, files, index)?;
    if is_long(bytes_of(&index), most) {
        return Err(ReadAnswer::Limit(Which::Part));
    }
    if is_inline(bytes_of(&index)) {
        let Apart { index, chunks } = take_apart(alloc, bytes_of(&index))?;
        return Ok(Parts {
            index: Some(index),
            chunks: Some(chunks),
        });
    }
    let chunks = read_file(alloc, files, chunks)?;
    Ok(Parts { index, chunks })
}
