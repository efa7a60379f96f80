//! Why a reader refuses, and how that is printed.
ghost use Rattle.std.specs.Prelude.{◌≡◌, ◌++◌, codes, OnOk, OnErr, IfOk};
ghost use Rattle.hgs_load.specs.Answer.{status_of, refusal_text, refusal_line, read_fault};

use hgs_bytes::bytes::Bytes;
use hgs_files::files::FileFault;
use hgs_index::kinds::Which;
use hgs_plan::damage::Damage;
use hgs_plan::print::{push_damage, push_number};
use std::alloc::{AllocError, AllocFailed, Global};

/// Why a reader refuses. `Fault` and `Memory` speak of the outside, the others of the repository.
#[derive(Debug, Drop)]
pub enum ReadAnswer {
    Damaged(Damage),
    Fault,
    Limit(Which),
    UnknownPath,
    NotARepository,
    Requirement(Bytes),
    Memory,
}

impl From<AllocError> for ReadAnswer {
    ghost use Rattle.std.specs.Prelude.{◌≡◌};
    ghost use Rattle.hgs_load.specs.declared.answer.ReadAnswer.TheVariants.{Memory};

    ghost from_gives = { λ _ e. e ≡ Memory };

    fn from(_: AllocError) -> ReadAnswer {
        ReadAnswer::Memory
    }
}

impl<T: Drop> From<AllocFailed<T>> for ReadAnswer {
    ghost use Rattle.std.specs.Prelude.{◌≡◌};
    ghost use Rattle.hgs_load.specs.declared.answer.ReadAnswer.TheVariants.{Memory};

    ghost from_gives = { λ _ e. e ≡ Memory };

    fn from(_: AllocFailed<T>) -> ReadAnswer {
        ReadAnswer::Memory
    }
}

/// Adds the word of `requires` that the profile does not have, or lacks.
fn push_requirement(into: &mut Vec<u8>, word: &Bytes) -> Result<(), AllocError>
    ensures { OnOk result (into.new.items ≡ into.old.items ++ (codes "requirement " ++ word.now)) }
{
    into.extend_from_slice(b"requirement ")?;
    into.extend_from_slice(word.as_slice())?;
    Ok(())
}

impl ReadAnswer {
    /// The exit status of a command that ends with this refusal.
    pub fn status(&self) -> u8
        ensures { result ≡ status_of self.now }
    {
        match self {
            ReadAnswer::Damaged(_) => 15,
            ReadAnswer::Fault => 16,
            ReadAnswer::Limit(_) => 20,
            ReadAnswer::UnknownPath => 23,
            ReadAnswer::NotARepository => 24,
            ReadAnswer::Requirement(_) => 27,
            ReadAnswer::Memory => 30,
        }
    }

    /// Adds what the refusal says, without `abort: ` and the LF.
    fn push_text(&self, into: &mut Vec<u8>) -> Result<(), AllocError>
        ensures { OnOk result (into.new.items ≡ into.old.items ++ refusal_text self.now) }
    {
        match self {
            ReadAnswer::Damaged(damage) => {
                into.extend_from_slice(b"damaged ")?;
                push_damage(into, damage)
            }
            ReadAnswer::Fault => into.extend_from_slice(b"file operation failed"),
            ReadAnswer::Limit(which) => {
                into.extend_from_slice(b"limit ")?;
                push_number(into, which.number() as u64)
            }
            ReadAnswer::UnknownPath => into.extend_from_slice(b"unknown path"),
            ReadAnswer::NotARepository => into.extend_from_slice(b"not a repository"),
            ReadAnswer::Requirement(word) => push_requirement(into, word),
            ReadAnswer::Memory => into.extend_from_slice(b"out of memory"),
        }
    }

    /// The line of the refusal, with its LF.
    fn line(&self, alloc: Global) -> Result<Vec<u8>, AllocError>
        ensures { IfOk result (λ line. line.items ≡ refusal_line self.now) }
    {
        let mut line = Vec::from_slice(alloc, b"abort: ")?;
        self.push_text(&mut line)?;
        line.push(b'\n')?;
        Ok(line)
    }

    /// Adds the line of the refusal. Where there is no memory, nothing is added.
    pub fn print(&self, alloc: Global, into: &mut Vec<u8>) -> Result<(), AllocError>
        ensures ok { OnOk result (into.new.items ≡ into.old.items ++ refusal_line self.now) }
        ensures err { OnErr result (into.new.items ≡ into.old.items) }
    {
        let line = self.line(alloc)?;
        into.extend_from_slice(&line)
    }
}

/// What a fault of the files is to a reader.
pub fn of_files(fault: FileFault) -> ReadAnswer
    ensures { result ≡ read_fault fault }
{
    match fault {
        FileFault::Failed => ReadAnswer::Fault,
        FileFault::Memory => ReadAnswer::Memory,
    }
}
