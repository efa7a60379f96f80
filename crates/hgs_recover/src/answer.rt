//! What recovering comes to, and its text.
ghost use Rattle.std.specs.Prelude.{◌≡◌, ◌++◌, OnOk, OnErr};
ghost use Rattle.hgs_recover.specs.Answer.{outcome_of_read, recovered_text, said_text, status_of};

use hgs_load::answer::ReadAnswer;
use hgs_plan::damage::Damage;
use hgs_plan::print::push_damage;
use std::alloc::{AllocError, Global};

/// What recovering comes to.
#[derive(Debug, Drop)]
pub enum RecoverAnswer {
    /// The open transaction is undone.
    Restored,
    /// No journal stands.
    NothingToDo,
    /// The journal or its list of backups is out of form, the list or a backup is absent, or a file is shorter than the
    /// journal says. Nothing was changed.
    Damaged(Damage),
    /// A read failed. Nothing was changed.
    Fault,
    /// An operation failed or found no memory. The journal still stands, and recovering may be begun again.
    Unfinished,
    /// There was no memory. Nothing was changed.
    Memory,
}

/// What recovering came to, and whether all that it was to remove is gone.
#[derive(Debug, Drop)]
pub struct Recovered {
    pub outcome: RecoverAnswer,
    pub swept: bool,
}

/// What recovering comes to where a read is refused so. Its reads meet no limit and look for nothing that a reader asks for,
/// so the other refusals do not come.
pub(crate) fn of_read(refusal: ReadAnswer) -> RecoverAnswer
    ensures { result ≡ outcome_of_read refusal }
{
    match refusal {
        ReadAnswer::Damaged(damage) => RecoverAnswer::Damaged(damage),
        ReadAnswer::Fault => RecoverAnswer::Fault,
        ReadAnswer::Limit(_)
        | ReadAnswer::UnknownPath
        | ReadAnswer::NotARepository
        | ReadAnswer::Requirement(_)
        | ReadAnswer::Memory => RecoverAnswer::Memory,
    }
}

impl RecoverAnswer {
    /// The exit status of a recovery that ends so.
    pub fn status(&self) -> u8
        ensures { result ≡ status_of self.now }
    {
        match self {
            RecoverAnswer::Restored => 0,
            RecoverAnswer::NothingToDo => 1,
            RecoverAnswer::Damaged(_) => 15,
            RecoverAnswer::Fault => 16,
            RecoverAnswer::Unfinished => 17,
            RecoverAnswer::Memory => 30,
        }
    }

    // What is said of it, without the LF.
    fn push_said(&self, into: &mut Vec<u8>) -> Result<(), AllocError>
        ensures { OnOk result (into.new.items ≡ into.old.items ++ said_text self.now) }
    {
        match self {
            RecoverAnswer::Restored => into.extend_from_slice(b"transaction undone"),
            RecoverAnswer::NothingToDo => {
                into.extend_from_slice(b"no interrupted transaction available")
            }
            RecoverAnswer::Damaged(damage) => {
                into.extend_from_slice(b"abort: damaged ")?;
                push_damage(into, damage)
            }
            RecoverAnswer::Fault => into.extend_from_slice(b"abort: file operation failed"),
            RecoverAnswer::Unfinished => into.extend_from_slice(b"abort: recovery unfinished"),
            RecoverAnswer::Memory => into.extend_from_slice(b"abort: out of memory"),
        }
    }
}

impl Recovered {
    /// The exit status.
    pub fn status(&self) -> u8
        ensures { result ≡ status_of self.now.outcome }
    {
        self.outcome.status()
    }

    /// Adds the text. Where there is no memory, a front of it may be added. Nothing is allocated but what `into` lacks of room.
    pub fn push(&self, into: &mut Vec<u8>) -> Result<(), AllocError>
        ensures { OnOk result (into.new.items ≡ into.old.items ++ recovered_text self.now) }
    {
        self.outcome.push_said(into)?;
        into.push(b'\n')?;
        if !self.swept {
            return into.extend_from_slice(b"leftover files remain\n");
        }
        Ok(())
    }

    /// Adds the text. Where there is no memory, nothing is added.
    pub fn print(&self, alloc: Global, into: &mut Vec<u8>) -> Result<(), AllocError>
        ensures ok { OnOk result (into.new.items ≡ into.old.items ++ recovered_text self.now) }
        ensures err { OnErr result (into.new.items ≡ into.old.items) }
    {
        let mut text = Vec::new(alloc);
        self.push(&mut text)?;
        into.extend_from_slice(&text)
    }
}
