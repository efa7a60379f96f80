//! What a command came to that changes files, and what is said of it.
ghost use Rattle.std.specs.Prelude.{◌≡◌, ◌++◌, OnOk};
ghost use Rattle.hgs_top.specs.Orders.{abort_line, ended_status, ended_text, record_fault_status, record_fault_text};

use hgs_answers::answer::Answer;
use hgs_files::files::FileFault;
use hgs_input::fault::InputFault;
use hgs_load::answer::{ReadAnswer, of_files};
use hgs_model::command::Command;
use hgs_plan::print::push_number;
use hgs_recover::answer::Recovered;
use std::alloc::{AllocError, Global};

/// What a command that changes files came to.
#[derive(Debug, Drop)]
pub enum Ended {
    /// A new repository stands.
    Made,
    /// A repository stands here already.
    Exists,
    /// No repository was made, since a call on the files failed or there was no memory.
    NotMade(FileFault),
    /// The input failed.
    NoInput,
    /// The input is no record of a changeset.
    NoRecord(InputFault),
    /// No repository of the profile stands here.
    Refused(ReadAnswer),
    /// What the writer answered to this command.
    Answered { command: Command, answer: Answer },
    /// What recovering came to.
    Recovered(Recovered),
}

fn push_record_fault(into: &mut Vec<u8>, fault: InputFault) -> Result<(), AllocError>
    ensures { OnOk result (into.new.items ≡ into.old.items ++ record_fault_text fault) }
{
    match fault {
        InputFault::BadInput(place) => {
            into.extend_from_slice(b"bad input at ")?;
            push_number(into, place)
        }
        InputFault::Limit(which) => {
            into.extend_from_slice(b"limit ")?;
            push_number(into, which.number() as u64)
        }
        InputFault::Memory => into.extend_from_slice(b"out of memory"),
    }
}

fn push_no_record(into: &mut Vec<u8>, fault: InputFault) -> Result<(), AllocError>
    ensures { OnOk result (into.new.items ≡ into.old.items ++ abort_line (record_fault_text fault)) }
{
    into.extend_from_slice(b"abort: ")?;
    push_record_fault(into, fault)?;
    into.push(b'\n')?;
    Ok(())
}

fn record_fault_status(fault: InputFault) -> u8
    ensures { result ≡ record_fault_status fault }
{
    match fault {
        InputFault::BadInput(_) => 14,
        InputFault::Limit(_) => 20,
        InputFault::Memory => 30,
    }
}

impl Ended {
    /// The exit status of a command that came to this.
    pub fn status(&self) -> u8
        ensures { result ≡ ended_status self.now }
    {
        match self {
            Ended::Made => 0,
            Ended::Exists => 25,
            Ended::NotMade(fault) => of_files(*fault).status(),
            Ended::NoInput => 18,
            Ended::NoRecord(fault) => record_fault_status(*fault),
            Ended::Refused(refusal) => refusal.status(),
            Ended::Answered { answer, .. } => answer.status(),
            Ended::Recovered(recovered) => recovered.status(),
        }
    }

    /// Adds what is said of it. Where there is no memory, a front of that may be added.
    pub fn print(&self, alloc: Global, into: &mut Vec<u8>) -> Result<(), AllocError>
        ensures { OnOk result (into.new.items ≡ into.old.items ++ ended_text self.now) }
    {
        match self {
            Ended::Made => Ok(()),
            Ended::Exists => into.extend_from_slice(b"abort: repository exists\n"),
            Ended::NotMade(fault) => of_files(*fault).print(alloc, into),
            Ended::NoInput => into.extend_from_slice(b"abort: input failed\n"),
            Ended::NoRecord(fault) => push_no_record(into, *fault),
            Ended::Refused(refusal) => refusal.print(alloc, into),
            Ended::Answered { command, answer } => answer.push(command, into),
            Ended::Recovered(recovered) => recovered.push(into),
        }
    }
}
