//! What the definitions of this crate imply. Each function is one law; none does anything.
ghost use Rattle.std.specs.Prelude.{◌≡◌, ◌≤◌, ◌<◌, ◌∷◌, ◌++◌, List, ℕ, Ok, Err, length};
ghost use Rattle.std.specs.List.{AllByRecursion};
ghost use Rattle.hgs_input.specs.Record.{Wording, most_input};
ghost use Rattle.hgs_input.specs.declared.fault.InputFault.TheVariants.{BadInput, Limit};
ghost use Rattle.hgs_index.specs.declared.kinds.Which.TheVariants.{FileText, Tree};
ghost use Rattle.hgs_schedule.specs.declared.event.Schedule.{Schedule};
ghost use Rattle.hgs_schedule.specs.Read.{read_schedule};
ghost use Rattle.hgs_schedule.specs.Schedule.{IsSchedule, CanBePlayed, CanBeWritten, schedule_text};

use hgs_input::laws::{
    fronts_are_read_alike, imports_are_read_alike, imports_stand_in_front, records_stand_in_front,
    words_written_then_read,
};

/// Each front of a schedule is cut, and so refused at its length.
pub fn fronts_are_cut()
    ensures { (front more : List ℕ) (b : ℕ) (s : Schedule) → read_schedule (front ++ b ∷ more) ≡ Ok s → read_schedule front ≡ Err (BadInput (length front)) }
{
    records_stand_in_front();
    fronts_are_read_alike();
    imports_stand_in_front();
    imports_are_read_alike();
}

/// A fault that is not at the end of the input is that of each input that goes on, so only what stands before it decides.
/// So are the limits of a body and of the number of files.
pub fn faults_stay()
    ensures body { (front more : List ℕ) → read_schedule front ≡ Err (Limit FileText) → read_schedule (front ++ more) ≡ Err (Limit FileText) }
    ensures files { (front more : List ℕ) → read_schedule front ≡ Err (Limit Tree) → read_schedule (front ++ more) ≡ Err (Limit Tree) }
    ensures form { (front more : List ℕ) (at : ℕ) → at < length front → read_schedule front ≡ Err (BadInput at) → read_schedule (front ++ more) ≡ Err (BadInput at) }
{
    records_stand_in_front();
    fronts_are_read_alike();
    imports_stand_in_front();
    imports_are_read_alike();
}

/// An input that is longer than the limit is decided by its bytes up to the first past the limit.
pub fn long_inputs_are_decided()
    ensures { (front more : List ℕ) → most_input < length front → read_schedule (front ++ more) ≡ read_schedule front }
{}

/// What is read is a schedule, of these readers and these events.
pub fn read_schedules_are_schedules()
    ensures { (bytes : List ℕ) (s : Schedule) → read_schedule bytes ≡ Ok s → IsSchedule bytes s }
{
    records_stand_in_front();
    imports_stand_in_front();
}

/// Each schedule is read, as its readers and its events.
pub fn schedules_are_read()
    ensures { (bytes : List ℕ) (s : Schedule) → IsSchedule bytes s → read_schedule bytes ≡ Ok s }
{
    records_stand_in_front();
    imports_stand_in_front();
}

/// What is read can be played: each reader is there, each part of an operation has a byte, each command can be given.
pub fn read_schedules_can_be_played()
    ensures { (bytes : List ℕ) (s : Schedule) → read_schedule bytes ≡ Ok s → CanBePlayed s }
{
    read_schedules_are_schedules();
    imports_stand_in_front();
}

/// A schedule is read from its text again, however its records are worded.
pub fn schedule_written_then_read()
    ensures { (says : Wording) (s : Schedule) → CanBePlayed s → AllByRecursion CanBeWritten s.events → length (schedule_text says s) ≤ most_input → read_schedule (schedule_text says s) ≡ Ok s }
{
    words_written_then_read();
    imports_stand_in_front();
    schedules_are_read();
}
