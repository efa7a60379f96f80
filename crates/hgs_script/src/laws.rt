//! What the definitions of this crate imply. Each function is one law; none does anything.
ghost use Rattle.std.specs.Prelude.{◌≡◌, ◌≤◌, ◌<◌, ◌∷◌, ◌++◌, List, ℕ, Ok, Err, length};
ghost use Rattle.std.specs.List.{AllByRecursion};
ghost use Rattle.hgs_input.specs.Record.{Wording, most_input};
ghost use Rattle.hgs_input.specs.declared.fault.InputFault.TheVariants.{BadInput, Limit};
ghost use Rattle.hgs_index.specs.declared.kinds.Which.TheVariants.{FileText, Tree};
ghost use Rattle.hgs_script.specs.declared.script.Script.{Script};
ghost use Rattle.hgs_script.specs.Read.{Task, most_workers, read_script};
ghost use Rattle.hgs_script.specs.Script.{HaveRoom, IsScript, CanBeRun, CanBeTold, jobs_of_each, script_text};

use hgs_input::laws::{fronts_are_read_alike, records_stand_in_front, words_written_then_read};

/// Each front of a script is cut, and so refused at its length.
pub fn fronts_are_cut()
    ensures { (front more : List ℕ) (b : ℕ) (s : Script) → read_script (front ++ b ∷ more) ≡ Ok s → read_script front ≡ Err (BadInput (length front)) }
{
    records_stand_in_front();
    fronts_are_read_alike();
}

/// A fault that is not at the end of the input is that of each input that goes on, so only what stands before it decides.
/// So are the limits of a body and of the number of files.
pub fn faults_stay()
    ensures body { (front more : List ℕ) → read_script front ≡ Err (Limit FileText) → read_script (front ++ more) ≡ Err (Limit FileText) }
    ensures files { (front more : List ℕ) → read_script front ≡ Err (Limit Tree) → read_script (front ++ more) ≡ Err (Limit Tree) }
    ensures form { (front more : List ℕ) (at : ℕ) → at < length front → read_script front ≡ Err (BadInput at) → read_script (front ++ more) ≡ Err (BadInput at) }
{
    records_stand_in_front();
    fronts_are_read_alike();
}

/// An input that is longer than the limit is decided by its bytes up to the first past the limit.
pub fn long_inputs_are_decided()
    ensures { (front more : List ℕ) → most_input < length front → read_script (front ++ more) ≡ read_script front }
{}

/// What is read is a script, of these jobs.
pub fn read_scripts_are_scripts()
    ensures { (bytes : List ℕ) (s : Script) → read_script bytes ≡ Ok s → IsScript bytes s }
{
    records_stand_in_front();
}

/// Each script is read, as its jobs.
pub fn scripts_are_read()
    ensures { (bytes : List ℕ) (s : Script) → IsScript bytes s → read_script bytes ≡ Ok s }
{
    records_stand_in_front();
}

/// What is read can be run: there are as many workers and jobs as there may be, and each command can be given.
pub fn read_scripts_can_be_run()
    ensures { (bytes : List ℕ) (s : Script) → read_script bytes ≡ Ok s → CanBeRun s }
{
    read_scripts_are_scripts();
}

/// A script is read from its text again, in whatever order the jobs of different workers stand there, and however its
/// records are worded.
pub fn script_written_then_read()
    ensures { (says : Wording) (count : ℕ) (tasks : List Task) → 1 ≤ count → count ≤ most_workers → AllByRecursion (CanBeTold count) tasks → HaveRoom tasks → length (script_text says count tasks) ≤ most_input → read_script (script_text says count tasks) ≡ Ok (record { workers = jobs_of_each 0 count tasks }) }
{
    words_written_then_read();
    scripts_are_read();
}
