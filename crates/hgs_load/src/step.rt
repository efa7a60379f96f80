//! One step of a load: a read, and what the machine makes of it.
ghost use Rattle.std.specs.Prelude.{◌≡◌, ◌<◌, ◌⊎◌, true, IfOk};
ghost use Rattle.std.specs.Option.{option_map};
ghost use Rattle.hgs_bytes.specs.Bytes.{IsPrefixOf};
ghost use Rattle.hgs_files.specs.Reads.{Grows};
ghost use Rattle.hgs_load.specs.Answer.{HasFaultCause};
ghost use Rattle.hgs_load.specs.Asks.{Answers};
ghost use Rattle.hgs_load.specs.Beyond.{IsShown, StepsBeyond, AnswersBeyond};
ghost use Rattle.hgs_load.specs.Given.{Takes, TakesStep};
ghost use Rattle.hgs_load.specs.Load.{asks_of, reads_left, Advances, HasEnded};
ghost use Rattle.hgs_load.specs.Open.{open_asks};
ghost use Rattle.hgs_load.specs.Refresh.{refresh_asks, GivenFew};

use crate::answer::ReadAnswer;
use crate::ask::read_part;
use crate::load::{LoadMachine, LoadNext};
use crate::loaded::Loaded;
use hgs_bytes::bytes::Bytes;
use hgs_files::files::Reads;
use std::alloc::Global;

// What a read gave, as a slice.
fn slice_of(part: &Option<Bytes>) -> Option<&[u8]>
    ensures { option_map (λ p. p.now) result ≡ part.now }
{
    match part {
        Some(bytes) => Some(bytes.as_slice()),
        None => None,
    }
}

/// Makes the next read of a load. False where it has ended.
pub fn feed_next<R: Reads>(
    alloc: Global,
    files: &mut R,
    machine: &mut LoadMachine,
) -> Result<bool, ReadAnswer>
    ensures asked { Advances (R.seen files.old) (R.start files.old) (R.seen files.new) (asks_of machine.old) (asks_of machine.new) result }
    ensures given { TakesStep (R.given files.old) (R.given files.new) (R.seen files.old) (R.start files.old) (R.seen files.new) (asks_of machine.old) (asks_of machine.new) result }
    ensures fewer { result ≡ Ok true → reads_left machine.new < reads_left machine.old }
    ensures seen { Grows (R.seen files.old) (R.seen files.new) }
    ensures same_start { R.start files.new ≡ R.start files.old }
    ensures still { R.alone ≡ true → R.seen files.new ≡ R.seen files.old }
    ensures same_ties { R.ties files.new ≡ R.ties files.old }
    ensures shown { IsShown R.shows (R.start files.old) (R.seen files.old) → IsShown R.shows (R.start files.new) (R.seen files.new) }
    ensures beyond { StepsBeyond (R.ties files.old).told (R.start files.old) (R.seen files.new) (asks_of machine.old) (asks_of machine.new) result }
    ensures cause { HasFaultCause (R.faults files.old) (R.faults files.new) (R.denied files.old) (R.denied files.new) result }
{
    let LoadNext::Read { path, from, most } = machine.next() else {
        return Ok(false);
    };
    let part = read_part(alloc, files, path, from, most)?;
    match machine.feed(slice_of(&part)) {
        Ok(()) => Ok(true),
        Err(refusal) => Err(refusal),
    }
}

/// Makes the reads of a load to its end.
pub fn load_with<R: Reads>(
    alloc: Global,
    files: &mut R,
    load: LoadMachine,
) -> Result<Loaded, ReadAnswer>
    ensures answer { Answers (λ loaded. loaded) (R.seen files.old) (R.start files.old) (R.seen files.new) (asks_of load) result }
    ensures given { Takes (λ loaded. loaded) (R.given files.old) (R.given files.new) (R.seen files.old) (R.start files.old) (R.seen files.new) (asks_of load) result }
    ensures seen { Grows (R.seen files.old) (R.seen files.new) }
    ensures same_start { R.start files.new ≡ R.start files.old }
    ensures still { R.alone ≡ true → R.seen files.new ≡ R.seen files.old }
    ensures same_ties { R.ties files.new ≡ R.ties files.old }
    ensures shown { IsShown R.shows (R.start files.old) (R.seen files.old) → IsShown R.shows (R.start files.new) (R.seen files.new) }
    ensures beyond { HasEnded (asks_of load) ⊎ AnswersBeyond (λ loaded. loaded) (R.ties files.old).told (R.seen files.old) (R.start files.old) (R.seen files.new) (asks_of load) result }
    ensures cause { HasFaultCause (R.faults files.old) (R.faults files.new) (R.denied files.old) (R.denied files.new) result }
{
    let mut machine = load;
    loop {
        match feed_next(alloc, files, &mut machine) {
            Ok(true) => {}
            Ok(false) => return Ok(machine.take()),
            Err(refusal) => return Err(refusal),
        }
    }
}

/// Loads the repository that the files hold, which others may change meanwhile.
pub fn load<R: Reads>(alloc: Global, files: &mut R) -> Result<Loaded, ReadAnswer>
    ensures answer { Answers (λ loaded. loaded) (R.seen files.old) (R.start files.old) (R.seen files.new) open_asks result }
    ensures given { Takes (λ loaded. loaded) (R.given files.old) (R.given files.new) (R.seen files.old) (R.start files.old) (R.seen files.new) open_asks result }
    ensures seen { Grows (R.seen files.old) (R.seen files.new) }
    ensures same_start { R.start files.new ≡ R.start files.old }
    ensures still { R.alone ≡ true → R.seen files.new ≡ R.seen files.old }
    ensures same_ties { R.ties files.new ≡ R.ties files.old }
    ensures shown { IsShown R.shows (R.start files.old) (R.seen files.old) → IsShown R.shows (R.start files.new) (R.seen files.new) }
    ensures beyond { AnswersBeyond (λ loaded. loaded) (R.ties files.old).told (R.seen files.old) (R.start files.old) (R.seen files.new) open_asks result }
    ensures cause { HasFaultCause (R.faults files.old) (R.faults files.new) (R.denied files.old) (R.denied files.new) result }
{
    let machine = LoadMachine::open(alloc)?;
    load_with(alloc, files, machine)
}

/// Loads again what may have changed since, which is all but `requires`, and of the changelog's index what stands from the
/// last old entry on. It is damage of the changelog where the history does
/// not begin with the old one.
pub fn load_again<R: Reads>(
    alloc: Global,
    files: &mut R,
    old: &Loaded,
) -> Result<Loaded, ReadAnswer>
    ensures answer { Answers (λ loaded. loaded) (R.seen files.old) (R.start files.old) (R.seen files.new) (refresh_asks old.now) result }
    ensures given { Takes (λ loaded. loaded) (R.given files.old) (R.given files.new) (R.seen files.old) (R.start files.old) (R.seen files.new) (refresh_asks old.now) result }
    ensures front { IfOk result (λ loaded. IsPrefixOf old.now.changelog.entries loaded.changelog.entries) }
    ensures few { IfOk result (λ loaded. GivenFew R.alone (R.given files.old) (R.given files.new) (R.seen files.old) (R.start files.old) old.now loaded) }
    ensures seen { Grows (R.seen files.old) (R.seen files.new) }
    ensures same_start { R.start files.new ≡ R.start files.old }
    ensures still { R.alone ≡ true → R.seen files.new ≡ R.seen files.old }
    ensures same_ties { R.ties files.new ≡ R.ties files.old }
    ensures shown { IsShown R.shows (R.start files.old) (R.seen files.old) → IsShown R.shows (R.start files.new) (R.seen files.new) }
    ensures beyond { AnswersBeyond (λ loaded. loaded) (R.ties files.old).told (R.seen files.old) (R.start files.old) (R.seen files.new) (refresh_asks old.now) result }
    ensures cause { HasFaultCause (R.faults files.old) (R.faults files.new) (R.denied files.old) (R.denied files.new) result }
{
    let machine = LoadMachine::refresh(alloc, old)?;
    load_with(alloc, files, machine)
}
