//! The command `log`.
ghost use Rattle.std.specs.Prelude.{◌≡◌, ◌≤◌, Err, true, List, ℕ, length, [], ◌++◌, OnOk, OnErr, IfErr, IsErr, IsErrOf};
ghost use Rattle.hgs_files.specs.Streams.{IsWritten};
ghost use Rattle.hgs_files.specs.Reads.{Grows, Rose};
ghost use Rattle.hgs_files.specs.declared.streams.IoFault.TheVariants.{Failed};
ghost use Rattle.hgs_load.specs.declared.answer.ReadAnswer.TheVariants.{Fault};
ghost use Rattle.hgs_top.specs.Given.{log_reads, ReadsOnly};
ghost use Rattle.hgs_top.specs.Outcome.{log_outcome, lines_of_view};
ghost use Rattle.hgs_top.specs.Run.{OfTree, IsTold, IsCut, IsGathered, IsUnwritten, StopsAt};
ghost use Rattle.hgs_top.specs.Windows.{lines_reads};

use crate::output::write_all;
use crate::stopped::Stopped;
use crate::window::Window;
use hgs_files::files::Reads;
use hgs_files::streams::{IoFault, Sink};
use hgs_load::answer::ReadAnswer;
use hgs_reader::session::Session;
use std::alloc::Global;

/// Lines are written once so many bytes of them stand together.
const LARGE: usize = 65_536;

// Writes what was gathered, once there is much of it.
fn write_large<K: Sink>(out: &mut K, gathered: &mut Vec<u8>) -> Result<(), IoFault>
    ensures ok { OnOk result ((done : List ℕ) × IsWritten (K.written out.old) (K.written out.new) done × (done ++ gathered.new.items ≡ gathered.old.items)) }
    ensures err { OnErr result (IsCut (K.written out.old) (K.written out.new) gathered.old.items) }
    ensures later { K.faults out.old ≤ K.faults out.new }
    ensures failed { IsErrOf result Failed → Rose (K.faults out.old) (K.faults out.new) }
{
    if gathered.len() < LARGE {
        return Ok(());
    }
    match write_all(out, gathered) {
        Ok(()) => {
            gathered.clear();
            Ok(())
        }
        Err(fault) => Err(fault),
    }
}

// Gathers the lines of the changesets, newest first, and writes them where many stand together.
fn gather_lines<R: Reads, K: Sink>(
    alloc: Global,
    session: &Session,
    files: &mut R,
    out: &mut K,
    gathered: &mut Vec<u8>,
) -> Result<(), Stopped>
    requires { gathered.old.items ≡ [] }
    ensures gathered { R.alone ≡ true → OfTree (R.seen files.old) (R.start files.old) (λ t. IsGathered (lines_of_view t session.now) (K.written out.old) (K.written out.new) gathered.new.items result) }
    ensures given { ReadsOnly (R.given files.old) (R.given files.new) (R.seen files.old) (R.start files.old) (R.seen files.new) (lines_reads session.now (length session.now.changelog.entries)) }
    ensures seen { Grows (R.seen files.old) (R.seen files.new) }
    ensures same_start { R.start files.new ≡ R.start files.old }
    ensures still { R.alone ≡ true → R.seen files.new ≡ R.seen files.old }
    ensures later { R.faults files.old ≤ R.faults files.new }
    ensures fault { result ≡ Err (Stopped.Refused Fault) → Rose (R.faults files.old) (R.faults files.new) }
    ensures later_sink { K.faults out.old ≤ K.faults out.new }
    ensures failed { result ≡ Err (Stopped.Unwritten Failed) → Rose (K.faults out.old) (K.faults out.new) }
{
    let mut window = Window::empty();
    let mut left = session.len();
    while left > 0 {
        left -= 1;
        window = match window.hold(alloc, session, files, left) {
            Ok(window) => window,
            Err(refusal) => return Err(Stopped::Refused(refusal)),
        };
        match window.add_line(session, left, gathered) {
            Ok(()) => {}
            Err(refusal) => return Err(Stopped::Refused(refusal)),
        }
        match write_large(out, gathered) {
            Ok(()) => {}
            Err(fault) => return Err(Stopped::Unwritten(fault)),
        }
    }
    Ok(())
}

// Writes what was gathered up to the end.
pub(crate) fn write_last<K: Sink>(out: &mut K, gathered: &[u8]) -> Result<(), Stopped>
    ensures ok { OnOk result (IsWritten (K.written out.old) (K.written out.new) gathered.now) }
    ensures err { IfErr result (λ e. IsUnwritten e × IsCut (K.written out.old) (K.written out.new) gathered.now) }
    ensures later { K.faults out.old ≤ K.faults out.new }
    ensures failed { result ≡ Err (Stopped.Unwritten Failed) → Rose (K.faults out.old) (K.faults out.new) }
{
    match write_all(out, gathered) {
        Ok(()) => Ok(()),
        Err(fault) => Err(Stopped::Unwritten(fault)),
    }
}

// Writes what was gathered up to a refusal, which it answers, unless the sink takes no more.
fn write_before<K: Sink>(out: &mut K, gathered: &[u8], refusal: ReadAnswer) -> Result<(), Stopped>
    ensures stopped { IfErr result (λ e. StopsAt e refusal (K.written out.old) (K.written out.new) gathered.now) }
    ensures never { IsErr result }
    ensures later { K.faults out.old ≤ K.faults out.new }
    ensures failed { result ≡ Err (Stopped.Unwritten Failed) → Rose (K.faults out.old) (K.faults out.new) }
{
    match write_all(out, gathered) {
        Ok(()) => Err(Stopped::Refused(refusal)),
        Err(fault) => Err(Stopped::Unwritten(fault)),
    }
}

/// Writes the line of each changeset, newest first, up to the first that can't be read. The lines before that are written.
pub fn write_log<R: Reads, K: Sink>(
    alloc: Global,
    files: &mut R,
    out: &mut K,
) -> Result<(), Stopped>
    ensures told { R.alone ≡ true → OfTree (R.seen files.old) (R.start files.old) (λ t. IsTold (log_outcome t) (K.written out.old) (K.written out.new) result) }
    ensures given { ReadsOnly (R.given files.old) (R.given files.new) (R.seen files.old) (R.start files.old) (R.seen files.new) log_reads }
    ensures seen { Grows (R.seen files.old) (R.seen files.new) }
    ensures same_start { R.start files.new ≡ R.start files.old }
    ensures still { R.alone ≡ true → R.seen files.new ≡ R.seen files.old }
    ensures later { R.faults files.old ≤ R.faults files.new }
    ensures fault { result ≡ Err (Stopped.Refused Fault) → Rose (R.faults files.old) (R.faults files.new) }
    ensures later_sink { K.faults out.old ≤ K.faults out.new }
    ensures failed { result ≡ Err (Stopped.Unwritten Failed) → Rose (K.faults out.old) (K.faults out.new) }
{
    let session = match Session::open(alloc, files) {
        Ok(session) => session,
        Err(refusal) => return Err(Stopped::Refused(refusal)),
    };
    let mut gathered: Vec<u8> = Vec::new(alloc);
    match gather_lines(alloc, &session, files, out, &mut gathered) {
        Ok(()) => write_last(out, &gathered),
        Err(Stopped::Refused(refusal)) => write_before(out, &gathered, refusal),
        Err(Stopped::Unwritten(fault)) => Err(Stopped::Unwritten(fault)),
    }
}
