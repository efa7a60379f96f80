//! The command `branches`.
ghost use Rattle.std.specs.Prelude.{◌≡◌, ◌<◌, ◌≤◌, ◌++◌, Err, [], true, length, OnOk, OnErr, IfErr};
ghost use Rattle.hgs_files.specs.Reads.{Grows, Rose};
ghost use Rattle.hgs_files.specs.declared.streams.IoFault.TheVariants.{Failed};
ghost use Rattle.hgs_load.specs.Answer.{HasFaultCause};
ghost use Rattle.hgs_load.specs.declared.answer.ReadAnswer.TheVariants.{Fault};
ghost use Rattle.hgs_load.specs.Given.{Takes};
ghost use Rattle.hgs_top.specs.Branches.{all_asks, branches_outcome, branches_reads, next_upto, TakesAll};
ghost use Rattle.hgs_top.specs.Given.{ReadsOnly};
ghost use Rattle.hgs_top.specs.Run.{IsTold, OfTree};

use crate::log::write_last;
use crate::stopped::Stopped;
use hgs_branches::branches::Branches;
use hgs_files::files::Reads;
use hgs_files::streams::Sink;
use hgs_load::answer::ReadAnswer;
use hgs_members::laws::parents_of_views_stand_before;
use hgs_reader::session::Session;
use std::alloc::Global;

// The number up to which changesets are taken next, behind so many.
fn next_upto(steps: Option<u32>, count: u32, taken: u32) -> u32
    requires { taken < count }
    ensures is { result ≡ next_upto steps count taken }
    ensures more { taken < result }
    ensures within { result ≤ count }
{
    match steps {
        None => count,
        Some(steps) => {
            let step = if steps == 0 { 1 } else { steps };
            if step < count - taken {
                taken + step
            } else {
                count
            }
        }
    }
}

// Takes all changesets of a session, so many at a time.
fn take_all<R: Reads>(
    branches: &mut Branches,
    session: &Session,
    files: &mut R,
    steps: Option<u32>,
) -> Result<(), ReadAnswer>
    requires { branches.old ≡ record { parents = []; names = [] } }
    ensures taken { R.alone ≡ true → OfTree (R.seen files.old) (R.start files.old) (λ t. TakesAll t session.now branches.new result) }
    ensures given { Takes (λ _. tt) (R.given files.old) (R.given files.new) (R.seen files.old) (R.start files.old) (R.seen files.new) (all_asks steps session.now) result }
    ensures seen { Grows (R.seen files.old) (R.seen files.new) }
    ensures same_start { R.start files.new ≡ R.start files.old }
    ensures still { R.alone ≡ true → R.seen files.new ≡ R.seen files.old }
    ensures cause { HasFaultCause (R.faults files.old) (R.faults files.new) (R.denied files.old) (R.denied files.new) result }
{
    let count = session.len();
    let mut taken = 0;
    while taken < count {
        let upto = next_upto(steps, count, taken);
        match branches.advance(session, files, upto) {
            Ok(()) => {}
            Err(refusal) => return Err(refusal),
        }
        taken = upto;
    }
    Ok(())
}

/// Writes a line for each head of each branch, by branch in the order of bytes, then by revision. The changesets are taken so
/// many at a time, all at once without a number. Nothing is written where one of them can't be read.
pub fn write_branches<R: Reads, K: Sink>(
    alloc: Global,
    files: &mut R,
    steps: Option<u32>,
    out: &mut K,
) -> Result<(), Stopped>
    ensures told { R.alone ≡ true → OfTree (R.seen files.old) (R.start files.old) (λ t. IsTold (branches_outcome t) (K.written out.old) (K.written out.new) result) }
    ensures given { ReadsOnly (R.given files.old) (R.given files.new) (R.seen files.old) (R.start files.old) (R.seen files.new) (branches_reads steps) }
    ensures seen { Grows (R.seen files.old) (R.seen files.new) }
    ensures same_start { R.start files.new ≡ R.start files.old }
    ensures still { R.alone ≡ true → R.seen files.new ≡ R.seen files.old }
    ensures later { R.faults files.old ≤ R.faults files.new }
    ensures fault { result ≡ Err (Stopped.Refused Fault) → Rose (R.faults files.old) (R.faults files.new) }
    ensures later_sink { K.faults out.old ≤ K.faults out.new }
    ensures failed { result ≡ Err (Stopped.Unwritten Failed) → Rose (K.faults out.old) (K.faults out.new) }
{
    parents_of_views_stand_before();
    let session = match Session::open(alloc, files) {
        Ok(session) => session,
        Err(refusal) => return Err(Stopped::Refused(refusal)),
    };
    let mut branches = Branches::new(alloc);
    match take_all(&mut branches, &session, files, steps) {
        Ok(()) => {}
        Err(refusal) => return Err(Stopped::Refused(refusal)),
    }
    let mut lines: Vec<u8> = Vec::new(alloc);
    match branches.print(&session, &mut lines) {
        Ok(()) => write_last(out, &lines),
        Err(_) => Err(Stopped::Refused(ReadAnswer::Memory)),
    }
}
