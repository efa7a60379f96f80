//! Reading the branches of changesets.
ghost use Rattle.std.specs.Prelude.{◌≡◌, ◌<◌, ◌≤◌, ◌+◌, true, length, IfOk, IfErr};
ghost use Rattle.hgs_files.specs.Reads.{Grows};
ghost use Rattle.hgs_load.specs.Answer.{HasFaultCause, NeverFaults};
ghost use Rattle.hgs_load.specs.Given.{Takes};
ghost use Rattle.hgs_branches.specs.Read.{AreRead, IsRefused, IsMade, IsUnmade};
ghost use Rattle.hgs_branches.specs.Windows.{changes_asks, chunk_in, chunk_span};

use crate::window::Window;
use hgs_branch::changeset::OnBranch;
use hgs_branch::extras::branch_of;
use hgs_bytes::bytes::Bytes;
use hgs_files::files::Reads;
use hgs_load::answer::ReadAnswer;
use hgs_reader::session::Session;
use std::alloc::Global;

// A changeset by what was read of its chunk.
fn change_in(
    alloc: Global,
    session: &Session,
    window: &Window,
    rev: u32,
) -> Result<OnBranch, ReadAnswer>
    requires { rev < length session.now.changelog.entries }
    ensures made { IfOk result (λ c. IsMade session.now rev (chunk_in window.now (chunk_span session.now.changelog rev)) c) }
    ensures refused { IfErr result (λ e. IsUnmade session.now rev (chunk_in window.now (chunk_span session.now.changelog rev)) e) }
    ensures inner { NeverFaults result }
{
    let change = window.change(session, rev)?;
    let branch = branch_of(alloc, change.extras.as_slice())?;
    let entry = session.loaded().changelog().entry(rev);
    Ok(OnBranch {
        p1: entry.p1,
        p2: entry.p2,
        branch: Bytes::from_vec(branch),
    })
}

/// Reads changesets, one after another.
pub(crate) fn read_changes<R: Reads>(
    alloc: Global,
    session: &Session,
    files: &mut R,
    from: u32,
    upto: u32,
) -> Result<Vec<OnBranch>, ReadAnswer>
    requires order { from ≤ upto }
    requires there { upto ≤ length session.now.changelog.entries }
    ensures count { IfOk result (λ changes. from + length changes.items ≡ upto) }
    ensures read { IfOk result (λ changes. AreRead (R.seen files.old) (R.start files.old) (R.seen files.new) session.now from changes.items) }
    ensures refused { IfErr result (λ e. IsRefused (R.seen files.old) (R.start files.old) (R.seen files.new) session.now from upto e) }
    ensures given { Takes (λ changes. tt) (R.given files.old) (R.given files.new) (R.seen files.old) (R.start files.old) (R.seen files.new) (changes_asks session.now from upto) result }
    ensures seen { Grows (R.seen files.old) (R.seen files.new) }
    ensures same_start { R.start files.new ≡ R.start files.old }
    ensures still { R.alone ≡ true → R.seen files.new ≡ R.seen files.old }
    ensures cause { HasFaultCause (R.faults files.old) (R.faults files.new) (R.denied files.old) (R.denied files.new) result }
{
    let mut changes = Vec::new(alloc);
    let mut window = Window::before(from);
    for rev in from..upto {
        window = match window.hold(alloc, session, files, rev, upto) {
            Ok(window) => window,
            Err(refusal) => return Err(refusal),
        };
        let change = match change_in(alloc, session, &window, rev) {
            Ok(change) => change,
            Err(refusal) => return Err(refusal),
        };
        match changes.push(change) {
            Ok(()) => {}
            Err(_) => return Err(ReadAnswer::Memory),
        }
    }
    Ok(changes)
}
