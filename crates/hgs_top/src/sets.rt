//! The command `revset`.
ghost use Rattle.std.specs.Prelude.{◌≡◌, ◌≤◌, Err, true};
ghost use Rattle.hgs_files.specs.Reads.{Rose};
ghost use Rattle.hgs_files.specs.declared.streams.IoFault.TheVariants.{Failed};
ghost use Rattle.hgs_load.specs.declared.answer.ReadAnswer.TheVariants.{Fault};
ghost use Rattle.hgs_revset.specs.Members.{Set as Tree};
ghost use Rattle.hgs_revset.specs.Read.{read_set};
ghost use Rattle.hgs_top.specs.Given.{listing_reads, ReadsOnly};
ghost use Rattle.hgs_top.specs.Run.{IsReplied, OfSet, OfTree};
ghost use Rattle.hgs_top.specs.Sets.{set_of_load, set_reads, set_reply};

use crate::log::write_last;
use crate::stopped::{Said, Stopped};
use hgs_files::files::Reads;
use hgs_files::streams::Sink;
use hgs_load::answer::ReadAnswer;
use hgs_members::answer::SetAnswer;
use hgs_members::laws::parents_of_views_stand_before;
use hgs_members::text::text_of;
use hgs_reader::session::Session;
use hgs_revset::fault::SetFault;
use hgs_revset::set::Set;
use std::alloc::Global;

// Writes the lines of the members of a set.
fn write_members<R: Reads, K: Sink>(
    alloc: Global,
    files: &mut R,
    set: &Set,
    out: &mut K,
) -> Result<Said, Stopped>
    ensures told { R.alone ≡ true → OfTree (R.seen files.old) (R.start files.old) (λ t. IsReplied (set_reply (Ok set.now) t) (K.written out.old) (K.written out.new) result) }
    ensures given { ReadsOnly (R.given files.old) (R.given files.new) (R.seen files.old) (R.start files.old) (R.seen files.new) listing_reads }
    ensures same_start { R.start files.new ≡ R.start files.old }
    ensures still { R.alone ≡ true → R.seen files.new ≡ R.seen files.old }
    ensures later { R.faults files.old ≤ R.faults files.new }
    ensures fault { result ≡ Err (Stopped.Refused Fault) → Rose (R.faults files.old) (R.faults files.new) }
    ensures later_sink { K.faults out.old ≤ K.faults out.new }
    ensures failed { result ≡ Err (Stopped.Unwritten Failed) → Rose (K.faults out.old) (K.faults out.new) }
{
    parents_of_views_stand_before();
    let session = match Session::open(alloc, files) {
        Ok(session) => session,
        Err(refusal) => return Err(Stopped::Refused(refusal)),
    };
    let text = match text_of(alloc, set, &session) {
        Ok(text) => text,
        Err(SetAnswer::UnknownRevision) => return Ok(Said::UnknownRevision),
        Err(SetAnswer::Memory) => return Err(Stopped::Refused(ReadAnswer::Memory)),
    };
    match write_last(out, text.as_slice()) {
        Ok(()) => Ok(Said::Whole),
        Err(stopped) => Err(stopped),
    }
}

/// Writes a line for each member of the set with this text, ascending. A text that is no set is told before anything is read.
pub fn write_set<R: Reads, K: Sink>(
    alloc: Global,
    files: &mut R,
    text: &[u8],
    out: &mut K,
) -> Result<Said, Stopped>
    ensures told { R.alone ≡ true → OfSet (read_set text.now) (R.seen files.old) (R.start files.old) (λ reply. IsReplied reply (K.written out.old) (K.written out.new) result) }
    ensures given { ReadsOnly (R.given files.old) (R.given files.new) (R.seen files.old) (R.start files.old) (R.seen files.new) (set_reads (read_set text.now)) }
    ensures same_start { R.start files.new ≡ R.start files.old }
    ensures still { R.alone ≡ true → R.seen files.new ≡ R.seen files.old }
    ensures later { R.faults files.old ≤ R.faults files.new }
    ensures fault { result ≡ Err (Stopped.Refused Fault) → Rose (R.faults files.old) (R.faults files.new) }
    ensures later_sink { K.faults out.old ≤ K.faults out.new }
    ensures failed { result ≡ Err (Stopped.Unwritten Failed) → Rose (K.faults out.old) (K.faults out.new) }
{
    match Set::read(alloc, text) {
        Ok(set) => write_members(alloc, files, &set, out),
        Err(SetFault::Bad(place)) => Ok(Said::BadSet(place)),
        Err(SetFault::Memory) => Err(Stopped::Refused(ReadAnswer::Memory)),
    }
}
