//! The commands about one changeset: `files`, `cat` and `phase`.
ghost use Rattle.std.specs.Prelude.{◌≡◌, ◌≤◌, ◌<◌, ◌++◌, length, slice_get, OnOk, OnErr, Err, true};
ghost use Rattle.hgs_files.specs.Reads.{Grows, Rose};
ghost use Rattle.hgs_files.specs.declared.streams.IoFault.TheVariants.{Failed};
ghost use Rattle.hgs_load.specs.declared.answer.ReadAnswer.TheVariants.{Fault};
ghost use Rattle.hgs_load.specs.Answer.{HasFaultCause};
ghost use Rattle.hgs_load.specs.Asks.{AddsAnswer};
ghost use Rattle.hgs_load.specs.Given.{TakesText};
ghost use Rattle.hgs_top.specs.Given.{contents_reads, ReadsOnly};
ghost use Rattle.hgs_top.specs.Outcome.{contents_asks, contents_reply, phase_text, subject_of};
ghost use Rattle.hgs_top.specs.Run.{OfTree, IsReplied};

use crate::log::write_last;
use crate::stopped::{Said, Stopped};
use hgs_files::files::Reads;
use hgs_files::streams::Sink;
use hgs_load::answer::ReadAnswer;
use hgs_reader::session::Session;
use std::alloc::{AllocError, Global};

/// What is asked of a changeset.
#[derive(Clone, Copy)]
pub enum About<'a> {
    /// A line for each of its files.
    Files,
    /// The body of the file with this path.
    Body(&'a [u8]),
    AtPhase,
}

// Adds the phase of a changeset. A refusal adds nothing.
fn add_phase(session: &Session, rev: u32, into: &mut Vec<u8>) -> Result<(), AllocError>
    requires { rev < length session.now.changelog.entries }
    ensures ok { OnOk result (into.new.items ≡ into.old.items ++ phase_text (slice_get session.now.phases rev)) }
    ensures err { OnErr result (into.new.items ≡ into.old.items) }
{
    let mut line = Vec::from_slice(*into.allocator(), session.phase(rev).name())?;
    line.push(b'\n')?;
    into.extend_from_slice(&line)
}

// Adds what is asked of a changeset. A refusal adds nothing.
fn add_contents<R: Reads>(
    session: &mut Session,
    files: &mut R,
    rev: u32,
    about: About<'_>,
    into: &mut Vec<u8>,
) -> Result<(), ReadAnswer>
    requires { rev < length session.old.changelog.entries }
    ensures answer { AddsAnswer (R.seen files.old) (R.start files.old) (R.seen files.new) (contents_asks session.old rev (subject_of about.entry)) into.old.items into.new.items result }
    ensures given { TakesText (R.given files.old) (R.given files.new) (R.seen files.old) (R.start files.old) (R.seen files.new) (contents_asks session.old rev (subject_of about.entry)) into.old.items into.new.items result }
    ensures seen { Grows (R.seen files.old) (R.seen files.new) }
    ensures same_start { R.start files.new ≡ R.start files.old }
    ensures still { R.alone ≡ true → R.seen files.new ≡ R.seen files.old }
    ensures cause { HasFaultCause (R.faults files.old) (R.faults files.new) (R.denied files.old) (R.denied files.new) result }
{
    match about {
        About::Files => session.files(files, rev, into),
        About::Body(path) => session.cat(files, rev, path, into),
        About::AtPhase => {
            add_phase(session, rev, into)?;
            Ok(())
        }
    }
}

/// Writes what is asked of the changeset that the name names.
pub fn write_contents<R: Reads, K: Sink>(
    alloc: Global,
    files: &mut R,
    name: &[u8],
    about: About<'_>,
    out: &mut K,
) -> Result<Said, Stopped>
    ensures told { R.alone ≡ true → OfTree (R.seen files.old) (R.start files.old) (λ t. IsReplied (contents_reply name.now (subject_of about.entry) t) (K.written out.old) (K.written out.new) result) }
    ensures given { ReadsOnly (R.given files.old) (R.given files.new) (R.seen files.old) (R.start files.old) (R.seen files.new) (contents_reads name.now (subject_of about.entry)) }
    ensures same_start { R.start files.new ≡ R.start files.old }
    ensures still { R.alone ≡ true → R.seen files.new ≡ R.seen files.old }
    ensures later { R.faults files.old ≤ R.faults files.new }
    ensures fault { result ≡ Err (Stopped.Refused Fault) → Rose (R.faults files.old) (R.faults files.new) }
    ensures later_sink { K.faults out.old ≤ K.faults out.new }
    ensures failed { result ≡ Err (Stopped.Unwritten Failed) → Rose (K.faults out.old) (K.faults out.new) }
{
    let mut session = match Session::open(alloc, files) {
        Ok(session) => session,
        Err(refusal) => return Err(Stopped::Refused(refusal)),
    };
    let rev = match session.resolve(name) {
        Some(rev) => rev,
        None => return Ok(Said::UnknownRevision),
    };
    let mut text: Vec<u8> = Vec::new(alloc);
    match add_contents(&mut session, files, rev, about, &mut text) {
        Ok(()) => {}
        Err(refusal) => return Err(Stopped::Refused(refusal)),
    }
    match write_last(out, &text) {
        Ok(()) => Ok(Said::Whole),
        Err(stopped) => Err(stopped),
    }
}
