//! The commands that list: `heads`, `bookmarks` and `parents`.
ghost use Rattle.std.specs.Prelude.{◌≡◌, ◌≤◌, ◌++◌, Err, true, OnOk, OnErr};
ghost use Rattle.hgs_files.specs.Reads.{Grows, Rose};
ghost use Rattle.hgs_files.specs.declared.streams.IoFault.TheVariants.{Failed};
ghost use Rattle.hgs_load.specs.declared.answer.ReadAnswer.TheVariants.{Fault};
ghost use Rattle.hgs_top.specs.Given.{listing_reads, ReadsOnly};
ghost use Rattle.hgs_top.specs.Outcome.{listing_outcome, listing_text};
ghost use Rattle.hgs_top.specs.Run.{OfTree, IsTold};

use crate::log::write_last;
use crate::stopped::Stopped;
use hgs_files::files::Reads;
use hgs_files::streams::Sink;
use hgs_load::answer::ReadAnswer;
use hgs_reader::session::Session;
use std::alloc::{AllocError, Global};

/// What is listed.
#[derive(Clone, Copy, Debug, PartialEq, Eq)]
pub enum Listing {
    /// The changesets without a child.
    Heads,
    Bookmarks,
    /// The working parents.
    Parents,
}

// Adds the lines of a listing, or nothing where there is no memory.
fn add_listing(session: &Session, listing: Listing, into: &mut Vec<u8>) -> Result<(), AllocError>
    ensures ok { OnOk result (into.new.items ≡ into.old.items ++ listing_text listing session.now) }
    ensures err { OnErr result (into.new.items ≡ into.old.items) }
{
    match listing {
        Listing::Heads => session.heads(into),
        Listing::Bookmarks => session.bookmarks(into),
        Listing::Parents => session.parents(into),
    }
}

/// Writes the lines of a listing.
pub fn write_listing<R: Reads, K: Sink>(
    alloc: Global,
    files: &mut R,
    listing: Listing,
    out: &mut K,
) -> Result<(), Stopped>
    ensures told { R.alone ≡ true → OfTree (R.seen files.old) (R.start files.old) (λ t. IsTold (listing_outcome listing t) (K.written out.old) (K.written out.new) result) }
    ensures given { ReadsOnly (R.given files.old) (R.given files.new) (R.seen files.old) (R.start files.old) (R.seen files.new) listing_reads }
    ensures seen { Grows (R.seen files.old) (R.seen files.new) }
    ensures same_start { R.start files.new ≡ R.start files.old }
    ensures still { R.alone ≡ true → R.seen files.new ≡ R.seen files.old }
    ensures later { R.faults files.old ≤ R.faults files.new }
    ensures fault { result ≡ Err (Stopped.Refused Fault) → Rose (R.faults files.old) (R.faults files.new) }
    ensures later_sink { K.faults out.old ≤ K.faults out.new }
    ensures failed { result ≡ Err (Stopped.Unwritten Failed) → Rose (K.faults out.old) (K.faults out.new) }
{
    let session = match Session::open(alloc, files) {
        Ok(session) => session,
        Err(refusal) => return Err(Stopped::Refused(refusal)),
    };
    let mut lines: Vec<u8> = Vec::new(alloc);
    match add_listing(&session, listing, &mut lines) {
        Ok(()) => write_last(out, &lines),
        Err(_) => Err(Stopped::Refused(ReadAnswer::Memory)),
    }
}
