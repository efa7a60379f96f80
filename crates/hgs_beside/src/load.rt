//! The loads of such a session.
ghost use Rattle.std.specs.Prelude.{◌≡◌, List};
ghost use Rattle.hgs_bytes.specs.Bytes.{IsPrefixOf};
ghost use Rattle.hgs_files.specs.declared.op.Op.{Op};
ghost use Rattle.hgs_legal.specs.LegalLog.{IsLegal};
ghost use Rattle.hgs_headline.specs.WritersLog.{WritersLog, course_of};
ghost use Rattle.hgs_hub.specs.Reader.{seen_by, start_by, tally_by, ties_by};
ghost use Rattle.hgs_load.specs.Answer.{HasFaultCause};
ghost use Rattle.hgs_views.specs.Course.{OpensAlong};
ghost use Rattle.hgs_views.specs.Seen.{IsLoadedBetween, Numbers};
ghost use Rattle.hgs_beside.specs.Loads.{OpensBeside, RefreshesBeside};

use hgs_headline::laws::ends_beside_writers;
use hgs_hub::reader::HubReader;
use hgs_legal::protocol::HgProtocol;
use hgs_load::answer::ReadAnswer;
use hgs_reader::session::Session;
use std::alloc::Global;

/// Loads the repository. What the end has looked at then is a log that writers make, as what it looked at before; and over each
/// log that writers make and that begins so, the session is a view of the moments since the call began, none of them before
/// what the end was told. Within the limits damage is not answered, and a fault only where one was met.
pub fn open(alloc: Global, files: &mut HubReader<HgProtocol>) -> Result<Session, ReadAnswer>
    requires { ∥ IsLegal (start_by files.old) (seen_by files.old) ∥₁ }
    ensures legal { ∥ IsLegal (start_by files.new) (seen_by files.new) ∥₁ }
    ensures view { (h : WritersLog) → h.start ≡ start_by files.old → IsPrefixOf (seen_by files.new) h.log → OpensAlong (course_of h) (seen_by files.old) (seen_by files.new) → OpensBeside h (ties_by files.old).told (seen_by files.old) (seen_by files.new) result }
    ensures same_start { start_by files.new ≡ start_by files.old }
    ensures same_ties { ties_by files.new ≡ ties_by files.old }
    ensures cause { HasFaultCause (tally_by files.old).faults (tally_by files.new).faults (tally_by files.old).denied (tally_by files.new).denied result }
{
    ends_beside_writers();
    Session::open(alloc, files)
}

/// Loads again what may have changed. None of the four numbers of the session is less than it was.
pub fn refresh(session: &mut Session, files: &mut HubReader<HgProtocol>) -> Result<(), ReadAnswer>
    requires { ∥ IsLegal (start_by files.old) (seen_by files.old) ∥₁ }
    ensures legal { ∥ IsLegal (start_by files.new) (seen_by files.new) ∥₁ }
    ensures view { (h : WritersLog) (began ended : List Op) (v : Numbers) → h.start ≡ start_by files.old → IsPrefixOf (seen_by files.new) h.log → OpensAlong (course_of h) (seen_by files.old) (seen_by files.new) → IsLoadedBetween (course_of h) began ended v session.old → IsPrefixOf ended (seen_by files.old) → RefreshesBeside h (ties_by files.old).told (seen_by files.old) (seen_by files.new) v session.old session.new result }
    ensures same_start { start_by files.new ≡ start_by files.old }
    ensures same_ties { ties_by files.new ≡ ties_by files.old }
    ensures cause { HasFaultCause (tally_by files.old).faults (tally_by files.new).faults (tally_by files.old).denied (tally_by files.new).denied result }
{
    ends_beside_writers();
    session.refresh(files)
}
