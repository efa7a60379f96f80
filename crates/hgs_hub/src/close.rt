//! How reading ends end.
ghost use Rattle.std.specs.Prelude.{◌≡◌, true};
ghost use Rattle.hgs_files.specs.Ends.{total_of};
ghost use Rattle.hgs_files.specs.Reads.{counted};
ghost use Rattle.hgs_hub.specs.New.{AllAt, AllWithin, IsWithin, mark_of, marks_of};
ghost use Rattle.hgs_hub.specs.Told.{front_log};

use crate::front::Front;
use crate::reader::HubReader;
use hgs_files::protocol::Protocol;

/// Whether what each of several reading ends saw and was told is known to begin the log, and what they counted together.
#[derive(Clone, Copy)]
pub(crate) struct Settled {
    pub(crate) fine: bool,
    pub(crate) faults: u64,
    pub(crate) denied: u64,
}

/// Has a reading end enter once more, and adds its counts.
fn settle_one<P: Protocol>(front: &Front, settled: Settled, reader: &mut HubReader<P>) -> Settled
    requires home { reader.old.best.sure.book ≡ front.now.sure.book }
    ensures same { mark_of reader.new ≡ mark_of reader.old }
    ensures fine { result.fine ≡ true → settled.fine ≡ true }
    ensures within { result.fine ≡ true → IsWithin (front_log front.now) reader.old }
    ensures faults { result.faults ≡ counted settled.faults reader.old.tally.faults }
    ensures denied { result.denied ≡ counted settled.denied reader.old.tally.denied }
{
    let within = reader.ends_within(front);
    Settled {
        fine: settled.fine && within,
        faults: settled.faults.saturating_add(reader.faults_so_far()),
        denied: settled.denied.saturating_add(reader.denied_so_far()),
    }
}

/// Has each reading end enter once more, and gathers the counts.
pub(crate) fn settle<P: Protocol>(front: &Front, rs: &mut Vec<HubReader<P>>) -> Settled
    requires { AllAt front.now.sure.book rs.old.items }
    ensures same { marks_of rs.new.items ≡ marks_of rs.old.items }
    ensures within { result.fine ≡ true → AllWithin (front_log front.now) rs.old.items }
    ensures faults { result.faults ≡ total_of (λ r. r.tally.faults) rs.old.items }
    ensures denied { result.denied ≡ total_of (λ r. r.tally.denied) rs.old.items }
{
    let mut settled = Settled {
        fine: true,
        faults: 0,
        denied: 0,
    };
    for r in rs.iter_mut() {
        settled = settle_one(front, settled, r);
    }
    settled
}
