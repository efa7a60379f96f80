//! The reading ends.
ghost use Rattle.std.specs.Prelude.{◌≡◌, ◌≤◌, [], Some, None, IfSome, IfOk, OnErr, is_some, true, take, length};
ghost use Rattle.std.specs.Arc.{arc_value};
ghost use mathlib.Core.List.{IsPrefix};
ghost use Rattle.hgs_files.specs.Reads.{ReadsPart, IsSizeOf};
ghost use Rattle.hgs_files.specs.Reads.{Covers};
ghost use Rattle.hgs_files.specs.Tree.{after_all};
ghost use Rattle.left_right.specs.Sides.{view};
ghost use Rattle.hgs_hub.specs.Home.{home_of};
ghost use Rattle.hgs_hub.specs.Book.{last_log};
ghost use Rattle.hgs_hub.specs.Rule.{home_from, tree_at};
ghost use Rattle.hgs_hub.specs.Told.{front_log, fronts_of, lists_of};
ghost use Rattle.hgs_hub.specs.Looks.{Moves, Looked, LooksAtMoment};

use crate::book::Token;
use crate::front::Front;
use crate::moment::Moment;
use crate::rule::{Law, Sees, Shown, View};
use crate::told::Heard;
use core::mem::replace_with;
use hgs_files::ends::Follows;
use hgs_files::files::{FileFault, Reads};
use hgs_files::path::StorePath;
use hgs_files::protocol::Protocol;
use hgs_mem::contents;
use hgs_mem::tally::Tally;
use left_right::reader::Reader;
use std::alloc::AllocError;
use std::snapshot::Snapshot;
use std::sync::Arc;

pub type Inside<P> = Reader<Shown, View, Law<P>>;

/// Adds to `into` the part of a file from a place, at most so many bytes of it, and answers how many.
pub(crate) fn read_at(
    moment: &Moment,
    path: &StorePath,
    from: u64,
    most: u64,
    into: &mut Vec<u8>,
) -> Result<Option<u64>, AllocError>
    ensures ok { IfOk result (λ part. ReadsPart (after_all moment.now.log.value.items (tree_at moment.now.first.value) path.now) from most into.old.items into.new.items part) }
    ensures same { IfOk result (λ part. part ≡ None → into.new.items ≡ into.old.items) }
    ensures most { IfOk result (λ part. IfSome part (λ k. k ≤ most)) }
    ensures err { OnErr result (into.new.items ≡ into.old.items) }
{
    contents::read_at(&moment.files, path, from, most, into)
}

/// The length of a file.
pub(crate) fn size_at(moment: &Moment, path: &StorePath) -> Option<u64>
    ensures { IsSizeOf (after_all moment.now.log.value.items (tree_at moment.now.first.value) path.now) result }
{
    contents::size_of(&moment.files, path)
}

/// Enters, and takes the files as they are. One step: they are those of one moment.
fn look_in<P: Protocol>(reader: Inside<P>, _nothing: ()) -> (Inside<P>, Option<Arc<Moment>>)
    requires { is_some (view reader.place).first ≡ true }
    ensures moves { Moves (view reader.place) (view result.0.place) }
    ensures some { IfSome result.1 (λ m. Looked P.legal (view reader.place) (arc_value m) (view result.0.place)) }
{
    match reader.enter_as::<Sees<P>>() {
        Ok(reading) => {
            let now = Arc::try_clone(&reading.get().now);
            (reading.leave(), now.ok())
        }
        Err(reader) => (reader, None),
    }
}

/// What two tokens of one book say of each other: no step is made.
fn compare(front: &Front, seen: &Token)
    requires { seen.now.book ≡ front.now.sure.book }
    ensures reaches { length front.now.shown.log ≤ length seen.now.log → IsPrefix (front_log front.now) (last_log [] seen.now.log) }
    ensures same { length front.now.shown.log ≡ length seen.now.log → front_log front.now ≡ last_log [] seen.now.log }
{
    let mut all = front.sure.again();
    all.learn(&front.shown);
    all.learn(seen);
}

/// Whether a moment goes on from a front. In no run it does not, where the front was told before the look.
fn goes_on(front: &Front, moment: &Moment) -> bool
    requires { moment.now.seen.book ≡ front.now.sure.book }
    ensures { result ≡ true → IsPrefix (front_log front.now) moment.now.log.value.items }
{
    compare(front, &moment.seen);
    front.number <= moment.number
}

/// Whether a moment is that of a front.
fn is_at(front: &Front, moment: &Moment) -> bool
    requires { moment.now.seen.book ≡ front.now.sure.book }
    ensures { result ≡ true → front_log front.now ≡ moment.now.log.value.items }
{
    compare(front, &moment.seen);
    front.number == moment.number
}

/// The later one of two fronts, which goes on from both.
fn later(old: &Front, new: Front) -> Front
    requires { new.sure.book ≡ old.now.sure.book }
    ensures home { result.sure.book ≡ old.now.sure.book }
    ensures old { IsPrefix (front_log old.now) (front_log result) }
    ensures new { IsPrefix (front_log new) (front_log result) }
{
    compare(old, &new.shown);
    compare(&new, &old.shown);
    if old.number <= new.number {
        new
    } else {
        old.again()
    }
}

/// A reading end. Each call looks at the files in one step, and waits for nobody.
#[derive(Drop)]
pub struct HubReader<P: Protocol> {
    reader: Inside<P>,
    last: Snapshot<Moment>,
    best: Front,
    told: Heard,
    tally: Tally,
    ghost met: { is_some (view reader.place).first ≡ true },
    ghost home: { home_from (view reader.place).first ≡ home_of best.sure.book },
    ghost begins: { take (length last.value.log.value.items) (view reader.place).seen ≡ last.value.log.value.items },
    ghost covers: { fronts_of (front_log best) (lists_of told) ≡ lists_of told },
}

impl<P: Protocol> HubReader<P> {
    /// A reading end that a new reader makes which knows where all began.
    pub(crate) fn begin(reader: Inside<P>, front: Front, moment: &Moment) -> HubReader<P>
        requires home { home_from (view reader.place).first ≡ home_of front.sure.book }
        requires met { is_some (view reader.place).first ≡ true }
        requires empty { moment.now.log.value.items ≡ [] }
        ensures seen { result.last.value.log.value.items ≡ [] }
        ensures told { lists_of result.told ≡ [] }
        ensures first { (view result.reader.place).first ≡ (view reader.place).first }
        ensures home { result.best.sure.book ≡ front.sure.book }
        ensures tally { (result.tally.faults ≡ 0) × (result.tally.denied ≡ 0) }
    {
        HubReader {
            reader,
            last: Snapshot::of(moment),
            best: front,
            told: Heard::none(),
            tally: Tally::new(),
        }
    }

    /// Whether what it saw and was told begins the log of its writing end. It enters once more, and cannot tell where
    /// `left_right` refuses that.
    pub(crate) fn ends_within(&mut self, front: &Front) -> bool
        requires { front.now.sure.book ≡ self.old.best.sure.book }
        ensures within { result ≡ true → IsPrefix self.old.last.value.log.value.items (front_log front.now) × Covers (lists_of self.old.told) (front_log front.now) }
        ensures last { self.new.last ≡ self.old.last }
        ensures told { self.new.told ≡ self.old.told }
        ensures best { self.new.best ≡ self.old.best }
        ensures tally { self.new.tally ≡ self.old.tally }
    {
        match self.look() {
            Some(moment) => is_at(front, &moment),
            None => false,
        }
    }

    pub(crate) fn faults_so_far(&self) -> u64
        ensures { result ≡ self.now.tally.faults }
    {
        self.tally.faults
    }

    pub(crate) fn denied_so_far(&self) -> u64
        ensures { result ≡ self.now.tally.denied }
    {
        self.tally.denied
    }

    /// Enters, and takes the files as they are.
    fn enter(&mut self) -> Option<Arc<Moment>>
        ensures last { self.new.last ≡ self.old.last }
        ensures best { self.new.best ≡ self.old.best }
        ensures told { self.new.told ≡ self.old.told }
        ensures tally { self.new.tally ≡ self.old.tally }
        ensures start { (view self.new.reader.place).first ≡ (view self.old.reader.place).first }
        ensures some { IfSome result (λ m. Looked P.legal (view self.old.reader.place) (arc_value m) (view self.new.reader.place)) }
    {
        replace_with(&mut self.reader, (), look_in::<P>)
    }

    /// Looks at the files.
    fn look(&mut self) -> Option<Arc<Moment>>
        ensures last { self.new.last ≡ self.old.last }
        ensures best { self.new.best ≡ self.old.best }
        ensures told { self.new.told ≡ self.old.told }
        ensures tally { self.new.tally ≡ self.old.tally }
        ensures start { (view self.new.reader.place).first ≡ (view self.old.reader.place).first }
        ensures seen { IfSome result (λ m. (view self.new.reader.place).seen ≡ (arc_value m).log.value.items) }
        ensures home { IfSome result (λ m. (arc_value m).seen.book ≡ self.old.best.sure.book) }
        ensures some { IfSome result (λ m. LooksAtMoment P.legal (view self.old.reader.place) (lists_of self.old.told) self.old.last.value (arc_value m)) }
    {
        let moment = self.enter()?;
        if goes_on(&self.best, &moment) {
            Some(moment)
        } else {
            None
        }
    }
}

impl<P: Protocol> Reads for HubReader<P> {
    ghost use Rattle.std.specs.Prelude.{Some, false};
    ghost use Rattle.hgs_files.specs.Reads.{ReadsFrom, AddsBytes, HasSize, LooksAt, LooksBeyond, Counts};
    ghost use Rattle.hgs_hub.specs.Reader.{seen_by, start_by, ties_by, tally_by};

    ghost faults = { λ r. (tally_by r).faults };

    ghost denied = { λ r. (tally_by r).denied };

    ghost given = { λ r. (tally_by r).given };

    ghost seen = { λ r. Some (seen_by r) };

    ghost start = { λ r. start_by r };

    ghost alone = { false };

    ghost shows = { P.legal };

    ghost ties = { λ r. ties_by r };

    fn read(
        &mut self,
        path: &StorePath,
        from: u64,
        most: u64,
        into: &mut Vec<u8>,
    ) -> Result<Option<u64>, FileFault>
        ensures answer { ReadsFrom (Some (seen_by self.new)) (start_by self.new) path.now from most into.old.items into.new.items result }
        ensures bytes { AddsBytes (tally_by self.old).given (tally_by self.new).given most into.old.items into.new.items result }
        ensures seen { LooksAt (Some (seen_by self.old)) (Some (seen_by self.new)) result }
        ensures same_start { start_by self.new ≡ start_by self.old }
        ensures counts { Counts (tally_by self.old).faults (tally_by self.new).faults (tally_by self.old).denied (tally_by self.new).denied result }
        ensures beyond { LooksBeyond (ties_by self.old).told (P.legal (start_by self.new)) (Some (seen_by self.new)) result }
        ensures same_ties { ties_by self.new ≡ ties_by self.old }
    {
        let Some(moment) = self.look() else {
            return Err(self.tally.denied());
        };
        match read_at(&moment, path, from, most, into) {
            Ok(part) => {
                self.last = Snapshot::of(&*moment);
                if let Some(count) = part {
                    self.tally.give(count);
                }
                Ok(part)
            }
            Err(_) => Err(self.tally.denied()),
        }
    }

    fn size(&mut self, path: &StorePath) -> Result<Option<u64>, FileFault>
        ensures answer { HasSize (Some (seen_by self.new)) (start_by self.new) path.now result }
        ensures given { (tally_by self.new).given ≡ (tally_by self.old).given }
        ensures seen { LooksAt (Some (seen_by self.old)) (Some (seen_by self.new)) result }
        ensures same_start { start_by self.new ≡ start_by self.old }
        ensures counts { Counts (tally_by self.old).faults (tally_by self.new).faults (tally_by self.old).denied (tally_by self.new).denied result }
        ensures beyond { LooksBeyond (ties_by self.old).told (P.legal (start_by self.new)) (Some (seen_by self.new)) result }
        ensures same_ties { ties_by self.new ≡ ties_by self.old }
    {
        let Some(moment) = self.look() else {
            return Err(self.tally.denied());
        };
        self.last = Snapshot::of(&*moment);
        Ok(size_at(&moment, path))
    }
}

impl<P: Protocol> Follows for HubReader<P> {
    type Front = Front;

    fn learn(&mut self, front: Front) {
        self.told = self.told.and(&front);
        self.best = later(&self.best, front);
    }
}
