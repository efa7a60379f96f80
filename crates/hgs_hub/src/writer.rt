//! The writing end.
ghost use Rattle.std.specs.Prelude.{◌≡◌, List, false, ◌∷◌, [], ◌++◌, Some, None, IfOk, OnOk, OnErr, IfErr, is_some, is_ok, true, ◌≤◌, IfSome};
ghost use Rattle.hgs_files.specs.declared.op.Op.{Op};
ghost use Rattle.hgs_files.specs.Tree.{after_all};
ghost use Rattle.hgs_files.specs.Files.{GoesOn, LeavesWhole, LeavesPieces};
ghost use Rattle.hgs_files.specs.Log.{IsPiece};
ghost use Rattle.hgs_hub.specs.Pieces.{part_by};
ghost use Rattle.hgs_hub.specs.New.{AllAt, AllWithin, marks_of};
ghost use Rattle.hgs_files.specs.Ends.{total_of};
ghost use Rattle.hgs_files.specs.Reads.{Counts, counted, ReadsPart, IsSizeOf};
ghost use Rattle.hgs_mem.specs.MemFiles.{log_of, start_of, tree_now, tally_of, KeepsAllBut};
ghost use Rattle.hgs_hub.specs.Rule.{log_at, first_at, start_at};
ghost use Rattle.hgs_hub.specs.Told.{front_log};

use crate::book::Book;
use crate::close::settle;
use crate::front::Front;
use crate::reader::{HubReader, read_at, size_at};
use crate::show::{Leading, show};
use hgs_bytes::parts::front;
use hgs_files::ends::Leads;
use hgs_files::files::{Created, FileFault, Files, Reads};
use hgs_files::op::Op;
use hgs_files::path::StorePath;
use hgs_files::protocol::Protocol;
use hgs_mem::contents::{apply, copy_of};
use hgs_mem::mem::MemFiles;
use hgs_mem::ops;
use std::alloc::AllocError;
use std::sync::Wait;

/// The writing end. Each of its operations is published at once.
pub struct HubWriter<P: Protocol, T: Wait + Drop> {
    rt: T,
    writer: Leading<P>,
    log: Vec<Op>,
    book: Book,
    base: MemFiles,
    ghost logged: { log_at writer.desk.shown.value ≡ log.items },
    ghost from: { start_at writer.desk.shown.value ≡ tree_now base },
    ghost fronted: { front_log book.front ≡ log.items },
    ghost homed: { (first_at writer.desk.shown.value).book.book ≡ book.front.sure.book },
}

/// The part of the bytes that a call of this fate does.
fn part_by(fate: Option<u64>, bytes: &[u8]) -> &[u8]
    ensures { result.now ≡ part_by fate bytes.now }
{
    match fate {
        Some(count) => front(bytes, count as usize),
        None => bytes,
    }
}

/// Whether a call of this fate fails before its first byte.
fn does_nothing(fate: Option<u64>, bytes: &[u8]) -> bool {
    match fate {
        Some(count) => count == 0 || bytes.is_empty(),
        None => false,
    }
}

impl<P: Protocol, T: Wait + Drop> HubWriter<P, T> {
    ghost use Rattle.hgs_hub.specs.Writer.{IsSameWriter};

    /// The writing end of these files, which has done nothing yet.
    pub(crate) fn begin(rt: T, writer: Leading<P>, book: Book, base: MemFiles) -> HubWriter<P, T>
        requires log { log_at writer.desk.shown.value ≡ [] }
        requires start { start_at writer.desk.shown.value ≡ tree_now base }
        requires told { front_log book.front ≡ [] }
        requires home { (first_at writer.desk.shown.value).book.book ≡ book.front.sure.book }
        ensures log { result.log.items ≡ [] }
        ensures base { result.base ≡ base }
        ensures book { result.book ≡ book }
        ensures writer { result.writer ≡ writer }
    {
        let log = Vec::new(base.alloc());
        HubWriter {
            rt,
            writer,
            log,
            book,
            base,
        }
    }

    /// Puts the ends together, or hands them back: what was done stands behind the log of the files.
    pub(crate) fn close(
        self,
        rs: Vec<HubReader<P>>,
    ) -> Result<(T, MemFiles), (HubWriter<P, T>, Vec<HubReader<P>>)>
        requires { AllAt self.book.front.sure.book rs.items }
        ensures log { IfOk result (λ r. log_of r.1 ≡ log_of self.base ++ self.log.items) }
        ensures start { IfOk result (λ r. start_of r.1 ≡ start_of self.base) }
        ensures within { IfOk result (λ r. AllWithin self.log.items rs.items) }
        ensures faults { IfOk result (λ r. (tally_of r.1).faults ≡ counted (tally_of self.base).faults (total_of (λ r. r.tally.faults) rs.items)) }
        ensures denied { IfOk result (λ r. (tally_of r.1).denied ≡ counted (tally_of self.base).denied (total_of (λ r. r.tally.denied) rs.items)) }
        ensures same { IfErr result (λ ends. IsSameWriter self ends.0) }
        ensures same_readers { IfErr result (λ ends. marks_of ends.1.items ≡ marks_of rs.items) }
    {
        let mut rs = rs;
        let settled = settle(&self.book.front, &mut rs);
        if !settled.fine {
            return Err((self, rs));
        }
        match self.end(settled.faults, settled.denied) {
            Ok(done) => Ok(done),
            Err(writer) => Err((writer, rs)),
        }
    }

    /// Puts what was done behind the log of the files, and adds these counts, or hands the end back.
    fn end(self, faults: u64, denied: u64) -> Result<(T, MemFiles), HubWriter<P, T>>
        ensures log { IfOk result (λ r. log_of r.1 ≡ log_of self.base ++ self.log.items) }
        ensures start { IfOk result (λ r. start_of r.1 ≡ start_of self.base) }
        ensures faults { IfOk result (λ r. (tally_of r.1).faults ≡ counted (tally_of self.base).faults faults) }
        ensures denied { IfOk result (λ r. (tally_of r.1).denied ≡ counted (tally_of self.base).denied denied) }
        ensures same { IfErr result (λ w. IsSameWriter self w) }
    {
        let Ok(files) = copy_of(&self.writer.published().now.files) else {
            return Err(self);
        };
        let HubWriter {
            rt,
            writer,
            log,
            book,
            mut base,
        } = self;
        match base.go_on(files, log) {
            Ok(()) => {
                base.add_counts(faults, denied);
                writer.take(&rt);
                Ok((rt, base))
            }
            Err(log) => Err(HubWriter {
                rt,
                writer,
                log,
                book,
                base,
            }),
        }
    }

    /// A call with bytes, which does this piece of its operation, and fails after it where that is its fate.
    fn in_part(&mut self, fails: bool, made: Result<Op, AllocError>) -> Result<(), FileFault>
        requires { IfOk made (λ piece. P.legal (tree_now self.old.base) (self.old.log.items ++ piece ∷ [])) }
        ensures done { (op : Op) (left : List Op) → IfOk made (λ piece. IsPiece op piece left) → (fails ≡ false → left ≡ []) → GoesOn (Some self.old.log.items) (Some self.new.log.items) (LeavesPieces op result) }
        ensures base { KeepsAllBut self.old.base self.new.base }
        ensures given { (tally_of self.new.base).given ≡ (tally_of self.old.base).given }
        ensures counts { Counts (tally_of self.old.base).faults (tally_of self.new.base).faults (tally_of self.old.base).denied (tally_of self.new.base).denied result }
        ensures home { self.new.book.front.sure.book ≡ self.old.book.front.sure.book }
    {
        match self.add_made(made) {
            Ok(()) => {
                if fails {
                    return Err(self.base.failed());
                }
                Ok(())
            }
            Err(_) => Err(self.base.denied()),
        }
    }

    /// Does an operation and publishes it, or changes nothing.
    fn add(&mut self, op: Op) -> Result<(), AllocError>
        requires { P.legal (tree_now self.old.base) (self.old.log.items ++ op ∷ []) }
        ensures ok { OnOk result (self.new.log.items ≡ self.old.log.items ++ op ∷ []) }
        ensures err { OnErr result (self.new.log.items ≡ self.old.log.items) }
        ensures base { self.new.base ≡ self.old.base }
        ensures home { self.new.book.front.sure.book ≡ self.old.book.front.sure.book }
    {
        let alloc = self.base.alloc();
        let mut files = copy_of(&self.writer.published().now.files)?;
        apply(alloc, &mut files, &op)?;
        self.log.push(op)?;
        match show(
            alloc,
            &self.rt,
            &mut self.writer,
            &mut self.book,
            files,
            &self.log,
        ) {
            Ok(()) => Ok(()),
            Err(error) => {
                self.log.pop();
                Err(error)
            }
        }
    }

    /// Reads of what is published.
    fn read_shown(
        &self,
        path: &StorePath,
        from: u64,
        most: u64,
        into: &mut Vec<u8>,
    ) -> Result<Option<u64>, AllocError>
        ensures ok { IfOk result (λ part. ReadsPart (after_all self.now.log.items (tree_now self.now.base) path.now) from most into.old.items into.new.items part) }
        ensures same { IfOk result (λ part. part ≡ None → into.new.items ≡ into.old.items) }
        ensures most { IfOk result (λ part. IfSome part (λ k. k ≤ most)) }
        ensures err { OnErr result (into.new.items ≡ into.old.items) }
    {
        read_at(&self.writer.published().now, path, from, most, into)
    }

    /// The length of a file as it is published.
    fn size_shown(&self, path: &StorePath) -> Option<u64>
        ensures { IsSizeOf (after_all self.now.log.items (tree_now self.now.base) path.now) result }
    {
        size_at(&self.writer.published().now, path)
    }

    /// Does an operation where it could be made, or changes nothing.
    fn add_made(&mut self, made: Result<Op, AllocError>) -> Result<(), AllocError>
        requires { IfOk made (λ op. P.legal (tree_now self.old.base) (self.old.log.items ++ op ∷ [])) }
        ensures ok { OnOk result (IfOk made (λ op. self.new.log.items ≡ self.old.log.items ++ op ∷ []) × is_ok made ≡ true) }
        ensures err { OnErr result (self.new.log.items ≡ self.old.log.items) }
        ensures base { self.new.base ≡ self.old.base }
        ensures home { self.new.book.front.sure.book ≡ self.old.book.front.sure.book }
    {
        self.add(made?)
    }

    /// A call without bytes, which does its operation where it is not to fail.
    fn whole(&mut self, made: Result<Op, AllocError>) -> Result<(), FileFault>
        requires { IfOk made (λ op. P.legal (tree_now self.old.base) (self.old.log.items ++ op ∷ [])) }
        ensures done { (op : Op) → IfOk made (λ o. o ≡ op) → GoesOn (Some self.old.log.items) (Some self.new.log.items) (LeavesWhole op result) }
        ensures base { KeepsAllBut self.old.base self.new.base }
        ensures given { (tally_of self.new.base).given ≡ (tally_of self.old.base).given }
        ensures counts { Counts (tally_of self.old.base).faults (tally_of self.new.base).faults (tally_of self.old.base).denied (tally_of self.new.base).denied result }
        ensures home { self.new.book.front.sure.book ≡ self.old.book.front.sure.book }
    {
        if self.base.next_fate().is_some() {
            return Err(self.base.failed());
        }
        match self.add_made(made) {
            Ok(()) => Ok(()),
            Err(_) => Err(self.base.denied()),
        }
    }
}

impl<P: Protocol, T: Wait + Drop> Reads for HubWriter<P, T> {
    ghost use Rattle.std.specs.Prelude.{Some, true};
    ghost use Rattle.hgs_files.specs.Reads.{ReadsFrom, AddsBytes, HasSize, LooksAt, Counts};
    ghost use Rattle.hgs_hub.specs.Writer.{done_by, base_of, ties_at, tally_at};

    ghost faults = { λ w. (tally_at w).faults };

    ghost denied = { λ w. (tally_at w).denied };

    ghost given = { λ w. (tally_at w).given };

    ghost seen = { λ w. Some (done_by w) };

    ghost start = { λ w. base_of w };

    ghost alone = { true };

    ghost shows = { λ start log. Unit {0} };

    ghost ties = { λ w. ties_at w };

    fn read(
        &mut self,
        path: &StorePath,
        from: u64,
        most: u64,
        into: &mut Vec<u8>,
    ) -> Result<Option<u64>, FileFault>
        ensures answer { ReadsFrom (Some (done_by self.new)) (base_of self.new) path.now from most into.old.items into.new.items result }
        ensures bytes { AddsBytes (tally_at self.old).given (tally_at self.new).given most into.old.items into.new.items result }
        ensures seen { LooksAt (Some (done_by self.old)) (Some (done_by self.new)) result }
        ensures same_start { base_of self.new ≡ base_of self.old }
        ensures still { done_by self.new ≡ done_by self.old }
        ensures counts { Counts (tally_at self.old).faults (tally_at self.new).faults (tally_at self.old).denied (tally_at self.new).denied result }
        ensures same_ties { ties_at self.new ≡ ties_at self.old }
    {
        if self.base.next_fate().is_some() {
            return Err(self.base.failed());
        }
        match self.read_shown(path, from, most, into) {
            Ok(Some(count)) => {
                self.base.give(count);
                Ok(Some(count))
            }
            Ok(None) => Ok(None),
            Err(_) => Err(self.base.denied()),
        }
    }

    fn size(&mut self, path: &StorePath) -> Result<Option<u64>, FileFault>
        ensures answer { HasSize (Some (done_by self.new)) (base_of self.new) path.now result }
        ensures given { (tally_at self.new).given ≡ (tally_at self.old).given }
        ensures seen { LooksAt (Some (done_by self.old)) (Some (done_by self.new)) result }
        ensures same_start { base_of self.new ≡ base_of self.old }
        ensures still { done_by self.new ≡ done_by self.old }
        ensures counts { Counts (tally_at self.old).faults (tally_at self.new).faults (tally_at self.old).denied (tally_at self.new).denied result }
        ensures same_ties { ties_at self.new ≡ ties_at self.old }
    {
        if self.base.next_fate().is_some() {
            return Err(self.base.failed());
        }
        Ok(self.size_shown(path))
    }
}

impl<P: Protocol, T: Wait + Drop> Files for HubWriter<P, T> {
    ghost use Rattle.std.specs.Prelude.{Some, refl};
    ghost use Rattle.hgs_files.specs.Files.{MayCreate, MayDo, MayRename, CreatesNew};
    ghost use Rattle.hgs_hub.specs.Writer.{done_by, base_of, ties_at, tally_at};

    ghost log = { λ w. Some (done_by w) };

    ghost allows = { P.legal };

    ghost latest = { λ w. refl };

    ghost only_writer = { refl };

    fn append(&mut self, path: &StorePath, bytes: &[u8]) -> Result<(), FileFault>
        requires { MayDo (Some (done_by self.old)) (P.legal (base_of self.old)) (Op.Append path.now bytes.now) }
        ensures done { GoesOn (Some (done_by self.old)) (Some (done_by self.new)) (LeavesPieces (Op.Append path.now bytes.now) result) }
        ensures same_start { base_of self.new ≡ base_of self.old }
        ensures given { (tally_at self.new).given ≡ (tally_at self.old).given }
        ensures counts { Counts (tally_at self.old).faults (tally_at self.new).faults (tally_at self.old).denied (tally_at self.new).denied result }
        ensures same_ties { ties_at self.new ≡ ties_at self.old }
    {
        let fate = self.base.next_fate();
        if does_nothing(fate, bytes) {
            return Err(self.base.failed());
        }
        let part = part_by(fate, bytes);
        let made = ops::append(self.base.alloc(), path, part);
        self.in_part(fate.is_some(), made)
    }

    fn put(&mut self, path: &StorePath, bytes: &[u8]) -> Result<(), FileFault>
        requires { MayDo (Some (done_by self.old)) (P.legal (base_of self.old)) (Op.Create path.now bytes.now) }
        ensures done { GoesOn (Some (done_by self.old)) (Some (done_by self.new)) (LeavesPieces (Op.Create path.now bytes.now) result) }
        ensures same_start { base_of self.new ≡ base_of self.old }
        ensures given { (tally_at self.new).given ≡ (tally_at self.old).given }
        ensures counts { Counts (tally_at self.old).faults (tally_at self.new).faults (tally_at self.old).denied (tally_at self.new).denied result }
        ensures same_ties { ties_at self.new ≡ ties_at self.old }
    {
        let fate = self.base.next_fate();
        if does_nothing(fate, bytes) {
            return Err(self.base.failed());
        }
        let part = part_by(fate, bytes);
        let made = ops::create(self.base.alloc(), path, part);
        self.in_part(fate.is_some(), made)
    }

    fn create_new(&mut self, path: &StorePath, bytes: &[u8]) -> Result<Created, FileFault>
        requires { MayCreate (Some (done_by self.old)) (P.legal (base_of self.old)) (base_of self.old) path.now bytes.now }
        ensures done { CreatesNew (Some (done_by self.old)) (Some (done_by self.new)) (base_of self.old) path.now bytes.now result }
        ensures same_start { base_of self.new ≡ base_of self.old }
        ensures given { (tally_at self.new).given ≡ (tally_at self.old).given }
        ensures counts { Counts (tally_at self.old).faults (tally_at self.new).faults (tally_at self.old).denied (tally_at self.new).denied result }
        ensures same_ties { ties_at self.new ≡ ties_at self.old }
    {
        if self.base.next_fate().is_some() {
            return Err(self.base.failed());
        }
        if self.size_shown(path).is_some() {
            return Ok(Created::There);
        }
        let made = ops::create(self.base.alloc(), path, bytes);
        match self.add_made(made) {
            Ok(()) => Ok(Created::Made),
            Err(_) => Err(self.base.denied()),
        }
    }

    fn cut(&mut self, path: &StorePath, len: u64) -> Result<(), FileFault>
        requires { MayDo (Some (done_by self.old)) (P.legal (base_of self.old)) (Op.Cut path.now len) }
        ensures done { GoesOn (Some (done_by self.old)) (Some (done_by self.new)) (LeavesWhole (Op.Cut path.now len) result) }
        ensures same_start { base_of self.new ≡ base_of self.old }
        ensures given { (tally_at self.new).given ≡ (tally_at self.old).given }
        ensures counts { Counts (tally_at self.old).faults (tally_at self.new).faults (tally_at self.old).denied (tally_at self.new).denied result }
        ensures same_ties { ties_at self.new ≡ ties_at self.old }
    {
        let made = ops::cut(self.base.alloc(), path, len);
        self.whole(made)
    }

    fn rename(&mut self, from: &StorePath, to: &StorePath) -> Result<(), FileFault>
        requires { MayRename (Some (done_by self.old)) (P.legal (base_of self.old)) (base_of self.old) from.now to.now }
        ensures done { GoesOn (Some (done_by self.old)) (Some (done_by self.new)) (LeavesWhole (Op.Rename from.now to.now) result) }
        ensures same_start { base_of self.new ≡ base_of self.old }
        ensures given { (tally_at self.new).given ≡ (tally_at self.old).given }
        ensures counts { Counts (tally_at self.old).faults (tally_at self.new).faults (tally_at self.old).denied (tally_at self.new).denied result }
        ensures same_ties { ties_at self.new ≡ ties_at self.old }
    {
        let made = ops::rename(self.base.alloc(), from, to);
        self.whole(made)
    }

    fn remove(&mut self, path: &StorePath) -> Result<(), FileFault>
        requires { MayDo (Some (done_by self.old)) (P.legal (base_of self.old)) (Op.Remove path.now) }
        ensures done { GoesOn (Some (done_by self.old)) (Some (done_by self.new)) (LeavesWhole (Op.Remove path.now) result) }
        ensures same_start { base_of self.new ≡ base_of self.old }
        ensures given { (tally_at self.new).given ≡ (tally_at self.old).given }
        ensures counts { Counts (tally_at self.old).faults (tally_at self.new).faults (tally_at self.old).denied (tally_at self.new).denied result }
        ensures same_ties { ties_at self.new ≡ ties_at self.old }
    {
        let made = ops::remove(self.base.alloc(), path);
        self.whole(made)
    }

    fn sync(&mut self, path: &StorePath) -> Result<(), FileFault>
        requires { MayDo (Some (done_by self.old)) (P.legal (base_of self.old)) (Op.Sync path.now) }
        ensures done { GoesOn (Some (done_by self.old)) (Some (done_by self.new)) (LeavesWhole (Op.Sync path.now) result) }
        ensures same_start { base_of self.new ≡ base_of self.old }
        ensures given { (tally_at self.new).given ≡ (tally_at self.old).given }
        ensures counts { Counts (tally_at self.old).faults (tally_at self.new).faults (tally_at self.old).denied (tally_at self.new).denied result }
        ensures same_ties { ties_at self.new ≡ ties_at self.old }
    {
        let made = ops::sync(self.base.alloc(), path);
        self.whole(made)
    }

    fn settle(&mut self) -> Result<(), FileFault>
        requires { MayDo (Some (done_by self.old)) (P.legal (base_of self.old)) Op.Settle }
        ensures done { GoesOn (Some (done_by self.old)) (Some (done_by self.new)) (LeavesWhole Op.Settle result) }
        ensures same_start { base_of self.new ≡ base_of self.old }
        ensures given { (tally_at self.new).given ≡ (tally_at self.old).given }
        ensures counts { Counts (tally_at self.old).faults (tally_at self.new).faults (tally_at self.old).denied (tally_at self.new).denied result }
        ensures same_ties { ties_at self.new ≡ ties_at self.old }
    {
        self.whole(Ok(Op::Settle))
    }
}

impl<P: Protocol, T: Wait + Drop> Leads for HubWriter<P, T> {
    type Front = Front;

    fn front(&mut self) -> Front {
        self.book.front.again()
    }
}

impl<P: Protocol, T: Wait + Drop> Drop for HubWriter<P, T> {
    fn drop(self) {
        let Self {
            rt,
            writer,
            log: _log,
            book: _book,
            base: _base,
        } = self;
        drop(writer.take(&rt));
    }
}
