//! How ends are made.
ghost use Rattle.std.specs.Prelude.{◌≡◌, ◌≤◌, [], Some, IfOk, drop, is_some, true, vec_len};
ghost use Rattle.hgs_mem.specs.MemFiles.{tree_now};
ghost use Rattle.left_right.specs.Sides.{view};
ghost use Rattle.hgs_hub.specs.Home.{home_of};
ghost use Rattle.hgs_hub.specs.New.{AllNew};
ghost use Rattle.hgs_hub.specs.Rule.{log_at, first_at, start_at, home_from};
ghost use Rattle.hgs_hub.specs.Told.{lists_of};

use crate::book::Token;
use crate::front::Front;
use crate::moment::Origin;
use crate::reader::HubReader;
use crate::rule::{Meets, Sees, Shown, Tells};
use crate::show::{Leading, moment_of};
use hgs_files::op::Op;
use hgs_files::protocol::Protocol;
use hgs_mem::contents::copy_of;
use hgs_mem::mem::MemFiles;
use left_right::writer::Writer;
use std::alloc::{AllocError, Global};
use std::snapshot::Snapshot;
use std::sync::{Arc, Wait};

/// Both copies of the files as they stand, with an empty log, and room for so many readers.
fn shelve<P: Protocol>(
    files: &MemFiles,
    seen: Token,
    readers: u32,
) -> Result<Leading<P>, AllocError>
    requires readers { (1 ≤ readers) × (readers ≤ 64) }
    requires empty { seen.log ≡ [] }
    ensures log { IfOk result (λ w. log_at w.desk.shown.value ≡ []) }
    ensures start { IfOk result (λ w. start_at w.desk.shown.value ≡ tree_now files.now) }
    ensures home { IfOk result (λ w. (first_at w.desk.shown.value).book.book ≡ seen.book) }
    ensures pending { IfOk result (λ w. drop w.behind w.log.items ≡ []) }
{
    let alloc = files.alloc();
    let map = copy_of(files.files())?;
    let origin = Origin {
        files: Snapshot::of(files.files()),
        book: seen.again(),
    };
    let start = Arc::new(alloc, origin)?;
    let log: Vec<Op> = Vec::new(alloc);
    let one = Arc::new(alloc, moment_of(map, start, &log, seen, 0))?;
    let two = Arc::try_clone(&one)?;
    Writer::new(
        alloc,
        Shown { now: one },
        Shown { now: two },
        readers as usize,
    )
}

/// The same, where the writing end knows where all began.
pub(crate) fn lead<P: Protocol, T: Wait>(
    rt: &T,
    files: &MemFiles,
    seen: Token,
    readers: u32,
) -> Result<Leading<P>, AllocError>
    requires readers { (1 ≤ readers) × (readers ≤ 64) }
    requires empty { seen.log ≡ [] }
    ensures log { IfOk result (λ w. log_at w.desk.shown.value ≡ []) }
    ensures start { IfOk result (λ w. start_at w.desk.shown.value ≡ tree_now files.now) }
    ensures home { IfOk result (λ w. (first_at w.desk.shown.value).book.book ≡ seen.book) }
    ensures first { IfOk result (λ w. (view w.desk.place).first ≡ Some (first_at w.desk.shown.value)) }
{
    let (writer, shown) = shelve(files, seen, readers)?.publish_as::<Sees<P>, T>(rt);
    match shown {
        Ok(()) => Ok(writer),
        Err(error) => {
            writer.take(rt);
            Err(error)
        }
    }
}

/// One more reading end.
pub(crate) fn follow<P: Protocol>(
    writer: &mut Leading<P>,
    front: &Front,
) -> Result<HubReader<P>, AllocError>
    requires log { log_at writer.old.desk.shown.value ≡ [] }
    requires first { is_some (view writer.old.desk.place).first ≡ true }
    requires home { home_from (view writer.old.desk.place).first ≡ home_of front.now.sure.book }
    ensures writer { (writer.new.desk.shown ≡ writer.old.desk.shown) × (view writer.new.desk.place ≡ view writer.old.desk.place) }
    ensures seen { IfOk result (λ r. r.last.value.log.value.items ≡ []) }
    ensures told { IfOk result (λ r. lists_of r.told ≡ []) }
    ensures start { IfOk result (λ r. (view r.reader.place).first ≡ (view writer.old.desk.place).first) }
    ensures home { IfOk result (λ r. r.best.sure.book ≡ front.now.sure.book) }
    ensures tally { IfOk result (λ r. (r.tally.faults ≡ 0) × (r.tally.denied ≡ 0)) }
{
    let mut reader = writer.factory().reader()?;
    let note = writer.tell::<Tells>();
    reader.learn::<Meets>(note);
    Ok(HubReader::begin(reader, front.again(), &writer.published().now))
}

/// So many reading ends.
pub(crate) fn followers<P: Protocol>(
    alloc: Global,
    writer: &mut Leading<P>,
    front: &Front,
    n: u32,
) -> Result<Vec<HubReader<P>>, AllocError>
    requires log { log_at writer.old.desk.shown.value ≡ [] }
    requires first { is_some (view writer.old.desk.place).first ≡ true }
    requires home { home_from (view writer.old.desk.place).first ≡ home_of front.now.sure.book }
    ensures writer { (writer.new.desk.shown ≡ writer.old.desk.shown) × (view writer.new.desk.place ≡ view writer.old.desk.place) }
    ensures count { IfOk result (λ rs. vec_len rs ≡ n) }
    ensures each { IfOk result (λ rs. AllNew (view writer.old.desk.place).first front.now.sure.book rs.items) }
{
    let mut rs = Vec::new(alloc);
    for _ in 0..n {
        rs.push(follow(writer, front)?)?;
    }
    Ok(rs)
}
