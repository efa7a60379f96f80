//! How the writing end makes a state and publishes it.
ghost use Rattle.std.specs.Prelude.{◌≡◌, [], OnOk, OnErr, length};
ghost use Rattle.std.specs.Arc.{arc_value};
ghost use mathlib.Core.List.{IsPrefix};
ghost use Rattle.hgs_files.specs.Tree.{after_all};
ghost use Rattle.hgs_mem.specs.Mem.{tree_of};
ghost use Rattle.hgs_hub.specs.Book.{last_log};
ghost use Rattle.hgs_hub.specs.Rule.{log_at, first_at, start_at, tree_at};
ghost use Rattle.hgs_hub.specs.Told.{front_log};
ghost use Rattle.hgs_hub.specs.Writer.{Shows};

use crate::book::{Book, Token};
use crate::moment::{Moment, Origin};
use crate::rule::{Law, Sees, Shown, View};
use core::mem::replace_with;
use hgs_files::op::Op;
use hgs_files::protocol::Protocol;
use hgs_mem::contents::Map;
use left_right::writer::Writer;
use std::alloc::{AllocError, Global};
use std::snapshot::Snapshot;
use std::sync::{Arc, Wait};

pub type Leading<P> = Writer<Shown, Arc<Moment>, View, Law<P>>;

/// The files after a log, which the book names last.
pub(crate) fn moment_of(
    files: Map,
    first: Arc<Origin>,
    log: &Vec<Op>,
    seen: Token,
    number: u64,
) -> Moment
    requires files { tree_of files ≡ after_all log.now.items (tree_at (arc_value first)) }
    requires listed { last_log [] seen.log ≡ log.now.items }
    requires counted { number ≡ length seen.log }
    requires home { seen.book ≡ (arc_value first).book.book }
    ensures { (result.log.value.items ≡ log.now.items) × (result.first ≡ first) }
{
    Moment {
        files,
        first,
        log: Snapshot::of(log),
        seen,
        number,
    }
}

/// Publishes this state in place of the one before, and of any that was appended and not published; or changes nothing.
fn publish<P: Protocol, T: Wait>(
    alloc: Global,
    rt: &T,
    writer: &mut Leading<P>,
    next: Moment,
) -> Result<(), AllocError>
    requires first { arc_value next.first ≡ first_at writer.old.desk.shown.value }
    requires more { IsPrefix (log_at writer.old.desk.shown.value) next.log.value.items }
    requires legal { P.legal (start_at writer.old.desk.shown.value) next.log.value.items }
    ensures ok { OnOk result (Shows (first_at writer.old.desk.shown.value) next.log.value.items writer.new.desk.shown.value) }
    ensures err { OnErr result (writer.new.desk.shown.value ≡ writer.old.desk.shown.value) }
{
    let next = Arc::new(alloc, next)?;
    if writer.append(next).is_err() {
        return Err(AllocError);
    }
    replace_with(&mut *writer, rt, Leading::<P>::publish_as::<Sees<P>, T>)
}

/// Enters a state in the book, publishes it, and enters whether that was done; or changes nothing that is told.
pub(crate) fn show<P: Protocol, T: Wait>(
    alloc: Global,
    rt: &T,
    writer: &mut Leading<P>,
    book: &mut Book,
    files: Map,
    log: &Vec<Op>,
) -> Result<(), AllocError>
    requires files { tree_of files ≡ after_all log.now.items (start_at writer.old.desk.shown.value) }
    requires more { IsPrefix (log_at writer.old.desk.shown.value) log.now.items }
    requires legal { P.legal (start_at writer.old.desk.shown.value) log.now.items }
    requires told { front_log book.old.front ≡ log_at writer.old.desk.shown.value }
    requires home { (first_at writer.old.desk.shown.value).book.book ≡ book.old.seen.book }
    ensures home { book.new.seen.book ≡ book.old.seen.book }
    ensures ok { OnOk result (Shows (first_at writer.old.desk.shown.value) log.now.items writer.new.desk.shown.value × (front_log book.new.front ≡ log.now.items)) }
    ensures err { OnErr result ((writer.new.desk.shown.value ≡ writer.old.desk.shown.value) × (front_log book.new.front ≡ front_log book.old.front)) }
{
    let first = Arc::try_clone(&writer.published().now.first)?;
    let pending = book.propose(log)?;
    let next = moment_of(files, first, log, pending.seen.again(), pending.number);
    let shown = publish(alloc, rt, writer, next);
    book.decide(pending, shown.is_ok());
    shown
}
