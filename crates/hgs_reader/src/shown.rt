//! The lines of the bookmarks and of the working parents.
ghost use Rattle.std.specs.Prelude.{◌≡◌, ◌<◌, ◌++◌, length, IfSome, OnOk, IfOk};
ghost use Rattle.hgs_marks.specs.Held.{view_mark};
ghost use Rattle.hgs_revlog.specs.Log.{place_of};
ghost use Rattle.hgs_reader.specs.Heads.{head_line};
ghost use Rattle.hgs_reader.specs.Shown.{mark_line, shown_mark, marks_shown, parent_shown};

use hgs_index::entry::Entry;
use hgs_index::texts::hex_of;
use hgs_load::marks::WorkingParents;
use hgs_marks::bookmarks::{Bookmarks, Mark};
use hgs_plan::print::push_number;
use hgs_revlog::revlog::Revlog;
use std::alloc::{AllocError, Global};

// Adds the line of a bookmark of this revision.
fn push_mark(into: &mut Vec<u8>, mark: Mark<'_>, rev: u32) -> Result<(), AllocError>
    ensures { OnOk result (into.new.items ≡ into.old.items ++ mark_line (view_mark mark.entry) rev) }
{
    into.extend_from_slice(mark.name)?;
    into.push(b'\t')?;
    push_number(into, rev as u64)?;
    into.push(b'\t')?;
    into.extend_from_slice(&hex_of(&mark.node))?;
    into.push(b'\n')?;
    Ok(())
}

// Adds the line of a bookmark, unless its node is unknown.
fn push_known(into: &mut Vec<u8>, log: &Revlog, mark: Mark<'_>) -> Result<(), AllocError>
    ensures { OnOk result (into.new.items ≡ into.old.items ++ shown_mark (view_mark mark.entry) (place_of log.now.entries mark.entry.node.0)) }
{
    match log.rev_of(&mark.node) {
        Some(rev) => push_mark(into, mark, rev),
        None => Ok(()),
    }
}

/// The lines of the bookmarks whose nodes are known, in byte order of their names: name, tab, revision, tab and node.
pub fn mark_lines(alloc: Global, log: &Revlog, bookmarks: &Bookmarks) -> Result<Vec<u8>, AllocError>
    ensures { IfOk result (λ lines. lines.items ≡ marks_shown log.now.entries bookmarks.now) }
{
    let mut lines = Vec::new(alloc);
    for (name, node) in bookmarks.as_map() {
        let name = name.as_slice();
        push_known(&mut lines, log, Mark { name, node: *node })?;
    }
    Ok(lines)
}

// Adds the line of a revision: its number, a space and the node.
fn push_revision(into: &mut Vec<u8>, rev: u32, entry: &Entry) -> Result<(), AllocError>
    ensures { OnOk result (into.new.items ≡ into.old.items ++ head_line rev entry.now) }
{
    push_number(into, rev as u64)?;
    into.push(b' ')?;
    into.extend_from_slice(&hex_of(&entry.node))?;
    into.push(b'\n')?;
    Ok(())
}

// Adds the line of a working parent, where there is one.
fn push_parent(into: &mut Vec<u8>, log: &Revlog, parent: Option<u32>) -> Result<(), AllocError>
    requires { IfSome parent (λ rev. rev < length log.now.entries) }
    ensures { OnOk result (into.new.items ≡ into.old.items ++ parent_shown log.now.entries parent) }
{
    match parent {
        Some(rev) => push_revision(into, rev, log.entry(rev)),
        None => Ok(()),
    }
}

/// The lines of the working parents, the first before the second: revision, a space and the node.
pub fn parent_lines(
    alloc: Global,
    log: &Revlog,
    working: &WorkingParents,
) -> Result<Vec<u8>, AllocError>
    requires first { IfSome working.now.first (λ rev. rev < length log.now.entries) }
    requires second { IfSome working.now.second (λ rev. rev < length log.now.entries) }
    ensures { IfOk result (λ lines. lines.items ≡ parent_shown log.now.entries working.now.first ++ parent_shown log.now.entries working.now.second) }
{
    let mut lines = Vec::new(alloc);
    push_parent(&mut lines, log, working.first)?;
    push_parent(&mut lines, log, working.second)?;
    Ok(lines)
}
