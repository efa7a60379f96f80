//! The changesets without a child.
ghost use Rattle.std.specs.Prelude.{◌≡◌, ◌++◌, false, length, replicate, slice_index_or, OnOk, IfOk};
ghost use Rattle.hgs_reader.specs.Heads.{heads_from, line_unless, marked, marked_by};

use hgs_index::entry::Entry;
use hgs_index::texts::hex_of;
use hgs_plan::print::push_number;
use hgs_revlog::revlog::Revlog;
use std::alloc::{AllocError, Global};

// Marks a parent, where there is one.
fn mark(marks: &mut Vec<bool>, parent: Option<u32>)
    ensures { marks.new.items ≡ marked parent marks.old.items }
{
    if let Some(rev) = parent {
        if (rev as usize) < marks.len() {
            marks[rev as usize] = true;
        }
    }
}

// Whether a revision is marked.
fn is_marked(marks: &[bool], rev: u32) -> bool
    ensures { result ≡ slice_index_or marks.now rev false }
{
    match marks.get(rev as usize) {
        None => false,
        Some(mark) => *mark,
    }
}

// A mark at each revision that is a parent.
fn parents_of(alloc: Global, log: &Revlog) -> Result<Vec<bool>, AllocError>
    ensures { IfOk result (λ marks. marks.items ≡ marked_by log.now.entries (replicate (length log.now.entries) false)) }
{
    let mut marks = vec![in alloc; false; log.len() as usize]?;
    for rev in 0..log.len() {
        let entry = log.entry(rev);
        mark(&mut marks, entry.p1);
        mark(&mut marks, entry.p2);
    }
    Ok(marks)
}

// Adds the line of a revision, unless it has a child.
fn push_unless(
    into: &mut Vec<u8>,
    has_child: bool,
    rev: u32,
    entry: &Entry,
) -> Result<(), AllocError>
    ensures { OnOk result (into.new.items ≡ into.old.items ++ line_unless has_child rev entry.now) }
{
    if has_child {
        return Ok(());
    }
    push_number(into, rev as u64)?;
    into.push(b' ')?;
    into.extend_from_slice(&hex_of(&entry.node))?;
    into.push(b'\n')?;
    Ok(())
}

/// The lines of the changesets without a child, ascending: revision, a space and the node. The time is linear in the number
/// of changesets.
pub fn heads_of(alloc: Global, log: &Revlog) -> Result<Vec<u8>, AllocError>
    ensures { IfOk result (λ lines. lines.items ≡ heads_from log.now.entries 0 log.now.entries) }
{
    let marks = parents_of(alloc, log)?;
    let mut lines = Vec::new(alloc);
    for rev in 0..log.len() {
        push_unless(&mut lines, is_marked(&marks, rev), rev, log.entry(rev))?;
    }
    Ok(lines)
}
