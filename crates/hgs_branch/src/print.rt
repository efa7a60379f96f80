//! The text of branch heads.
ghost use Rattle.std.specs.Prelude.{◌≡◌, ◌<◌, ◌^◌, ◌++◌, [], ◌∷◌, false, length, slice_index_or, if◌then◌else◌, IfOk, OnOk};
ghost use Rattle.std.specs.Cmp.Lexicographic.{slice_cmp};
ghost use Rattle.std.specs.List.{filter, range_with_len};
ghost use Rattle.std.specs.List.Sorted.{IsStableBy};
ghost use Rattle.std.specs.Ordering.{nat_cmp};
ghost use Rattle.hgs_revlog.specs.Log.{nodes_of};
ghost use Rattle.hgs_branch.specs.Heads.{branch_at, by_branch, comes_before, StandByBranch};
ghost use Rattle.hgs_branch.specs.Kept.{names_in};
ghost use Rattle.hgs_branch.specs.Text.{head_line, head_lines, node_text};

use crate::course::Course;
use hgs_index::texts::hex_of;
use hgs_revlog::revlog::Revlog;
use itoa::Buffer;
use std::alloc::{AllocError, Global};
use std::cmp::Ordering;

fn branch_of(course: &Course, rev: u32) -> &[u8]
    ensures { result.now ≡ branch_at (names_in course.now.names.items course.now.known.items) rev }
{
    match course.known.get(rev as usize) {
        None => &[],
        Some(known) => match course.names.get(known.branch) {
            None => &[],
            Some(name) => name.as_slice(),
        },
    }
}

fn by_name(course: &Course, a: u32, b: u32) -> Ordering
    ensures { result ≡ slice_cmp nat_cmp (branch_at (names_in course.now.names.items course.now.known.items) a) (branch_at (names_in course.now.names.items course.now.known.items) b) }
{
    branch_of(course, a).cmp(branch_of(course, b))
}

// Sorts changesets by branch; those of one branch stay in their order.
fn sort_by_branch(course: &Course, revs: &mut Vec<u32>) -> Result<(), AllocError>
    ensures sorted { OnOk result (StandByBranch (names_in course.now.names.items course.now.known.items) revs.new.items) }
    ensures stable { IsStableBy (comes_before (names_in course.now.names.items course.now.known.items)) revs.old.items revs.new.items }
{
    revs.sort_by(|a, b| by_name(course, *a, *b))
}

fn is_head(course: &Course, rev: u32) -> bool
    ensures { result ≡ slice_index_or course.now.heads.items rev false }
{
    match course.heads.get(rev as usize) {
        None => false,
        Some(mark) => *mark,
    }
}

// Adds a changeset, if it is a head.
fn add_head(course: &Course, heads: &mut Vec<u32>, rev: u32) -> Result<(), AllocError>
    ensures { OnOk result (heads.new.items ≡ heads.old.items ++ (if slice_index_or course.now.heads.items rev false then rev ∷ [] else [])) }
{
    if is_head(course, rev) {
        heads.push(rev)?;
    }
    Ok(())
}

// The heads, in the order of revisions.
fn all_heads(alloc: Global, course: &Course) -> Result<Vec<u32>, AllocError>
    requires { length course.now.known.items < 2 ^ 32 }
    ensures { IfOk result (λ heads. heads.items ≡ filter (λ rev. slice_index_or course.now.heads.items rev false) (range_with_len 0 (length course.now.known.items))) }
{
    let mut heads = Vec::new(alloc);
    for rev in 0..course.known.len() as u32 {
        add_head(course, &mut heads, rev)?;
    }
    Ok(heads)
}

// The heads by branch, then by revision.
fn in_order(alloc: Global, course: &Course) -> Result<Vec<u32>, AllocError>
    requires { length course.now.known.items < 2 ^ 32 }
    ensures { IfOk result (λ heads. heads.items ≡ by_branch (λ rev. slice_index_or course.now.heads.items rev false) (names_in course.now.names.items course.now.known.items) [] (range_with_len 0 (length course.now.known.items))) }
{
    let mut heads = all_heads(alloc, course)?;
    sort_by_branch(course, &mut heads)?;
    Ok(heads)
}

// Adds the node of a changeset, and nothing where the history is shorter.
fn push_node(into: &mut Vec<u8>, history: &Revlog, rev: u32) -> Result<(), AllocError>
    ensures { OnOk result (into.new.items ≡ into.old.items ++ node_text (nodes_of history.now.entries) rev) }
{
    if rev < history.len() {
        into.extend_from_slice(&hex_of(&history.entry(rev).node))?;
    }
    Ok(())
}

// Adds the line of a head.
fn push_head(
    into: &mut Vec<u8>,
    course: &Course,
    history: &Revlog,
    rev: u32,
) -> Result<(), AllocError>
    ensures { OnOk result (into.new.items ≡ into.old.items ++ head_line (names_in course.now.names.items course.now.known.items) (nodes_of history.now.entries) rev) }
{
    let mut buffer = Buffer::new();
    into.extend_from_slice(branch_of(course, rev))?;
    into.push(b'\t')?;
    into.extend_from_slice(buffer.format(rev).as_bytes())?;
    into.push(b'\t')?;
    push_node(into, history, rev)?;
    into.push(b'\n')?;
    Ok(())
}

/// The lines of the heads.
pub(crate) fn lines_of(
    alloc: Global,
    course: &Course,
    history: &Revlog,
) -> Result<Vec<u8>, AllocError>
    requires { length course.now.known.items < 2 ^ 32 }
    ensures { IfOk result (λ lines. lines.items ≡ head_lines (λ rev. slice_index_or course.now.heads.items rev false) (names_in course.now.names.items course.now.known.items) (nodes_of history.now.entries)) }
{
    let heads = in_order(alloc, course)?;
    let mut lines = Vec::new(alloc);
    for place in 0..heads.len() {
        push_head(&mut lines, course, history, heads[place])?;
    }
    Ok(lines)
}
