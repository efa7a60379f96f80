//! The text of a set: a line for each member.
ghost use Rattle.std.specs.Prelude.{◌≡◌, ◌++◌, [], false, slice_index_or, if◌then◌else◌, OnOk, IfOk};
ghost use Rattle.hgs_revlog.specs.Log.{nodes_of};
ghost use Rattle.hgs_revset.specs.Text.{member_line, member_lines};
ghost use Rattle.hgs_members.specs.Story.{story_of};
ghost use Rattle.hgs_members.specs.Text.{Prints};

use crate::answer::SetAnswer;
use crate::eval::eval;
use crate::members::Members;
use hgs_bytes::bytes::Bytes;
use hgs_index::entry::Entry;
use hgs_index::texts::hex_of;
use hgs_plan::print::push_number;
use hgs_reader::session::Session;
use hgs_revlog::revlog::Revlog;
use hgs_revset::set::Set;
use std::alloc::{AllocError, Global};

// Adds the line of a changeset, if it is wanted.
fn push_when(into: &mut Vec<u8>, wanted: bool, rev: u32, entry: &Entry) -> Result<(), AllocError>
    ensures { OnOk result (into.new.items ≡ into.old.items ++ (if wanted then member_line rev entry.now.node.0 else [])) }
{
    if !wanted {
        return Ok(());
    }
    push_number(into, rev as u64)?;
    into.push(b' ')?;
    into.extend_from_slice(&hex_of(&entry.node))?;
    into.push(b'\n')?;
    Ok(())
}

// The lines of the members, ascending: revision, a space and the node.
fn lines_of(alloc: Global, members: &Members, log: &Revlog) -> Result<Vec<u8>, AllocError>
    ensures { IfOk result (λ lines. lines.items ≡ member_lines (λ rev. slice_index_or members.now rev false) 0 (nodes_of log.now.entries)) }
{
    let mut lines = Vec::new(alloc);
    for rev in 0..log.len() {
        push_when(&mut lines, members.has(rev), rev, log.entry(rev))?;
    }
    Ok(lines)
}

/// The text of a set over what a session holds: for each member, ascending, a line with its revision and its node.
/// `UnknownRevision` exactly where a name or a bookmark of the set names no changeset.
pub fn text_of(alloc: Global, set: &Set, session: &Session) -> Result<Bytes, SetAnswer>
    ensures { Prints (story_of session.now) set.now result }
{
    hgs_revset::laws::tests_are_exact();
    let members = eval(alloc, set, session)?;
    let lines = lines_of(alloc, &members, session.loaded().changelog())?;
    Ok(Bytes::from_vec(lines))
}
