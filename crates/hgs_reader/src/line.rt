//! The line that `log` writes of a changeset.
ghost use Rattle.std.specs.Prelude.{◌≡◌, ◌++◌, OnOk, IfOk};
ghost use Rattle.std.specs.Fmt.{signed_decimal};
ghost use Rattle.hgs_changelog.specs.View.{view_change};
ghost use Rattle.hgs_reader.specs.Line.{field, parent_text, first_line, revision_fields, change_fields, line_text};

use hgs_bytes::parts::split_at_byte;
use hgs_changelog::text::ChangeText;
use hgs_index::entry::Entry;
use hgs_index::texts::hex_of;
use hgs_plan::print::push_number;
use itoa::Buffer;
use std::alloc::{AllocError, Global};

/// A line of at most so many bytes takes its memory once.
const USUAL_LINE: usize = 256;

// Adds a tab and a text.
fn push_field(into: &mut Vec<u8>, text: &[u8]) -> Result<(), AllocError>
    ensures { OnOk result (into.new.items ≡ into.old.items ++ field text.now) }
{
    into.push(b'\t')?;
    into.extend_from_slice(text)?;
    Ok(())
}

// Adds a tab and a number.
fn push_signed(into: &mut Vec<u8>, number: i64) -> Result<(), AllocError>
    ensures { OnOk result (into.new.items ≡ into.old.items ++ field (signed_decimal number)) }
{
    let mut buffer = Buffer::new();
    push_field(into, buffer.format(number).as_bytes())
}

// Adds a tab and the revision of a parent, -1 where there is none.
fn push_parent(into: &mut Vec<u8>, parent: Option<u32>) -> Result<(), AllocError>
    ensures { OnOk result (into.new.items ≡ into.old.items ++ field (parent_text parent)) }
{
    match parent {
        None => push_field(into, b"-1"),
        Some(rev) => {
            let mut buffer = Buffer::new();
            push_field(into, buffer.format(rev).as_bytes())
        }
    }
}

// What stands before the first LF, or all.
fn first_line_of(text: &[u8]) -> &[u8]
    ensures { result.now ≡ first_line text.now }
{
    match split_at_byte(text, b'\n') {
        Some((line, _)) => line,
        None => text,
    }
}

// Adds what the index says: the revision, its node and its parents.
fn push_revision(into: &mut Vec<u8>, rev: u32, entry: &Entry) -> Result<(), AllocError>
    ensures { OnOk result (into.new.items ≡ into.old.items ++ revision_fields rev entry.now) }
{
    push_number(into, rev as u64)?;
    push_field(into, &hex_of(&entry.node))?;
    push_parent(into, entry.p1)?;
    push_parent(into, entry.p2)
}

// Adds what the text says: the date, the user and the first line of the description.
fn push_change(into: &mut Vec<u8>, change: &ChangeText) -> Result<(), AllocError>
    ensures { OnOk result (into.new.items ≡ into.old.items ++ change_fields (view_change change.now)) }
{
    push_signed(into, change.seconds)?;
    push_signed(into, change.offset as i64)?;
    push_field(into, change.user.as_slice())?;
    push_field(into, first_line_of(change.description.as_slice()))
}

/// The line of a changeset: revision, node, parents, seconds, offset, user and the description's first line, with tabs between.
pub fn line_of(
    alloc: Global,
    rev: u32,
    entry: &Entry,
    change: &ChangeText,
) -> Result<Vec<u8>, AllocError>
    ensures { IfOk result (λ line. line.items ≡ line_text rev entry.now (view_change change.now)) }
{
    let mut line = Vec::with_capacity(alloc, USUAL_LINE)?;
    push_revision(&mut line, rev, entry)?;
    push_change(&mut line, change)?;
    line.push(b'\n')?;
    Ok(line)
}
