//! The text of a followed history.
ghost use Rattle.std.specs.Prelude.{◌≡◌, ◌++◌, List, ℕ, IfErr, IfOk, OnErr, OnOk};
ghost use Rattle.std.specs.List.Sorted.{IsPermutation};
ghost use Rattle.hgs_follow.specs.Asked.{Asked, Chain};
ghost use Rattle.hgs_follow.specs.Follow.{Follows};
ghost use Rattle.hgs_follow.specs.Lines.{line_text, lines_text, StandInOrder};
ghost use Rattle.hgs_follow.specs.Stops.{MayStop};

use crate::filelogs::{Filelogs, Stop};
use crate::line::Line;
use crate::walk::walk;
use hgs_index::node::Node;
use hgs_index::texts::hex_of;
use itoa::Buffer;
use std::alloc::{AllocError, Global};

// Puts lines into their order.
fn sort(lines: &mut Vec<Line>)
    ensures ordered { StandInOrder lines.new.items }
    ensures same { IsPermutation lines.old.items lines.new.items }
{
    lines.sort_unstable();
}

// Adds a line: the changeset, the node and the path, with spaces between.
fn push_line(into: &mut Vec<u8>, line: &Line) -> Result<(), AllocError>
    ensures { OnOk result (into.new.items ≡ into.old.items ++ line_text line.now) }
{
    let mut buffer = Buffer::new();
    into.extend_from_slice(buffer.format(line.link.0).as_bytes())?;
    into.push(b' ')?;
    into.extend_from_slice(&hex_of(&line.node))?;
    into.push(b' ')?;
    into.extend_from_slice(line.path.as_slice())?;
    into.push(b'\n')?;
    Ok(())
}

// The text of lines, in the order in which they stand.
fn text_of(alloc: Global, lines: &[Line]) -> Result<Vec<u8>, AllocError>
    ensures { IfOk result (λ text. text.items ≡ lines_text lines.now) }
{
    let mut text = Vec::new(alloc);
    for place in 0..lines.len() {
        push_line(&mut text, &lines[place])?;
    }
    Ok(text)
}

/// Adds the text of the followed history of a path's file revision with this node: a line for each of its file revisions, with the
/// changeset, the node and the path, the latest first. A refusal adds nothing.
///
/// Each filelog is loaded once, and the text of each file revision of the history is read once.
pub fn follow<F: Filelogs>(
    alloc: Global,
    files: &mut F,
    path: &[u8],
    node: &Node,
    into: &mut Vec<u8>,
) -> Result<(), Stop<F::Refusal>>
    ensures ok { OnOk result ((asked : List Asked) × (text : List ℕ) × Chain F.gives files.old asked files.new × (into.new.items ≡ into.old.items ++ text) × Follows (record { path = path.now; node = node.now.0 }) asked text) }
    ensures err { IfErr result (λ stop. MayStop F.gives F.refuses (record { path = path.now; node = node.now.0 }) files.old stop files.new) }
    ensures kept { OnErr result (into.new.items ≡ into.old.items) }
{
    let mut lines = match walk(alloc, files, path, node) {
        Ok(lines) => lines,
        Err(stop) => return Err(stop),
    };
    sort(&mut lines);
    let text = text_of(alloc, &lines)?;
    into.extend_from_slice(&text)?;
    Ok(())
}
