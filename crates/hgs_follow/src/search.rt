//! A search through one filelog, by the parents of its revisions.
ghost use Rattle.std.specs.Prelude.{◌≡◌, ◌⊎◌, ◌<◌, ◌++◌, ◌∷◌, [], List, ℕ, length, Some, IfErr, OnOk};
ghost use Rattle.hgs_index.specs.Ancestor.{IsParent};
ghost use Rattle.hgs_index.specs.Revision.{ParentsBefore};
ghost use Rattle.hgs_revlog.specs.Loaded.{parents_in};
ghost use Rattle.hgs_follow.specs.Asked.{told, Chain};
ghost use Rattle.hgs_follow.specs.Search.{asked_of, Adds, AddsLine, Marks, Searched, Text};
ghost use Rattle.hgs_follow.specs.Stops.{StopsAt};

use crate::filelogs::{CopiedFrom, Filelog, Filelogs, Stop};
use crate::line::Line;
use hgs_bytes::bytes::Bytes;
use std::alloc::{AllocError, Global};
use std::cmp::Reverse;

/// A loaded filelog, and a mark at each of its revisions that was reached.
#[derive(Drop)]
pub struct Reached {
    pub filelog: Filelog,
    pub marks: Vec<bool>,
}

/// What a search has found.
#[derive(Drop)]
pub struct Finds {
    /// The sources that were not looked for yet.
    pub sources: Vec<CopiedFrom>,
    /// The file revisions that were looked at.
    pub lines: Vec<Line>,
}

// Marks a revision, where there is one, and puts it on the list of those that are to be looked at, unless it has a mark.
fn mark(marks: &mut Vec<bool>, waiting: &mut Vec<u32>, rev: Option<u32>) -> Result<(), AllocError>
    ensures { OnOk result (Marks (λ r. rev ≡ Some r) marks.old.items marks.new.items waiting.old.items waiting.new.items) }
{
    let Some(rev) = rev else {
        return Ok(());
    };
    let place = rev as usize;
    if place >= marks.len() || marks[place] {
        return Ok(());
    }
    waiting.push(rev)?;
    marks[place] = true;
    Ok(())
}

// Marks the parents of a revision.
fn mark_parents(
    filelog: &Filelog,
    marks: &mut Vec<bool>,
    waiting: &mut Vec<u32>,
    rev: u32,
) -> Result<(), AllocError>
    requires { rev < length filelog.now.log.entries }
    ensures { OnOk result (Marks (λ p. IsParent (parents_in filelog.now.log.entries) p rev) marks.old.items marks.new.items waiting.old.items waiting.new.items) }
{
    let entry = filelog.log.entry(rev);
    mark(marks, waiting, entry.p1)?;
    mark(marks, waiting, entry.p2)?;
    Ok(())
}

// Adds the line of a revision.
fn add_line(
    alloc: Global,
    path: &[u8],
    filelog: &Filelog,
    rev: u32,
    finds: &mut Finds,
) -> Result<(), AllocError>
    requires { rev < length filelog.now.log.entries }
    ensures lines { OnOk result (AddsLine path.now filelog.now.log.entries rev finds.old.lines.items finds.new.lines.items) }
    ensures sources { finds.new.sources.items ≡ finds.old.sources.items }
{
    let entry = filelog.log.entry(rev);
    finds.lines.push(Line {
        link: Reverse(entry.link),
        path: Bytes::from_slice(alloc, path)?,
        rev,
        node: entry.node,
    })?;
    Ok(())
}

// Reads the text of a revision, and adds its line and its source.
fn look_at<F: Filelogs>(
    alloc: Global,
    files: &mut F,
    path: &[u8],
    filelog: &Filelog,
    rev: u32,
    finds: &mut Finds,
) -> Result<(), Stop<F::Refusal>>
    requires there { rev < length filelog.now.log.entries }
    requires holds { F.holds path.now filelog.now }
    ensures ok { OnOk result ((text : List ℕ) × F.gives files.old (told path.now rev text) files.new × Adds path.now filelog.now.log.entries (record { rev = rev; text = text } ∷ []) finds.old finds.new) }
    ensures err { IfErr result (λ stop. StopsAt F.gives F.refuses files.old stop files.new) }
{
    let source = match files.source(path, filelog, rev) {
        Ok(source) => source,
        Err(refusal) => return Err(Stop::Refused(refusal)),
    };
    add_line(alloc, path, filelog, rev, finds)?;
    if let Some(source) = source {
        finds.sources.push(source)?;
    }
    Ok(())
}

/// Searches a filelog from a revision on, down to the oldest, past what has a mark.
pub(crate) fn search_file<F: Filelogs>(
    alloc: Global,
    files: &mut F,
    path: &[u8],
    reached: &mut Reached,
    from: u32,
    finds: &mut Finds,
) -> Result<(), Stop<F::Refusal>>
    requires holds { F.holds path.now reached.old.filelog }
    requires size { length reached.old.marks.items ≡ length reached.old.filelog.log.entries }
    requires earlier { ParentsBefore 0 (parents_in reached.old.filelog.log.entries) }
    ensures ok { OnOk result ((texts : List Text) × Chain F.gives files.old (asked_of path.now texts) files.new × Searched reached.old.filelog.log.entries from reached.old.marks.items reached.new.marks.items texts × Adds path.now reached.old.filelog.log.entries texts finds.old finds.new) }
    ensures filelog { reached.new.filelog ≡ reached.old.filelog }
    ensures err { IfErr result (λ stop. StopsAt F.gives F.refuses files.old stop files.new) }
{
    let mut waiting = Vec::new(alloc);
    mark(&mut reached.marks, &mut waiting, Some(from))?;
    while let Some(rev) = waiting.pop() {
        mark_parents(&reached.filelog, &mut reached.marks, &mut waiting, rev)?;
        look_at(alloc, files, path, &reached.filelog, rev, finds)?;
    }
    Ok(())
}
