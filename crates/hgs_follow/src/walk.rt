//! The followed history of a file revision, by the filelogs of a repository.
ghost use Rattle.std.specs.Prelude.{◌≡◌, List, false, replicate, IfErr, IfOk, OnOk};
ghost use Rattle.hgs_follow.specs.Asked.{Asked, Chain};
ghost use Rattle.hgs_follow.specs.Followed.{Filelogs, number_of};
ghost use Rattle.hgs_follow.specs.Search.{view_copied, AreHeld, Ends, GoesOn, IsFound, IsPut, Takes};
ghost use Rattle.hgs_follow.specs.Stops.{MayStop, StopsAt};

use crate::filelogs::{CopiedFrom, Filelog, Filelogs, Stop};
use crate::line::Line;
use crate::search::{Finds, Reached, search_file};
use hgs_bytes::bytes::Bytes;
use hgs_index::node::Node;
use std::alloc::{AllocError, Global};
use std::collections::BTreeMap;

// So many revisions without a mark.
fn no_marks(alloc: Global, len: u32) -> Result<Vec<bool>, AllocError>
    ensures { IfOk result (λ marks. marks.items ≡ replicate len false) }
{
    vec![in alloc; false; len as usize]
}

// Puts a filelog to the others.
fn put(
    alloc: Global,
    logs: &mut BTreeMap<Bytes, Reached>,
    path: &Bytes,
    filelog: Filelog,
) -> Result<(), AllocError>
    ensures { OnOk result (IsPut logs.old logs.new path.now filelog) }
{
    let marks = no_marks(alloc, filelog.log.len())?;
    logs.insert(path.copy(alloc)?, Reached { filelog, marks })?;
    Ok(())
}

// Loads the filelog of a path, unless it was loaded before.
fn hold<F: Filelogs>(
    alloc: Global,
    files: &mut F,
    logs: &mut BTreeMap<Bytes, Reached>,
    path: &Bytes,
) -> Result<(), Stop<F::Refusal>>
    requires { AreHeld F.holds logs.old }
    ensures ok { OnOk result (Takes F.gives F.holds files.old files.new logs.old logs.new path.now) }
    ensures held { OnOk result (AreHeld F.holds logs.new) }
    ensures err { IfErr result (λ stop. StopsAt F.gives F.refuses files.old stop files.new) }
{
    if logs.contains_key(path) {
        return Ok(());
    }
    let filelog = match files.filelog(path.as_slice()) {
        Ok(filelog) => filelog,
        Err(refusal) => return Err(Stop::Refused(refusal)),
    };
    put(alloc, logs, path, filelog)?;
    Ok(())
}

// Looks for a source, and searches its filelog from there on.
fn look_for<F: Filelogs>(
    alloc: Global,
    files: &mut F,
    logs: &mut BTreeMap<Bytes, Reached>,
    source: &CopiedFrom,
    finds: &mut Finds,
) -> Result<(), Stop<F::Refusal>>
    requires { AreHeld F.holds logs.old }
    ensures ok { OnOk result (GoesOn F.gives files.old files.new logs.old logs.new (view_copied source.now) finds.old finds.new) }
    ensures held { OnOk result (AreHeld F.holds logs.new) }
    ensures err { IfErr result (λ stop. StopsAt F.gives F.refuses files.old stop files.new) }
{
    match hold(alloc, files, logs, &source.path) {
        Ok(()) => {}
        Err(stop) => return Err(stop),
    }
    let Some(reached) = logs.get_mut(&source.path) else {
        return Ok(());
    };
    match reached.filelog.log.rev_of(&source.node) {
        Some(rev) => search_file(alloc, files, source.path.as_slice(), reached, rev, finds),
        None => Ok(()),
    }
}

// Looks for a file revision and for each source that is found, one after the other.
fn search_all<F: Filelogs>(
    alloc: Global,
    files: &mut F,
    first: CopiedFrom,
) -> Result<Vec<Line>, Stop<F::Refusal>>
    ensures ok { IfOk result (λ lines. Ends F.gives files.old files.new (view_copied first) lines.items) }
    ensures err { IfErr result (λ stop. StopsAt F.gives F.refuses files.old stop files.new) }
{
    let mut finds = Finds {
        sources: Vec::new(alloc),
        lines: Vec::new(alloc),
    };
    finds.sources.push(first)?;
    let mut logs = BTreeMap::new(alloc);
    for _ in 0..u64::MAX {
        let Some(source) = finds.sources.pop() else {
            return Ok(finds.lines);
        };
        look_for(alloc, files, &mut logs, &source, &mut finds)?;
    }
    // No memory holds the lines of so many sources.
    Err(Stop::Memory)
}

/// Finds the file revisions of the followed history of the one with a node, and says why not. Each filelog is loaded once, and the
/// text of each file revision of the history is read once.
pub fn walk<F: Filelogs>(
    alloc: Global,
    files: &mut F,
    path: &[u8],
    node: &Node,
) -> Result<Vec<Line>, Stop<F::Refusal>>
    ensures ok { IfOk result (λ lines. (asked : List Asked) × Chain F.gives files.old asked files.new × IsFound (record { path = path.now; node = node.now.0 }) lines.items asked) }
    ensures err { IfErr result (λ stop. MayStop F.gives F.refuses (record { path = path.now; node = node.now.0 }) files.old stop files.new) }
{
    let first = CopiedFrom {
        path: Bytes::from_slice(alloc, path)?,
        node: *node,
    };
    match search_all(alloc, files, first) {
        Ok(lines) if lines.is_empty() => Err(Stop::Missing),
        Ok(lines) => Ok(lines),
        Err(stop) => Err(stop),
    }
}
