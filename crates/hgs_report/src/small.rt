//! What is found of the small files.
ghost use Rattle.std.specs.Prelude.{◌≡◌, OnOk};
ghost use Rattle.hgs_files.specs.Tree.{Tree, bytes_at};
ghost use Rattle.hgs_stands.specs.Places.{bookmarks_path, dirstate_path, roots_path};
ghost use Rattle.hgs_judge.specs.Report.{findings_in};
ghost use Rattle.hgs_report.specs.Adds.{Adds};
ghost use Rattle.hgs_report.specs.Store.{IsStoreOf};
ghost use Rattle.hgs_report.specs.Texts.{IsOfBookmarks, IsOfDirstate, IsOfRoots};

use crate::lines::{add_lines, line_nodes, root_nodes};
use crate::store::Store;
use crate::working::{add_dirstate, dirstate_of};
use hgs_files::path::StorePath;
use hgs_judge::report::Finding;
use std::alloc::{AllocError, Global};

/// Adds what is found of the phase roots. The path and the text are those of their file.
pub fn add_roots(
    alloc: Global,
    path: &StorePath,
    text: &[u8],
    store: &Store,
    into: &mut Vec<Finding>,
) -> Result<(), AllocError>
    requires { path.now ≡ roots_path }
    ensures { OnOk result ((t : Tree) → IsStoreOf store.now t → text.now ≡ bytes_at t roots_path → Adds t (IsOfRoots t) (findings_in into.old.items) (findings_in into.new.items)) }
{
    let nodes = root_nodes(alloc, text)?;
    add_lines(alloc, path, 13, &nodes, &store.changelog.reading, into)?;
    Ok(())
}

/// Adds what is found of the bookmarks. The path and the text are those of their file.
pub fn add_bookmarks(
    alloc: Global,
    path: &StorePath,
    text: &[u8],
    store: &Store,
    into: &mut Vec<Finding>,
) -> Result<(), AllocError>
    requires { path.now ≡ bookmarks_path }
    ensures { OnOk result ((t : Tree) → IsStoreOf store.now t → text.now ≡ bytes_at t bookmarks_path → Adds t (IsOfBookmarks t) (findings_in into.old.items) (findings_in into.new.items)) }
{
    let nodes = line_nodes(alloc, text)?;
    add_lines(alloc, path, 14, &nodes, &store.changelog.reading, into)?;
    Ok(())
}

/// Adds what is found of the working parents and the tracked paths. The path and the text are those of their file.
pub fn add_working(
    alloc: Global,
    path: &StorePath,
    text: &[u8],
    store: &Store,
    into: &mut Vec<Finding>,
) -> Result<(), AllocError>
    requires { path.now ≡ dirstate_path }
    ensures { OnOk result ((t : Tree) → IsStoreOf store.now t → text.now ≡ bytes_at t dirstate_path → Adds t (IsOfDirstate t) (findings_in into.old.items) (findings_in into.new.items)) }
{
    let dirstate = dirstate_of(alloc, text)?;
    let log = &store.changelog.reading;
    add_dirstate(
        alloc,
        path,
        &dirstate,
        log,
        &store.changesets,
        &store.trees,
        into,
    )?;
    Ok(())
}
