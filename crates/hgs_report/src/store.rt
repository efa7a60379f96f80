//! What is read of a store before its filelogs, and what is found of it.
ghost use Rattle.std.specs.Prelude.{◌≡◌, ◌<◌, ◌^◌, ◌++◌, length, OnOk};
ghost use Rattle.hgs_files.specs.Tree.{Tree};
ghost use Rattle.hgs_stands.specs.Places.{changelog_data, changelog_index, manifest_data, manifest_index};
ghost use Rattle.hgs_judge.specs.Report.{findings_in};
ghost use Rattle.hgs_report.specs.Adds.{Adds};
ghost use Rattle.hgs_report.specs.Logs.{of_store};
ghost use Rattle.hgs_report.specs.Store.{IsOfStore, IsStoreOf};

use crate::logs::{add_changesets, add_links, add_log, add_trees, manifest_kinds};
use hgs_bytes::bytes::Bytes;
use hgs_files::path::{StorePath, path_of};
use hgs_judge::changesets::Changeset;
use hgs_judge::kinds::Kinds;
use hgs_judge::reading::Reading;
use hgs_judge::report::{Finding, add_kinds};
use hgs_manifest::manifest::Manifest;
use std::alloc::{AllocError, Global};

/// Revisions and changesets have numbers below this.
const MOST: usize = 0x1_0000_0000;

/// A revlog that was read, with the bytes of its chunks, none where its data file isn't there.
#[derive(Drop)]
pub struct ReadLog {
    pub reading: Reading,
    pub chunks: Option<Bytes>,
    /// Whether bytes stand behind the last whole entry of the index, and behind the last chunk of the data.
    pub index_rest: bool,
    pub data_rest: bool,
}

/// What is read of a store before its filelogs.
#[derive(Drop)]
pub struct Store {
    pub changelog: ReadLog,
    pub manifest: ReadLog,
    /// What can be read of each changeset.
    pub changesets: Vec<Changeset>,
    /// The rows of each manifest; none where its text can't be read.
    pub trees: Vec<Option<Manifest>>,
}

/// The files of the changelog and of the manifest.
#[derive(Drop)]
pub struct LogPaths {
    pub changelog: StorePath,
    pub changelog_chunks: StorePath,
    pub manifest: StorePath,
    pub manifest_chunks: StorePath,
    ghost changelog_is: { changelog ≡ changelog_index },
    ghost changelog_chunks_are: { changelog_chunks ≡ changelog_data },
    ghost manifest_is: { manifest ≡ manifest_index },
    ghost manifest_chunks_are: { manifest_chunks ≡ manifest_data },
}

impl LogPaths {
    pub fn new(alloc: Global) -> Result<LogPaths, AllocError> {
        Ok(LogPaths {
            changelog: path_of(alloc, b"store/00changelog.i")?,
            changelog_chunks: path_of(alloc, b"store/00changelog.d")?,
            manifest: path_of(alloc, b"store/00manifest.i")?,
            manifest_chunks: path_of(alloc, b"store/00manifest.d")?,
        })
    }
}

// Adds what is found, of which these are the revisions of the manifest.
fn add_all(
    alloc: Global,
    paths: &LogPaths,
    store: &Store,
    kinds: &[Kinds],
    into: &mut Vec<Finding>,
) -> Result<(), AllocError>
    requires kinds { length kinds.now < 2 ^ 32 }
    requires changesets { length store.now.changesets.items < 2 ^ 32 }
    requires trees { length store.now.trees.items < 2 ^ 32 }
    ensures { OnOk result (findings_in into.new.items ≡ findings_in into.old.items ++ of_store store.now kinds.now) }
{
    let log = &store.changelog;
    let rows = &store.manifest;
    add_log(
        alloc,
        &paths.changelog,
        &paths.changelog_chunks,
        &log.reading,
        log.index_rest,
        log.data_rest,
        into,
    )?;
    add_log(
        alloc,
        &paths.manifest,
        &paths.manifest_chunks,
        &rows.reading,
        rows.index_rest,
        rows.data_rest,
        into,
    )?;
    add_changesets(
        alloc,
        &paths.changelog,
        &paths.manifest,
        &store.changesets,
        into,
    )?;
    add_links(alloc, &paths.changelog, &log.reading, into)?;
    add_trees(alloc, &paths.manifest, &store.trees, into)?;
    add_kinds(alloc, &paths.manifest, kinds, into)
}

/// Adds what is found of the changelog and of the manifest, the lists of changed files aside.
pub fn add_store(
    alloc: Global,
    paths: &LogPaths,
    store: &Store,
    into: &mut Vec<Finding>,
) -> Result<(), AllocError>
    ensures { OnOk result ((t : Tree) → IsStoreOf store.now t → Adds t (IsOfStore t) (findings_in into.old.items) (findings_in into.new.items)) }
{
    if store.changesets.len() >= MOST || store.trees.len() >= MOST {
        return Err(AllocError);
    }
    let kinds = manifest_kinds(alloc, &store.manifest.reading, &store.changesets)?;
    add_all(alloc, paths, store, &kinds, into)?;
    Ok(())
}
