//! The paths of the files that a reader reads.
ghost use Rattle.std.specs.Prelude.{◌≡◌};
ghost use Rattle.hgs_load.specs.Marks.{bookmarks_path, dirstate_path, roots_path};
ghost use Rattle.hgs_load.specs.Open.{requires_path};
ghost use Rattle.hgs_load.specs.View.{changelog_index, changelog_data};

use hgs_files::path::{StorePath, path_of};
use std::alloc::{AllocError, Global};

/// The two files of the changelog.
#[derive(Drop)]
pub struct ChangelogPaths {
    index: StorePath,
    chunks: StorePath,
    ghost names_index: { index ≡ changelog_index },
    ghost names_data: { chunks ≡ changelog_data },
}

impl ChangelogPaths {
    pub fn new(alloc: Global) -> Result<ChangelogPaths, AllocError> {
        Ok(ChangelogPaths {
            index: path_of(alloc, b"store/00changelog.i")?,
            chunks: path_of(alloc, b"store/00changelog.d")?,
        })
    }

    pub fn index(&self) -> &StorePath
        ensures { result.now ≡ changelog_index }
    {
        &self.index
    }

    pub fn chunks(&self) -> &StorePath
        ensures { result.now ≡ changelog_data }
    {
        &self.chunks
    }
}

/// The files that a load reads beside the changelog.
#[derive(Drop)]
pub struct LoadPaths {
    requires_file: StorePath,
    bookmarks: StorePath,
    dirstate: StorePath,
    roots: StorePath,
    ghost names_requires: { requires_file ≡ requires_path },
    ghost names_bookmarks: { bookmarks ≡ bookmarks_path },
    ghost names_dirstate: { dirstate ≡ dirstate_path },
    ghost names_roots: { roots ≡ roots_path },
}

impl LoadPaths {
    pub fn new(alloc: Global) -> Result<LoadPaths, AllocError> {
        Ok(LoadPaths {
            requires_file: path_of(alloc, b"requires")?,
            bookmarks: path_of(alloc, b"bookmarks")?,
            dirstate: path_of(alloc, b"dirstate")?,
            roots: path_of(alloc, b"store/phaseroots")?,
        })
    }

    pub fn requires_file(&self) -> &StorePath
        ensures { result.now ≡ requires_path }
    {
        &self.requires_file
    }

    pub fn bookmarks(&self) -> &StorePath
        ensures { result.now ≡ bookmarks_path }
    {
        &self.bookmarks
    }

    pub fn dirstate(&self) -> &StorePath
        ensures { result.now ≡ dirstate_path }
    {
        &self.dirstate
    }

    pub fn roots(&self) -> &StorePath
        ensures { result.now ≡ roots_path }
    {
        &self.roots
    }
}
