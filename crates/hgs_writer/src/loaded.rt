//! What a command is planned from, of what was read.
ghost use Rattle.std.specs.Prelude.{◌≡◌, ◌<◌, [], length, unwrap_or, IfSome};
ghost use Rattle.hgs_loading.specs.Store.{view_store};
ghost use Rattle.hgs_writer.specs.Planning.{IsLoadedFrom};

use hgs_bytes::bytes::Bytes;
use hgs_loading::small::SmallFiles;
use hgs_loading::store::{LoadedStore, Logs};
use hgs_steps::loaded::{Loaded, Standing};

// How many bytes were read.
fn length_of(bytes: &Option<Bytes>) -> u64
    ensures { result ≡ length (unwrap_or bytes.now []) }
{
    match bytes {
        Some(bytes) => bytes.len() as u64,
        None => 0,
    }
}

/// What a command is planned from.
pub fn loaded_of(store: LoadedStore) -> Loaded
    requires first { IfSome store.working.first (λ rev. rev < length store.changelog.entries) }
    requires second { IfSome store.working.second (λ rev. rev < length store.changelog.entries) }
    requires phases { length store.phases ≡ length store.changelog.entries }
    ensures { IsLoadedFrom (view_store store) result }
{
    let LoadedStore {
        files,
        changelog,
        manifest,
        working,
        phases,
    } = store;
    let SmallFiles {
        bookmarks,
        dirstate,
        roots,
        fncache,
    } = files;
    let fncache_length = length_of(&fncache.bytes);
    Loaded {
        changelog,
        manifest,
        bookmarks: bookmarks.bookmarks,
        working,
        phases,
        fncache: fncache.fncache,
        fncache_length,
        standing: Standing {
            bookmarks: bookmarks.bytes,
            dirstate: dirstate.bytes,
            roots: roots.bytes,
        },
    }
}

/// The two revlogs of what a command was planned from.
pub(crate) fn logs_of(loaded: Loaded) -> Logs
    ensures changelog { result.changelog ≡ loaded.changelog }
    ensures manifest { result.manifest ≡ loaded.manifest }
{
    let Loaded {
        changelog,
        manifest,
        ..
    } = loaded;
    Logs {
        changelog,
        manifest,
    }
}
