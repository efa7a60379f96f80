//! The filelog of a path.
ghost use Rattle.std.specs.Prelude.{◌≡◌, true};
ghost use Rattle.hgs_commit.specs.Appended.{is_beside_path};

use hgs_reader::find::RevlogPaths;
use hgs_revlog::revlog::Revlog;

/// The filelog of a path.
#[derive(Drop)]
pub struct Filelog {
    pub paths: RevlogPaths,
    pub log: Revlog,
    pub ghost index_beside: { is_beside_path paths.index ≡ true },
    pub ghost chunks_beside: { is_beside_path paths.chunks ≡ true },
}
