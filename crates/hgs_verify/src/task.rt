//! A path whose filelog is read.
ghost use Rattle.std.specs.Prelude.{◌≡◌};
ghost use Rattle.hgs_path.specs.StoreName.{store_name};
ghost use Rattle.hgs_path.specs.declared.name.Ext.TheVariants.{I, D};

use crate::revlog::Parts;
use hgs_bytes::bytes::Bytes;
use hgs_files::path::StorePath;
use hgs_judge::path::PathFindings;
use hgs_revlog::fault::RevFault;

/// A path, the bytes of its filelog, and what is found of it.
#[derive(Drop)]
pub struct Task {
    pub path: Bytes,
    pub index: StorePath,
    pub chunks: StorePath,
    /// The bytes of the filelog, as a separate one has them.
    pub parts: Parts,
    /// Want of memory until it is judged.
    pub found: Result<PathFindings, RevFault>,
    ghost index_is: { index ≡ store_name path I },
    ghost chunks_are: { chunks ≡ store_name path D },
}
