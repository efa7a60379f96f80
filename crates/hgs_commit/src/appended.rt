//! What is appended of a new revision to the two files of its revlog.
ghost use Rattle.std.specs.Prelude.{◌≡◌, true};
ghost use Rattle.std.specs.List.{list_all};
ghost use Rattle.hgs_commit.specs.Appended.{is_beside, optional_append};

use hgs_transaction::parts::Appending;

/// What is appended of a new revision: its chunk to the data file, if it has bytes, and then its entry to the index, where
/// that is inline with the chunk behind it.
#[derive(Debug, Drop)]
pub struct Growth {
    pub chunk: Option<Appending>,
    pub entry: Appending,
    /// The entry itself.
    pub new_entry: [u8; 64],
    pub ghost chunk_beside: { list_all is_beside (optional_append chunk) ≡ true },
}
