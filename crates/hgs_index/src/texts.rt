//! The faults of the texts of manifests and changesets, and nodes as hex digits.
ghost use Rattle.std.specs.Prelude.{◌≡◌, ℕ, List, Ok};
ghost use Rattle.std.specs.Option.{option_map};
ghost use Rattle.hgs_index.specs.ChangeText.{Change, IsChange, change_text, read_change};
ghost use Rattle.hgs_index.specs.Hex.{hex, node_at};
ghost use Rattle.hgs_index.specs.Manifest.{Row, AreRows, manifest_text, read_manifest};

use crate::node::Node;
use hgs_bytes::parts::equal;
use std::alloc::{AllocError, AllocFailed};
use thiserror::Error;

/// Why a text is no manifest. Lines are counted from 1.
#[derive(Clone, Copy, Debug, PartialEq, Eq, Error)]
pub enum ManifestFault {
    /// The first line out of form.
    #[error("line {0} is no line of a manifest")]
    Line(u64),
    /// The first line whose path does not come after the one before.
    #[error("the path of line {0} does not come after the one before")]
    Order(u64),
    #[error("out of memory")]
    Memory,
}

impl From<AllocError> for ManifestFault {
    ghost use Rattle.std.specs.Prelude.{◌≡◌};
    ghost use Rattle.hgs_index.specs.declared.texts.ManifestFault.TheVariants.{Memory};

    ghost from_gives = { λ _ e. e ≡ Memory };

    fn from(_: AllocError) -> ManifestFault {
        ManifestFault::Memory
    }
}

impl<T: Drop> From<AllocFailed<T>> for ManifestFault {
    ghost use Rattle.std.specs.Prelude.{◌≡◌};
    ghost use Rattle.hgs_index.specs.declared.texts.ManifestFault.TheVariants.{Memory};

    ghost from_gives = { λ _ e. e ≡ Memory };

    fn from(_: AllocFailed<T>) -> ManifestFault {
        ManifestFault::Memory
    }
}

/// Why a text is no changeset. They are tested in this order.
#[derive(Clone, Copy, Debug, PartialEq, Eq, Error)]
pub enum ChangeFault {
    /// There is no empty line, or fewer than three lines stand before it.
    #[error("the text has no header of three lines and an empty line")]
    Shape,
    /// The first line is no node.
    #[error("the first line is no manifest's node")]
    Node,
    /// The third line is no date.
    #[error("the third line is no date")]
    Date,
    /// The changed files do not ascend.
    #[error("the changed files do not ascend")]
    Files,
    /// The user or the description is not UTF-8.
    #[error("the user or the description is not UTF-8")]
    Utf8,
    #[error("out of memory")]
    Memory,
}

impl From<AllocError> for ChangeFault {
    ghost use Rattle.std.specs.Prelude.{◌≡◌};
    ghost use Rattle.hgs_index.specs.declared.texts.ChangeFault.TheVariants.{Memory};

    ghost from_gives = { λ _ e. e ≡ Memory };

    fn from(_: AllocError) -> ChangeFault {
        ChangeFault::Memory
    }
}

impl<T: Drop> From<AllocFailed<T>> for ChangeFault {
    ghost use Rattle.std.specs.Prelude.{◌≡◌};
    ghost use Rattle.hgs_index.specs.declared.texts.ChangeFault.TheVariants.{Memory};

    ghost from_gives = { λ _ e. e ≡ Memory };

    fn from(_: AllocFailed<T>) -> ChangeFault {
        ChangeFault::Memory
    }
}

/// The 40 lower-case digits of a node.
pub fn hex_of(node: &Node) -> [u8; 40]
    ensures { result ≡ hex node.now.0 }
{
    let mut digits = [0; 40];
    match hex::encode_to_slice(node.0.as_slice(), &mut digits) {
        Ok(()) => digits,
        Err(_) => unreachable!(),
    }
}

/// The node that 40 lower-case digits stand for.
pub fn node_from(digits: &[u8]) -> Option<Node>
    ensures { option_map (λ n. n.0) result ≡ node_at digits.now }
{
    let mut bytes = [0; 20];
    match hex::decode_to_slice(digits, &mut bytes) {
        Ok(()) => {
            let node = Node(bytes);
            if equal(digits, hex_of(&node).as_slice()) {
                Some(node)
            } else {
                None
            }
        }
        Err(_) => None,
    }
}

/// Rows that ascend are read from their text again.
pub fn manifest_prints_then_reads()
    ensures { (rows : List Row) → AreRows rows → read_manifest (manifest_text rows) ≡ Ok rows }
{}

/// A text that is read is the text of its rows, which ascend: it has no other rows, and they have no other text.
pub fn manifest_reads_then_prints()
    ensures { (text : List ℕ) (rows : List Row) → read_manifest text ≡ Ok rows → (text ≡ manifest_text rows) × AreRows rows }
{}

/// A changeset in form is read from its text again.
pub fn change_prints_then_reads()
    ensures { (c : Change) → IsChange c → read_change (change_text c) ≡ Ok c }
{}

/// A text that is read is the text of its changeset, which is in form: it has no other value.
pub fn change_reads_then_prints()
    ensures { (text : List ℕ) (c : Change) → read_change text ≡ Ok c → (text ≡ change_text c) × IsChange c }
{}
