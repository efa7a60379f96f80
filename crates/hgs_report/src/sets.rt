//! Sets of names.
ghost use Rattle.std.specs.Prelude.{◌≡◌, ◌||◌, List, ℕ, not, IfOk, OnOk};
ghost use Rattle.hgs_bytes.specs.Bytes.{among, same};
ghost use Rattle.hgs_report.specs.Lines.{has_key};

use hgs_bytes::bytes::Bytes;
use std::alloc::{AllocError, Global};
use std::collections::BTreeSet;

/// Enters a name, and says whether it is new.
pub fn enter(set: &mut BTreeSet<Vec<u8>>, name: Vec<u8>) -> Result<bool, AllocError>
    ensures new { IfOk result (λ is_new. is_new ≡ not (has_key set.old.keys name.items)) }
    ensures keys { OnOk result ((path : List ℕ) → has_key set.new.keys path ≡ (same path name.items || has_key set.old.keys path)) }
{
    let is_new = set.insert(name)?;
    Ok(is_new)
}

/// The set of these names.
pub fn set_of(alloc: Global, names: &[Bytes]) -> Result<BTreeSet<Vec<u8>>, AllocError>
    ensures { IfOk result (λ set. (path : List ℕ) → has_key set.keys path ≡ among path names.now) }
{
    let mut set = BTreeSet::new(alloc);
    for name in names {
        enter(&mut set, Vec::from_slice(alloc, name.as_slice())?)?;
    }
    Ok(set)
}
