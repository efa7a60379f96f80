//! Where a path stands among rows whose paths ascend.
ghost use Rattle.std.specs.Prelude.{◌≡◌, ◌<◌, true, false, length, Some, slice_get, IfSome, IfNone};
ghost use Rattle.std.specs.Option.{option_map};
ghost use Rattle.hgs_bytes.specs.Bytes.{among};
ghost use Rattle.hgs_bytes.specs.Text.{ascends};
ghost use Rattle.hgs_findings.specs.Sight.{row_paths};
ghost use Rattle.hgs_judge.specs.Trees.{path_of};

use hgs_bytes::parts::equal;
use hgs_manifest::manifest::Manifest;
use std::cmp::Ordering;

// Where the path stands, by halves.
fn place_by_halves(rows: &Manifest, path: &[u8]) -> Option<u32>
    ensures within { IfSome result (λ i. i < length rows.now) }
    ensures stands { IfSome result (λ i. option_map path_of (slice_get rows.now i) ≡ Some path.now) }
    ensures lacks { IfNone result (ascends (row_paths rows.now) ≡ true → among path.now (row_paths rows.now) ≡ false) }
{
    let mut low = 0;
    let mut high = rows.len();
    while low < high {
        let middle = low + (high - low) / 2;
        match rows.row(middle).path.cmp(path) {
            Ordering::Less => low = middle + 1,
            Ordering::Equal => return Some(middle),
            Ordering::Greater => high = middle,
        }
    }
    None
}

/// Where the path stands: at `near`, where it mostly stands if it stood there in a tree like this one, or else by halves.
pub(crate) fn place_near(rows: &Manifest, path: &[u8], near: u32) -> Option<u32>
    ensures within { IfSome result (λ i. i < length rows.now) }
    ensures stands { IfSome result (λ i. option_map path_of (slice_get rows.now i) ≡ Some path.now) }
    ensures lacks { IfNone result (ascends (row_paths rows.now) ≡ true → among path.now (row_paths rows.now) ≡ false) }
{
    if near < rows.len() && equal(rows.row(near).path, path) {
        return Some(near);
    }
    place_by_halves(rows, path)
}
