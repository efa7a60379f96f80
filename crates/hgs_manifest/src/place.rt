// Where the rows of a manifest stand.
ghost use Rattle.std.specs.Prelude.{◌≡◌, ◌<◌, ◌∷◌, [], ◌++◌, map, length, OnOk, OnErr};
ghost use Rattle.hgs_manifest.specs.Held.{view_row, row_in, found_in, IsHeld};
ghost use Rattle.std.specs.Option.{option_map};

use hgs_bytes::parts::{equal, front, past};
use hgs_index::kinds::Flag;
use hgs_index::node::Node;
use std::alloc::AllocError;

/// A file of a manifest.
#[derive(Clone, Copy, Debug)]
pub struct Row<'a> {
    pub path: &'a [u8],
    pub node: Node,
    pub flag: Flag,
}

/// A file of a manifest whose path stands among those of the others.
#[derive(Clone, Copy, Debug)]
pub struct Place {
    pub from: usize,
    pub len: usize,
    pub node: Node,
    pub flag: Flag,
}

/// The row whose path stands at this place of the paths.
pub(crate) fn row_of<'a>(paths: &'a [u8], place: &Place) -> Row<'a>
    ensures { view_row result ≡ row_in paths.now place.now }
{
    Row {
        path: front(past(paths, place.from), place.len),
        node: place.node,
        flag: place.flag,
    }
}

/// Adds a row at the end, or changes nothing where there is no memory.
pub(crate) fn add_row(
    paths: &mut Vec<u8>,
    places: &mut Vec<Place>,
    row: Row<'_>,
) -> Result<(), AllocError>
    requires held { IsHeld paths.old.items places.old.items }
    requires room { length places.old.items < 33554432 }
    ensures held { IsHeld paths.new.items places.new.items }
    ensures ok { OnOk result (map (row_in paths.new.items) places.new.items ≡ map (row_in paths.old.items) places.old.items ++ view_row row.entry ∷ []) }
    ensures err { OnErr result (map (row_in paths.new.items) places.new.items ≡ map (row_in paths.old.items) places.old.items) }
{
    let place = Place {
        from: paths.len(),
        len: row.path.len(),
        node: row.node,
        flag: row.flag,
    };
    paths.extend_from_slice(row.path)?;
    match places.push(place) {
        Ok(()) => Ok(()),
        Err(_) => {
            paths.truncate(place.from);
            Err(AllocError)
        }
    }
}

/// The node and the flag of the row with this path.
pub(crate) fn find(paths: &[u8], places: &[Place], path: &[u8]) -> Option<(Node, Flag)>
    ensures { option_map (λ x. (x.0.0, x.1)) result ≡ found_in path.now (map (row_in paths.now) places.now) }
{
    for place in places {
        let row = row_of(paths, place);
        if equal(row.path, path) {
            return Some((row.node, row.flag));
        }
    }
    None
}
