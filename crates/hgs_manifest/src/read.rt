// Reading a manifest.
ghost use Rattle.std.specs.Prelude.{◌≡◌, ◌≤◌};
ghost use Rattle.std.specs.Option.{option_map};
ghost use Rattle.hgs_bytes.specs.Answer.{Gives};
ghost use Rattle.hgs_bytes.specs.Text.{split};
ghost use Rattle.hgs_index.specs.Manifest.{flag_at, row_of_parts, read_manifest, is_memory};
ghost use Rattle.hgs_manifest.specs.Held.{view_row};
ghost use Rattle.std.specs.Prelude.{length};

use crate::manifest::Manifest;
use crate::place::Row;
use hgs_bytes::parts::{below, front, next_line, past, split_at_byte};
use hgs_index::kinds::Flag;
use hgs_index::texts::{ManifestFault, node_from};
use std::alloc::Global;

/// The flag that stands behind a node.
fn flag_from(bytes: &[u8]) -> Option<Flag>
    ensures { result ≡ flag_at bytes.now }
{
    match bytes {
        [] => Some(Flag::Plain),
        [b'x'] => Some(Flag::Exec),
        [b'l'] => Some(Flag::Link),
        _ => None,
    }
}

/// The row of a line without its LF.
fn row_from(line: &[u8]) -> Option<Row<'_>>
    ensures { option_map view_row result ≡ row_of_parts (split 0 line.now) }
{
    let (path, rest) = split_at_byte(line, 0)?;
    if path.len() == 0 {
        return None;
    }
    let node = node_from(front(rest, 40))?;
    let flag = flag_from(past(rest, 40))?;
    Some(Row { path, node, flag })
}

impl Manifest {
    /// The manifest of a text, or the first of its faults by lines; at one line `Line` comes before `Order`.
    pub fn read(alloc: Global, text: &[u8]) -> Result<Manifest, ManifestFault>
        requires { length text.now ≤ 33554432 }
        ensures { Gives is_memory (λ m. m) result (read_manifest text.now) }
    {
        let mut manifest = Manifest::empty(alloc);
        let mut rest = text;
        while rest.len() > 0 {
            let (line, whole, after) = next_line(rest);
            let number = manifest.len() as u64 + 1;
            if !whole {
                return Err(ManifestFault::Line(number));
            }
            let Some(row) = row_from(line) else {
                return Err(ManifestFault::Line(number));
            };
            if !below(manifest.last_path(), row.path) {
                return Err(ManifestFault::Order(number));
            }
            manifest.add(row)?;
            rest = after;
        }
        Ok(manifest)
    }
}
