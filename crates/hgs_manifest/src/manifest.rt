//! Manifests.
ghost use Rattle.std.specs.Prelude.{◌≡◌, ◌<◌, ◌∷◌, [], ◌++◌, length, slice_get, Some, OnOk, OnErr};
ghost use Rattle.std.specs.Option.{option_map};
ghost use Rattle.hgs_bytes.specs.Answer.{Gives};
ghost use Rattle.hgs_index.specs.Manifest.{last_path, is_memory};
ghost use Rattle.hgs_manifest.specs.Held.{view_row, found_in, is_row_path, is_without, with_last};

use crate::place::{Place, Row, add_row, find, row_of};
use hgs_bytes::parts::below;
use hgs_index::kinds::Flag;
use hgs_index::node::Node;
use hgs_index::texts::ManifestFault;
use std::alloc::{AllocError, Global};
use std::marker::Model;

/// The files of a changeset, in the order of their paths' bytes.
///
/// The paths stand one after another in one vector.
#[derive(Debug, Drop)]
pub struct Manifest {
    paths: Vec<u8>,
    places: Vec<Place>,
}

impl Model for Manifest {
    ghost use Rattle.std.specs.Prelude.{List, map};
    ghost use Rattle.hgs_index.specs.Manifest.{Row};
    ghost use Rattle.hgs_manifest.specs.Held.{row_in, IsHeld};

    ghost Value = { List Row };

    ghost view = { λ m. map (row_in m.paths.items) m.places.items };

    ghost invariant = { λ m. IsHeld m.paths.items m.places.items };
}

fn is_free_of(text: &[u8], byte: u8) -> bool
    ensures { result ≡ is_without byte text.now }
{
    !text.contains(&byte)
}

/// Whether a line can hold the path.
fn is_path(path: &[u8]) -> bool
    ensures { result ≡ is_row_path path.now }
{
    path.len() != 0 && is_free_of(path, 0) && is_free_of(path, b'\n')
}

impl Manifest {
    /// A manifest of no files. Takes no memory.
    pub fn empty(alloc: Global) -> Manifest
        ensures { result ≡ [] }
    {
        Manifest {
            paths: Vec::new(alloc),
            places: Vec::new(alloc),
        }
    }

    /// The number of files.
    pub fn len(&self) -> u32
        ensures { result ≡ length self.now }
    {
        self.places.len() as u32
    }

    /// The file at place `i` in the order of paths, from 0.
    pub fn row(&self, i: u32) -> Row<'_>
        requires { i < length self.now }
        ensures { slice_get self.now i ≡ Some (view_row result) }
    {
        row_of(&self.paths, &self.places[i as usize])
    }

    /// The node and the flag of a path; none where it is no path of the manifest.
    pub fn get(&self, path: &[u8]) -> Option<(Node, Flag)>
        ensures { option_map (λ x. (x.0.0, x.1)) result ≡ found_in path.now self.now }
    {
        find(&self.paths, &self.places, path)
    }

    /// The path of the last file, the empty one where there is none.
    pub fn last_path(&self) -> &[u8]
        ensures { result.now ≡ last_path self.now }
    {
        match self.places.last() {
            Some(place) => row_of(&self.paths, place).path,
            None => &[],
        }
    }

    /// Adds a row at the end, or changes nothing where there is no memory.
    pub(crate) fn add(&mut self, row: Row<'_>) -> Result<(), AllocError>
        requires { length self.old < 33554432 }
        ensures ok { OnOk result (self.new ≡ self.old ++ view_row row.entry ∷ []) }
        ensures err { OnErr result (self.new ≡ self.old) }
    {
        add_row(&mut self.paths, &mut self.places, row)
    }

    /// Adds a file, whose path has to come after the last one. After a refusal nothing has changed; its number is that of
    /// the row that would have been added, from 1.
    pub fn push(&mut self, path: &[u8], node: Node, flag: Flag) -> Result<(), ManifestFault>
        requires { length self.old < 1000000 }
        ensures answer { Gives is_memory (λ _. self.new) result (with_last self.old (record { path = path.now; node = node.0; flag = flag })) }
        ensures err { OnErr result (self.new ≡ self.old) }
    {
        let number = self.len() as u64 + 1;
        if !is_path(path) {
            return Err(ManifestFault::Line(number));
        }
        if !below(self.last_path(), path) {
            return Err(ManifestFault::Order(number));
        }
        self.add(Row { path, node, flag })?;
        Ok(())
    }
}
