//! The rows of a parent's manifest, passed in the order of their paths.
ghost use Rattle.std.specs.Prelude.{◌≡◌, ◌≤◌, ◌++◌, ◌∷◌, [], List, length, map, OnOk, option_map};
ghost use Rattle.hgs_commit.specs.Walk.{before, behind_row, first_row, from_path, told_of_found, told_of_row};

use hgs_bytes::bytes::Bytes;
use hgs_bytes::parts::{below, equal};
use hgs_index::kinds::Flag;
use hgs_index::node::Node;
use hgs_manifest::manifest::Manifest;
use std::alloc::{AllocError, Global};
use std::marker::Model;

/// A parent's manifest, of which some rows were passed. Contracts see it as the rows that were not.
#[derive(Drop)]
pub struct Walk<'a> {
    manifest: &'a Manifest,
    next: u32,
}

// Adds the path of a row.
fn push_path(alloc: Global, path: &[u8], passed: &mut Vec<Bytes>) -> Result<(), AllocError>
    ensures { OnOk result (passed.new.items ≡ passed.old.items ++ path.now ∷ []) }
{
    passed.push(Bytes::from_slice(alloc, path)?)?;
    Ok(())
}

impl<'a> Model for Walk<'a> {
    ghost use Rattle.std.specs.Prelude.{◌≤◌, List, drop, length};
    ghost use Rattle.hgs_index.specs.Manifest.{Row};

    ghost Value = { List Row };

    ghost view = { λ w. drop w.next w.manifest.now };

    ghost invariant = { λ w. w.next ≤ length w.manifest.now };
}

impl<'a> Walk<'a> {
    /// All rows of a manifest. Takes no memory.
    pub fn new(manifest: &'a Manifest) -> Walk<'a>
        ensures { result ≡ manifest.now }
    {
        Walk { manifest, next: 0 }
    }

    /// Passes the rows whose paths come before this one, and adds these paths.
    pub fn pass_before(
        &mut self,
        alloc: Global,
        path: &[u8],
        passed: &mut Vec<Bytes>,
    ) -> Result<(), AllocError>
        ensures rest { OnOk result (self.new ≡ from_path path.now self.old) }
        ensures passed { OnOk result (passed.new.items ≡ passed.old.items ++ map (λ r. r.path) (before path.now self.old)) }
    {
        while self.next < self.manifest.len() {
            let row = self.manifest.row(self.next);
            if !below(row.path, path) {
                return Ok(());
            }
            push_path(alloc, row.path, passed)?;
            self.next += 1;
        }
        Ok(())
    }

    /// The node and the flag of this path, if the next row has it; that row is passed.
    pub fn take(&mut self, path: &[u8]) -> Option<(Node, Flag)>
        ensures row { option_map told_of_found result ≡ option_map told_of_row (first_row path.now self.old) }
        ensures rest { self.new ≡ behind_row path.now self.old }
    {
        if self.next == self.manifest.len() {
            return None;
        }
        let row = self.manifest.row(self.next);
        if !equal(row.path, path) {
            return None;
        }
        let found = (row.node, row.flag);
        self.next += 1;
        Some(found)
    }

    /// Passes all rows that are left, and adds their paths.
    pub fn pass_all(mut self, alloc: Global, passed: &mut Vec<Bytes>) -> Result<(), AllocError>
        ensures passed { OnOk result (passed.new.items ≡ passed.old.items ++ map (λ r. r.path) self.entry) }
    {
        while self.next < self.manifest.len() {
            let row = self.manifest.row(self.next);
            push_path(alloc, row.path, passed)?;
            self.next += 1;
        }
        Ok(())
    }
}
