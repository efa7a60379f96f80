//! The appends of a new revision, and the list of changes that they are added to.
ghost use Rattle.std.specs.Prelude.{◌≡◌, ◌++◌, ◌+◌, ◌*◌, ◌≤◌, true, false, length, Some, IfOk, OnOk};
ghost use Rattle.std.specs.List.{list_all};
ghost use Rattle.hgs_revlog.specs.Loaded.{AreEntries};
ghost use Rattle.hgs_transaction.specs.declared.parts.Change.TheVariants.{Append};
ghost use Rattle.hgs_commit.specs.Appended.{is_beside, is_beside_path};
ghost use Rattle.hgs_commit.specs.Texts.{changes_of, growth_of, log_at, view_growth};

use crate::appended::Growth;
use hgs_bytes::bytes::Bytes;
use hgs_loading::logs::end_of;
use hgs_reader::find::RevlogPaths;
use hgs_revlog::revlog::Revlog;
use hgs_transaction::parts::{Appending, Change};
use std::alloc::{AllocError, Global};

impl Growth {
    /// The appends of a new revision behind those of a revlog.
    pub fn new(
        alloc: Global,
        paths: RevlogPaths,
        log: &Revlog,
        new_entry: [u8; 64],
        chunk: Bytes,
    ) -> Result<Growth, AllocError>
        requires entries { AreEntries log.now.entries }
        requires chunks { is_beside_path paths.chunks ≡ true }
        ensures growth { IfOk result (λ g. view_growth g ≡ growth_of (log_at paths log.now) new_entry chunk) }
        ensures entry { IfOk result (λ g. g.new_entry ≡ new_entry) }
        ensures index { log.now.inline ≡ false → IfOk result (λ g. g.entry ≡ record { path = paths.index; before = 64 * length log.now.entries; bytes = new_entry }) }
        ensures path { IfOk result (λ g. g.entry.path ≡ paths.index) }
    {
        let RevlogPaths { index, chunks } = paths;
        if log.is_inline() {
            let mut bytes = Vec::from_slice(alloc, &new_entry)?;
            bytes.extend_from_slice(chunk.as_slice())?;
            return Ok(Growth {
                chunk: None,
                entry: Appending {
                    path: index,
                    before: 64 * log.len() as u64 + end_of(log),
                    bytes: Bytes::from_vec(bytes),
                },
                new_entry,
            });
        }
        let chunk = if chunk.is_empty() {
            None
        } else {
            Some(Appending {
                path: chunks,
                before: end_of(log),
                bytes: chunk,
            })
        };
        let entry = Appending {
            path: index,
            before: 64 * log.len() as u64,
            bytes: Bytes::from_slice(alloc, &new_entry)?,
        };
        Ok(Growth {
            chunk,
            entry,
            new_entry,
        })
    }

    /// Adds the appends, or a part of them where there is no memory.
    pub fn push_to(self, into: &mut Vec<Change>) -> Result<(), AllocError>
        requires before { list_all is_beside into.old.items ≡ true }
        requires entry { is_beside (Append self.entry) ≡ true }
        ensures ok { OnOk result (into.new.items ≡ into.old.items ++ changes_of (Some (view_growth self))) }
        ensures beside { list_all is_beside into.new.items ≡ true }
        ensures few { length into.new.items ≤ length into.old.items + 2 }
    {
        let Growth {
            chunk,
            entry,
            new_entry: _,
        } = self;
        if let Some(chunk) = chunk {
            into.push(Change::Append(chunk))?;
        }
        into.push(Change::Append(entry))?;
        Ok(())
    }
}
