//! Changesets and their text.
ghost use Rattle.hgs_bytes.specs.Answer.{Gives};
ghost use Rattle.hgs_index.specs.ChangeText.{read_change, is_memory};
ghost use Rattle.hgs_changelog.specs.View.{view_change};

use crate::date::{is_text, when_from};
use crate::header::{ascending, header_and_description, header_from, lines_from};
use hgs_bytes::bytes::Bytes;
use hgs_bytes::names::Names;
use hgs_index::node::Node;
use hgs_index::texts::{ChangeFault, node_from};
use std::alloc::Global;

/// What a changeset says.
#[derive(Debug, Drop)]
pub struct ChangeText {
    /// The node of the manifest.
    pub manifest: Node,
    pub user: Bytes,
    /// Seconds since 1970 began, in UTC.
    pub seconds: i64,
    /// The seconds by which the time zone is west of UTC.
    pub offset: i32,
    /// What the date line says besides; empty where that is nothing.
    pub extras: Bytes,
    /// The changed files, in the order of their bytes.
    pub files: Names,
    pub description: Bytes,
}

impl ChangeText {
    /// The changeset of a text, or the first of its faults in the order of `ChangeFault`.
    pub fn read(alloc: Global, text: &[u8]) -> Result<ChangeText, ChangeFault>
        ensures { Gives is_memory view_change result (read_change text.now) }
    {
        let Some((header, description)) = header_and_description(text) else {
            return Err(ChangeFault::Shape);
        };
        let Some(header) = header_from(header) else {
            return Err(ChangeFault::Shape);
        };
        let Some(manifest) = node_from(header.node) else {
            return Err(ChangeFault::Node);
        };
        let Some(when) = when_from(alloc, header.date)? else {
            return Err(ChangeFault::Date);
        };
        let files = lines_from(alloc, header.files)?;
        if !ascending(files.as_slice()) {
            return Err(ChangeFault::Files);
        }
        if !is_text(header.user) || !is_text(description) {
            return Err(ChangeFault::Utf8);
        }
        Ok(ChangeText {
            manifest,
            user: Bytes::from_slice(alloc, header.user)?,
            seconds: when.seconds,
            offset: when.offset,
            extras: when.extras,
            files,
            description: Bytes::from_slice(alloc, description)?,
        })
    }
}
