//! Inline indexes taken apart into what a separate revlog of the same revisions has.
ghost use Rattle.std.specs.Prelude.{◌≡◌, length, IfOk, true};
ghost use Rattle.hgs_index.specs.Inline.{chunks_apart, chunks_in, entries_in, index_apart, is_inline, without_inline};

use hgs_bytes::bytes::Bytes;
use hgs_bytes::parts::{front, past};
use hgs_index::inline::whole_item;
use std::alloc::{AllocError, Global};

/// The index and the data of a separate revlog.
#[derive(Drop)]
pub struct Apart {
    pub index: Bytes,
    pub chunks: Bytes,
}

// The whole entries, with less than one of a rest, and their chunks.
fn entries_and_chunks(alloc: Global, index: &[u8]) -> Result<(Vec<u8>, Vec<u8>), AllocError>
    ensures entries { IfOk result (λ parts. parts.0.items ≡ entries_in (length index.now) index.now) }
    ensures chunks { IfOk result (λ parts. parts.1.items ≡ chunks_in (length index.now) index.now) }
{
    let mut entries = Vec::new(alloc);
    let mut chunks = Vec::new(alloc);
    let mut rest = index;
    while let Some((entry, behind)) = whole_item(rest) {
        let stored = rest.len().saturating_sub(behind.len()).saturating_sub(64);
        entries.extend_from_slice(entry)?;
        chunks.extend_from_slice(front(past(rest, 64), stored))?;
        rest = behind;
    }
    entries.extend_from_slice(front(rest, 63))?;
    Ok((entries, chunks))
}

// Clears the flag of the header, bit 16.
fn clear_inline(entries: &mut Vec<u8>)
    ensures { entries.new.items ≡ without_inline entries.old.items }
{
    if let Some(flags) = entries.get_mut(1) {
        *flags = flags.saturating_sub(1);
    }
}

/// Takes an inline index apart. Both parts together are no longer than the index.
pub fn take_apart(alloc: Global, index: &[u8]) -> Result<Apart, AllocError>
    requires { is_inline index.now ≡ true }
    ensures index { IfOk result (λ apart. apart.index ≡ index_apart index.now) }
    ensures chunks { IfOk result (λ apart. apart.chunks ≡ chunks_apart index.now) }
{
    let (mut entries, chunks) = entries_and_chunks(alloc, index)?;
    clear_inline(&mut entries);
    Ok(Apart {
        index: Bytes::from_vec(entries),
        chunks: Bytes::from_vec(chunks),
    })
}
