// The text of a file revision.
ghost use Rattle.std.specs.Prelude.{◌≡◌, ◌++◌, ◌+◌, ◌≤◌, ℕ, List, Option, IfOk, IfSome, OnOk, length, take, drop};
ghost use Rattle.std.specs.Option.{option_map};
ghost use Rattle.hgs_index.specs.FileText.{unpacked, split_at_marker};
ghost use Rattle.hgs_filelog.specs.Packed.{packed, bytes_in, block_of, HasNoMarker};

use hgs_bytes::parts::{past, starts};
use hgs_index::kinds::Span;
use memchr::memmem;
use std::alloc::{AllocError, Global};

const MARKER: &[u8; 2] = b"\x01\n";

/// Where the parts of a text stand in it.
#[derive(Clone, Copy, Debug, PartialEq, Eq)]
pub struct Parts {
    /// The whole block with both its markers; empty where there is none.
    pub meta: Span,
    pub body: Span,
}

/// The number of bytes before the first marker; none where there is no marker.
fn marker_place(text: &[u8]) -> Option<usize>
    ensures value { option_map (λ k. (take k text.now, drop (k + 2) text.now)) result ≡ split_at_marker text.now }
    ensures fits { IfSome result (λ k. k + 2 ≤ length text.now) }
{
    memmem::find(text, MARKER)
}

/// The number of bytes of the block with both its markers.
fn block_len(text: &[u8]) -> usize
    ensures value { (take result text.now, drop result text.now) ≡ unpacked text.now }
    ensures fits { result ≤ length text.now }
{
    if !starts(text, MARKER) {
        return 0;
    }
    match marker_place(past(text, 2)) {
        Some(place) => place + 4,
        None => 0,
    }
}

/// Where the metadata block and the body of a file's text stand.
///
/// A text that does not begin with the bytes 1 and LF, or whose block has no such end, is all body.
pub fn unpack(text: &[u8]) -> Parts
    ensures value { (bytes_in text.now result.meta, bytes_in text.now result.body) ≡ unpacked text.now }
    ensures first { result.meta.from ≡ 0 }
    ensures meta { result.meta.from + result.meta.len ≤ length text.now }
    ensures body { result.body.from + result.body.len ≡ length text.now }
{
    let block = block_len(text);
    Parts {
        meta: Span {
            from: 0,
            len: block as u64,
        },
        body: Span {
            from: block as u64,
            len: (text.len() - block) as u64,
        },
    }
}

/// Adds the block of a body; where there is no memory, a part of it.
fn add_block(meta: Option<&[u8]>, body: &[u8], text: &mut Vec<u8>) -> Result<(), AllocError>
    ensures { OnOk result (text.new.items ≡ text.old.items ++ block_of (option_map (λ m. m.now) meta.entry) body.now) }
{
    if let Some(meta) = meta {
        text.extend_from_slice(MARKER)?;
        text.extend_from_slice(meta)?;
        text.extend_from_slice(MARKER)?;
    } else if starts(body, MARKER) {
        text.extend_from_slice(MARKER)?;
        text.extend_from_slice(MARKER)?;
    }
    Ok(())
}

/// The text of a body, behind the block of this metadata where there is some.
///
/// The metadata is what is to stand between the two markers, and is to hold none. A body that begins with a marker gets
/// an empty block where there is no metadata.
pub fn pack(alloc: Global, meta: Option<&[u8]>, body: &[u8]) -> Result<Vec<u8>, AllocError>
    ensures { IfOk result (λ text. text.items ≡ packed (option_map (λ m. m.now) meta.entry) body.now) }
{
    let mut text = Vec::new(alloc);
    add_block(meta, body, &mut text)?;
    text.extend_from_slice(body)?;
    Ok(text)
}

/// A text that was made of metadata and a body has that block and that body.
pub fn pack_then_unpack()
    ensures { (meta : Option (List ℕ)) (body : List ℕ) → HasNoMarker meta → unpacked (packed meta body) ≡ (block_of meta body, body) }
{}

/// A block and a body are a text's own: put together they are the text.
pub fn unpack_keeps_all()
    ensures { (text : List ℕ) → (unpacked text).0 ++ (unpacked text).1 ≡ text }
{}
