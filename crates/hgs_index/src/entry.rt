//! Index entries: 64 bytes for each revision, all numbers big-endian (Mercurial's help page `internals.revlogs`).
ghost use Rattle.std.specs.Prelude.{◌≡◌, ◌+◌, ◌<◌, ◌≤◌, ◌^◌, length, Some, None};
ghost use Rattle.std.specs.Int.{from_be_bytes};
ghost use Rattle.hgs_index.specs.declared.entry.Entry.{Entry};
ghost use Rattle.hgs_index.specs.declared.entry.Header.{Header};
ghost use Rattle.hgs_index.specs.Entry.{Fits, head_bytes, parent_number, entry_at, entry_bytes, part, has_negative, has_padding, is_negative, is_no_parent, is_nonzero, parent_of, offset_of};

use crate::fields::{u16_at, u32_at};
use crate::head::has_bad_flags;
use crate::node::Node;
use thiserror::Error;

/// An entry of an index.
#[derive(Clone, Copy, Debug, PartialEq, Eq)]
pub struct Entry {
    /// Where the chunk begins among the bytes of all chunks; 48 bits.
    pub offset: u64,
    pub flags: u16,
    /// The length of the chunk in bytes.
    pub stored: u32,
    /// The length of the text in bytes.
    pub size: u32,
    /// The revision that the chunk is a difference to; the revision's own number for a whole text.
    pub base: u32,
    /// The changeset that first used the revision.
    pub link: u32,
    pub p1: Option<u32>,
    pub p2: Option<u32>,
    pub node: Node,
}

/// What the first four bytes of an index say beside the version, which is 1. They stand in place of the first four
/// bytes of the offset of revision 0, which is 0.
#[derive(Clone, Copy, Debug, PartialEq, Eq)]
pub struct Header {
    /// Each entry is followed by its chunk.
    pub inline: bool,
    /// A base may be any earlier revision.
    pub generaldelta: bool,
}

/// Why bytes are no entry. Of several faults the first of this list is named.
#[derive(Clone, Copy, Debug, PartialEq, Eq, Error)]
pub enum EntryFault {
    /// The version in the header is not 1.
    #[error("the version of the index is not 1")]
    Version,
    /// The header has a bit that is not read.
    #[error("the header has a flag that is not read")]
    HeaderFlags,
    /// A length, the base or the link has its sign set, or a parent is below -1.
    #[error("a length, the base, the link or a parent is below its least")]
    Negative,
    /// A byte is not zero that has no meaning.
    #[error("a byte without meaning is not zero")]
    Padding,
}

fn negative(number: u32) -> bool
    ensures { result ≡ is_negative number }
{
    number >= 0x8000_0000
}

fn no_parent(number: u32) -> bool
    ensures { result ≡ is_no_parent number }
{
    number >= 0x8000_0000 && number < 0xffff_ffff
}

fn parent(number: u32) -> Option<u32>
    ensures { result ≡ parent_of number }
{
    if number == 0xffff_ffff {
        None
    } else {
        Some(number)
    }
}

fn nonzero(bytes: &[u8]) -> bool
    ensures { result ≡ is_nonzero bytes.now }
{
    bytes.iter().any(|b| *b != 0)
}

// Whether one of four bytes is not zero.
fn nonzero_at(bytes: &[u8; 64], at: usize) -> bool
    requires { at ≤ 60 }
    ensures { result ≡ is_nonzero (part at 4 bytes.now) }
{
    u32_at(bytes, at) != 0
}

fn negative_in(bytes: &[u8; 64]) -> bool
    ensures { result ≡ has_negative bytes.now }
{
    negative(u32_at(bytes, 8))
        || negative(u32_at(bytes, 12))
        || negative(u32_at(bytes, 16))
        || negative(u32_at(bytes, 20))
        || no_parent(u32_at(bytes, 24))
        || no_parent(u32_at(bytes, 28))
}

// Whether one of the bytes behind the node is not zero.
fn nonzero_behind(bytes: &[u8; 64]) -> bool
    ensures { result ≡ is_nonzero (part 52 12 bytes.now) }
{
    if nonzero_at(bytes, 52) {
        return true;
    }
    if nonzero_at(bytes, 56) {
        return true;
    }
    nonzero_at(bytes, 60)
}

fn padding_in(bytes: &[u8; 64], rev: u32) -> bool
    ensures { result ≡ has_padding bytes.now rev }
{
    nonzero_behind(bytes) || (rev == 0 && nonzero(&bytes[4..6]))
}

fn offset(bytes: &[u8; 64], rev: u32) -> u64
    ensures { result ≡ offset_of bytes.now rev }
{
    if rev == 0 {
        0
    } else {
        u64::from_be_bytes([
            0, 0, bytes[0], bytes[1], bytes[2], bytes[3], bytes[4], bytes[5],
        ])
    }
}

fn node_in(bytes: &[u8; 64]) -> Node
    ensures { result.0 ≡ part 32 20 bytes.now }
{
    let mut node = [0u8; 20];
    node.copy_from_slice(&bytes[32..52]);
    Node(node)
}

/// The entry that stands in 64 bytes, or the first fault.
pub fn decode(bytes: &[u8; 64], rev: u32) -> Result<Entry, EntryFault>
    ensures { result ≡ entry_at bytes.now rev }
{
    if rev == 0 && u16_at(bytes, 2) != 1 {
        return Err(EntryFault::Version);
    }
    if rev == 0 && has_bad_flags(u16_at(bytes, 0)) {
        return Err(EntryFault::HeaderFlags);
    }
    if negative_in(bytes) {
        return Err(EntryFault::Negative);
    }
    if padding_in(bytes, rev) {
        return Err(EntryFault::Padding);
    }
    Ok(Entry {
        offset: offset(bytes, rev),
        flags: u16_at(bytes, 6),
        stored: u32_at(bytes, 8),
        size: u32_at(bytes, 12),
        base: u32_at(bytes, 16),
        link: u32_at(bytes, 20),
        p1: parent(u32_at(bytes, 24)),
        p2: parent(u32_at(bytes, 28)),
        node: node_in(bytes),
    })
}

/// The offset's six bytes, or the header's four and two zeros.
fn head(offset: u64, header: Option<Header>) -> [u8; 6]
    requires { offset < 2 ^ 48 }
    ensures { result ≡ head_bytes offset header }
{
    match header {
        None => {
            let b = offset.to_be_bytes();
            [b[2], b[3], b[4], b[5], b[6], b[7]]
        }
        Some(header) => [
            0,
            u8::from(header.inline) + 2 * u8::from(header.generaldelta),
            0,
            1,
            0,
            0,
        ],
    }
}

fn parent_value(parent: Option<u32>) -> u32
    ensures { result ≡ parent_number parent }
{
    match parent {
        None => 0xffff_ffff,
        Some(rev) => rev,
    }
}

/// The 64 bytes of an entry. The entry of revision 0 is written with the header of the index, each other without one.
pub fn encode(entry: &Entry, header: Option<Header>) -> [u8; 64]
    requires { Fits entry.now header }
    ensures { result ≡ entry_bytes entry.now header }
{
    let mut bytes = [0u8; 64];
    bytes[0..6].copy_from_slice(&head(entry.offset, header));
    bytes[6..8].copy_from_slice(&entry.flags.to_be_bytes());
    bytes[8..12].copy_from_slice(&entry.stored.to_be_bytes());
    bytes[12..16].copy_from_slice(&entry.size.to_be_bytes());
    bytes[16..20].copy_from_slice(&entry.base.to_be_bytes());
    bytes[20..24].copy_from_slice(&entry.link.to_be_bytes());
    bytes[24..28].copy_from_slice(&parent_value(entry.p1).to_be_bytes());
    bytes[28..32].copy_from_slice(&parent_value(entry.p2).to_be_bytes());
    bytes[32..52].copy_from_slice(&entry.node.0);
    bytes
}
