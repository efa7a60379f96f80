//! Whether a history goes on from an older one.
ghost use Rattle.std.specs.Prelude.{◌≡◌, ◌<◌, ◌-◌, ◌&&◌, length, slice_get, false};
ghost use Rattle.hgs_load.specs.Refresh.{same_parent, same_lengths, same_links, same_entry, first_changed, is_this, behind_last};
ghost use Rattle.hgs_revlog.specs.Load.{separate_at};
ghost use Rattle.std.specs.Option.{option_map};

use hgs_bytes::parts::equal;
use hgs_index::entry::Entry;
use hgs_revlog::revlog::{Revlog, separate_entry};

fn is_same_parent(a: Option<u32>, b: Option<u32>) -> bool
    ensures { result ≡ same_parent a b }
{
    match (a, b) {
        (None, None) => true,
        (Some(a), Some(b)) => a == b,
        (None, Some(_)) => false,
        (Some(_), None) => false,
    }
}

fn has_same_lengths(a: &Entry, b: &Entry) -> bool
    ensures { result ≡ same_lengths a.now b.now }
{
    a.offset == b.offset && a.flags == b.flags && a.stored == b.stored && a.size == b.size
}

fn has_same_links(a: &Entry, b: &Entry) -> bool
    ensures { result ≡ same_links a.now b.now }
{
    a.base == b.base && a.link == b.link && is_same_parent(a.p1, b.p1) && is_same_parent(a.p2, b.p2)
}

fn is_same_entry(a: &Entry, b: &Entry) -> bool
    ensures { result ≡ same_entry a.now b.now }
{
    has_same_lengths(a, b) && has_same_links(a, b) && equal(&a.node.0, &b.node.0)
}

// Whether these bytes of an index are the last old entry.
fn is_last(old: &Revlog, bytes: &[u8; 64]) -> bool
    requires { 0 < length old.now.entries }
    ensures { result ≡ is_this (slice_get old.now.entries (length old.now.entries - 1)) (separate_at bytes.now (length old.now.entries - 1)) }
{
    let last = old.len() - 1;
    match separate_entry(bytes, last) {
        Ok(entry) => is_same_entry(old.entry(last), &entry),
        Err(_) => false,
    }
}

/// Of the bytes of an index from the place of the last old entry on, those behind that entry; none where they do not begin
/// with it.
pub fn behind_last<'a>(old: &Revlog, tail: &'a [u8]) -> Option<&'a [u8]>
    ensures { option_map (λ bytes. bytes.now) result ≡ behind_last old.now.entries tail.now }
{
    if old.len() == 0 {
        return None;
    }
    let (bytes, behind) = tail.split_first_chunk::<64>()?;
    if is_last(old, bytes) {
        Some(behind)
    } else {
        None
    }
}

/// The first of the old entries that isn't the new one in its place.
pub fn first_changed(old: &[Entry], log: &Revlog) -> Option<u32>
    ensures { result ≡ first_changed 0 old.now log.now.entries }
{
    let mut rest = old;
    let mut rev = 0;
    while let Some((entry, behind)) = rest.split_first() {
        if rev >= log.len() {
            return Some(rev);
        }
        if !is_same_entry(entry, log.entry(rev)) {
            return Some(rev);
        }
        rev += 1;
        rest = behind;
    }
    None
}
