//! Inline indexes, in which each entry is followed by its chunk (Mercurial's help page `internals.revlogs`).
ghost use Rattle.std.specs.Prelude.{◌≡◌};
ghost use Rattle.std.specs.Option.{option_map};
ghost use Rattle.hgs_index.specs.Inline.{is_inline, whole_item, without_inline};

use crate::fields::u32_at;
use crate::head::header;

/// Whether an index says that each of its entries is followed by its chunk. Its first four bytes say so, also where its
/// first entry is cut behind them.
pub fn is_inline(index: &[u8]) -> bool
    ensures { result ≡ is_inline index.now }
{
    match index.first_chunk::<4>() {
        None => false,
        Some(first) => match header(first) {
            Ok(header) => header.inline,
            Err(_) => false,
        },
    }
}

/// The entry that these bytes of an inline index begin with, and what stands behind its chunk; nothing where the entry or
/// its chunk is cut.
///
/// Where the sign of the stored length is set the entry is given, since `decode` refuses it for that.
pub fn whole_item(bytes: &[u8]) -> Option<(&[u8; 64], &[u8])>
    ensures { option_map (λ item. (item.0.now, item.1.now)) result ≡ whole_item bytes.now }
{
    let (entry, behind) = match bytes.split_first_chunk::<64>() {
        None => return None,
        Some(parts) => parts,
    };
    let stored = u32_at(entry, 8);
    match behind.get(stored as usize..) {
        Some(rest) => Some((entry, rest)),
        None => {
            if stored < 0x8000_0000 {
                return None;
            }
            Some((entry, &[]))
        }
    }
}

/// The first entry of an inline index as the first one of a separate index: without the flag of its header.
pub fn without_inline(entry: &[u8; 64]) -> [u8; 64]
    ensures { result ≡ without_inline entry.now }
{
    let mut plain = *entry;
    plain[1] = entry[1].saturating_sub(1);
    plain
}
