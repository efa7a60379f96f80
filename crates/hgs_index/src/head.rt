//! The header, which the first four bytes of an index are.
ghost use Rattle.std.specs.Prelude.{◌≡◌};
ghost use Rattle.hgs_index.specs.Entry.{has_bad_header, header_at};

use crate::entry::{EntryFault, Header};
use crate::fields::u16_at;

/// Whether a bit of the header is set that this profile does not read.
pub(crate) fn has_bad_flags(flags: u16) -> bool
    ensures { result ≡ has_bad_header flags }
{
    flags > 3
}

/// The header that an index begins with, or its first fault.
///
/// Only `Version` and `HeaderFlags` come. Bit 16 is inline data; bit 17, generaldelta, changes nothing for texts that are
/// stored whole.
pub fn header(bytes: &[u8; 4]) -> Result<Header, EntryFault>
    ensures { result ≡ header_at bytes.now }
{
    if u16_at(bytes, 2) != 1 {
        return Err(EntryFault::Version);
    }
    let flags = u16_at(bytes, 0);
    if has_bad_flags(flags) {
        return Err(EntryFault::HeaderFlags);
    }
    Ok(Header {
        inline: flags % 2 == 1,
        generaldelta: flags / 2 % 2 == 1,
    })
}
