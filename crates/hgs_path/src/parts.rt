//! The last part of a path.
ghost use Rattle.std.specs.Prelude.{◌≡◌};
ghost use Rattle.hgs_bytes.specs.Path.{components};
ghost use Rattle.hgs_path.specs.StoreName.{last_part, ends_in};

use hgs_bytes::parts::{equal, past, split_at_byte};

/// What stands behind the last slash.
pub(crate) fn last_part(path: &[u8]) -> &[u8]
    ensures { result.now ≡ last_part (components path.now) }
{
    let mut rest = path;
    while let Some((_, behind)) = split_at_byte(rest, b'/') {
        rest = behind;
    }
    rest
}

/// Whether `text` ends in `end`.
pub(crate) fn ends(text: &[u8], end: &[u8]) -> bool
    ensures { result ≡ ends_in text.now end.now }
{
    equal(past(text, text.len().saturating_sub(end.len())), end)
}
