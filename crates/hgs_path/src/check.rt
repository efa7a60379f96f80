//! The rule of tracked paths: what Mercurial refuses in one, and a bound on its length.
ghost use Rattle.std.specs.Prelude.{◌≡◌, codes, map, position};
ghost use Rattle.hgs_bytes.specs.Bytes.{same};
ghost use Rattle.hgs_bytes.specs.Path.{components, is_line_byte};
ghost use Rattle.hgs_index.specs.TrackedPath.{is_forbidden, lower};
ghost use Rattle.hgs_path.specs.Check.{checked, forbidden_from};

use hgs_bytes::parts::{equal, split_at_byte};
use thiserror::Error;

/// Why a path is not tracked: the first that holds of these. A place counts the bytes before it.
#[derive(Clone, Copy, Debug, PartialEq, Eq, Error)]
pub enum PathFault {
    #[error("the path is empty")]
    Empty,
    /// The path has more than 1,024 bytes.
    #[error("the path has more than 1,024 bytes")]
    Long,
    /// The place of the first NUL, CR or LF.
    #[error("byte {0} of the path is NUL, CR or LF")]
    Byte(u64),
    /// The place of the first component that is empty, `.`, `..`, or `.hg` in any letter case.
    #[error("no tracked path has a component as that at byte {0}")]
    Component(u64),
}

fn is_line_byte(byte: u8) -> bool
    ensures { result ≡ is_line_byte byte }
{
    byte == 0 || byte == b'\n' || byte == b'\r'
}

fn lower(byte: u8) -> u8
    ensures { result ≡ lower byte }
{
    if byte >= b'A' && byte <= b'Z' {
        byte + 32
    } else {
        byte
    }
}

/// Whether the bytes are `.hg` in any letter case.
fn is_own_folder(part: &[u8]) -> bool
    ensures { result ≡ same (map lower part.now) (codes ".hg") }
{
    part.len() == 3 && lower(part[0]) == b'.' && lower(part[1]) == b'h' && lower(part[2]) == b'g'
}

/// Whether a component stands in no tracked path.
fn is_forbidden(part: &[u8]) -> bool
    ensures { result ≡ is_forbidden part.now }
{
    part.is_empty() || equal(part, b".") || equal(part, b"..") || is_own_folder(part)
}

/// Where the first forbidden component starts.
fn first_forbidden(path: &[u8]) -> Option<usize>
    ensures { result ≡ forbidden_from 0 (components path.now) }
{
    let mut start = 0;
    let mut rest = path;
    while let Some((part, behind)) = split_at_byte(rest, b'/') {
        if is_forbidden(part) {
            return Some(start);
        }
        start += part.len() + 1;
        rest = behind;
    }
    if is_forbidden(rest) {
        Some(start)
    } else {
        None
    }
}

fn first_line_byte(path: &[u8]) -> Option<usize>
    ensures { result ≡ position is_line_byte path.now }
{
    path.iter().position(|byte| is_line_byte(*byte))
}

/// Whether a path is tracked, and else why not.
pub fn check(path: &[u8]) -> Result<(), PathFault>
    ensures { result ≡ checked path.now }
{
    if path.is_empty() {
        return Err(PathFault::Empty);
    }
    if path.len() > 1024 {
        return Err(PathFault::Long);
    }
    if let Some(at) = first_line_byte(path) {
        return Err(PathFault::Byte(at as u64));
    }
    match first_forbidden(path) {
        Some(at) => Err(PathFault::Component(at as u64)),
        None => Ok(()),
    }
}
