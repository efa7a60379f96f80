//! Big-endian numbers at places of some bytes.
ghost use Rattle.std.specs.Prelude.{◌≡◌, ◌+◌, ◌≤◌, length};
ghost use Rattle.std.specs.Int.{w16, from_be_bytes};
ghost use Rattle.hgs_index.specs.Entry.{number_at, part};

pub(crate) fn u16_at(bytes: &[u8], at: usize) -> u16
    requires { at + 2 ≤ length bytes.now }
    ensures { result ≡ from_be_bytes w16 (part at 2 bytes.now) }
{
    let (front, _) = bytes[at..].split_at(2);
    u16::from_be_bytes([front[0], front[1]])
}

pub(crate) fn u32_at(bytes: &[u8], at: usize) -> u32
    requires { at + 4 ≤ length bytes.now }
    ensures { result ≡ number_at at bytes.now }
{
    let (front, _) = bytes[at..].split_at(4);
    u32::from_be_bytes([front[0], front[1], front[2], front[3]])
}
