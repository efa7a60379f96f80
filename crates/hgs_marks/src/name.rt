// Which names a bookmark can have.
ghost use Rattle.std.specs.Prelude.{◌≡◌, ◌<◌, length};
ghost use Rattle.std.specs.List.{list_any, list_all};
ghost use Rattle.std.specs.Str.{is_utf8};
ghost use Rattle.hgs_bytes.specs.Bytes.{among};
ghost use Rattle.hgs_index.specs.MarkName.{reserved_names, is_name_end, is_digit, ends_in_space, is_mark_name};

use hgs_bytes::parts::equal;

fn is_reserved(name: &[u8]) -> bool
    ensures { result ≡ among name.now reserved_names }
{
    equal(name, b"tip") || equal(name, b".") || equal(name, b"null")
}

fn has_name_end(name: &[u8]) -> bool
    ensures { result ≡ list_any is_name_end name.now }
{
    name.iter()
        .any(|b| *b == b':' || *b == 0 || *b == b'\n' || *b == b'\r')
}

fn is_number(name: &[u8]) -> bool
    ensures { result ≡ list_all is_digit name.now }
{
    name.iter().all(|b| b'0' <= *b && *b <= b'9')
}

fn has_outer_space(name: &[u8]) -> bool
    requires { 0 < length name.now }
    ensures { result ≡ ends_in_space name.now }
{
    name[0] == b' ' || name[name.len() - 1] == b' '
}

fn is_text(bytes: &[u8]) -> bool
    ensures { result ≡ is_utf8 bytes.now }
{
    match std::str::from_utf8(bytes) {
        Ok(_) => true,
        Err(_) => false,
    }
}

/// Whether a bookmark can have this name.
///
/// It is UTF-8 of 1 to 255 bytes, none of them `:`, NUL, LF or CR, without a space at either end. It is not `tip`, `.` or
/// `null` and not made of decimal digits alone, since those name revisions.
pub fn is_mark_name(name: &[u8]) -> bool
    ensures { result ≡ is_mark_name name.now }
{
    name.len() != 0
        && name.len() <= 255
        && !is_reserved(name)
        && !has_name_end(name)
        && !is_number(name)
        && !has_outer_space(name)
        && is_text(name)
}
