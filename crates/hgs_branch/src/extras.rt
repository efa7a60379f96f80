//! The branch that the extras of a changeset name.
ghost use Rattle.std.specs.Prelude.{◌≡◌, ◌∷◌, ◌<◌, length, IfOk, IfSome, IfNone, None};
ghost use Rattle.std.specs.Option.{option_map};
ghost use Rattle.hgs_branch.specs.Extras.{branch_of, branch_value, escaped_byte, items_behind, items_of, or_default, unescaped};

use hgs_bytes::parts::{past, split_at_byte, starts};
use std::alloc::{AllocError, Global};

const KEY: &[u8] = b"branch:";

const DEFAULT: &[u8] = b"default";

fn unescape_byte(byte: u8) -> Option<u8>
    ensures { result ≡ escaped_byte byte }
{
    match byte {
        b'\\' => Some(b'\\'),
        b'n' => Some(b'\n'),
        b'r' => Some(b'\r'),
        b'0' => Some(0),
        _ => None,
    }
}

// The byte that a text begins with, or what its first escape stands for, and what stands behind; none where that is another escape.
fn first_byte(text: &[u8]) -> Option<(u8, &[u8])>
    requires { 0 < length text.now }
    ensures some { IfSome result (λ p. unescaped text.now ≡ option_map (λ bytes. p.0 ∷ bytes) (unescaped p.1.now)) }
    ensures none { IfNone result (unescaped text.now ≡ None) }
    ensures shorter { IfSome result (λ p. length p.1.now < length text.now) }
{
    let (&first, behind) = text.split_first()?;
    if first != b'\\' {
        return Some((first, behind));
    }
    let (&second, behind) = behind.split_first()?;
    let byte = unescape_byte(second)?;
    Some((byte, behind))
}

// A text with what its escapes stand for; none where it has another escape.
fn unescape(alloc: Global, text: &[u8]) -> Result<Option<Vec<u8>>, AllocError>
    ensures { IfOk result (λ plain. option_map (λ p. p.items) plain ≡ unescaped text.now) }
{
    let mut plain = Vec::new(alloc);
    let mut rest = text;
    while !rest.is_empty() {
        let Some((byte, behind)) = first_byte(rest) else {
            return Ok(None);
        };
        plain.push(byte)?;
        rest = behind;
    }
    Ok(Some(plain))
}

// The value of an item whose key is `branch`. Such a key has no escape.
fn value_of(alloc: Global, item: &[u8]) -> Result<Option<Vec<u8>>, AllocError>
    ensures { IfOk result (λ value. option_map (λ p. p.items) value ≡ branch_value item.now) }
{
    if !starts(item, KEY) {
        return Ok(None);
    }
    unescape(alloc, past(item, KEY.len()))
}

// The first item, and the text of the others where there are any.
fn first_item(text: &[u8]) -> (&[u8], Option<&[u8]>)
    ensures last { items_of text.now ≡ result.0.now ∷ items_behind (option_map (λ t. t.now) result.1) }
    ensures shorter { IfSome result.1 (λ t. length t.now < length text.now) }
{
    match split_at_byte(text, 0) {
        Some((item, rest)) => (item, Some(rest)),
        None => (text, None),
    }
}

// The value, or `default` where there is none or it is empty.
fn or_default(alloc: Global, value: Option<Vec<u8>>) -> Result<Vec<u8>, AllocError>
    ensures { IfOk result (λ name. name.items ≡ or_default (option_map (λ v. v.items) value)) }
{
    match value {
        Some(name) if !name.is_empty() => Ok(name),
        _ => Vec::from_slice(alloc, DEFAULT),
    }
}

/// The branch of a changeset with these extras: the value of the last item whose key is `branch`, with what its escapes stand
/// for. It is `default` where there is none, and where the value is empty. An item with another escape than `\\`, `\n`, `\r` and
/// `\0` is passed over.
pub fn branch_of(alloc: Global, extras: &[u8]) -> Result<Vec<u8>, AllocError>
    ensures { IfOk result (λ name. name.items ≡ branch_of extras.now) }
{
    let mut last = None;
    let mut left = Some(extras);
    while let Some(text) = left {
        let (item, rest) = first_item(text);
        if let Some(value) = value_of(alloc, item)? {
            last = Some(value);
        }
        left = rest;
    }
    or_default(alloc, last)
}
