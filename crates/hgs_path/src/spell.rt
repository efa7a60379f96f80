//! The spelling of characters and components, which makes a name safe on every file system.
ghost use Rattle.std.specs.Prelude.{◌≡◌, ◌++◌, ◌<◌, OnOk, IfOk, IfSome, flat_map, length};
ghost use Rattle.hgs_index.specs.TrackedPath.{lower};
ghost use Rattle.hgs_path.specs.StoreName.{spelled, escaped, is_escaped, is_dot_or_space, is_port, is_device, before_dot, front_place, end_place, escaped_at, spelled_component, spelled_name};
ghost use Rattle.hgs_bytes.specs.Text.{split};

use hex::encode_to_slice;
use hgs_bytes::parts::{equal, split_at_byte, starts};
use std::alloc::{AllocError, Global};

/// How letters are spelled: in the plain form so that they can be read again, in the hashed form shorter.
#[derive(Clone, Copy, Debug, PartialEq, Eq)]
pub enum Form {
    Plain,
    Hashed,
}

pub(crate) fn is_escaped(byte: u8) -> bool
    ensures { result ≡ is_escaped byte }
{
    byte < 32
        || byte >= 126
        || byte == b'\\'
        || byte == b':'
        || byte == b'*'
        || byte == b'?'
        || byte == b'"'
        || byte == b'<'
        || byte == b'>'
        || byte == b'|'
}

/// `~` and the byte's two hex digits.
fn escape(byte: u8) -> [u8; 3]
    ensures { result ≡ escaped byte }
{
    let mut digits = [0u8; 2];
    let _ = encode_to_slice(&[byte], &mut digits);
    [b'~', digits[0], digits[1]]
}

fn lower(byte: u8) -> u8
    ensures { result ≡ lower byte }
{
    if byte >= b'A' && byte <= b'Z' {
        byte + 32
    } else {
        byte
    }
}

fn push_byte(form: Form, byte: u8, out: &mut Vec<u8>) -> Result<(), AllocError>
    ensures { OnOk result (out.new.items ≡ out.old.items ++ spelled form byte) }
{
    if is_escaped(byte) {
        out.extend_from_slice(&escape(byte))?;
        return Ok(());
    }
    match form {
        Form::Plain => {
            if (byte >= b'A' && byte <= b'Z') || byte == b'_' {
                out.extend_from_slice(&[b'_', lower(byte)])?;
            } else {
                out.push(byte)?;
            }
        }
        Form::Hashed => out.push(lower(byte))?,
    }
    Ok(())
}

/// The bytes of a component as they are spelled.
fn spelled_bytes(alloc: Global, form: Form, part: &[u8]) -> Result<Vec<u8>, AllocError>
    ensures { IfOk result (λ out. out.items ≡ flat_map (spelled form) part.now) }
{
    let mut out = Vec::new(alloc);
    for byte in part {
        push_byte(form, *byte, &mut out)?;
    }
    Ok(out)
}

pub(crate) fn is_dot_or_space(byte: u8) -> bool
    ensures { result ≡ is_dot_or_space byte }
{
    byte == b'.' || byte == b' '
}

fn is_port(stem: &[u8]) -> bool
    ensures { result ≡ is_port stem.now }
{
    stem.len() == 4
        && (starts(stem, b"com") || starts(stem, b"lpt"))
        && b'1' <= stem[3]
        && stem[3] <= b'9'
}

/// Whether this is the name of a device on Windows.
fn is_device(stem: &[u8]) -> bool
    ensures { result ≡ is_device stem.now }
{
    equal(stem, b"aux")
        || equal(stem, b"con")
        || equal(stem, b"prn")
        || equal(stem, b"nul")
        || is_port(stem)
}

/// What stands before the first dot, or the whole.
fn stem(part: &[u8]) -> &[u8]
    ensures { result.now ≡ before_dot part.now (split 46 part.now) }
{
    match split_at_byte(part, b'.') {
        Some((stem, _)) => stem,
        None => part,
    }
}

/// The place of the byte that a component's front has to escape.
fn front_place(part: &[u8]) -> Option<usize>
    ensures value { result ≡ front_place part.now }
    ensures within { IfSome result (λ at. at < length part.now) }
{
    if !part.is_empty() && is_dot_or_space(part[0]) {
        Some(0)
    } else if is_device(stem(part)) {
        Some(2)
    } else {
        None
    }
}

/// The place of the byte that a component's end has to escape.
fn end_place(part: &[u8]) -> Option<usize>
    ensures value { result ≡ end_place part.now }
    ensures within { IfSome result (λ at. at < length part.now) }
{
    if !part.is_empty() && is_dot_or_space(part[part.len() - 1]) {
        Some(part.len() - 1)
    } else {
        None
    }
}

/// The component with the byte at this place escaped.
fn escape_at(alloc: Global, part: Vec<u8>, place: Option<usize>) -> Result<Vec<u8>, AllocError>
    requires { IfSome place (λ at. at < length part.items) }
    ensures { IfOk result (λ out. out.items ≡ escaped_at part.items place) }
{
    let Some(at) = place else {
        return Ok(part);
    };
    let mut out = Vec::from_slice(alloc, &part[..at])?;
    out.extend_from_slice(&escape(part[at]))?;
    out.extend_from_slice(&part[at + 1..])?;
    Ok(out)
}

fn spelled_component(alloc: Global, form: Form, part: &[u8]) -> Result<Vec<u8>, AllocError>
    ensures { IfOk result (λ out. out.items ≡ spelled_component form part.now) }
{
    let bytes = spelled_bytes(alloc, form, part)?;
    let front = front_place(&bytes);
    let fronted = escape_at(alloc, bytes, front)?;
    let end = end_place(&fronted);
    escape_at(alloc, fronted, end)
}

/// A name with each of its components spelled.
pub(crate) fn spelled_name(alloc: Global, form: Form, name: &[u8]) -> Result<Vec<u8>, AllocError>
    ensures { IfOk result (λ out. out.items ≡ spelled_name form name.now) }
{
    let mut out = Vec::new(alloc);
    let mut rest = name;
    while let Some((part, behind)) = split_at_byte(rest, b'/') {
        out.extend_from_slice(&spelled_component(alloc, form, part)?)?;
        out.push(b'/')?;
        rest = behind;
    }
    out.extend_from_slice(&spelled_component(alloc, form, rest)?)?;
    Ok(out)
}
