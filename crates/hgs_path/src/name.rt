//! The names of a filelog's two files (Mercurial's wiki page "fncacheRepoFormat" and its module `store`).
ghost use Rattle.std.specs.Prelude.{◌≡◌, ◌++◌, ◌≤◌, OnOk, IfOk, codes, length, if◌then◌else◌};
ghost use Rattle.hgs_bytes.specs.Path.{components};
ghost use Rattle.hex.specs.Hex.{encode_lower};
ghost use Rattle.sha1.specs.Sha1.{sha1};
ghost use Rattle.hgs_path.specs.StoreName.{ext_text, whole_path, marked_directory, directory_step, listed_name, short_directory, short_directories, hashed_name, most_spelled, is_short, is_plain, encoded_name, store_name};

use crate::parts::{ends, last_part};
use crate::spell::{Form, is_dot_or_space, is_escaped, spelled_name};
use hex::encode_to_slice;
use hgs_bytes::parts::{front, split_at_byte};
use hgs_files::path;
use hgs_files::path::StorePath;
use sha1::Sha1;
use std::alloc::{AllocError, Global};

/// Which file of a filelog.
#[derive(Clone, Copy, Debug, PartialEq, Eq)]
pub enum Ext {
    /// The index.
    I,
    /// The data.
    D,
}

fn ext_text(ext: Ext) -> [u8; 2]
    ensures { result ≡ ext_text ext }
{
    match ext {
        Ext::I => [b'.', b'i'],
        Ext::D => [b'.', b'd'],
    }
}

fn whole_path(alloc: Global, path: &[u8], ext: Ext) -> Result<Vec<u8>, AllocError>
    ensures { IfOk result (λ out. out.items ≡ whole_path path.now ext) }
{
    let mut out = Vec::from_slice(alloc, b"data/")?;
    out.extend_from_slice(path)?;
    out.extend_from_slice(&ext_text(ext))?;
    Ok(out)
}

/// Adds a directory that is marked where it could be taken for a filelog's file.
fn push_directory(directory: &[u8], out: &mut Vec<u8>) -> Result<(), AllocError>
    ensures { OnOk result (out.new.items ≡ out.old.items ++ marked_directory directory.now) }
{
    out.extend_from_slice(directory)?;
    if ends(directory, b".hg") || ends(directory, b".i") || ends(directory, b".d") {
        out.extend_from_slice(b".hg")?;
    }
    Ok(())
}

fn directory_step(alloc: Global, name: &[u8]) -> Result<Vec<u8>, AllocError>
    ensures { IfOk result (λ out. out.items ≡ directory_step name.now) }
{
    let mut out = Vec::new(alloc);
    let mut rest = name;
    while let Some((directory, behind)) = split_at_byte(rest, b'/') {
        push_directory(directory, &mut out)?;
        out.push(b'/')?;
        rest = behind;
    }
    out.extend_from_slice(rest)?;
    Ok(out)
}

/// The name of a file in `fncache`.
pub fn listed_name(alloc: Global, path: &[u8], ext: Ext) -> Result<Vec<u8>, AllocError>
    ensures { IfOk result (λ out. out.items ≡ listed_name path.now ext) }
{
    let whole = whole_path(alloc, path, ext)?;
    directory_step(alloc, &whole)
}

fn short_directory(alloc: Global, directory: &[u8]) -> Result<Vec<u8>, AllocError>
    ensures { IfOk result (λ out. out.items ≡ short_directory directory.now) }
{
    let cut = front(directory, 8);
    if cut.is_empty() || !is_dot_or_space(cut[cut.len() - 1]) {
        return Vec::from_slice(alloc, cut);
    }
    let mut out = Vec::from_slice(alloc, &cut[..cut.len() - 1])?;
    out.push(b'_')?;
    Ok(out)
}

/// The short directories of a spelled name that fit, each with its slash.
fn short_directories(alloc: Global, name: &[u8]) -> Result<Vec<u8>, AllocError>
    ensures { IfOk result (λ out. out.items ≡ short_directories (components name.now)) }
{
    let mut out = Vec::new(alloc);
    let mut rest = name;
    while let Some((directory, behind)) = split_at_byte(rest, b'/') {
        let short = short_directory(alloc, directory)?;
        if out.len() + short.len() > 68 {
            return Ok(out);
        }
        out.extend_from_slice(&short)?;
        out.push(b'/')?;
        rest = behind;
    }
    Ok(out)
}

fn digits(name: &[u8]) -> [u8; 40]
    ensures { result ≡ encode_lower (sha1 name.now) }
{
    let mut digits = [0u8; 40];
    let _ = encode_to_slice(&Sha1::digest(name), &mut digits);
    digits
}

fn hashed_name(alloc: Global, name: &[u8], ext: Ext) -> Result<Vec<u8>, AllocError>
    requires { 5 ≤ length name.now }
    ensures { IfOk result (λ out. out.items ≡ hashed_name name.now ext) }
{
    let spelled = spelled_name(alloc, Form::Hashed, &name[5..])?;
    let directories = short_directories(alloc, &spelled)?;
    let room = 75usize.saturating_sub(directories.len());
    let mut out = Vec::from_slice(alloc, b"dh/")?;
    out.extend_from_slice(&directories)?;
    out.extend_from_slice(front(last_part(&spelled), room))?;
    out.extend_from_slice(&digits(name))?;
    out.extend_from_slice(&ext_text(ext))?;
    Ok(out)
}

/// Whether the plain form of a listed name is short enough.
fn is_plain(alloc: Global, name: &[u8]) -> Result<bool, AllocError>
    ensures { IfOk result (λ b. b ≡ is_plain name.now) }
{
    Ok(spelled_name(alloc, Form::Plain, name)?.len() <= 120)
}

/// The most bytes of a plain name that a byte of the path can make.
fn most_spelled(byte: u8) -> usize
    ensures { result ≡ most_spelled byte }
{
    if byte == b'.' {
        8
    } else if byte == b'/' || byte == b' ' || is_escaped(byte) {
        3
    } else if (byte >= b'A' && byte <= b'Z') || byte == b'_' {
        2
    } else {
        1
    }
}

/// Whether a path is so short that its two names are surely plain. It takes no memory, and spares most paths the spelling.
pub(crate) fn is_short(path: &[u8]) -> bool
    ensures { result ≡ is_short path.now }
{
    let mut most = 0;
    for byte in path {
        most += most_spelled(*byte);
        if most > 101 {
            return false;
        }
    }
    true
}

/// What a listed name is called in the store.
fn encoded_name(alloc: Global, name: &[u8], ext: Ext) -> Result<Vec<u8>, AllocError>
    requires { 5 ≤ length name.now }
    ensures { IfOk result (λ out. out.items ≡ encoded_name name.now ext) }
{
    let plain = spelled_name(alloc, Form::Plain, name)?;
    if plain.len() <= 120 {
        return Ok(plain);
    }
    hashed_name(alloc, name, ext)
}

/// The path of a listed name's file.
pub(crate) fn path_of(alloc: Global, name: &[u8], ext: Ext) -> Result<StorePath, AllocError>
    requires { 5 ≤ length name.now }
    ensures { IfOk result (λ path. path ≡ codes "store/" ++ encoded_name name.now ext) }
{
    let mut out = Vec::from_slice(alloc, b"store/")?;
    out.extend_from_slice(&encoded_name(alloc, name, ext)?)?;
    path::path_of(alloc, &out)
}

/// The name of a filelog's file, behind `store/`: its plain form, and where that has more than 120 bytes its hashed form.
/// Each path has a name. For one that `check` passes it is the name that Mercurial gives.
pub fn store_name(alloc: Global, path: &[u8], ext: Ext) -> Result<StorePath, AllocError>
    ensures { IfOk result (λ name. name ≡ store_name path.now ext) }
{
    let listed = listed_name(alloc, path, ext)?;
    path_of(alloc, &listed, ext)
}

/// The name of a filelog's file where it is hashed, and none where it is plain.
pub(crate) fn hashed_store_name(
    alloc: Global,
    path: &[u8],
    ext: Ext,
) -> Result<Option<StorePath>, AllocError>
    ensures { IfOk result (λ name. name ≡ (if is_plain (listed_name path.now ext) then None else Some (store_name path.now ext))) }
{
    let listed = listed_name(alloc, path, ext)?;
    if is_plain(alloc, &listed)? {
        return Ok(None);
    }
    Ok(Some(path_of(alloc, &listed, ext)?))
}
