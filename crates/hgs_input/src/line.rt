//! What the lines of a record say, each without its LF.
ghost use Rattle.std.specs.Prelude.{◌≡◌, ◌==◌, IfOk};
ghost use Rattle.std.specs.List.{list_any};
ghost use Rattle.std.specs.Option.{option_map};
ghost use Rattle.hgs_changelog.specs.View.{view_when};
ghost use Rattle.hgs_input.specs.Read.{behind, is_user, user_of, date_of, phase_of, bookmark_of, branch_of, copyfrom_of, length_of, flag_of, file_of, file_of_parts};
ghost use Rattle.hgs_index.specs.TrackedPath.{is_tracked};
ghost use Rattle.hgs_model.specs.Valid.{ends_in, is_branch_name, is_source};
ghost use Rattle.hgs_input.specs.View.{view_line};

use crate::number::number_up_to;
use hgs_bytes::parts::{equal, past, split_at_byte, starts};
use hgs_changelog::date::{When, is_text, when_from};
use hgs_index::kinds::Flag;
use hgs_marks::name::is_mark_name;
use hgs_model::phase::Phase;
use hgs_path::check::check;
use std::alloc::{AllocError, Global};

const MOST_USER: usize = 1024;

const MOST_DESCRIPTION: u64 = 65_536;

/// The most bytes of a file's body.
pub(crate) const MOST_FILE: u64 = 16_777_216;

/// What stands behind a front, where the line begins with it.
pub fn behind<'a>(line: &'a [u8], front: &[u8]) -> Option<&'a [u8]>
    ensures { option_map (λ x. x.now) result ≡ behind front.now line.now }
{
    if starts(line, front) {
        Some(past(line, front.len()))
    } else {
        None
    }
}

fn has_nul(text: &[u8]) -> bool
    ensures { result ≡ list_any (λ b. b == 0) text.now }
{
    text.iter().any(|byte| *byte == 0)
}

// Whether this is the last byte.
fn ends_in(byte: u8, text: &[u8]) -> bool
    ensures { result ≡ ends_in byte text.now }
{
    match text.last() {
        Some(last) => *last == byte,
        None => false,
    }
}

fn is_user(user: &[u8]) -> bool
    ensures { result ≡ is_user user.now }
{
    1 <= user.len() && user.len() <= MOST_USER && !has_nul(user) && is_text(user)
}

pub(crate) fn user_from(line: &[u8]) -> Option<&[u8]>
    ensures { option_map (λ x. x.now) result ≡ user_of line.now }
{
    let user = behind(line, b"user ")?;
    if is_user(user) { Some(user) } else { None }
}

/// The date of a line, which has no extras.
pub(crate) fn date_from(alloc: Global, line: &[u8]) -> Result<Option<When>, AllocError>
    ensures { IfOk result (λ w. option_map view_when w ≡ date_of line.now) }
{
    let Some(text) = behind(line, b"date ") else {
        return Ok(None);
    };
    let Some(when) = when_from(alloc, text)? else {
        return Ok(None);
    };
    if when.extras.is_empty() {
        Ok(Some(when))
    } else {
        Ok(None)
    }
}

pub(crate) fn phase_from(line: &[u8]) -> Option<Phase>
    ensures { result ≡ phase_of line.now }
{
    Phase::named(behind(line, b"phase ")?)
}

pub(crate) fn bookmark_from(line: &[u8]) -> Option<&[u8]>
    ensures { option_map (λ x. x.now) result ≡ bookmark_of line.now }
{
    let name = behind(line, b"bookmark ")?;
    if is_mark_name(name) { Some(name) } else { None }
}

fn has_backslash(text: &[u8]) -> bool
    ensures { result ≡ list_any (λ b. b == 92) text.now }
{
    text.iter().any(|byte| *byte == b'\\')
}

fn is_branch_name(name: &[u8]) -> bool
    ensures { result ≡ is_branch_name name.now }
{
    is_mark_name(name) && !has_backslash(name) && !equal(name, b"default")
}

/// The branch that a line names; `default` is that of a changeset that names none.
pub(crate) fn branch_from(line: &[u8]) -> Option<Option<&[u8]>>
    ensures { option_map (option_map (λ x. x.now)) result ≡ branch_of line.now }
{
    let name = behind(line, b"branch ")?;
    if equal(name, b"default") {
        Some(None)
    } else if is_branch_name(name) {
        Some(Some(name))
    } else {
        None
    }
}

// Whether a file of this path can be copied: an LF stands behind the path in the copy's metadata block.
fn is_source(path: &[u8]) -> bool
    ensures { result ≡ is_source path.now }
{
    is_tracked(path) && !ends_in(1, path)
}

pub(crate) fn source_from(line: &[u8]) -> Option<&[u8]>
    ensures { option_map (λ x. x.now) result ≡ copyfrom_of line.now }
{
    let path = behind(line, b"copyfrom ")?;
    if is_source(path) { Some(path) } else { None }
}

/// The length of a description.
pub(crate) fn length_from(line: &[u8]) -> Option<u64>
    ensures { result ≡ length_of line.now }
{
    let length = number_up_to(behind(line, b"desc ")?, MOST_DESCRIPTION)?;
    if length <= MOST_DESCRIPTION {
        Some(length)
    } else {
        None
    }
}

/// What the line of a file says.
#[derive(Clone, Copy)]
pub(crate) struct FileLine<'a> {
    pub flag: Flag,
    /// The length of the body; each above the limit counts as the next one.
    pub size: u64,
    pub path: &'a [u8],
}

fn flag_from(sign: &[u8]) -> Option<Flag>
    ensures { result ≡ flag_of sign.now }
{
    if equal(sign, b"-") {
        Some(Flag::Plain)
    } else if equal(sign, b"x") {
        Some(Flag::Exec)
    } else if equal(sign, b"l") {
        Some(Flag::Link)
    } else {
        None
    }
}

fn is_tracked(path: &[u8]) -> bool
    ensures { result ≡ is_tracked path.now }
{
    check(path).is_ok()
}

fn file_from_parts<'a>(sign: &[u8], size: &[u8], path: &'a [u8]) -> Option<FileLine<'a>>
    ensures { option_map view_line result ≡ file_of_parts sign.now size.now path.now }
{
    let flag = flag_from(sign)?;
    let size = number_up_to(size, MOST_FILE)?;
    if is_tracked(path) {
        Some(FileLine { flag, size, path })
    } else {
        None
    }
}

pub(crate) fn file_from(line: &[u8]) -> Option<FileLine<'_>>
    ensures { option_map view_line result ≡ file_of line.now }
{
    let (sign, rest) = split_at_byte(behind(line, b"file ")?, b' ')?;
    let (size, path) = split_at_byte(rest, b' ')?;
    file_from_parts(sign, size, path)
}
