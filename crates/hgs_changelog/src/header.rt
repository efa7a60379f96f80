// The lines before a changeset's first empty line.
ghost use Rattle.std.specs.Prelude.{◌≡◌, ◌∷◌, ◌<◌, ◌+◌, IfOk, IfSome, length};
ghost use Rattle.std.specs.Option.{option_map};
ghost use Rattle.hgs_bytes.specs.Text.{ascends};
ghost use Rattle.hgs_index.specs.ChangeText.{split_at_blank, header_lines, header_of};
ghost use Rattle.hgs_changelog.specs.Lines.{lines_behind, view_header};

use hgs_bytes::bytes::Bytes;
use hgs_bytes::names::Names;
use hgs_bytes::parts::{below, split_at_byte};
use memchr::memmem;
use std::alloc::{AllocError, Global};

/// What stands before the first empty line, and behind it; none where there is no empty line.
pub fn header_and_description(text: &[u8]) -> Option<(&[u8], &[u8])>
    ensures { option_map (λ x. (x.0.now, x.1.now)) result ≡ split_at_blank text.now }
{
    match memmem::find(text, b"\n\n") {
        Some(at) => Some((&text[..at], &text[at + 2..])),
        None => None,
    }
}

/// The first line, and the text of the lines behind it where there are any.
fn first_line(text: &[u8]) -> (&[u8], Option<&[u8]>)
    ensures lines { header_lines text.now ≡ result.0.now ∷ lines_behind (option_map (λ t. t.now) result.1) }
    ensures shorter { IfSome result.1 (λ t. length t.now < length text.now) }
{
    match split_at_byte(text, b'\n') {
        Some((line, rest)) => (line, Some(rest)),
        None => (text, None),
    }
}

/// The lines of a header.
#[derive(Clone, Copy)]
pub struct Header<'a> {
    pub node: &'a [u8],
    pub user: &'a [u8],
    pub date: &'a [u8],
    /// The text of the lines behind these, where there are any.
    pub files: Option<&'a [u8]>,
}

/// The first three lines and the text of the others; none where there are fewer than three.
pub fn header_from(text: &[u8]) -> Option<Header<'_>>
    ensures { option_map view_header result ≡ header_of (header_lines text.now) }
{
    let (node, rest) = first_line(text);
    let (user, rest) = first_line(rest?);
    let (date, files) = first_line(rest?);
    Some(Header {
        node,
        user,
        date,
        files,
    })
}

/// The lines of a text, none where there is no text.
pub fn lines_from(alloc: Global, text: Option<&[u8]>) -> Result<Names, AllocError>
    ensures { IfOk result (λ names. names ≡ lines_behind (option_map (λ t. t.now) text.entry)) }
{
    let mut names = Names::new(alloc);
    let mut left = text;
    while let Some(rest) = left {
        let (line, behind) = first_line(rest);
        names.push(Bytes::from_slice(alloc, line)?)?;
        left = behind;
    }
    Ok(names)
}

/// Whether each name is below the next in the order of bytes.
pub fn ascending(names: &[Bytes]) -> bool
    ensures { result ≡ ascends names.now }
{
    for i in 1..names.len() {
        if !below(names[i - 1].as_slice(), names[i].as_slice()) {
            return false;
        }
    }
    true
}
