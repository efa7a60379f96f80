//! What a file revision was copied from.
ghost use Rattle.std.specs.Prelude.{◌≡◌};
ghost use Rattle.std.specs.Option.{option_map};
ghost use Rattle.hgs_bytes.specs.Text.{lines_of};
ghost use Rattle.hgs_index.specs.FileText.{prefix_of};
ghost use Rattle.hgs_follow.specs.Source.{between_markers, copied_from, value_in, view_source};

use hgs_bytes::parts::{front, next_line, past, starts};
use hgs_filelog::file_text::unpack;
use hgs_index::node::Node;
use hgs_index::texts::node_from;

const COPY: &[u8] = b"copy: ";

const COPY_REVISION: &[u8] = b"copyrev: ";

/// A file revision that another was copied from: the path of its file, and its node.
#[derive(Clone, Copy, Debug)]
pub struct Source<'a> {
    pub path: &'a [u8],
    pub node: Node,
}

// The metadata of a file's text, without the two markers.
fn metadata_of(text: &[u8]) -> &[u8]
    ensures { result.now ≡ between_markers (prefix_of text.now) }
{
    let block = front(text, unpack(text).meta.len as usize);
    past(front(block, block.len().saturating_sub(2)), 2)
}

// The value of the first line that begins with a key.
fn value_of<'a>(metadata: &'a [u8], key: &[u8]) -> Option<&'a [u8]>
    ensures { option_map (λ v. v.now) result ≡ value_in key.now (lines_of metadata.now) }
{
    let mut rest = metadata;
    while !rest.is_empty() {
        let (line, _, behind) = next_line(rest);
        if starts(line, key) {
            return Some(past(line, key.len()));
        }
        rest = behind;
    }
    None
}

/// What the metadata of a file's text say that it was copied from.
///
/// The first line of each key counts. Nothing is said where a key has no line, and where the value of `copyrev` is not the 40
/// lower-case digits of a node.
pub fn source_of(text: &[u8]) -> Option<Source>
    ensures { option_map view_source result ≡ copied_from text.now }
{
    let metadata = metadata_of(text);
    let path = value_of(metadata, COPY)?;
    let node = node_from(value_of(metadata, COPY_REVISION)?)?;
    Some(Source { path, node })
}
