//! Names of revisions.
ghost use Rattle.std.specs.Prelude.{◌≡◌, ◌<◌, ◌^◌, ◌&&◌, nat_lt, ℕ, length, decimal, Some, IfSome};
ghost use Rattle.hgs_bytes.specs.Bytes.{same};
ghost use Rattle.hgs_model.specs.History.{first_of};
ghost use Rattle.hgs_model.specs.Names.{last_of, node_named, number_named};
ghost use Rattle.hgs_revlog.specs.Log.{nodes_of};
ghost use Rattle.hgs_reader.specs.Names.{mark_named, named_in};

use hgs_bytes::parts::equal;
use hgs_index::texts::node_from;
use hgs_marks::bookmarks::Bookmarks;
use hgs_revlog::laws::places_of_nodes;
use hgs_revlog::revlog::Revlog;
use itoa::Buffer;

// The number that digits are, whatever their form.
fn parsed(name: &[u8]) -> Option<u32>
    ensures { (n : ℕ) → n < 2 ^ 32 → name.now ≡ decimal n → result ≡ Some n }
{
    match std::str::from_utf8(name) {
        Ok(text) => match text.parse::<u32>() {
            Ok(number) => Some(number),
            Err(_) => None,
        },
        Err(_) => None,
    }
}

// Whether the name is how this number below the count is written.
fn spells(name: &[u8], number: u32, count: u32) -> bool
    ensures { result ≡ (nat_lt number count && same (decimal number) name.now) }
{
    let mut buffer = Buffer::new();
    number < count && equal(buffer.format(number).as_bytes(), name)
}

// The number below the count that the name is how it is written.
fn number_named(name: &[u8], count: u32) -> Option<u32>
    ensures { result ≡ number_named count name.now }
{
    match parsed(name) {
        Some(number) => {
            if spells(name, number, count) {
                Some(number)
            } else {
                None
            }
        }
        None => None,
    }
}

// The revision whose node's digits the name is.
fn node_named(log: &Revlog, name: &[u8]) -> Option<u32>
    ensures { result ≡ node_named (nodes_of log.now.entries) name.now }
{
    places_of_nodes();
    match node_from(name) {
        Some(node) => log.rev_of(&node),
        None => None,
    }
}

// The last of so many revisions.
fn last_of(count: u32) -> Option<u32>
    ensures { result ≡ last_of count }
{
    if count == 0 { None } else { Some(count - 1) }
}

// The revision of a bookmark; none where its node is unknown.
fn mark_named(log: &Revlog, bookmarks: &Bookmarks, name: &[u8]) -> Option<u32>
    ensures { result ≡ mark_named log.now.entries bookmarks.now name.now }
{
    match bookmarks.get(name) {
        Some(node) => log.rev_of(&node),
        None => None,
    }
}

// The revision whose number, whose node's digits or whose bookmark the name is.
fn plain_named(log: &Revlog, bookmarks: &Bookmarks, name: &[u8]) -> Option<u32>
    ensures named { result ≡ first_of (number_named (length log.now.entries) name.now) (first_of (node_named (nodes_of log.now.entries) name.now) (mark_named log.now.entries bookmarks.now name.now)) }
    ensures below { IfSome result (λ rev. rev < length log.now.entries) }
{
    if let Some(rev) = number_named(name, log.len()) {
        return Some(rev);
    }
    match node_named(log, name) {
        Some(rev) => Some(rev),
        None => mark_named(log, bookmarks, name),
    }
}

/// The revision that a name names. `null` names none, `.` the first working parent, `tip` the last; else a decimal number
/// without needless zeros that is below the count names itself, 40 lower-case hex digits the revision with that node, and
/// a bookmark its revision, in this order.
pub fn revision_named(
    log: &Revlog,
    bookmarks: &Bookmarks,
    first: Option<u32>,
    name: &[u8],
) -> Option<u32>
    requires { IfSome first (λ rev. rev < length log.now.entries) }
    ensures named { result ≡ named_in log.now.entries bookmarks.now first name.now }
    ensures below { IfSome result (λ rev. rev < length log.now.entries) }
{
    if equal(name, b"null") {
        return None;
    }
    if equal(name, b".") {
        return first;
    }
    if equal(name, b"tip") {
        return last_of(log.len());
    }
    plain_named(log, bookmarks, name)
}
