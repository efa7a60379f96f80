//! Parts of bytes: what stands before and behind a separator, fronts and rests, and the order of bytes.
ghost use Rattle.std.specs.Prelude.{◌≡◌, ◌+◌, ◌<◌, ◌∷◌, List, length, take, drop};
ghost use Rattle.std.specs.Option.{option_map};
ghost use Rattle.hgs_bytes.specs.Bytes.{same, is_below, begins_with};
ghost use Rattle.hgs_bytes.specs.Text.{split, lines_of};

use memchr::memchr;
use std::cmp::Ordering;

/// Whether two texts have the same bytes.
pub fn equal(a: &[u8], b: &[u8]) -> bool
    ensures { result ≡ same a.now b.now }
{
    a == b
}

/// Whether `a` comes before `b` in the order of bytes.
pub fn below(a: &[u8], b: &[u8]) -> bool
    ensures { result ≡ is_below a.now b.now }
{
    match a.cmp(b) {
        Ordering::Less => true,
        Ordering::Equal => false,
        Ordering::Greater => false,
    }
}

/// The first bytes, at most so many.
#[tactic(auto, using(std::proofs::lemmas::List::take_min))]
pub fn front(bytes: &[u8], most: usize) -> &[u8]
    ensures { result.now ≡ take most bytes.now }
{
    &bytes[..most.min(bytes.len())]
}

/// The bytes from a place on, none where there are no more.
#[tactic(auto, using(std::proofs::lemmas::List::drop_min))]
pub fn past(bytes: &[u8], from: usize) -> &[u8]
    ensures { result.now ≡ drop from bytes.now }
{
    &bytes[from.min(bytes.len())..]
}

/// Whether `text` begins with `start`.
pub fn starts(text: &[u8], start: &[u8]) -> bool
    ensures { result ≡ begins_with text.now start.now }
{
    equal(start, front(text, start.len()))
}

/// What stands before the first such byte, and what behind it; none where there is no such byte.
pub fn split_at_byte(bytes: &[u8], byte: u8) -> Option<(&[u8], &[u8])>
    ensures { option_map (λ x. (x.0.now, x.1.now)) result ≡ split byte bytes.now }
{
    match memchr(byte, bytes) {
        Some(at) => Some((&bytes[..at], &bytes[at + 1..])),
        None => None,
    }
}

/// The first line, whether an LF ends it, and what stands behind it.
pub fn next_line(text: &[u8]) -> (&[u8], bool, &[u8])
    requires { 0 < length text.now }
    ensures lines { lines_of text.now ≡ (result.0.now, result.1) ∷ lines_of result.2.now }
    ensures shorter { length result.2.now < length text.now }
{
    match split_at_byte(text, b'\n') {
        Some((line, rest)) => (line, true, rest),
        None => (text, false, &[]),
    }
}
