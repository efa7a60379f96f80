// The date line of a changeset.
ghost use Rattle.std.specs.Prelude.{◌≡◌, ◌<◌, ◌≤◌, ◌^◌, IfOk, IfSome, IfNone, unsigned_abs, ℤ, nat_le, ◌&&◌};
ghost use Rattle.std.specs.Option.{option_map};
ghost use Rattle.std.specs.Str.{is_utf8};
ghost use Rattle.std.specs.Str.Parse.{signed_digits_value};
ghost use Rattle.std.specs.Fmt.{signed_decimal};
ghost use Rattle.hgs_bytes.specs.Bytes.{same};
ghost use Rattle.hgs_bytes.specs.Text.{split};
ghost use Rattle.hgs_index.specs.ChangeText.{number_within, when_at, most_offset, offset_and_extras};
ghost use Rattle.hgs_changelog.specs.View.{view_when};

use hgs_bytes::bytes::Bytes;
use hgs_bytes::parts::{equal, split_at_byte};
use itoa::Buffer;
use std::alloc::{AllocError, Global};

const MOST_SECONDS: u64 = 1 << 40;

const MOST_OFFSET: u64 = 50_400;

/// When a changeset was made.
#[derive(Debug, Drop)]
pub struct When {
    /// Seconds since 1970 began, in UTC.
    pub seconds: i64,
    /// The seconds by which the time zone is west of UTC.
    pub offset: i32,
    /// What stands behind both, which is empty where nothing does.
    pub extras: Bytes,
}

/// Whether the bytes are UTF-8.
pub fn is_text(bytes: &[u8]) -> bool
    ensures { result ≡ is_utf8 bytes.now }
{
    match std::str::from_utf8(bytes) {
        Ok(_) => true,
        Err(_) => false,
    }
}

/// The number that digits and a minus spell, whatever their form.
fn parsed(text: &[u8]) -> Option<i64>
    ensures some { IfSome result (λ z. z ≡ signed_digits_value 10 text.now) }
    ensures none { IfNone result ((z : ℤ) → unsigned_abs z < 2 ^ 62 → text.now ≡ signed_decimal z → ⊥) }
{
    match std::str::from_utf8(text) {
        Ok(text) => match text.parse::<i64>() {
            Ok(number) => Some(number),
            Err(_) => None,
        },
        Err(_) => None,
    }
}

/// Whether the text is how the number is written, which is at most so far from 0.
fn spells(text: &[u8], number: i64, most: u64) -> bool
    ensures { result ≡ (same (signed_decimal number) text.now && nat_le (unsigned_abs number) most) }
{
    let mut buffer = Buffer::new();
    equal(buffer.format(number).as_bytes(), text) && number.unsigned_abs() <= most
}

/// The number that the text is the spelling of, where it is at most so far from 0.
#[tactic(auto, unfolding(hgs_index::specs::ChangeText::number_within), using(crate::proofs::NumberLemmas::number_missing))]
fn number_from(text: &[u8], most: u64) -> Option<i64>
    requires { most < 2 ^ 62 }
    ensures value { result ≡ number_within most text.now }
    ensures near { IfSome result (λ z. unsigned_abs z ≤ most) }
{
    match parsed(text) {
        Some(number) => {
            if spells(text, number, most) {
                Some(number)
            } else {
                None
            }
        }
        None => None,
    }
}

fn offset_from(text: &[u8]) -> Option<i32>
    ensures { result ≡ number_within most_offset text.now }
{
    match number_from(text, MOST_OFFSET) {
        Some(number) => Some(number as i32),
        None => None,
    }
}

/// The offset and the extras, of what stands behind the seconds.
fn split_extras(rest: &[u8]) -> Option<(&[u8], &[u8])>
    ensures { option_map (λ x. (x.0.now, x.1.now)) result ≡ offset_and_extras rest.now (split 32 rest.now) }
{
    match split_at_byte(rest, b' ') {
        Some((offset, extras)) => {
            if extras.len() == 0 {
                None
            } else {
                Some((offset, extras))
            }
        }
        None => Some((rest, &[])),
    }
}

/// The date that a line spells: seconds, offset, and extras of at least one byte where a second space stands.
#[tactic(auto, unfolding(hgs_index::specs::ChangeText::when_at))]
pub fn when_from(alloc: Global, line: &[u8]) -> Result<Option<When>, AllocError>
    ensures { IfOk result (λ w. option_map view_when w ≡ when_at line.now) }
{
    let Some((seconds, rest)) = split_at_byte(line, b' ') else {
        return Ok(None);
    };
    let Some((offset, extras)) = split_extras(rest) else {
        return Ok(None);
    };
    let Some(seconds) = number_from(seconds, MOST_SECONDS) else {
        return Ok(None);
    };
    let Some(offset) = offset_from(offset) else {
        return Ok(None);
    };
    let extras = Bytes::from_slice(alloc, extras)?;
    Ok(Some(When {
        seconds,
        offset,
        extras,
    }))
}
