// Offsets in decimal digits.
ghost use Rattle.std.specs.Prelude.{◌≡◌, ◌<◌, ◌^◌, ◌++◌, ℕ, decimal, Some, OnOk, OnErr};
ghost use Rattle.hgs_bytes.specs.Bytes.{same};
ghost use Rattle.hgs_journal.specs.Read.{offset_of};

use hgs_bytes::parts::equal;
use itoa::Buffer;
use std::alloc::AllocError;

/// The number that digits are, whatever their form.
fn parsed(text: &[u8]) -> Option<u64>
    ensures { (n : ℕ) → n < 2 ^ 64 → text.now ≡ decimal n → result ≡ Some n }
{
    match std::str::from_utf8(text) {
        Ok(text) => match text.parse::<u64>() {
            Ok(number) => Some(number),
            Err(_) => None,
        },
        Err(_) => None,
    }
}

/// Whether the text is how the number is written.
fn spells(text: &[u8], number: u64) -> bool
    ensures { result ≡ same (decimal number) text.now }
{
    let mut buffer = Buffer::new();
    equal(buffer.format(number).as_bytes(), text)
}

/// The number that the text is how it is written: decimal digits, without a needless zero.
pub fn offset_from(text: &[u8]) -> Option<u64>
    ensures { result ≡ offset_of text.now }
{
    let number = parsed(text)?;
    if spells(text, number) {
        Some(number)
    } else {
        None
    }
}

/// Adds the digits of a number, or nothing where there is no memory.
pub fn print_number(number: u64, into: &mut Vec<u8>) -> Result<(), AllocError>
    ensures ok { OnOk result (into.new.items ≡ into.old.items ++ decimal number) }
    ensures err { OnErr result (into.new.items ≡ into.old.items) }
{
    let mut buffer = Buffer::new();
    into.extend_from_slice(buffer.format(number).as_bytes())
}
