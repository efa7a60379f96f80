// The numbers that a schedule says.
ghost use Rattle.std.specs.Prelude.{◌≡◌};
ghost use Rattle.hgs_schedule.specs.Read.{number_of, reader_of};

use hgs_input::number::number_up_to;

const MOST_NUMBER: u64 = u64::MAX - 1;

/// A number of bytes; each above the greatest of 64 bits counts as that.
pub(crate) fn number_from(text: &[u8]) -> Option<u64>
    ensures { result ≡ number_of text.now }
{
    number_up_to(text, MOST_NUMBER)
}

/// The number of one of so many readers.
pub(crate) fn reader_from(readers: u32, text: &[u8]) -> Option<u32>
    ensures { result ≡ reader_of readers text.now }
{
    let number = number_from(text)?;
    if number < readers as u64 {
        Some(number as u32)
    } else {
        None
    }
}
