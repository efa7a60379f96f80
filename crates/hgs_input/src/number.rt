//! The numbers that an input says.
ghost use Rattle.std.specs.Prelude.{◌≡◌, ◌<◌, ◌+◌, ◌^◌, true, min};
ghost use Rattle.std.specs.List.{list_all};
ghost use Rattle.std.specs.Str.Parse.{digits_value};
ghost use Rattle.hgs_index.specs.MarkName.{is_digit};
ghost use Rattle.hgs_input.specs.Read.{is_number, number_up_to};

fn are_digits(text: &[u8]) -> bool
    ensures { result ≡ list_all is_digit text.now }
{
    text.iter().all(|byte| b'0' <= *byte && *byte <= b'9')
}

// Whether these are decimal digits without a needless zero.
fn is_number(text: &[u8]) -> bool
    ensures { result ≡ is_number text.now }
{
    text.len() != 0 && are_digits(text) && (text.len() == 1 || text[0] != b'0')
}

// The number of these digits, of which there may be any number, or the bound where that is less.
fn value_up_to(digits: &[u8], bound: u64) -> u64
    requires digits { list_all is_digit digits.now ≡ true }
    requires small { bound < 2 ^ 64 }
    ensures { result ≡ min (digits_value 10 digits.now) bound }
{
    let mut value: u64 = 0;
    for digit in digits {
        let more = value
            .saturating_mul(10)
            .saturating_add((*digit - b'0') as u64);
        value = more.min(bound);
    }
    value
}

/// The number that a text spells in decimal digits; each above `most` counts as the next one.
pub fn number_up_to(text: &[u8], most: u64) -> Option<u64>
    requires { most + 1 < 2 ^ 64 }
    ensures { result ≡ number_up_to most text.now }
{
    if is_number(text) {
        Some(value_up_to(text, most + 1))
    } else {
        None
    }
}
