//! Decimal numerals.
ghost use Rattle.std.specs.Prelude.{◌≡◌, ◌+◌, ◌-◌, ◌*◌, ◌^◌, ◌≤◌, ◌<◌, IfSome, min};
ghost use Rattle.std.specs.List.{list_all};
ghost use Rattle.std.specs.Char.{is_ascii_digit};
ghost use Rattle.text_reading.specs.Numerals.{are_digits, value_of, digits_in, plain_in, minus, positive_in, negative_in, number_in};

/// The greatest value that is told apart, the greatest number of 64 bits.
pub const MOST: u64 = 18_446_744_073_709_551_615;

fn is_digit(byte: u8) -> bool
    ensures { result ≡ is_ascii_digit byte }
{
    48 <= byte && byte <= 57
}

fn all_digits(text: &[u8]) -> bool
    ensures { result ≡ list_all is_ascii_digit text.now }
{
    text.iter().all(|b| is_digit(*b))
}

/// Whether the text is one digit or more.
pub fn are_digits(text: &[u8]) -> bool
    ensures { result ≡ are_digits text.now }
{
    !text.is_empty() && all_digits(text)
}

/// The value of one more digit, up to `MOST`.
fn next_value(value: u64, digit: u8) -> u64
    ensures { result ≡ min (10 * value + (digit - 48)) MOST }
{
    let sum = 10 * u128::from(value) + u128::from(digit.saturating_sub(48));
    if sum < u128::from(MOST) {
        sum as u64
    } else {
        MOST
    }
}

/// The value of decimal digits, and `MOST` for every greater one.
#[tactic(auto, unfolding(crate::specs::Numerals::value_of))]
pub fn value(digits: &[u8]) -> u64
    ensures { result ≡ min (value_of digits.now) MOST }
{
    let mut value = 0;
    for digit in digits {
        value = next_value(value, *digit);
    }
    value
}

/// The number of digits, where it is at most so large.
fn digits(most: u64, text: &[u8]) -> Option<u64>
    requires { most < 18446744073709551615 }
    ensures exact { result ≡ digits_in most text.now }
    ensures within { IfSome result (λ n. n ≤ most) }
{
    let number = value(text);
    if are_digits(text) && number <= most {
        Some(number)
    } else {
        None
    }
}

/// The number that is written so, digits without a leading zero, if it is at most so large.
#[tactic(auto, unfolding(crate::specs::Numerals::plain_in))]
pub fn plain_number(most: u64, word: &[u8]) -> Option<u64>
    requires { most < 18446744073709551615 }
    ensures exact { result ≡ plain_in most word.now }
    ensures within { IfSome result (λ n. n ≤ most) }
{
    match word {
        [] => None,
        [first, ..] => {
            if *first == b'0' {
                None
            } else {
                digits(most, word)
            }
        }
    }
}

fn minus(size: u64) -> i64
    requires { size ≤ 2 ^ 63 }
    ensures { result ≡ minus size }
{
    if size == 0 {
        0
    } else {
        -1 - ((size - 1) as i64)
    }
}

fn negative(digits: &[u8]) -> Option<i64>
    ensures { result ≡ negative_in digits.now }
{
    let size = value(digits);
    if are_digits(digits) && size <= 9_223_372_036_854_775_808 {
        Some(minus(size))
    } else {
        None
    }
}

fn positive(digits: &[u8]) -> Option<i64>
    ensures { result ≡ positive_in digits.now }
{
    let size = value(digits);
    if are_digits(digits) && size < 9_223_372_036_854_775_808 {
        Some(size as i64)
    } else {
        None
    }
}

/// The number that is written so, digits with or without a `-` before them, if it is one of 64
/// bits.
#[tactic(auto, unfolding(crate::specs::Numerals::number_in))]
pub fn number(word: &[u8]) -> Option<i64>
    ensures { result ≡ number_in word.now }
{
    match word {
        [b'-', digits @ ..] => negative(digits),
        _ => positive(word),
    }
}
