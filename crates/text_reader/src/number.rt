//! Numbers.

ghost use Rattle.std.specs.Prelude.{◌≡◌, ◌<◌, ◌≤◌, true, MatchOption};
ghost use Rattle.est_lexer.specs.Spellings.{is_number};
ghost use Rattle.text_reader.specs.Tests.{value_of};

/// The value of the digits of a number.
pub fn value(digits: &[u8]) -> u64
    requires { is_number digits.now ≡ true }
    ensures { result ≡ value_of digits.now }
{
    let mut value = 0;
    for digit in digits {
        value = 10 * value + u64::from(digit.saturating_sub(b'0'));
    }
    value
}

/// The value of decimal digits, where it is at most this.
pub fn value_up_to(digits: &[u8], high: u32) -> Option<u32>
    ensures { MatchOption result (high < value_of digits.now)
        (λ value. (value ≡ value_of digits.now) × (value ≤ high)) }
{
    let mut value: u64 = 0;
    for digit in digits {
        value = 10 * value + u64::from(digit.saturating_sub(b'0'));
        if value > u64::from(high) {
            return None;
        }
    }
    Some(value as u32)
}
