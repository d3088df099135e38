//! Numbers by their digits.

/// The number that these digits are.
pub(crate) fn number_of(digits: &[u8]) -> Option<i64> {
    let mut number: i64 = 0;
    for digit in digits {
        if !digit.is_ascii_digit() {
            return None;
        }
        let next = i64::from(digit.saturating_sub(b'0'));
        number = number.checked_mul(10)?.checked_add(next)?;
    }
    if digits.is_empty() {
        None
    } else {
        Some(number)
    }
}
