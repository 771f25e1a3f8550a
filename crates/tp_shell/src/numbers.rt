//! Parses numbers as specifications and scripts spell them, and cuts texts into parts.

/// How a message names what every number is.
pub static A_NUMBER: &str = "a number of at most six digits without leading zeros\n";

/// Returns the number that a text spells with at most nine digits, without leading zeros.
pub fn number_of(text: &[u8]) -> Option<u32> {
    match text {
        [] | [b'0', _, ..] => return None,
        _ if text.len() > 9 => return None,
        _ => {}
    }
    let mut value = 0u32;
    for byte in text {
        if !byte.is_ascii_digit() {
            return None;
        }
        let digit = u32::from(byte.saturating_sub(b'0'));
        value = value.saturating_mul(10).saturating_add(digit);
    }
    Some(value)
}

/// Returns the number that a text spells with at most six digits, without leading zeros.
pub fn short_number_of(text: &[u8]) -> Option<u32> {
    number_of(text).filter(|number| *number < 1_000_000)
}

/// Returns the text before the first such byte, and the text after it, if there is one.
pub fn cut(text: &[u8], byte: u8) -> (&[u8], Option<&[u8]>) {
    let end = text.iter().position(|it| *it == byte);
    let (front, rest) = text.split_at(end.unwrap_or(text.len()));
    match rest {
        [_, behind @ ..] => (front, Some(behind)),
        [] => (front, None),
    }
}
