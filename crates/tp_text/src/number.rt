//! The number at the front of a text.
ghost use Rattle.std.specs.Prelude.{◌≡◌, ◌≢◌, ◌<◌, ◌≤◌, ◌↔◌, ◌++◌, ℕ, List, length, slice_index, take, decimal, IsTrue, MatchOption};
ghost use Rattle.std.specs.Str.Parse.{digits_value};
ghost use Rattle.tp_text.specs.{Spelling.IsNumber, Words.{IsDigit, BeginsWithout}};

/// Returns the number of digits at the front, at most seven, and their value. Digits after the seventh are not read.
fn leading_digits(text: &[u8]) -> (usize, u32)
    ensures few { result.0 ≤ 7 }
    ensures within { result.0 ≤ length text.now }
    ensures digits { (i : ℕ) → i < result.0 → IsDigit (slice_index text.now i) }
    ensures stops { result.0 < 7 → result.0 < length text.now → ¬ IsDigit (slice_index text.now result.0) }
    ensures value { result.1 ≡ digits_value 10 (take result.0 text.now) }
{
    let most = text.len().min(7);
    let mut len = 0;
    let mut value = 0;
    while len < most && text[len].is_ascii_digit() {
        value = value * 10 + u32::from(text[len] - b'0');
        len += 1;
    }
    (len, value)
}

/// Returns whether there are several digits, and the first is a zero.
fn is_padded(text: &[u8], len: usize) -> bool
    requires { len ≤ length text.now }
    ensures { IsTrue result ↔ ((1 < len) × (slice_index text.now 0 ≡ 48)) }
{
    len > 1 && text[0] == b'0'
}

/// Returns the number at the front, one to six digits without a leading zero, and the text after its last digit. `None`
/// if there is no such number.
pub(crate) fn leading_number(text: &[u8]) -> Option<(u32, &[u8])>
    ensures { MatchOption result
        ((k : ℕ) (rest : List ℕ) → IsNumber k → BeginsWithout IsDigit rest → text.now ≢ decimal k ++ rest)
        (λ found. IsNumber found.0 × BeginsWithout IsDigit found.1.now × (text.now ≡ decimal found.0 ++ found.1.now)) }
{
    let (len, value) = leading_digits(text);
    if len == 0 || len > 6 || is_padded(text, len) {
        return None;
    }
    Some((value, &text[len..]))
}
