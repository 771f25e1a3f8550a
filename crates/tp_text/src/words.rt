//! The words and numbers at the front of a text.
ghost use Rattle.std.specs.{List.All, Prelude.{◌≡◌, ◌≢◌, ◌≤◌, ◌++◌, ◌∷◌, ℕ, List, length, decimal, MatchOption}};
ghost use Rattle.tp_text.specs.{Spelling.{IsNumber, spaced}, Words.{IsWordByte, IsDigit, BeginsWithout, Splits, numbers_in}};

use crate::number::leading_number;

/// The numbers after a word.
#[derive(Clone, Copy)]
pub(crate) enum Operands {
    None,
    One(u32),
    Two(u32, u32),
    Three(u32, u32, u32),
    Four(u32, u32, u32, u32),
}

/// Splits a text into the word at its front, which ends at the first space or line feed, and the rest.
pub(crate) fn first_word(text: &[u8]) -> (&[u8], &[u8])
    ensures { Splits IsWordByte text.now result.0.now result.1.now }
{
    let end = text.iter().position(|byte| *byte == b' ' || *byte == b'\n');
    text.split_at(end.unwrap_or(text.len()))
}

/// Returns the text after the line feed at the front, if there is one.
fn behind_line(text: &[u8]) -> Option<&[u8]>
    ensures { MatchOption result
        ((rest : List ℕ) → text.now ≢ 10 ∷ rest)
        (λ rest. text.now ≡ 10 ∷ rest.now) }
{
    match text {
        [b'\n', rest @ ..] => Some(rest),
        _ => None,
    }
}

/// Parses a space and a number at the front, and returns the number and the text after it.
fn next_number(text: &[u8]) -> Option<(u32, &[u8])>
    ensures { MatchOption result
        ((k : ℕ) (rest : List ℕ) → IsNumber k → BeginsWithout IsDigit rest → text.now ≢ 32 ∷ (decimal k ++ rest))
        (λ found. IsNumber found.0 × BeginsWithout IsDigit found.1.now
        × (text.now ≡ 32 ∷ (decimal found.0 ++ found.1.now))) }
{
    match text {
        [b' ', rest @ ..] => leading_number(rest),
        _ => None,
    }
}

/// Parses at most four numbers, each after a space, up to the end of the line, and returns them and the text after it.
pub(crate) fn operands_of(text: &[u8]) -> Option<(Operands, &[u8])>
    ensures { MatchOption result
        ((ks : List ℕ) (rest : List ℕ) → All IsNumber ks → length ks ≤ 4 → text.now ≢ spaced ks ++ 10 ∷ rest)
        (λ found. All IsNumber (numbers_in found.0) × (text.now ≡ spaced (numbers_in found.0) ++ 10 ∷ found.1.now)) }
{
    if let Some(rest) = behind_line(text) {
        return Some((Operands::None, rest));
    }
    let (first, text) = next_number(text)?;
    if let Some(rest) = behind_line(text) {
        return Some((Operands::One(first), rest));
    }
    let (second, text) = next_number(text)?;
    if let Some(rest) = behind_line(text) {
        return Some((Operands::Two(first, second), rest));
    }
    let (third, text) = next_number(text)?;
    if let Some(rest) = behind_line(text) {
        return Some((Operands::Three(first, second, third), rest));
    }
    let (fourth, text) = next_number(text)?;
    let numbers = Operands::Four(first, second, third, fourth);
    Some((numbers, behind_line(text)?))
}
