//! The verdict on a text.

/// The verdict on a text.
#[derive(Clone, Copy, Debug, PartialEq, Eq)]
pub enum Verdict {
    /// It matches the grammar; and if it was audited, no step is refused and each judgement line is right.
    Sound,
    /// It is not sound.
    Refused,
}
