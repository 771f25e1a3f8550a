//! The faults of reading a text and of replying to it.
use std::alloc::AllocError;
use thiserror::Error;

/// Why a text was not read, or has no reply.
#[derive(Clone, Copy, Debug, PartialEq, Eq, Error)]
pub enum TextFault {
    /// A read failed, other than by an interruption, or 67,108,864 reads did not reach the end.
    #[error("fault read")]
    Read,
    /// The text has more than 33,554,432 bytes.
    #[error("fault too long")]
    TooLong,
    /// The reply could not be written. How much of it was written is unknown.
    #[error("fault write")]
    Write,
    /// An allocation failed.
    #[error("no memory")]
    Memory,
}

impl From<AllocError> for TextFault {
    ghost use Rattle.std.specs.Prelude.{◌≡◌};
    ghost use Rattle.tp_text.specs.declared.fault.TextFault.TheVariants.{Memory};

    ghost from_gives = { λ _ fault. fault ≡ Memory };

    fn from(_: AllocError) -> Self {
        TextFault::Memory
    }
}
