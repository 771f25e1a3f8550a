//! Handles, and how a task accesses them.
ghost use Rattle.std.specs.Prelude.{◌≡◌};
ghost use Rattle.tp_flow.specs.Description.{writes};

/// The number of a handle, which names a piece of data.
#[derive(Clone, Copy, Debug, PartialEq, Eq, PartialOrd, Ord, Hash)]
pub struct Handle(pub u32);

/// What a task does with a handle. In OpenMP's words: `in`, `out` and `inout`.
#[derive(Clone, Copy, Debug, PartialEq, Eq)]
pub enum Mode {
    /// It reads the value, and leaves it.
    Read,
    /// It writes the whole value, and does not read the one before. A task that writes a part of it updates it.
    Write,
    /// It reads the value, and writes one.
    Update,
}

/// A handle that a task accesses.
#[derive(Clone, Copy, Debug, PartialEq, Eq)]
pub struct Access {
    pub handle: Handle,
    pub mode: Mode,
}

impl Mode {
    /// Returns whether a task writes in this mode.
    #[inline]
    pub fn writes(self) -> bool
        ensures { result ≡ writes self }
    {
        match self {
            Mode::Read => false,
            Mode::Write => true,
            Mode::Update => true,
        }
    }
}
