//! The exit statuses.
ghost use Rattle.std.specs.Prelude.{◌≡◌, ◌≤◌};
ghost use Rattle.tp_shell.specs.Statuses.{code_of};

/// The exit status of a program.
#[derive(Clone, Copy, Debug, PartialEq, Eq)]
pub enum Status {
    /// The program is done, or help or the version was asked for.
    Done,
    /// The arguments, the reading or the writing failed.
    Fault,
    /// The input is refused.
    Refused,
    /// A run was refused, or an allocation failed.
    Failed,
}

impl Status {
    /// Returns the number for the operating system: 0 `Done`, 1 `Fault`, 2 `Refused`, 3 `Failed`.
    pub fn code(self) -> u8
        ensures range { result ≤ 3 }
        ensures value { result ≡ code_of self }
    {
        match self {
            Status::Done => 0,
            Status::Fault => 1,
            Status::Refused => 2,
            Status::Failed => 3,
        }
    }
}
