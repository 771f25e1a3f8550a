//! The versions of the grammar.
ghost use Rattle.std.specs.Prelude.{◌≡◌};
ghost use Rattle.tp_text.specs.Script.{nodes_at};

/// The version of a text's grammar.
#[derive(Clone, Copy)]
pub(crate) enum Version {
    /// It has only the first generation.
    One,
    /// The line of a message has the number of its generation, and a pool can be reopened.
    Two,
}

impl Version {
    /// Returns which line of a script has the number of nodes, counted from 1.
    pub(crate) fn nodes_at(self) -> u64
        ensures { result ≡ nodes_at self }
    {
        match self {
            Version::One => 1,
            Version::Two => 2,
        }
    }
}
