//! A line of a trace, as data.
ghost use Rattle.std.specs.Prelude.{◌≡◌};
ghost use Rattle.tp_text.specs.AuditText.{step_in};

use tp_base::Step;

/// A line of a trace, after its first two.
#[derive(Clone, Copy)]
pub(crate) enum TraceLine {
    /// A step that is no judgement.
    Plain(Step),
    /// A judgement line with its claim: `Some(w)` if the pool had ended when wave `w` ended, or `None` for `not`.
    Judged(Option<u32>),
}

impl TraceLine {
    /// Returns the step of the line.
    pub(crate) fn step(self) -> Step
        ensures { result ≡ step_in self }
    {
        match self {
            TraceLine::Plain(step) => step,
            TraceLine::Judged(_) => Step::Judge,
        }
    }
}
