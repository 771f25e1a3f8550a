//! The reasons for which calls on a team are refused.
ghost use Rattle.std.specs.Prelude.{◌≡◌};
ghost use Rattle.tp_team.specs.Refusals.{number_of};

use tp_base::Refusal;

/// Why a call on a team was refused.
#[derive(Clone, Copy, Debug, PartialEq, Eq)]
pub enum TeamRefusal {
    /// The pool refused it.
    Pool(Refusal),
    /// A run needs a thread.
    NoThread,
    /// The team was stopped.
    Stopped,
    /// The call cannot be made while a turn has not returned or a task runs.
    Running,
}

impl TeamRefusal {
    /// Returns its number: that of the pool's refusal, 1 to 26; or 64, 66 or 67.
    pub fn number(&self) -> u32
        ensures { result ≡ number_of self.now }
    {
        match self {
            TeamRefusal::Pool(refusal) => u32::from(refusal.number()),
            TeamRefusal::NoThread => 64,
            TeamRefusal::Stopped => 66,
            TeamRefusal::Running => 67,
        }
    }
}

impl From<Refusal> for TeamRefusal {
    ghost use Rattle.std.specs.Prelude.{◌≡◌};
    ghost use Rattle.tp_team.specs.declared.refusal.TeamRefusal.TheVariants.{Pool};

    ghost from_gives = { λ r e. e ≡ Pool r };

    fn from(refusal: Refusal) -> Self {
        TeamRefusal::Pool(refusal)
    }
}

/// Why every later turn of a team is refused, and the task that it is about.
#[derive(Clone, Copy, Debug, PartialEq, Eq)]
pub struct Fault {
    pub refusal: TeamRefusal,
    pub task: Option<u32>,
}
