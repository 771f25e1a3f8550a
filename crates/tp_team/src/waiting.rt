//! How many threads are in turns that have not returned.
ghost use Rattle.std.specs.Prelude.{◌≡◌, ◌+◌, ◌-◌, ◌≤◌, ◌<◌};
ghost use Rattle.tp_team.specs.{State.{in_turns, left, needed, signalled_by}, declared.limits.TheConstants.MAX_THREADS};
ghost use Rattle.tp_team.specs.declared.waiting.Waiting.{Waiting};

use crate::limits::MAX_THREADS;
use crate::turn::Arrival;

/// The threads in turns that have not returned.
#[derive(Clone, Copy, Debug, PartialEq, Eq)]
pub struct Waiting {
    /// Those that spin.
    pub spinning: u32,
    /// Those that sleep and were not signalled.
    pub sleeping: u32,
    /// Those that slept and were signalled.
    pub signalled: u32,
}

impl Waiting {
    /// No thread waits.
    pub(crate) fn none() -> Waiting
        ensures { result ≡ record { spinning = 0; sleeping = 0; signalled = 0 } }
    {
        Waiting {
            spinning: 0,
            sleeping: 0,
            signalled: 0,
        }
    }

    /// How many they are.
    #[inline]
    pub(crate) fn total(self) -> u32
        requires { in_turns self ≤ MAX_THREADS }
        ensures { result ≡ in_turns self }
    {
        self.spinning + self.sleeping + self.signalled
    }

    /// Without the thread that comes back to a turn.
    #[inline]
    pub(crate) fn without(self, arrival: Arrival) -> Waiting
        ensures left { result ≡ left arrival self }
        ensures fewer { in_turns result ≤ in_turns self }
    {
        match arrival {
            Arrival::New => self,
            Arrival::Spun => Waiting {
                spinning: self.spinning.saturating_sub(1),
                ..self
            },
            Arrival::Woken if self.signalled == 0 => Waiting {
                sleeping: self.sleeping.saturating_sub(1),
                ..self
            },
            Arrival::Woken => Waiting {
                signalled: self.signalled - 1,
                ..self
            },
        }
    }

    /// How many sleeping threads have to be signalled.
    #[inline]
    pub(crate) fn needed(self, ended: bool, ready: bool) -> u32
        requires { in_turns self ≤ MAX_THREADS }
        ensures count { result ≡ needed ended ready self }
        ensures few { result ≤ self.sleeping }
    {
        if ended {
            return self.sleeping;
        }
        if ready && self.sleeping > 0 && self.spinning + self.signalled == 0 {
            return 1;
        }
        0
    }

    /// With this number of sleeping threads signalled.
    #[inline]
    pub(crate) fn signalled_by(self, signals: u32) -> Waiting
        requires few { signals ≤ self.sleeping }
        requires fits { in_turns self ≤ MAX_THREADS }
        ensures { result ≡ signalled_by signals self }
    {
        Waiting {
            sleeping: self.sleeping - signals,
            signalled: self.signalled + signals,
            ..self
        }
    }
}
