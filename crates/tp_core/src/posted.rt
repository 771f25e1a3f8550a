//! A message, as the core stores it.
ghost use Rattle.std.specs.Prelude.{◌≡◌};

use tp_base::NodeId;

/// How far a message has come.
#[derive(Clone, Copy, Debug, PartialEq, Eq)]
pub enum Stage {
    /// It was sent, and is in flight.
    UnderWay,
    /// It was received, and its action is open.
    Received,
    /// Its action is closed.
    Ended,
}

/// A message that was sent, as the core stores it under its number.
#[derive(Clone, Copy, Debug, PartialEq, Eq)]
pub struct Posted {
    pub to: NodeId,
    pub stage: Stage,
}

impl Posted {
    /// Returns a message to this node at this stage.
    pub fn new(to: NodeId, stage: Stage) -> Self
        ensures { result ≡ record { to = to; stage = stage } }
    {
        Posted { to, stage }
    }
}
