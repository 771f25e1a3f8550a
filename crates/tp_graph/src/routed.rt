//! What a message has to provide so that a link can carry it.
ghost use Rattle.std.specs.Prelude.{◌≡◌, ℕ};

use tp_base::{MessageId, NodeId};

/// A message that a link can carry: it has a number, a sender and a receiver.
pub trait Routed {
    ghost sender: { Self → ℕ };

    ghost receiver: { Self → ℕ };

    ghost message: { Self → ℕ };

    /// Returns the node that sends the message.
    fn from(&self) -> NodeId
        ensures { result.0 ≡ sender self.now };

    /// Returns the node that receives the message.
    fn to(&self) -> NodeId
        ensures { result.0 ≡ receiver self.now };

    /// Returns the number of the message.
    fn number(&self) -> MessageId
        ensures { result.0 ≡ message self.now };
}
