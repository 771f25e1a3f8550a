//! The messages of a run: those in flight, and those that were received.

use crate::lengths::number_of;
use std::alloc::{AllocError, Global};
use std::fmt;
use tp_base::{MessageId, NodeId, Step};

/// A message: it was sent at this event.
#[derive(Clone, Copy, Debug, PartialEq, Eq)]
pub struct Message {
    pub message: MessageId,
    pub from: NodeId,
    pub to: NodeId,
    pub sent: u32,
    /// The event at which it was received.
    pub received: Option<u32>,
}

impl fmt::Display for Message {
    fn fmt<W: fmt::Write>(&self, f: &mut fmt::Formatter<W>) -> fmt::Result {
        let (message, from, to) = (self.message.0, self.from.0, self.to.0);
        let sent = number_of(self.sent);
        write!(
            f,
            "message {message}: node {from} to node {to}, sent at {sent}, "
        )?;
        match self.received {
            Some(event) => write!(f, "received at {}", number_of(event)),
            None => f.write_str("not received"),
        }
    }
}

/// The messages of the steps so far.
#[derive(Drop)]
pub struct Messages {
    /// Those that were sent and not received.
    pub under_way: Vec<Message>,
    /// Those that were received.
    pub arrows: Vec<Message>,
}

impl Messages {
    pub(crate) fn new(alloc: Global) -> Messages {
        Messages {
            under_way: Vec::new(alloc),
            arrows: Vec::new(alloc),
        }
    }

    pub(crate) fn take(&mut self, step: Step, event: u32) -> Result<(), AllocError> {
        match step {
            Step::Send(from, to, message, _) => self.under_way.push(Message {
                message,
                from,
                to,
                sent: event,
                received: None,
            })?,
            Step::Recv(_, message, _) => self.receive(message, event)?,
            _ => {}
        }
        Ok(())
    }

    fn receive(&mut self, number: MessageId, event: u32) -> Result<(), AllocError> {
        let sent = &mut self.under_way;
        if let Some(place) = sent.iter().position(|sent| sent.message.0 == number.0) {
            let mut message = sent.remove(place);
            message.received = Some(event);
            self.arrows.push(message)?;
        }
        Ok(())
    }
}
