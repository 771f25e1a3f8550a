//! The waves of a run: the cuts of those that ended, where termination was detected, and where the pool was reopened.

use std::alloc::{AllocError, Global};
use std::fmt;
use tp_base::{Generation, Step, Sums};
use tp_core::Reply;

/// A wave that ended: its sums, and the event at which each node gave its own.
#[derive(Clone, Copy, Debug, PartialEq, Eq)]
pub struct Cut {
    pub sums: Sums,
    pub gives: [u32; 8],
}

impl fmt::Display for Cut {
    fn fmt<W: fmt::Write>(&self, f: &mut fmt::Formatter<W>) -> fmt::Result {
        let (wave, sent, received) = (self.sums.wave, self.sums.sent, self.sums.received);
        write!(f, "wave {wave}: {sent} sent, {received} received")
    }
}

/// Termination was detected: at an event, with the number of the wave before the last, which ended at the event
/// `since`.
#[derive(Clone, Copy, Debug, PartialEq, Eq)]
pub struct End {
    pub wave: u32,
    pub since: u32,
    pub judged: u32,
}

/// At this event the pool was reopened, for this generation.
#[derive(Clone, Copy, Debug, PartialEq, Eq)]
pub struct Seam {
    pub generation: Generation,
    pub at: u32,
}

/// The waves of the steps so far.
#[derive(Drop)]
pub struct Waves {
    // where each node gave last
    gives: [u32; 8],
    // where the root gave before: the wave before the last ended there
    earlier: u32,
    /// The waves that ended.
    pub cuts: Vec<Cut>,
    /// Where the pool was reopened.
    pub seams: Vec<Seam>,
    /// Where termination was detected: at most once a generation.
    pub ends: Vec<End>,
    /// The number of the wave with which termination of the present generation was detected.
    pub ended: Option<u32>,
}

impl Waves {
    pub(crate) fn new(alloc: Global) -> Waves {
        Waves {
            gives: [0; 8],
            earlier: 0,
            cuts: Vec::new(alloc),
            seams: Vec::new(alloc),
            ends: Vec::new(alloc),
            ended: None,
        }
    }

    /// Takes the next step, with the core's reply to it. When the root gives its sums, the wave ends.
    pub(crate) fn take(&mut self, step: Step, reply: Reply, event: u32) -> Result<(), AllocError> {
        if let Step::Give(node) = step {
            if node.0 == 0 {
                self.earlier = self.gives[0];
            }
            if let Some(give) = self.gives.get_mut(node.0 as usize) {
                *give = event;
            }
        }
        match reply {
            Reply::Plain => {}
            Reply::WaveSums(sums) => {
                let gives = self.gives;
                self.cuts.push(Cut { sums, gives })?;
            }
            Reply::Not => self.ended = None,
            Reply::Over(wave) => {
                let (since, judged) = (self.earlier, event);
                self.ended = Some(wave);
                self.ends.push(End {
                    wave,
                    since,
                    judged,
                })?;
            }
            Reply::Opened(generation) => {
                self.ended = None;
                let at = event;
                self.seams.push(Seam { generation, at })?;
            }
        }
        Ok(())
    }
}
