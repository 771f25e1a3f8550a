//! The messages of a long trace, counted by their ways: a ribbon for each way.

use crate::columns::column;
use crate::messages::Message;
use std::alloc::{AllocError, Global};
use tp_base::NodeId;

/// Bands are widened until there are at most this many ribbons.
const MOST: usize = 600;

/// The ways between eight nodes and 64 bands.
const WAYS: usize = 262_144;

/// The way of a message: the node and the band of columns in which it was sent, and those in which it was received.
#[derive(Clone, Copy, Debug, PartialEq, Eq)]
pub struct Way {
    pub from: NodeId,
    pub sent: u32,
    pub to: NodeId,
    pub received: u32,
}

/// The number of messages that went one way.
#[derive(Clone, Copy, Debug, PartialEq, Eq)]
pub struct Ribbon {
    pub way: Way,
    pub count: u32,
}

/// The messages that were received, counted by their ways.
#[derive(Drop)]
pub struct Bands {
    /// How many of the 1,500 columns a band has: 24, 48 and so on up to 1,536, the least that gives at most 600 ribbons.
    pub wide: u32,
    /// The newest comes first.
    pub ribbons: Vec<Ribbon>,
}

impl Bands {
    pub(crate) fn new(alloc: Global) -> Bands {
        Bands {
            wide: 0,
            ribbons: Vec::new(alloc),
        }
    }

    /// Counts the messages that were received in a trace of `all` events.
    pub(crate) fn count(
        &mut self,
        alloc: Global,
        all: u32,
        arrows: &[Message],
    ) -> Result<(), AllocError> {
        let mut places = vec![in alloc; 0; WAYS]?;
        // (with one band there are at most 64 ways)
        for wide in &[24, 48, 96, 192, 384, 768, 1_536] {
            self.wide = *wide;
            self.ribbons = counted(alloc, &mut places, *wide, all, arrows)?;
            if self.ribbons.len() <= MOST {
                return Ok(());
            }
        }
        Ok(())
    }
}

/// Counts messages by their ways, from the newest on; stops when there is a ribbon too many.
fn counted(
    alloc: Global,
    places: &mut [u16],
    wide: u32,
    all: u32,
    arrows: &[Message],
) -> Result<Vec<Ribbon>, AllocError> {
    let mut ribbons = Vec::new(alloc);
    for arrow in arrows.iter().rev() {
        count(&mut ribbons, places, way_of(wide, all, arrow))?;
        if ribbons.len() > MOST {
            return Ok(ribbons);
        }
    }
    Ok(ribbons)
}

/// Counts one more message of a way. `places` has the place of each way's ribbon; a place that an earlier count left
/// there is that of another way's ribbon, or of none.
fn count(ribbons: &mut Vec<Ribbon>, places: &mut [u16], way: Way) -> Result<(), AllocError> {
    let slot = slot_of(way);
    let place = places.get(slot).copied().unwrap_or(0);
    if let Some(ribbon) = ribbons.get_mut(usize::from(place)) {
        if ribbon.way == way {
            ribbon.count = ribbon.count.saturating_add(1);
            return Ok(());
        }
    }
    if let Some(place) = places.get_mut(slot) {
        *place = ribbons.len().min(MOST) as u16;
    }
    ribbons.push(Ribbon { way, count: 1 })?;
    Ok(())
}

fn way_of(wide: u32, all: u32, arrow: &Message) -> Way {
    Way {
        from: arrow.from,
        sent: column(all, arrow.sent) / wide.max(1),
        to: arrow.to,
        received: column(all, arrow.received.unwrap_or(all)) / wide.max(1),
    }
}

/// The slot of a way: no two ways share one.
fn slot_of(way: Way) -> usize {
    let nodes = way.from.0 % 8 * 8 + way.to.0 % 8;
    let bands = way.sent % 64 * 64 + way.received % 64;
    (nodes * 4_096 + bands) as usize
}
