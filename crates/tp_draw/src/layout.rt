//! Where things are on the page of a run, in tenths of a pixel.

use crate::lengths::{Area, area_of, at};
use crate::scene::Scene;

/// Where the lanes begin on the left.
pub(crate) const LEFT: u64 = 740;

/// Where the first lane begins.
pub(crate) const TOP: u64 = 1_500;

/// How much is drawn of each thing: the more events there are, the less.
#[derive(Clone, Copy, Debug, PartialEq, Eq)]
pub(crate) enum Detail {
    /// At most 150 events: each thing is drawn in full.
    Fine,
    /// At most 700 events: there is room for numbers and rings.
    Medium,
    /// At most 2,500 events.
    Coarse,
    /// More events: sums are drawn, and no task or message alone.
    Summed,
}

impl Scene {
    pub(crate) fn detail(&self) -> Detail {
        match self.events {
            0..=150 => Detail::Fine,
            151..=700 => Detail::Medium,
            701..=2_500 => Detail::Coarse,
            _ => Detail::Summed,
        }
    }

    /// Whether there is room for numbers and rings.
    pub(crate) fn is_detailed(&self) -> bool {
        matches!(self.detail(), Detail::Fine | Detail::Medium)
    }

    pub(crate) fn is_summed(&self) -> bool {
        self.detail() == Detail::Summed
    }

    /// How wide an event is.
    pub(crate) fn step(&self) -> u64 {
        let least = match self.detail() {
            Detail::Fine => 170,
            _ => 10,
        };
        (11_000 / u64::from(self.events.max(1))).max(least).min(260)
    }

    /// How high a bar is, the gap between two tracks of a lane, and the gap between two lanes.
    fn sizes(&self) -> (u64, u64, u64) {
        match self.detail() {
            Detail::Fine => (160, 30, 460),
            Detail::Medium => (120, 30, 340),
            Detail::Coarse => (70, 20, 260),
            Detail::Summed => (70, 20, 460),
        }
    }

    pub(crate) fn bar(&self) -> u64 {
        self.sizes().0
    }

    /// How wide the lanes are: above 2,500 events the width no longer grows.
    pub(crate) fn span(&self) -> u64 {
        if self.is_summed() {
            15_000
        } else {
            u64::from(self.events).saturating_mul(self.step())
        }
    }

    /// The distance from the left after `half` of all half events.
    fn across(&self, half: u64) -> u64 {
        let all = 2 * u64::from(self.events.max(1));
        (half.saturating_mul(self.span()) / all.max(1)).saturating_add(LEFT)
    }

    /// Where the strip of an event begins.
    pub(crate) fn edge(&self, event: u32) -> u64 {
        self.across(2 * u64::from(event))
    }

    /// The middle of an event.
    pub(crate) fn middle(&self, event: u32) -> u64 {
        self.across(2 * u64::from(event) + 1)
    }

    /// Where the lanes end on the right.
    pub(crate) fn right(&self) -> u64 {
        self.span().saturating_add(LEFT)
    }

    /// The right end of something that lasts to the middle of an event, or to the end of the trace.
    pub(crate) fn reach(&self, event: u32) -> u64 {
        self.middle(event).min(self.right())
    }

    /// The number of tracks of a node's lane.
    pub(crate) fn rows_of(&self, node: u32) -> u32 {
        let rows = &self.tracks.rows;
        rows.get(node as usize).copied().unwrap_or(0)
    }

    /// How high this many tracks of a lane are, with the gap above each, and the gap below them.
    fn tracks_height(&self, tracks: u32) -> u64 {
        let (bar, gap, _) = self.sizes();
        let bars = u64::from(tracks).saturating_mul(bar.saturating_add(gap));
        bars.saturating_add(gap)
    }

    /// How high the lane of a node is.
    pub(crate) fn height(&self, node: u32) -> u64 {
        if self.is_summed() {
            return 460;
        }
        let tracks = self.tracks_height(self.rows_of(node));
        tracks.saturating_add(80).max(300)
    }

    /// Where the lane of a node begins.
    pub(crate) fn top(&self, node: u32) -> u64 {
        let (_, _, between) = self.sizes();
        let mut top = TOP;
        for above in 0..node.min(8) {
            top = top.saturating_add(self.height(above).saturating_add(between));
        }
        top
    }

    /// Where the lane of a node ends.
    pub(crate) fn foot(&self, node: u32) -> u64 {
        self.top(node).saturating_add(self.height(node))
    }

    /// The lane of a node.
    pub(crate) fn lane(&self, node: u32) -> Area {
        area_of(at(LEFT, self.top(node)), self.span(), self.height(node))
    }

    /// Where a track of a node's lane begins.
    pub(crate) fn track(&self, node: u32, track: u32) -> u64 {
        let above = self.tracks_height(track).saturating_add(40);
        self.top(node).saturating_add(above)
    }

    /// A place this far below the last lane.
    pub(crate) fn below(&self, distance: u64) -> u64 {
        let (_, _, between) = self.sizes();
        let foot = self.top(self.nodes).saturating_sub(between);
        foot.saturating_add(distance)
    }

    /// Returns the width of the page, in tenths of a pixel; its headline takes 640 pixels.
    pub fn width(&self) -> u64 {
        self.right().saturating_add(440).max(6_400)
    }

    /// Returns the height of the page, in tenths of a pixel.
    pub fn page_height(&self) -> u64 {
        self.below(700)
    }
}
