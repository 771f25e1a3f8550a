//! From the steps of a run to what is drawn of them: plain data, without a place on a page.

ghost use Rattle.std.specs.Prelude.{◌≤◌};

use crate::columns::{add_loads, column};
use crate::messages::Messages;
use crate::pauses::Pauses;
use crate::ribbons::Bands;
use crate::tracks::Tracks;
use crate::waves::Waves;
use std::alloc::{AllocError, Global};
use tp_base::{MAX_STEPS, Refusal, Step};
use tp_core::{Core, NodeNumbers, Reply};

/// What is drawn of a run. Each list is in order of time, except the ribbons, the newest of which comes first.
#[derive(Drop)]
pub struct Scene {
    /// The number of nodes, 1 to 8.
    pub nodes: u32,
    pub events: u32,
    pub tracks: Tracks,
    pub messages: Messages,
    pub waves: Waves,
    pub pauses: Pauses,
    /// The number of tasks that run at a node, added up over the events of each of 1,500 columns: that of node i and column c
    /// is at 1,500 i + c.
    pub loads: Vec<u64>,
    pub bands: Bands,
}

impl Scene {
    /// Takes the next step of `all`, with the core's reply to it, and the counters of the nodes after it.
    fn take(
        &mut self,
        step: Step,
        reply: Reply,
        numbers: &[NodeNumbers; 8],
        all: u32,
    ) -> Result<(), AllocError> {
        let event = self.events;
        self.tracks.take(step, event)?;
        self.messages.take(step, event)?;
        self.waves.take(step, reply, event)?;
        self.pauses.take(Some(numbers), event)?;
        add_loads(&mut self.loads, &self.tracks.counts, column(all, event));
        self.events = event.saturating_add(1);
        Ok(())
    }
}

/// Returns what is drawn of these steps of a run on `nodes` nodes. It allocates a core of the steps, and the scene.
///
/// A step is refused as a core refuses it; `NoMemory` if an allocation fails.
pub fn scene_of(alloc: Global, nodes: u32, steps: &[Step]) -> Result<Scene, Refusal>
    requires { (1 ≤ nodes) × (nodes ≤ 8) }
{
    let all = steps.len().min(MAX_STEPS as usize) as u32;
    let mut core = Core::new(alloc, nodes);
    let mut scene = Scene {
        nodes,
        events: 0,
        tracks: Tracks::new(alloc),
        messages: Messages::new(alloc),
        waves: Waves::new(alloc),
        pauses: Pauses::new(alloc, nodes),
        loads: vec![in alloc; 0; 12_000]?,
        bands: Bands::new(alloc),
    };
    for step in steps {
        let reply = core.step(*step)?;
        scene.take(*step, reply, &core.numbers().nodes, all)?;
    }
    scene.pauses.take(None, scene.events)?;
    scene
        .bands
        .count(alloc, scene.events, &scene.messages.arrows)?;
    Ok(scene)
}
