//! A core that keeps room for settling.

use std::alloc::Global;
use std::marker::Model;
use tp_base::{MAX_STEPS, Refusal, Step};
use tp_core::{Core, Maker, Reply};

/// A core that takes steps only up to a bound, so that there is always room to settle it; with the number of its nodes.
/// Contracts see what the core has accepted.
#[derive(Drop)]
pub(crate) struct BoundedCore {
    core: Core,
    nodes: u32,
    // 9 steps for each node are kept, so that termination can always be detected
    limit: u32,
}

impl Model for BoundedCore {
    ghost use Rattle.gerfmuod.specs.Calls.{Accepted, IsKept};

    ghost Value = { Accepted };

    ghost view = { λ p. p.core };

    ghost invariant = { IsKept };
}

impl BoundedCore {
    ghost use Rattle.std.specs.Prelude.{◌≡◌, ◌≢◌, ◌≤◌, IfErr, IsTrue, reverse, length};
    ghost use Rattle.gerfmuod.specs.Calls.{number_of, MAX_NODES, MAX_STEPS, world_of, AreRuns};
    ghost use Rattle.gerfmuod.specs.Calls.{InEach, is_maker, IsNeverEarly, Settles, list_length, new_core_of, room_of, AcceptsIfAny};

    /// Returns a pool of the nodes 0 to `nodes` - 1, 1 to 8 of them, with a list of its steps or without. It allocates nothing.
    pub(crate) fn new(alloc: Global, nodes: u32, recorded: bool) -> BoundedCore
        requires { (1 ≤ nodes) × (nodes ≤ MAX_NODES) }
        ensures { result ≡ new_core_of recorded nodes }
    {
        let core = if recorded {
            Core::new(alloc, nodes)
        } else {
            Core::unrecorded(alloc, nodes)
        };
        BoundedCore {
            core,
            nodes,
            limit: MAX_STEPS - 9 * nodes,
        }
    }

    /// Returns the core, for calls that change nothing.
    pub(crate) fn core(&self) -> &Core
        ensures { result.now ≡ self.now }
    {
        &self.core
    }

    /// Returns the number of nodes.
    pub(crate) fn nodes(&self) -> u32
        ensures nodes { result ≡ self.now.nodes }
        ensures some { (1 ≤ result) × (result ≤ MAX_NODES) }
    {
        self.nodes
    }

    /// Returns whether the core keeps a list of its steps.
    pub(crate) fn is_recorded(&self) -> bool
        ensures { result ≡ self.now.recorded }
    {
        self.core.is_recorded()
    }

    /// Returns the list of steps, the oldest first; without one, none. In each generation the steps are a run.
    pub(crate) fn steps(&self) -> &[Step]
        ensures steps { IsTrue self.now.recorded → reverse result.now ≡ self.now.steps }
        ensures count { length result.now ≡ list_length self.now }
        ensures within { length result.now ≤ MAX_STEPS }
        ensures runs { AreRuns self.now.nodes self.now.steps }
    {
        self.core.steps()
    }

    /// Returns the number of steps that can still be reported.
    pub(crate) fn room(&self) -> u32
        ensures { result ≡ room_of self.now }
    {
        self.limit.saturating_sub(self.core.steps().len() as u32)
    }

    /// Returns whether the maker may make the step.
    #[inline(always)]
    #[tactic(auto, using(crate::proofs::Steps::kept_never_early))]
    pub(crate) fn is_maker(&self, maker: Maker, step: Step) -> bool
        ensures is_maker { result ≡ is_maker maker step (world_of self.now) }
        ensures never_early { InEach (IsNeverEarly self.now.nodes) self.now.steps }
    {
        self.core.is_maker(maker, step)
    }

    /// Reserves memory as `Core::reserve` does. It takes no step.
    pub(crate) fn reserve(&mut self, steps: u32, tasks: u32, messages: u32) -> Result<(), Refusal>
        ensures same { self.new ≡ self.old }
        ensures err { IfErr result (λ r. r ≡ Refusal.NoMemory) }
    {
        self.core.reserve(steps, tasks, messages)
    }

    /// Takes the next step as `Core::step` does. Refused, before that, as `BadSpec` if there is none, and as
    /// `HistoryFull` if there is no room for it.
    #[inline(always)]
    #[tactic(auto, using(crate::proofs::Steps::kept_never_early))]
    pub(crate) fn take(&mut self, step: Option<Step>) -> Result<Reply, Refusal>
        ensures answers { AcceptsIfAny self.old step result self.new }
        ensures never_early { InEach (IsNeverEarly self.new.nodes) self.new.steps }
    {
        let taken = self.core.steps().len() as u32;
        let Some(step) = step else {
            return Err(Refusal::BadSpec);
        };
        if taken >= self.limit {
            return Err(Refusal::HistoryFull(taken));
        }
        self.core.step(step)
    }

    /// Takes control steps until termination is detected, as `Core::settle` does. There is always room for them.
    #[tactic(auto, using(crate::proofs::Steps::kept_after_settling))]
    pub(crate) fn settle(&mut self) -> Result<(u32, u32), Refusal>
        ensures answers { Settles self.old result self.new }
        ensures has_room { IfErr result (λ r. number_of r ≢ 16) }
        ensures never_early { InEach (IsNeverEarly self.new.nodes) self.new.steps }
    {
        self.core.settle()
    }
}
