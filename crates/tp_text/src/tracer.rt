//! The tracer, which finds the line of each step of a run. Printing is not here.
ghost use Rattle.std.specs.Prelude.{◌≡◌, ◌≤◌, ◌∷◌, [], ℕ, List};
ghost use Rattle.tp_base.specs.declared.{Step.Step, limits.TheConstants.MAX_NODES};
ghost use Rattle.tp_text.specs.{Following.{HasFollowed, MayFollow}, TraceOf.line_of};
ghost use Rattle.tp_wave.specs.{Generations.present, Sums.judgement};

use crate::traced::TraceLine;
use tp_base::{MAX_NODES, NodeId, Step};
use tp_wave::Wave;

/// The length of an array with an entry for each node that a pool may have.
const PLACES: usize = MAX_NODES as usize;

/// Follows the steps of a run in order, and returns the line of each: it makes the steps of the waves, and counts the
/// messages anew. At a reopening it starts from the beginning, so no line depends on steps of an earlier generation.
#[derive(Clone, Copy)]
pub(crate) struct Tracer {
    nodes: u32,
    wave: Wave,
    // the numbers of messages that each node has sent and received
    sent: [u32; PLACES],
    received: [u32; PLACES],
}

impl Tracer {
    /// Returns a tracer of `nodes` nodes, 1 to 8, which has followed no step.
    pub(crate) fn new(nodes: u32) -> Tracer
        requires { (1 ≤ nodes) × (nodes ≤ MAX_NODES) }
        ensures { HasFollowed nodes [] result }
    {
        Tracer {
            nodes,
            wave: Wave::new(nodes),
            sent: [0; PLACES],
            received: [0; PLACES],
        }
    }

    /// Follows the next step, and returns its line.
    pub(crate) fn line(&mut self, step: Step) -> TraceLine
        requires { (n : ℕ) × (past : List Step) × HasFollowed n (present past) self.old × MayFollow n (present past) step }
        ensures told { (n : ℕ) (past : List Step) → HasFollowed n (present past) self.old → MayFollow n (present past) step
            → result ≡ line_of n past step }
        ensures followed { (n : ℕ) (past : List Step) → HasFollowed n (present past) self.old → MayFollow n (present past) step
            → HasFollowed n (present (step ∷ past)) self.new }
    {
        match step {
            Step::Send(node, _, _, _) => self.sent[node.0 as usize] += 1,
            Step::Recv(node, _, _) => self.received[node.0 as usize] += 1,
            Step::Start => self.start(),
            Step::Down(node) => self.down(node),
            Step::Give(node) => self.give(node),
            Step::Up(node) => self.up(node),
            Step::Judge => return TraceLine::Judged(self.judge()),
            Step::Reopen => *self = Tracer::new(self.nodes),
            _ => {}
        }
        TraceLine::Plain(step)
    }

    // The wave refuses no step of a run.

    fn start(&mut self)
        requires { (n : ℕ) × (past : List Step) × HasFollowed n past self.old × MayFollow n past Step.Start }
        ensures { (n : ℕ) (past : List Step) → HasFollowed n past self.old → MayFollow n past Step.Start
            → HasFollowed n (Step.Start ∷ past) self.new }
    {
        let _started = self.wave.start();
    }

    fn down(&mut self, node: NodeId)
        requires { (n : ℕ) × (past : List Step) × HasFollowed n past self.old × MayFollow n past (Step.Down node) }
        ensures { (n : ℕ) (past : List Step) → HasFollowed n past self.old → MayFollow n past (Step.Down node)
            → HasFollowed n (Step.Down node ∷ past) self.new }
    {
        let _reached = self.wave.down(node);
    }

    fn give(&mut self, node: NodeId)
        requires { (n : ℕ) × (past : List Step) × HasFollowed n past self.old × MayFollow n past (Step.Give node) }
        ensures { (n : ℕ) (past : List Step) → HasFollowed n past self.old → MayFollow n past (Step.Give node)
            → HasFollowed n (Step.Give node ∷ past) self.new }
    {
        let place = node.0 as usize;
        let _given = self.wave.give(node, self.sent[place], self.received[place]);
    }

    fn up(&mut self, node: NodeId)
        requires { (n : ℕ) × (past : List Step) × HasFollowed n past self.old × MayFollow n past (Step.Up node) }
        ensures { (n : ℕ) (past : List Step) → HasFollowed n past self.old → MayFollow n past (Step.Up node)
            → HasFollowed n (Step.Up node ∷ past) self.new }
    {
        let _taken = self.wave.up(node);
    }

    /// Judges the wave, and returns the judgement.
    fn judge(&mut self) -> Option<u32>
        requires { (n : ℕ) × (past : List Step) × HasFollowed n past self.old × MayFollow n past Step.Judge }
        ensures told { (n : ℕ) (past : List Step) → HasFollowed n past self.old → MayFollow n past Step.Judge → result ≡ judgement n past }
        ensures followed { (n : ℕ) (past : List Step) → HasFollowed n past self.old → MayFollow n past Step.Judge
            → HasFollowed n (Step.Judge ∷ past) self.new }
    {
        let Ok(wave) = self.wave.judge() else {
            unreachable!()
        };
        wave
    }
}
