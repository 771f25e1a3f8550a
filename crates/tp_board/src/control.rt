//! The control steps of the board: the five steps of a wave.
ghost use Rattle.std.specs.Prelude.{◌≡◌, ◌==◌, ◌≤◌, ◌<◌, ◌∷◌, IsFalse, IsTrue, IfErr, IfOk, IsOk, OnErr, OnOk, None, Some, is_some};
ghost use Rattle.std.specs.Prelude.{if◌then◌else◌};
ghost use Rattle.tp_base.specs.declared.step.Step.TheVariants as steps;
ghost use Rattle.tp_base.specs.Tree.{parent};
ghost use Rattle.tp_board.specs.{Judgements.is_over, Numbers.{event, node_at}, States.{IsCheckedFor, IsAtPiece, step_checks, visit_checks}};
ghost use Rattle.tp_board.specs.States.{with_event};
ghost use Rattle.tp_wave.specs.{Cut.IsQuietHistory, Generations.{present, present_events}, Machine.steps_of, Sums.{is_ended, judgement}};
ghost use Rattle.tp_wave.specs.Sums.{sums_of};

use crate::board::Board;
use crate::judgement::Judgement;
use crate::{Ended, Ledgers, Shares};
use tp_base::{NodeId, Refusal, Step, Sums};

// The control steps. Each is first tried on a copy of the wave; a place and memory for its event are reserved after
// that.
impl<K: Ledgers> Board<K> {
    /// Starts the next wave, at node 0.
    ///
    /// Refused with `Ended` if termination was detected; `WaveOpen` if the newest wave was not judged yet;
    /// `HistoryFull`; `NoMemory`, which is possible at each 1,024th event.
    pub fn start(&mut self, shares: &Shares<K>) -> Result<(), Refusal>
        requires root { shares.now.node ≡ 0 }
        ensures ok { OnOk result (self.new ≡ with_event (event 0 steps.Start) self.old) }
        ensures refusal { IsCheckedFor (step_checks K.names.nodes self.old steps.Start) 1 self.old result }
        ensures piece { IfErr result (IsAtPiece self.old) }
        ensures refused { OnErr result (self.new ≡ self.old) }
    {
        let root = shares.node();
        let mut wave = self.wave;
        wave.start()?;
        self.event_log.add(root, Step::Start)?;
        self.wave = wave;
        Ok(())
    }

    /// Takes the token of the newest wave, at the node of the shares.
    ///
    /// Refused with `Ended` if termination was detected; `NoToken` if there is no token on the edge to the node;
    /// `HistoryFull`; `NoMemory`, which is possible at each 1,024th event.
    pub fn down(&mut self, shares: &Shares<K>) -> Result<(), Refusal>
        ensures ok { OnOk result (self.new ≡ with_event (event shares.now.node (steps.Down (node_at shares.now.node))) self.old) }
        ensures refusal { IsCheckedFor (step_checks K.names.nodes self.old (steps.Down (node_at shares.now.node))) 1 self.old result }
        ensures piece { IfErr result (IsAtPiece self.old) }
        ensures refused { OnErr result (self.new ≡ self.old) }
    {
        let node = shares.node();
        let mut wave = self.wave;
        wave.down(node)?;
        self.event_log.add(node, Step::Down(node))?;
        self.wave = wave;
        Ok(())
    }

    /// Takes the sums that a child gave, at its parent.
    ///
    /// Refused with `Ended` if termination was detected; `NoToken` if the child has not given in the newest wave, or
    /// its sums were taken; `HistoryFull`; `NoMemory`, which is possible at each 1,024th event.
    pub fn up(&mut self, child: NodeId, shares: &Shares<K>) -> Result<(), Refusal>
        requires child { (1 ≤ child.0) × (child.0 < K.names.nodes) }
        requires parent { shares.now.node ≡ parent child.0 }
        ensures ok { OnOk result (self.new ≡ with_event (child, steps.Up child) self.old) }
        ensures refusal { IsCheckedFor (step_checks K.names.nodes self.old (steps.Up child)) 1 self.old result }
        ensures piece { IfErr result (IsAtPiece self.old) }
        ensures refused { OnErr result (self.new ≡ self.old) }
    {
        let mut wave = self.wave;
        wave.up(child)?;
        self.event_log.add(child, Step::Up(child))?;
        self.wave = wave;
        Ok(())
    }

    /// Gives the numbers of messages that the idle node has sent and received to the newest wave. At node 0 this ends
    /// the wave, and the sums are returned.
    ///
    /// Refused with `Ended` if termination was detected; `NoToken` if the newest wave has not reached the node, the
    /// node gave in it, or the sums of a child were not taken; `NotIdle` if the node is active; `HistoryFull`;
    /// `NoMemory`, which is possible at each 1,024th event.
    pub fn give(&mut self, shares: &Shares<K>) -> Result<Option<Sums>, Refusal>
        ensures ok { OnOk result (self.new ≡ with_event (event shares.now.node (steps.Give (node_at shares.now.node))) self.old) }
        ensures sums { IfOk result (λ sums. sums
            ≡ (if shares.now.node == 0 then Some (sums_of K.names.nodes (present (steps_of self.new.history))) else None)) }
        ensures refusal { IsCheckedFor (visit_checks K.names.nodes self.old (node_at shares.now.node)) 1 self.old result }
        ensures piece { IfErr result (IsAtPiece self.old) }
        ensures refused { OnErr result (self.new ≡ self.old) }
    {
        let node = shares.node();
        let counts = self.event_log.counts(node);
        let mut wave = self.wave;
        let sums = wave.give(node, counts.sent, counts.received)?;
        if counts.pending > 0 {
            return Err(Refusal::NotIdle);
        }
        self.event_log.add(node, Step::Give(node))?;
        self.wave = wave;
        Ok(sums)
    }

    /// Judges the newest wave: returns `Over` exactly if its sums and those of the wave before it are all equal.
    /// Nothing is left then, and the one termination token of the generation is issued.
    ///
    /// Refused with `Ended` if termination was detected; `WaveNotEnded` if no ended wave waits for judgement;
    /// `HistoryFull`; `NoMemory`, which is possible at each 1,024th event.
    pub fn judge(&mut self) -> Result<Judgement<K>, Refusal>
        ensures ok { OnOk result (self.new ≡ with_event (event 0 steps.Judge) self.old) }
        ensures first { OnOk result (IsFalse (is_ended K.names.nodes (present (steps_of self.old.history)))) }
        ensures over { IfOk result (λ j. is_over j ≡ is_some (judgement K.names.nodes (present (steps_of self.old.history)))) }
        ensures ended { IfOk result (λ j. is_over j ≡ is_ended K.names.nodes (present (steps_of self.new.history))) }
        ensures quiet { IfOk result (λ j. IsTrue (is_over j) → IsQuietHistory K.names.nodes (present_events self.new.history)) }
        ensures refusal { IsCheckedFor (step_checks K.names.nodes self.old steps.Judge) 1 self.old result }
        ensures piece { IfErr result (IsAtPiece self.old) }
        ensures refused { OnErr result (self.new ≡ self.old) }
    {
        let mut wave = self.wave;
        let ended_with = wave.judge()?;
        self.event_log.add(NodeId(0), Step::Judge)?;
        self.wave = wave;
        match ended_with {
            Some(_) => Ok(Judgement::Over(self.accounts.hand_out())),
            None => Ok(Judgement::Not),
        }
    }

    /// Shows that termination of the present generation was detected and nothing of it is left: the token of an earlier
    /// generation was given back. Changes nothing.
    pub fn audit_ended(&mut self, ended: &mut Ended<K>)
        ensures same { self.new ≡ self.old }
        ensures ended { IsTrue (is_ended K.names.nodes (present (steps_of self.old.history))) }
        ensures quiet { IsQuietHistory K.names.nodes (present_events self.old.history) }
    {
        self.accounts.audit_ended(ended);
    }
}
