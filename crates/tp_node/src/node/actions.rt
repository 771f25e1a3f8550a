//! The calls of a node that open and close actions, and the announcement of termination.
ghost use Rattle.std.specs.Prelude.{◌≡◌, [], ◌∷◌, IfErr, OnErr, OnOk};
ghost use Rattle.{tp_board.specs.{Calls.{IsChecked, Appends}, States.{IsCheckedFor, IsAtPiece}}, tp_store.specs.Content.unfinished};
ghost use Rattle.tp_monitor.specs.declared.state.TaskpoolState.TheVariants.{Terminated};
ghost use Rattle.tp_node.specs.{Locals.{pending_here, standing, EachOnce}, Nodes.{HasNoSeed, closed_with, closing, closing_of, event_of}};
ghost use Rattle.tp_node.specs.{Nodes.{made_ready, opened_with, opening_of, over}, Refused.{close_checks, open_checks, ready_checks}};

use crate::node::Node;
use tp_base::{ActionId, Refusal, Step};
use tp_board::{Board, Ended, Ledgers};
use tp_graph::Graph;

impl<G: Graph, K: Ledgers> Node<G, K> {
    /// Closes the opening action. Each task of the node without inputs has to be inserted before.
    ///
    /// Refused with `NoAction` if it is closed; `HistoryFull` if the history has reached its limit; `NoMemory` if the
    /// board has to allocate for the event and the allocation fails.
    pub fn ready(&mut self, board: &mut Board<K>) -> Result<(), Refusal>
        requires seeded { HasNoSeed (G.meaning self.old.graph) self.old }
        ensures event { OnOk result (Appends (event_of self.old (closing self.old) ∷ []) board.old board.new) }
        ensures closed { OnOk result (self.new ≡ made_ready self.old) }
        ensures refusal { IsCheckedFor (ready_checks self.old board.old) 1 board.old result }
        ensures piece { IfErr result (IsAtPiece board.old) }
        ensures refused { OnErr result (Appends [] board.old board.new × (self.new ≡ self.old)) }
    {
        if !self.local.is_opening() {
            return Err(Refusal::NoAction);
        }
        board.append(Step::Ready(self.shares.node()), &mut self.shares)?;
        let Ok(()) = self.local.ready() else {
            unreachable!()
        };
        Ok(())
    }

    /// Opens a named action.
    ///
    /// Refused with `ActionKnown` if it is open; `Inactive` if nothing is pending; `HistoryFull` if the history has
    /// reached its limit; `NoMemory`.
    pub fn action_open(&mut self, board: &mut Board<K>, action: ActionId) -> Result<(), Refusal>
        ensures event { OnOk result (Appends (event_of self.old (opening_of action.0 self.old) ∷ []) board.old board.new) }
        ensures opened { OnOk result (self.new ≡ opened_with action.0 self.old) }
        ensures refusal { IsChecked (open_checks self.old board.old action.0) result }
        ensures refused { OnErr result (Appends [] board.old board.new × (self.new ≡ self.old)) }
    {
        if self.local.has_named(action) {
            return Err(Refusal::ActionKnown);
        }
        if self.local.pending() == 0 {
            return Err(Refusal::Inactive);
        }
        board.reserve(1)?;
        board.audit(&mut self.shares);
        self.local.open(action)?;
        let step = Step::ActionOpen(self.shares.node(), action);
        let Ok(()) = board.append(step, &mut self.shares) else {
            unreachable!()
        };
        Ok(())
    }

    /// Closes a named action.
    ///
    /// Refused with `NoAction` if it is not open; `HistoryFull` if the history has reached its limit; `NoMemory` if the
    /// board has to allocate for the event and the allocation fails.
    pub fn action_close(&mut self, board: &mut Board<K>, action: ActionId) -> Result<(), Refusal>
        ensures event { OnOk result (Appends (event_of self.old (closing_of action.0 self.old) ∷ []) board.old board.new) }
        ensures closed { OnOk result (self.new ≡ closed_with action.0 self.old) }
        ensures refusal { IsCheckedFor (close_checks self.old board.old action.0) 1 board.old result }
        ensures piece { IfErr result (IsAtPiece board.old) }
        ensures refused { OnErr result (Appends [] board.old board.new × (self.new ≡ self.old)) }
    {
        if !self.local.has_named(action) {
            return Err(Refusal::NoAction);
        }
        let step = Step::ActionClose(self.shares.node(), action);
        board.append(step, &mut self.shares)?;
        let Ok(()) = self.local.close(action) else {
            unreachable!()
        };
        Ok(())
    }

    /// Announces termination of the pool's present generation to the node, which may know it already. Nothing is
    /// pending: each task that was inserted here in that generation is done, and has exactly one result. Nothing else
    /// changes, and it allocates nothing.
    pub fn quiet_under(&mut self, ended: &mut Ended<K>, board: &mut Board<K>)
        ensures board { board.new ≡ board.old }
        ensures over { self.new ≡ over self.old }
        ensures idle { (self.old.numbers.pending ≡ 0) × (pending_here self.old.state ≡ 0) × (unfinished self.old.state.store ≡ 0) }
        ensures each_once { EachOnce self.old.state.store }
        ensures terminated { standing self.new.state ≡ Terminated }
    {
        board.audit_ended(ended);
        board.audit(&mut self.shares);
        // Only this call shows that each task has one result, and the announcement makes no such call. Its result is
        // not used, so it costs no instruction.
        let _results = self.local.results();
        self.local.announce();
    }
}
