//! The control turn of a node.
ghost use Rattle.std.specs.Prelude.{◌≡◌, [], ◌∷◌, IfErr, IfNone, IfOk, IfSome, OnErr, OnOk};
ghost use Rattle.tp_node.specs.Turns.{turn_of};
ghost use Rattle.tp_board.specs.{Calls.Appends, States.{IsCheckedFor, IsAtPiece, full_check}, Turns.{MovesOrEnds, control_event, ends}};

use crate::node::Node;
use tp_base::Refusal;
use tp_board::{Board, Ledgers, Turn, make_first};
use tp_graph::Graph;

impl<G: Graph, K: Ledgers> Node<G, K> {
    /// Makes the first control step that is enabled for this node, in the order judge, start, down, up of the lower
    /// child, up of the higher child, give. Only the root judges and starts waves. A node with something pending starts
    /// no wave and gives nothing. Returns `Idle` if no step is enabled, and `Over` with the one termination token of
    /// the present generation if the step detected termination. If the board has a fault, no step is made, `Idle` is
    /// returned, and no termination is detected.
    ///
    /// The waves are those of the four counter method of F. Mattern, "Algorithms for Distributed Termination Detection"
    /// (1987).
    ///
    /// Refused, if it makes a step: `HistoryFull` if the history has reached its limit; `NoMemory` if the board has to
    /// allocate for the event, as it may at each 1,024th, and the allocation fails.
    pub fn control_turn(&mut self, board: &mut Board<K>) -> Result<Turn<K>, Refusal>
        ensures node { self.new ≡ self.old }
        ensures fault { IfSome board.old.fault (λ _. (result ≡ Ok Turn.Idle) × (board.new ≡ board.old)) }
        ensures idle { IfNone (turn_of self.old board.old) ((result ≡ Ok Turn.Idle) × Appends [] board.old board.new) }
        ensures event { IfSome (turn_of self.old board.old) (λ s. OnOk result (Appends (control_event s ∷ []) board.old board.new)) }
        ensures answer { IfSome (turn_of self.old board.old) (λ s. IfOk result (MovesOrEnds (ends self.old.nodes board.old.history s))) }
        ensures refusal { IfSome (turn_of self.old board.old) (λ s. IsCheckedFor (full_check 1 board.old ∷ []) 1 board.old result) }
        ensures piece { IfErr result (IsAtPiece board.old) }
        ensures refused { OnErr result (Appends [] board.old board.new) }
    {
        if board.fault().is_some() {
            return Ok(Turn::Idle);
        }
        let pending = self.pending();
        board.audit(&mut self.shares);
        make_first(board, &self.shares, pending)
    }
}
