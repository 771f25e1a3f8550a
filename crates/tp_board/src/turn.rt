//! A control turn of a node: it makes the first control step that the waves allow the node.
ghost use Rattle.std.specs.Prelude.{◌≡◌, ◌≤◌, ◌+◌, ◌*◌, [], ◌∷◌, false, if◌then◌else◌};
ghost use Rattle.tp_base.specs.declared.step.Step.TheVariants as steps;
ghost use Rattle.tp_board.specs.{Judgements.is_over, Numbers.node_at, Turns.{ComesTo, MakesFirst, is_for_room, turn_steps, wave_steps}};
ghost use Rattle.tp_wave.specs.{Generations.present_events, Machine.pending_at};

use crate::{Board, Ended, Judgement, Ledgers, Shares};
use tp_base::{NodeId, Refusal};

/// The result of a control turn.
#[derive(Drop)]
pub enum Turn<K: Ledgers> {
    /// No control step: the waves allow the node none, or the board has a fault.
    Idle,
    /// The node made a control step.
    Moved,
    /// The node judged the newest wave and detected termination.
    Over(Ended<K>),
}

/// Makes the first control step that is enabled for the node of the shares, in the order judge, start, down, up of the
/// lower child, up of the higher child, give. `pending` is that node's pending number. Only the root judges and starts
/// waves.
///
/// The waves are those of the four counter method of F. Mattern, "Algorithms for Distributed Termination Detection"
/// (1987).
///
/// Refused, if a step is enabled: `HistoryFull` if the history has reached its limit; `NoMemory` if no memory is
/// reserved for the event, it has to grow, as it may at each 1,024th event, and the allocation fails. The board is then
/// unchanged.
pub fn make_first<K: Ledgers>(
    board: &mut Board<K>,
    shares: &Shares<K>,
    pending: u32,
) -> Result<Turn<K>, Refusal>
    requires { pending ≡ pending_at shares.now.node (present_events board.old.history) }
    ensures { MakesFirst K.names.nodes shares.now.node (turn_steps shares.now.node) board.old board.new result }
{
    if shares.node().0 == 0 {
        lead(board, shares, pending)
    } else {
        take_part(board, shares)
    }
}

// The turn of the root: it judges and starts waves, and then does what each node does.
fn lead<K: Ledgers>(
    board: &mut Board<K>,
    shares: &Shares<K>,
    pending: u32,
) -> Result<Turn<K>, Refusal>
    requires root { shares.now.node ≡ 0 }
    requires pending { pending ≡ pending_at 0 (present_events board.old.history) }
    ensures { MakesFirst K.names.nodes 0 (turn_steps 0) board.old board.new result }
{
    match judge(board)? {
        Turn::Idle => {}
        turn => return Ok(turn),
    }
    match start(board, shares, pending)? {
        Turn::Idle => {}
        turn => return Ok(turn),
    }
    take_part(board, shares)
}

// The part of each node in a wave: it takes its token, takes the sums of its children, and gives.
fn take_part<K: Ledgers>(board: &mut Board<K>, shares: &Shares<K>) -> Result<Turn<K>, Refusal>
    ensures { MakesFirst K.names.nodes shares.now.node (wave_steps shares.now.node) board.old board.new result }
{
    match down(board, shares)? {
        Turn::Idle => {}
        turn => return Ok(turn),
    }
    match up(board, shares, 1)? {
        Turn::Idle => {}
        turn => return Ok(turn),
    }
    match up(board, shares, 2)? {
        Turn::Idle => {}
        turn => return Ok(turn),
    }
    give(board, shares)
}

// The root judges the newest wave.
fn judge<K: Ledgers>(board: &mut Board<K>) -> Result<Turn<K>, Refusal>
    ensures { MakesFirst K.names.nodes 0 (steps.Judge ∷ []) board.old board.new result }
{
    judged(board.judge())
}

// The root, if it is idle, starts the next wave.
fn start<K: Ledgers>(
    board: &mut Board<K>,
    shares: &Shares<K>,
    pending: u32,
) -> Result<Turn<K>, Refusal>
    requires root { shares.now.node ≡ 0 }
    requires pending { pending ≡ pending_at 0 (present_events board.old.history) }
    ensures { MakesFirst K.names.nodes 0 (steps.Start ∷ []) board.old board.new result }
{
    if pending > 0 {
        return Ok(Turn::Idle);
    }
    moved(board.start(shares))
}

// The node takes its token.
fn down<K: Ledgers>(board: &mut Board<K>, shares: &Shares<K>) -> Result<Turn<K>, Refusal>
    ensures { MakesFirst K.names.nodes shares.now.node (steps.Down (node_at shares.now.node) ∷ []) board.old board.new result }
{
    moved(board.down(shares))
}

// The node takes the sums of its first or second child, if there is one.
fn up<K: Ledgers>(board: &mut Board<K>, shares: &Shares<K>, which: u32) -> Result<Turn<K>, Refusal>
    requires { (1 ≤ which) × (which ≤ 2) }
    ensures { MakesFirst K.names.nodes shares.now.node (steps.Up (node_at (2 * shares.now.node + which)) ∷ []) board.old board.new result }
{
    let nodes = board.nodes();
    let child = 2 * shares.node().0 + which;
    if child >= nodes {
        return Ok(Turn::Idle);
    }
    moved(board.up(NodeId(child), shares))
}

// The node, if it is idle, gives the numbers of messages that it has sent and received.
fn give<K: Ledgers>(board: &mut Board<K>, shares: &Shares<K>) -> Result<Turn<K>, Refusal>
    ensures { MakesFirst K.names.nodes shares.now.node (steps.Give (node_at shares.now.node) ∷ []) board.old board.new result }
{
    moved(board.give(shares))
}

// Converts the result of trying to judge into that of a turn.
fn judged<K: Ledgers>(tried: Result<Judgement<K>, Refusal>) -> Result<Turn<K>, Refusal>
    ensures { ComesTo is_over tried result }
{
    match tried {
        Ok(Judgement::Over(ended)) => Ok(Turn::Over(ended)),
        Ok(Judgement::Not) => Ok(Turn::Moved),
        Err(refusal) => refused(refusal),
    }
}

// Converts the result of trying any other step into that of a turn.
fn moved<T: Drop, K: Ledgers>(tried: Result<T, Refusal>) -> Result<Turn<K>, Refusal>
    ensures { ComesTo (λ _. false) tried result }
{
    match tried {
        Ok(_) => Ok(Turn::Moved),
        Err(refusal) => refused(refusal),
    }
}

// A step that the waves do not allow now is no step. Only a step that they allow can be refused for lack of room.
fn refused<K: Ledgers>(refusal: Refusal) -> Result<Turn<K>, Refusal>
    ensures { result ≡ (if is_for_room refusal then Err refusal else Ok Turn.Idle) }
{
    match refusal {
        Refusal::HistoryFull(_) | Refusal::NoMemory => Err(refusal),
        _ => Ok(Turn::Idle),
    }
}
