//! The books of pools of one to eight nodes are opened, and a core takes five thousand steps in one call.

ghost use Rattle.std.specs.Prelude.{◌≡◌, ◌≤◌};

use std::alloc::{AllocError, Global};
use std::test::Fail;
use tp_base::{ActionId, NodeId, Refusal, Step};
use tp_board::{Blanks, Brand, Ledgers, close_books, open_books};
use tp_core::{Core, Reply};

/// The number of shares of nodes and of links of a pool's books, and their sums.
type Opening = (usize, usize, u32, u32);

/// The books of a new pool of 1 to 8 nodes.
fn opened(alloc: Global, nodes: u32) -> Result<Opening, Refusal> {
    if nodes < 1 || nodes > 8 {
        return Err(Refusal::NoNode);
    }
    opened_with::<Brand>(alloc, Blanks::new(nodes), nodes)
}

fn opened_with<K: Ledgers>(alloc: Global, blanks: Blanks, nodes: u32) -> Result<Opening, Refusal>
    requires { (blanks ≡ K.names) × (blanks.nodes ≡ nodes) × (1 ≤ nodes) × (nodes ≤ 8) }
{
    let books = open_books::<K>(alloc, blanks, nodes, 8)?;
    let (shares, links) = (books.shares.len(), books.links.len());
    let totals = close_books(books);
    Ok((shares, links, totals.pending, totals.under))
}

#[test]
fn books_of_one_to_eight_nodes_are_opened(rt: HostRuntime) -> Result<(), Fail> {
    for nodes in 1..9 {
        let count = nodes as usize;
        let wanted = Ok((count, count.wrapping_mul(count - 1), nodes, 0));
        assert_eq!(rt; opened(rt.alloc(), nodes), wanted, "{nodes} nodes");
    }
    Ok(())
}

/// Steps that open and close an action of node 0 in turn, another one each time, and again after a hundred.
fn turns(alloc: Global, count: u32) -> Result<Vec<Step>, AllocError> {
    let mut steps = Vec::new(alloc);
    for place in 0..count {
        let action = ActionId(place / 2 % 100);
        steps.push(match place % 2 {
            0 => Step::ActionOpen(NodeId(0), action),
            _ => Step::ActionClose(NodeId(0), action),
        })?;
    }
    Ok(steps)
}

/// Returns whether a new core of two nodes takes all these steps in one call, their number then, and node 0's pending number.
fn taken(alloc: Global, steps: &[Step]) -> Result<(bool, usize, u32), Refusal> {
    let mut core = Core::new(alloc, 2);
    let answers = core.run(alloc, steps)?;
    let all = answers.iter().all(|answer| *answer == Ok(Reply::Plain));
    Ok((all, core.steps().len(), core.numbers().nodes[0].pending))
}

#[test]
fn a_core_takes_five_thousand_steps_in_one_call(rt: HostRuntime) -> Result<(), Fail> {
    let steps = turns(rt.alloc(), 5_000)?;
    assert_eq!(rt; taken(rt.alloc(), &steps)?, (true, 5_000, 1));
    Ok(())
}
