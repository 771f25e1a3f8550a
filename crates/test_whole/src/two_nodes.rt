//! A pool of two nodes on one thread, from its first call to its second end: forged messages that are refused and stay
//! on their link; each call of a node that can fail to allocate; and the reopening. tools/dev limits refuse-tests makes
//! each allocation fail in turn; docs/measurements/out-of-memory.md has the results.

ghost use Rattle.std.specs.Prelude.{◌≡◌, vec_len, IsTrue};

use crate::calls::{act, receive, receive_one, run_one, say, seed_all, turn_of};
use crate::ends::TREE;
use pool_samples::Reduce;
use std::alloc::Global;
use std::test::Fail;
use tp_base::{Generation, MAX_STEPS, MessageId, Refusal, TaskId};
use tp_board::{Blanks, Board, Brand, Ended, Ledgers};
use tp_graph::{Graph, Message, Value};
use tp_node::{Node, Pool, PoolLink, Reopened, open_pool};
use tp_work::{Report, finish};

/// A copy of the oldest message of a link with another number, in another generation.
fn forged<K: Ledgers>(
    pool_link: &PoolLink<Reduce, K>,
    number: MessageId,
    generation: Generation,
) -> Result<Message<Reduce>, Refusal> {
    let Some(front) = pool_link.front() else {
        return Err(Refusal::NoMessage);
    };
    if number.0 >= MAX_STEPS || generation.0 >= MAX_STEPS {
        return Err(Refusal::BadSpec);
    }
    let value = front.value().clone()?;
    Ok(Message::new(
        front.graph(),
        number,
        generation,
        front.from(),
        front.to(),
        front.feed(),
        value,
    ))
}

/// Replaces the oldest message on a link, if the message is of the link's two nodes. Returns the oldest.
fn put_in_front<K: Ledgers>(
    pool_link: &mut PoolLink<Reduce, K>,
    board: &Board<K>,
    message: Message<Reduce>,
) -> Result<Message<Reduce>, Refusal> {
    let home = message.graph().home(message.feed().target, board.nodes());
    if message.from() != pool_link.from()
        || message.to() != pool_link.to()
        || home != pool_link.to()
    {
        return Err(Refusal::NoNode);
    }
    match pool_link.replace_front(message) {
        Ok(oldest) => Ok(oldest),
        Err(_) => Err(Refusal::NoMessage),
    }
}

/// What a node does with a forged message that is first on the link to it: whether it is received; then the node's pending
/// number, the number of messages it has sent and received, the number on the link to it, and the number of events; and
/// whether the forged message was still the first one afterwards.
type Met = (Result<bool, Refusal>, (u32, u32, u32, usize, usize), bool);

/// Makes a node receive a forged message, which the true one replaces again afterwards.
fn meet<K: Ledgers>(
    node: &mut Node<Reduce, K>,
    pool_link: &mut PoolLink<Reduce, K>,
    board: &mut Board<K>,
    number: u32,
    generation: u32,
) -> Result<Met, Refusal> {
    let (number, generation) = (MessageId(number), Generation(generation));
    let stranger = forged(pool_link, number, generation)?;
    let own = put_in_front(pool_link, board, stranger)?;
    let result = match receive(node, pool_link, board) {
        Ok(parcel) => Ok(parcel.is_some()),
        Err(refusal) => Err(refusal),
    };
    let stand = (
        node.pending(),
        node.sent(),
        node.received(),
        pool_link.len(),
        board.len(),
    );
    let stranger = put_in_front(pool_link, board, own)?;
    let stays = stranger.number() == number && stranger.generation() == generation;
    Ok((result, stand, stays))
}

/// What can be read of a pool: for each node what is pending, sent and received, and the number of its results; the
/// number of messages on each link; the numbers of events, of the next message and of the generation.
type Look = ([(u32, u32, u32, usize); 2], [usize; 2], usize, u32, u32);

fn look_at<K: Ledgers>(pool: &Pool<Reduce, K>) -> Option<Look> {
    let ([zero, one], [there, back]) = (pool.nodes.as_slice(), pool.links.as_slice()) else {
        return None;
    };
    Some((
        [numbers_of(zero), numbers_of(one)],
        [there.len(), back.len()],
        pool.board.len(),
        pool.board.next_message().0,
        pool.board.generation().0,
    ))
}

fn numbers_of<K: Ledgers>(node: &Node<Reduce, K>) -> (u32, u32, u32, usize) {
    (
        node.pending(),
        node.sent(),
        node.received(),
        node.results().len(),
    )
}

/// The findings of a run.
#[derive(Clone, Copy)]
struct Findings {
    /// What happened to each forged message, before the true one was received.
    met: Option<[Met; 2]>,
    before: Option<Look>,
    /// Why the reopening was refused at first, and the state of the pool then.
    refused: Option<(Refusal, Option<Look>)>,
    /// The number of returned results, and the value of the last task.
    results: Option<(usize, Option<i64>)>,
    after: Option<Look>,
}

const NOTHING: Findings = Findings {
    met: None,
    before: None,
    refused: None,
    results: None,
    after: None,
};

fn last_of(results: &[(TaskId, Value)]) -> Option<i64> {
    match results.iter().find(|made| made.0 == TaskId(6)) {
        Some((_, value)) => value.lone().ok(),
        None => None,
    }
}

/// Whether the pool has all its nodes.
fn is_whole<K: Ledgers>(pool: &Pool<Reduce, K>) -> bool
    ensures { IsTrue result → vec_len pool.now.nodes ≡ K.names.nodes }
{
    pool.nodes.len() == pool.board.nodes() as usize
}

/// Reopens a pool with its termination token, if it has all its nodes.
fn reopen_once<K: Ledgers>(
    alloc: Global,
    pool: Pool<Reduce, K>,
    ended: Ended<K>,
    findings: &mut Findings,
) -> Result<Pool<Reduce, K>, (Refusal, Pool<Reduce, K>, Ended<K>)> {
    if !is_whole(&pool) {
        return Err((Refusal::NoNode, pool, ended));
    }
    let Reopened { pool, results } = pool.reopen(alloc, ended)?;
    findings.results = Some((results.len(), last_of(&results)));
    Ok(pool)
}

/// Reopens a pool, at the second try if an allocation failed.
fn reopen<K: Ledgers, R: Eprint>(
    rt: &R,
    alloc: Global,
    pool: Pool<Reduce, K>,
    ended: Ended<K>,
    findings: &mut Findings,
) -> Pool<Reduce, K> {
    findings.before = look_at(&pool);
    match reopen_once(alloc, pool, ended, findings) {
        Ok(pool) => pool,
        Err((refusal, pool, ended)) => {
            findings.refused = Some((refusal, look_at(&pool)));
            say(rt, "Pool::reopen");
            match reopen_once(alloc, pool, ended, findings) {
                Ok(pool) => pool,
                Err((_, pool, _)) => pool,
            }
        }
    }
}

/// The totals of a pool of two nodes: what is pending, sent, received and in flight, the number of tasks done, whether
/// termination was detected, and to how many nodes it was announced.
type Summary = ((u32, u32, u32, u32), u32, bool, u32);

/// Gathers a pool of two nodes, and once more if it is returned.
fn gathered<K: Ledgers>(alloc: Global, pool: Pool<Reduce, K>) -> Result<Report, Refusal>
    requires names { K.names.nodes ≡ 2 }
    requires nodes { vec_len pool.nodes ≡ 2 }
    requires links { vec_len pool.links ≡ 2 }
{
    match finish(alloc, pool) {
        Ok(report) => Ok(report),
        Err((_, pool)) => match finish(alloc, pool) {
            Ok(report) => Ok(report),
            Err((refusal, _)) => Err(refusal),
        },
    }
}

fn summed_up<K: Ledgers>(alloc: Global, pool: Pool<Reduce, K>) -> Result<Summary, Refusal>
    requires { K.names.nodes ≡ 2 }
{
    if pool.nodes.len() != 2 || pool.links.len() != 2 {
        return Err(Refusal::NoNode);
    }
    let report = gathered(alloc, pool)?;
    Ok((
        (report.pending, report.sent, report.received, report.under),
        report.done,
        report.ended,
        report.announced,
    ))
}

/// The parts of a pool of two nodes.
#[derive(Drop)]
struct Pair<'a, K: Ledgers> {
    zero: &'a mut Node<Reduce, K>,
    one: &'a mut Node<Reduce, K>,
    there: &'a mut PoolLink<Reduce, K>,
    back: &'a mut PoolLink<Reduce, K>,
    board: &'a mut Board<K>,
}

impl<'a, K: Ledgers> Pair<'a, K> {
    fn of(
        nodes: &'a mut [Node<Reduce, K>],
        links: &'a mut [PoolLink<Reduce, K>],
        board: &'a mut Board<K>,
    ) -> Result<Self, Refusal> {
        let ([zero, one], [there, back]) = (nodes, links) else {
            return Err(Refusal::NoNode);
        };
        Ok(Pair {
            zero,
            one,
            there,
            back,
            board,
        })
    }

    fn seed<R: Eprint>(&mut self, rt: &R) -> Result<(), Refusal> {
        seed_all(rt, self.zero, self.board)?;
        seed_all(rt, self.one, self.board)
    }

    fn act<R: Eprint>(&mut self, rt: &R) -> Result<(), Refusal> {
        act(rt, self.zero, self.board)
    }

    /// Node 1 sends a message; before it arrives, node 0 meets one whose number the board has not given, and one of
    /// another generation.
    fn meet_strangers<R: Eprint>(
        &mut self,
        rt: &R,
        alloc: Global,
        findings: &mut Findings,
    ) -> Result<(), Refusal> {
        run_one(rt, alloc, self.one, self.back, self.board)?;
        let unknown = meet(self.zero, self.back, self.board, 1, 1)?;
        let later = meet(self.zero, self.back, self.board, 0, 2)?;
        findings.met = Some([unknown, later]);
        if !receive_one(rt, self.zero, self.back, self.board)? {
            return Err(Refusal::NoMessage);
        }
        Ok(())
    }

    /// Both nodes take turns until termination is detected, and its token returned.
    fn end<R: Eprint>(&mut self, rt: &R, alloc: Global) -> Result<Ended<K>, Refusal> {
        for _ in 0..100 {
            if let Some(ended) = turn_of(rt, alloc, self.zero, self.back, self.there, self.board)? {
                return Ok(ended);
            }
            if let Some(ended) = turn_of(rt, alloc, self.one, self.there, self.back, self.board)? {
                return Ok(ended);
            }
        }
        Err(Refusal::Missing)
    }
}

/// Both nodes insert their tasks, node 0 meets forged messages and opens a named action, and both run to the end.
fn first_generation<K: Ledgers, R: Eprint>(
    rt: &R,
    alloc: Global,
    nodes: &mut [Node<Reduce, K>],
    links: &mut [PoolLink<Reduce, K>],
    board: &mut Board<K>,
    findings: &mut Findings,
) -> Result<Ended<K>, Refusal> {
    let mut pair = Pair::of(nodes, links, board)?;
    pair.seed(rt)?;
    pair.meet_strangers(rt, alloc, findings)?;
    pair.act(rt)?;
    pair.end(rt, alloc)
}

fn next_generation<K: Ledgers, R: Eprint>(
    rt: &R,
    alloc: Global,
    nodes: &mut [Node<Reduce, K>],
    links: &mut [PoolLink<Reduce, K>],
    board: &mut Board<K>,
) -> Result<Ended<K>, Refusal> {
    let mut pair = Pair::of(nodes, links, board)?;
    pair.seed(rt)?;
    pair.end(rt, alloc)
}

/// The totals of a pool of two nodes that was run to its end, reopened and run again.
fn replayed_by<K: Ledgers, R: Eprint>(
    rt: &R,
    alloc: Global,
    blanks: Blanks,
    findings: &mut Findings,
) -> Result<Summary, Refusal>
    requires { (blanks ≡ K.names) × (blanks.nodes ≡ 2) }
{
    let mut pool = open_pool::<Reduce, K>(alloc, blanks, TREE, 2, 1_048_576)?;
    let ended = first_generation(
        rt,
        alloc,
        &mut pool.nodes,
        &mut pool.links,
        &mut pool.board,
        findings,
    )?;
    let mut pool = reopen(rt, alloc, pool, ended, findings);
    findings.after = look_at(&pool);
    next_generation(rt, alloc, &mut pool.nodes, &mut pool.links, &mut pool.board)?;
    summed_up(alloc, pool)
}

fn replayed<R: Eprint>(rt: &R, alloc: Global) -> Result<(Findings, Summary), Refusal> {
    let mut findings = NOTHING;
    let made = replayed_by::<Brand, R>(rt, alloc, Blanks::new(2), &mut findings)?;
    Ok((findings, made))
}

/// The same, from the beginning if a pool is lost to a failed allocation.
fn replayed_again<R: Eprint>(rt: &R, alloc: Global) -> Result<(Findings, Summary), Refusal> {
    match replayed(rt, alloc) {
        Err(Refusal::NoMemory) => {
            say(rt, "open_pool, Node::deliver or finish");
            replayed(rt, alloc)
        }
        made => made,
    }
}

/// The number of events of the first generation: six of the beginning; two of each of seven tasks; one for each of
/// three feeds within a node; four for each of three messages; two of a named action; six for each of two waves.
const EVENTS: usize = 49;

/// The pool at its end: node 0 has done four tasks, and node 1 three; node 1 sent two messages, and node 0 one.
const AT_THE_END: Look = ([(0, 1, 2, 4), (0, 2, 1, 3)], [0, 0], EVENTS, 3, 1);

/// The pool after it was reopened.
const ANEW: Look = ([(1, 0, 0, 0), (1, 0, 0, 0)], [0, 0], EVENTS + 1, 0, 2);

/// What node 0 does with a stranger, which stays on the link: after six events of the beginning, and begin, send and done
/// of task 1. Tasks 0 and 2 are pending at node 0.
const STAYS: Met = (Err(Refusal::Stranger), (2, 0, 0, 1, 9), true);

// If an allocation failed, the node was unchanged, and the same call then succeeded.
#[test]
fn a_node_refused_memory_is_as_before(rt: HostRuntime) -> Result<(), Fail> {
    let (findings, made) = replayed_again(&rt, rt.alloc())?;
    assert_eq!(rt; findings.met, Some([STAYS; 2]));
    assert_eq!(rt; findings.before, Some(AT_THE_END));
    assert_eq!(rt; made, ((0, 3, 3, 0), 7, true, 0));
    Ok(())
}

// The same for the pool that is reopened.
#[test]
fn a_pool_is_reopened_and_runs_again(rt: HostRuntime) -> Result<(), Fail> {
    let (findings, _) = replayed_again(&rt, rt.alloc())?;
    if let Some(refused) = findings.refused {
        assert_eq!(rt; refused, (Refusal::NoMemory, Some(AT_THE_END)));
    }
    assert_eq!(rt; findings.results, Some((7, Some(66))));
    assert_eq!(rt; findings.after, Some(ANEW));
    Ok(())
}
