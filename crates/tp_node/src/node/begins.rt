//! Beginning several ready tasks at once.
ghost use Rattle.std.specs.Prelude.{◌≡◌, ◌≤◌, ◌<◌, [], ◌∷◌, None, Some, min, IfErr, IfOk, IfSome, IsOk, MatchOption, OnErr};
ghost use Rattle.{tp_board.specs.{Calls.Appends, States.{IsCheckedFor, IsPastPiece, full_check}}, tp_slots.specs.Content.front};
ghost use Rattle.{tp_node.specs.{Begins.{BeginsSome, ready_count}, Calls.Begins}, tp_store.specs.{Content.life_of, Sound.IsSound}};
ghost use Rattle.tp_store.specs.declared.life.Life.TheVariants as lives;

use crate::node::Node;
use crate::work::Work;
use smallvec::SmallVec;
use tp_base::{Refusal, Step};
use tp_board::{Board, Ledgers};
use tp_graph::Graph;

impl<G: Graph, K: Ledgers> Node<G, K> {
    /// Begins the next ready tasks, each as [`begin`](Node::begin) does: `max` of them, 1 to 8, or all if fewer are
    /// ready. Returns their work in the order in which they began. Room for all their events is reserved first.
    ///
    /// Refused with `HistoryFull` if the history has room for fewer events than tasks would begin; `NoMemory` if the
    /// board has to allocate for some of the events, as it may at the end of a piece of 1,024 events or messages, and
    /// the allocation fails. No task has begun then.
    pub fn begin_some(
        &mut self,
        board: &mut Board<K>,
        max: u32,
    ) -> Result<SmallVec<Option<Work<G>>, 8>, Refusal>
        requires { (1 ≤ max) × (max ≤ 8) }
        ensures none { ready_count self.old ≡ 0 → IsOk result }
        ensures begun { IfOk result (λ works. BeginsSome self.old self.new board.old board.new (min (ready_count self.old) max)
            works.items) }
        ensures refusal { IsCheckedFor (full_check (min (ready_count self.old) max) board.old ∷ [])
            (min (ready_count self.old) max) board.old result }
        ensures piece { IfErr result (IsPastPiece (min (ready_count self.old) max) board.old) }
        ensures refused { OnErr result (Appends [] board.old board.new × (self.new ≡ self.old)) }
    {
        let count = self.counts().ready.min(max);
        board.reserve(count)?;
        Ok(self.begin_each(board, count))
    }

    /// Begins `count` ready tasks, in the places that were reserved for their events.
    fn begin_each(&mut self, board: &mut Board<K>, count: u32) -> SmallVec<Option<Work<G>>, 8>
        requires few { count ≤ 8 }
        requires ready { count ≤ ready_count self.old }
        requires reserved { count ≤ board.old.reserved }
        ensures { BeginsSome self.old self.new board.old board.new count result.items }
    {
        let mut works = SmallVec::new(self.alloc);
        for _ in 0..count {
            works.push_reserved(self.begin_next(board));
        }
        works
    }

    /// Begins the next ready task, if one is ready, in the place that was reserved for its event.
    #[inline(always)]
    pub(crate) fn begin_next(&mut self, board: &mut Board<K>) -> Option<Work<G>>
        requires { 0 < board.old.reserved }
        ensures begun { MatchOption result ((front self.old.state.store.ready ≡ None) × (self.new ≡ self.old)
            × (board.new ≡ board.old)) (Begins self.old self.new board.old board.new) }
        ensures life { IfSome result (λ work. life_of self.old.state.store work.task ≡ Some lives.Ready) }
        ensures sound { IsSound self.old.state.store }
    {
        let Some(begun) = self.local.begin() else {
            return None;
        };
        let Ok(()) = board.append(Step::Begin(begun.task), &mut self.shares) else {
            unreachable!()
        };
        Some(Work::new(self.graph, begun.task, begun.inputs))
    }
}
