//! The reopening of a board: the one event that changes all nodes.
ghost use Rattle.std.specs.{List.All, Prelude.{◌≡◌, ◌<◌, IsTrue, map, vec_len}};
ghost use Rattle.tp_base.specs.declared.step.Step.TheVariants as steps;
ghost use Rattle.tp_board.specs.{Fresh.HasRoom, Numbers.{event, first_numbers}, Reopening.begun_anew, States.with_event};
ghost use Rattle.tp_wave.specs.{Cut.IsQuietHistory, Generations.{present, present_events}, Machine.steps_of, Sums.is_ended};

use crate::board::Board;
use crate::{Ended, Fresh, Ledgers, Shares};
use tp_wave::Wave;

// The one event that changes all nodes, so it takes all their shares at once.
impl<K: Ledgers> Board<K> {
    /// Begins the next generation, without events. The caller passes the shares of all nodes, at which nothing is
    /// pending, and the termination token. Each node's first shares are returned, in the order of the given ones. The
    /// history and its limit continue, and a fault that was set stays.
    pub fn reopen(
        &mut self,
        shares: Vec<Shares<K>>,
        fresh: Fresh<K>,
        ended: Ended<K>,
    ) -> Vec<Shares<K>>
        requires reserved { 0 < self.old.reserved }
        requires nodes { vec_len shares ≡ K.names.nodes }
        requires fresh { HasRoom K.names.nodes fresh }
        ensures board { self.new ≡ with_event (event 0 steps.Reopen) self.old }
        ensures shares { result.items ≡ map begun_anew shares.items }
        ensures all_first { All (λ s. s ≡ first_numbers s.node) result.items }
        ensures each_share { vec_len result ≡ K.names.nodes }
        ensures idle { All (λ s. s.pending ≡ 0) shares.items }
        ensures ended { IsTrue (is_ended K.names.nodes (present (steps_of self.old.history))) }
        ensures quiet { IsQuietHistory K.names.nodes (present_events self.old.history) }
    {
        let mut ended = ended;
        self.audit_ended(&mut ended);
        let mut shares = shares;
        self.audit_each(&mut shares);
        let totals = self.event_log.totals();
        let anew = self.accounts.reopen(shares, fresh, totals, ended);
        self.event_log.reopen();
        self.wave = Wave::new(self.nodes);
        anew
    }

    /// Shows that no node has anything pending if nothing is left. Changes nothing.
    fn audit_each(&mut self, shares: &mut [Shares<K>])
        requires { IsQuietHistory K.names.nodes (present_events self.old.history) }
        ensures same { (self.new ≡ self.old) × (shares.new ≡ shares.old) }
        ensures idle { All (λ s. s.pending ≡ 0) shares.old }
    {
        for next in shares.iter_mut() {
            self.audit(next);
        }
    }
}
