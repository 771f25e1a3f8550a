//! Which columns feed which: the relation.
ghost use Rattle.prefix.specs.Prefixes.{doubling};

use pool_kernels::Relation;

/// A column is fed by itself and by the one at its left, 1 column away in row 1, 2 in row 2, 4 in row 3 and so on.
#[derive(Clone, Copy)]
pub(crate) struct Doubling;

#[tactic(auto, using(crate::proofs::RowSums::too_far))]
impl Relation for Doubling {
    ghost relation = { λ _ _. doubling };

    fn relates(&self, _width: u32, step: u32, from: u32, to: u32) -> bool {
        from == to || (step <= 20 && from + (1 << (step - 1)) == to)
    }

    fn period(&self, _width: u32, steps: u32) -> u32 {
        steps
    }
}
