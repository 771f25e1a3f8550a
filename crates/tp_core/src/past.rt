//! The list of all accepted steps, which only clauses see.
ghost use Rattle.std.specs.Prelude.{◌≡◌, List, [], ◌∷◌};
ghost use Rattle.std.specs.Borrow.{ftrue};
ghost use Rattle.tp_base.specs.declared.Step.{Step as AStep};

use std::marker::{Model, PhantomData, Send};
use tp_base::Step;

/// A list of steps, newest first, that only clauses see. It takes no memory, and its calls do nothing at run time.
#[derive(Drop)]
pub struct Past {
    mark: PhantomData<()>,
    pub ghost steps: { List AStep },
}

impl Model for Past {
    ghost also_owns = { λ _. ftrue };
}

// It owns nothing.
unsafe impl Send for Past {}

impl Past {
    /// Returns the empty list.
    pub fn new() -> Past
        ensures { result.steps ≡ [] }
    {
        Past { mark: PhantomData }
    }

    /// Returns the list with one step more.
    #[inline(always)]
    pub fn with(&self, step: &Step) -> Past
        ensures { result.steps ≡ step.now ∷ self.now.steps }
    {
        Past { mark: PhantomData }
    }
}
