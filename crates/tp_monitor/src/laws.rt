//! The limit of open actions, as a law: a call without arguments whose postcondition is the theorem.
ghost use Rattle.std.specs.Prelude.{◌≡◌};

use crate::numbers::MAX_ACTIONS;

/// States that the limit of open actions at a node is this number.
pub fn limit_of_actions_is_this()
    ensures { MAX_ACTIONS ≡ 1048577 }
{}
