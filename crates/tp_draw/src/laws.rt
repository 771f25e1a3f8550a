//! The theorem that states the value of each limit of the program `draw`, as a call without arguments.
ghost use Rattle.std.specs.Prelude.{◌≡◌};
ghost use Rattle.tp_draw.specs.declared.{cli.TheConstants.MAX_TASKS, command.TheConstants.{MAX_PIXELS, MIN_PIXELS}};

/// The limits have these values.
pub fn limits_are_these()
    ensures tasks { MAX_TASKS ≡ 2000 }
    ensures least_pixels { MIN_PIXELS ≡ 100 }
    ensures most_pixels { MAX_PIXELS ≡ 20000 }
{}
