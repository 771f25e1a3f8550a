//! The theorem that states the value of each limit that definitions of the command line use, as a call without
//! arguments.
ghost use Rattle.std.specs.Prelude.{◌≡◌};
ghost use Rattle.tp_cli.specs.declared.command.TheConstants.{MAX_GENERATIONS};
ghost use Rattle.tp_text.specs.declared.input.TheConstants.{MAX_TEXT};

/// The limits have these values.
pub fn limits_are_these()
    ensures generations { MAX_GENERATIONS ≡ 9 }
    ensures text { MAX_TEXT ≡ 33554432 }
{}
