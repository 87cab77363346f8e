//! `--to`: the folder below which each snapshot goes to a file of its own.

ghost use Rattle.std.specs.Prelude.{◌≡◌};
ghost use Rattle.clap.specs.Words.{rule_of};
ghost use Rattle.command_line.specs.Options.To.{to_rule};

use crate::arguments::option;
use clap::Arg;
use std::alloc::Global;

pub(crate) const NAME: &str = "to";

/// The option.
pub(crate) fn arg<'a>(alloc: Global) -> Arg<'a>
    ensures { rule_of result ≡ to_rule }
{
    let help = "Writes each document to a file below this folder; if not given, they are printed";
    option(alloc, NAME, "DIR", help)
}
