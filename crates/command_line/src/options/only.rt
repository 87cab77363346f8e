//! `--only`: the full name below which declarations are kept.

ghost use Rattle.std.specs.Prelude.{◌≡◌};
ghost use Rattle.clap.specs.Words.{rule_of};
ghost use Rattle.command_line.specs.Options.Only.{only_rule};

use crate::arguments::option;
use clap::Arg;
use std::alloc::Global;

pub(crate) const NAME: &str = "only";

/// The option.
pub(crate) fn arg<'a>(alloc: Global) -> Arg<'a>
    ensures { rule_of result ≡ only_rule }
{
    let help = "Keeps only the declaration with this full name and those below it";
    option(alloc, NAME, "PREFIX", help)
}
