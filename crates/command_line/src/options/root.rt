//! `--root`: the folder below which the sources of an index are.

ghost use Rattle.std.specs.Prelude.{◌≡◌};
ghost use Rattle.clap.specs.Words.{rule_of};
ghost use Rattle.command_line.specs.Options.Root.{root_rule};

use crate::arguments::option;
use clap::Arg;
use std::alloc::Global;

pub(crate) const NAME: &str = "root";

/// The option.
pub(crate) fn arg<'a>(alloc: Global) -> Arg<'a>
    ensures { rule_of result ≡ root_rule }
{
    let help = "The folder with the sources that were indexed: answers show their lines";
    option(alloc, NAME, "DIR", help)
}
