//! `--exclude`: what is left out of the folders.

ghost use Rattle.std.specs.Prelude.{◌≡◌};
ghost use Rattle.clap.specs.Words.{rule_of};
ghost use Rattle.command_line.specs.Options.Exclude.{exclude_rule};

use crate::arguments::{option, repeated};
use clap::Arg;
use std::alloc::Global;

pub(crate) const NAME: &str = "exclude";

/// The option.
pub(crate) fn arg<'a>(alloc: Global) -> Arg<'a>
    ensures { rule_of result ≡ exclude_rule }
{
    let help =
        "Leaves out files and folders by name or path, as .git, which is searched otherwise; may be given again";
    repeated(option(alloc, NAME, "GLOB", help))
}
