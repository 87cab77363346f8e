//! `--project-root` of `join`: where the folder is that the documents' paths are below.

ghost use Rattle.std.specs.Prelude.{◌≡◌};
ghost use Rattle.clap.specs.Words.{rule_of};
ghost use Rattle.command_line.specs.Options.JoinedRoot.{joined_root_rule};

use crate::arguments::option;
use clap::Arg;
use std::alloc::Global;

pub(crate) const NAME: &str = "project-root";

/// The option.
pub(crate) fn arg<'a>(alloc: Global) -> Arg<'a>
    ensures { rule_of result ≡ joined_root_rule }
{
    let help =
        "Where the sources' folder is; if not given, all indexes have to name the same folder";
    option(alloc, NAME, "URI", help)
}
