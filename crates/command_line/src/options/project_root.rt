//! `--project-root`: where the sources' folder is.

ghost use Rattle.std.specs.Prelude.{◌≡◌};
ghost use Rattle.clap.specs.Words.{rule_of};
ghost use Rattle.command_line.specs.Options.ProjectRoot.{project_root_rule};

use crate::arguments::{option, or_default};
use clap::Arg;
use std::alloc::Global;

pub(crate) const NAME: &str = "project-root";

/// The option.
pub(crate) fn arg<'a>(alloc: Global) -> Arg<'a>
    ensures { rule_of result ≡ project_root_rule }
{
    let help = "Where the sources' folder is, for the index's metadata";
    or_default(option(alloc, NAME, "URI", help), "file:///")
}
