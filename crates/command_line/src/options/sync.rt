//! `--sync`: whether the disk has OUT before the run ends.

ghost use Rattle.std.specs.Prelude.{◌≡◌};
ghost use Rattle.clap.specs.Words.{found_of, rows_of, rule_of};
ghost use Rattle.command_line.specs.Options.Sync.{sync_in, sync_rule};

use crate::arguments::flag;
use crate::values::is_set;
use clap::{Arg, ArgMatches};
use std::alloc::Global;

const NAME: &str = "sync";

/// The option.
pub(crate) fn arg<'a>(alloc: Global) -> Arg<'a>
    ensures { rule_of result ≡ sync_rule }
{
    let help = "Waits until the disk has what is written, and its folder's entry (fsync)";
    flag(alloc, NAME, help)
}

/// Whether it is given.
pub(crate) fn sync_in(given: &ArgMatches<'_>) -> bool
    ensures { result ≡ sync_in (rows_of (found_of given.now)) }
{
    is_set(given, NAME)
}
