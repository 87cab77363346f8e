//! `--well-known`: whether the well-known files are included.

ghost use Rattle.std.specs.Prelude.{◌≡◌};
ghost use Rattle.clap.specs.Words.{found_of, rows_of, rule_of};
ghost use Rattle.command_line.specs.Options.WellKnown.{well_known_in, well_known_rule};

use crate::arguments::flag;
use crate::options::real::is_real;
use crate::values::is_set;
use clap::{Arg, ArgMatches};
use std::alloc::Global;

const NAME: &str = "well-known";

/// The option.
pub(crate) fn arg<'a>(alloc: Global) -> Arg<'a>
    ensures { rule_of result ≡ well_known_rule }
{
    let help =
        "Includes google/protobuf/*.proto of the protoc on the PATH, of /usr/local or of /usr";
    flag(alloc, NAME, help)
}

/// Whether it is given, or `--real`.
pub(crate) fn well_known_in(given: &ArgMatches<'_>) -> bool
    ensures { result ≡ well_known_in (rows_of (found_of given.now)) }
{
    is_set(given, NAME) || is_real(given)
}
