//! `--explain` and `--no-explain`: whether a fault is explained.

ghost use Rattle.std.specs.Prelude.{◌≡◌};
ghost use Rattle.clap.specs.Words.{found_of, rows_of, rule_of};
ghost use Rattle.command_line.specs.Options.Explain.{explain_rule, explains_in, unexplained_rule};

use crate::arguments::flag;
use crate::values::is_set;
use clap::{Arg, ArgMatches};
use std::alloc::Global;

const NAME: &str = "explain";

const REFUSED: &str = "no-explain";

/// The option.
pub(crate) fn arg<'a>(alloc: Global) -> Arg<'a>
    ensures { rule_of result ≡ explain_rule }
{
    let help = "Explains a fault: adds its line and column, a sentence, and the text of that line";
    flag(alloc, NAME, help)
}

/// The option by which it isn't.
pub(crate) fn refused<'a>(alloc: Global) -> Arg<'a>
    ensures { rule_of result ≡ unexplained_rule }
{
    flag(
        alloc,
        REFUSED,
        "Doesn't explain a fault, on a terminal either",
    )
}

/// Whether a fault is explained: if that is asked for, and on a terminal unless it is refused.
pub(crate) fn explains_in(on_terminal: bool, given: &ArgMatches<'_>) -> bool
    ensures { result ≡ explains_in on_terminal (rows_of (found_of given.now)) }
{
    is_set(given, NAME) || (on_terminal && !is_set(given, REFUSED))
}
