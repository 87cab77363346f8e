//! `--workers`: how many threads there are.

ghost use Rattle.std.specs.Prelude.{◌≡◌};
ghost use Rattle.clap.specs.Words.{found_of, rows_of, rule_of};
ghost use Rattle.command_line.specs.Options.Workers.{fitting, workers_of, workers_rule};

use crate::arguments::{option, or_default};
use clap::{Arg, ArgMatches, value_parser};
use index_pool::{MAX_WORKERS, Workers};
use std::alloc::Global;

const NAME: &str = "workers";

/// How many there are, if it isn't given.
const DEFAULT: &str = "4";

// The number in the text of help is the limit.
const _: () = prove!(MAX_WORKERS == 16);

/// The option, with a number from 1 to `MAX_WORKERS`.
pub(crate) fn arg<'a>(alloc: Global) -> Arg<'a>
    ensures { rule_of result ≡ workers_rule }
{
    let help = "How many threads to use, 1 to 16; the index is the same for any number";
    let option = option(alloc, NAME, "N", help);
    or_default(
        option.value_parser(value_parser!(usize).range(1..=MAX_WORKERS as i64)),
        DEFAULT,
    )
}

/// So many. `clap` takes no number but 1 to `MAX_WORKERS`, and gives the default if there is none.
pub(crate) fn workers_of(given: &ArgMatches<'_>) -> Workers
    ensures { result ≡ workers_of (rows_of (found_of given.now)) }
{
    fitting(given.get_one::<usize>(NAME))
}

/// So many, from 1 to `MAX_WORKERS`; 1 for any other number, which `clap` never gives.
fn fitting(number: Option<usize>) -> Workers
    ensures { result ≡ fitting number }
{
    match number {
        Some(number) if 1 <= number && number <= MAX_WORKERS => Workers::new(number).unwrap(),
        _ => Workers::new(1).unwrap(),
    }
}
