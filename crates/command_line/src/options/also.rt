//! `--also`: further indexes, which are taken as one with the first.

ghost use Rattle.std.specs.Prelude.{◌≡◌, IfOk, map, string_bytes};
ghost use Rattle.clap.specs.Words.{found_of, rows_of, rule_of};
ghost use Rattle.command_line.specs.Options.Also.{also_rule, indexes_of};

use crate::arguments::{option, repeated};
use crate::names::INDEX_FILE;
use crate::values::texts_of;
use clap::{Arg, ArgMatches};
use std::alloc::{AllocError, Global};

const NAME: &str = "also";

/// The option.
pub(crate) fn arg<'a>(alloc: Global) -> Arg<'a>
    ensures { rule_of result ≡ also_rule }
{
    let help = "A file with an index that is taken as one with INDEX; may be given again";
    repeated(option(alloc, NAME, "INDEX", help))
}

/// The path INDEX, and those of `--also`.
pub(crate) fn indexes_of(alloc: Global, given: &ArgMatches<'_>) -> Result<Vec<String>, AllocError>
    ensures { IfOk result (λ v. map string_bytes v.items ≡ indexes_of (rows_of (found_of given.now))) }
{
    let mut indexes = texts_of(alloc, given, INDEX_FILE)?;
    indexes.append(&mut texts_of(alloc, given, NAME)?)?;
    Ok(indexes)
}
