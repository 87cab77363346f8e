//! What arguments and options are given.

ghost use Rattle.std.specs.Prelude.{◌≡◌, IfOk, map, string_bytes, option_map};
ghost use Rattle.clap.specs.Words.{first_of, found_of, rows_of};
ghost use Rattle.command_line.specs.Values.{is_given, is_set, text_of, texts_of};

use clap::ArgMatches;
use std::alloc::{AllocError, Global};

/// The first text of an argument or option: what it is given, or its default.
pub(crate) fn first_of<'a>(given: &ArgMatches<'a>, id: &str) -> Option<&'a str>
    ensures { option_map (λ s. s.now) result ≡ first_of id.now (rows_of (found_of given.now)) }
{
    given.get_str(id)
}

/// That text, which is empty if there is none.
pub(crate) fn given_text<'a>(given: &ArgMatches<'a>, id: &str) -> &'a str
    ensures { result.now ≡ text_of id.now (rows_of (found_of given.now)) }
{
    first_of(given, id).unwrap_or("")
}

/// The text as one of its own.
pub(crate) fn text_of(alloc: Global, given: &ArgMatches<'_>, id: &str) -> Result<String, AllocError>
    ensures { IfOk result (λ s. string_bytes s ≡ text_of id.now (rows_of (found_of given.now))) }
{
    String::from_str(alloc, given_text(given, id))
}

/// The text of an option, if there is one.
pub(crate) fn optional_text_of(
    alloc: Global,
    given: &ArgMatches<'_>,
    id: &str,
) -> Result<Option<String>, AllocError>
    ensures { IfOk result (λ s. option_map string_bytes s
        ≡ first_of id.now (rows_of (found_of given.now))) }
{
    match first_of(given, id) {
        Some(text) => Ok(Some(String::from_str(alloc, text)?)),
        None => Ok(None),
    }
}

/// The texts of an option that may be given again, in the order of the words.
pub(crate) fn texts_of(
    alloc: Global,
    given: &ArgMatches<'_>,
    id: &str,
) -> Result<Vec<String>, AllocError>
    ensures { IfOk result (λ v. map string_bytes v.items ≡ texts_of id.now (rows_of (found_of given.now))) }
{
    match given.get_strs(id) {
        Some(texts) => copies_of(alloc, texts),
        None => Ok(Vec::new(alloc)),
    }
}

/// Texts of their own.
fn copies_of(alloc: Global, texts: &[&str]) -> Result<Vec<String>, AllocError>
    ensures { IfOk result (λ v. map string_bytes v.items ≡ map (λ s. s.now) texts.now) }
{
    let mut copies = Vec::new(alloc);
    for text in texts {
        copies.push(String::from_str(alloc, *text)?)?;
    }
    Ok(copies)
}

/// Whether an option without a default is given.
pub(crate) fn is_given(given: &ArgMatches<'_>, id: &str) -> bool
    ensures { result ≡ is_given id.now (rows_of (found_of given.now)) }
{
    match first_of(given, id) {
        Some(_) => true,
        None => false,
    }
}

/// Whether an option without a value is given.
pub(crate) fn is_set(given: &ArgMatches<'_>, id: &str) -> bool
    ensures { result ≡ is_set id.now (rows_of (found_of given.now)) }
{
    given_text(given, id) == "true"
}
