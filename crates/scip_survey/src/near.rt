//! Of the names that an index shows symbols by, the one that is nearest to a text.

ghost use Rattle.std.specs.Prelude.{◌≡◌, ◌<◌, ◌^◌, ◌++◌, ◌==◌, ℕ, List, nat_le, IfOk, OnOk, map, min};
ghost use Rattle.std.specs.Borrow.{Bor};
ghost use Rattle.std.specs.List.{flat_map, list_all, slice_split};
ghost use Rattle.std.specs.Option.{option_map};
ghost use Rattle.scip_query.specs.CommandViews.{text_of};
ghost use Rattle.scip_survey.specs.Near.{distance, last_of, name_in, names_of, nearest_name, nearest_of};

use scip_query::Queries;
use scip_records::SymbolInformation;
use std::alloc::{AllocError, Global};
use strsim::levenshtein;

/// Appends the name of an entry, if it has one.
fn push_name<'a>(names: &mut Vec<&'a str>, entry: &'a SymbolInformation) -> Result<(), AllocError>
    ensures { OnOk result (map text_of names.new.items ≡ map text_of names.old.items ++ name_in entry.entry.now) }
{
    let name = entry.display_name.as_str();
    if !name.is_empty() {
        names.push(name)?;
    }
    Ok(())
}

/// Appends the names of entries.
fn push_names<'a>(
    names: &mut Vec<&'a str>,
    entries: &'a [SymbolInformation],
) -> Result<(), AllocError>
    ensures { OnOk result (map text_of names.new.items ≡ map text_of names.old.items
        ++ flat_map name_in entries.entry.now) }
{
    for entry in entries {
        push_name(names, entry)?;
    }
    Ok(())
}

/// The names of all entries.
fn names_of(alloc: Global, queries: &Queries) -> Result<Vec<&str>, AllocError>
    ensures { IfOk result (λ names. map text_of names.items ≡ names_of queries.entry.now) }
{
    let mut names = Vec::new(alloc);
    for document in queries.documents() {
        push_names(&mut names, document.symbols.as_slice())?;
    }
    push_names(&mut names, queries.external_symbols())?;
    Ok(names)
}

/// The lesser of two numbers.
fn lesser(a: usize, b: usize) -> usize
    ensures { result ≡ min a b }
{
    if a < b { a } else { b }
}

/// How near the nearest of names is; 2^64 - 1 if there is none.
fn least_distance(alloc: Global, text: &str, names: &[&str]) -> Result<usize, AllocError>
    ensures { IfOk result (λ least. (n : ℕ) → n < 2 ^ 64 → nat_le n least
        ≡ list_all (λ (name : Bor (List ℕ)). nat_le n (distance text.now name.now)) names.now) }
{
    let mut least = usize::MAX;
    for name in names {
        let distance = levenshtein(alloc, text, *name)?;
        least = lesser(least, distance);
    }
    Ok(least)
}

/// Whether a name is so near to a text.
fn is_near(alloc: Global, text: &str, name: &str, least: usize) -> Result<bool, AllocError>
    ensures near { IfOk result (λ near. near ≡ nat_le (distance text.now name.now) least) }
    ensures few { IfOk result (λ near. distance text.now name.now < 2 ^ 64) }
{
    let distance = levenshtein(alloc, text, name)?;
    Ok(distance <= least)
}

/// The first of some names than which none is nearer.
fn nearest_of<'a>(
    alloc: Global,
    text: &str,
    names: &[&'a str],
) -> Result<Option<&'a str>, AllocError>
    ensures { IfOk result (λ name. option_map text_of name ≡ nearest_of text.now (map text_of names.now)) }
{
    let least = least_distance(alloc, text, names)?;
    for name in names {
        let near = is_near(alloc, text, *name, least)?;
        if near {
            return Ok(Some(*name));
        }
    }
    Ok(None)
}

/// The last of some texts, or another if there is none.
fn last_of<'a>(otherwise: &'a str, texts: &[&'a str]) -> &'a str
    ensures { result.now ≡ last_of otherwise.entry.now (map text_of texts.now) }
{
    match texts {
        [] => otherwise,
        [text, others @ ..] => last_of(*text, others),
    }
}

/// What is between the dots of a text, and before and after them.
fn parts_of(alloc: Global, text: &str) -> Result<Vec<&str>, AllocError>
    ensures { IfOk result (λ parts. map (λ (part : Bor (List ℕ)). part.now) parts.items
        ≡ slice_split (λ b. b == 46) text.now) }
{
    text.split('.').collect(alloc)
}

/// Of the names by which an index shows symbols, the first than which none is nearer to a text: fewest characters have
/// to be put in, taken out or changed. Of the text what is behind its last dot is compared.
pub fn nearest_name<'a>(
    alloc: Global,
    queries: &'a Queries,
    text: &str,
) -> Result<Option<&'a str>, AllocError>
    ensures { IfOk result (λ name. option_map text_of name ≡ nearest_name queries.entry.now text.now) }
{
    let names = names_of(alloc, queries)?;
    let parts = parts_of(alloc, text)?;
    nearest_of(alloc, last_of("", parts.as_slice()), names.as_slice())
}
