//! Answers for people: a line for each place, with the line of its source.

ghost use Rattle.std.specs.Prelude.{◌≡◌, ◌+◌, ◌^◌, ◌<◌, ◌≤◌, ◌++◌, cond, length, IfOk, OnOk, map, option_copied};
ghost use Rattle.std.specs.List.{flat_map, slice_get};
ghost use Rattle.std.specs.Option.{option_map};
ghost use Rattle.std.specs.Str.{bytes_eq};
ghost use Rattle.scip_query.specs.CommandViews.{text_of};
ghost use Rattle.scip_query.specs.MoreAnswers.{indent};
ghost use Rattle.scip_query.specs.MoreViews.{answer_view, found_view, outlined_view, site_view};
ghost use Rattle.scip_pages.specs.Snapshot.{lines_of};
ghost use Rattle.scip_pages.specs.Told as spec;

use crate::columns::{ColumnUnit, is_first_byte};
use crate::counted::Line;
use crate::decimals::push_decimal;
use crate::snapshots::{parts_of, without_return};
use basics::OwnedText;
use scip_query::{Answer, Found, Outlined, Site, kind_in, kind_text, signature_in};
use scip_records::{Range, SymbolInformation};
use std::alloc::{AllocError, Global};

/// A document's source.
///
/// Contracts see its texts as lists of bytes.
#[derive(Debug, Drop)]
pub struct Source {
    /// The document's path.
    pub path: OwnedText,
    /// What the document's columns count.
    pub unit: ColumnUnit,
    /// The text.
    pub text: OwnedText,
}

/// Whether a source has a path.
pub fn has_path(source: &Source, path: &str) -> bool
    ensures { result ≡ bytes_eq source.now.path path.now }
{
    source.path.as_str() == path
}

/// The source with a path.
pub(crate) fn source_at<'a>(sources: &'a [Source], path: &str) -> Option<&'a Source>
    ensures { option_copied result ≡ spec.source_at sources.now path.now }
{
    sources.iter().find(|source| has_path(*source, path))
}

/// The line with a number from 0, if there is one.
fn line_at(source: &Source, number: u32) -> Option<&str>
    ensures { option_map text_of result ≡ slice_get (lines_of source.now.text) number }
{
    source.text.as_str().split('\n').nth(number as usize)
}

/// The line with a number from 0; no text if there is none.
pub(crate) fn line_in(source: &Source, number: u32) -> &str
    ensures { result.now ≡ spec.line_in source.now number }
{
    match line_at(source, number) {
        Some(line) => line,
        None => "",
    }
}

/// One more, if something is counted.
fn more_by(count: usize, is_counted: bool) -> usize
    requires { count + 1 < 2 ^ 64 }
    ensures { result ≡ count + cond is_counted 1 0 }
{
    if is_counted { count + 1 } else { count }
}

/// How many characters bytes of a text have.
fn characters_of(bytes: &[u8]) -> usize
    ensures value { result ≡ spec.characters bytes.now }
    ensures few { result ≤ length bytes.now }
{
    let mut count = 0;
    for byte in bytes {
        count = more_by(count, is_first_byte(*byte));
    }
    count
}

/// The column, from 1, where a range begins.
fn column_in(source: Option<&Source>, range: Range) -> usize
    ensures { result ≡ spec.column_in (option_copied source.entry) range }
{
    match source {
        Some(source) => {
            let line = line_in(source, range.start_line()).as_bytes();
            let (before, _) = parts_of(&Line::new(source.unit, line), range);
            characters_of(before) + 1
        }
        None => range.start_column() as usize + 1,
    }
}

/// The line of a place, if its source is there; else another text.
fn text_in<'a>(source: Option<&'a Source>, range: Range, otherwise: &'a str) -> &'a [u8]
    ensures { result.now ≡ spec.text_in (option_copied source.entry) range otherwise.entry.now }
{
    match source {
        Some(source) => without_return(line_in(source, range.start_line()).as_bytes()),
        None => otherwise.as_bytes(),
    }
}

/// Appends `PATH:LINE:COLUMN: `.
fn push_place(
    text: &mut Vec<u8>,
    source: Option<&Source>,
    path: &str,
    range: Range,
) -> Result<(), AllocError>
    ensures { OnOk result (text.new.items ≡ text.old.items
        ++ spec.place_text (option_copied source.entry) path.now range) }
{
    text.extend_from_slice(path.as_bytes())?;
    text.extend_from_slice(b":")?;
    push_decimal(text, range.start_line() as usize + 1)?;
    text.extend_from_slice(b":")?;
    push_decimal(text, column_in(source, range))?;
    text.extend_from_slice(b": ")
}

/// Appends the line of a place, with its source's line, else a symbol.
fn push_shown(
    text: &mut Vec<u8>,
    sources: &[Source],
    path: &str,
    range: Range,
    symbol: &str,
) -> Result<(), AllocError>
    ensures { OnOk result (text.new.items ≡ text.old.items
        ++ spec.shown_line sources.now path.now range symbol.now) }
{
    let source = source_at(sources, path);
    push_place(text, source, path, range)?;
    text.extend_from_slice(text_in(source, range, symbol))?;
    text.extend_from_slice(b"\n")
}

/// Appends the line of an occurrence.
fn push_site(text: &mut Vec<u8>, sources: &[Source], site: &Site<'_>) -> Result<(), AllocError>
    ensures { OnOk result (text.new.items ≡ text.old.items ++ spec.site_told sources.now (site_view site.now)) }
{
    let occurrence = site.occurrence;
    let path = site.document.relative_path.as_str();
    push_shown(
        text,
        sources,
        path,
        occurrence.range,
        occurrence.symbol.as_str(),
    )
}

/// Appends the lines of occurrences.
fn push_sites(text: &mut Vec<u8>, sources: &[Source], sites: &[Site<'_>]) -> Result<(), AllocError>
    ensures { OnOk result (text.new.items ≡ text.old.items
        ++ flat_map (λ site. spec.site_told sources.now (site_view site)) sites.now) }
{
    for site in sites {
        push_site(text, sources, site)?;
    }
    Ok(())
}

/// Appends the line of a definition that is found.
fn push_found(text: &mut Vec<u8>, sources: &[Source], found: &Found<'_>) -> Result<(), AllocError>
    ensures { OnOk result (text.new.items ≡ text.old.items ++ spec.found_told sources.now (found_view found.now)) }
{
    let occurrence = found.occurrence;
    push_shown(
        text,
        sources,
        found.path,
        occurrence.range,
        occurrence.symbol.as_str(),
    )
}

/// Appends the lines of definitions that are found.
fn push_all_found(
    text: &mut Vec<u8>,
    sources: &[Source],
    all: &[Found<'_>],
) -> Result<(), AllocError>
    ensures { OnOk result (text.new.items ≡ text.old.items
        ++ flat_map (λ f. spec.found_told sources.now (found_view f)) all.now) }
{
    for found in all {
        push_found(text, sources, found)?;
    }
    Ok(())
}

/// Appends two spaces for each level.
fn push_indent(text: &mut Vec<u8>, depth: usize) -> Result<(), AllocError>
    ensures { OnOk result (text.new.items ≡ text.old.items ++ indent depth) }
{
    for _level in 0..depth {
        text.extend_from_slice(b"  ")?;
    }
    Ok(())
}

/// Appends the line of a definition in the outline of the document with a path.
fn push_outlined(
    alloc: Global,
    text: &mut Vec<u8>,
    sources: &[Source],
    path: &str,
    outlined: &Outlined<'_>,
) -> Result<(), AllocError>
    ensures { OnOk result (text.new.items ≡ text.old.items
        ++ spec.outlined_told sources.now path.now (outlined_view outlined.now)) }
{
    let occurrence = outlined.occurrence;
    push_place(text, source_at(sources, path), path, occurrence.range)?;
    push_indent(text, outlined.depth)?;
    let kind = kind_text(alloc, outlined.kind)?;
    text.extend_from_slice(kind.as_str().as_bytes())?;
    text.extend_from_slice(b" ")?;
    text.extend_from_slice(occurrence.symbol.as_str().as_bytes())?;
    text.extend_from_slice(b"\n")
}

/// Appends the lines of an outline.
fn push_outline(
    alloc: Global,
    text: &mut Vec<u8>,
    sources: &[Source],
    path: &str,
    outline: &[Outlined<'_>],
) -> Result<(), AllocError>
    ensures { OnOk result (text.new.items ≡ text.old.items
        ++ flat_map (λ o. spec.outlined_told sources.now path.now (outlined_view o)) outline.now) }
{
    for outlined in outline {
        push_outlined(alloc, text, sources, path, outlined)?;
    }
    Ok(())
}

/// Appends a text and a line end, unless it is empty.
fn push_text(text: &mut Vec<u8>, told: &str) -> Result<(), AllocError>
    ensures { OnOk result (text.new.items ≡ text.old.items ++ spec.told_text told.now) }
{
    if told.is_empty() {
        return Ok(());
    }
    text.extend_from_slice(told.as_bytes())?;
    text.extend_from_slice(b"\n")
}

/// Appends texts, each with a line end.
fn push_texts(text: &mut Vec<u8>, texts: &[&str]) -> Result<(), AllocError>
    ensures { OnOk result (text.new.items ≡ text.old.items ++ flat_map (λ t. spec.told_text t.now) texts.now) }
{
    for told in texts {
        push_text(text, *told)?;
    }
    Ok(())
}

/// Appends texts that are owned, each with a line end.
fn push_owned(text: &mut Vec<u8>, texts: &[OwnedText]) -> Result<(), AllocError>
    ensures { OnOk result (text.new.items ≡ text.old.items ++ flat_map spec.told_text texts.now) }
{
    for told in texts {
        push_text(text, told.as_str())?;
    }
    Ok(())
}

/// Appends what an entry says.
fn push_entry(
    alloc: Global,
    text: &mut Vec<u8>,
    entry: &SymbolInformation,
) -> Result<(), AllocError>
    ensures { OnOk result (text.new.items ≡ text.old.items ++ spec.entry_told entry.now) }
{
    let kind = kind_text(alloc, kind_in(Some(entry)))?;
    text.extend_from_slice(kind.as_str().as_bytes())?;
    text.extend_from_slice(b" ")?;
    text.extend_from_slice(entry.symbol.as_str().as_bytes())?;
    text.extend_from_slice(b"\n")?;
    push_text(text, signature_in(Some(entry)))?;
    push_owned(text, entry.documentation.as_slice())
}

/// Appends what entries say.
fn push_entries(
    alloc: Global,
    text: &mut Vec<u8>,
    entries: &[&SymbolInformation],
) -> Result<(), AllocError>
    ensures { OnOk result (text.new.items ≡ text.old.items
        ++ flat_map (λ entry. spec.entry_told entry.now) entries.now) }
{
    for entry in entries {
        push_entry(alloc, text, *entry)?;
    }
    Ok(())
}

/// Appends an answer for people: for each occurrence and each definition a line `PATH:LINE:COLUMN: TEXT`, with line and
/// column from 1.
///
/// TEXT is the source's line, and columns count characters, if the sources have the document's; else TEXT is the symbol,
/// and columns count as the document does. An outline is of the document with this path; its lines have each
/// definition's kind and symbol. Of an entry come its symbol with its kind, its signature and its documentation.
pub fn push_told(
    alloc: Global,
    text: &mut Vec<u8>,
    sources: &[Source],
    path: &str,
    answer: &Answer<'_>,
) -> Result<(), AllocError>
    ensures { OnOk result (text.new.items ≡ text.old.items
        ++ spec.told sources.now path.now (answer_view answer.now)) }
{
    match answer {
        Answer::Sites(sites) => push_sites(text, sources, sites.as_slice()),
        Answer::Texts(texts) => push_texts(text, texts.as_slice()),
        Answer::Entries(entries) => push_entries(alloc, text, entries.as_slice()),
        Answer::Outline(outline) => push_outline(alloc, text, sources, path, outline.as_slice()),
        Answer::Found(found) => push_all_found(text, sources, found.as_slice()),
        Answer::Missed(_) => Ok(()),
    }
}

/// The paths of documents with occurrences.
fn paths_of_sites<'a>(alloc: Global, sites: &[Site<'a>]) -> Result<Vec<&'a str>, AllocError>
    ensures { IfOk result (λ paths. map text_of paths.items
        ≡ map (λ site. (site_view site).document.relative_path) sites.now) }
{
    let mut paths = Vec::with_capacity(alloc, sites.len())?;
    for site in sites {
        paths.push(site.document.relative_path.as_str())?;
    }
    Ok(paths)
}

/// The paths of documents with definitions that are found.
fn paths_of_found<'a>(alloc: Global, all: &[Found<'a>]) -> Result<Vec<&'a str>, AllocError>
    ensures { IfOk result (λ paths. map text_of paths.items ≡ map (λ f. (found_view f).path) all.now) }
{
    let mut paths = Vec::with_capacity(alloc, all.len())?;
    for found in all {
        paths.push(found.path)?;
    }
    Ok(paths)
}

/// The paths of the documents whose places an answer shows, perhaps more than once; an outline is of the document with
/// this path.
pub fn paths_of<'a>(
    alloc: Global,
    path: &'a str,
    answer: &Answer<'a>,
) -> Result<Vec<&'a str>, AllocError>
    ensures { IfOk result (λ paths. map text_of paths.items ≡ spec.paths_of path.entry.now (answer_view answer.now)) }
{
    match answer {
        Answer::Sites(sites) => paths_of_sites(alloc, sites.as_slice()),
        Answer::Found(found) => paths_of_found(alloc, found.as_slice()),
        Answer::Outline(_) => {
            let mut paths = Vec::new(alloc);
            paths.push(path)?;
            Ok(paths)
        }
        Answer::Texts(_) | Answer::Entries(_) | Answer::Missed(_) => Ok(Vec::new(alloc)),
    }
}
