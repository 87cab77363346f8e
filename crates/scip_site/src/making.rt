//! A folder of pages.

ghost use Rattle.std.specs.Prelude.{◌≡◌, ◌≢◌, ◌++◌, [], ◌∷◌, ℕ, List, IfErr, IfOk, None, OnOk, length, map};
ghost use Rattle.std.specs.Borrow.{Bor};
ghost use Rattle.std.specs.List.{list_any};
ghost use Rattle.std.specs.Option.{is_some, option_map};
ghost use Rattle.scip_query.specs.Tables.{numbers};
ghost use Rattle.source_files.specs.Makers.{maker};
ghost use Rattle.streams.specs.Writers.{writer};
ghost use Rattle.scip_pages.specs.Facts.{AreRight};
ghost use Rattle.scip_pages.specs.Ids as ids;
ghost use Rattle.scip_pages.specs.Page.{page_of, firsts_of};
ghost use Rattle.scip_site.specs.Script.{listing_text};
ghost use Rattle.scip_site.specs.Tree as tree_spec;
ghost use Rattle.scip_site.specs.Making as spec;
ghost use Rattle.scip_pages.specs.Snapshot.{lines_of};

use crate::filing::Folders;
use crate::listing::listed_page;
use crate::order::by_path;
use crate::reading::read_all;
use crate::show_fault::ShowFault;
use crate::site_fault::SiteFault;
use crate::snapshot_outcome::path_in;
use crate::styles::{SEARCH, STYLE};
use crate::tree::first_page;
use basics::OwnedText;
use scip_pages::{
    Asked, ColumnUnit, Facts, Lines, Site, has_page, lines_of, page_path, path_listed, unit_of,
};
use scip_query::Queries;
use scip_records::Document;
use source_files::{MakeFiles, ReadFiles};
use std::alloc::{AllocError, Global};
use streams::Sink;

/// What is known of symbols while pages are made, and the list of symbols so far.
#[derive(Drop)]
struct Listed<'a> {
    facts: Facts<'a>,
    script: Vec<u8>,
}

/// What the columns of a document count.
fn unit_in(document: &Document) -> ColumnUnit
    ensures { result ≡ ids.unit_in document.now }
{
    match unit_of(document.position_encoding) {
        Some(unit) => unit,
        None => ColumnUnit::Utf8,
    }
}

/// The source of the document with a number, if the document has a page.
fn source_at(sources: &[Option<OwnedText>], number: usize) -> Option<&str>
    ensures { option_map (λ (source : Bor (List ℕ)). source.now) result ≡ spec.source_at sources.now number }
{
    match sources.get(number) {
        Some(Some(source)) => Some(source.as_str()),
        _ => None,
    }
}

/// The page of a document with a number and a source. Its symbols are listed.
fn page_in<'a>(
    alloc: Global,
    site: &Site<'a>,
    number: usize,
    document: &Document,
    source: &str,
    listed: &mut Listed<'a>,
) -> Result<Vec<u8>, AllocError>
    requires { AreRight site.now.queries.now site.now.sources.now listed.old.facts.facts.items }
    ensures right { AreRight site.now.queries.now site.now.sources.now listed.new.facts.facts.items }
    ensures page { IfOk result (λ page. page.items ≡ page_of site.now.queries.now site.now.sources.now number
        document.now (ids.unit_in document.now) (lines_of source.now)) }
    ensures listed { IfOk result (λ page. listed.new.script.items ≡ listed.old.script.items ++ listing_text
        site.now.queries.now (ids.unit_in document.now) (lines_of source.now) document.now.relative_path
        (firsts_of site.now.queries.now site.now.sources.now number document.now)) }
{
    let texts = lines_of(alloc, source)?;
    let lines = Lines::new(alloc, unit_in(document), &texts)?;
    let asked = Asked {
        number,
        document,
        lines: &lines,
    };
    listed_page(alloc, site, &mut listed.facts, &asked, &mut listed.script)
}

/// The page of the document with a number, if it has one. Its symbols are listed.
fn page_at<'a>(
    alloc: Global,
    site: &Site<'a>,
    number: usize,
    listed: &mut Listed<'a>,
) -> Result<Option<Vec<u8>>, AllocError>
    requires { AreRight site.now.queries.now site.now.sources.now listed.old.facts.facts.items }
    ensures right { AreRight site.now.queries.now site.now.sources.now listed.new.facts.facts.items }
    ensures page { IfOk result (λ page. option_map (λ p. p.items) page ≡ spec.page_at site.now.queries.now
        site.now.sources.now number) }
    ensures listed { IfOk result (λ page. listed.new.script.items ≡ listed.old.script.items ++ spec.listing_at
        site.now.queries.now site.now.sources.now number) }
    ensures due { IfErr result (λ _. spec.page_at site.now.queries.now site.now.sources.now number ≢ None) }
{
    let Some(document) = site.queries.documents().get(number) else {
        return Ok(None);
    };
    match source_at(site.sources, number) {
        Some(source) => Ok(Some(page_in(alloc, site, number, document, source, listed)?)),
        None => Ok(None),
    }
}

/// Makes a file in a folder.
fn make<O: MakeFiles>(
    alloc: Global,
    folder: &str,
    path: &str,
    bytes: &[u8],
    made: &mut O,
) -> Result<(), ShowFault>
    ensures { spec.MakesFiles (maker O.MakeFiles made) (map (spec.in_folder folder.now)
        (spec.file path.now bytes.now ∷ [])) result }
{
    let file = path_in(alloc, folder, path)?;
    if made.make_file(file.as_str(), bytes)? {
        Ok(())
    } else {
        Err(ShowFault::Write)
    }
}

/// Makes the file of a page of a document with a path, if there is one.
fn make_if_some<O: MakeFiles>(
    alloc: Global,
    folder: &str,
    path: &str,
    page: Option<Vec<u8>>,
    made: &mut O,
) -> Result<(), ShowFault>
    ensures { spec.MakesFiles (maker O.MakeFiles made) (map (spec.in_folder folder.now)
        (spec.page_file path.now (option_map (λ p. p.items) page))) result }
{
    match page {
        Some(page) => {
            let file = page_path(alloc, path)?;
            make(alloc, folder, file.as_str(), page.as_slice(), made)
        }
        None => Ok(()),
    }
}

/// Makes the file of the page of the document with a number, if it has one. Its symbols are listed.
fn make_page<'a, O: MakeFiles>(
    alloc: Global,
    folder: &str,
    site: &Site<'a>,
    number: usize,
    listed: &mut Listed<'a>,
    made: &mut O,
) -> Result<(), ShowFault>
    requires { AreRight site.now.queries.now site.now.sources.now listed.old.facts.facts.items }
    ensures right { AreRight site.now.queries.now site.now.sources.now listed.new.facts.facts.items }
    ensures files { spec.MakesFiles (maker O.MakeFiles made) (map (spec.in_folder folder.now)
        (spec.page_file_at site.now.queries.now site.now.sources.now number)) result }
    ensures listed { OnOk result (listed.new.script.items ≡ listed.old.script.items ++ spec.listing_at
        site.now.queries.now site.now.sources.now number) }
{
    let page = page_at(alloc, site, number, listed)?;
    let path = path_listed(site.queries.documents(), number);
    make_if_some(alloc, folder, path, page, made)
}

/// Makes the files of all pages. All symbols are listed.
fn make_each<'a, O: MakeFiles>(
    alloc: Global,
    folder: &str,
    site: &Site<'a>,
    listed: &mut Listed<'a>,
    made: &mut O,
) -> Result<(), ShowFault>
    requires { AreRight site.now.queries.now site.now.sources.now listed.old.facts.facts.items }
    ensures files { spec.MakesFiles (maker O.MakeFiles made) (map (spec.in_folder folder.now)
        (spec.pages site.now.queries.now site.now.sources.now (numbers (length site.now.queries.now.documents))))
        result }
    ensures listed { OnOk result (listed.new.script.items ≡ listed.old.script.items ++ spec.listings
        site.now.queries.now site.now.sources.now (numbers (length site.now.queries.now.documents))) }
{
    let count = site.queries.documents().len();
    for number in 0..count {
        make_page(alloc, folder, site, number, listed, made)?;
    }
    Ok(())
}

/// Makes what all pages share, and the first page at last.
fn make_shared<O: MakeFiles>(
    alloc: Global,
    folder: &str,
    script: &[u8],
    first: &[u8],
    made: &mut O,
) -> Result<(), ShowFault>
    ensures { spec.MakesFiles (maker O.MakeFiles made) (map (spec.in_folder folder.now)
        (spec.shared script.now first.now)) result }
{
    make(alloc, folder, "pages.css", STYLE.as_bytes(), made)?;
    make(alloc, folder, "search.js", SEARCH.as_bytes(), made)?;
    make(alloc, folder, "symbols.js", script, made)?;
    make(alloc, folder, "index.html", first, made)
}

/// Appends the path of the document with a number, if it has a page.
fn push_path<'a>(
    paths: &mut Vec<&'a str>,
    documents: &'a [Document],
    sources: &[Option<OwnedText>],
    number: usize,
) -> Result<(), AllocError>
    ensures { OnOk result (map (λ (p : Bor (List ℕ)). p.now) paths.new.items ≡ map (λ (p : Bor (List ℕ)). p.now)
        paths.old.items ++ spec.path_or_none documents.now sources.now number) }
{
    if has_page(sources, number) {
        paths.push(path_listed(documents, number))?;
    }
    Ok(())
}

/// The paths of the documents that have pages, in an order.
fn paths_in<'a>(
    alloc: Global,
    documents: &'a [Document],
    sources: &[Option<OwnedText>],
    order: &[usize],
) -> Result<Vec<&'a str>, AllocError>
    ensures { IfOk result (λ paths. map (λ (p : Bor (List ℕ)). p.now) paths.items ≡ spec.paths_in documents.now
        sources.now order.now) }
{
    let mut paths = Vec::new(alloc);
    for number in order {
        push_path(&mut paths, documents, sources, *number)?;
    }
    Ok(paths)
}

/// The first page.
fn first_of(alloc: Global, site: &Site<'_>, order: &[usize]) -> Result<Vec<u8>, AllocError>
    ensures { IfOk result (λ page. page.items ≡ tree_spec.first_page (spec.paths_in site.now.queries.now.documents
        site.now.sources.now order.now)) }
{
    let paths = paths_in(alloc, site.queries.documents(), site.sources, order)?;
    first_page(alloc, &paths)
}

/// What is known of all symbols, of which none is listed.
fn nothing_listed<'a>(alloc: Global, site: &Site<'a>) -> Result<Listed<'a>, AllocError>
    ensures facts { IfOk result (λ listed. AreRight site.now.queries.now site.now.sources.now
        listed.facts.facts.items) }
    ensures script { IfOk result (λ listed. listed.script.items ≡ spec.script_start) }
{
    let mut facts = Facts::new(alloc, site.queries)?;
    facts.find_all(site)?;
    Ok(Listed {
        facts,
        script: Vec::from_slice(alloc, b"const sources = [\n")?,
    })
}

/// Ends the list of symbols.
fn push_end(script: &mut Vec<u8>) -> Result<(), AllocError>
    ensures { OnOk result (script.new.items ≡ script.old.items ++ spec.script_end) }
{
    script.extend_from_slice(b"];\n")
}

/// Makes all files, over the documents in the order of their paths.
fn make_all<O: MakeFiles>(
    alloc: Global,
    folder: &str,
    site: &Site<'_>,
    order: &[usize],
    made: &mut O,
) -> Result<(), ShowFault>
    ensures { spec.MakesFiles (maker O.MakeFiles made) (map (spec.in_folder folder.now)
        (spec.site_files site.now.queries.now site.now.sources.now order.now)) result }
{
    let first = first_of(alloc, site, order)?;
    let mut listed = nothing_listed(alloc, site)?;
    make_each(alloc, folder, site, &mut listed, made)?;
    push_end(&mut listed.script)?;
    make_shared(alloc, folder, &listed.script, &first, made)
}

/// Whether one of the sources is there.
fn has_some(sources: &[Option<OwnedText>]) -> bool
    ensures { result ≡ list_any is_some sources.now }
{
    sources.iter().any(|source| source.is_some())
}

/// Whether there are documents, but none has a page.
fn is_bare(documents: &[Document], sources: &[Option<OwnedText>]) -> bool
    ensures { result ≡ spec.is_bare documents.now sources.now }
{
    match documents {
        [] => false,
        [_, ..] => !has_some(sources),
    }
}

/// Makes pages of the documents of an index in a folder, for a browser; the sources are below a root. A document
/// whose path leads out of the root or is that of a document before it, whose source isn't there, or whose ranges
/// don't fit it, is told and has no page.
///
/// In the folder is `index.html`, with the tree of folders and a search, what all pages share, and below `src` a page
/// for each document. Behind `src` is a `~` for each folder on the document's path whose name ends in `.html`, so that
/// no page is where another has a folder.
///
/// - `NothingThere`: there are documents, but none has a page. No file is made.
/// - `Write`: a file can't be made; those before it are. The first page is the last.
/// - `Memory`: memory ran out, after a first part of the files.
pub fn make_pages<F: ReadFiles, O: MakeFiles, M: Sink>(
    alloc: Global,
    files: &F,
    folders: &Folders<'_>,
    queries: &Queries,
    made: &mut O,
    messages: &mut M,
) -> Result<(), SiteFault>
    ensures { spec.MakesSite (F.gives files.now) folders.now.root.now folders.now.to.now queries.now
        (maker O.MakeFiles made) (writer M.Sink messages) result }
{
    let documents = queries.documents();
    let order = by_path(alloc, documents)?;
    let sources = read_all(alloc, files, folders.root, documents, messages)?;
    if is_bare(documents, &sources) {
        return Err(SiteFault::NothingThere);
    }
    let site = Site {
        queries,
        sources: &sources,
    };
    make_all(alloc, folders.to, &site, &order, made)?;
    Ok(())
}
