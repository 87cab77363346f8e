//! The source of a document, or why the document has no page.

ghost use Rattle.std.specs.Prelude.{◌≡◌, ℕ, List, Option, Some, IfOk};
ghost use Rattle.scip_pages.specs.Columns.{unit_of};
ghost use Rattle.scip_pages.specs.Snapshot.{lines_of, misfit};
ghost use Rattle.scip_site.specs.Snapshots.{path_in};
ghost use Rattle.scip_site.specs.Reading as spec;

use crate::no_page::NoPage;
use crate::snapshot_outcome::path_in;
use basics::OwnedText;
use scip_pages::{ColumnUnit, Lines, is_path_below, lines_of, misfit, unit_of};
use scip_records::Document;
use source_files::ReadFiles;
use std::alloc::{AllocError, Global};

/// A document of an index whose sources are below a root, and whether a document before it has its path.
#[derive(Clone, Copy)]
pub(crate) struct Wanted<'a> {
    pub root: &'a str,
    pub document: &'a Document,
    pub repeated: bool,
}

/// A source, if its document's ranges fit it.
fn fit_or_misfit(
    alloc: Global,
    unit: ColumnUnit,
    document: &Document,
    source: &str,
) -> Result<Result<OwnedText, NoPage>, AllocError>
    ensures { IfOk result (λ outcome. outcome ≡ spec.fit_or_misfit source.now
        (misfit unit (lines_of source.now) document.now.occurrences)) }
{
    let texts = lines_of(alloc, source)?;
    let lines = Lines::new(alloc, unit, &texts)?;
    match misfit(&lines, document.occurrences.as_slice()) {
        Some(_) => Ok(Err(NoPage::Misfit)),
        None => Ok(Ok(OwnedText::copy_of(alloc, source)?)),
    }
}

/// A source, if its document's columns count something, and its ranges fit it.
fn in_unit(
    alloc: Global,
    document: &Document,
    source: &str,
) -> Result<Result<OwnedText, NoPage>, AllocError>
    ensures { IfOk result (λ outcome. outcome ≡ spec.in_unit (unit_of document.now.position_encoding)
        document.now.occurrences source.now) }
{
    match unit_of(document.position_encoding) {
        Some(unit) => fit_or_misfit(alloc, unit, document, source),
        None => Ok(Err(NoPage::NoUnit)),
    }
}

/// What becomes of a document whose source has these bytes.
fn with_bytes(
    alloc: Global,
    document: &Document,
    bytes: &[u8],
) -> Result<Result<OwnedText, NoPage>, AllocError>
    ensures { IfOk result (λ outcome. outcome ≡ spec.of_source document.now (Some bytes.now)) }
{
    match str::from_utf8(bytes) {
        Ok(source) => in_unit(alloc, document, source),
        Err(_) => Ok(Err(NoPage::NotText)),
    }
}

/// What becomes of a document whose source is read.
fn below_root<F: ReadFiles>(
    alloc: Global,
    files: &F,
    root: &str,
    document: &Document,
) -> Result<Result<OwnedText, NoPage>, AllocError>
    ensures { IfOk result (λ outcome. (source : Option (List ℕ)) × F.gives files.now
        (path_in root.now document.now.relative_path) source × (outcome ≡ spec.of_source document.now source)) }
{
    let file = path_in(alloc, root, document.relative_path.as_str())?;
    match files.read_file(alloc, file.as_str())? {
        Some(bytes) => with_bytes(alloc, document, bytes.as_slice()),
        None => Ok(Err(NoPage::Unreadable)),
    }
}

/// What becomes of a document.
pub(crate) fn outcome_of<F: ReadFiles>(
    alloc: Global,
    files: &F,
    wanted: &Wanted<'_>,
) -> Result<Result<OwnedText, NoPage>, AllocError>
    ensures { IfOk result (λ outcome. spec.IsRead (F.gives files.now) wanted.now.root.now wanted.now.document.now
        (spec.is_below wanted.now.document.now) wanted.now.repeated outcome) }
{
    if !is_path_below(wanted.document.relative_path.as_str()) {
        Ok(Err(NoPage::BadPath))
    } else if wanted.repeated {
        Ok(Err(NoPage::Repeated))
    } else {
        below_root(alloc, files, wanted.root, wanted.document)
    }
}
