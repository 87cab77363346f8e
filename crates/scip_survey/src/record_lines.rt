//! The records of an index as lines for people.

ghost use Rattle.std.specs.Prelude.{◌≡◌, ◌++◌, OnOk, option_copied};
ghost use Rattle.std.specs.String.{string_bytes};
ghost use Rattle.scip_survey.specs.RecordLines.{
  document_line,
  end_text,
  external_line,
  metadata_line,
  occurrence_line,
  roles_text,
  start_text,
  symbol_line,
  tool_text,
};

use crate::record_values::tool_of;
use scip_query::kind_text;
use scip_records::{Document, Metadata, Occurrence, Range, SymbolInformation, ToolInfo};
use std::alloc::{AllocError, Global};

/// Appends the name and the version of a tool, if they are known.
fn push_tool(text: &mut String, tool: Option<&ToolInfo>) -> Result<(), AllocError>
    ensures { OnOk result (string_bytes text.new ≡ string_bytes text.old ++ tool_text (option_copied tool.entry)) }
{
    match tool {
        Some(tool) => {
            let (name, version) = (tool.name.as_str(), tool.version.as_str());
            write!(text, " {name} {version}")
        }
        None => Ok(()),
    }
}

/// Appends the line of what an index says about itself.
pub(crate) fn push_metadata_line(text: &mut String, metadata: &Metadata) -> Result<(), AllocError>
    ensures { OnOk result (string_bytes text.new ≡ string_bytes text.old ++ metadata_line metadata.now) }
{
    let root = metadata.project_root.as_str();
    write!(text, "metadata {root}")?;
    push_tool(text, tool_of(metadata))?;
    text.push_str("\n")
}

/// Appends the line of a document.
pub(crate) fn push_document_line(text: &mut String, document: &Document) -> Result<(), AllocError>
    ensures { OnOk result (string_bytes text.new ≡ string_bytes text.old ++ document_line document.now) }
{
    let (path, language) = (document.relative_path.as_str(), document.language.as_str());
    let encoding = document.position_encoding;
    writeln!(text, "document {path} {language} {encoding}")
}

/// Appends where a range begins, counted from 1.
fn push_start(text: &mut String, range: Range) -> Result<(), AllocError>
    ensures { OnOk result (string_bytes text.new ≡ string_bytes text.old ++ start_text range) }
{
    let (line, column) = (
        range.start_line() as usize + 1,
        range.start_column() as usize + 1,
    );
    write!(text, ":{line}:{column}")
}

/// Appends where it ends.
fn push_end(text: &mut String, range: Range) -> Result<(), AllocError>
    ensures { OnOk result (string_bytes text.new ≡ string_bytes text.old ++ end_text range) }
{
    let (line, column) = (
        range.end_line() as usize + 1,
        range.end_column() as usize + 1,
    );
    write!(text, "-{line}:{column}")
}

/// Appends roles and a symbol, and ends the line.
fn push_roles(text: &mut String, roles: i32, symbol: &str) -> Result<(), AllocError>
    ensures { OnOk result (string_bytes text.new ≡ string_bytes text.old ++ roles_text roles symbol.now) }
{
    writeln!(text, " {roles} {symbol}")
}

/// Appends the line of an occurrence in the document with a path.
pub(crate) fn push_occurrence_line(
    text: &mut String,
    path: &str,
    occurrence: &Occurrence,
) -> Result<(), AllocError>
    ensures { OnOk result (string_bytes text.new ≡ string_bytes text.old ++ occurrence_line path.now occurrence.now) }
{
    text.push_str("occurrence ")?;
    text.push_str(path)?;
    push_start(text, occurrence.range)?;
    push_end(text, occurrence.range)?;
    push_roles(text, occurrence.symbol_roles, occurrence.symbol.as_str())
}

/// Appends the line of an entry of the document with a path.
pub(crate) fn push_symbol_line(
    alloc: Global,
    text: &mut String,
    path: &str,
    entry: &SymbolInformation,
) -> Result<(), AllocError>
    ensures { OnOk result (string_bytes text.new ≡ string_bytes text.old ++ symbol_line path.now entry.now) }
{
    let kind = kind_text(alloc, entry.details.lent().kind)?;
    let (kind, symbol) = (kind.as_str(), entry.symbol.as_str());
    writeln!(text, "symbol {path} {kind} {symbol}")
}

/// Appends the line of an entry of a symbol that no document defines.
pub(crate) fn push_external_line(
    alloc: Global,
    text: &mut String,
    entry: &SymbolInformation,
) -> Result<(), AllocError>
    ensures { OnOk result (string_bytes text.new ≡ string_bytes text.old ++ external_line entry.now) }
{
    let kind = kind_text(alloc, entry.details.lent().kind)?;
    let (kind, symbol) = (kind.as_str(), entry.symbol.as_str());
    writeln!(text, "external {kind} {symbol}")
}
