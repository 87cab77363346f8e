//! The records of an index in JSON.

ghost use Rattle.std.specs.Prelude.{◌≡◌, IfOk, option_copied};
ghost use Rattle.serde_json.specs.View.{view};
ghost use Rattle.scip_survey.specs.RecordValues as spec;

use scip_query::{entry_value, owned_values, range_value};
use scip_records::{Document, Metadata, Occurrence, Range, SymbolInformation, ToolInfo};
use serde_json::{Value, json};
use std::alloc::{AllocError, Global};

/// The value of a range; no numbers if there is none.
pub(crate) fn range_or_none(alloc: Global, range: Option<Range>) -> Result<Value, AllocError>
    ensures { IfOk result (λ value. view value ≡ spec.range_or_none range) }
{
    match range {
        Some(range) => range_value(alloc, range),
        None => json!(in alloc; []),
    }
}

/// The value of what made an index.
fn tool_value(alloc: Global, tool: Option<&ToolInfo>) -> Result<Value, AllocError>
    ensures { IfOk result (λ value. view value ≡ spec.tool_value (option_copied tool.entry)) }
{
    match tool {
        Some(tool) => {
            let arguments = Value::from(owned_values(alloc, tool.arguments.as_slice())?);
            json!(in alloc; {
                "arguments": arguments,
                "name": tool.name.as_str(),
                "version": tool.version.as_str()
            })
        }
        None => json!(in alloc; {}),
    }
}

/// What made an index, if it says so.
pub(crate) fn tool_of(metadata: &Metadata) -> Option<&ToolInfo>
    ensures { option_copied result ≡ metadata.now.tool_info }
{
    metadata.tool_info.as_ref()
}

/// The object of what an index says about itself.
fn metadata_object(alloc: Global, metadata: &Metadata) -> Result<Value, AllocError>
    ensures { IfOk result (λ value. view value ≡ spec.metadata_object metadata.now) }
{
    let tool = tool_value(alloc, tool_of(metadata))?;
    json!(in alloc; {
        "project_root": metadata.project_root.as_str(),
        "text_document_encoding": metadata.text_document_encoding,
        "tool_info": tool,
        "version": metadata.version
    })
}

/// The value of what an index says about itself.
pub(crate) fn metadata_value(alloc: Global, metadata: &Metadata) -> Result<Value, AllocError>
    ensures { IfOk result (λ value. view value ≡ spec.metadata_value metadata.now) }
{
    let value = metadata_object(alloc, metadata)?;
    json!(in alloc; {"metadata": value})
}

/// The value of a document.
pub(crate) fn document_value(alloc: Global, document: &Document) -> Result<Value, AllocError>
    ensures { IfOk result (λ value. view value ≡ spec.document_value document.now) }
{
    let value = json!(in alloc; {
        "language": document.language.as_str(),
        "path": document.relative_path.as_str(),
        "position_encoding": document.position_encoding
    })?;
    json!(in alloc; {"document": value})
}

/// The object of an occurrence in the document with a path.
fn occurrence_object(
    alloc: Global,
    path: &str,
    occurrence: &Occurrence,
) -> Result<Value, AllocError>
    ensures { IfOk result (λ value. view value ≡ spec.occurrence_object path.now occurrence.now) }
{
    let enclosing = range_or_none(alloc, occurrence.enclosing_range)?;
    let range = range_value(alloc, occurrence.range)?;
    json!(in alloc; {
        "enclosing_range": enclosing,
        "path": path,
        "range": range,
        "roles": occurrence.symbol_roles,
        "symbol": occurrence.symbol.as_str()
    })
}

/// The value of an occurrence in the document with a path.
pub(crate) fn occurrence_value(
    alloc: Global,
    path: &str,
    occurrence: &Occurrence,
) -> Result<Value, AllocError>
    ensures { IfOk result (λ value. view value ≡ spec.occurrence_value path.now occurrence.now) }
{
    let value = occurrence_object(alloc, path, occurrence)?;
    json!(in alloc; {"occurrence": value})
}

/// The value of an entry of the document with a path.
pub(crate) fn symbol_value(
    alloc: Global,
    path: &str,
    entry: &SymbolInformation,
) -> Result<Value, AllocError>
    ensures { IfOk result (λ value. view value ≡ spec.symbol_value path.now entry.now) }
{
    let entry = entry_value(alloc, entry)?;
    let value = json!(in alloc; {"entry": entry, "path": path})?;
    json!(in alloc; {"symbol": value})
}

/// The value of an entry of a symbol that no document defines.
pub(crate) fn external_value(alloc: Global, entry: &SymbolInformation) -> Result<Value, AllocError>
    ensures { IfOk result (λ value. view value ≡ spec.external_value entry.now) }
{
    let entry = entry_value(alloc, entry)?;
    let value = json!(in alloc; {"entry": entry})?;
    json!(in alloc; {"external_symbol": value})
}
