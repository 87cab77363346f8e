//! Answers as JSON.

ghost use Rattle.std.specs.Prelude.{◌≡◌, ◌≤◌, ◌++◌, [], ◌∷◌, false, IfOk, OnOk, map};
ghost use Rattle.std.specs.String.{string_bytes};
ghost use Rattle.serde_json.specs.Data.{array, depth, member, no_members, object, string};
ghost use Rattle.serde_json.specs.Read.{max_depth};
ghost use Rattle.serde_json.specs.View.{items_of, view};
ghost use Rattle.serde_json.specs.Written.{has_float};
ghost use Rattle.scip_query.specs.CommandViews.{text_of};
ghost use Rattle.scip_query.specs.JsonAnswers.{
  IsReadBack,
  answer_value,
  entry_value,
  error_value,
  found_value,
  json_line,
  miss_value,
  outlined_value,
  range_value,
  site_value,
};
ghost use Rattle.scip_query.specs.MoreViews.{answer_view, entry_view, found_view, outlined_view, site_view};

use crate::answers::Answer;
use crate::finding::Found;
use crate::kinds::kind_text;
use crate::miss::Miss;
use crate::outline::Outlined;
use crate::site::Site;
use basics::OwnedText;
use scip_records::{Range, SymbolInformation, SymbolRef};
use serde_json::{Map, Value, json, put};
use std::alloc::{AllocError, Global};

/// The value of a range: four numbers.
pub fn range_value(alloc: Global, range: Range) -> Result<Value, AllocError>
    ensures { IfOk result (λ value. view value ≡ range_value range) }
{
    json!(in alloc; [
        range.start_line(),
        range.start_column(),
        range.end_line(),
        range.end_column()
    ])
}

/// The value of an occurrence.
fn site_value(alloc: Global, site: &Site<'_>) -> Result<Value, AllocError>
    ensures { IfOk result (λ value. view value ≡ site_value (site_view site.now)) }
{
    let occurrence = site.occurrence;
    let range = range_value(alloc, occurrence.range)?;
    json!(in alloc; {
        "path": site.document.relative_path.as_str(),
        "range": range,
        "roles": occurrence.symbol_roles,
        "symbol": occurrence.symbol.as_str()
    })
}

/// Appends the value of a text.
fn push_text(values: &mut Vec<Value>, alloc: Global, text: &str) -> Result<(), AllocError>
    ensures { OnOk result (map view values.new.items ≡ map view values.old.items ++ string text.now ∷ []) }
{
    let value = Value::try_from_str(alloc, text)?;
    Ok(values.push(value)?)
}

/// The values of texts that are owned.
pub fn owned_values(alloc: Global, texts: &[OwnedText]) -> Result<Vec<Value>, AllocError>
    ensures { IfOk result (λ values. map view values.items ≡ map string texts.now) }
{
    let mut values = Vec::new(alloc);
    for text in texts {
        push_text(&mut values, alloc, text.as_str())?;
    }
    Ok(values)
}

/// A symbol that is lent, as one text.
fn symbol_text(alloc: Global, symbol: &SymbolRef<'_>) -> Result<String, AllocError>
    ensures { IfOk result (λ text. string_bytes text ≡ symbol.now) }
{
    let mut text = String::from_str(alloc, symbol.front)?;
    text.push_str(symbol.rest)?;
    Ok(text)
}

/// The value of a symbol's entry.
pub fn entry_value(alloc: Global, entry: &SymbolInformation) -> Result<Value, AllocError>
    ensures { IfOk result (λ value. view value ≡ entry_value entry.now) }
{
    let details = entry.details.lent();
    let documentation = Value::from(owned_values(alloc, entry.documentation.as_slice())?);
    let enclosing = symbol_text(alloc, &details.enclosing_symbol)?;
    let kind = kind_text(alloc, details.kind)?;
    json!(in alloc; {
        "display_name": entry.display_name.as_str(),
        "documentation": documentation,
        "enclosing_symbol": enclosing,
        "kind": kind,
        "signature": details.signature.text,
        "symbol": entry.symbol.as_str()
    })
}

/// The value of a definition in an outline.
fn outlined_value(alloc: Global, outlined: &Outlined<'_>) -> Result<Value, AllocError>
    ensures { IfOk result (λ value. view value ≡ outlined_value (outlined_view outlined.now)) }
{
    let occurrence = outlined.occurrence;
    let kind = kind_text(alloc, outlined.kind)?;
    let range = range_value(alloc, occurrence.range)?;
    json!(in alloc; {
        "depth": outlined.depth,
        "kind": kind,
        "range": range,
        "symbol": occurrence.symbol.as_str()
    })
}

/// The value of a definition that is found.
fn found_value(alloc: Global, found: &Found<'_>) -> Result<Value, AllocError>
    ensures { IfOk result (λ value. view value ≡ found_value (found_view found.now)) }
{
    let occurrence = found.occurrence;
    let range = range_value(alloc, occurrence.range)?;
    json!(in alloc; {
        "exact": found.exact,
        "path": found.path,
        "range": range,
        "roles": occurrence.symbol_roles,
        "symbol": occurrence.symbol.as_str()
    })
}

/// Appends the value of an occurrence.
fn push_site(values: &mut Vec<Value>, alloc: Global, site: &Site<'_>) -> Result<(), AllocError>
    ensures { OnOk result (map view values.new.items ≡ map view values.old.items
        ++ site_value (site_view site.now) ∷ []) }
{
    let value = site_value(alloc, site)?;
    Ok(values.push(value)?)
}

/// The values of occurrences.
fn site_values(alloc: Global, sites: &[Site<'_>]) -> Result<Vec<Value>, AllocError>
    ensures { IfOk result (λ values. map view values.items ≡ map site_value (map site_view sites.now)) }
{
    let mut values = Vec::new(alloc);
    for site in sites {
        push_site(&mut values, alloc, site)?;
    }
    Ok(values)
}

/// The values of texts.
fn text_values(alloc: Global, texts: &[&str]) -> Result<Vec<Value>, AllocError>
    ensures { IfOk result (λ values. map view values.items ≡ map string (map text_of texts.now)) }
{
    let mut values = Vec::new(alloc);
    for text in texts {
        push_text(&mut values, alloc, *text)?;
    }
    Ok(values)
}

/// Appends the value of an entry.
fn push_entry(
    values: &mut Vec<Value>,
    alloc: Global,
    entry: &SymbolInformation,
) -> Result<(), AllocError>
    ensures { OnOk result (map view values.new.items ≡ map view values.old.items ++ entry_value entry.now ∷ []) }
{
    let value = entry_value(alloc, entry)?;
    Ok(values.push(value)?)
}

/// The values of entries.
fn entry_values(alloc: Global, entries: &[&SymbolInformation]) -> Result<Vec<Value>, AllocError>
    ensures { IfOk result (λ values. map view values.items ≡ map entry_value (map entry_view entries.now)) }
{
    let mut values = Vec::new(alloc);
    for entry in entries {
        push_entry(&mut values, alloc, *entry)?;
    }
    Ok(values)
}

/// Appends the value of a definition in an outline.
fn push_outlined(
    values: &mut Vec<Value>,
    alloc: Global,
    outlined: &Outlined<'_>,
) -> Result<(), AllocError>
    ensures { OnOk result (map view values.new.items ≡ map view values.old.items
        ++ outlined_value (outlined_view outlined.now) ∷ []) }
{
    let value = outlined_value(alloc, outlined)?;
    Ok(values.push(value)?)
}

/// The values of an outline.
fn outline_values(alloc: Global, outline: &[Outlined<'_>]) -> Result<Vec<Value>, AllocError>
    ensures { IfOk result (λ values. map view values.items ≡ map outlined_value (map outlined_view outline.now)) }
{
    let mut values = Vec::new(alloc);
    for outlined in outline {
        push_outlined(&mut values, alloc, outlined)?;
    }
    Ok(values)
}

/// Appends the value of a definition that is found.
fn push_found(values: &mut Vec<Value>, alloc: Global, found: &Found<'_>) -> Result<(), AllocError>
    ensures { OnOk result (map view values.new.items ≡ map view values.old.items
        ++ found_value (found_view found.now) ∷ []) }
{
    let value = found_value(alloc, found)?;
    Ok(values.push(value)?)
}

/// The values of definitions that are found.
fn found_values(alloc: Global, all: &[Found<'_>]) -> Result<Vec<Value>, AllocError>
    ensures { IfOk result (λ values. map view values.items ≡ map found_value (map found_view all.now)) }
{
    let mut values = Vec::new(alloc);
    for found in all {
        push_found(&mut values, alloc, found)?;
    }
    Ok(values)
}

/// The value of things of a kind.
fn list_value(alloc: Global, key: &str, values: Vec<Value>) -> Result<Value, AllocError>
    ensures { IfOk result (λ value. view value
        ≡ object (member key.now (array (items_of (map view values.items))) no_members)) }
{
    let mut map = Map::new(alloc);
    put(&mut map, alloc, key, Value::from(values))?;
    Ok(Value::from(map))
}

/// The value of an error.
fn error_value(alloc: Global, text: &str) -> Result<Value, AllocError>
    ensures { IfOk result (λ value. view value ≡ error_value text.now) }
{
    json!(in alloc; {"error": text})
}

/// The value of why there is nothing.
fn miss_value(alloc: Global, miss: Miss) -> Result<Value, AllocError>
    ensures { IfOk result (λ value. view value ≡ miss_value miss) }
{
    match miss {
        Miss::NoDocument => error_value(alloc, "no document"),
        Miss::NothingThere => error_value(alloc, "nothing there"),
    }
}

/// The value of an answer.
fn answer_value(alloc: Global, answer: &Answer<'_>) -> Result<Value, AllocError>
    ensures { IfOk result (λ value. view value ≡ answer_value (answer_view answer.now)) }
{
    match answer {
        Answer::Sites(sites) => {
            let values = site_values(alloc, sites.as_slice())?;
            list_value(alloc, "occurrences", values)
        }
        Answer::Texts(texts) => {
            let values = text_values(alloc, texts.as_slice())?;
            list_value(alloc, "texts", values)
        }
        Answer::Entries(entries) => {
            let values = entry_values(alloc, entries.as_slice())?;
            list_value(alloc, "symbols", values)
        }
        Answer::Outline(outline) => {
            let values = outline_values(alloc, outline.as_slice())?;
            list_value(alloc, "outline", values)
        }
        Answer::Found(found) => {
            let values = found_values(alloc, found.as_slice())?;
            list_value(alloc, "definitions", values)
        }
        Answer::Missed(miss) => miss_value(alloc, *miss),
    }
}

/// The line of a value without floats, with a line end.
pub fn json_line_of(alloc: Global, value: &Value) -> Result<String, AllocError>
    requires { has_float (view value.now) ≡ false }
    ensures text { IfOk result (λ text. string_bytes text ≡ json_line (view value.now)) }
    ensures reads_back { IfOk result (λ text. depth (view value.now) ≤ max_depth
        → IsReadBack (string_bytes text) (view value.now)) }
{
    let mut text = value.to_string(alloc)?;
    text.push_str("\n")?;
    Ok(text)
}

/// Appends the line of a value without floats. It is read back, if the value doesn't nest deep.
pub fn push_json_line(alloc: Global, text: &mut String, value: &Value) -> Result<(), AllocError>
    requires { has_float (view value.now) ≡ false }
    ensures text { OnOk result (string_bytes text.new ≡ string_bytes text.old ++ json_line (view value.now)) }
    ensures reads_back { OnOk result (depth (view value.now) ≤ max_depth
        → IsReadBack (json_line (view value.now)) (view value.now)) }
{
    let line = json_line_of(alloc, value)?;
    text.push_str(line.as_str())?;
    Ok(())
}

/// The line of an error.
pub(crate) fn error_line(alloc: Global, text: &str) -> Result<String, AllocError>
    ensures { IfOk result (λ line. string_bytes line ≡ json_line (error_value text.now)) }
{
    let value = error_value(alloc, text)?;
    json_line_of(alloc, &value)
}

/// An answer as a line of JSON: one object, which is read back as the answer's value.
pub fn json_of(alloc: Global, answer: &Answer<'_>) -> Result<String, AllocError>
    ensures line { IfOk result (λ line. string_bytes line ≡ json_line (answer_value (answer_view answer.now))) }
    ensures reads_back { IfOk result (λ line. IsReadBack (string_bytes line) (answer_value (answer_view answer.now))) }
{
    let value = answer_value(alloc, answer)?;
    json_line_of(alloc, &value)
}
