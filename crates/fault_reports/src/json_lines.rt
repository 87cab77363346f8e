//! A report as lines of JSON.

ghost use Rattle.std.specs.Prelude.{◌≡◌, ◌++◌, IfOk, OnOk, false};
ghost use Rattle.std.specs.Str.Lossy.{utf8_lossy};
ghost use Rattle.std.specs.List.{flat_map};
ghost use Rattle.std.specs.Option.{option_map};
ghost use Rattle.diagnostics.specs.Literals.{joined};
ghost use Rattle.serde_json.specs.Data.{put as with_member, string};
ghost use Rattle.serde_json.specs.View.{members_view, view};
ghost use Rattle.serde_json.specs.Written.{has_float};
ghost use Rattle.fault_reports.specs.JsonLines.{
  counts_value,
  first_value,
  line_of,
  report_lines,
  text_or_null,
  value_of,
};

use crate::finding::{Counts, Finding, Place};
use crate::values::{number_or_null, text_or_null};
use diagnostics::push_joined;
use serde_json::{Map, Value, json, put};
use std::alloc::{AllocError, Global};

/// The value of a place that a full name is first given at, or of a file that can't be read.
fn first_value(alloc: Global, first: &Option<Place<'_>>) -> Result<Value, AllocError>
    ensures { IfOk result (λ value. view value ≡ first_value first.now) }
{
    let Some(place) = first else {
        return Ok(Value::Null);
    };
    let line = number_or_null(place.line());
    let column = number_or_null(place.column());
    let offset = number_or_null(place.offset());
    let end = number_or_null(place.end_offset());
    json!(in alloc; {
        "column": column,
        "end": end,
        "line": line,
        "offset": offset,
        "path": place.path()
    })
}

/// The value of an import's path.
fn import_value(alloc: Global, import: &Option<&[u8]>) -> Result<Value, AllocError>
    ensures { IfOk result (λ value. view value
        ≡ text_or_null (option_map utf8_lossy (option_map joined (option_map (λ texts. texts.now) import.now)))) }
{
    match import {
        Some(literals) => {
            let mut path = Vec::new(alloc);
            push_joined(&mut path, literals)?;
            Ok(Value::from(String::from_utf8_lossy(alloc, path.as_slice())?))
        }
        None => Ok(Value::Null),
    }
}

/// Puts a text at a key.
fn put_text(
    map: &mut Map<String, Value>,
    alloc: Global,
    key: &str,
    text: &str,
) -> Result<(), AllocError>
    ensures { OnOk result (members_view map.new.entries
        ≡ with_member key.now (string text.now) (members_view map.old.entries)) }
{
    put(map, alloc, key, Value::try_from_str(alloc, text)?)
}

/// The value of a finding.
fn value_of(alloc: Global, finding: &Finding<'_>) -> Result<Value, AllocError>
    ensures { IfOk result (λ value. view value ≡ value_of finding.now) }
{
    let mut map = Map::new(alloc);
    put(&mut map, alloc, "column", number_or_null(finding.column()))?;
    put(&mut map, alloc, "end", number_or_null(finding.end()))?;
    let first = first_value(alloc, &finding.first)?;
    put(&mut map, alloc, "first", first)?;
    let import = import_value(alloc, &finding.import)?;
    put(&mut map, alloc, "import", import)?;
    put_text(&mut map, alloc, "kind", finding.kind.word())?;
    put(&mut map, alloc, "line", number_or_null(finding.line()))?;
    let said = finding.said(alloc)?;
    put_text(&mut map, alloc, "message", said.as_str())?;
    put_text(&mut map, alloc, "name", finding.name)?;
    put(&mut map, alloc, "offset", number_or_null(finding.offset()))?;
    let path = text_or_null(alloc, finding.path())?;
    put(&mut map, alloc, "path", path)?;
    Ok(Value::from(map))
}

/// The value of the counts.
fn counts_value(alloc: Global, counts: &Counts) -> Result<Value, AllocError>
    ensures { IfOk result (λ value. view value ≡ counts_value counts.now) }
{
    json!(in alloc; {
        "imports": counts.imports,
        "kind": "counts",
        "skipped": counts.skipped,
        "sources": counts.sources,
        "status": counts.status,
        "uses": counts.uses
    })
}

/// Appends the line of a value.
pub(crate) fn push_line(alloc: Global, out: &mut Vec<u8>, value: &Value) -> Result<(), AllocError>
    requires { has_float (view value.now) ≡ false }
    ensures { OnOk result (out.new.items ≡ out.old.items ++ line_of (view value.now)) }
{
    let text = value.to_vec(alloc)?;
    out.extend_from_slice(text.as_slice())?;
    Ok(out.push(b'\n')?)
}

/// Appends the line of a finding.
fn push_finding(alloc: Global, out: &mut Vec<u8>, finding: &Finding<'_>) -> Result<(), AllocError>
    ensures { OnOk result (out.new.items ≡ out.old.items ++ line_of (value_of finding.now)) }
{
    let value = value_of(alloc, finding)?;
    push_line(alloc, out, &value)
}

/// Appends the line of each finding.
fn push_findings(
    alloc: Global,
    out: &mut Vec<u8>,
    findings: &[Finding<'_>],
) -> Result<(), AllocError>
    ensures { OnOk result (out.new.items
        ≡ out.old.items ++ flat_map (λ found. line_of (value_of found)) findings.now) }
{
    for finding in findings {
        push_finding(alloc, out, finding)?;
    }
    Ok(())
}

/// A line for each finding, in this order, and a last one with the counts.
pub(crate) fn report_lines(
    alloc: Global,
    findings: &[Finding<'_>],
    counts: &Counts,
) -> Result<Vec<u8>, AllocError>
    ensures { IfOk result (λ bytes. bytes.items ≡ report_lines findings.now counts.now) }
{
    let mut out = Vec::new(alloc);
    push_findings(alloc, &mut out, findings)?;
    let value = counts_value(alloc, counts)?;
    push_line(alloc, &mut out, &value)?;
    Ok(out)
}
