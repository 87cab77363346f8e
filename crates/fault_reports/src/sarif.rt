//! A report as a log in SARIF.

ghost use Rattle.std.specs.Prelude.{◌≡◌, ◌++◌, [], ◌∷◌, IfOk, OnOk, map, option_copied};
ghost use Rattle.std.specs.List.{find};
ghost use Rattle.std.specs.Str.{bytes_eq};
ghost use Rattle.std.specs.String.{string_bytes};
ghost use Rattle.percent_encoding.specs.Percent.{percent_encode};
ghost use Rattle.serde_json.specs.View.{items_view, view};
ghost use Rattle.fault_reports.specs.Findings.{Found};
ghost use Rattle.fault_reports.specs.Sarif.{
  escaped,
  first_message,
  is_among,
  locations_value,
  log_value,
  message_or_none,
  message_value,
  new_names,
  physical_value,
  point_value,
  range_value,
  region_value,
  related_value,
  result_value,
  rule_value,
  rules_value,
  run_value,
  tool_value,
  with_name,
};

use crate::finding::{Finding, FindingKind, Place, Point};
use crate::rules::lexing_text;
use basics::tool::{NAME, VERSION};
use percent_encoding::{AsciiSet, NON_ALPHANUMERIC, ascii_set, percent_encode};
use serde_json::{Value, json};
use std::alloc::{AllocError, Global};

/// Where more is said of faults.
const HELP: &str =
    "docs/USAGE.md of protoscip has an example of each fault, and what --explain says of it.";

/// The bytes of a path that are escaped in a URI: all but letters, digits, `-`, `.`, `_`, `~`, and `/`.
const ESCAPED: AsciiSet = ascii_set!(
    NON_ALPHANUMERIC
        .remove(b'-')
        .remove(b'.')
        .remove(b'_')
        .remove(b'~')
        .remove(b'/')
);

/// The value of a text in a message.
fn message_value(alloc: Global, text: &str) -> Result<Value, AllocError>
    ensures { IfOk result (λ value. view value ≡ message_value text.now) }
{
    json!(in alloc; {"text": text})
}

/// A path as a relative reference.
fn reference_to(alloc: Global, path: &[u8]) -> Result<String, AllocError>
    ensures { IfOk result (λ text. string_bytes text ≡ percent_encode escaped path.now) }
{
    let mut text = String::new(alloc);
    percent_encode(path, ESCAPED).append_to(&mut text)?;
    Ok(text)
}

/// The value of a place, up to the end of its line.
fn point_value(alloc: Global, start: Point) -> Result<Value, AllocError>
    ensures { IfOk result (λ value. view value ≡ point_value start) }
{
    json!(in alloc; {
        "byteOffset": start.at,
        "startColumn": start.column,
        "startLine": start.line
    })
}

/// The value of a place up to its end.
fn range_value(alloc: Global, start: Point, end: Point) -> Result<Value, AllocError>
    ensures { IfOk result (λ value. view value ≡ range_value start end) }
{
    json!(in alloc; {
        "byteLength": end.at.saturating_sub(start.at),
        "byteOffset": start.at,
        "endColumn": end.column,
        "endLine": end.line,
        "startColumn": start.column,
        "startLine": start.line
    })
}

/// The value of a place, up to its end if that is known.
fn region_value(alloc: Global, start: Point, end: Option<Point>) -> Result<Value, AllocError>
    ensures { IfOk result (λ value. view value ≡ region_value start end) }
{
    match end {
        Some(end) => range_value(alloc, start, end),
        None => point_value(alloc, start),
    }
}

/// The value of a file, and of a place of it.
fn physical_value(alloc: Global, place: &Place<'_>) -> Result<Value, AllocError>
    ensures { IfOk result (λ value. view value ≡ physical_value place.now) }
{
    let uri = reference_to(alloc, place.bytes())?;
    match place.start() {
        Some(start) => {
            let region = region_value(alloc, start, place.end())?;
            json!(in alloc; {"artifactLocation": {"uri": uri}, "region": region})
        }
        None => json!(in alloc; {"artifactLocation": {"uri": uri}}),
    }
}

/// The value of where a finding is.
fn locations_value(alloc: Global, place: &Option<Place<'_>>) -> Result<Value, AllocError>
    ensures { IfOk result (λ value. view value ≡ locations_value place.now) }
{
    let Some(place) = place else {
        return json!(in alloc; []);
    };
    let physical = physical_value(alloc, place)?;
    json!(in alloc; [{"physicalLocation": physical}])
}

/// The value of where a full name is first given, or of a file that can't be read.
fn related_value(
    alloc: Global,
    kind: FindingKind,
    first: &Option<Place<'_>>,
) -> Result<Value, AllocError>
    ensures { IfOk result (λ value. view value ≡ related_value kind first.now) }
{
    let Some(place) = first else {
        return json!(in alloc; []);
    };
    let message = message_value(alloc, kind.related())?;
    let physical = physical_value(alloc, place)?;
    json!(in alloc; [{"message": message, "physicalLocation": physical}])
}

/// The value of a result.
fn result_value(alloc: Global, finding: &Finding<'_>) -> Result<Value, AllocError>
    ensures { IfOk result (λ value. view value ≡ result_value finding.now) }
{
    let locations = locations_value(alloc, &finding.place)?;
    let said = finding.said(alloc)?;
    let message = message_value(alloc, said.as_str())?;
    let related = related_value(alloc, finding.kind, &finding.first)?;
    json!(in alloc; {
        "level": finding.kind.level(),
        "locations": locations,
        "message": message,
        "relatedLocations": related,
        "ruleId": finding.name
    })
}

/// Appends the result of a finding.
fn push_result(
    alloc: Global,
    results: &mut Vec<Value>,
    finding: &Finding<'_>,
) -> Result<(), AllocError>
    ensures { OnOk result (map view results.new.items ≡ map view results.old.items ++ result_value finding.now ∷ []) }
{
    let value = result_value(alloc, finding)?;
    Ok(results.push(value)?)
}

/// The results of findings.
fn results_of(alloc: Global, findings: &[Finding<'_>]) -> Result<Vec<Value>, AllocError>
    ensures { IfOk result (λ results. map view results.items ≡ map result_value findings.now) }
{
    let mut results = Vec::new(alloc);
    for finding in findings {
        push_result(alloc, &mut results, finding)?;
    }
    Ok(results)
}

/// Whether a name is one of these.
fn is_among(names: &[&str], name: &str) -> bool
    ensures { result ≡ is_among (map (λ other. other.now) names.now) name.now }
{
    match names {
        [] => false,
        [first, others @ ..] => *first == name || is_among(others, name),
    }
}

/// Appends a name, if it isn't there.
fn push_name<'a>(names: &mut Vec<&'a str>, name: &'a str) -> Result<(), AllocError>
    ensures { OnOk result (map (λ other. other.now) names.new.items
        ≡ with_name (map (λ other. other.now) names.old.items) name.now) }
{
    if is_among(names.as_slice(), name) {
        return Ok(());
    }
    Ok(names.push(name)?)
}

/// The names of findings, each once, in the order in which they first come.
fn names_of<'a>(alloc: Global, findings: &[Finding<'a>]) -> Result<Vec<&'a str>, AllocError>
    ensures { IfOk result (λ names. map (λ name. name.now) names.items
        ≡ new_names [] (map (λ found. found.name) findings.now)) }
{
    let mut names = Vec::new(alloc);
    for finding in findings {
        push_name(&mut names, finding.name())?;
    }
    Ok(names)
}

/// Whether a finding has a name.
fn has_name(finding: &Finding<'_>, name: &str) -> bool
    ensures { result ≡ bytes_eq finding.now.name name.now }
{
    finding.name() == name
}

/// The first finding with a name.
fn first_of<'a, 'b>(findings: &'a [Finding<'b>], name: &str) -> Option<&'a Finding<'b>>
    ensures { option_copied result ≡ find (λ (found : Found). bytes_eq found.name name.now) findings.now }
{
    findings.iter().find(|finding| has_name(*finding, name))
}

/// What is said of a finding; no text if there is none.
fn message_in<'a>(finding: Option<&'a Finding<'_>>) -> &'a str
    ensures { result.now ≡ message_or_none (option_copied finding.entry) }
{
    match finding {
        Some(finding) => finding.message,
        None => "",
    }
}

/// What is said of the first finding with a name.
fn first_message<'a>(findings: &'a [Finding<'_>], name: &str) -> &'a str
    ensures { result.now ≡ first_message findings.now name.now }
{
    message_in(first_of(findings, name))
}

/// The value of a rule.
fn rule_value(alloc: Global, findings: &[Finding<'_>], name: &str) -> Result<Value, AllocError>
    ensures { IfOk result (λ value. view value ≡ rule_value findings.now name.now) }
{
    let full = message_value(alloc, lexing_text(name))?;
    let help = message_value(alloc, HELP)?;
    let short = message_value(alloc, first_message(findings, name))?;
    json!(in alloc; {
        "fullDescription": full,
        "help": help,
        "id": name,
        "shortDescription": short
    })
}

/// Appends the value of a rule.
fn push_rule(
    alloc: Global,
    rules: &mut Vec<Value>,
    findings: &[Finding<'_>],
    name: &str,
) -> Result<(), AllocError>
    ensures { OnOk result (map view rules.new.items ≡ map view rules.old.items
        ++ rule_value findings.now name.now ∷ []) }
{
    let value = rule_value(alloc, findings, name)?;
    Ok(rules.push(value)?)
}

/// The values of rules.
fn rules_of(
    alloc: Global,
    findings: &[Finding<'_>],
    names: &[&str],
) -> Result<Vec<Value>, AllocError>
    ensures { IfOk result (λ rules. map view rules.items
        ≡ map (λ name. rule_value findings.now name.now) names.now) }
{
    let mut rules = Vec::new(alloc);
    for name in names {
        push_rule(alloc, &mut rules, findings, *name)?;
    }
    Ok(rules)
}

/// The value of the rules of findings.
fn rules_value(alloc: Global, findings: &[Finding<'_>]) -> Result<Value, AllocError>
    ensures { IfOk result (λ value. view value ≡ rules_value findings.now) }
{
    let names = names_of(alloc, findings)?;
    Ok(Value::from(rules_of(alloc, findings, names.as_slice())?))
}

/// The value of the tool.
fn tool_value(alloc: Global, findings: &[Finding<'_>]) -> Result<Value, AllocError>
    ensures { IfOk result (λ value. view value ≡ tool_value findings.now) }
{
    let rules = rules_value(alloc, findings)?;
    json!(in alloc; {"driver": {"name": NAME, "rules": rules, "version": VERSION}})
}

/// The value of the run.
fn run_value(alloc: Global, findings: &[Finding<'_>]) -> Result<Value, AllocError>
    ensures { IfOk result (λ value. view value ≡ run_value findings.now) }
{
    let results = results_of(alloc, findings)?;
    let tool = tool_value(alloc, findings)?;
    json!(in alloc; {"columnKind": "unicodeCodePoints", "results": results, "tool": tool})
}

/// The value of the log.
pub(crate) fn log_value(alloc: Global, findings: &[Finding<'_>]) -> Result<Value, AllocError>
    ensures { IfOk result (λ value. view value ≡ log_value findings.now) }
{
    let run = run_value(alloc, findings)?;
    json!(in alloc; {
        "$schema": "https://json.schemastore.org/sarif-2.1.0.json",
        "runs": [run],
        "version": "2.1.0"
    })
}
