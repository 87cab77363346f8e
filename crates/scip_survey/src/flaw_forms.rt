//! What is wrong with an index, as lines for people, and in JSON.

ghost use Rattle.std.specs.Prelude.{◌≡◌, ◌++◌, IfOk, IsTrue, OnOk, map, option_copied};
ghost use Rattle.std.specs.List.{All};
ghost use Rattle.std.specs.String.{string_bytes};
ghost use Rattle.serde_json.specs.View.{view};
ghost use Rattle.scip_survey.specs.FlawForms as spec;
ghost use Rattle.scip_survey.specs.Views.{flawed_view};

use crate::flaws::{Flaw, Flawed};
use scip_query::{push_json_line, range_value};
use scip_records::Occurrence;
use serde_json::{Value, json};
use std::alloc::{AllocError, Global};

impl Flaw {
    /// Its name.
    pub fn name(self) -> &'static str
        ensures { result.now ≡ spec.name_of self }
    {
        match self {
            Flaw::RepeatedPath => "RepeatedPath",
            Flaw::NoLanguage => "NoLanguage",
            Flaw::NoUnit => "NoUnit",
            Flaw::RangeBackwards => "RangeBackwards",
            Flaw::RangeOutside => "RangeOutside",
            Flaw::NoEntry => "NoEntry",
            Flaw::TwoDefinitions => "TwoDefinitions",
        }
    }
}

/// Appends where an occurrence begins, counted from 1, if it is one's.
fn push_place(text: &mut String, occurrence: Option<&Occurrence>) -> Result<(), AllocError>
    ensures { OnOk result (string_bytes text.new ≡ string_bytes text.old
        ++ spec.place_text (option_copied occurrence.entry)) }
{
    match occurrence {
        Some(occurrence) => {
            let range = occurrence.range;
            let (line, column) = (
                range.start_line() as usize + 1,
                range.start_column() as usize + 1,
            );
            write!(text, ":{line}:{column}")
        }
        None => Ok(()),
    }
}

/// Appends its symbol.
fn push_symbol(text: &mut String, occurrence: Option<&Occurrence>) -> Result<(), AllocError>
    ensures { OnOk result (string_bytes text.new ≡ string_bytes text.old
        ++ spec.symbol_text (option_copied occurrence.entry)) }
{
    match occurrence {
        Some(occurrence) => {
            let symbol = occurrence.symbol.as_str();
            write!(text, " {symbol}")
        }
        None => Ok(()),
    }
}

/// Appends the line of what is wrong.
fn push_line(text: &mut String, flawed: &Flawed<'_>) -> Result<(), AllocError>
    ensures { OnOk result (string_bytes text.new ≡ string_bytes text.old ++ spec.flaw_line (flawed_view flawed.now)) }
{
    text.push_str(flawed.path)?;
    push_place(text, flawed.occurrence)?;
    text.push_str(": ")?;
    text.push_str(flawed.flaw.name())?;
    push_symbol(text, flawed.occurrence)?;
    text.push_str("\n")
}

/// The value of where an occurrence is; no numbers if it isn't one's.
fn range_of(alloc: Global, occurrence: Option<&Occurrence>) -> Result<Value, AllocError>
    ensures { IfOk result (λ value. view value ≡ spec.range_of (option_copied occurrence.entry)) }
{
    match occurrence {
        Some(occurrence) => range_value(alloc, occurrence.range),
        None => json!(in alloc; []),
    }
}

/// The symbol of an occurrence; no text if it isn't one's.
fn symbol_of<'a>(occurrence: Option<&'a Occurrence>) -> &'a str
    ensures { result.now ≡ spec.symbol_of (option_copied occurrence.entry) }
{
    match occurrence {
        Some(occurrence) => occurrence.symbol.as_str(),
        None => "",
    }
}

/// The value of what is wrong.
fn flaw_value(alloc: Global, flawed: &Flawed<'_>) -> Result<Value, AllocError>
    ensures { IfOk result (λ value. view value ≡ spec.flaw_value (flawed_view flawed.now)) }
{
    let range = range_of(alloc, flawed.occurrence)?;
    json!(in alloc; {
        "flaw": flawed.flaw.name(),
        "path": flawed.path,
        "range": range,
        "symbol": symbol_of(flawed.occurrence)
    })
}

/// Appends what is wrong.
fn push_flaw(
    alloc: Global,
    text: &mut String,
    json: bool,
    flawed: &Flawed<'_>,
) -> Result<(), AllocError>
    ensures text { OnOk result (string_bytes text.new ≡ string_bytes text.old
        ++ spec.flaw_text json (flawed_view flawed.now)) }
    ensures reads_back { OnOk result (IsTrue json → spec.ReadsBack (flawed_view flawed.now)) }
{
    if json {
        push_json_line(alloc, text, &flaw_value(alloc, flawed)?)
    } else {
        push_line(text, flawed)
    }
}

/// What is wrong with an index, each on a line, in JSON or for people.
pub fn flaws_text(alloc: Global, json: bool, flaws: &[Flawed<'_>]) -> Result<String, AllocError>
    ensures text { IfOk result (λ text. string_bytes text ≡ spec.flaws_text json (map flawed_view flaws.now)) }
    ensures reads_back { IfOk result (λ _. IsTrue json → All spec.ReadsBack (map flawed_view flaws.now)) }
{
    let mut text = String::new(alloc);
    for flawed in flaws {
        push_flaw(alloc, &mut text, json, flawed)?;
    }
    Ok(text)
}
