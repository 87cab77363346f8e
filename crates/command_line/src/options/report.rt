//! `--report` and `--report-format`: the report that is made, and its form.

ghost use Rattle.std.specs.Prelude.{◌≡◌, IfOk};
ghost use Rattle.clap.specs.Words.{found_of, rows_of, rule_of, subcommand_rows_of};
ghost use Rattle.command_line.specs.Options.Report.{
  CarriesReport,
  format_in,
  format_of,
  format_rule,
  lacks_report,
  report_rule,
};
ghost use Rattle.command_line.specs.Values.{rows_in};

use crate::arguments::{option, taking_words};
use crate::values::{first_of, is_given, optional_text_of};
use clap::{Arg, ArgMatches};
use fault_reports::ReportFormat;
use std::alloc::{AllocError, Global};

const REPORT: &str = "report";

const REPORT_FORMAT: &str = "report-format";

/// The words of the second.
pub(crate) static WORDS: [&str; 2] = ["jsonl", "sarif"];

/// Why a form for a report is refused that has no file.
pub(crate) const FORM_ALONE: &str =
    "'--report-format <WORD>' can't be used without '--report <FILE>'";

/// The report that `index` and `shell` make.
#[derive(Debug, Drop)]
pub struct ReportOptions {
    /// The path of the file that it goes to; no report is made if it isn't given.
    pub path: Option<String>,
    /// In which form; lines of JSON if it isn't given.
    pub format: ReportFormat,
}

/// The option on its file.
pub(crate) fn report<'a>(alloc: Global) -> Arg<'a>
    ensures { rule_of result ≡ report_rule }
{
    let help = "Writes a report to this file: each fault, and what the index leaves out or lacks";
    option(alloc, REPORT, "FILE", help)
}

/// The option on its form.
pub(crate) fn report_format<'a>(alloc: Global, words: &'a [&'a str]) -> Arg<'a>
    ensures { rule_of result ≡ format_rule words.entry }
{
    let help = "The form of the report, jsonl if not given: lines of JSON, or SARIF for code hosts";
    taking_words(option(alloc, REPORT_FORMAT, "WORD", help), words)
}

/// What a word says. `clap` takes no other text than these words.
fn format_in(text: &str) -> ReportFormat
    ensures { result ≡ format_in text.now }
{
    match text {
        "sarif" => ReportFormat::Sarif,
        _ => ReportFormat::JsonLines,
    }
}

/// What is said, or the default.
fn format_of(given: &ArgMatches<'_>) -> ReportFormat
    ensures { result ≡ format_of (rows_of (found_of given.now)) }
{
    match first_of(given, REPORT_FORMAT) {
        Some(text) => format_in(text),
        None => ReportFormat::JsonLines,
    }
}

/// The report that is asked for.
pub(crate) fn report_options_of(
    alloc: Global,
    given: &ArgMatches<'_>,
) -> Result<ReportOptions, AllocError>
    ensures { IfOk result (CarriesReport (rows_of (found_of given.now))) }
{
    Ok(ReportOptions {
        path: optional_text_of(alloc, given, REPORT)?,
        format: format_of(given),
    })
}

/// Whether the program that is named is given a form for its report, and no file.
pub(crate) fn lacks_report(matches: &ArgMatches<'_>) -> bool
    ensures { result ≡ lacks_report (rows_in (subcommand_rows_of matches.now)) }
{
    match matches.subcommand() {
        Some((_, given)) => is_given(given, REPORT_FORMAT) && !is_given(given, REPORT),
        None => false,
    }
}
