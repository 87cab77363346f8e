//! A whole report.

ghost use Rattle.std.specs.Prelude.{◌≡◌, IfOk};
ghost use Rattle.fault_reports.specs.JsonLines.{line_of};
ghost use Rattle.fault_reports.specs.Reports.{report_of};
ghost use Rattle.fault_reports.specs.Sarif.{log_value};

use crate::finding::{Counts, Finding};
use crate::json_lines::{push_line, report_lines};
use crate::sarif::log_value;
use std::alloc::{AllocError, Global};

/// In which form a report is written.
#[derive(Clone, Copy, Debug, PartialEq, Eq)]
pub enum ReportFormat {
    /// Lines of JSON: an object for each finding, and one with the counts.
    JsonLines,
    /// One log in SARIF 2.1.0.
    Sarif,
}

/// The line of a log in SARIF.
fn log_line(alloc: Global, findings: &[Finding<'_>]) -> Result<Vec<u8>, AllocError>
    ensures { IfOk result (λ bytes. bytes.items ≡ line_of (log_value findings.now)) }
{
    let log = log_value(alloc, findings)?;
    let mut out = Vec::new(alloc);
    push_line(alloc, &mut out, &log)?;
    Ok(out)
}

/// The bytes of a report that tells these findings, in this order, and no others.
pub fn report_bytes(
    alloc: Global,
    format: ReportFormat,
    findings: &[Finding<'_>],
    counts: &Counts,
) -> Result<Vec<u8>, AllocError>
    ensures { IfOk result (λ bytes. bytes.items ≡ report_of format findings.now counts.now) }
{
    match format {
        ReportFormat::JsonLines => report_lines(alloc, findings, counts),
        ReportFormat::Sarif => log_line(alloc, findings),
    }
}
