//! Reports of faults for programs: what is wrong with a tree, or what its index lacks, as lines of JSON, or as a log in
//! SARIF.
//!
//! A `Finding` is one thing. `report_bytes` gives the report of a list of them: each in its order, and none besides.
#![tactic(auto)]

// What a report tells.
mod finding;

// Its two forms.
mod json_lines;
mod rules;
mod sarif;
mod values;

// The whole report.
mod report;

pub use finding::{Counts, Finding, FindingKind, Place};
pub use report::{ReportFormat, report_bytes};
