//! What is said of a fault that is nowhere in a file: the name in its line, what explains it, and the exit status.

ghost use Rattle.std.specs.Prelude.{◌≡◌, IfOk, string_bytes};
ghost use Rattle.protoscip.specs.Lines.{plain_line};
ghost use Rattle.programs.specs.FaultTexts.{explained};

use protoscip::plain_line;
use std::alloc::{AllocError, Global};

/// What is said of a fault.
#[derive(Clone, Copy)]
pub(crate) struct FaultText {
    /// The name in its line.
    pub(crate) name: &'static str,
    /// A sentence after a line end; empty for lack of memory.
    pub(crate) explanation: &'static str,
    /// The exit status.
    pub(crate) status: u8,
}

/// The three together.
pub(crate) fn said(name: &'static str, explanation: &'static str, status: u8) -> FaultText
    ensures name { result.name.now ≡ name.now }
    ensures explanation { result.explanation.now ≡ explanation.now }
    ensures status { result.status ≡ status }
{
    FaultText {
        name,
        explanation,
        status,
    }
}

/// A line, explained if that is asked for.
pub(crate) fn explained(
    line: String,
    explanation: &str,
    explain: bool,
) -> Result<String, AllocError>
    ensures { IfOk result (λ text. string_bytes text ≡ explained explain (string_bytes line) explanation.now) }
{
    let mut text = line;
    if explain {
        text.push_str(explanation)?;
    }
    Ok(text)
}

/// The line of a fault, without its end, explained if that is asked for.
pub(crate) fn told(alloc: Global, text: FaultText, explain: bool) -> Result<String, AllocError>
    ensures { IfOk result (λ told. string_bytes told
        ≡ explained explain (plain_line text.name.now) text.explanation.now) }
{
    let line = plain_line(alloc, text.name)?;
    explained(line, text.explanation, explain)
}
