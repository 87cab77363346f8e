//! What the entry of a symbol says, below its definition.

ghost use Rattle.std.specs.Prelude.{◌≡◌, ◌++◌, ℕ, List, map, codes, OnOk, option_copied};
ghost use Rattle.std.specs.Borrow.{Bor};
ghost use Rattle.std.specs.List.{flat_map};
ghost use Rattle.scip_records.specs.Texts.{unless_empty};
ghost use Rattle.scip_query.specs.Kinds.{kind_text};
ghost use Rattle.scip_pages.specs.Snapshot as spec;

use crate::lines::lines_of;
use crate::snapshots::push_below;
use basics::OwnedText;
use scip_query::{kind_in, kind_text, signature_in, texts_of};
use scip_records::SymbolInformation;
use std::alloc::{AllocError, Global};

/// Appends a line that says what a definition is.
fn push_known_kind(
    alloc: Global,
    text: &mut Vec<u8>,
    before: &[u8],
    kind: i32,
) -> Result<(), AllocError>
    ensures { OnOk result (text.new.items ≡ text.old.items ++ spec.comment (spec.below 32 before.now
        ++ codes "kind " ++ kind_text kind)) }
{
    let name = kind_text(alloc, kind)?;
    text.extend_from_slice(b"//")?;
    push_below(text, b' ', before)?;
    text.extend_from_slice(b"kind ")?;
    text.extend_from_slice(name.as_str().as_bytes())?;
    text.extend_from_slice(b"\n")
}

/// The same, if that is known.
fn push_kind(alloc: Global, text: &mut Vec<u8>, before: &[u8], kind: i32) -> Result<(), AllocError>
    ensures { OnOk result (text.new.items ≡ text.old.items ++ spec.kind_line before.now kind) }
{
    if kind == 0 {
        Ok(())
    } else {
        push_known_kind(alloc, text, before, kind)
    }
}

/// Appends a line of a text.
fn push_note_line(text: &mut Vec<u8>, before: &[u8], line: &str) -> Result<(), AllocError>
    ensures { OnOk result (text.new.items ≡ text.old.items ++ spec.note_line before.now line.now) }
{
    text.extend_from_slice(b"//")?;
    push_below(text, b' ', before)?;
    text.extend_from_slice(b"> ")?;
    text.extend_from_slice(line.as_bytes())?;
    text.extend_from_slice(b"\n")
}

/// Appends lines of a text.
fn push_note_lines(text: &mut Vec<u8>, before: &[u8], lines: &[&str]) -> Result<(), AllocError>
    ensures { OnOk result (text.new.items ≡ text.old.items ++ flat_map (spec.note_line before.now)
        (map (λ (line : Bor (List ℕ)). line.now) lines.now)) }
{
    for line in lines {
        push_note_line(text, before, *line)?;
    }
    Ok(())
}

/// Appends what a text is that comes below.
fn push_note_head(text: &mut Vec<u8>, head: &[u8], before: &[u8]) -> Result<(), AllocError>
    ensures { OnOk result (text.new.items ≡ text.old.items ++ spec.note_head head.now before.now) }
{
    text.extend_from_slice(b"//")?;
    push_below(text, b' ', before)?;
    text.extend_from_slice(head)?;
    text.extend_from_slice(b"\n")?;
    Ok(())
}

/// Appends what a text is, and the text.
fn push_note(
    alloc: Global,
    text: &mut Vec<u8>,
    head: &[u8],
    before: &[u8],
    shown: &str,
) -> Result<(), AllocError>
    ensures { OnOk result (text.new.items ≡ text.old.items ++ spec.note head.now before.now shown.now) }
{
    push_note_head(text, head, before)?;
    let lines = lines_of(alloc, shown)?;
    push_note_lines(text, before, lines.as_slice())
}

/// Appends the text of a signature.
fn push_signature_text(
    alloc: Global,
    text: &mut Vec<u8>,
    before: &[u8],
    signature: &str,
) -> Result<(), AllocError>
    ensures { OnOk result (text.new.items ≡ text.old.items ++ spec.signature_note before.now signature.now) }
{
    push_note(alloc, text, b"signature_documentation", before, signature)
}

/// The same, if it isn't empty.
fn push_signature(
    alloc: Global,
    text: &mut Vec<u8>,
    before: &[u8],
    signature: &str,
) -> Result<(), AllocError>
    ensures { OnOk result (text.new.items ≡ text.old.items ++ flat_map (spec.signature_note before.now)
        (unless_empty signature.now)) }
{
    if signature.is_empty() {
        Ok(())
    } else {
        push_signature_text(alloc, text, before, signature)
    }
}

/// Appends a text of documentation.
fn push_documentation_text(
    alloc: Global,
    text: &mut Vec<u8>,
    before: &[u8],
    documentation: &str,
) -> Result<(), AllocError>
    ensures { OnOk result (text.new.items ≡ text.old.items ++ spec.documentation_note before.now documentation.now) }
{
    push_note(alloc, text, b"documentation", before, documentation)
}

/// Appends texts of documentation.
fn push_documentation(
    alloc: Global,
    text: &mut Vec<u8>,
    before: &[u8],
    texts: &[OwnedText],
) -> Result<(), AllocError>
    ensures { OnOk result (text.new.items ≡ text.old.items ++ flat_map (spec.documentation_note before.now) texts.now) }
{
    for documentation in texts {
        push_documentation_text(alloc, text, before, documentation.as_str())?;
    }
    Ok(())
}

/// Appends what the entry of a definition's symbol says.
pub(crate) fn push_about(
    alloc: Global,
    text: &mut Vec<u8>,
    before: &[u8],
    entry: Option<&SymbolInformation>,
) -> Result<(), AllocError>
    ensures { OnOk result (text.new.items ≡ text.old.items ++ spec.about before.now (option_copied entry.entry)) }
{
    push_kind(alloc, text, before, kind_in(entry))?;
    push_signature(alloc, text, before, signature_in(entry))?;
    push_documentation(alloc, text, before, texts_of(entry))
}
