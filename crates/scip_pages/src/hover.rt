//! What is shown where a pointer hovers.

ghost use Rattle.std.specs.Prelude.{◌≡◌, ◌≤◌, ◌++◌, List, ℕ, take, drop, IfOk, OnOk, option_copied};
ghost use Rattle.std.specs.List.{flat_map};
ghost use Rattle.scip_records.specs.Texts.{unless_empty};
ghost use Rattle.scip_pages.specs.Columns.{is_uncut};
ghost use Rattle.scip_pages.specs.Hover as spec;
ghost use Rattle.scip_pages.specs.Targets.{below, hover_of};

use crate::code::cut;
use crate::columns::is_first_byte;
use crate::shown::shown_symbol;
use basics::OwnedText;
use scip_query::{signature_in, texts_of};
use scip_records::SymbolInformation;
use std::alloc::{AllocError, Global};

/// Where a pointer hovers so many bytes of a text are shown at most. A longer one is cut.
pub const MAX_HOVER: usize = 4_096;

/// So many first bytes of a text tell whether it is cut, and where.
const ENOUGH: usize = MAX_HOVER + 1;

/// Besides the symbol, the room for such a text: most fit.
const HOVER_ROOM: usize = 192;

/// Whether an offset of a text cuts no character.
fn is_uncut_at(text: &[u8], offset: usize) -> bool
    ensures { result ≡ is_uncut (drop offset text.now) }
{
    match text.get(offset) {
        Some(byte) => is_first_byte(*byte),
        None => true,
    }
}

/// The last offset of a text, up to this one, that cuts no character.
fn uncut_end(text: &[u8], most: usize) -> usize
    ensures { result ≡ spec.uncut_end text.now most }
{
    for back in 0..most {
        let end = most - back;
        if is_uncut_at(text, end) {
            return end;
        }
    }
    0
}

/// Appends the first bytes of a text, as many as are enough.
fn push_enough(text: &mut Vec<u8>, bytes: &[u8]) -> Result<(), AllocError>
    ensures { OnOk result ((front : List ℕ) → text.old.items ≡ take ENOUGH front
        → text.new.items ≡ take ENOUGH (front ++ bytes.now)) }
{
    let room = ENOUGH.saturating_sub(text.len());
    text.extend_from_slice(cut(bytes, room).0)?;
    Ok(())
}

/// Appends a text on a line of its own, as much as is enough.
fn push_enough_below(text: &mut Vec<u8>, line: &str) -> Result<(), AllocError>
    ensures { OnOk result ((front : List ℕ) → text.old.items ≡ take ENOUGH front
        → text.new.items ≡ take ENOUGH (front ++ below line.now)) }
{
    push_enough(text, b"\n")?;
    push_enough(text, line.as_bytes())?;
    Ok(())
}

/// Appends a signature on a line of its own, if it isn't empty, as much as is enough.
fn push_enough_signature(text: &mut Vec<u8>, signature: &str) -> Result<(), AllocError>
    ensures { OnOk result ((front : List ℕ) → text.old.items ≡ take ENOUGH front
        → text.new.items ≡ take ENOUGH (front ++ flat_map below (unless_empty signature.now))) }
{
    if signature.is_empty() {
        return Ok(());
    }
    push_enough_below(text, signature)?;
    Ok(())
}

/// Appends texts, each on a line of its own, as much as is enough.
fn push_enough_documentation(
    text: &mut Vec<u8>,
    documentation: &[OwnedText],
) -> Result<(), AllocError>
    ensures { OnOk result ((front : List ℕ) → text.old.items ≡ take ENOUGH front
        → text.new.items ≡ take ENOUGH (front ++ flat_map below documentation.now)) }
{
    for paragraph in documentation {
        if text.len() >= ENOUGH {
            return Ok(());
        }
        push_enough_below(text, paragraph.as_str())?;
    }
    Ok(())
}

/// Cuts a text of which there is enough, if it is too long.
fn shorten(text: &mut Vec<u8>) -> Result<(), AllocError>
    ensures { OnOk result ((whole : List ℕ) → text.old.items ≡ take ENOUGH whole
        → text.new.items ≡ spec.shortened whole) }
{
    if text.len() <= MAX_HOVER {
        return Ok(());
    }
    let end = uncut_end(text, MAX_HOVER);
    text.truncate(end);
    text.extend_from_slice("…".as_bytes())?;
    Ok(())
}

/// What is shown of a symbol where a pointer hovers: as it is shown, and below it what its entry says. If that is more
/// than `MAX_HOVER` bytes it is cut, and an ellipsis shows that there is more.
pub(crate) fn hover_of(
    alloc: Global,
    symbol: &str,
    entry: Option<&SymbolInformation>,
) -> Result<Vec<u8>, AllocError>
    ensures { IfOk result (λ text. text.items ≡ hover_of symbol.now (option_copied entry.entry)) }
{
    let shown = shown_symbol(symbol.as_bytes());
    let mut text = Vec::with_capacity(alloc, shown.len().min(MAX_HOVER) + HOVER_ROOM)?;
    push_enough(&mut text, shown)?;
    push_enough_signature(&mut text, signature_in(entry))?;
    push_enough_documentation(&mut text, texts_of(entry))?;
    shorten(&mut text)?;
    Ok(text)
}
