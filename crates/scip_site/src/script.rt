//! The list of symbols that the first page searches.

ghost use Rattle.std.specs.Prelude.{◌≡◌, ◌<◌, ◌++◌, ℕ, List, map, OnOk};
ghost use Rattle.std.specs.Borrow.{Bor};
ghost use Rattle.std.specs.List.{flat_map};
ghost use Rattle.scip_site.specs.Script as spec;

use scip_pages::{
    Asked, Site, line_listed, marked_text, occurrence_listed, page_path, push_decimal,
    push_encoded, shown_symbol, symbol_listed,
};
use scip_query::Place;
use std::alloc::{AllocError, Global};

/// A hexadecimal digit.
fn digit(value: u8) -> u8
    requires { value < 16 }
    ensures { result ≡ spec.digit value }
{
    if value < 10 { value + b'0' } else { value + 87 }
}

/// Whether a byte isn't written as it is.
fn is_coded(byte: u8) -> bool
    ensures { result ≡ spec.is_coded byte }
{
    byte < 32 || matches!(byte, b'"' | b'\\' | b'<' | 127)
}

/// Appends a byte of a text.
fn push_byte(script: &mut Vec<u8>, byte: u8) -> Result<(), AllocError>
    ensures { OnOk result (script.new.items ≡ script.old.items ++ spec.quoted_byte byte) }
{
    if is_coded(byte) {
        script.extend_from_slice(&[b'\\', b'u', b'0', b'0', digit(byte / 16), digit(byte % 16)])
    } else {
        script.extend_from_slice(&[byte])
    }
}

/// Appends bytes of a text.
fn push_bytes(script: &mut Vec<u8>, text: &[u8]) -> Result<(), AllocError>
    ensures { OnOk result (script.new.items ≡ script.old.items ++ flat_map spec.quoted_byte text.now) }
{
    for byte in text {
        push_byte(script, *byte)?;
    }
    Ok(())
}

/// Appends a text as a literal of a script (ECMAScript, 12.9.4 "String Literals"). Nothing of it ends the literal, nor
/// a script in a page.
pub(crate) fn push_quoted(script: &mut Vec<u8>, text: &[u8]) -> Result<(), AllocError>
    ensures { OnOk result (script.new.items ≡ script.old.items ++ spec.quoted text.now) }
{
    script.extend_from_slice(b"\"")?;
    push_bytes(script, text)?;
    script.extend_from_slice(b"\"")
}

/// Appends the name and the symbol of a definition.
fn push_name_and_symbol(script: &mut Vec<u8>, name: &[u8], symbol: &[u8]) -> Result<(), AllocError>
    ensures { OnOk result (script.new.items ≡ script.old.items ++ spec.name_and_symbol name.now symbol.now) }
{
    push_quoted(script, name)?;
    script.extend_from_slice(b",")?;
    push_quoted(script, symbol)?;
    script.extend_from_slice(b"],")
}

/// Appends a definition: its line, its name and its symbol.
fn push_named_line(
    script: &mut Vec<u8>,
    line: usize,
    name: &[u8],
    symbol: &[u8],
) -> Result<(), AllocError>
    ensures { OnOk result (script.new.items ≡ script.old.items ++ spec.named_line line name.now symbol.now) }
{
    script.extend_from_slice(b"[")?;
    push_decimal(script, line)?;
    script.extend_from_slice(b",")?;
    push_name_and_symbol(script, name, symbol)
}

/// Appends it, if it has a name.
fn push_name(
    script: &mut Vec<u8>,
    line: usize,
    name: &[u8],
    symbol: &[u8],
) -> Result<(), AllocError>
    ensures { OnOk result (script.new.items ≡ script.old.items ++ spec.name_text line name.now symbol.now) }
{
    match name {
        [] => Ok(()),
        [_, ..] => push_named_line(script, line, name, symbol),
    }
}

/// Appends what is defined at a place.
fn push_named(
    script: &mut Vec<u8>,
    site: &Site<'_>,
    asked: &Asked<'_>,
    place: Place,
) -> Result<(), AllocError>
    ensures { OnOk result (script.new.items ≡ script.old.items ++ spec.named_text site.now.queries.now
        asked.now.lines.now.unit (map (λ (l : Bor (List ℕ)). l.now) asked.now.lines.now.lines) place) }
{
    let documents = site.queries.documents();
    let name = marked_text(asked.lines, occurrence_listed(documents, place));
    let symbol = shown_symbol(symbol_listed(documents, place).as_bytes());
    push_name(script, line_listed(documents, place), name, symbol)
}

/// Appends what is defined at places.
fn push_all_named(
    script: &mut Vec<u8>,
    site: &Site<'_>,
    asked: &Asked<'_>,
    firsts: &[Place],
) -> Result<(), AllocError>
    ensures { OnOk result (script.new.items ≡ script.old.items ++ flat_map (spec.named_text site.now.queries.now
        asked.now.lines.now.unit (map (λ (l : Bor (List ℕ)). l.now) asked.now.lines.now.lines)) firsts.now) }
{
    for place in firsts {
        push_named(script, site, asked, *place)?;
    }
    Ok(())
}

/// Appends the URL of the page of the document with a path, and the path.
fn push_page(alloc: Global, script: &mut Vec<u8>, path: &str) -> Result<(), AllocError>
    ensures { OnOk result (script.new.items ≡ script.old.items ++ spec.page_text path.now) }
{
    let to = page_path(alloc, path)?;
    let mut url = Vec::new(alloc);
    push_encoded(&mut url, to.as_bytes())?;
    script.extend_from_slice(b"[")?;
    push_quoted(script, &url)?;
    script.extend_from_slice(b",")?;
    push_quoted(script, path.as_bytes())?;
    script.extend_from_slice(b",[")
}

/// Appends the page of the document with a path, and what it defines first.
pub(crate) fn push_listing(
    alloc: Global,
    script: &mut Vec<u8>,
    site: &Site<'_>,
    path: &str,
    asked: &Asked<'_>,
    firsts: &[Place],
) -> Result<(), AllocError>
    ensures { OnOk result (script.new.items ≡ script.old.items ++ spec.listing_text site.now.queries.now
        asked.now.lines.now.unit (map (λ (l : Bor (List ℕ)). l.now) asked.now.lines.now.lines) path.now firsts.now) }
{
    push_page(alloc, script, path)?;
    push_all_named(script, site, asked, firsts)?;
    script.extend_from_slice(b"]],\n")
}
