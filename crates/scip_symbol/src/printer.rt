//! Symbols as text.

ghost use Rattle.std.specs.Prelude.{◌≡◌, ◌++◌, ◌<◌, ◌∷◌, [], OnOk, IfOk};
ghost use Rattle.std.specs.List.{list_all};
ghost use Rattle.std.specs.String.{string_bytes};
ghost use Rattle.scip_symbol.specs.Names.{is_identifier_character, is_simple_identifier, doubled, space};
ghost use Rattle.scip_symbol.specs.SymbolText.{
  part_text,
  name_text,
  front_text,
  suffix_text,
  descriptor_text,
  descriptors_text,
  global_text,
  symbol_text,
};
ghost use Rattle.scip_symbol.specs.SpellsSymbol.{SpellsSymbol};

use crate::symbol::{Descriptor, GlobalSymbol, Suffix, Symbol, SymbolParts};
use std::alloc::{AllocError, Global};

/// Each byte that may be in a simple identifier stands at its own place, and a comma at every other place.
static IDENTIFIER_CHARACTERS: [u8; 256] = *b"\
    ,,,,,,,,,,,,,,,,,,,,,,,,,,,,,,,,\
    ,,,,$,,,,,,+,-,,0123456789,,,,,,\
    ,ABCDEFGHIJKLMNOPQRSTUVWXYZ,,,,_\
    ,abcdefghijklmnopqrstuvwxyz,,,,,\
    ,,,,,,,,,,,,,,,,,,,,,,,,,,,,,,,,\
    ,,,,,,,,,,,,,,,,,,,,,,,,,,,,,,,,\
    ,,,,,,,,,,,,,,,,,,,,,,,,,,,,,,,,\
    ,,,,,,,,,,,,,,,,,,,,,,,,,,,,,,,,";

/// Whether `byte` may be in a simple identifier (`scip.proto`, the comment of `Symbol`). All bytes of all names are
/// asked for, so this is a look at a table.
pub(crate) fn is_identifier_character(byte: u8) -> bool
    ensures { result ≡ is_identifier_character byte }
{
    IDENTIFIER_CHARACTERS[byte as usize] != b','
}

/// Whether a name may have all these bytes without backticks.
fn are_identifier_characters(bytes: &[u8]) -> bool
    ensures { result ≡ list_all is_identifier_character bytes.now }
{
    bytes.iter().all(|byte| is_identifier_character(*byte))
}

/// Whether a name needs no backticks.
fn is_simple_identifier(name: &str) -> bool
    ensures { result ≡ is_simple_identifier name.now }
{
    !name.is_empty() && are_identifier_characters(name.as_bytes())
}

/// Appends a text with each `mark`, an ASCII character, doubled.
pub(crate) fn push_doubled(out: &mut String, text: &str, mark: char) -> Result<(), AllocError>
    requires { mark < 128 }
    ensures { OnOk result (string_bytes out.new ≡ string_bytes out.old ++ doubled mark text.now) }
{
    let mut rest = text;
    'marks: while let Some((front, after)) = rest.split_once(mark) {
        out.push_str(front)?;
        out.push(mark)?;
        out.push(mark)?;
        rest = after;
    }
    out.push_str(rest)
}

/// Appends a name as a descriptor spells it.
pub(crate) fn push_name(out: &mut String, name: &str) -> Result<(), AllocError>
    ensures { OnOk result (string_bytes out.new ≡ string_bytes out.old ++ name_text name.now) }
{
    if is_simple_identifier(name) {
        out.push_str(name)
    } else {
        out.push_str("`")?;
        push_doubled(out, name, '`')?;
        out.push_str("`")
    }
}

/// What comes before a descriptor's name.
pub(crate) fn front_text(suffix: &Suffix) -> &'static str
    ensures { result.now ≡ front_text suffix.now }
{
    match suffix {
        Suffix::TypeParameter => "[",
        Suffix::Parameter => "(",
        _ => "",
    }
}

/// Appends what comes after a descriptor's name.
pub(crate) fn push_suffix(out: &mut String, suffix: &Suffix) -> Result<(), AllocError>
    ensures { OnOk result (string_bytes out.new ≡ string_bytes out.old ++ suffix_text suffix.now) }
{
    match suffix {
        Suffix::Namespace => out.push_str("/"),
        Suffix::Type => out.push_str("#"),
        Suffix::Term => out.push_str("."),
        Suffix::Meta => out.push_str(":"),
        Suffix::Macro => out.push_str("!"),
        Suffix::Method { disambiguator } => {
            out.push_str("(")?;
            out.push_str(disambiguator.as_str())?;
            out.push_str(").")
        }
        Suffix::TypeParameter => out.push_str("]"),
        Suffix::Parameter => out.push_str(")"),
    }
}

/// Appends a descriptor.
fn push_descriptor(out: &mut String, descriptor: &Descriptor) -> Result<(), AllocError>
    ensures { OnOk result (string_bytes out.new ≡ string_bytes out.old ++ descriptor_text descriptor.now) }
{
    out.push_str(front_text(&descriptor.suffix))?;
    push_name(out, descriptor.name.as_str())?;
    push_suffix(out, &descriptor.suffix)
}

/// Appends descriptors.
fn push_descriptors(out: &mut String, descriptors: &[Descriptor]) -> Result<(), AllocError>
    ensures { OnOk result (string_bytes out.new ≡ string_bytes out.old ++ descriptors_text descriptors.now) }
{
    for descriptor in descriptors {
        push_descriptor(out, descriptor)?;
    }
    Ok(())
}

/// Appends a manager, a name or a version and the space after it.
pub(crate) fn push_part(out: &mut String, part: &str) -> Result<(), AllocError>
    ensures { OnOk result (string_bytes out.new ≡ string_bytes out.old ++ (part_text part.now ++ space ∷ [])) }
{
    if part.is_empty() {
        return out.push_str(". ");
    }
    push_doubled(out, part, ' ')?;
    out.push_str(" ")
}

/// Appends the text of a global symbol.
fn push_global(out: &mut String, symbol: &GlobalSymbol) -> Result<(), AllocError>
    ensures { OnOk result (string_bytes out.new ≡ string_bytes out.old ++ global_text symbol.now) }
{
    push_doubled(out, symbol.scheme.as_str(), ' ')?;
    out.push_str(" ")?;
    push_part(out, symbol.manager.as_str())?;
    push_part(out, symbol.name.as_str())?;
    push_part(out, symbol.version.as_str())?;
    push_descriptors(out, symbol.descriptors.as_slice())
}

/// Appends the text of a symbol.
fn push_symbol(out: &mut String, symbol: &SymbolParts) -> Result<(), AllocError>
    ensures { OnOk result (string_bytes out.new ≡ string_bytes out.old ++ symbol_text symbol.now) }
{
    match symbol {
        SymbolParts::Local(name) => {
            out.push_str("local ")?;
            out.push_str(name.as_str())
        }
        SymbolParts::Global(global) => push_global(out, global),
    }
}

/// The symbol as text, with backticks only if they are needed.
///
/// It is a spelling of the symbol, and `read` gives the symbol back.
pub fn print(alloc: Global, symbol: &Symbol) -> Result<String, AllocError>
    ensures text { IfOk result (λ text. string_bytes text ≡ symbol_text symbol.now) }
    ensures spelling { IfOk result (λ text. SpellsSymbol (string_bytes text) symbol.now) }
{
    let mut out = String::new(alloc);
    push_symbol(&mut out, symbol.parts())?;
    Ok(out)
}
