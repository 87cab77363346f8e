//! Symbols out of text.
//!
//! The private readers see only the rest of a text. So their `BadSymbol` has the number of bytes that are left at the
//! place if no symbol goes on like this. `read` turns it into the offset.

ghost use Rattle.std.specs.Prelude.{
  ◌≡◌,
  ◌<◌,
  ◌++◌,
  [],
  ◌∷◌,
  false,
  length,
  IfOk,
  IfErr,
  OnOk,
  MatchOption,
  MatchResult,
};
ghost use Rattle.std.specs.Prelude.{take, drop};
ghost use Rattle.scip_symbol.specs.Names.{is_identifier_character, space};
ghost use Rattle.scip_symbol.specs.Gives.{Gives};
ghost use Rattle.scip_symbol.specs.Reading.{
  after,
  expect_at,
  undoubled_at,
  run_len,
  simple_at,
  name_at,
  disambiguator_at,
  suffix_at,
  enclosed_at,
  descriptor_at,
  descriptors_at,
  spaced_at,
  part_at,
  global_at,
  local_at,
  symbol_at,
};
ghost use Rattle.scip_symbol.specs.SpellsSymbol.{SpellsSymbol};
ghost use Rattle.scip_symbol.specs.LongestPrefix.{IsFaultOf};
ghost use Rattle.scip_symbol.specs.declared.symbol.SymbolParts.{SymbolParts};
ghost use Rattle.scip_symbol.specs.declared.fault.SymbolFault.TheVariants as fault;

use crate::fault::SymbolFault;
use crate::printer::is_identifier_character;
use crate::symbol::{Descriptor, GlobalSymbol, Suffix, Symbol, SymbolParts};
use basics::{OwnedText, Sequence};
use std::alloc::{AllocError, Global};

/// The text after a prefix, if it begins with that prefix.
pub(crate) fn after<'a>(text: &'a str, front: &str) -> Option<&'a str>
    ensures { MatchOption result (after front.now text.now ≡ None) (λ rest. after front.now text.now ≡ Some rest.now) }
{
    text.strip_prefix(front)
}

/// The text after a prefix that has to be there.
#[tactic(auto, unfolding(crate::specs::Reading::expect_at))]
fn expect<'a>(text: &'a str, front: &str) -> Result<&'a str, SymbolFault>
    ensures { Gives (λ rest. rest.now) result (expect_at front.now text.now) }
{
    match after(text, front) {
        Some(rest) => Ok(rest),
        None => Err(SymbolFault::BadSymbol(text.len())),
    }
}

/// A text up to a `mark`, an ASCII character, that isn't doubled, and what comes after that mark.
fn read_undoubled<'a>(
    alloc: Global,
    text: &'a str,
    mark: char,
) -> Result<(OwnedText, &'a str), SymbolFault>
    requires { mark < 128 }
    ensures { Gives (λ x. (x.0, x.1.now)) result (undoubled_at mark false text.now) }
{
    let mut word = String::new(alloc);
    let mut rest = text;
    'marks: while let Some((front, behind)) = rest.split_once(mark) {
        word.push_str(front)?;
        match behind.strip_prefix(mark) {
            Some(more) => {
                word.push(mark)?;
                rest = more;
            }
            None => return Ok((OwnedText::from_string(word), behind)),
        }
    }
    Err(SymbolFault::BadSymbol(0))
}

/// How many identifier characters are at the front.
fn run_len(bytes: &[u8]) -> usize
    ensures { result ≡ run_len bytes.now }
{
    bytes
        .iter()
        .take_while(|byte| is_identifier_character(**byte))
        .count()
}

/// The identifier characters at the front, and the text after them.
fn split_run(text: &str) -> (&str, &str)
    ensures run { result.0.now ≡ take (run_len text.now) text.now }
    ensures rest { result.1.now ≡ drop (run_len text.now) text.now }
{
    let len = run_len(text.as_bytes());
    text.split_at(len)
}

/// A simple identifier, and the text after it, as each of the readers below gives what it reads.
#[tactic(auto, unfolding(crate::specs::Reading::simple_at))]
fn read_simple<'a>(alloc: Global, text: &'a str) -> Result<(OwnedText, &'a str), SymbolFault>
    ensures { Gives (λ x. (x.0, x.1.now)) result (simple_at text.now) }
{
    let (run, rest) = split_run(text);
    if run.is_empty() {
        return Err(SymbolFault::BadSymbol(rest.len()));
    }
    Ok((OwnedText::copy_of(alloc, run)?, rest))
}

/// A name, with or without backticks.
#[tactic(auto, unfolding(crate::specs::Reading::name_at))]
fn read_name<'a>(alloc: Global, text: &'a str) -> Result<(OwnedText, &'a str), SymbolFault>
    ensures { Gives (λ x. (x.0, x.1.now)) result (name_at text.now) }
{
    match after(text, "`") {
        Some(inside) => {
            let (name, rest) = read_undoubled(alloc, inside, '`')?;
            if name.as_str().is_empty() {
                return Err(SymbolFault::BadSymbol(rest.len()));
            }
            Ok((name, rest))
        }
        None => read_simple(alloc, text),
    }
}

/// A method's disambiguator and the signs after it.
#[tactic(auto, unfolding(crate::specs::Reading::disambiguator_at))]
fn read_disambiguator<'a>(alloc: Global, text: &'a str) -> Result<(OwnedText, &'a str), SymbolFault>
    ensures { Gives (λ x. (x.0, x.1.now)) result (disambiguator_at text.now) }
{
    let (run, rest) = split_run(text);
    let rest = expect(rest, ")")?;
    let rest = expect(rest, ".")?;
    Ok((OwnedText::copy_of(alloc, run)?, rest))
}

/// What comes after a name that no bracket encloses.
#[tactic(auto, unfolding(crate::specs::Reading::suffix_at))]
fn read_suffix<'a>(alloc: Global, text: &'a str) -> Result<(Suffix, &'a str), SymbolFault>
    ensures { Gives (λ x. (x.0, x.1.now)) result (suffix_at text.now) }
{
    if let Some(rest) = after(text, "/") {
        return Ok((Suffix::Namespace, rest));
    }
    if let Some(rest) = after(text, "#") {
        return Ok((Suffix::Type, rest));
    }
    if let Some(rest) = after(text, ".") {
        return Ok((Suffix::Term, rest));
    }
    if let Some(rest) = after(text, ":") {
        return Ok((Suffix::Meta, rest));
    }
    if let Some(rest) = after(text, "!") {
        return Ok((Suffix::Macro, rest));
    }
    let rest = expect(text, "(")?;
    let (disambiguator, rest) = read_disambiguator(alloc, rest)?;
    Ok((Suffix::Method { disambiguator }, rest))
}

/// A name and the bracket that closes it, after the opening one.
#[tactic(auto, unfolding(crate::specs::Reading::enclosed_at))]
fn read_enclosed<'a>(
    alloc: Global,
    text: &'a str,
    suffix: Suffix,
    closing: &str,
) -> Result<(Descriptor, &'a str), SymbolFault>
    ensures { Gives (λ x. (x.0, x.1.now)) result (enclosed_at suffix closing.now text.now) }
{
    let (name, rest) = read_name(alloc, text)?;
    let rest = expect(rest, closing)?;
    Ok((Descriptor { name, suffix }, rest))
}

/// The descriptor at the front of a text, and what is behind it.
#[tactic(auto, unfolding(crate::specs::Reading::descriptor_at))]
fn read_descriptor<'a>(alloc: Global, text: &'a str) -> Result<(Descriptor, &'a str), SymbolFault>
    ensures { Gives (λ x. (x.0, x.1.now)) result (descriptor_at text.now) }
{
    if let Some(inside) = after(text, "[") {
        return read_enclosed(alloc, inside, Suffix::TypeParameter, "]");
    }
    if let Some(inside) = after(text, "(") {
        return read_enclosed(alloc, inside, Suffix::Parameter, ")");
    }
    let (name, rest) = read_name(alloc, text)?;
    let (suffix, rest) = read_suffix(alloc, rest)?;
    Ok((Descriptor { name, suffix }, rest))
}

/// Adds a descriptor at the end.
fn add(descriptors: &mut Vec<Descriptor>, descriptor: Descriptor) -> Result<(), AllocError>
    ensures { OnOk result (descriptors.new.items ≡ descriptors.old.items ++ descriptor ∷ []) }
{
    descriptors.push(descriptor)?;
    Ok(())
}

/// One descriptor or more, up to the end.
fn read_descriptors(alloc: Global, text: &str) -> Result<Sequence<Descriptor>, SymbolFault>
    ensures { Gives (λ ds. ds) result (descriptors_at text.now) }
{
    let mut descriptors = Vec::new(alloc);
    let mut rest = text;
    'descriptors: loop {
        let (descriptor, behind) = read_descriptor(alloc, rest)?;
        add(&mut descriptors, descriptor)?;
        if behind.is_empty() {
            return Ok(Sequence::from_vec(descriptors));
        }
        rest = behind;
    }
}

/// A text that doesn't begin with a space, up to a space that isn't doubled.
#[tactic(auto, unfolding(crate::specs::Reading::spaced_at))]
fn read_spaced<'a>(alloc: Global, text: &'a str) -> Result<(OwnedText, &'a str), SymbolFault>
    ensures { Gives (λ x. (x.0, x.1.now)) result (spaced_at text.now) }
{
    match after(text, " ") {
        Some(_) => Err(SymbolFault::BadSymbol(text.len())),
        None => read_undoubled(alloc, text, ' '),
    }
}

/// A manager, a name or a version.
#[tactic(auto, unfolding(crate::specs::Reading::part_at))]
fn read_part<'a>(alloc: Global, text: &'a str) -> Result<(OwnedText, &'a str), SymbolFault>
    ensures { Gives (λ x. (x.0, x.1.now)) result (part_at text.now) }
{
    let (word, rest) = read_spaced(alloc, text)?;
    if word.as_str() == "." {
        return Ok((OwnedText::new(alloc), rest));
    }
    Ok((word, rest))
}

/// The global symbol that a text spells.
#[tactic(auto, unfolding(crate::specs::Reading::global_at))]
fn read_global(alloc: Global, text: &str) -> Result<SymbolParts, SymbolFault>
    ensures { Gives (λ s. s) result (global_at text.now) }
{
    let (scheme, rest) = read_spaced(alloc, text)?;
    let (manager, rest) = read_part(alloc, rest)?;
    let (name, rest) = read_part(alloc, rest)?;
    let (version, rest) = read_part(alloc, rest)?;
    let descriptors = read_descriptors(alloc, rest)?;
    Ok(SymbolParts::Global(GlobalSymbol {
        scheme,
        manager,
        name,
        version,
        descriptors,
    }))
}

/// What comes after `local`.
#[tactic(auto, unfolding(crate::specs::Reading::local_at))]
fn read_local(alloc: Global, text: &str) -> Result<SymbolParts, SymbolFault>
    ensures { Gives (λ s. s) result (local_at text.now) }
{
    let rest = expect(text, " ")?;
    let (name, rest) = read_simple(alloc, rest)?;
    if rest.is_empty() {
        Ok(SymbolParts::Local(name))
    } else {
        Err(SymbolFault::BadSymbol(rest.len()))
    }
}

/// The symbol that a text spells, local or global.
#[tactic(auto, unfolding(crate::specs::Reading::symbol_at))]
fn read_parts(alloc: Global, text: &str) -> Result<SymbolParts, SymbolFault>
    ensures { Gives (λ s. s) result (symbol_at text.now) }
{
    match after(text, "local") {
        Some(rest) => read_local(alloc, rest),
        None => read_global(alloc, text),
    }
}

/// The symbol that a text spells.
///
/// - `BadSymbol`: it spells none. The offset is the length in bytes of the longest prefix of the text that begins
///   some symbol's spelling.
/// - `Memory`: memory ran out.
pub fn read(alloc: Global, text: &str) -> Result<Symbol, SymbolFault>
    ensures found { IfOk result (λ symbol. SpellsSymbol text.now symbol) }
    ensures only { (symbol : SymbolParts) → SpellsSymbol text.now symbol
        → MatchResult result (λ read. read ≡ symbol) (λ fault. fault ≡ SymbolFault.Memory) }
    ensures fault { IfErr result (λ fault. IsFaultOf text.now fault) }
{
    match read_parts(alloc, text) {
        Ok(parts) => Ok(Symbol::from_parts(parts)),
        Err(SymbolFault::BadSymbol(left)) => Err(SymbolFault::BadSymbol(
            text.len().saturating_sub(left),
        )),
        Err(SymbolFault::Memory) => Err(SymbolFault::Memory),
    }
}
