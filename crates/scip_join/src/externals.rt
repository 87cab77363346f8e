//! External entries by symbol, of which the first stays unless a document has one.

ghost use Rattle.std.specs.Prelude.{◌≡◌, ◌∷◌, ◌++◌, [], cond, not, IfOk, OnOk, filter};
ghost use Rattle.std.specs.List.{dedup};
ghost use Rattle.std.specs.List.Sorted.{IsStrictlySortedBy};
ghost use Rattle.scip_join.specs.Gathered.{symbols_in};
ghost use Rattle.scip_join.specs.Joined.{entry_cmp};
ghost use Rattle.scip_join.specs.Tables.{all_symbols, has_same_symbol, is_among, known_in};
ghost use Rattle.scip_join.specs.Tables.{texts, AreDefined, AreInOrder, IsOrdered};

use crate::names::is_among;
use crate::piece::Piece;
use basics::OwnedText;
use scip_records::SymbolInformation;
use std::alloc::{AllocError, Global};
use std::cmp::Ordering;

/// The order of entries: by symbol.
fn compare_symbols(a: &SymbolInformation, b: &SymbolInformation) -> Ordering
    ensures { result ≡ entry_cmp a.now b.now }
{
    a.symbol.as_str().cmp(b.symbol.as_str())
}

/// Whether two entries have one symbol.
fn have_one_symbol(a: &SymbolInformation, b: &SymbolInformation) -> bool
    ensures { result ≡ has_same_symbol a.now b.now }
{
    a.symbol.as_str() == b.symbol.as_str()
}

/// Puts entries in the order of their symbols; of those with one symbol, the first stays first.
pub(crate) fn sort_by_symbol(entries: &mut Vec<SymbolInformation>) -> Result<(), AllocError>
    ensures { OnOk result (IsOrdered entry_cmp entries.old.items entries.new.items) }
{
    entries.sort_by(|a, b| compare_symbols(a, b))?;
    Ok(())
}

/// Leaves out each entry with the symbol of the one before.
pub(crate) fn keep_first(entries: &mut Vec<SymbolInformation>)
    ensures { entries.new.items ≡ dedup has_same_symbol entries.old.items }
{
    entries.dedup_by(|a, b| have_one_symbol(a, b));
}

/// The symbols of entries.
fn names_of(alloc: Global, entries: &[SymbolInformation]) -> Result<Vec<&str>, AllocError>
    ensures { IfOk result (λ names. texts names.items ≡ symbols_in entries.now) }
{
    let mut names = Vec::with_capacity(alloc, entries.len())?;
    for entry in entries {
        names.push(entry.symbol.as_str())?;
    }
    Ok(names)
}

/// Appends a symbol that is among these names, which are in order.
fn push_if_known<'a>(
    known: &mut Vec<&'a str>,
    names: &[&str],
    symbol: &'a str,
) -> Result<(), AllocError>
    requires { AreInOrder names.now }
    ensures { OnOk result (texts known.new.items
        ≡ texts known.old.items ++ cond (is_among (texts names.now) symbol.now) (symbol.now ∷ []) []) }
{
    if !is_among(names, symbol) {
        return Ok(());
    }
    known.push(symbol)?;
    Ok(())
}

/// Appends those of the symbols that are among these names, which are in order.
fn push_known<'a>(
    known: &mut Vec<&'a str>,
    names: &[&str],
    symbols: &'a [OwnedText],
) -> Result<(), AllocError>
    requires { AreInOrder names.now }
    ensures { OnOk result (texts known.new.items ≡ texts known.old.items ++ filter (is_among (texts names.now))
        symbols.now) }
{
    for symbol in symbols {
        push_if_known(known, names, symbol.as_str())?;
    }
    Ok(())
}

/// The symbols of the pieces that are among these names, which are in order.
fn known_of<'a>(
    alloc: Global,
    names: &[&str],
    pieces: &'a [Piece],
) -> Result<Vec<&'a str>, AllocError>
    requires { AreInOrder names.now }
    ensures { IfOk result (λ known. texts known.items ≡ known_in (texts names.now) pieces.now) }
{
    let mut known = Vec::new(alloc);
    for piece in pieces {
        push_known(&mut known, names, piece.symbols.as_slice())?;
    }
    Ok(known)
}

/// Those symbols of the pieces that entries have too, in order. The entries are in the order of their symbols.
fn defined_of<'a>(
    alloc: Global,
    entries: &[SymbolInformation],
    pieces: &'a [Piece],
) -> Result<Vec<&'a str>, AllocError>
    requires { IsStrictlySortedBy entry_cmp entries.now }
    ensures sorted { IfOk result (λ defined. AreInOrder defined.items) }
    ensures exact { IfOk result (λ defined. AreDefined (symbols_in entries.now) (all_symbols pieces.now)
        (texts defined.items)) }
{
    let names = names_of(alloc, entries)?;
    let mut defined = known_of(alloc, names.as_slice(), pieces)?;
    defined.sort_unstable();
    Ok(defined)
}

/// Leaves out the entries of which a piece has the symbol. They are in the order of their symbols.
pub(crate) fn leave_out_defined(
    alloc: Global,
    entries: &mut Vec<SymbolInformation>,
    pieces: &[Piece],
) -> Result<(), AllocError>
    requires { IsStrictlySortedBy entry_cmp entries.old.items }
    ensures { OnOk result (entries.new.items ≡ filter (λ entry. not (is_among (all_symbols pieces.now) entry.symbol))
        entries.old.items) }
{
    let defined = defined_of(alloc, entries.as_slice(), pieces)?;
    entries.retain(|entry| !is_among(defined.as_slice(), entry.symbol.as_str()));
    Ok(())
}
