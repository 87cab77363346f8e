//! The symbol entries of declarations of included files that sources name.

ghost use Rattle.std.specs.Prelude.{◌≡◌, ◌<◌, ◌↔◌, [], false, OnOk, IfOk, All, Contains, length};
ghost use Rattle.std.specs.List.{AllZip};
ghost use Rattle.std.specs.List.Sorted.{IsStrictlySortedBy};
ghost use Rattle.proto_visibility.specs.Files.{IsSource};
ghost use Rattle.proto_visibility.specs.declared.lookup.Entity.TheVariants.{Declared};
ghost use Rattle.scip_model.specs.Chosen.{HasChoice, HaveChoices};
ghost use Rattle.scip_model.specs.Entries.{IsKeptEntry};
ghost use Rattle.scip_model.specs.Tables.ExternalLists.{Pair, pair_cmp, IsEntryAt, IsEntryOf, Adds, FromFront};
ghost use Rattle.scip_model.specs.Tables.ExternalLists.{IsKnownPart, IsOfPart, IsOfUse, IsOfSource, IsExternal};
ghost use Rattle.scip_model.specs.Tables.ExternalLists.{HasEntryAmong, IsKeptThere, NoneIncluded, NoneSeen};
ghost use Rattle.scip_model.specs.Indexes.{AreExternals, IsAscendingListOf, info_cmp};

use crate::document_maker::Choices;
use crate::entries::{compare_symbols, declaration_entry};
use crate::known_facts::symbols_stand_apart;
use crate::naming::{Home, SymbolPackages};
use crate::targets::{parts_of, target_of};
use basics::Sequence;
use proto_decl::{FileFacts, Use};
use proto_link::{Entity, Linker, one_target_a_use};
use scip_records::SymbolInformation;
use std::alloc::{AllocError, Global};

/// Adds a declaration, if its file is included and it is kept.
fn push_declared(
    named: &mut Vec<(usize, usize)>,
    linker: &Linker<'_, '_>,
    choices: &Choices,
    file: usize,
    index: usize,
) -> Result<(), AllocError>
    requires within { file < length linker.now }
    requires chosen { HasChoice choices.now file index }
    ensures { OnOk result
        (Adds (IsOfPart linker.now choices.now (Declared file index)) named.old.items named.new.items) }
{
    if !linker.is_included(file) {
        return Ok(());
    }
    let choice = choices.of(file, index);
    if !choice.keep {
        return Ok(());
    }
    named.push((file, index))?;
    Ok(())
}

/// Adds what a component of a use names, if it is such a declaration.
fn push_part(
    named: &mut Vec<(usize, usize)>,
    linker: &Linker<'_, '_>,
    choices: &Choices,
    part: Entity,
) -> Result<(), AllocError>
    requires { IsKnownPart linker.now choices.now part }
    ensures { OnOk result (Adds (IsOfPart linker.now choices.now part) named.old.items named.new.items) }
{
    match part {
        Entity::Package(_) => Ok(()),
        Entity::Declared(file, index) => push_declared(named, linker, choices, file, index),
    }
}

/// Appends those of the parts of a name.
pub(crate) fn push_parts(
    named: &mut Vec<(usize, usize)>,
    linker: &Linker<'_, '_>,
    choices: &Choices,
    parts: &[Entity],
) -> Result<(), AllocError>
    requires { All (IsKnownPart linker.now choices.now) parts.now }
    ensures { OnOk result (Adds
        (FromFront (IsOfPart linker.now choices.now) parts.now (length parts.now)) named.old.items named.new.items) }
{
    for part in parts {
        push_part(named, linker, choices, *part)?;
    }
    Ok(())
}

/// Adds those that a use in a source names.
fn push_use(
    alloc: Global,
    named: &mut Vec<(usize, usize)>,
    linker: &Linker<'_, '_>,
    choices: &Choices,
    source: usize,
    type_use: &Use,
) -> Result<(), AllocError>
    requires source { IsSource linker.now source }
    requires choices { HaveChoices linker.now choices.now }
    ensures { OnOk result (Adds (IsOfUse linker.now choices.now source type_use.now) named.old.items named.new.items) }
{
    // From here on it is known that no names of the files clash, and that their facts are those of texts.
    linker.linked();
    one_target_a_use();
    let found = target_of(alloc, linker, source, type_use)?;
    push_parts(named, linker, choices, parts_of(&found))
}

/// Appends those of a source's uses.
fn push_uses(
    alloc: Global,
    named: &mut Vec<(usize, usize)>,
    linker: &Linker<'_, '_>,
    choices: &Choices,
    source: usize,
    uses: &[Use],
) -> Result<(), AllocError>
    requires source { IsSource linker.now source }
    requires choices { HaveChoices linker.now choices.now }
    ensures { OnOk result (Adds
        (FromFront (IsOfUse linker.now choices.now source) uses.now (length uses.now))
        named.old.items named.new.items) }
{
    for type_use in uses {
        push_use(alloc, named, linker, choices, source, type_use)?;
    }
    Ok(())
}

/// How many included files it is asked of at most whether a source sees them, before its uses are looked at.
const FEW: usize = 64;

/// Whether a source may see an included file. No file before `first` is included.
fn may_see_included(linker: &Linker<'_, '_>, first: usize, source: usize) -> bool
    requires within { source < length linker.now }
    requires first { NoneIncluded linker.now first }
    ensures { result ≡ false → NoneSeen linker.now source (length linker.now) }
{
    let count = linker.count();
    if count.saturating_sub(first) > FEW {
        return true;
    }
    for number in first..count {
        if linker.visible(source, number) {
            return true;
        }
    }
    false
}

/// Adds those that the uses of a source name.
/// No file before `first` is included.
fn push_source(
    alloc: Global,
    named: &mut Vec<(usize, usize)>,
    linker: &Linker<'_, '_>,
    choices: &Choices,
    first: usize,
    source: usize,
) -> Result<(), AllocError>
    requires within { source < length linker.now }
    requires first { NoneIncluded linker.now first }
    requires choices { HaveChoices linker.now choices.now }
    ensures { OnOk result (Adds (IsOfSource linker.now choices.now source) named.old.items named.new.items) }
{
    // From here on it is known that no names of the files clash, and that their facts are those of texts.
    linker.linked();
    if !linker.is_source(source) {
        return Ok(());
    }
    if !may_see_included(linker, first, source) {
        return Ok(());
    }
    let facts = linker.facts_of(source).unwrap();
    push_uses(alloc, named, linker, choices, source, facts.uses())
}

/// Those that the uses of all sources name. No file before `first` is included.
pub(crate) fn named_externals(
    alloc: Global,
    linker: &Linker<'_, '_>,
    choices: &Choices,
    first: usize,
) -> Result<Vec<(usize, usize)>, AllocError>
    requires first { NoneIncluded linker.now first }
    requires choices { HaveChoices linker.now choices.now }
    ensures { IfOk result (λ named. Adds (IsExternal linker.now choices.now (length linker.now)) [] named.items) }
{
    let mut named = Vec::new(alloc);
    for source in 0..linker.count() {
        push_source(alloc, &mut named, linker, choices, first, source)?;
    }
    Ok(named)
}

/// The same, rising and each once.
fn without_doubles(named: Vec<(usize, usize)>) -> Result<Vec<(usize, usize)>, AllocError>
    ensures same { IfOk result (λ once. (x : Pair) → Contains once.items x ↔ Contains named.items x) }
    ensures rising { IfOk result (λ once. IsStrictlySortedBy pair_cmp once.items) }
{
    let mut named = named;
    named.sort()?;
    named.dedup();
    Ok(named)
}

/// The entry of a declaration of a file with these facts.
fn external_entry(
    alloc: Global,
    home: &Home<'_>,
    choices: &Choices,
    facts: &FileFacts,
    file: usize,
    index: usize,
) -> Result<SymbolInformation, AllocError>
    requires within { index < length facts.now.declarations }
    requires chosen { HasChoice choices.now file index }
    ensures { IfOk result (λ entry. IsEntryAt choices.now home.now facts.now file index entry) }
{
    let declarations = facts.declarations();
    let declaration = &declarations[index];
    let choice = choices.of(file, index);
    declaration_entry(alloc, home, facts, declaration, index, choice)
}

/// The entry of a declaration that is kept.
fn entry_of(
    alloc: Global,
    named: &SymbolPackages<'_, '_, '_>,
    choices: &Choices,
    pair: (usize, usize),
) -> Result<SymbolInformation, AllocError>
    requires choices { HaveChoices named.now.files choices.now }
    requires there { IsKeptThere named.now.files choices.now pair }
    ensures { IfOk result (IsKeptEntry named.now.files choices.now named.now.ids pair.0 pair.1) }
{
    let facts = named.linker().facts_of(pair.0).unwrap();
    let home = named.home_of(pair.0);
    external_entry(alloc, &home, choices, facts, pair.0, pair.1)
}

/// The entry of each such declaration, in their order.
fn external_entries(
    alloc: Global,
    named: &SymbolPackages<'_, '_, '_>,
    choices: &Choices,
    pairs: &[(usize, usize)],
) -> Result<Vec<SymbolInformation>, AllocError>
    requires choices { HaveChoices named.now.files choices.now }
    requires there { All (IsKeptThere named.now.files choices.now) pairs.now }
    ensures { IfOk result (λ entries.
        AllZip (IsEntryOf named.now.files choices.now named.now.ids) pairs.now entries.items) }
{
    let mut entries = Vec::new(alloc);
    for pair in pairs {
        let entry = entry_of(alloc, named, choices, *pair)?;
        entries.push(entry)?;
    }
    Ok(entries)
}

/// The number of the first file that is included, or else how many files there are.
pub(crate) fn first_included(linker: &Linker<'_, '_>) -> usize
    ensures { NoneIncluded linker.now result }
{
    let count = linker.count();
    for number in 0..count {
        if linker.is_included(number) {
            return number;
        }
    }
    count
}

/// The entries of these declarations, which are kept and in files that count, by symbol, each once.
pub(crate) fn entries_by_symbol(
    alloc: Global,
    named: &SymbolPackages<'_, '_, '_>,
    choices: &Choices,
    pairs: Vec<(usize, usize)>,
) -> Result<Sequence<SymbolInformation>, AllocError>
    requires choices { HaveChoices named.now.files choices.now }
    requires there { (x : Pair) → Contains pairs.items x → IsKeptThere named.now.files choices.now x }
    ensures { IfOk result (IsAscendingListOf info_cmp
        (HasEntryAmong named.now.files choices.now named.now.ids pairs.items)) }
{
    // From here on it is known that no two of them have one symbol.
    symbols_stand_apart(named);
    let once = without_doubles(pairs)?;
    let mut entries = external_entries(alloc, named, choices, once.as_slice())?;
    entries.sort_by(|a, b| compare_symbols(a, b))?;
    Ok(Sequence::from_vec(entries))
}

/// The external symbol entries of linked files, by symbol: one for each declaration of an included
/// file that is kept by these choices and that a component of a use in a source names.
///
/// A use that names no type names none of them. If no file is included, no use is looked at, and no memory is taken; nor
/// is a use of a source that sees none of a few included files.
///
/// `choices` has to have a choice for each declaration of each file that has facts. An error means that memory was
/// refused.
pub fn externals_in_packages(
    alloc: Global,
    named: &SymbolPackages<'_, '_, '_>,
    choices: &Choices,
) -> Result<Sequence<SymbolInformation>, AllocError>
    requires choices { HaveChoices named.now.files choices.now }
    ensures { IfOk result (AreExternals named.now.files choices.now named.now.ids) }
{
    let linker = named.linker();
    let first = first_included(linker);
    if first == linker.count() {
        return Ok(Sequence::new(alloc));
    }
    let pairs = named_externals(alloc, linker, choices, first)?;
    entries_by_symbol(alloc, named, choices, pairs)
}
