//! Which outermost declarations of files an earlier file has, too.

ghost use Rattle.std.specs.Prelude.{ℕ, ◌≡◌, ◌<◌, ◌≤◌, ◌⊎◌, ◌↔◌, ◌∷◌, [], List, IsTrue, IfOk, OnOk, MatchBool, Contains, length, map};
ghost use Rattle.std.specs.Prelude.{if◌then◌else◌};
ghost use Rattle.std.specs.Str.{bytes_eq};
ghost use Rattle.std.specs.String.{string_bytes};
ghost use Rattle.std.specs.Option.{unwrap_or};
ghost use Rattle.std.specs.HashMap.{get_by_text};
ghost use Rattle.scip_model.specs.Packages.{names_at};
ghost use Rattle.scip_model.specs.Repeated.{AreRepeated, IsRepeated};
ghost use Rattle.scip_model.specs.Tables.Repeats.{AreNone, AreSome, AreTakenFrom, IsFileTaken};

use indexmap::IndexSet;
use proto_decl::Declaration;
use proto_link::{Duplicates, Linker};
use std::alloc::{AllocError, Global};
use std::collections::HashMap;

/// For each file, by its number, the full names of its outermost declarations that an earlier file has, too. The list is
/// empty if there are none; and none are looked for if no two files may give one name.
pub(crate) fn repeated_names(
    alloc: Global,
    linker: &Linker<'_, '_>,
) -> Result<Vec<IndexSet<String>>, AllocError>
    ensures { IfOk result (λ repeated. AreRepeated linker.now
        (map (λ names. map string_bytes names.keys) repeated.items)) }
{
    match linker.duplicates() {
        Duplicates::Refuse => Ok(Vec::new(alloc)),
        Duplicates::Keep => some_names(alloc, linker),
    }
}

/// The same if they may.
fn some_names(alloc: Global, linker: &Linker<'_, '_>) -> Result<Vec<IndexSet<String>>, AllocError>
    ensures { IfOk result (λ repeated. AreRepeated linker.now
        (map (λ names. map string_bytes names.keys) repeated.items)) }
{
    let repeated = names_by_file(alloc, linker)?;
    if has_some(repeated.as_slice()) {
        Ok(repeated)
    } else {
        Ok(Vec::new(alloc))
    }
}

/// Whether some name is in these lists.
fn has_some(repeated: &[IndexSet<String>]) -> bool
    ensures { MatchBool result (AreSome (map (λ names. map string_bytes names.keys) repeated.now))
        (AreNone (map (λ names. map string_bytes names.keys) repeated.now)) }
{
    for names in repeated {
        if !names.is_empty() {
            return true;
        }
    }
    false
}

/// The names, with a list for each file: files are taken in order, and each name leads to the first that has it.
fn names_by_file(
    alloc: Global,
    linker: &Linker<'_, '_>,
) -> Result<Vec<IndexSet<String>>, AllocError>
    ensures { IfOk result (λ repeated. (number : ℕ) (full_name : List ℕ)
        → Contains (names_at (map (λ names. map string_bytes names.keys) repeated.items) number) full_name
        ↔ IsRepeated linker.now number full_name) }
{
    // From here on it is known that the facts of the files are those of texts.
    linker.linked();
    let mut holders = HashMap::new(alloc);
    let mut repeated = none_repeated(alloc, linker.count())?;
    let reachable = linker.reachable_files(alloc)?;
    for number in reachable.as_slice() {
        take_file(alloc, linker, &mut holders, &mut repeated, *number)?;
    }
    Ok(repeated)
}

/// Takes one more file.
fn take_file(
    alloc: Global,
    linker: &Linker<'_, '_>,
    holders: &mut HashMap<String, usize>,
    repeated: &mut Vec<IndexSet<String>>,
    number: usize,
) -> Result<(), AllocError>
    requires file { number < length linker.now }
    requires list { number < length repeated.old.items }
    ensures size { OnOk result (length repeated.new.items ≡ length repeated.old.items) }
    ensures taken { OnOk result (IsFileTaken linker.now number holders.old holders.new
        (map (λ names. map string_bytes names.keys) repeated.old.items)
        (map (λ names. map string_bytes names.keys) repeated.new.items)) }
{
    match linker.facts_of(number) {
        Some(facts) => {
            let names = &mut repeated[number];
            add_declarations(alloc, holders, names, number, facts.declarations())
        }
        None => Ok(()),
    }
}

/// Takes declarations of a file: names that an earlier file has are repeated, and others are its.
fn add_declarations(
    alloc: Global,
    holders: &mut HashMap<String, usize>,
    names: &mut IndexSet<String>,
    number: usize,
    declarations: &[Declaration],
) -> Result<(), AllocError>
    ensures { OnOk result (AreTakenFrom number declarations.now holders.old holders.new (map string_bytes names.old.keys)
        (map string_bytes names.new.keys)) }
{
    for declaration in declarations {
        add_declaration(alloc, holders, names, number, declaration)?;
    }
    Ok(())
}

/// Takes one of them.
fn add_declaration(
    alloc: Global,
    holders: &mut HashMap<String, usize>,
    names: &mut IndexSet<String>,
    number: usize,
    declaration: &Declaration,
) -> Result<(), AllocError>
    ensures { OnOk result (AreTakenFrom number (declaration.now ∷ []) holders.old holders.new
        (map string_bytes names.old.keys) (map string_bytes names.new.keys)) }
{
    if !is_outermost(declaration) {
        return Ok(());
    }
    let name = declaration.full_name().to_text(alloc)?;
    let first = first_holder(alloc, holders, name.as_str(), number)?;
    add_if_earlier(names, name.into_string(), first, number)
}

/// Adds a name if the first file that has it is earlier.
fn add_if_earlier(
    names: &mut IndexSet<String>,
    name: String,
    first: usize,
    number: usize,
) -> Result<(), AllocError>
    ensures added { first < number → OnOk result ((other : List ℕ) → Contains (map string_bytes names.new.keys) other
        ↔ (Contains (map string_bytes names.old.keys) other ⊎ (other ≡ string_bytes name))) }
    ensures kept { number ≤ first → names.new.keys ≡ names.old.keys }
{
    if first < number {
        names.insert(name)?;
    }
    Ok(())
}

/// The first file that has a name: this one, if none has it so far.
fn first_holder(
    alloc: Global,
    holders: &mut HashMap<String, usize>,
    name: &str,
    number: usize,
) -> Result<usize, AllocError>
    ensures found { IfOk result (λ first. first ≡ unwrap_or (get_by_text holders.old name.now) number) }
    ensures kept { IfOk result (λ first. (other : List ℕ) → get_by_text holders.new other
        ≡ (if bytes_eq name.now other then Some first else get_by_text holders.old other)) }
{
    if let Some(first) = holders.get(name) {
        return Ok(*first);
    }
    let copy = String::from_str(alloc, name)?;
    holders.insert(copy, number)?;
    Ok(number)
}

/// Of so many files nothing is repeated.
fn none_repeated(alloc: Global, count: usize) -> Result<Vec<IndexSet<String>>, AllocError>
    ensures size { IfOk result (λ repeated. length repeated.items ≡ count) }
    ensures none { IfOk result (λ repeated. AreNone (map (λ names. map string_bytes names.keys) repeated.items)) }
{
    let mut repeated = Vec::with_capacity(alloc, count)?;
    while repeated.len() < count {
        repeated.push(IndexSet::new(alloc))?;
    }
    Ok(repeated)
}

/// Whether a declaration is in no other.
fn is_outermost(declaration: &Declaration) -> bool
    ensures { IsTrue result ↔ (length declaration.now.path ≡ 1) }
{
    let (outer, _) = declaration.path().parts();
    outer.is_empty()
}
