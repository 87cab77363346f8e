//! Files that are linked, with their options.

ghost use Rattle.std.specs.Prelude.{ℕ, ⊤, ◌≡◌, ◌<◌, ◌+◌, ◌↔◌, [], None, Some, Contains, IsTrue, IfOk, OnOk};
ghost use Rattle.std.specs.Prelude.{MatchOption, length, map};
ghost use Rattle.std.specs.List.{slice_get};
ghost use Rattle.std.specs.List.Sorted.{IsStrictlyIncreasing};
ghost use Rattle.proto_options.specs.declared.names.OptionName.{OptionName};
ghost use Rattle.option_link.specs.declared.contexts.Context.{Context};
ghost use Rattle.option_link.specs.declared.place.DeclaredPlace.{DeclaredPlace};
ghost use Rattle.option_link.specs.declared.target.OptionTarget.{OptionTarget};
ghost use Rattle.proto_visibility.specs.Files.{IsSource};
ghost use Rattle.proto_visibility.specs.Reaches.{LinksOptions};
ghost use Rattle.option_link.specs.Fields.{AreInOrder};
ghost use Rattle.option_link.specs.Linked.{LinkedOptions};
ghost use Rattle.option_link.specs.OptionNames.{IsOptionTarget, IsGap};
ghost use Rattle.option_link.specs.Contexts.{Leads, NamesIn, StandsIn};
ghost use Rattle.option_link.specs.OptionNames.{NeedsNoTarget};
ghost use Rattle.option_link.specs.Tables.{IsClear};
ghost use Rattle.option_link.specs.Found.{AddsParts, AreFound, ArePartsOf, HasParts, IsBehind, first_gap};
ghost use Rattle.option_link.specs.Uncertain.{IsInDoubt, IsUncertainName};
ghost use Rattle.option_link.specs.Doubts.{IsDoubtHere, IsDoubtOf, first_doubt};
ghost use Rattle.proto_link.specs.Uncertain.{IsFirstUnreadIf};

use crate::contexts::Context;
use crate::facts::FilesBeside;
use crate::fields::KnownFiles;
use crate::known_fields::KnownFields;
use crate::messages::OptionMessages;
use crate::naming::Asked;
use crate::often::{fields_of, often_used, types_of};
use crate::often_used::OftenUsed;
use crate::place::DeclaredPlace;
use crate::said::SaidOfMessages;
use crate::table::DeclarationTable;
use crate::target::{OptionTarget, OptionTargets, UncertainName};
use basics::Sequence;
use proto_decl::{facts_are_filled, facts_in_order};
use proto_link::{Entity, Linker};
use proto_options::{FileOption, OptionName};
use std::alloc::{AllocError, Global};
use std::marker::Model;

/// Files that are linked, with all their declarations, what is known of each beside its facts, what is known of the
/// fields that options use often, and what messages say.
///
/// Contracts see the list of the files, and that of what is known of each.
#[derive(Drop)]
pub struct OptionLinker<'n, 'a, 't> {
    known: &'n FilesBeside<'n>,
    table: DeclarationTable<'n, 'a, 't>,
    often: KnownFields,
    /// For each file the first of those without facts that it sees.
    unread: Vec<Option<usize>>,
    said: SaidOfMessages<'n>,
}

impl<'n, 'a, 't> Model for OptionLinker<'n, 'a, 't> {
    ghost use Rattle.std.specs.Prelude.{◌≡◌};
    ghost use Rattle.option_link.specs.KnownFields.{AreKnownFields};
    ghost use Rattle.option_link.specs.Linked.{LinkedOptions, AreKnown};
    ghost use Rattle.proto_link.specs.Uncertain.{AreFirstUnread};
    ghost use Rattle.std.specs.Prelude.{length};

    ghost Value = { LinkedOptions };

    ghost view = { λ options. record { files = options.table; known = options.known.now } };

    ghost invariant = { λ options. AreKnown (record { files = options.table; known = options.known.now })
        × AreKnownFields options.table options.known.now options.often.fields.items
        × AreFirstUnread options.table (length options.table) options.unread.items
        × (options.said ≡ options.known.now) };
}

impl<'n, 'a, 't> OptionLinker<'n, 'a, 't> {
    /// Links the options of files that are linked: `known` has one for each, in the same order. An error means that
    /// memory was refused.
    pub fn new(
        alloc: Global,
        linker: &'n Linker<'a, 't>,
        known: &'n FilesBeside<'n>,
    ) -> Result<OptionLinker<'n, 'a, 't>, AllocError>
        requires each { length known.now ≡ length linker.now }
        requires in_order { AreInOrder known.now }
        ensures { IfOk result (λ options. options ≡ record { files = linker.now; known = known.now }) }
    {
        let mut table = DeclarationTable::of(alloc, linker)?;
        let numbers = often_used(alloc, linker)?;
        let types = types_of(alloc, &table, known, numbers.as_slice())?;
        table.keep_types(types);
        let messages = OptionMessages::find(alloc, &table)?;
        table.keep_messages(messages);
        let often = fields_of(alloc, &table, known, numbers.as_slice())?;
        let unread = linker.first_unread_files(alloc)?;
        let said = SaidOfMessages::find(alloc, known)?;
        Ok(OptionLinker {
            known,
            table,
            often,
            unread,
            said,
        })
    }

    /// The options of the file with a number, in order of place.
    pub fn options_of(&self, file: usize) -> &'n [FileOption]
        ensures { MatchOption (slice_get self.now.known file) (result.now ≡ [])
            (λ beside. result.now ≡ beside.options) }
    {
        self.known.options_of(file)
    }

    /// The first of the files without facts that a file sees.
    fn first_unread(&self, file: usize) -> Option<usize>
        requires { file < length self.now.files }
        ensures { IsFirstUnreadIf self.now.files file result }
    {
        match first_at(self.unread.as_slice(), file) {
            Some(first) => first,
            None => None,
        }
    }

    /// What the names in an option of a file name, the first one that names nothing and should, and the first one that
    /// may name another field once a file can be read. `text` is the text of the file, which has to be a source, and
    /// names in its options have to be linked. An error means that memory was refused.
    pub fn targets<'k>(
        &'k self,
        alloc: Global,
        file: usize,
        text: &'k str,
        option: &'k FileOption,
    ) -> Result<OptionTargets, AllocError>
        requires source { IsSource self.now.files file }
        requires links { LinksOptions self.now.files file }
        ensures targets { IfOk result (λ found. (target : OptionTarget) → Contains found.targets target
            ↔ IsOptionTarget self.now.files self.now.known file text.now option.now target) }
        ensures rising { IfOk result (λ found. IsStrictlyIncreasing
            (map (λ target. target.name_number) found.targets)) }
        ensures gap { IfOk result (λ found. MatchOption found.gap
            ((number : ℕ) (name : OptionName) → IsGap self.now.files self.now.known file text.now option.now
            number name → ⊥)
            (λ number. (name : OptionName) × IsGap self.now.files self.now.known file text.now option.now
            number name)) }
        ensures uncertain { IfOk result (λ found. MatchOption found.uncertain
            ((number behind : ℕ) → IsInDoubt self.now.files self.now.known file text.now option.now number behind → ⊥)
            (IsUncertainName self.now.files self.now.known file text.now option.now)) }
    {
        let often = OftenUsed::new(&self.table, self.known, &self.often);
        let files = KnownFiles {
            names: &self.table,
            known: self.known,
            often: &often,
        };
        let asked = Asked {
            files,
            said: &self.said,
            file,
            text,
            option,
            unread: self.first_unread(file),
        };
        all_targets(alloc, asked)
    }
}

/// What there is of the file with a number.
fn first_at(firsts: &[Option<usize>], file: usize) -> Option<Option<usize>>
    ensures { result ≡ slice_get firsts.now file }
{
    firsts.get(file).copied()
}

/// What is found of an option's names: what they name, and what is looked up in each.
#[derive(Drop)]
struct Found {
    targets: Vec<OptionTarget>,
    given: Vec<Option<Context>>,
    gap: Option<usize>,
    uncertain: Option<UncertainName>,
}

/// What a name names that is looked up in something, or in nothing.
fn target_in(
    alloc: Global,
    asked: Asked<'_, '_, '_, '_>,
    number: usize,
    name: &OptionName,
    context: Option<Context>,
) -> Result<Option<DeclaredPlace>, AllocError>
    requires links { LinksOptions asked.files.names.now asked.file }
    requires clear { MatchOption context ⊤ (IsClear asked.files.names.now) }
    ensures { IfOk result (λ found. MatchOption found
        ((inner : Context) (at : DeclaredPlace) → context ≡ Some inner → NamesIn asked.entry.files.names.now
        asked.entry.files.known.now asked.entry.file asked.entry.text.now asked.entry.option.now number name.now
        inner at → ⊥)
        (λ at. (inner : Context) × (context ≡ Some inner) × NamesIn asked.entry.files.names.now
        asked.entry.files.known.now asked.entry.file asked.entry.text.now asked.entry.option.now number name.now
        inner at)) }
{
    match context {
        Some(inner) => asked.target(alloc, number, name, inner),
        None => Ok(None),
    }
}

/// What names are looked up in that belong to a name.
fn given_in(
    alloc: Global,
    asked: Asked<'_, '_, '_, '_>,
    number: usize,
    name: &OptionName,
    context: Option<Context>,
    target: Option<DeclaredPlace>,
) -> Result<Option<Context>, AllocError>
    requires { LinksOptions asked.files.names.now asked.file }
    ensures gives { IfOk result (λ found. (outer : Context) → context ≡ Some outer → MatchOption target
        ((at : DeclaredPlace) → NamesIn asked.entry.files.names.now asked.entry.files.known.now asked.entry.file
        asked.entry.text.now asked.entry.option.now number name.now outer at → ⊥)
        (NamesIn asked.entry.files.names.now asked.entry.files.known.now asked.entry.file asked.entry.text.now
        asked.entry.option.now number name.now outer)
        → MatchOption found ((inner : Context) → Leads asked.entry.files.names.now asked.entry.files.known.now
        asked.entry.file asked.entry.text.now asked.entry.option.now number name.now outer inner → ⊥)
        (λ inner. Leads asked.entry.files.names.now asked.entry.files.known.now asked.entry.file
        asked.entry.text.now asked.entry.option.now number name.now outer inner
        × IsClear asked.entry.files.names.now inner)) }
    ensures none { IfOk result (λ found. context ≡ None → found ≡ None) }
{
    match context {
        Some(outer) => asked.gives(alloc, number, name, outer, target),
        None => Ok(None),
    }
}

/// How many components of the full name of what a name names come behind those that it spells.
fn behind_in(
    alloc: Global,
    asked: Asked<'_, '_, '_, '_>,
    number: usize,
    name: &OptionName,
    context: Option<Context>,
) -> Result<usize, AllocError>
    requires links { LinksOptions asked.files.names.now asked.file }
    requires clear { MatchOption context ⊤ (IsClear asked.files.names.now) }
    ensures { IfOk result (λ behind. (inner : Context) → context ≡ Some inner → IsBehind asked.entry.files.names.now
        asked.entry.files.known.now asked.entry.file asked.entry.text.now asked.entry.option.now number name.now
        name.now.role inner behind) }
{
    match context {
        Some(inner) => asked.behind(alloc, number, name, inner),
        None => Ok(0),
    }
}

/// What the components of a name name, if it names something.
fn parts_of(
    alloc: Global,
    asked: Asked<'_, '_, '_, '_>,
    name: &OptionName,
    behind: usize,
    target: Option<DeclaredPlace>,
) -> Result<Option<Sequence<Entity>>, AllocError>
    requires { MatchOption target ⊤ (HasParts asked.files.names.now name.now behind) }
    ensures { IfOk result (λ parts. ArePartsOf asked.entry.files.names.now name.now behind target parts) }
{
    match target {
        Some(place) => {
            let parts = asked.parts(alloc, name, behind, place)?;
            Ok(Some(parts))
        }
        None => Ok(None),
    }
}

/// Adds what a name names, if it names something.
fn add_target(
    number: usize,
    parts: Option<Sequence<Entity>>,
    targets: &mut Vec<OptionTarget>,
) -> Result<(), AllocError>
    ensures { OnOk result (AddsParts number parts targets.old.items targets.new.items) }
{
    match parts {
        Some(parts) => {
            targets.push(OptionTarget {
                name_number: number,
                parts,
            })?;
            Ok(())
        }
        None => Ok(()),
    }
}

/// Whether a name that names this, or nothing, is a gap.
fn is_gap(
    alloc: Global,
    asked: Asked<'_, '_, '_, '_>,
    number: usize,
    name: &OptionName,
    context: Option<Context>,
    target: Option<DeclaredPlace>,
) -> Result<bool, AllocError>
    requires { LinksOptions asked.files.names.now asked.file }
    ensures { IfOk result (λ is. MatchOption context
        ((inner : Context) → StandsIn asked.entry.files.names.now asked.entry.files.known.now asked.entry.file
        asked.entry.text.now asked.entry.option.now number inner → ⊥)
        (StandsIn asked.entry.files.names.now asked.entry.files.known.now asked.entry.file asked.entry.text.now
        asked.entry.option.now number)
        → IsTrue is ↔ ((target ≡ None) × (NeedsNoTarget asked.entry.files.names.now asked.entry.files.known.now
        asked.entry.file asked.entry.text.now asked.entry.option.now number name.now → ⊥))) }
{
    match target {
        Some(_place) => Ok(false),
        None => {
            let needs_none = asked.needs_none(alloc, number, name, context)?;
            Ok(!needs_none)
        }
    }
}

/// The gap so far, or else this name, if it is one.
fn first_gap(gap: Option<usize>, number: usize, is: bool) -> Option<usize>
    ensures { result ≡ first_gap gap number is }
{
    match gap {
        Some(gap) => Some(gap),
        None => {
            if !is {
                return None;
            }
            Some(number)
        }
    }
}

/// Behind which file a name is in doubt that is looked up in this and names that, or nothing.
fn doubt_named(
    alloc: Global,
    asked: Asked<'_, '_, '_, '_>,
    number: usize,
    name: &OptionName,
    inner: Context,
    target: Option<DeclaredPlace>,
) -> Result<Option<usize>, AllocError>
    requires file { asked.file < length asked.files.names.now }
    requires clear { IsClear asked.files.names.now inner }
    requires first { IsFirstUnreadIf asked.files.names.now asked.file asked.unread }
    requires named { MatchOption target ⊤ (NamesIn asked.files.names.now asked.files.known.now asked.file asked.text.now
        asked.option.now number name.now inner) }
    ensures { IfOk result (λ found. MatchOption found
        ((behind : ℕ) → IsDoubtOf asked.entry.files.names.now asked.entry.file asked.entry.text.now
        asked.entry.option.now number name.now inner target behind → ⊥)
        (IsDoubtOf asked.entry.files.names.now asked.entry.file asked.entry.text.now asked.entry.option.now number
        name.now inner target)) }
{
    match target {
        Some(_place) => asked.doubt(alloc, number, name, inner),
        None => Ok(None),
    }
}

/// The same of a name that is looked up in something, or in nothing.
fn doubt_in(
    alloc: Global,
    asked: Asked<'_, '_, '_, '_>,
    number: usize,
    name: &OptionName,
    context: Option<Context>,
    target: Option<DeclaredPlace>,
) -> Result<Option<usize>, AllocError>
    requires file { asked.file < length asked.files.names.now }
    requires clear { MatchOption context ⊤ (IsClear asked.files.names.now) }
    requires first { IsFirstUnreadIf asked.files.names.now asked.file asked.unread }
    requires named { MatchOption target ⊤ (λ at. (inner : Context) × (context ≡ Some inner)
        × NamesIn asked.files.names.now asked.files.known.now asked.file asked.text.now asked.option.now number name.now
        inner at) }
    ensures { IfOk result (λ found. MatchOption found
        ((behind : ℕ) → IsDoubtHere asked.entry.files.names.now asked.entry.file asked.entry.text.now
        asked.entry.option.now number name.now context target behind → ⊥)
        (IsDoubtHere asked.entry.files.names.now asked.entry.file asked.entry.text.now asked.entry.option.now number
        name.now context target)) }
{
    match context {
        Some(inner) => doubt_named(alloc, asked, number, name, inner, target),
        None => Ok(None),
    }
}

/// A name, if it is in doubt behind a file.
fn doubted(number: usize, behind: Option<usize>) -> Option<UncertainName>
    ensures { result ≡ first_doubt None number behind }
{
    match behind {
        Some(behind) => Some(UncertainName {
            name_number: number,
            behind,
        }),
        None => None,
    }
}

/// The uncertain name so far, or else this name, if it is in doubt behind a file.
fn first_doubt(
    uncertain: Option<UncertainName>,
    number: usize,
    behind: Option<usize>,
) -> Option<UncertainName>
    ensures { result ≡ first_doubt uncertain number behind }
{
    match uncertain {
        Some(uncertain) => Some(uncertain),
        None => doubted(number, behind),
    }
}

/// Finds what a name of an option names.
fn find_named(
    alloc: Global,
    asked: Asked<'_, '_, '_, '_>,
    number: usize,
    name: &OptionName,
    found: &mut Found,
) -> Result<(), AllocError>
    requires source { IsSource asked.files.names.now asked.file }
    requires links { LinksOptions asked.files.names.now asked.file }
    requires first { IsFirstUnreadIf asked.files.names.now asked.file asked.unread }
    requires numbered { slice_get asked.option.now.setting.names number ≡ Some name.now }
    requires found { AreFound asked.files.names.now asked.files.known.now asked.file asked.text.now
        asked.option.now number found.old }
    ensures { OnOk result (AreFound asked.entry.files.names.now asked.entry.files.known.now asked.entry.file
        asked.entry.text.now asked.entry.option.now
        (number + 1) found.new) }
{
    asked.files.names.linked();
    facts_in_order();
    facts_are_filled();
    // From here on it is known that a name names one thing at most.
    let context = asked.context_of(name, found.given.as_slice());
    let target = target_in(alloc, asked, number, name, context)?;
    let given = given_in(alloc, asked, number, name, context, target)?;
    let is = is_gap(alloc, asked, number, name, context, target)?;
    let unread = doubt_in(alloc, asked, number, name, context, target)?;
    let behind = behind_in(alloc, asked, number, name, context)?;
    let parts = parts_of(alloc, asked, name, behind, target)?;
    add_target(number, parts, &mut found.targets)?;
    found.gap = first_gap(found.gap, number, is);
    found.uncertain = first_doubt(found.uncertain, number, unread);
    found.given.push(given)?;
    Ok(())
}

/// Finds what the next name of an option names.
fn find_next(
    alloc: Global,
    asked: Asked<'_, '_, '_, '_>,
    number: usize,
    found: &mut Found,
) -> Result<(), AllocError>
    requires source { IsSource asked.files.names.now asked.file }
    requires links { LinksOptions asked.files.names.now asked.file }
    requires first { IsFirstUnreadIf asked.files.names.now asked.file asked.unread }
    requires within { number < length asked.option.now.setting.names }
    requires found { AreFound asked.files.names.now asked.files.known.now asked.file asked.text.now
        asked.option.now number found.old }
    ensures { OnOk result (AreFound asked.entry.files.names.now asked.entry.files.known.now asked.entry.file
        asked.entry.text.now asked.entry.option.now
        (number + 1) found.new) }
{
    match asked.name_at(number) {
        Some(name) => find_named(alloc, asked, number, name, found),
        None => Ok(()),
    }
}

/// What all names of an option name.
fn all_targets(alloc: Global, asked: Asked<'_, '_, '_, '_>) -> Result<OptionTargets, AllocError>
    requires source { IsSource asked.files.names.now asked.file }
    requires links { LinksOptions asked.files.names.now asked.file }
    requires first { IsFirstUnreadIf asked.files.names.now asked.file asked.unread }
    ensures targets { IfOk result (λ found. (target : OptionTarget) → Contains found.targets target
        ↔ IsOptionTarget asked.entry.files.names.now asked.entry.files.known.now asked.entry.file
        asked.entry.text.now asked.entry.option.now target) }
    ensures rising { IfOk result (λ found. IsStrictlyIncreasing (map (λ target. target.name_number) found.targets)) }
    ensures gap { IfOk result (λ found. MatchOption found.gap ((number : ℕ) (name : OptionName)
        → IsGap asked.entry.files.names.now asked.entry.files.known.now asked.entry.file
        asked.entry.text.now asked.entry.option.now number name → ⊥)
        (λ number. (name : OptionName) × IsGap asked.entry.files.names.now asked.entry.files.known.now asked.entry.file
        asked.entry.text.now asked.entry.option.now number
        name)) }
    ensures uncertain { IfOk result (λ found. MatchOption found.uncertain
        ((number behind : ℕ) → IsInDoubt asked.entry.files.names.now asked.entry.files.known.now asked.entry.file
        asked.entry.text.now asked.entry.option.now number behind → ⊥)
        (IsUncertainName asked.entry.files.names.now asked.entry.files.known.now asked.entry.file
        asked.entry.text.now asked.entry.option.now)) }
{
    let count = asked.option.setting.names.as_slice().len();
    let mut found = Found {
        targets: Vec::with_capacity(alloc, count)?,
        given: Vec::with_capacity(alloc, count)?,
        gap: None,
        uncertain: None,
    };
    for number in 0..count {
        find_next(alloc, asked, number, &mut found)?;
    }
    Ok(OptionTargets {
        targets: Sequence::from_vec(found.targets),
        gap: found.gap,
        uncertain: found.uncertain,
    })
}
