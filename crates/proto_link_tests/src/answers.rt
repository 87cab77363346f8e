//! What linking answers to files, as a text.
//!
//! Files that can be linked have a line each: its path, behind a `+` where it is included, and a `-` where it is left
//! out; for each file a digit, which is 1 where the one sees the other; and for each use of a source a `;` and what it
//! names. That is the full name of a type and what each component names: the number of a package's words, or a
//! file and a declaration of it as `FILE/NUMBER`. Where it names no type, it is `?` and the use's place, and `??` where
//! it names several.
//!
//! Behind them each uncertain use has a line: its place, and the number of the file behind it.
//!
//! Other files have a line with the fault.

ghost use Rattle.std.specs.Prelude.{◌<◌, length};
ghost use Rattle.proto_visibility.specs.Files.{HaveOwnPaths};

use proto_decl::{FileFacts, Use, scope_around};
use proto_link::{
    CheckedFiles, Duplicates, Entity, FilePlace, LinkFault, LinkFile, Linker, ListedNames, Role,
    Target, UncertainUse,
};
use std::alloc::{AllocError, Global};
use test_kit::{Draft, Made};

/// Adds a place.
fn add_place(draft: &mut Draft, place: FilePlace) {
    draft.add(" ");
    draft.add_size(place.file);
    draft.add(" ");
    draft.add_size(place.span.start as usize);
    draft.add("..");
    draft.add_size(place.span.end as usize);
}

/// Adds a fault; a use that names no type is one.
pub(crate) fn add_fault(draft: &mut Draft, fault: LinkFault) {
    match fault {
        LinkFault::Broken(file) => {
            draft.add("broken ");
            draft.add_size(file);
        }
        LinkFault::Duplicate(first, second) => {
            draft.add("duplicate");
            add_place(draft, first);
            add_place(draft, second);
        }
        LinkFault::MissingImport(place) => {
            draft.add("missing");
            add_place(draft, place);
        }
        LinkFault::Unresolved(place) => {
            draft.add("?");
            add_place(draft, place);
        }
        LinkFault::Ambiguous(place) => {
            draft.add("??");
            add_place(draft, place);
        }
        LinkFault::Memory => draft.add("memory"),
    }
}

/// Adds what a component names.
pub(crate) fn add_part(draft: &mut Draft, part: Entity) {
    draft.add(" ");
    match part {
        Entity::Package(words) => draft.add_size(words),
        Entity::Declared(file, declaration) => {
            draft.add_size(file);
            draft.add("/");
            draft.add_size(declaration);
        }
    }
}

/// Adds a full name, and what each component names.
fn add_target(draft: &mut Draft, target: &Target) {
    draft.add(target.name.as_str());
    for part in target.parts.as_slice() {
        add_part(draft, *part);
    }
}

/// Adds a `!` if a file doesn't know a name in a role.
fn add_if_unknown(draft: &mut Draft, linker: &Linker, file: usize, name: &str, role: Role)
    requires { file < length linker.now }
{
    if !linker.knows(file, name, role) {
        draft.add("!");
    }
}

/// Adds a `!` if a file doesn't know the full name of a type that a use of it names, or what is around it.
fn add_unknown(draft: &mut Draft, linker: &Linker, file: usize, name: &str)
    requires { file < length linker.now }
{
    add_if_unknown(draft, linker, file, name, Role::AsType);
    if let Some(scope) = scope_around(name) {
        if !scope.is_empty() {
            add_if_unknown(draft, linker, file, scope, Role::AsAggregate);
        }
    }
}

/// Adds what a use names, and gives why it names nothing.
fn add_use(draft: &mut Draft, linker: &Linker, file: usize, type_use: &Use) -> Option<LinkFault>
    requires { file < length linker.now }
{
    draft.add("; ");
    match linker.resolve(draft.alloc(), file, type_use) {
        Err(LinkFault::Memory) => {
            draft.cut();
            None
        }
        Err(fault) => {
            add_fault(draft, fault);
            Some(fault)
        }
        Ok(target) => {
            add_target(draft, &target);
            add_unknown(draft, linker, file, target.name.as_str());
            None
        }
    }
}

/// Adds what each use of a file names, and a `!` if what is said of all of them at once isn't the same.
fn add_uses(draft: &mut Draft, linker: &Linker, file: usize, facts: &FileFacts)
    requires { file < length linker.now }
{
    let Ok(faults) = linker.use_faults(draft.alloc(), file) else {
        draft.cut();
        return;
    };
    let mut met: usize = 0;
    for type_use in facts.uses() {
        if let Some(fault) = add_use(draft, linker, file, type_use) {
            if faults.get(met) != Some(&fault) {
                draft.add("!");
            }
            met = met.saturating_add(1);
        }
    }
    if met != faults.len() {
        draft.add("!");
    }
}

/// Adds which files a file sees.
fn add_sights(draft: &mut Draft, linker: &Linker, file: usize)
    requires { file < length linker.now }
{
    for other in 0..linker.count() {
        let is_seen = linker.visible(file, other);
        draft.add(if is_seen { "1" } else { "0" });
    }
}

/// The mark before the path of a file.
pub(crate) fn mark_of(file: &LinkFile) -> &'static str {
    if file.left_out {
        "-"
    } else if file.included {
        "+"
    } else {
        ""
    }
}

/// The same for a file of a linker, which has no path of a file that is left out.
fn mark_in(linker: &Linker, file: usize) -> &'static str
    requires { file < length linker.now }
{
    if linker.is_source(file) {
        ""
    } else if linker.has_path(linker.path_of(file)) {
        "+"
    } else {
        "-"
    }
}

/// Adds the line of a file.
fn add_file(draft: &mut Draft, linker: &Linker, file: usize)
    requires { file < length linker.now }
{
    let mark = mark_in(linker, file);
    draft.add(mark);
    draft.add(linker.path_of(file));
    draft.add(" ");
    add_sights(draft, linker, file);
    if let Some(facts) = linker.facts_of(file) {
        if mark.is_empty() {
            add_uses(draft, linker, file, facts);
        }
    }
    draft.add("\n");
}

/// Adds the line of an uncertain use.
pub(crate) fn add_uncertain(draft: &mut Draft, uncertain: UncertainUse) {
    draft.add("uncertain");
    add_place(draft, uncertain.place);
    draft.add(" behind ");
    draft.add_size(uncertain.behind);
    draft.add("\n");
}

/// Adds the lines of all uncertain uses.
fn add_all_uncertain(draft: &mut Draft, linker: &Linker) {
    let Ok(uses) = linker.uncertain_uses(draft.alloc()) else {
        draft.cut();
        return;
    };
    for uncertain in uses.as_slice() {
        add_uncertain(draft, *uncertain);
    }
}

/// What a linker answers.
fn listing_of(alloc: Global, linker: &Linker) -> Made<String> {
    linker.linked();
    let mut draft = Draft::new(alloc);
    for file in 0..linker.count() {
        add_file(&mut draft, linker, file);
    }
    add_all_uncertain(&mut draft, linker);
    draft.finish()
}

/// The line of a fault.
pub(crate) fn line_of(alloc: Global, fault: LinkFault) -> Made<String> {
    let mut draft = Draft::new(alloc);
    add_fault(&mut draft, fault);
    draft.add("\n");
    draft.finish()
}

/// What a linker answers; nothing where it has a path that no file has.
pub(crate) fn listing_with_paths(alloc: Global, linker: &Linker) -> Made<String> {
    if linker.has_path("none.proto") {
        Ok(String::new(alloc))
    } else {
        listing_of(alloc, linker)
    }
}

/// What linking answers to files, no two of which have one path.
pub(crate) fn answer_of<'a>(
    alloc: Global,
    files: &'a [LinkFile<'a, '_>],
    duplicates: Duplicates,
) -> Made<String>
    requires { HaveOwnPaths files.now }
{
    match Linker::new(alloc, files, duplicates) {
        Ok(linker) => listing_with_paths(alloc, &linker),
        Err(LinkFault::Memory) => Err(AllocError),
        Err(fault) => line_of(alloc, fault),
    }
}

/// What linking answers to the same files in two parts, of which the names are listed first.
pub(crate) fn answer_in_parts<'a>(
    alloc: Global,
    files: &'a [LinkFile<'a, '_>],
    duplicates: Duplicates,
) -> Made<String>
    requires { HaveOwnPaths files.now }
{
    let listed = ListedNames::of(alloc, files)?;
    match CheckedFiles::of(alloc, files, duplicates) {
        Ok(checked) => listing_with_paths(alloc, &Linker::joined(checked, listed)),
        Err(LinkFault::Memory) => Err(AllocError),
        Err(fault) => line_of(alloc, fault),
    }
}
