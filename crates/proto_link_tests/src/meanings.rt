//! What scans of all files tell, in the form of `answers`: what a use names is found by looking at each name
//! that its file knows.

use crate::answers::{add_fault, add_part, line_of, mark_of};
use crate::doubts::add_all_uncertain;
use crate::items::{Item, add_items_of};
use crate::scans::{fault_of, is_source, seen_by};
use proto_decl::{Component, DeclarationKind, Use};
use proto_link::{Duplicates, FilePlace, LinkFault, LinkFile};
use std::alloc::Global;
use test_kit::{Draft, Made};

/// What a name is looked for as.
#[derive(Clone, Copy)]
enum Sought {
    Message,
    Type,
    Aggregate,
}

/// Whether a name of this kind is looked for. A package has none.
fn is_sought(kind: Option<DeclarationKind>, sought: Sought) -> bool {
    match (kind, sought) {
        (Some(DeclarationKind::Message), _) => true,
        (Some(DeclarationKind::Enum), Sought::Type | Sought::Aggregate) => true,
        (Some(DeclarationKind::Service) | None, Sought::Aggregate) => true,
        (_, _) => false,
    }
}

/// Whether a name is one of these items'.
fn is_known(known: &[Item], name: &str, sought: Sought) -> bool {
    for item in known {
        if item.full_name.as_str() == name && is_sought(item.kind, sought) {
            return true;
        }
    }
    false
}

/// How many words a name has.
fn words_of(name: &str) -> usize {
    name.split_terminator('.').count()
}

/// So many of the words of a scope, and components behind them.
fn name_in(alloc: Global, scope: &str, count: usize, components: &[Component]) -> Made<String> {
    let mut draft = Draft::new(alloc);
    for word in scope.split_terminator('.').take(count) {
        draft.add_word(word);
    }
    for component in components {
        draft.add_word(component.name.as_str());
    }
    draft.finish()
}

/// Whether components are known in a scope, of which so many words count.
fn is_known_in(
    alloc: Global,
    known: &[Item],
    scope: &str,
    count: usize,
    components: &[Component],
    sought: Sought,
) -> Made<bool> {
    let name = name_in(alloc, scope, count, components)?;
    Ok(is_known(known, name.as_str(), sought))
}

/// With how many words a scope is the innermost one in which components are known: all scopes are
/// tried, from the root on, and the last one counts.
fn innermost(
    alloc: Global,
    known: &[Item],
    scope: &str,
    components: &[Component],
    sought: Sought,
) -> Made<Option<usize>> {
    let mut found = None;
    for count in 0..=words_of(scope) {
        if is_known_in(alloc, known, scope, count, components, sought)? {
            found = Some(count);
        }
    }
    Ok(found)
}

/// In which scope a use is looked for, by its number of words.
pub(crate) fn start_of(alloc: Global, known: &[Item], type_use: &Use) -> Made<Option<usize>> {
    let components = type_use.components.as_slice();
    let first = components.split_at(components.len().min(1)).0;
    if type_use.has_leading_dot {
        return Ok(Some(0));
    }
    let scope = type_use.scope.as_str();
    let sought = if type_use.is_extended || components.len() > 1 {
        Sought::Aggregate
    } else {
        Sought::Type
    };
    innermost(alloc, known, scope, first, sought)
}

/// What a use may name.
fn sought_by(type_use: &Use) -> Sought {
    if type_use.is_extended {
        Sought::Message
    } else {
        Sought::Type
    }
}

/// The full name of the type that a use names.
fn name_of(alloc: Global, known: &[Item], type_use: &Use) -> Made<Option<String>> {
    let scope = type_use.scope.as_str();
    let components = type_use.components.as_slice();
    let sought = sought_by(type_use);
    match start_of(alloc, known, type_use)? {
        Some(count) if is_known_in(alloc, known, scope, count, components, sought)? => {
            Ok(Some(name_in(alloc, scope, count, components)?))
        }
        _ => Ok(None),
    }
}

/// The files that have a name which is sought, and that are left out or not, as is asked: of several the last, and how
/// many there are.
fn owners_of(
    files: &[LinkFile],
    known: &[Item],
    name: &str,
    sought: Sought,
    left_out: bool,
) -> (usize, usize) {
    let (mut last, mut count) = (0, 0usize);
    for (number, file) in files.iter().enumerate() {
        if file.left_out == left_out && has_item(known, number, name, sought) {
            last = number;
            count = count.saturating_add(1);
        }
    }
    (last, count)
}

/// Whether a use names a type: one file alone has it, and isn't left out.
pub(crate) fn has_target(
    alloc: Global,
    files: &[LinkFile],
    known: &[Item],
    type_use: &Use,
) -> Made<bool> {
    let Some(name) = name_of(alloc, known, type_use)? else {
        return Ok(false);
    };
    let sought = sought_by(type_use);
    let (_, owners) = owners_of(files, known, name.as_str(), sought, false);
    let (_, others) = owners_of(files, known, name.as_str(), sought, true);
    Ok(owners == 1 && others == 0)
}

/// Whether a file has an item with a name, which is sought.
fn has_item(known: &[Item], file: usize, name: &str, sought: Sought) -> bool {
    for item in known {
        if item.place.file == file
            && item.full_name.as_str() == name
            && is_sought(item.kind, sought)
        {
            return true;
        }
    }
    false
}

/// Adds what a full name names in a file: it is that of one declaration, or of packages, which count as one.
fn add_entity(draft: &mut Draft, known: &[Item], owner: usize, name: &str) {
    for item in known {
        if item.place.file == owner && item.full_name.as_str() == name {
            add_part(draft, item.entity);
            return;
        }
    }
}

/// Adds what the first words of a full name name in a file, of which so many count.
fn add_front(
    draft: &mut Draft,
    known: &[Item],
    owner: usize,
    name: &str,
    count: usize,
) -> Made<()> {
    let front = name_in(draft.alloc(), name, count, &[])?;
    add_entity(draft, known, owner, front.as_str());
    Ok(())
}

/// Adds a full name, and what it names in a file up to each of its last words, of which so many count.
fn add_name(draft: &mut Draft, known: &[Item], owner: usize, name: &str, count: usize) -> Made<()> {
    draft.add(name);
    let before = words_of(name).saturating_sub(count);
    for number in 0..count {
        let words = before.saturating_add(number).saturating_add(1);
        add_front(draft, known, owner, name, words)?;
    }
    Ok(())
}

/// Adds that a use names nothing, or several types.
fn add_no_target(draft: &mut Draft, file: usize, type_use: &Use, is_ambiguous: bool) {
    let place = FilePlace {
        file,
        span: type_use.span,
    };
    add_fault(
        draft,
        if is_ambiguous {
            LinkFault::Ambiguous(place)
        } else {
            LinkFault::Unresolved(place)
        },
    );
}

/// Adds what a use names.
fn add_use(
    draft: &mut Draft,
    files: &[LinkFile],
    known: &[Item],
    file: usize,
    type_use: &Use,
) -> Made<()> {
    draft.add("; ");
    let Some(name) = name_of(draft.alloc(), known, type_use)? else {
        add_no_target(draft, file, type_use, false);
        return Ok(());
    };
    let sought = sought_by(type_use);
    let (owner, owners) = owners_of(files, known, name.as_str(), sought, false);
    let (_, others) = owners_of(files, known, name.as_str(), sought, true);
    if owners == 1 && others == 0 {
        let count = type_use.components.as_slice().len();
        return add_name(draft, known, owner, name.as_str(), count);
    }
    add_no_target(draft, file, type_use, owners > 1);
    Ok(())
}

/// Adds what each of these uses names.
fn add_uses(
    draft: &mut Draft,
    files: &[LinkFile],
    known: &[Item],
    file: usize,
    uses: &[Use],
) -> Made<()> {
    for type_use in uses {
        add_use(draft, files, known, file, type_use)?;
    }
    Ok(())
}

/// Adds a file, which sees the files with these numbers, and no others.
fn add_seeing(draft: &mut Draft, files: &[LinkFile], number: usize, seen: &[usize]) -> Made<()> {
    let Some(file) = files.get(number) else {
        return Ok(());
    };
    draft.add(mark_of(file));
    draft.add(file.path);
    draft.add(" ");
    for other in 0..files.len() {
        draft.add(if seen.contains(&other) { "1" } else { "0" });
    }
    let mut known = Vec::new(draft.alloc());
    add_items_of(draft.alloc(), &mut known, files, seen)?;
    match file.facts {
        Some(facts) if is_source(file) => {
            add_uses(draft, files, known.as_slice(), number, facts.uses())
        }
        _ => Ok(()),
    }
}

/// Adds the line of a file.
fn add_file(draft: &mut Draft, files: &[LinkFile], number: usize) -> Made<()> {
    let seen = seen_by(draft.alloc(), files, &[number])?;
    add_seeing(draft, files, number, seen.as_slice())
}

/// Adds the line of each file.
fn add_files(draft: &mut Draft, files: &[LinkFile]) -> Made<()> {
    for number in 0..files.len() {
        add_file(draft, files, number)?;
        draft.add("\n");
    }
    Ok(())
}

/// What scans tell of files with clear names.
pub(crate) fn listing_of(alloc: Global, files: &[LinkFile]) -> Made<String> {
    let mut draft = Draft::new(alloc);
    add_files(&mut draft, files)?;
    add_all_uncertain(&mut draft, files)?;
    draft.finish()
}

/// What scans tell of files.
pub(crate) fn scan_of(alloc: Global, files: &[LinkFile], duplicates: Duplicates) -> Made<String> {
    match fault_of(alloc, files, duplicates)? {
        Some(fault) => line_of(alloc, fault),
        None => listing_of(alloc, files),
    }
}
