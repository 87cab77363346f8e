//! What the options of a file name, as a text of a line for each option.

ghost use Rattle.std.specs.Prelude.{◌≡◌, IsTrue};
ghost use Rattle.proto_visibility.specs.Reaches.{LinksOptions};

use crate::files::{Known, files_in, files_of, known_of};
use crate::kept::kept_lines;
use option_link::{
    FilesBeside, OptionFacts, OptionLinker, OptionTargets, UncertainName, fields_are_in_order,
};
use proto_decl::FileFacts;
use proto_link::{Duplicates, Entity, LinkFile, Linker, have_own_paths};
use proto_options::{FileOption, OptionName};
use std::alloc::Global;
use test_kit::{Draft, FileText, Made};

/// Adds the words of a name.
fn add_words(draft: &mut Draft, source: &str, name: &OptionName) {
    let mut mark = "";
    for span in name.name.components.as_slice() {
        draft.add(mark);
        match source.get(span.start as usize..span.end as usize) {
            Some(word) => draft.add(word),
            None => draft.add("?"),
        }
        mark = ".";
    }
}

/// Adds the full name of a declaration.
fn add_declared(draft: &mut Draft, linker: &Linker<'_, '_>, file: usize, index: usize) {
    if file >= linker.count() {
        return;
    }
    let Some(facts) = linker.facts_of(file) else {
        return;
    };
    let Some(declaration) = facts.declarations().get(index) else {
        return;
    };
    match declaration.full_name().to_text(draft.alloc()) {
        Ok(text) => draft.add(text.as_str()),
        Err(_) => draft.cut(),
    }
}

/// Adds what the components of a name name: packages by how many components they have, the others by their full names.
fn add_target(draft: &mut Draft, linker: &Linker<'_, '_>, parts: &[Entity]) {
    for part in parts {
        draft.add(">");
        match part {
            Entity::Package(count) => draft.add_size(*count),
            Entity::Declared(file, index) => add_declared(draft, linker, *file, *index),
        }
    }
}

/// Adds a mark and the number of the file behind, if this is the uncertain name.
fn add_doubt(draft: &mut Draft, number: usize, uncertain: Option<UncertainName>) {
    if let Some(uncertain) = uncertain {
        if uncertain.name_number == number {
            draft.add("!");
            draft.add_size(uncertain.behind);
        }
    }
}

/// Adds the line of an option: each name, with what it names, or with a `?` if it is the gap; the uncertain one with a
/// `!`.
fn add_option(
    draft: &mut Draft,
    linker: &Linker<'_, '_>,
    source: &str,
    option: &FileOption,
    found: &OptionTargets,
) {
    let mut mark = "";
    for (number, name) in option.setting.names.as_slice().iter().enumerate() {
        draft.add(mark);
        add_words(draft, source, name);
        for target in found.targets.as_slice() {
            if target.name_number == number {
                add_target(draft, linker, target.parts.as_slice());
            }
        }
        if found.gap == Some(number) {
            draft.add("?");
        }
        add_doubt(draft, number, found.uncertain);
        mark = " ";
    }
    draft.add("\n");
}

/// Adds the lines of the options of the first file.
fn add_options(
    draft: &mut Draft,
    linker: &Linker<'_, '_>,
    options: &OptionLinker<'_, '_, '_>,
    source: &str,
) -> Made<()>
    requires files { options.now.files ≡ linker.now }
    requires links { LinksOptions linker.now 0 }
{
    if linker.count() == 0 || !linker.is_source(0) {
        return Ok(());
    }
    for option in options.options_of(0) {
        let found = (&*options).targets(draft.alloc(), 0, &*source, option)?;
        add_option(draft, linker, source, option, &found);
    }
    Ok(())
}

/// What is known of the files beside their facts.
fn beside_of<'k>(alloc: Global, known: &'k [OptionFacts]) -> Made<FilesBeside<'k>> {
    let mut beside = FilesBeside::new(alloc);
    for its in known {
        beside.push(Some(its))?;
    }
    Ok(beside)
}

/// What is listed of files that are linked, by what is known of each.
fn lines_with<'n>(
    alloc: Global,
    linker: &'n Linker<'_, '_>,
    beside: &'n FilesBeside<'_>,
    source: &str,
) -> Made<Draft>
    requires { LinksOptions linker.now 0 }
{
    let mut draft = Draft::new(alloc);
    if beside.count() != linker.count() || !fields_are_in_order(beside) {
        return Ok(draft);
    }
    let options = OptionLinker::new(alloc, linker, beside)?;
    add_options(&mut draft, linker, &options, source)?;
    Ok(draft)
}

/// What is listed of files that are linked.
pub(crate) fn lines_of(
    alloc: Global,
    linker: &Linker<'_, '_>,
    known: &[OptionFacts],
    source: &str,
) -> Made<Draft>
    requires { LinksOptions linker.now 0 }
{
    let beside = beside_of(alloc, known)?;
    lines_with(alloc, linker, &beside, source)
}

/// The files that are linked.
fn linked_files<'a, 't>(
    alloc: Global,
    files: &'a [FileText<'a>],
    facts: &'a [Option<FileFacts<'t>>],
) -> Made<Vec<LinkFile<'a, 't>>> {
    let mut linked = Vec::new(alloc);
    for (file, its) in files.iter().zip(facts.iter()) {
        linked.push(LinkFile {
            path: file.path,
            facts: its.as_ref(),
            included: file.is_included,
            left_out: file.is_left_out,
            links_options: true,
        })?;
    }
    Ok(linked)
}

/// Whether names in the options of the first of these files are linked.
pub(crate) fn first_links(files: &[LinkFile<'_, '_>]) -> bool
    ensures { IsTrue result → LinksOptions files.now 0 }
{
    match files {
        [] => false,
        [first, ..] => first.links_options,
    }
}

/// What is listed of files that can be linked, or that they can't be.
fn listing_of(
    alloc: Global,
    linked: &[LinkFile<'_, '_>],
    known: &[OptionFacts],
    source: &str,
    duplicates: Duplicates,
) -> Made<String> {
    if !first_links(linked) || !have_own_paths(alloc, linked)? {
        return Draft::new(alloc).finish();
    }
    match Linker::new(alloc, linked, duplicates) {
        Ok(linker) => lines_of(alloc, &linker, known, source)?.finish(),
        Err(_) => {
            let mut draft = Draft::new(alloc);
            draft.add("not linked\n");
            draft.finish()
        }
    }
}

/// What is listed of files of which an import may name one that is left out.
fn listing_of_kept<'a>(
    alloc: Global,
    linked: &'a [LinkFile<'a, '_>],
    known: &[OptionFacts],
    source: &str,
) -> Made<String> {
    if !have_own_paths(alloc, linked)? {
        return Draft::new(alloc).finish();
    }
    kept_lines(alloc, linked, known, source, Duplicates::Refuse)
}

/// The files of a row are linked in one of these ways.
#[derive(Clone, Copy)]
enum Tree {
    /// With those of `google.protobuf`, as one namespace.
    Added,
    /// As they are: the row has all files, and each is one.
    Whole,
    /// With those of `google.protobuf`, as one namespace, where an import may name a file that is left out.
    Kept,
}

/// What is listed of files.
fn listing(alloc: Global, files: &[FileText<'_>], tree: Tree) -> Made<String> {
    let mut facts = Vec::new(alloc);
    let mut known = Vec::new(alloc);
    for (number, file) in files.iter().enumerate() {
        let Known { facts: its, beside } = known_of(alloc, number, file.text)?;
        facts.push(its)?;
        known.push(beside)?;
    }
    let linked = linked_files(alloc, files, facts.as_slice())?;
    let source = files.first().map_or("", |file| file.text);
    let (all, beside) = (linked.as_slice(), known.as_slice());
    match tree {
        Tree::Added => listing_of(alloc, all, beside, source, Duplicates::Refuse),
        Tree::Whole => listing_of(alloc, all, beside, source, Duplicates::Keep),
        Tree::Kept => listing_of_kept(alloc, all, beside, source),
    }
}

/// What is listed of a row.
fn listing_in(alloc: Global, row: &str, tree: Tree) -> Made<String> {
    let files = match tree {
        Tree::Whole => files_in(alloc, row)?,
        Tree::Added | Tree::Kept => files_of(alloc, row)?,
    };
    listing(alloc, files.as_slice(), tree)
}

/// Whether the options of the first file of a row name what a listing says. They are listed again if not, since memory
/// may have run out.
pub(crate) fn is_listed(alloc: Global, row: &str, want: &str) -> bool {
    is_listed_once(alloc, row, Tree::Added, want) || is_listed_once(alloc, row, Tree::Added, want)
}

/// The same of a row in which an import may name a file that is left out.
pub(crate) fn is_listed_kept(alloc: Global, row: &str, want: &str) -> bool {
    is_listed_once(alloc, row, Tree::Kept, want) || is_listed_once(alloc, row, Tree::Kept, want)
}

/// The same of a row with all files of the tree, of which several may give one name.
pub(crate) fn is_listed_whole(alloc: Global, row: &str, want: &str) -> bool {
    is_listed_once(alloc, row, Tree::Whole, want) || is_listed_once(alloc, row, Tree::Whole, want)
}

/// A file with an option below other text, and other files, as a row.
fn row_of(alloc: Global, above: &str, option: &str, others: &str) -> Made<String> {
    let mut draft = Draft::new(alloc);
    draft.add(above);
    draft.add(option);
    draft.add("\n|");
    draft.add(others);
    draft.finish()
}

/// Whether an option below other text of a file, with other files, names what a listing says, once.
fn is_listed_beside_once(
    alloc: Global,
    above: &str,
    option: &str,
    others: &str,
    want: &str,
) -> bool {
    match row_of(alloc, above, option, others) {
        Ok(row) => is_listed_once(alloc, row.as_str(), Tree::Added, want),
        Err(_) => false,
    }
}

/// Whether an option below other text of a file, with other files, names what a listing says. It is listed again if
/// not, since memory may have run out.
pub(crate) fn is_listed_beside(
    alloc: Global,
    above: &str,
    option: &str,
    others: &str,
    want: &str,
) -> bool {
    is_listed_beside_once(alloc, above, option, others, want)
        || is_listed_beside_once(alloc, above, option, others, want)
}

/// The same without other files.
pub(crate) fn is_listed_below(alloc: Global, above: &str, option: &str, want: &str) -> bool {
    is_listed_beside(alloc, above, option, "", want)
}

/// Whether this is listed of a row, once.
fn is_listed_once(alloc: Global, row: &str, tree: Tree, want: &str) -> bool {
    match listing_in(alloc, row, tree) {
        Ok(lines) => lines.as_str() == want,
        Err(_) => false,
    }
}
