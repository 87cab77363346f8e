//! Which uses are uncertain, as scans tell it.

use crate::answers::add_uncertain;
use crate::items::{Item, add_items_of};
use crate::meanings::{has_target, start_of};
use crate::scans::{first_unread, is_source, seen_by};
use proto_decl::{FileFacts, Use};
use proto_link::{FilePlace, LinkFile, UncertainUse};
use std::alloc::Global;
use test_kit::{Draft, Made};

/// Whether the first word of a use is found in a scope of fewer words than this.
fn is_found_in_fewer(alloc: Global, known: &[Item], type_use: &Use, words: usize) -> Made<bool> {
    match start_of(alloc, known, type_use)? {
        Some(count) => Ok(!type_use.has_leading_dot && count < words),
        None => Ok(false),
    }
}

/// Adds those of a file's uses that name a type and whose first word is found farther out than the file's package.
fn add_uncertain_of(
    draft: &mut Draft,
    files: &[LinkFile],
    known: &[Item],
    file: usize,
    facts: &FileFacts,
    behind: usize,
) -> Made<()> {
    let words = facts.package_name().len();
    for type_use in facts.uses() {
        if is_found_in_fewer(draft.alloc(), known, type_use, words)?
            && has_target(draft.alloc(), files, known, type_use)?
        {
            let span = type_use.span;
            let place = FilePlace { file, span };
            add_uncertain(draft, UncertainUse { place, behind });
        }
    }
    Ok(())
}

/// Adds those of a file that sees these files, if it is a source and one of them has no facts.
fn add_uncertain_in(
    draft: &mut Draft,
    files: &[LinkFile],
    number: usize,
    file: &LinkFile,
    seen: &[usize],
) -> Made<()> {
    match (file.facts, first_unread(files, seen)) {
        (Some(facts), Some(behind)) if is_source(file) => {
            let mut known = Vec::new(draft.alloc());
            add_items_of(draft.alloc(), &mut known, files, seen)?;
            add_uncertain_of(draft, files, known.as_slice(), number, facts, behind)
        }
        _ => Ok(()),
    }
}

/// Adds the lines of all uncertain uses.
pub(crate) fn add_all_uncertain(draft: &mut Draft, files: &[LinkFile]) -> Made<()> {
    for (number, file) in files.iter().enumerate() {
        let seen = seen_by(draft.alloc(), files, &[number])?;
        add_uncertain_in(draft, files, number, file, seen.as_slice())?;
    }
    Ok(())
}
