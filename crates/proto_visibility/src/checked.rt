//! Files that can be linked, but for the tables of their names.

ghost use Rattle.std.specs.Prelude.{ℕ, ◌≡◌, ◌↔◌, IfOk, IfErr, MatchOption, Contains};
ghost use Rattle.proto_visibility.specs.declared.clash.Duplicates.TheVariants.{Refuse, Keep};
ghost use Rattle.proto_visibility.specs.Files.{HaveOwnPaths};
ghost use Rattle.proto_visibility.specs.Reaches.{IsReachable};
ghost use Rattle.proto_visibility.specs.Clashes.{Clash, NoClash};
ghost use Rattle.proto_visibility.specs.Tables.FileItems.{AreAllPrefixes};
ghost use Rattle.proto_visibility.specs.Linked.{CanBeLinked, MayRefuse};

use crate::absent::first_absent;
use crate::clash::{Duplicates, first_clash, numbers_differ};
use crate::fault::LinkFault;
use crate::files::{FilePlace, LinkFile, have_origins};
use crate::import_table::{numbers_of, paths_of, steps_of};
use crate::items::{all_items, all_prefixes, own_clash};
use crate::options::{OptionsIn, options_of};
use crate::rows::FileRow;
use crate::seeing::{SeenFiles, first_unread, reachable_files, seen_files};
use basics::{OwnedText, Sequence};
use std::alloc::{AllocError, Global};
use std::collections::HashMap;
use std::marker::Model;

/// Files that can be linked, and what each of them sees: a namespace that lacks the tables of names.
///
/// It can be made while another thread makes `ListedNames` of the same files. Contracts see the list of the files.
#[derive(Drop)]
pub struct CheckedFiles<'a, 't> {
    pub(crate) files: &'a [LinkFile<'a, 't>],
    pub(crate) duplicates: Duplicates,
    pub(crate) paths: HashMap<&'a str, usize>,
    pub(crate) seen: SeenFiles,
    pub(crate) options: Vec<OptionsIn>,
}

impl<'a, 't> Model for CheckedFiles<'a, 't> {
    ghost use Rattle.std.specs.Prelude.{List};
    ghost use Rattle.proto_visibility.specs.Files.{File};
    ghost use Rattle.proto_visibility.specs.Linked.{AreChecked};

    ghost Value = { List File };

    ghost view = { λ checked. checked.files.now };

    ghost invariant = { λ checked. AreChecked checked.duplicates checked.files.now checked.paths
        checked.seen checked.options.items };
}

impl<'a, 't> CheckedFiles<'a, 't> {
    /// Checks files, no two of which have one path, as `Namespace::new` does: it refuses them alike.
    #[tactic(auto, using(crate::proofs::LinkedRefusalRules::refusals))]
    pub fn of(
        alloc: Global,
        files: &'a [LinkFile<'a, 't>],
        duplicates: Duplicates,
    ) -> Result<CheckedFiles<'a, 't>, LinkFault>
        requires { HaveOwnPaths files.now }
        ensures checked { IfOk result (λ checked. checked ≡ files.now) }
        ensures can_be { IfOk result (λ _. CanBeLinked duplicates files.now) }
        ensures refused { IfErr result (MayRefuse duplicates files.now) }
    {
        let prefixes = all_prefixes(alloc, files)?;
        let checked = CheckedFiles::by_prefixes(alloc, files, prefixes.as_slice(), duplicates)?;
        Ok(checked)
    }

    /// The same, by the names of their packages' prefixes.
    #[tactic(auto, using(crate::proofs::LinkedRefusalRules::refusals))]
    pub(crate) fn by_prefixes(
        alloc: Global,
        files: &'a [LinkFile<'a, 't>],
        prefixes: &[Sequence<OwnedText>],
        duplicates: Duplicates,
    ) -> Result<CheckedFiles<'a, 't>, LinkFault>
        requires own { HaveOwnPaths files.now }
        requires prefixes { AreAllPrefixes files.now prefixes.now }
        ensures checked { IfOk result (λ checked. checked ≡ files.now) }
        ensures can_be { IfOk result (λ _. CanBeLinked duplicates files.now) }
        ensures refused { IfErr result (MayRefuse duplicates files.now) }
    {
        let numbers = numbers_of(alloc, files)?;
        let table = steps_of(alloc, files, &numbers)?;
        let options = options_of(alloc, files, table.as_slice(), &numbers)?;
        let reachable = reachable_files(alloc, files, table.as_slice(), options.as_slice())?;
        if let Some(number) = first_unread(files, &reachable) {
            return Err(LinkFault::Broken(number));
        }
        let clash = clash_among(alloc, files, prefixes, &reachable, duplicates)?;
        if let Some((first, second)) = clash {
            return Err(LinkFault::Duplicate(first, second));
        }
        let paths = paths_of(alloc, files, numbers)?;
        if let Some(place) = first_absent(files, &paths, &reachable) {
            return Err(LinkFault::MissingImport(place));
        }
        have_origins(files);
        let seen = seen_files(alloc, files, table.as_slice())?;
        Ok(CheckedFiles {
            files,
            duplicates,
            paths,
            seen,
            options,
        })
    }
}

/// The first clash of names among the items of the reachable files.
fn clash_among(
    alloc: Global,
    files: &[LinkFile],
    prefixes: &[Sequence<OwnedText>],
    reachable: &FileRow,
    duplicates: Duplicates,
) -> Result<Option<(FilePlace, FilePlace)>, AllocError>
    requires prefixes { AreAllPrefixes files.now prefixes.now }
    requires reachable { (number : ℕ) → Contains reachable.now number ↔ IsReachable files.now number }
    ensures { IfOk result (λ clash. MatchOption clash (NoClash duplicates files.now)
        (λ places. Clash duplicates files.now places.0 places.1)) }
{
    if numbers_differ(alloc, files, prefixes, reachable)? {
        return Ok(None);
    }
    match duplicates {
        Duplicates::Refuse => first_of_all(alloc, files, prefixes, reachable),
        Duplicates::Keep => first_own_clash(alloc, files, prefixes, reachable),
    }
}

/// The same where they are one namespace.
fn first_of_all(
    alloc: Global,
    files: &[LinkFile],
    prefixes: &[Sequence<OwnedText>],
    reachable: &FileRow,
) -> Result<Option<(FilePlace, FilePlace)>, AllocError>
    requires prefixes { AreAllPrefixes files.now prefixes.now }
    requires reachable { (number : ℕ) → Contains reachable.now number ↔ IsReachable files.now number }
    ensures { IfOk result (λ clash. MatchOption clash (NoClash Refuse files.now)
        (λ places. Clash Refuse files.now places.0 places.1)) }
{
    let items = all_items(alloc, files, prefixes, reachable)?;
    let clash = first_clash(alloc, items.as_slice())?;
    Ok(clash)
}

/// The same where each file is a namespace of its own.
fn first_own_clash(
    alloc: Global,
    files: &[LinkFile],
    prefixes: &[Sequence<OwnedText>],
    reachable: &FileRow,
) -> Result<Option<(FilePlace, FilePlace)>, AllocError>
    requires prefixes { AreAllPrefixes files.now prefixes.now }
    requires reachable { (number : ℕ) → Contains reachable.now number ↔ IsReachable files.now number }
    ensures { IfOk result (λ clash. MatchOption clash (NoClash Keep files.now)
        (λ places. Clash Keep files.now places.0 places.1)) }
{
    for number in reachable.as_slice() {
        let file = &files[*number];
        let own = own_clash(alloc, *number, file, prefixes[*number].as_slice())?;
        if own.is_some() {
            return Ok(own);
        }
    }
    Ok(None)
}
