//! `--include` and `--include-package`: the folders with included files, and the packages that those of some belong to.

ghost use Rattle.std.specs.Prelude.{◌≡◌, IfOk, map};
ghost use Rattle.clap.specs.Words.{found_of, rows_of, rule_of};
ghost use Rattle.command_line.specs.Options.Include.{
  folder_of,
  folders_in,
  include_package_rule,
  include_rule,
  package_folders_of,
};

use crate::arguments::{option, repeated};
use clap::{Arg, ArgMatches};
use std::alloc::{AllocError, Global};

pub(crate) const INCLUDE: &str = "include";

const INCLUDE_PACKAGE: &str = "include-package";

/// What one use of the second is given.
static PACKAGE_FOLDER: [&str; 4] = ["MANAGER", "NAME", "RELEASE", "DIR"];

/// A folder with included files, and the package that these belong to.
#[derive(Debug, Drop)]
pub struct PackageFolder {
    /// The package's manager, which may be empty, as may be the two that follow.
    pub manager: String,
    /// The package's name.
    pub name: String,
    /// The package's release.
    pub release: String,
    /// The path of the folder.
    pub folder: String,
}

/// The option for folders whose files belong to the run's package.
pub(crate) fn include<'a>(alloc: Global) -> Arg<'a>
    ensures { rule_of result ≡ include_rule }
{
    let help = "A folder with sources that may be imported but aren't indexed; may be given again";
    repeated(option(alloc, INCLUDE, "DIR", help))
}

/// The option for those whose files belong to another.
pub(crate) fn include_package<'a>(alloc: Global) -> Arg<'a>
    ensures { rule_of result ≡ include_package_rule }
{
    let help =
        "Like --include, for a folder whose files belong to this package; may be given again";
    let option = Arg::new(alloc, INCLUDE_PACKAGE)
        .long(INCLUDE_PACKAGE)
        .value_names(PACKAGE_FOLDER.as_slice())
        .help(help);
    repeated(option)
}

/// A folder of its own, by its four texts.
fn copy_of_folder(
    alloc: Global,
    manager: &str,
    name: &str,
    release: &str,
    folder: &str,
) -> Result<PackageFolder, AllocError>
    ensures { IfOk result (λ given. folder_of given ≡ record {
      manager = manager.now;
      name = name.now;
      release = release.now;
      folder = folder.now;
    }) }
{
    Ok(PackageFolder {
        manager: String::from_str(alloc, manager)?,
        name: String::from_str(alloc, name)?,
        release: String::from_str(alloc, release)?,
        folder: String::from_str(alloc, folder)?,
    })
}

/// The folders that texts are, four each.
fn folders_in(alloc: Global, texts: &[&str]) -> Result<Vec<PackageFolder>, AllocError>
    ensures { IfOk result (λ v. map folder_of v.items ≡ folders_in (map (λ s. s.now) texts.now)) }
{
    let mut folders = Vec::new(alloc);
    let mut rest = texts;
    while let [manager, name, release, folder, others @ ..] = rest {
        let copy = copy_of_folder(alloc, *manager, *name, *release, *folder)?;
        folders.push(copy)?;
        rest = others;
    }
    Ok(folders)
}

/// The folders of `--include-package`, in the order of the words.
pub(crate) fn package_folders_of(
    alloc: Global,
    given: &ArgMatches<'_>,
) -> Result<Vec<PackageFolder>, AllocError>
    ensures { IfOk result (λ v. map folder_of v.items ≡ package_folders_of (rows_of (found_of given.now))) }
{
    match given.get_strs(INCLUDE_PACKAGE) {
        Some(texts) => folders_in(alloc, texts),
        None => Ok(Vec::new(alloc)),
    }
}
