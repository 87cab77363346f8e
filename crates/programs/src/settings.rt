//! What options say about the run.

ghost use Rattle.std.specs.Prelude.{◌≡◌, IfOk};
ghost use Rattle.std.specs.Option.{option_map};
ghost use Rattle.std.specs.String.{string_bytes};
ghost use Rattle.programs.specs.Settings.{leaves_out, settings_in};

use basics::OwnedText;
use command_line::IndexOptions;
use scip_build::{Faulty, Settings};
use scip_model::FilePackages;
use std::alloc::{AllocError, Global};

/// Whether what can't be read below the folders is left out.
pub(crate) fn leaves_out(options: &IndexOptions) -> bool
    ensures { result ≡ leaves_out options.now.faulty }
{
    match options.faulty {
        Faulty::Refuse => false,
        Faulty::Skip => true,
    }
}

/// The settings that options ask for, with these packages.
pub(crate) fn settings_of(
    alloc: Global,
    options: &IndexOptions,
    packages: FilePackages,
) -> Result<Settings, AllocError>
    ensures { IfOk result (λ settings. settings ≡ settings_in options.now packages) }
{
    Ok(Settings {
        project_root: OwnedText::copy_of(alloc, options.project_root.as_str())?,
        at: OwnedText::copy_of(alloc, options.at.as_str())?,
        package: packages,
        encoding: options.encoding,
        dialect: options.dialect,
        comments: options.comments,
        details: options.details,
        options: options.links_options,
        faulty: options.faulty,
        duplicates: options.duplicates,
    })
}

/// The full name of `--only`.
pub(crate) fn only_of(options: &IndexOptions) -> Option<&str>
    ensures { option_map (λ text. text.now) result ≡ option_map string_bytes options.now.only }
{
    match &options.only {
        Some(only) => Some(only.as_str()),
        None => None,
    }
}
