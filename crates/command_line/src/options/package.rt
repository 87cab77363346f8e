//! `--manager`, `--package` and `--release`: the package that symbols name.

ghost use Rattle.std.specs.Prelude.{◌≡◌};
ghost use Rattle.clap.specs.Words.{rule_of};
ghost use Rattle.command_line.specs.Options.Package.{manager_rule, package_rule, release_rule};

use crate::arguments::option;
use clap::Arg;
use std::alloc::Global;

pub(crate) const MANAGER: &str = "manager";

pub(crate) const PACKAGE: &str = "package";

pub(crate) const RELEASE: &str = "release";

/// The option on its manager.
pub(crate) fn manager<'a>(alloc: Global) -> Arg<'a>
    ensures { rule_of result ≡ manager_rule }
{
    let help = "The manager of the package that the symbols name, empty if not given";
    option(alloc, MANAGER, "NAME", help)
}

/// The option on its name.
pub(crate) fn package<'a>(alloc: Global) -> Arg<'a>
    ensures { rule_of result ≡ package_rule }
{
    let help = "The name of that package, empty if not given";
    option(alloc, PACKAGE, "NAME", help)
}

/// The option on its release.
pub(crate) fn release<'a>(alloc: Global) -> Arg<'a>
    ensures { rule_of result ≡ release_rule }
{
    let help = "The release of that package, empty if not given";
    option(alloc, RELEASE, "TEXT", help)
}
