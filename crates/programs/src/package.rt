//! The package that the options of `index` and `shell` name.

ghost use Rattle.std.specs.Prelude.{◌≡◌, IfOk, IfErr};
ghost use Rattle.programs.specs.Settings.{package_in};
ghost use Rattle.programs.specs.Starting.{NamesNone};
ghost use Rattle.scip_symbol.specs.Package.{IsPackage};

use crate::start_fault::StartFault;
use command_line::IndexOptions;
use scip_symbol::PackageId;
use std::alloc::Global;

/// The package that options name.
#[tactic(auto, using(crate::proofs::StartingRules::of_run))]
pub(crate) fn package_of(alloc: Global, options: &IndexOptions) -> Result<PackageId, StartFault>
    ensures named { IfOk result (λ id. (id ≡ package_in options.now) × IsPackage (package_in options.now)) }
    ensures bad { IfErr result (NamesNone options.now) }
{
    let manager = String::from_str(alloc, options.manager.as_str())?;
    let name = String::from_str(alloc, options.package.as_str())?;
    let version = String::from_str(alloc, options.release.as_str())?;
    match PackageId::new([manager, name, version]) {
        Ok(package) => Ok(package),
        Err(_) => Err(StartFault::BadPart),
    }
}
