//! What names a package.

ghost use Rattle.std.specs.Prelude.{◌≡◌, ◌<◌, ◌↔◌, length, map, MatchOption, IfOk, IfErr, IsOk, IsTrue};
ghost use Rattle.std.specs.String.{string_bytes};
ghost use Rattle.scip_symbol.specs.Parts.{IsPart};
ghost use Rattle.scip_symbol.specs.Package.{IsPackage, ArePartsBelow, IsFirstBad, package_of};

use crate::reader::after;
use std::marker::Model;
use thiserror::Error;

/// Why three texts name no package: the first of them that begins with a space or is `.`, and the
/// texts as they were.
#[derive(Debug, Drop, Error)]
#[error("part {part} of a package (0 is the manager, 1 the name, 2 the version) begins with a space or is `.`")]
pub struct BadPart {
    /// 0 for the manager, 1 for the name, 2 for the version.
    pub part: usize,
    /// The manager, the name and the version that were given.
    pub parts: [String; 3],
}

/// The manager, the name and the version of a package (`scip.proto`, `Package`), each of which may
/// be empty. None begins with a space, and none is `.`.
#[derive(Debug, Drop)]
pub struct PackageId {
    parts: [String; 3],
}

impl Model for PackageId {
    ghost use Rattle.std.specs.Prelude.{map};
    ghost use Rattle.std.specs.String.{string_bytes};
    ghost use Rattle.scip_symbol.specs.Package.{Package, IsPackage, package_of};

    ghost Value = { Package };

    ghost view = { λ p. package_of (map string_bytes p.parts) };

    ghost invariant = { λ p. IsPackage (package_of (map string_bytes p.parts)) };
}

/// Whether a text is a manager, a name or a version.
fn is_part(part: &str) -> bool
    ensures { IsTrue result ↔ IsPart part.now }
{
    match after(part, " ") {
        Some(_) => false,
        None => part != ".",
    }
}

/// The number, from 0, of the first text that is no part of a package.
fn first_bad_part(parts: &[String]) -> Option<usize>
    ensures { MatchOption result
        (ArePartsBelow (map string_bytes parts.now) (length parts.now))
        (IsFirstBad (map string_bytes parts.now)) }
{
    for (index, part) in parts.iter().enumerate() {
        if !is_part(part.as_str()) {
            return Some(index);
        }
    }
    None
}

impl PackageId {
    /// The package with this manager, name and version.
    ///
    /// `BadPart`: one of them begins with a space or is `.`. It takes no memory.
    pub fn new(parts: [String; 3]) -> Result<PackageId, BadPart>
        ensures package { IfOk result (λ p. p ≡ package_of (map string_bytes parts)) }
        ensures accepted { IsPackage (package_of (map string_bytes parts)) → IsOk result }
        ensures bad { IfErr result (λ e. (e.parts ≡ parts) × (e.part < 3) × IsFirstBad (map string_bytes parts)
            e.part) }
    {
        match first_bad_part(&parts) {
            Some(part) => Err(BadPart { part, parts }),
            None => Ok(PackageId { parts }),
        }
    }

    /// The manager.
    pub fn manager(&self) -> &str
        ensures value { result.now ≡ self.now.manager }
        ensures known { IsPackage self.now }
    {
        self.parts[0].as_str()
    }

    /// The name.
    pub fn name(&self) -> &str
        ensures { result.now ≡ self.now.name }
    {
        self.parts[1].as_str()
    }

    /// The version.
    pub fn version(&self) -> &str
        ensures { result.now ≡ self.now.version }
    {
        self.parts[2].as_str()
    }
}
