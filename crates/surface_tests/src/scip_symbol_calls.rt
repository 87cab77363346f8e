//! Symbols and packages.

use crate::entities::{file_text, package_text};
use crate::shared::{package_of, parts_of, see};
use scip_symbol::{BadPart, PackageId};
use std::alloc::{AllocError, Global};
use std::test::Fail;

/// Why a manager, a name and a version are no package, if they are none.
fn bad_part_of(alloc: Global, parts: [&str; 3]) -> Result<Option<BadPart>, AllocError> {
    Ok(PackageId::new(parts_of(alloc, parts)?).err())
}

/// Whether the second part is a bad dot.
fn is_dot(bad: Option<BadPart>) -> bool {
    match bad {
        Some(bad) => bad.part == 1 && bad.parts[1].as_str() == ".",
        None => false,
    }
}

#[test]
fn package_id_refuses_a_dot(rt: HostRuntime) -> Result<(), Fail> {
    let bad = bad_part_of(rt.alloc(), ["", ".", "."])?;
    see(&rt, is_dot(bad), "the least faulty part, and the texts");
    Ok(())
}

/// Whether a text that was made is this one.
fn is_text(made: Result<String, AllocError>, due: &str) -> Result<bool, AllocError> {
    match made {
        Ok(text) => Ok(text.as_str() == due),
        Err(fault) => Err(fault),
    }
}

#[test]
fn file_symbol_is_one_namespace(rt: HostRuntime) -> Result<(), Fail> {
    let package = package_of(rt.alloc(), ["", "", ""])?;
    let text = file_text(rt.alloc(), &package);
    let is_so = is_text(text, "scip-protobuf . . . `a b.proto`/")?;
    see(&rt, is_so, "the file's symbol");
    Ok(())
}

#[test]
fn package_symbol_has_one_namespace_each(rt: HostRuntime) -> Result<(), Fail> {
    let package = package_of(rt.alloc(), ["", "", ""])?;
    let text = package_text(rt.alloc(), &package);
    let is_so = is_text(text, "scip-protobuf . . . a/b/")?;
    see(&rt, is_so, "the package's symbol");
    Ok(())
}
