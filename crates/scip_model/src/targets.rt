//! What a use of a source names, and where that is which a name in an option names.

ghost use Rattle.std.specs.Prelude.{◌≡◌, ◌<◌, ◌++◌, length, IfOk, OnOk};
ghost use Rattle.scip_model.specs.Conditions.{IsFound};
ghost use Rattle.scip_model.specs.Tables.Listing.{Finds, parts_of, unless_found};
ghost use Rattle.scip_model.specs.Tables.OptionListing.{IsLastPlace};

use option_link::DeclaredPlace;
use proto_decl::Use;
use proto_lex::Span;
use proto_link::{Entity, LinkFault, Linker, Target};
use std::alloc::{AllocError, Global};

/// What is found by the linker's answer about a use: nothing if it is `Unresolved`.
fn found_by(answer: Result<Target, LinkFault>) -> Result<Option<Target>, AllocError>
    ensures { Finds answer result }
{
    match answer {
        Ok(target) => Ok(Some(target)),
        Err(LinkFault::Unresolved(_) | LinkFault::Ambiguous(_)) => Ok(None),
        Err(_) => Err(AllocError),
    }
}

/// What a use of a file names, if it names a type.
pub(crate) fn target_of(
    alloc: Global,
    linker: &Linker<'_, '_>,
    file: usize,
    type_use: &Use,
) -> Result<Option<Target>, AllocError>
    requires { file < length linker.now }
    ensures { IfOk result (IsFound linker.now file type_use.now) }
{
    found_by(linker.resolve(alloc, file, type_use))
}

/// What the components of a use name for which this was found.
pub(crate) fn parts_of(found: &Option<Target>) -> &[Entity]
    ensures { result.now ≡ parts_of found.now }
{
    match found {
        Some(target) => target.parts.as_slice(),
        None => &[],
    }
}

/// Adds the place of a use for which nothing was found.
pub(crate) fn add_unresolved(
    spans: &mut Vec<Span>,
    found: &Option<Target>,
    span: Span,
) -> Result<(), AllocError>
    ensures { OnOk result (spans.new.items ≡ spans.old.items ++ unless_found found.now span) }
{
    if found.is_none() {
        spans.push(span)?;
    }
    Ok(())
}

/// Where the last of these parts is declared, if it is a declaration.
pub(crate) fn last_place(parts: &[Entity]) -> Option<DeclaredPlace>
    ensures { IsLastPlace parts.now result }
{
    match parts.last() {
        Some(Entity::Declared(file, index)) => Some(DeclaredPlace {
            file: *file,
            index: *index,
        }),
        _ => None,
    }
}
