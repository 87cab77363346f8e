//! What a use of a type names, and what each of its components does.

ghost use Rattle.std.specs.Prelude.{ℕ, ◌≡◌, ◌<◌, ◌≤◌, IfOk, IfErr, length};
ghost use Rattle.std.specs.String.{string_bytes};
ghost use Rattle.proto_decl.specs.Names.{components_of};
ghost use Rattle.proto_visibility.specs.declared.fault.LinkFault.TheVariants.{Ambiguous, Unresolved};
ghost use Rattle.proto_visibility.specs.Knows.{IsGiving, is_type};
ghost use Rattle.proto_link.specs.Resolves.{Resolves};
ghost use Rattle.proto_link.specs.Tables.Parts.{AreEntitiesAt};
ghost use Rattle.proto_link.specs.Targets.{IsTarget, MayRefuseUse};

use crate::lookup::{full_name_of_use, role_wanted};
use crate::parts::parts_in;
use crate::target::Target;
use basics::{OwnedText, Sequence};
use proto_decl::Use;
use proto_visibility::{Entity, FilePlace, LinkFault, Namespace};
use std::alloc::{AllocError, Global};

/// What a use names in a file's scopes.
pub(crate) fn target_of(
    alloc: Global,
    namespace: &Namespace,
    file: usize,
    type_use: &Use,
) -> Result<Target, LinkFault>
    requires { file < length namespace.now }
    ensures target { IfOk result (IsTarget namespace.now file type_use.now) }
    ensures refused { IfErr result (MayRefuseUse namespace.now file type_use.now) }
{
    match full_name_of_use(alloc, namespace, file, type_use)? {
        Some(name) => target_named(alloc, namespace, file, type_use, name),
        None => Err(unresolved(file, type_use)),
    }
}

/// The same for a use that resolves to this full name, of which some file may be the owner.
fn target_named(
    alloc: Global,
    namespace: &Namespace,
    file: usize,
    type_use: &Use,
    name: String,
) -> Result<Target, LinkFault>
    requires file { file < length namespace.now }
    requires resolves { Resolves namespace.now file type_use.now (string_bytes name) }
    ensures target { IfOk result (IsTarget namespace.now file type_use.now) }
    ensures refused { IfErr result (MayRefuseUse namespace.now file type_use.now) }
{
    let role = role_wanted(type_use.is_extended);
    match namespace.owner_of(file, name.as_str(), role) {
        Some(owner) => {
            let used = type_use.components.as_slice().len();
            let parts = parts_of(alloc, namespace, owner, name.as_str(), used)?;
            Ok(Target {
                name: OwnedText::from_string(name),
                parts: Sequence::from_vec(parts),
            })
        }
        None => {
            if namespace.is_given_twice(file, name.as_str(), role) {
                Err(ambiguous(file, type_use))
            } else {
                Err(unresolved(file, type_use))
            }
        }
    }
}

/// That a use is ambiguous, at the place of the whole use.
fn ambiguous(file: usize, type_use: &Use) -> LinkFault
    ensures { result ≡ Ambiguous (record { file = file; span = type_use.now.span }) }
{
    let span = type_use.span;
    LinkFault::Ambiguous(FilePlace { file, span })
}

/// That a use names nothing, at the place of the whole use.
fn unresolved(file: usize, type_use: &Use) -> LinkFault
    ensures { result ≡ Unresolved (record { file = file; span = type_use.now.span }) }
{
    LinkFault::Unresolved(FilePlace {
        file,
        span: type_use.span,
    })
}

/// What the last so many components of a type's full name name in the file that declares it.
fn parts_of(
    alloc: Global,
    namespace: &Namespace,
    owner: usize,
    name: &str,
    count: usize,
) -> Result<Vec<Entity>, AllocError>
    requires owner { owner < length namespace.now }
    requires gives { IsGiving namespace.now is_type name.now owner }
    requires count { count ≤ length (components_of name.now) }
    ensures { IfOk result (λ parts. AreEntitiesAt namespace.now owner name.now count parts.items) }
{
    let facts = namespace.facts_of(owner).unwrap();
    parts_in(alloc, namespace, owner, facts, name, count)
}
