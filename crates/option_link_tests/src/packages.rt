//! The full names of packages.

ghost use Rattle.std.specs.Prelude.{◌≡◌, ◌∷◌, IfOk, map, string_bytes};
ghost use Rattle.proto_decl.specs.Names.{dotted};

use proto_decl::Component;
use std::alloc::Global;
use test_kit::Made;

/// The names of components, joined by dots.
fn joined_names(alloc: Global, first: &Component<'_>, others: &[Component<'_>]) -> Made<String>
    ensures { IfOk result (λ joined. string_bytes joined
        ≡ dotted (map (λ component. component.name) (first.now ∷ others.now))) }
{
    let mut joined = String::from_str(alloc, first.name.as_str())?;
    for component in others {
        joined.push_str(".")?;
        joined.push_str(component.name.as_str())?;
    }
    Ok(joined)
}

/// The full name of the package with these components; empty if there are none.
pub(crate) fn package_name(alloc: Global, components: &[Component<'_>]) -> Made<String>
    ensures { IfOk result (λ name. string_bytes name ≡ dotted (map (λ component. component.name) components.now)) }
{
    match components {
        [] => Ok(String::new(alloc)),
        [first, others @ ..] => joined_names(alloc, first, others),
    }
}
