//! Where declarations are: what is around those of one file, message, service or enum.

ghost use Rattle.std.specs.Prelude.{◌≡◌, ◌++◌, ◌∷◌, [], IfOk};
ghost use Rattle.proto_lex.specs.Lexed.{IsPart};
ghost use Rattle.proto_decl.specs.Names.{hash64_front};
ghost use Rattle.proto_decl.specs.Declares.{scope_heading, step_to, inside, beside};

use crate::declaration::{DeclarationKind, DeclarationStep};
use crate::full_name::hash64_front;
use crate::names::{qualified, spelling_at};
use basics::{KeptText, OwnedText, Sequence};
use proto_parse::{Head, Heading};
use std::alloc::{AllocError, Global};
use std::marker::Model;
use std::sync::Arc;

/// The full name of a scope, its hash in front of a name in it, and the path to what declarations are in.
///
/// Contracts see the list of the full name's bytes, and the path.
#[derive(Debug, Drop)]
pub(crate) struct Around<'t> {
    scope: OwnedText,
    hash64: u64,
    path: Sequence<DeclarationStep<'t>>,
}

impl<'t> Model for Around<'t> {
    ghost use Rattle.std.specs.Prelude.{◌≡◌};
    ghost use Rattle.proto_decl.specs.Values.{Surrounding};
    ghost use Rattle.proto_decl.specs.Names.{hash64_front};

    ghost Value = { Surrounding };

    ghost view = { λ inside. record { scope = inside.scope; path = inside.path } };

    ghost invariant = { λ inside. inside.hash64 ≡ hash64_front inside.scope };
}

impl<'t> Around<'t> {
    /// The scope with this full name, and this path.
    pub(crate) fn new(scope: OwnedText, path: Sequence<DeclarationStep<'t>>) -> Around<'t>
        ensures { result ≡ record { scope = scope; path = path.entry } }
    {
        let hash64 = hash64_front(scope.as_str());
        Around {
            scope,
            hash64,
            path,
        }
    }

    /// The full name.
    pub(crate) fn scope(&self) -> &str
        ensures { result.now ≡ self.now.scope }
    {
        self.scope.as_str()
    }

    /// The hash of the full name in front of a name.
    pub(crate) fn hash64(&self) -> u64
        ensures { result ≡ hash64_front self.now.scope }
    {
        self.hash64
    }

    /// The path.
    pub(crate) fn path(&self) -> &[DeclarationStep<'t>]
        ensures { result.now ≡ self.now.path }
    {
        self.path.as_slice()
    }
}

/// What is around a declaration. All that is directly in the same file, message, service or enum shares it.
///
/// Contracts see the full name of the scope, which is empty for the root, and the path to what the declaration is in.
#[derive(Debug, Drop)]
pub(crate) struct Surrounding<'t> {
    around: Arc<Around<'t>, Global>,
}

impl<'t> Model for Surrounding<'t> {
    ghost use Rattle.std.specs.Arc.{arc_value};
    ghost use Rattle.proto_decl.specs.Values.{Surrounding};

    ghost Value = { Surrounding };

    ghost view = { λ shared. arc_value shared.around };
}

impl<'t> Surrounding<'t> {
    /// The surrounding with this full name of the scope and this path, which has one owner.
    pub(crate) fn new(
        alloc: Global,
        scope: OwnedText,
        path: Sequence<DeclarationStep<'t>>,
    ) -> Result<Surrounding<'t>, AllocError>
        ensures { IfOk result (λ surrounding. surrounding ≡ record { scope = scope; path = path.entry }) }
    {
        Ok(Surrounding {
            around: Arc::new(alloc, Around::new(scope, path))?,
        })
    }

    /// The same surrounding, with one owner more. Nothing is copied.
    pub(crate) fn share(&self) -> Result<Surrounding<'t>, AllocError>
        ensures { IfOk result (λ surrounding. surrounding ≡ self.now) }
    {
        Ok(Surrounding {
            around: Arc::try_clone(&self.around)?,
        })
    }

    /// The full name of the scope; the root's is empty.
    pub(crate) fn scope(&self) -> &str
        ensures { result.now ≡ self.now.scope }
    {
        self.around.scope()
    }

    /// The hash of the full name of the scope in front of a name.
    pub(crate) fn hash64(&self) -> u64
        ensures { result ≡ hash64_front self.now.scope }
    {
        self.around.hash64()
    }

    /// The path to what the declaration is in, outermost first.
    pub(crate) fn path(&self) -> &[DeclarationStep<'t>]
        ensures { result.now ≡ self.now.path }
    {
        self.around.path()
    }
}

/// The heading of a block that is a scope: of a message or a group.
pub(crate) fn scope_heading(head: &Head) -> Option<Heading>
    ensures { result ≡ scope_heading head.now }
{
    match head {
        Head::Message(heading) => Some(*heading),
        Head::Group(group) => Some(group.heading),
        Head::Oneof(_) | Head::Extend(_) => None,
    }
}

/// The same step once more.
fn copy_step<'t>(
    alloc: Global,
    step: &DeclarationStep<'t>,
) -> Result<DeclarationStep<'t>, AllocError>
    ensures { IfOk result (λ copy. copy ≡ step.now) }
{
    Ok(DeclarationStep {
        kind: step.kind,
        name: step.name.copy(alloc)?,
    })
}

/// A copy of a path, with room for one step more.
fn copy_path<'t>(
    alloc: Global,
    path: &[DeclarationStep<'t>],
) -> Result<Vec<DeclarationStep<'t>>, AllocError>
    ensures { IfOk result (λ copy. copy.items ≡ path.now) }
{
    let mut copy = Vec::with_capacity(alloc, path.len().saturating_add(1))?;
    for step in path {
        copy.push(copy_step(alloc, step)?)?;
    }
    Ok(copy)
}

/// The step to the declaration with this heading.
fn step_to<'t>(text: &'t str, kind: DeclarationKind, heading: Heading) -> DeclarationStep<'t>
    requires { IsPart text.now heading.name }
    ensures { result ≡ step_to text.now kind heading }
{
    DeclarationStep {
        kind,
        name: KeptText::borrowed(spelling_at(text, heading.name)),
    }
}

/// The steps to what stands in the declaration with this heading.
fn steps_through<'t>(
    alloc: Global,
    text: &'t str,
    path: &[DeclarationStep<'t>],
    kind: DeclarationKind,
    heading: Heading,
) -> Result<Sequence<DeclarationStep<'t>>, AllocError>
    requires { IsPart text.now heading.name }
    ensures { IfOk result (λ longer. longer ≡ path.now ++ step_to text.now kind heading ∷ []) }
{
    let mut longer = copy_path(alloc, path)?;
    longer.push(step_to(text, kind, heading))?;
    Ok(Sequence::from_vec(longer))
}

/// The surrounding of what stands in a message or a service with this heading.
pub(crate) fn inside<'t>(
    alloc: Global,
    text: &'t str,
    surrounding: &Surrounding<'t>,
    kind: DeclarationKind,
    heading: Heading,
) -> Result<Surrounding<'t>, AllocError>
    requires { IsPart text.now heading.name }
    ensures { IfOk result (λ inner. inner ≡ inside text.now surrounding.now kind heading) }
{
    let name = spelling_at(text, heading.name);
    let scope = qualified(alloc, surrounding.scope(), name)?;
    let path = steps_through(alloc, text, surrounding.path(), kind, heading)?;
    Surrounding::new(alloc, scope, path)
}

/// The surrounding of the values of an enum with this heading.
pub(crate) fn beside<'t>(
    alloc: Global,
    text: &'t str,
    surrounding: &Surrounding<'t>,
    kind: DeclarationKind,
    heading: Heading,
) -> Result<Surrounding<'t>, AllocError>
    requires { IsPart text.now heading.name }
    ensures { IfOk result (λ inner. inner ≡ beside text.now surrounding.now kind heading) }
{
    let scope = OwnedText::copy_of(alloc, surrounding.scope())?;
    let path = steps_through(alloc, text, surrounding.path(), kind, heading)?;
    Surrounding::new(alloc, scope, path)
}
