//! Which types a file uses.

ghost use Rattle.std.specs.Prelude.{◌≡◌, ◌++◌, All, IfOk, OnOk};
ghost use Rattle.std.specs.List.{flat_map};
ghost use Rattle.proto_lex.specs.Lexed.{IsPart};
ghost use Rattle.proto_decl.specs.Names.{components_at};
ghost use Rattle.proto_decl.specs.Spans.{OfTypeName, OfType, OfHead, OfMethod, OfParts};
ghost use Rattle.proto_decl.specs.Uses as spec;
ghost use Rattle.proto_decl.specs.Walked as walked;

use crate::imports::{end_of, start_of};
use crate::names::spelling_at;
use crate::scopes::ScopeName;
use crate::surrounding::Surrounding;
use basics::{Sequence, TextRef};
use proto_lex::Span;
use proto_parse::{FieldType, Head, Leaf, Method, TypeName};
use std::alloc::{AllocError, Global};

/// A component of a dotted name, and where it stands.
#[derive(Debug, Drop)]
pub struct Component<'t> {
    /// Its text, without dots.
    pub name: TextRef<'t>,
    /// Where it stands in the source.
    pub span: Span,
}

/// A use of a message or an enum: the type of a field, of a map's values, of what a method takes
/// or gives, or the type that an `extend` extends.
#[derive(Debug, Drop)]
pub struct Use<'t> {
    /// The components of the name, in order, at least one.
    pub components: Sequence<Component<'t>>,
    /// Whether a dot stands before the first component.
    pub has_leading_dot: bool,
    /// Whether the name is that of the type that an `extend` extends.
    pub is_extended: bool,
    /// From the first token, the leading dot included, to the last one.
    pub span: Span,
    /// The full name of the innermost scope: the message or the service around the use. From each
    /// scope `scope_around` gives the next one.
    pub scope: ScopeName<'t>,
}

/// The components that stand at these spans.
pub(crate) fn components_at<'t>(
    alloc: Global,
    text: &'t str,
    spans: &[Span],
) -> Result<Sequence<Component<'t>>, AllocError>
    requires { All (IsPart text.now) spans.now }
    ensures { IfOk result (λ components. components ≡ components_at text.now spans.now) }
{
    let mut components = Vec::with_capacity(alloc, spans.len())?;
    for span in spans {
        components.push(Component {
            name: TextRef::new(spelling_at(text, *span)),
            span: *span,
        })?;
    }
    Ok(Sequence::from_vec(components))
}

/// Where a type's name starts.
fn name_start(leading_dot: Option<Span>, components: &[Span]) -> u32
    ensures { result ≡ spec.name_start leading_dot components.now }
{
    match leading_dot {
        None => start_of(components),
        Some(dot) => dot.start,
    }
}

/// The use of a type in a surrounding, by an `extend` or not.
fn use_of<'t>(
    alloc: Global,
    text: &'t str,
    surrounding: &Surrounding<'t>,
    name: &TypeName,
    is_extended: bool,
) -> Result<Use<'t>, AllocError>
    requires { OfTypeName (IsPart text.now) name.now }
    ensures { IfOk result (λ found. found ≡ spec.use_of is_extended text.now surrounding.now.scope name.now) }
{
    let components = name.components.as_slice();
    Ok(Use {
        components: components_at(alloc, text, components)?,
        has_leading_dot: name.leading_dot.is_some(),
        is_extended,
        span: Span {
            start: name_start(name.leading_dot, components),
            end: end_of(components),
        },
        scope: ScopeName::of(surrounding)?,
    })
}

/// Appends the use of a type, where it isn't a scalar one.
fn use_type<'t>(
    alloc: Global,
    text: &'t str,
    surrounding: &Surrounding<'t>,
    field_type: &FieldType,
    uses: &mut Vec<Use<'t>>,
) -> Result<(), AllocError>
    requires { OfType (IsPart text.now) field_type.now }
    ensures { OnOk result (uses.new.items
        ≡ uses.old.items ++ walked.uses_of_type text.now surrounding.now.scope field_type.now) }
{
    match field_type {
        FieldType::Scalar(_) => Ok(()),
        FieldType::Named(name) => {
            uses.push(use_of(alloc, text, surrounding, name, false)?)?;
            Ok(())
        }
    }
}

/// Appends the uses of methods, of each what it takes, then what it gives.
pub(crate) fn use_methods<'t>(
    alloc: Global,
    text: &'t str,
    surrounding: &Surrounding<'t>,
    methods: &[Method],
    uses: &mut Vec<Use<'t>>,
) -> Result<(), AllocError>
    requires { All (OfMethod (IsPart text.now)) methods.now }
    ensures { OnOk result (uses.new.items
        ≡ uses.old.items ++ flat_map (walked.uses_of_method text.now surrounding.now) methods.now) }
{
    for method in methods {
        uses.push(use_of(alloc, text, surrounding, &method.input, false)?)?;
        uses.push(use_of(alloc, text, surrounding, &method.output, false)?)?;
    }
    Ok(())
}

/// Appends the uses of what stands in a block, other than a block.
#[tactic(auto, using(crate::proofs::WalkedLemmas::enum_uses_none))]
pub(crate) fn use_leaf<'t>(
    alloc: Global,
    text: &'t str,
    surrounding: &Surrounding<'t>,
    leaf: &Leaf,
    uses: &mut Vec<Use<'t>>,
) -> Result<(), AllocError>
    requires { OfParts (IsPart text.now) (walked.parts_in_leaf leaf.now) }
    ensures { OnOk result (uses.new.items
        ≡ uses.old.items ++ walked.uses_in_leaf text.now surrounding.now leaf.now) }
{
    match leaf {
        Leaf::Enum(_) => Ok(()),
        Leaf::Field(field) => use_type(alloc, text, surrounding, &field.field_type, uses),
        Leaf::MapField(field) => use_type(alloc, text, surrounding, &field.value, uses),
    }
}

/// Appends the use of the type that an extend extends.
pub(crate) fn use_head<'t>(
    alloc: Global,
    text: &'t str,
    surrounding: &Surrounding<'t>,
    head: &Head,
    uses: &mut Vec<Use<'t>>,
) -> Result<(), AllocError>
    requires { OfHead (IsPart text.now) head.now }
    ensures { OnOk result (uses.new.items
        ≡ uses.old.items ++ walked.uses_of_head text.now surrounding.now head.now) }
{
    match head {
        Head::Extend(name) => {
            uses.push(use_of(alloc, text, surrounding, name, true)?)?;
            Ok(())
        }
        Head::Message(_) | Head::Group(_) | Head::Oneof(_) => Ok(()),
    }
}
