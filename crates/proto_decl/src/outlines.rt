//! What a file declares, before the comments are looked for.

ghost use Rattle.std.specs.Prelude.{◌≡◌, ◌++◌, All, IfOk, OnOk};
ghost use Rattle.std.specs.List.{flat_map};
ghost use Rattle.proto_lex.specs.Lexed.{IsPart};
ghost use Rattle.proto_parse.specs.tree.Head.TheVariants as Head;
ghost use Rattle.proto_decl.specs.Spans.{OfHeading, OfGroup, OfHead, OfMethod, OfParts};
ghost use Rattle.proto_parse.specs.Parts.Part.{ValuePart, MethodPart};
ghost use Rattle.proto_decl.specs.Declares as spec;
ghost use Rattle.proto_decl.specs.Walked as walked;

use crate::declaration::{DeclarationKind, DeclarationStep, Outline};
use crate::names::{small_letters, spelling_at};
use crate::surrounding::{Surrounding, beside};
use basics::KeptText;
use proto_parse::{Enum, Group, Head, Heading, Leaf, Method};
use std::alloc::{AllocError, Global};

/// The outline of a declaration with this simple name, which stands at this heading.
fn outline_named<'t>(
    surrounding: &Surrounding<'t>,
    kind: DeclarationKind,
    name: KeptText<'t>,
    heading: Heading,
) -> Result<Outline<'t>, AllocError>
    ensures { IfOk result (λ outline. outline ≡ spec.outline_named surrounding.now kind name.entry heading) }
{
    let shared = surrounding.share()?;
    Ok(Outline::new(shared, DeclarationStep { kind, name }, heading))
}

/// The outline of a declaration with this heading.
pub(crate) fn outline_at<'t>(
    text: &'t str,
    surrounding: &Surrounding<'t>,
    kind: DeclarationKind,
    heading: Heading,
) -> Result<Outline<'t>, AllocError>
    requires { OfHeading (IsPart text.now) heading }
    ensures { IfOk result (λ outline. outline ≡ spec.outline_at text.now surrounding.now kind heading) }
{
    let name = KeptText::borrowed(spelling_at(text, heading.name));
    outline_named(surrounding, kind, name, heading)
}

/// Appends the outlines of an enum and its values.
pub(crate) fn outline_enum<'t>(
    alloc: Global,
    text: &'t str,
    surrounding: &Surrounding<'t>,
    declared: &Enum,
    outlines: &mut Vec<Outline<'t>>,
) -> Result<(), AllocError>
    requires { OfParts (IsPart text.now) (walked.parts_in_enum declared.now) }
    ensures { OnOk result (outlines.new.items
        ≡ outlines.old.items ++ walked.in_enum text.now surrounding.now declared.now) }
{
    let heading = declared.heading;
    outlines.push(outline_at(text, surrounding, DeclarationKind::Enum, heading)?)?;
    let values = beside(alloc, text, surrounding, DeclarationKind::Enum, heading)?;
    outline_values(text, &values, declared.values.as_slice(), outlines)
}

/// Appends the outlines of an enum's values.
fn outline_values<'t>(
    text: &'t str,
    surrounding: &Surrounding<'t>,
    values: &[Heading],
    outlines: &mut Vec<Outline<'t>>,
) -> Result<(), AllocError>
    requires { All (OfHeading (IsPart text.now)) values.now }
    ensures { OnOk result (outlines.new.items
        ≡ outlines.old.items ++ flat_map (λ value. spec.declared_by text.now surrounding.now (ValuePart value))
        values.now) }
{
    for value in values {
        outlines.push(outline_at(text, surrounding, DeclarationKind::Value, *value)?)?;
    }
    Ok(())
}

/// Appends the outlines of methods.
pub(crate) fn outline_methods<'t>(
    text: &'t str,
    surrounding: &Surrounding<'t>,
    methods: &[Method],
    outlines: &mut Vec<Outline<'t>>,
) -> Result<(), AllocError>
    requires { All (OfMethod (IsPart text.now)) methods.now }
    ensures { OnOk result (outlines.new.items
        ≡ outlines.old.items ++ flat_map (λ method. spec.declared_by text.now surrounding.now (MethodPart method))
        methods.now) }
{
    for method in methods {
        outlines.push(outline_at(text, surrounding, DeclarationKind::Method, method.heading)?)?;
    }
    Ok(())
}

/// Appends the outlines of what stands in a block, other than a block.
pub(crate) fn outline_leaf<'t>(
    alloc: Global,
    text: &'t str,
    surrounding: &Surrounding<'t>,
    leaf: &Leaf,
    outlines: &mut Vec<Outline<'t>>,
) -> Result<(), AllocError>
    requires { OfParts (IsPart text.now) (walked.parts_in_leaf leaf.now) }
    ensures { OnOk result (outlines.new.items
        ≡ outlines.old.items ++ walked.in_leaf text.now surrounding.now leaf.now) }
{
    let heading = match leaf {
        Leaf::Enum(declared) => return outline_enum(alloc, text, surrounding, declared, outlines),
        Leaf::Field(field) => field.heading,
        Leaf::MapField(field) => field.heading,
    };
    outlines.push(outline_at(text, surrounding, DeclarationKind::Field, heading)?)?;
    Ok(())
}

/// Appends the outlines of the field and of the message that a group declares.
fn outline_group<'t>(
    alloc: Global,
    text: &'t str,
    surrounding: &Surrounding<'t>,
    group: Group,
    outlines: &mut Vec<Outline<'t>>,
) -> Result<(), AllocError>
    requires { OfGroup (IsPart text.now) group }
    ensures { OnOk result (outlines.new.items
        ≡ outlines.old.items ++ spec.in_head text.now surrounding.now (Head.Group group)) }
{
    let name = small_letters(alloc, spelling_at(text, group.heading.name))?;
    let place = Heading {
        first: group.heading.first,
        name: group.word,
        closing: group.heading.closing,
    };
    let field = KeptText::owned(alloc, name)?;
    outlines.push(outline_named(surrounding, DeclarationKind::Field, field, place)?)?;
    outlines.push(outline_at(text, surrounding, DeclarationKind::Message, group.heading)?)?;
    Ok(())
}

/// Appends the outlines of what a block declares, without what stands in it.
pub(crate) fn outline_head<'t>(
    alloc: Global,
    text: &'t str,
    surrounding: &Surrounding<'t>,
    head: &Head,
    outlines: &mut Vec<Outline<'t>>,
) -> Result<(), AllocError>
    requires { OfHead (IsPart text.now) head.now }
    ensures { OnOk result (outlines.new.items ≡ outlines.old.items ++ spec.in_head text.now surrounding.now head.now) }
{
    let (kind, heading) = match head {
        Head::Message(heading) => (DeclarationKind::Message, *heading),
        Head::Oneof(heading) => (DeclarationKind::Oneof, *heading),
        Head::Group(group) => return outline_group(alloc, text, surrounding, *group, outlines),
        Head::Extend(_) => return Ok(()),
    };
    outlines.push(outline_at(text, surrounding, kind, heading)?)?;
    Ok(())
}
