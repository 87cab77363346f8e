//! Parts that the parser reads by itself: names, options, fields, numbers and ranges.

ghost use Rattle.std.specs.Prelude.{◌≡◌};
ghost use Rattle.proto_grammar.specs.Gives.{Gives};
ghost use Rattle.proto_grammar.specs.declared.dialect.CustomOptions.TheVariants.{Skip};
ghost use Rattle.proto_steps.specs.Step.{run, passed};
ghost use Rattle.proto_steps.specs.Choice.{map_statement};
ghost use Rattle.proto_steps.specs.Grammar.Parts as grammar;
ghost use Rattle.proto_steps.specs.Grammar.Definitions.{path_literal as path_literal_step};

use basics::Sequence;
use proto_grammar::{
    CustomOptions, Field, Group, Label, MapField, Parser, Syntax, SyntaxFault, TypeName,
};
use proto_lex::Span;
use std::alloc::Global;

/// A type's name. The word of a scalar type may not be there.
pub(crate) fn named_type(parser: &mut Parser<'_>, alloc: Global) -> Result<TypeName, SyntaxFault>
    ensures { Gives Skip (λ x. x) parser.new result (run grammar.named_type parser.old) }
{
    parser.named_type(alloc)
}

/// An option.
pub(crate) fn option(parser: &mut Parser<'_>, custom: CustomOptions) -> Result<(), SyntaxFault>
    ensures { Gives custom (λ x. x) parser.new result (run (grammar.option_statement custom) parser.old) }
{
    parser.option(custom)
}

/// Options in brackets, if there are any.
pub(crate) fn options(parser: &mut Parser<'_>, custom: CustomOptions) -> Result<(), SyntaxFault>
    ensures { Gives custom (λ x. x) parser.new result (run (grammar.options custom) parser.old) }
{
    parser.options(custom)
}

/// A number. If it may be negative, a `-` may be in front of it.
pub(crate) fn integer(parser: &mut Parser<'_>, negative: bool) -> Result<(), SyntaxFault>
    ensures { Gives Skip (λ x. x) parser.new result (run (grammar.integer negative) parser.old) }
{
    parser.integer(negative)
}

/// A reserved statement. If numbers may be negative, a `-` may be in front of them.
pub(crate) fn reserved(parser: &mut Parser<'_>, negative: bool) -> Result<(), SyntaxFault>
    ensures { Gives Skip (λ x. x) parser.new result (run (grammar.reserved negative) parser.old) }
{
    parser.reserved(negative)
}

/// The ranges of a message's extensions.
pub(crate) fn extensions(parser: &mut Parser<'_>, custom: CustomOptions) -> Result<(), SyntaxFault>
    ensures { Gives custom (λ x. x) parser.new result (run (grammar.extensions custom) parser.old) }
{
    parser.extensions(custom)
}

/// A type's name, of which nothing is kept.
pub(crate) fn passed_type_name(parser: &mut Parser<'_>) -> Result<(), SyntaxFault>
    ensures { Gives Skip (λ x. x) parser.new result (run (passed grammar.type_name) parser.old) }
{
    parser.pass_type_name()
}

/// A field of proto3, of which nothing is kept.
pub(crate) fn passed_field(
    parser: &mut Parser<'_>,
    custom: CustomOptions,
) -> Result<(), SyntaxFault>
    ensures { Gives custom (λ x. x) parser.new result (run (passed (grammar.field custom)) parser.old) }
{
    parser.pass_field(custom)
}

/// A field's label, if it has one.
pub(crate) fn label(parser: &mut Parser<'_>, syntax: Syntax) -> Result<Option<Label>, SyntaxFault>
    ensures { Gives Skip (λ x. x) parser.new result (run (grammar.label syntax) parser.old) }
{
    parser.label(syntax)
}

/// A field from behind its label on, with this first token and label.
pub(crate) fn typed(
    parser: &mut Parser<'_>,
    alloc: Global,
    custom: CustomOptions,
    first: Span,
    label: Option<Label>,
) -> Result<Field, SyntaxFault>
    ensures { Gives custom (λ x. x) parser.new result (run (grammar.typed custom first label) parser.old) }
{
    parser.typed(alloc, custom, first, label)
}

/// A group up to its `{`, from behind its label on, with this first token and label.
pub(crate) fn group_head(
    parser: &mut Parser<'_>,
    custom: CustomOptions,
    first: Span,
    label: Option<Label>,
) -> Result<Group, SyntaxFault>
    ensures { Gives custom (λ x. x) parser.new result (run (grammar.group_head custom first label) parser.old) }
{
    parser.group_head(custom, first, label)
}

/// A map field.
pub(crate) fn map_field(
    parser: &mut Parser<'_>,
    alloc: Global,
    custom: CustomOptions,
) -> Result<MapField, SyntaxFault>
    ensures { Gives custom (λ x. x) parser.new result (run (map_statement custom) parser.old) }
{
    parser.map_field(alloc, custom)
}

/// A name: identifiers with dots between them.
pub(crate) fn name(parser: &mut Parser<'_>, alloc: Global) -> Result<Sequence<Span>, SyntaxFault>
    ensures { Gives Skip (λ x. x) parser.new result (run grammar.name parser.old) }
{
    parser.name(alloc)
}

/// A literal of a path: it has no `\`.
pub(crate) fn path_literal(parser: &mut Parser<'_>) -> Result<Span, SyntaxFault>
    ensures { Gives Skip (λ x. x) parser.new result (run path_literal_step parser.old) }
{
    parser.plain_literal()
}
