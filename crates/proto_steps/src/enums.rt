//! Enums.

ghost use Rattle.std.specs.Prelude.{◌≡◌};
ghost use Rattle.proto_grammar.specs.Gives.{Gives};
ghost use Rattle.proto_steps.specs.Step.{run};
ghost use Rattle.proto_steps.specs.Grammar.Definitions as grammar;

use crate::fitting::fitted;
use crate::headings::{heading, is_inside};
use crate::parts::{integer, option, options, reserved};
use basics::Sequence;
use proto_grammar::{CustomOptions, Enum, Heading, Parser, SyntaxFault, keep};
use proto_lex::TokenKind;
use std::alloc::Global;

/// An enum's value.
#[tactic(auto, unfolding(crate::specs::Step::run, crate::specs::Grammar::Definitions::value))]
fn value(parser: &mut Parser<'_>, custom: CustomOptions) -> Result<Heading, SyntaxFault>
    ensures { Gives custom (λ x. x) parser.new result (run (grammar.value custom) parser.old) }
{
    let name = parser.token(TokenKind::Identifier)?;
    parser.token(TokenKind::Equals)?;
    integer(parser, true)?;
    options(parser, custom)?;
    let closing = parser.token(TokenKind::Semicolon)?;
    Ok(Heading {
        first: name,
        name,
        closing,
    })
}

/// What is in an enum, if it is kept.
#[tactic(auto, unfolding(crate::specs::Step::run, crate::specs::Grammar::Definitions::enum_item))]
fn enum_item(parser: &mut Parser<'_>, custom: CustomOptions) -> Result<Option<Heading>, SyntaxFault>
    ensures { Gives custom (λ x. x) parser.new result (run (grammar.enum_item custom) parser.old) }
{
    if parser.is_at(TokenKind::Semicolon) {
        parser.token(TokenKind::Semicolon)?;
        return Ok(None);
    }
    if parser.is_at_word("option") {
        option(parser, custom)?;
        return Ok(None);
    }
    if parser.is_at_word("reserved") {
        reserved(parser, true)?;
        return Ok(None);
    }
    Ok(Some(value(parser, custom)?))
}

/// What comes before an enum's closing brace: its values.
#[tactic(auto, using(crate::proofs::LoopLemmas::adds_on, crate::proofs::LoopLemmas::adding_stops, crate::proofs::LoopLemmas::is_over, crate::proofs::EnumLemmas::enum_item_shorter), unfolding(crate::specs::Grammar::Definitions::enum_items))]
fn enum_items(
    parser: &mut Parser<'_>,
    alloc: Global,
    custom: CustomOptions,
) -> Result<Sequence<Heading>, SyntaxFault>
    ensures { Gives custom (λ x. x) parser.new result (run (grammar.enum_items custom) parser.old) }
{
    let mut values = Sequence::new(alloc);
    'items: while is_inside(parser) {
        let item = enum_item(parser, custom)?;
        keep(&mut values, item)?;
    }
    Ok(values)
}

/// An enum (proto3 specification, "Enum definition").
#[tactic(auto, unfolding(crate::specs::Step::run, crate::specs::Grammar::Definitions::enumeration))]
pub(crate) fn enumeration(
    parser: &mut Parser<'_>,
    alloc: Global,
    custom: CustomOptions,
) -> Result<Enum, SyntaxFault>
    ensures { Gives custom (λ x. x) parser.new result (run (grammar.enumeration custom) parser.old) }
{
    let heading = heading(parser, "enum")?;
    let values = enum_items(parser, alloc, custom)?;
    parser.token(TokenKind::CloseBrace)?;
    let values = Sequence::from_vec(fitted(alloc, values.into_vec())?);
    Ok(Enum { heading, values })
}
