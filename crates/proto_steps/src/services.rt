//! Services.

ghost use Rattle.std.specs.Prelude.{◌≡◌};
ghost use Rattle.proto_grammar.specs.Gives.{Gives};
ghost use Rattle.proto_grammar.specs.declared.dialect.CustomOptions.TheVariants.{Skip};
ghost use Rattle.proto_steps.specs.Step.{run};
ghost use Rattle.proto_steps.specs.Grammar.Definitions as grammar;

use crate::fitting::fitted;
use crate::headings::{heading, is_inside};
use crate::parts::{named_type, option};
use basics::Sequence;
use proto_grammar::{CustomOptions, Heading, Method, Parser, Service, SyntaxFault, TypeName, keep};
use proto_lex::{Span, TokenKind};
use std::alloc::Global;

/// The marker `stream`, if it is next.
#[tactic(auto, unfolding(crate::specs::Step::run, crate::specs::Grammar::Definitions::stream))]
fn stream(parser: &mut Parser<'_>) -> Result<(), SyntaxFault>
    ensures { Gives Skip (λ x. x) parser.new result (run grammar.stream parser.old) }
{
    if parser.is_at_word("stream") {
        parser.word("stream")?;
    }
    Ok(())
}

/// One of a method's two types.
#[tactic(auto, unfolding(crate::specs::Step::run, crate::specs::Grammar::Definitions::method_type))]
fn method_type(parser: &mut Parser<'_>, alloc: Global) -> Result<TypeName, SyntaxFault>
    ensures { Gives Skip (λ x. x) parser.new result (run grammar.method_type parser.old) }
{
    parser.token(TokenKind::OpenParenthesis)?;
    stream(parser)?;
    let name = named_type(parser, alloc)?;
    parser.token(TokenKind::CloseParenthesis)?;
    Ok(name)
}

/// What is in a method's body: a lone `;` or an option.
#[tactic(auto, unfolding(crate::specs::Step::run, crate::specs::Grammar::Definitions::method_item))]
fn method_item(parser: &mut Parser<'_>, custom: CustomOptions) -> Result<(), SyntaxFault>
    ensures { Gives custom (λ x. x) parser.new result (run (grammar.method_item custom) parser.old) }
{
    if parser.is_at(TokenKind::Semicolon) {
        parser.token(TokenKind::Semicolon)?;
        return Ok(());
    }
    option(parser, custom)
}

/// What comes before the closing brace of a method's body.
#[tactic(auto, using(crate::proofs::LoopLemmas::passes_on, crate::proofs::LoopLemmas::passing_stops, crate::proofs::LoopLemmas::is_over, crate::proofs::ServiceLemmas::method_item_shorter), unfolding(crate::specs::Grammar::Definitions::method_items))]
fn method_items(parser: &mut Parser<'_>, custom: CustomOptions) -> Result<(), SyntaxFault>
    ensures { Gives custom (λ x. x) parser.new result (run (grammar.method_items custom) parser.old) }
{
    'items: while is_inside(parser) {
        method_item(parser, custom)?;
    }
    Ok(())
}

/// A method's body. Gives its `{`.
#[tactic(auto, unfolding(crate::specs::Step::run, crate::specs::Grammar::Definitions::method_body))]
fn method_body(parser: &mut Parser<'_>, custom: CustomOptions) -> Result<Span, SyntaxFault>
    ensures { Gives custom (λ x. x) parser.new result (run (grammar.method_body custom) parser.old) }
{
    let open_brace = parser.token(TokenKind::OpenBrace)?;
    method_items(parser, custom)?;
    parser.token(TokenKind::CloseBrace)?;
    Ok(open_brace)
}

/// What comes after a method's result type. Gives its first token.
#[tactic(auto, unfolding(crate::specs::Step::run, crate::specs::Grammar::Definitions::method_end))]
fn method_end(parser: &mut Parser<'_>, custom: CustomOptions) -> Result<Span, SyntaxFault>
    ensures { Gives custom (λ x. x) parser.new result (run (grammar.method_end custom) parser.old) }
{
    if parser.is_at(TokenKind::Semicolon) {
        return parser.token(TokenKind::Semicolon);
    }
    method_body(parser, custom)
}

/// A method (proto3 specification, "Service definition").
#[tactic(auto, unfolding(crate::specs::Step::run, crate::specs::Grammar::Definitions::method))]
fn method(
    parser: &mut Parser<'_>,
    alloc: Global,
    custom: CustomOptions,
) -> Result<Method, SyntaxFault>
    ensures { Gives custom (λ x. x) parser.new result (run (grammar.method custom) parser.old) }
{
    let first = parser.word("rpc")?;
    let name = parser.token(TokenKind::Identifier)?;
    let input = method_type(parser, alloc)?;
    parser.word("returns")?;
    let output = method_type(parser, alloc)?;
    let closing = method_end(parser, custom)?;
    let heading = Heading {
        first,
        name,
        closing,
    };
    Ok(Method {
        heading,
        input,
        output,
    })
}

/// What is in a service, if it is kept.
#[tactic(auto, unfolding(crate::specs::Step::run, crate::specs::Grammar::Definitions::service_item))]
fn service_item(
    parser: &mut Parser<'_>,
    alloc: Global,
    custom: CustomOptions,
) -> Result<Option<Method>, SyntaxFault>
    ensures { Gives custom (λ x. x) parser.new result (run (grammar.service_item custom) parser.old) }
{
    if parser.is_at(TokenKind::Semicolon) {
        parser.token(TokenKind::Semicolon)?;
        return Ok(None);
    }
    if parser.is_at_word("option") {
        option(parser, custom)?;
        return Ok(None);
    }
    Ok(Some(method(parser, alloc, custom)?))
}

/// What comes before a service's closing brace: its methods.
#[tactic(auto, using(crate::proofs::LoopLemmas::adds_on, crate::proofs::LoopLemmas::adding_stops, crate::proofs::LoopLemmas::is_over, crate::proofs::ServiceLemmas::service_item_shorter), unfolding(crate::specs::Grammar::Definitions::service_items))]
fn service_items(
    parser: &mut Parser<'_>,
    alloc: Global,
    custom: CustomOptions,
) -> Result<Sequence<Method>, SyntaxFault>
    ensures { Gives custom (λ x. x) parser.new result (run (grammar.service_items custom) parser.old) }
{
    let mut methods = Sequence::new(alloc);
    'items: while is_inside(parser) {
        let item = service_item(parser, alloc, custom)?;
        keep(&mut methods, item)?;
    }
    Ok(methods)
}

/// A service (proto3 specification, "Service definition").
#[tactic(auto, unfolding(crate::specs::Step::run, crate::specs::Grammar::Definitions::service))]
pub fn service(
    parser: &mut Parser<'_>,
    alloc: Global,
    custom: CustomOptions,
) -> Result<Service, SyntaxFault>
    ensures { Gives custom (λ x. x) parser.new result (run (grammar.service custom) parser.old) }
{
    let heading = heading(parser, "service")?;
    let methods = service_items(parser, alloc, custom)?;
    parser.token(TokenKind::CloseBrace)?;
    let methods = Sequence::from_vec(fitted(alloc, methods.into_vec())?);
    Ok(Service { heading, methods })
}
