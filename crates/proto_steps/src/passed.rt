//! Extends that are read past.

ghost use Rattle.std.specs.Prelude.{◌≡◌};
ghost use Rattle.proto_grammar.specs.Gives.{Gives};
ghost use Rattle.proto_grammar.specs.declared.dialect.CustomOptions.TheVariants.{Skip};
ghost use Rattle.proto_steps.specs.Step.{run};
ghost use Rattle.proto_steps.specs.Grammar.Definitions as grammar;

use crate::headings::is_inside;
use crate::parts::{passed_field, passed_type_name};
use proto_grammar::{CustomOptions, Parser, SyntaxFault};
use proto_lex::TokenKind;

/// What is in an extend that is read past: a lone `;` or a field.
#[tactic(auto, unfolding(crate::specs::Step::run, crate::specs::Grammar::Definitions::passed_item))]
fn passed_item(parser: &mut Parser<'_>) -> Result<(), SyntaxFault>
    ensures { Gives Skip (λ x. x) parser.new result (run grammar.passed_item parser.old) }
{
    if parser.is_at(TokenKind::Semicolon) {
        parser.token(TokenKind::Semicolon)?;
        return Ok(());
    }
    passed_field(parser, CustomOptions::Skip)
}

/// What comes before an extend's closing brace.
#[tactic(auto, using(crate::proofs::LoopLemmas::passes_on, crate::proofs::LoopLemmas::passing_stops, crate::proofs::LoopLemmas::is_over, crate::proofs::MessageLemmas::passed_item_shorter), unfolding(crate::specs::Grammar::Definitions::passed_items))]
fn passed_items(parser: &mut Parser<'_>) -> Result<(), SyntaxFault>
    ensures { Gives Skip (λ x. x) parser.new result (run grammar.passed_items parser.old) }
{
    'items: while is_inside(parser) {
        passed_item(parser)?;
    }
    Ok(())
}

/// An extend that isn't kept, only if custom options are read past.
#[tactic(auto, unfolding(crate::specs::Step::run, crate::specs::Grammar::Definitions::passed_extend))]
pub(crate) fn passed_extend(
    parser: &mut Parser<'_>,
    custom: CustomOptions,
) -> Result<(), SyntaxFault>
    ensures { Gives custom (λ x. x) parser.new result (run (grammar.passed_extend custom) parser.old) }
{
    if custom == CustomOptions::Refuse {
        return Err(SyntaxFault::Extend(parser.offset()));
    }
    parser.word("extend")?;
    passed_type_name(parser)?;
    parser.token(TokenKind::OpenBrace)?;
    passed_items(parser)?;
    parser.token(TokenKind::CloseBrace)?;
    Ok(())
}
