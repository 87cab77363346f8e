//! What several definitions have.

ghost use Rattle.std.specs.Prelude.{◌≡◌};
ghost use Rattle.proto_grammar.specs.Gives.{Gives};
ghost use Rattle.proto_grammar.specs.Terminal.{first_is};
ghost use Rattle.proto_grammar.specs.declared.dialect.CustomOptions.TheVariants.{Skip};
ghost use Rattle.proto_steps.specs.Step.{run};
ghost use Rattle.proto_steps.specs.Terminals.{is_inside as is_not_closing};
ghost use Rattle.proto_steps.specs.Grammar.Definitions.{heading as heading_step};

use proto_grammar::{Heading, Parser, SyntaxFault};
use proto_lex::TokenKind;

/// Whether a token other than `}` is next.
pub(crate) fn is_inside(parser: &Parser<'_>) -> bool
    ensures { result ≡ first_is is_not_closing parser.now.left }
{
    match parser.peek() {
        Some(lexeme) => lexeme.kind != TokenKind::CloseBrace,
        None => false,
    }
}

/// The declaring word, a name and `{`.
#[tactic(auto, unfolding(crate::specs::Step::run, crate::specs::Grammar::Definitions::heading))]
pub(crate) fn heading(parser: &mut Parser<'_>, word: &str) -> Result<Heading, SyntaxFault>
    ensures { Gives Skip (λ x. x) parser.new result (run (heading_step word.now) parser.old) }
{
    let first = parser.word(word)?;
    let name = parser.token(TokenKind::Identifier)?;
    let closing = parser.token(TokenKind::OpenBrace)?;
    Ok(Heading {
        first,
        name,
        closing,
    })
}
