//! Syntax statements.

ghost use Rattle.std.specs.Prelude.{◌≡◌, [], option_map};
ghost use Rattle.proto_grammar.specs.Gives.{Gives};
ghost use Rattle.proto_grammar.specs.Terminal.{first, behind};
ghost use Rattle.proto_grammar.specs.Syntax.{proto3_in};
ghost use Rattle.proto_grammar.specs.declared.dialect.CustomOptions.TheVariants.{Skip};
ghost use Rattle.proto_steps.specs.Step.{run};
ghost use Rattle.proto_steps.specs.Version.{version_of, stripped_of, is_left, content_of, joined_of, past_literals};
ghost use Rattle.proto_steps.specs.Version.{version_at};
ghost use Rattle.proto_steps.specs.Grammar.Definitions as grammar;

use crate::statement::Version;
use proto_grammar::{Dialect, Parser, Syntax, SyntaxFault};
use proto_lex::TokenKind;

/// What is left of a text behind what a literal spells, if the text begins with it.
fn stripped<'s>(text: Option<&'s [u8]>, content: &[u8]) -> Option<&'s [u8]>
    ensures { option_map (λ t. t.now) result ≡ stripped_of (option_map (λ t. t.now) text.entry) content.now }
{
    text?.strip_prefix(content)
}

/// Whether there is a text, and nothing in it.
fn is_spelled(left: Option<&[u8]>) -> bool
    ensures { result ≡ is_left (option_map (λ t. t.now) left.entry) [] }
{
    match left {
        Some(text) => text.is_empty(),
        None => false,
    }
}

/// Takes the next token, and gives what is between its quotes.
fn content<'t>(parser: &mut Parser<'t>) -> &'t [u8]
    ensures content { result.now ≡ content_of (first parser.old.left) }
    ensures rest { parser.new ≡ behind parser.old }
{
    match parser.next() {
        Some(lexeme) => lexeme.between_quotes(),
        None => &[],
    }
}

/// Which version the literals that are next spell when joined.
#[tactic(auto, using(crate::proofs::JoinedLemmas::nothing_joined, crate::proofs::JoinedLemmas::past_done))]
fn version(parser: &mut Parser<'_>) -> Version
    ensures version { result ≡ version_of (joined_of parser.old.left) }
    ensures rest { parser.new ≡ past_literals parser.old }
{
    let mut proto3: Option<&[u8]> = Some(b"proto3");
    let mut proto2: Option<&[u8]> = Some(b"proto2");
    'literals: while parser.is_at(TokenKind::StringLiteral) {
        let literal = content(parser);
        proto3 = stripped(proto3, literal);
        proto2 = stripped(proto2, literal);
    }
    if is_spelled(proto3) {
        return Version::Proto3;
    }
    if is_spelled(proto2) {
        return Version::Proto2;
    }
    Version::Other
}

/// The grammar of a proto3 file.
fn proto3_in(dialect: Dialect) -> Syntax
    ensures { result ≡ proto3_in dialect }
{
    match dialect {
        Dialect::Proto3(custom) => Syntax::Proto3(custom),
        Dialect::All => Syntax::Extended,
    }
}

/// Literals that name a version that is accepted.
#[tactic(auto, unfolding(crate::specs::Version::version_at))]
fn accepted(parser: &mut Parser<'_>, dialect: Dialect) -> Result<Syntax, SyntaxFault>
    ensures { Gives Skip (λ x. x) parser.new result (version_at dialect parser.old) }
{
    let start = parser.offset();
    if !parser.is_at(TokenKind::StringLiteral) {
        return Err(SyntaxFault::Grammar(start));
    }
    match version(parser) {
        Version::Proto3 => Ok(proto3_in(dialect)),
        Version::Proto2 if dialect.is_all() => Ok(Syntax::Proto2),
        _ => Err(SyntaxFault::NotProto3(start)),
    }
}

/// The version that a syntax statement names.
fn named_version(parser: &mut Parser<'_>, dialect: Dialect) -> Result<Syntax, SyntaxFault>
    ensures { Gives Skip (λ x. x) parser.new result (run (grammar.version dialect) parser.old) }
{
    accepted(parser, dialect)
}

/// A syntax statement (proto3 specification, "Syntax").
#[tactic(auto, unfolding(crate::specs::Step::run, crate::specs::Grammar::Definitions::syntax_statement))]
fn syntax_statement(parser: &mut Parser<'_>, dialect: Dialect) -> Result<Syntax, SyntaxFault>
    ensures { Gives Skip (λ x. x) parser.new result (run (grammar.syntax_statement dialect) parser.old) }
{
    parser.word("syntax")?;
    parser.token(TokenKind::Equals)?;
    let syntax = named_version(parser, dialect)?;
    parser.token(TokenKind::Semicolon)?;
    Ok(syntax)
}

/// A file's grammar, by its syntax statement. A file without one is proto2.
#[tactic(auto, unfolding(crate::specs::Step::run, crate::specs::Grammar::Definitions::syntax))]
pub(crate) fn syntax(parser: &mut Parser<'_>, dialect: Dialect) -> Result<Syntax, SyntaxFault>
    ensures { Gives Skip (λ x. x) parser.new result (run (grammar.syntax dialect) parser.old) }
{
    if parser.is_at_word("syntax") {
        return syntax_statement(parser, dialect);
    }
    if parser.is_at_word("edition") || !dialect.is_all() {
        return Err(SyntaxFault::NotProto3(parser.offset()));
    }
    Ok(Syntax::Proto2)
}
