//! Parsing: from the tokens of a text to its tree.

ghost use Rattle.std.specs.Prelude.{◌≡◌, ◌⊎◌, IfOk, IfErr, MatchResult};
ghost use Rattle.proto_parse.specs.Derives.{Derives};
ghost use Rattle.proto_parse.specs.Refused.{HasFault};
ghost use Rattle.proto_grammar.specs.declared.tree.File.{File};
ghost use Rattle.proto_grammar.specs.declared.dialect.CustomOptions.TheVariants.{Refuse};
ghost use Rattle.proto_grammar.specs.declared.dialect.Dialect.TheVariants.{Proto3};
ghost use Rattle.proto_grammar.specs.declared.fault.SyntaxFault.TheVariants.{Memory};

use proto_grammar::{CustomOptions, Dialect, File, Parser, SyntaxFault};
use proto_lex::Tokens;
use proto_steps::file;
use std::alloc::Global;

/// The tree that the tokens derive where only proto3 is accepted and custom options are refused.
///
/// It is Ok exactly where they derive one, but for want of memory. Otherwise the fault is the one that the tokens have:
/// as a rule it is at the first token with which what is in front of it can't be finished to a file.
pub fn parse(alloc: Global, tokens: &Tokens<'_, '_>) -> Result<File, SyntaxFault>
    ensures found { IfOk result (λ file. Derives (Proto3 Refuse) tokens.now.text tokens.now.tokens file) }
    ensures only { (file : File) → Derives (Proto3 Refuse) tokens.now.text tokens.now.tokens file
        → MatchResult result (λ found. found ≡ file) (λ fault. fault ≡ Memory) }
    ensures fault { IfErr result (λ fault. (fault ≡ Memory)
        ⊎ HasFault (Proto3 Refuse) tokens.now.text tokens.now.tokens fault) }
{
    parse_with(alloc, tokens, Dialect::Proto3(CustomOptions::Refuse))
}

/// The tree that the tokens derive, with a choice of which sources are accepted.
///
/// It is Ok if and only if they derive one, unless memory runs out. Otherwise the fault is the one that the tokens
/// have.
pub fn parse_with(
    alloc: Global,
    tokens: &Tokens<'_, '_>,
    dialect: Dialect,
) -> Result<File, SyntaxFault>
    ensures found { IfOk result (λ file. Derives dialect tokens.now.text tokens.now.tokens file) }
    ensures only { (file : File) → Derives dialect tokens.now.text tokens.now.tokens file
        → MatchResult result (λ found. found ≡ file) (λ fault. fault ≡ Memory) }
    ensures fault { IfErr result (λ fault. (fault ≡ Memory)
        ⊎ HasFault dialect tokens.now.text tokens.now.tokens fault) }
{
    file(&mut Parser::new(tokens), alloc, dialect)
}
