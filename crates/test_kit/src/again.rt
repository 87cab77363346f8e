//! Calls of the lexer that are made again after want of memory: the second answer counts.

ghost use Rattle.std.specs.Prelude.{◌≡◌, ◌⊎◌, List, IfOk, IfErr, IsOkUnless};
ghost use Rattle.proto_lex.specs.declared.token.Token.{Token};
ghost use Rattle.proto_lex.specs.declared.token.Comment.{Comment};
ghost use Rattle.proto_lex.specs.Faults.{IsFirstFault};
ghost use Rattle.proto_lex.specs.Lexes.{Lexes};
ghost use Rattle.proto_lex.specs.Text.{IsText, IsNoText};

use proto_lex::{LexFault, Text, Tokens, lex};
use std::alloc::Global;

/// A text, as `Text::new` has it.
pub fn text_of(alloc: Global, source: &[u8]) -> Result<Text<'_>, LexFault>
    ensures text { IfOk result (λ text. IsText source.now × (text ≡ source.now)) }
    ensures fault { IfErr result (λ fault. (fault ≡ LexFault.Memory) ⊎ IsNoText source.now fault) }
    ensures accepted { IsText source.now → IsOkUnless result LexFault.Memory }
{
    match Text::new(alloc, source) {
        Err(LexFault::Memory) => Text::new(alloc, source),
        answer => answer,
    }
}

/// The tokens of a text, as `lex` has them.
pub fn tokens_of<'a, 't>(alloc: Global, text: &'a Text<'t>) -> Result<Tokens<'a, 't>, LexFault>
    ensures text { IfOk result (λ found. found.text ≡ text.now) }
    ensures found { IfOk result (λ found. Lexes text.now found.tokens found.comments) }
    ensures accepted { (tokens : List Token) → (comments : List Comment) → Lexes text.now tokens comments
        → IsOkUnless result LexFault.Memory }
    ensures fault { IfErr result (λ fault. (fault ≡ LexFault.Memory) ⊎ IsFirstFault text.now fault) }
{
    match lex(alloc, text) {
        Err(LexFault::Memory) => lex(alloc, text),
        answer => answer,
    }
}
