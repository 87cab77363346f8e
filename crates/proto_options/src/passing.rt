//! What the second reading takes as the grammar has it: names and numbers.

ghost use Rattle.std.specs.Prelude.{◌≡◌, true};
ghost use Rattle.proto_grammar.specs.Gives.{Gives};
ghost use Rattle.proto_grammar.specs.declared.dialect.CustomOptions.TheVariants.{Skip};
ghost use Rattle.proto_grammar.specs.Reading.Names.{dot_name_at, dot_names_at, name_at};
ghost use Rattle.proto_grammar.specs.Reading.Reserved.{integer_at};

use crate::cursor::Cursor;
use basics::Sequence;
use proto_grammar::{SyntaxFault, keep};
use proto_lex::{Span, TokenKind};
use std::alloc::Global;

/// A `.` and an identifier.
#[tactic(auto, using(crate::proofs::PassingLemmas::dot_name_by))]
fn dot_name(cursor: &mut Cursor<'_>) -> Result<Option<Span>, SyntaxFault>
    ensures { Gives Skip (λ x. x) cursor.new result (dot_name_at cursor.old) }
{
    cursor.token(TokenKind::Dot)?;
    Ok(Some(cursor.token(TokenKind::Identifier)?))
}

/// The components after the first ones.
fn dot_names(
    cursor: &mut Cursor<'_>,
    mut components: Sequence<Span>,
) -> Result<Sequence<Span>, SyntaxFault>
    ensures { Gives Skip (λ x. x) cursor.new result (dot_names_at components cursor.old) }
{
    'names: while cursor.is_at(TokenKind::Dot) {
        let name = dot_name(cursor)?;
        keep(&mut components, name)?;
    }
    Ok(components)
}

/// For how many components a name has room from the start. Most names in options have no more.
const COMPONENTS: usize = 3;

/// A name's components (proto3 specification, "Identifiers").
#[tactic(auto, using(crate::proofs::PassingLemmas::name_by))]
pub(crate) fn dotted_name(
    cursor: &mut Cursor<'_>,
    alloc: Global,
) -> Result<Sequence<Span>, SyntaxFault>
    ensures { Gives Skip (λ x. x) cursor.new result (name_at cursor.old) }
{
    let first = cursor.token(TokenKind::Identifier)?;
    let mut components = Sequence::from_vec(Vec::with_capacity(alloc, COMPONENTS)?);
    components.push(first)?;
    dot_names(cursor, components)
}

/// A whole number, which may be behind a `-`.
#[tactic(auto, using(crate::proofs::PassingLemmas::integer_by))]
pub(crate) fn integer(cursor: &mut Cursor<'_>) -> Result<(), SyntaxFault>
    ensures { Gives Skip (λ x. x) cursor.new result (integer_at true cursor.old) }
{
    if cursor.is_at(TokenKind::Minus) {
        cursor.advance();
    }
    cursor.token(TokenKind::Integer)?;
    Ok(())
}
