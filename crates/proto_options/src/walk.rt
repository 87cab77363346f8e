//! The second reading of a file, which finds its options.
//!
//! The tokens derive a tree. So only what tells where options are is looked at: the first words of statements, what is
//! in front of `=` and of `{`, brackets and braces.

ghost use Rattle.std.specs.Prelude.{◌≡◌};
ghost use Rattle.proto_grammar.specs.Gives.{Gives};
ghost use Rattle.proto_grammar.specs.declared.dialect.CustomOptions.TheVariants.{Skip};
ghost use Rattle.proto_decl.specs.Names.{qualified};
ghost use Rattle.proto_options.specs.declared.statements.Within.TheVariants as kinds;
ghost use Rattle.proto_options.specs.Reading.Walk.{ranges_at, message_body_at, body_at, braces_at, member_at, ended_at};
ghost use Rattle.proto_options.specs.Reading.Walk.{method_at, statement_at, item_at, items_at, block_at, inside_at};
ghost use Rattle.proto_options.specs.Reading.Walk.{file_items_at, file_at};

use crate::cursor::Cursor;
use crate::elements::Element;
use crate::options::{FileOption, brackets, option};
use crate::passing::integer;
use crate::scope::OptionScope;
use crate::statements::{
    Named, Scopes, Statement, Within, element_of, heading, member_of, name_before, next_statement,
    pass_statement,
};
use basics::Sequence;
use proto_grammar::SyntaxFault;
use proto_lex::TokenKind;
use std::alloc::Global;

/// Extension ranges, with their options.
#[tactic(auto, unfolding(crate::specs::Reading::Walk::ranges_at))]
fn ranges(
    cursor: &mut Cursor<'_>,
    alloc: Global,
    scope: &OptionScope,
    options: &mut Sequence<FileOption>,
) -> Result<(), SyntaxFault>
    ensures { Gives Skip (λ x. options.new) cursor.new result (ranges_at scope.now options.old cursor.old) }
{
    name_before(cursor, TokenKind::OpenBracket, TokenKind::Semicolon)?;
    brackets(cursor, alloc, scope, Element::ExtensionRange, options)?;
    cursor.token(TokenKind::Semicolon)?;
    Ok(())
}

/// What is behind a message's `{`. It and what is in it take up at most `levels` levels, of which each message and each
/// group takes up one.
#[cycle(walk)]
#[tactic(auto, using(crate::proofs::LevelLemmas::no_message, crate::proofs::LevelLemmas::some_message))]
fn message_body(
    cursor: &mut Cursor<'_>,
    alloc: Global,
    levels: usize,
    named: Named<'_>,
    options: &mut Sequence<FileOption>,
) -> Result<(), SyntaxFault>
    ensures { Gives Skip (λ x. options.new) cursor.new result
        (message_body_at (inside_at levels) named.entry.around.now named.entry.name.now options.old cursor.old) }
{
    if levels == 0 {
        return Err(SyntaxFault::TooDeep(cursor.offset()));
    }
    let inner = named.around.inside(alloc, named.name)?;
    let scopes = Scopes {
        around: named.around,
        inner: &inner,
    };
    block(cursor, alloc, levels - 1, Within::Message, scopes, options)
}

/// What is behind a service's `{`.
#[cycle(walk)]
#[tactic(auto, using(crate::proofs::BodyLemmas::service_body))]
fn service_body(
    cursor: &mut Cursor<'_>,
    alloc: Global,
    levels: usize,
    named: Named<'_>,
    options: &mut Sequence<FileOption>,
) -> Result<(), SyntaxFault>
    ensures { Gives Skip (λ x. options.new) cursor.new result
        (body_at kinds.Service (inside_at levels) named.entry.around.now named.entry.name.now options.old cursor.old) }
{
    let inner = named.around.inside(alloc, named.name)?;
    let scopes = Scopes {
        around: named.around,
        inner: &inner,
    };
    block(cursor, alloc, levels, Within::Service, scopes, options)
}

/// What is behind a `{` of this, up to and with the `}`.
#[cycle(walk)]
#[tactic(auto, using(crate::proofs::BodyLemmas::flat_body))]
fn body(
    cursor: &mut Cursor<'_>,
    alloc: Global,
    levels: usize,
    within: Within,
    named: Named<'_>,
    options: &mut Sequence<FileOption>,
) -> Result<(), SyntaxFault>
    ensures { Gives Skip (λ x. options.new) cursor.new result
        (body_at within (inside_at levels) named.entry.around.now named.entry.name.now options.old cursor.old) }
{
    if within == Within::Message {
        return message_body(cursor, alloc, levels, named, options);
    }
    if within == Within::Service {
        return service_body(cursor, alloc, levels, named, options);
    }
    if within == Within::File {
        return Err(SyntaxFault::Grammar(cursor.offset()));
    }
    let scopes = Scopes {
        around: named.around,
        inner: named.around,
    };
    block(cursor, alloc, levels, within, scopes, options)
}

/// What begins with a word and a name, or with `extend` and a type's name, and has braces.
#[cycle(walk)]
#[tactic(auto, unfolding(crate::specs::Reading::Walk::braces_at))]
fn braces(
    cursor: &mut Cursor<'_>,
    alloc: Global,
    levels: usize,
    within: Within,
    scope: &OptionScope,
    options: &mut Sequence<FileOption>,
) -> Result<(), SyntaxFault>
    ensures { Gives Skip (λ x. options.new) cursor.new result
        (braces_at within (inside_at levels) scope.now options.old cursor.old) }
{
    let name = heading(cursor)?;
    let named = Named {
        around: scope,
        name: name.spelling,
    };
    body(cursor, alloc, levels, within, named, options)
}

/// A field, a map field, a group or a value of an enum.
#[cycle(walk)]
#[tactic(auto, unfolding(crate::specs::Reading::Walk::member_at, crate::specs::Reading::Walk::ended_at))]
fn member(
    cursor: &mut Cursor<'_>,
    alloc: Global,
    levels: usize,
    within: Within,
    scope: &OptionScope,
    options: &mut Sequence<FileOption>,
) -> Result<(), SyntaxFault>
    ensures { Gives Skip (λ x. options.new) cursor.new result
        (member_at within (inside_at levels) scope.now options.old cursor.old) }
{
    let name = name_before(cursor, TokenKind::Equals, TokenKind::Equals)?;
    cursor.token(TokenKind::Equals)?;
    integer(cursor)?;
    brackets(cursor, alloc, scope, member_of(within, name.span), options)?;
    let named = Named {
        around: scope,
        name: name.spelling,
    };
    ended(cursor, alloc, levels, Within::Message, named, options)
}

/// A `;`, or braces of this.
#[cycle(walk)]
#[tactic(auto, unfolding(crate::specs::Reading::Walk::ended_at))]
fn ended(
    cursor: &mut Cursor<'_>,
    alloc: Global,
    levels: usize,
    within: Within,
    named: Named<'_>,
    options: &mut Sequence<FileOption>,
) -> Result<(), SyntaxFault>
    ensures { Gives Skip (λ x. options.new) cursor.new result
        (ended_at within (inside_at levels) named.entry.around.now named.entry.name.now options.old cursor.old) }
{
    if cursor.is_at(TokenKind::Semicolon) {
        cursor.advance();
        return Ok(());
    }
    cursor.token(TokenKind::OpenBrace)?;
    body(cursor, alloc, levels, within, named, options)
}

/// A method.
#[cycle(walk)]
#[tactic(auto, unfolding(crate::specs::Reading::Walk::method_at, crate::specs::Reading::Walk::ended_at))]
fn method(
    cursor: &mut Cursor<'_>,
    alloc: Global,
    levels: usize,
    scope: &OptionScope,
    options: &mut Sequence<FileOption>,
) -> Result<(), SyntaxFault>
    ensures { Gives Skip (λ x. options.new) cursor.new result
        (method_at scope.now options.old cursor.old) }
{
    let last = name_before(cursor, TokenKind::Semicolon, TokenKind::OpenBrace)?;
    let named = Named {
        around: scope,
        name: last.spelling,
    };
    ended(cursor, alloc, levels, Within::Method, named, options)
}

/// A statement that isn't an option nor a lone `;`, in these braces.
#[cycle(walk)]
#[tactic(auto, unfolding(crate::specs::Reading::Walk::statement_at))]
fn other_statement(
    cursor: &mut Cursor<'_>,
    alloc: Global,
    levels: usize,
    within: Within,
    scopes: Scopes<'_>,
    options: &mut Sequence<FileOption>,
) -> Result<(), SyntaxFault>
    ensures { Gives Skip (λ x. options.new) cursor.new result
        (statement_at within (inside_at levels) scopes.entry.around.now scopes.entry.inner.now options.old cursor.old) }
{
    match next_statement(cursor, within) {
        Statement::Passed => pass_statement(cursor),
        Statement::Braces(kind) => braces(cursor, alloc, levels, kind, scopes.inner, options),
        Statement::Ranges => ranges(cursor, alloc, scopes.around, options),
        Statement::Member => member(cursor, alloc, levels, within, scopes.inner, options),
        Statement::Method => method(cursor, alloc, levels, scopes.inner, options),
    }
}

/// A statement in these braces.
#[cycle(walk)]
#[tactic(auto, unfolding(crate::specs::Reading::Walk::item_at))]
fn item(
    cursor: &mut Cursor<'_>,
    alloc: Global,
    levels: usize,
    within: Within,
    scopes: Scopes<'_>,
    options: &mut Sequence<FileOption>,
) -> Result<(), SyntaxFault>
    ensures { Gives Skip (λ x. options.new) cursor.new result
        (item_at within (inside_at levels) scopes.entry.around.now scopes.entry.inner.now options.old cursor.old) }
{
    if cursor.is_at(TokenKind::Semicolon) {
        cursor.advance();
        return Ok(());
    }
    if cursor.is_at_word("option") {
        if let Some(element) = element_of(within) {
            return option(cursor, alloc, scopes.around, element, options);
        }
    }
    other_statement(cursor, alloc, levels, within, scopes, options)
}

/// The statements in these braces, up to the `}`.
#[cycle(walk)]
fn items(
    cursor: &mut Cursor<'_>,
    alloc: Global,
    levels: usize,
    within: Within,
    scopes: Scopes<'_>,
    options: &mut Sequence<FileOption>,
) -> Result<(), SyntaxFault>
    ensures { Gives Skip (λ x. options.new) cursor.new result
        (items_at within (inside_at levels) scopes.entry.around.now scopes.entry.inner.now options.old cursor.old) }
{
    'items: while !cursor.is_at(TokenKind::CloseBrace) {
        item(cursor, alloc, levels, within, scopes, options)?;
    }
    Ok(())
}

/// What is between these braces, and the `}`.
#[cycle(walk)]
#[tactic(auto, unfolding(crate::specs::Reading::Walk::block_at))]
fn block(
    cursor: &mut Cursor<'_>,
    alloc: Global,
    levels: usize,
    within: Within,
    scopes: Scopes<'_>,
    options: &mut Sequence<FileOption>,
) -> Result<(), SyntaxFault>
    ensures { Gives Skip (λ x. options.new) cursor.new result
        (block_at within (inside_at levels) scopes.entry.around.now scopes.entry.inner.now options.old cursor.old) }
{
    items(cursor, alloc, levels, within, scopes, options)?;
    cursor.token(TokenKind::CloseBrace)?;
    Ok(())
}

/// The statements of a file whose package has this scope.
fn file_items(
    cursor: &mut Cursor<'_>,
    alloc: Global,
    levels: usize,
    scope: &OptionScope,
    options: &mut Sequence<FileOption>,
) -> Result<(), SyntaxFault>
    ensures { Gives Skip (λ x. options.new) cursor.new result
        (file_items_at levels scope.now options.old cursor.old) }
{
    let scopes = Scopes {
        around: scope,
        inner: scope,
    };
    'items: while !cursor.is_at_end() {
        item(cursor, alloc, levels, Within::File, scopes, options)?;
    }
    Ok(())
}

/// All options of a file whose package has this scope.
#[tactic(auto, unfolding(crate::specs::Reading::Walk::file_at))]
pub(crate) fn file_options(
    cursor: &mut Cursor<'_>,
    alloc: Global,
    levels: usize,
    scope: &OptionScope,
) -> Result<Sequence<FileOption>, SyntaxFault>
    ensures { Gives Skip (λ x. x) cursor.new result (file_at levels scope.now cursor.old) }
{
    let mut options = Sequence::new(alloc);
    file_items(cursor, alloc, levels, scope, &mut options)?;
    Ok(options)
}
