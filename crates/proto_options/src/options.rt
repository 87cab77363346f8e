//! The options of a file.

ghost use Rattle.std.specs.Prelude.{◌≡◌, ◌++◌, ◌∷◌, [], ℕ, List, OnOk, IfOk, IfErr};
ghost use Rattle.proto_grammar.specs.Gives.{Gives};
ghost use Rattle.proto_grammar.specs.declared.dialect.CustomOptions.TheVariants.{Skip};
ghost use Rattle.proto_options.specs.Reading.Options.{option_of, kept_at, option_at, comma_option_at};
ghost use Rattle.proto_options.specs.Reading.Options.{comma_options_at, bracketed_at, brackets_at};

use crate::cursor::Cursor;
use crate::elements::Element;
use crate::names::Setting;
use crate::scope::OptionScope;
use crate::settings::setting;
use basics::Sequence;
use proto_grammar::SyntaxFault;
use proto_lex::TokenKind;
use std::alloc::{AllocError, Global};

/// An option of a file, with the names that are in it.
#[derive(Debug, Drop)]
pub struct FileOption {
    /// The full name of the scope around the element, from which the parts of the name in parentheses are looked up.
    pub scope: OptionScope,
    /// What it is an option of.
    pub element: Element,
    /// The names in it.
    pub setting: Setting,
}

/// Adds an option.
fn push_option(
    options: &mut Sequence<FileOption>,
    scope: &OptionScope,
    element: Element,
    setting: Setting,
) -> Result<(), AllocError>
    ensures { OnOk result (options.new ≡ options.old ++ option_of scope.now element setting ∷ []) }
{
    options.push(FileOption {
        scope: scope.share()?,
        element,
        setting,
    })?;
    Ok(())
}

/// Takes an option's name, `=` and its value, of this element in this scope.
#[tactic(auto, unfolding(crate::specs::Reading::Options::kept_at))]
fn kept(
    cursor: &mut Cursor<'_>,
    alloc: Global,
    scope: &OptionScope,
    element: Element,
    options: &mut Sequence<FileOption>,
) -> Result<(), SyntaxFault>
    ensures { Gives Skip (λ x. options.new) cursor.new result (kept_at scope.now element options.old cursor.old) }
{
    let found = setting(cursor, alloc)?;
    push_option(options, scope, element, found)?;
    Ok(())
}

/// An option statement.
#[tactic(auto, unfolding(crate::specs::Reading::Options::option_at))]
pub(crate) fn option(
    cursor: &mut Cursor<'_>,
    alloc: Global,
    scope: &OptionScope,
    element: Element,
    options: &mut Sequence<FileOption>,
) -> Result<(), SyntaxFault>
    ensures { Gives Skip (λ x. options.new) cursor.new result (option_at scope.now element options.old cursor.old) }
{
    cursor.word("option")?;
    kept(cursor, alloc, scope, element, options)?;
    cursor.token(TokenKind::Semicolon)?;
    Ok(())
}

/// A comma and an option.
#[tactic(auto, unfolding(crate::specs::Reading::Options::comma_option_at))]
fn comma_option(
    cursor: &mut Cursor<'_>,
    alloc: Global,
    scope: &OptionScope,
    element: Element,
    options: &mut Sequence<FileOption>,
) -> Result<(), SyntaxFault>
    ensures { Gives Skip (λ x. options.new) cursor.new result
        (comma_option_at scope.now element options.old cursor.old) }
{
    cursor.token(TokenKind::Comma)?;
    kept(cursor, alloc, scope, element, options)
}

/// The options in brackets behind the first one.
fn comma_options(
    cursor: &mut Cursor<'_>,
    alloc: Global,
    scope: &OptionScope,
    element: Element,
    options: &mut Sequence<FileOption>,
) -> Result<(), SyntaxFault>
    ensures { Gives Skip (λ x. options.new) cursor.new result
        (comma_options_at scope.now element options.old cursor.old) }
{
    'options: while cursor.is_at(TokenKind::Comma) {
        comma_option(cursor, alloc, scope, element, options)?;
    }
    Ok(())
}

/// Options in brackets.
#[tactic(auto, unfolding(crate::specs::Reading::Options::bracketed_at))]
fn bracketed(
    cursor: &mut Cursor<'_>,
    alloc: Global,
    scope: &OptionScope,
    element: Element,
    options: &mut Sequence<FileOption>,
) -> Result<(), SyntaxFault>
    ensures { Gives Skip (λ x. options.new) cursor.new result (bracketed_at scope.now element options.old cursor.old) }
{
    cursor.token(TokenKind::OpenBracket)?;
    kept(cursor, alloc, scope, element, options)?;
    comma_options(cursor, alloc, scope, element, options)?;
    cursor.token(TokenKind::CloseBracket)?;
    Ok(())
}

/// Options in brackets, if they are next.
#[tactic(auto, unfolding(crate::specs::Reading::Options::brackets_at))]
pub(crate) fn brackets(
    cursor: &mut Cursor<'_>,
    alloc: Global,
    scope: &OptionScope,
    element: Element,
    options: &mut Sequence<FileOption>,
) -> Result<(), SyntaxFault>
    ensures { Gives Skip (λ x. options.new) cursor.new result (brackets_at scope.now element options.old cursor.old) }
{
    if cursor.is_at(TokenKind::OpenBracket) {
        return bracketed(cursor, alloc, scope, element, options);
    }
    Ok(())
}
