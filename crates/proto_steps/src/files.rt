//! Files.

ghost use Rattle.std.specs.Prelude.{◌≡◌};
ghost use Rattle.proto_grammar.specs.Gives.{Gives};
ghost use Rattle.proto_grammar.specs.Syntax.{custom_of, custom_in};
ghost use Rattle.proto_grammar.specs.Terminal.{first_is};
ghost use Rattle.proto_grammar.specs.declared.dialect.CustomOptions.TheVariants.{Skip};
ghost use Rattle.proto_steps.specs.Limits.{max_message_depth};
ghost use Rattle.proto_steps.specs.Step.{run};
ghost use Rattle.proto_steps.specs.Terminals.{is_token};
ghost use Rattle.proto_steps.specs.Choice.{file_statement_of, chosen_statement};
ghost use Rattle.proto_steps.specs.Grammar.Definitions as grammar;

use crate::enums::enumeration;
use crate::messages::{MAX_MESSAGE_DEPTH, extend_statement, message};
use crate::parts::{name, option, path_literal};
use crate::services::service;
use crate::statement::FileStatement;
use crate::syntax::syntax;
use basics::Sequence;
use proto_grammar::{
    Dialect, File, FileItem, Import, ImportKind, Parser, Syntax, SyntaxFault, keep,
};
use proto_lex::{Span, TokenKind};
use std::alloc::Global;

/// The word `weak` or `public` of an import, if one is next.
#[tactic(auto, unfolding(crate::specs::Step::run, crate::specs::Grammar::Definitions::import_kind))]
fn import_kind(parser: &mut Parser<'_>) -> Result<ImportKind, SyntaxFault>
    ensures { Gives Skip (λ x. x) parser.new result (run grammar.import_kind parser.old) }
{
    if parser.is_at_word("weak") {
        parser.word("weak")?;
        return Ok(ImportKind::Weak);
    }
    if parser.is_at_word("public") {
        parser.word("public")?;
        return Ok(ImportKind::Public);
    }
    Ok(ImportKind::Plain)
}

/// One literal of a path, which is kept.
#[tactic(auto, unfolding(crate::specs::Step::run))]
fn kept_literal(parser: &mut Parser<'_>) -> Result<Option<Span>, SyntaxFault>
    ensures { Gives Skip (λ x. x) parser.new result (run grammar.kept_literal parser.old) }
{
    Ok(Some(path_literal(parser)?))
}

/// The literals of a path after the first ones.
#[tactic(auto, using(crate::proofs::LoopLemmas::adds_on, crate::proofs::LoopLemmas::adding_stops, crate::proofs::LoopLemmas::is_over, crate::proofs::FileLemmas::kept_literal_shorter), unfolding(crate::specs::Grammar::Definitions::path_literals))]
fn path_literals(
    parser: &mut Parser<'_>,
    mut literals: Sequence<Span>,
) -> Result<Sequence<Span>, SyntaxFault>
    ensures { Gives Skip (λ x. x) parser.new result (run (grammar.path_literals literals) parser.old) }
{
    'literals: while parser.is_at(TokenKind::StringLiteral) {
        let literal = kept_literal(parser)?;
        keep(&mut literals, literal)?;
    }
    Ok(literals)
}

/// An import (proto3 specification, "Import statement").
#[tactic(auto, unfolding(crate::specs::Step::run, crate::specs::Grammar::Definitions::import))]
fn import(parser: &mut Parser<'_>, alloc: Global) -> Result<Import, SyntaxFault>
    ensures { Gives Skip (λ x. x) parser.new result (run grammar.import parser.old) }
{
    parser.word("import")?;
    let kind = import_kind(parser)?;
    let first = path_literal(parser)?;
    let mut literals = Sequence::new(alloc);
    literals.push(first)?;
    let literals = path_literals(parser, literals)?;
    parser.token(TokenKind::Semicolon)?;
    Ok(Import { kind, literals })
}

/// A package statement's name (proto3 specification, "Package").
#[tactic(auto, unfolding(crate::specs::Step::run, crate::specs::Grammar::Definitions::package_statement))]
fn package(parser: &mut Parser<'_>, alloc: Global) -> Result<Sequence<Span>, SyntaxFault>
    ensures { Gives Skip (λ x. x) parser.new result (run grammar.package_statement parser.old) }
{
    parser.word("package")?;
    let components = name(parser, alloc)?;
    parser.token(TokenKind::Semicolon)?;
    Ok(components)
}

/// What the next statement of a file is.
fn file_statement(parser: &Parser<'_>) -> FileStatement
    ensures { result ≡ file_statement_of parser.now.left }
{
    let Some(lexeme) = parser.peek() else {
        return FileStatement::Other;
    };
    if lexeme.kind == TokenKind::Semicolon {
        return FileStatement::Empty;
    }
    if lexeme.is_word("import") {
        return FileStatement::Import;
    }
    if lexeme.is_word("package") {
        return FileStatement::Package;
    }
    if lexeme.is_word("option") {
        return FileStatement::Option;
    }
    if lexeme.is_word("message") {
        return FileStatement::Message;
    }
    if lexeme.is_word("enum") {
        return FileStatement::Enum;
    }
    if lexeme.is_word("service") {
        return FileStatement::Service;
    }
    if lexeme.is_word("extend") {
        return FileStatement::Extend;
    }
    FileStatement::Other
}

/// A package statement, if the file has none yet.
#[tactic(auto, unfolding(crate::specs::Step::run, crate::specs::Grammar::Definitions::only_package))]
fn only_package(parser: &mut Parser<'_>, alloc: Global, file: &mut File) -> Result<(), SyntaxFault>
    ensures { Gives Skip (λ x. file.new) parser.new result (run (grammar.only_package file.old) parser.old) }
{
    if file.package_name.is_some() {
        return Err(SyntaxFault::TwoPackages(parser.offset()));
    }
    file.package_name = Some(package(parser, alloc)?);
    Ok(())
}

/// A statement of a file, onto what the file is so far.
#[tactic(auto, unfolding(crate::specs::Step::run))]
fn chosen_statement(
    parser: &mut Parser<'_>,
    alloc: Global,
    syntax: Syntax,
    statement: FileStatement,
    file: &mut File,
) -> Result<(), SyntaxFault>
    ensures { Gives (custom_of syntax) (λ x. file.new) parser.new result
        (run (chosen_statement max_message_depth statement syntax file.old) parser.old) }
{
    let custom = syntax.custom_options();
    match statement {
        FileStatement::Empty => {
            parser.token(TokenKind::Semicolon)?;
        }
        FileStatement::Import => {
            let import = import(parser, alloc)?;
            file.imports.push(import)?;
        }
        FileStatement::Package => only_package(parser, alloc, file)?,
        FileStatement::Option => option(parser, custom)?,
        FileStatement::Message => {
            let message = message(parser, alloc, syntax, MAX_MESSAGE_DEPTH)?;
            file.items.push(FileItem::Block(message))?;
        }
        FileStatement::Enum => {
            let enumeration = enumeration(parser, alloc, custom)?;
            file.items.push(FileItem::Enum(enumeration))?;
        }
        FileStatement::Service => {
            let service = service(parser, alloc, custom)?;
            file.items.push(FileItem::Service(service))?;
        }
        FileStatement::Extend => {
            let extend = extend_statement(parser, alloc, syntax, MAX_MESSAGE_DEPTH)?;
            keep(&mut file.items, extend.map(FileItem::Block))?;
        }
        FileStatement::Other => return Err(SyntaxFault::Grammar(parser.offset())),
    }
    Ok(())
}

/// One statement of a file, onto what the file is so far.
fn statement(
    parser: &mut Parser<'_>,
    alloc: Global,
    syntax: Syntax,
    file: &mut File,
) -> Result<(), SyntaxFault>
    ensures { Gives (custom_of syntax) (λ x. file.new) parser.new result
        (run (grammar.file_statement max_message_depth syntax file.old) parser.old) }
{
    let statement = file_statement(parser);
    chosen_statement(parser, alloc, syntax, statement, file)
}

/// Whether a token is left.
fn is_before_end(parser: &Parser<'_>) -> bool
    ensures { result ≡ first_is is_token parser.now.left }
{
    parser.peek().is_some()
}

/// The statements after the syntax statement, up to the last token.
#[tactic(auto, using(crate::proofs::LoopLemmas::steps_on, crate::proofs::LoopLemmas::stepping_stops, crate::proofs::LoopLemmas::is_over, crate::proofs::FileLemmas::statement_shorter), unfolding(crate::specs::Grammar::Definitions::file_statements))]
fn statements(parser: &mut Parser<'_>, alloc: Global, syntax: Syntax) -> Result<File, SyntaxFault>
    ensures { Gives (custom_of syntax) (λ x. x) parser.new result
        (run (grammar.file_statements max_message_depth syntax) parser.old) }
{
    let mut file = File {
        package_name: None,
        imports: Sequence::new(alloc),
        items: Sequence::new(alloc),
    };
    'statements: while is_before_end(parser) {
        statement(parser, alloc, syntax, &mut file)?;
    }
    Ok(file)
}

/// A file (proto3 specification, "Proto file"), up to the last token.
#[tactic(auto, unfolding(crate::specs::Step::run, crate::specs::Grammar::Definitions::file))]
pub fn file(parser: &mut Parser<'_>, alloc: Global, dialect: Dialect) -> Result<File, SyntaxFault>
    ensures { Gives (custom_in dialect) (λ x. x) parser.new result
        (run (grammar.file max_message_depth dialect) parser.old) }
{
    let syntax = syntax(parser, dialect)?;
    statements(parser, alloc, syntax)
}
