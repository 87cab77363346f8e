//! Messages, groups, oneofs and extends.

ghost use Rattle.std.specs.Prelude.{◌≡◌, ◌&&◌, [], ◌++◌, OnOk, option_to_list};
ghost use Rattle.proto_grammar.specs.Gives.{Gives};
ghost use Rattle.proto_grammar.specs.Syntax.{custom_of, is_proto2};
ghost use Rattle.proto_grammar.specs.Terminal.{first_is, is_group_word};
ghost use Rattle.proto_steps.specs.Step.{While, adding, run};
ghost use Rattle.proto_steps.specs.Terminals.{is_inside as is_not_closing};
ghost use Rattle.proto_steps.specs.Choice.{message_statement_of, chosen_item, item_of};
ghost use Rattle.proto_steps.specs.Grammar.Definitions as grammar;

use crate::enums::enumeration;
use crate::fitting::fitted;
use crate::headings::{heading, is_inside};
use crate::parts::{extensions, group_head, label, map_field, named_type, option, reserved, typed};
use crate::passed::passed_extend;
use crate::statement::{MessageStatement, Within};
use proto_grammar::{Block, Head, Item, Label, Leaf, Parser, Syntax, SyntaxFault};
use proto_lex::{Span, TokenKind};
use std::alloc::{AllocError, Global};

/// How many messages and groups may be inside one another, the outermost and the innermost among them.
pub const MAX_MESSAGE_DEPTH: usize = 64;

/// What the next statement of a message is.
fn message_statement(parser: &Parser<'_>, syntax: Syntax) -> MessageStatement
    ensures { result ≡ message_statement_of syntax parser.now.left }
{
    let Some(lexeme) = parser.peek() else {
        return MessageStatement::Member;
    };
    if lexeme.kind == TokenKind::Semicolon {
        return MessageStatement::Empty;
    }
    if lexeme.is_word("message") {
        return MessageStatement::Message;
    }
    if lexeme.is_word("enum") {
        return MessageStatement::Enum;
    }
    if lexeme.is_word("option") {
        return MessageStatement::Option;
    }
    if lexeme.is_word("oneof") {
        return MessageStatement::Oneof;
    }
    if lexeme.is_word("map") && (syntax.is_proto2() || parser.is_before(TokenKind::Less)) {
        return MessageStatement::Map;
    }
    if lexeme.is_word("reserved") {
        return MessageStatement::Reserved;
    }
    if lexeme.is_word("extend") {
        return MessageStatement::Extend;
    }
    if lexeme.is_word("extensions") {
        return MessageStatement::Extensions;
    }
    MessageStatement::Member
}

/// The ranges of a message's extensions. Only proto2 has them.
#[tactic(auto, unfolding(crate::specs::Step::run, crate::specs::Grammar::Definitions::ranges))]
fn ranges(parser: &mut Parser<'_>, syntax: Syntax) -> Result<Option<Item>, SyntaxFault>
    ensures { Gives (custom_of syntax) (λ x. x) parser.new result (run (grammar.ranges syntax) parser.old) }
{
    if !syntax.is_proto2() {
        return Err(SyntaxFault::Grammar(parser.offset()));
    }
    extensions(parser, syntax.custom_options())?;
    Ok(None)
}

/// A message. It and what is in it take up at most `levels` levels, of which each message and each group takes up one
/// (proto3 specification, "Message definition").
#[cycle(parser)]
#[tactic(auto, using(crate::proofs::MessageLemmas::no_message, crate::proofs::MessageLemmas::some_message))]
pub(crate) fn message(
    parser: &mut Parser<'_>,
    alloc: Global,
    syntax: Syntax,
    levels: usize,
) -> Result<Block, SyntaxFault>
    ensures { Gives (custom_of syntax) (λ x. x) parser.new result
        (run (grammar.message (grammar.inside syntax levels)) parser.old) }
{
    if levels == 0 {
        return Err(SyntaxFault::TooDeep(parser.offset()));
    }
    let heading = heading(parser, "message")?;
    let items = braced(parser, alloc, syntax, levels - 1, Within::Message)?;
    Ok(Block {
        head: Head::Message(heading),
        items,
    })
}

/// A group from behind its label on, with this first token and label. It and what is in it take up at most `levels`
/// levels (proto2 specification, "Group field").
#[cycle(parser)]
#[tactic(auto, using(crate::proofs::MessageLemmas::no_group, crate::proofs::MessageLemmas::some_group))]
fn group(
    parser: &mut Parser<'_>,
    alloc: Global,
    syntax: Syntax,
    levels: usize,
    first: Span,
    label: Option<Label>,
) -> Result<Block, SyntaxFault>
    ensures { Gives (custom_of syntax) (λ x. x) parser.new result
        (run (grammar.group (custom_of syntax) (grammar.inside syntax levels) first label) parser.old) }
{
    if levels == 0 {
        return Err(SyntaxFault::TooDeep(first.start as usize));
    }
    let group = group_head(parser, syntax.custom_options(), first, label)?;
    let items = braced(parser, alloc, syntax, levels - 1, Within::Message)?;
    Ok(Block {
        head: Head::Group(group),
        items,
    })
}

/// Whether a group is next, behind its label. Only proto2 has groups.
#[tactic(auto, using(crate::proofs::ChoiceLemmas::group_there, crate::proofs::ChoiceLemmas::no_group_there))]
fn is_at_group(parser: &Parser<'_>, syntax: Syntax) -> bool
    ensures { result ≡ first_is (λ t. is_proto2 syntax && is_group_word t) parser.now.left }
{
    syntax.is_proto2() && parser.is_at_group()
}

/// A field or a group from behind its label on, with this first token and label.
#[cycle(parser)]
#[tactic(auto, unfolding(crate::specs::Step::run, crate::specs::Grammar::Definitions::labelled))]
fn labelled(
    parser: &mut Parser<'_>,
    alloc: Global,
    syntax: Syntax,
    levels: usize,
    first: Span,
    label: Option<Label>,
) -> Result<Item, SyntaxFault>
    ensures { Gives (custom_of syntax) (λ x. x) parser.new result
        (run (grammar.labelled syntax (grammar.inside syntax levels) first label) parser.old) }
{
    if is_at_group(parser, syntax) {
        return Ok(Item::Block(group(parser, alloc, syntax, levels, first, label)?));
    }
    let field = typed(parser, alloc, syntax.custom_options(), first, label)?;
    Ok(Item::Leaf(Leaf::Field(field)))
}

/// A field or a group with its label.
#[cycle(parser)]
#[tactic(auto, unfolding(crate::specs::Step::run, crate::specs::Grammar::Definitions::member))]
fn member(
    parser: &mut Parser<'_>,
    alloc: Global,
    syntax: Syntax,
    levels: usize,
) -> Result<Item, SyntaxFault>
    ensures { Gives (custom_of syntax) (λ x. x) parser.new result
        (run (grammar.member syntax (grammar.inside syntax levels)) parser.old) }
{
    let Some(first) = parser.peek() else {
        return Err(SyntaxFault::Grammar(parser.offset()));
    };
    let label = label(parser, syntax)?;
    labelled(parser, alloc, syntax, levels, first.span, label)
}

/// A field or a group of a oneof: it has no label.
#[cycle(parser)]
#[tactic(auto, unfolding(crate::specs::Step::run, crate::specs::Grammar::Definitions::oneof_member))]
fn oneof_member(
    parser: &mut Parser<'_>,
    alloc: Global,
    syntax: Syntax,
    levels: usize,
) -> Result<Item, SyntaxFault>
    ensures { Gives (custom_of syntax) (λ x. x) parser.new result
        (run (grammar.oneof_member syntax (grammar.inside syntax levels)) parser.old) }
{
    let Some(first) = parser.peek() else {
        return Err(SyntaxFault::Grammar(parser.offset()));
    };
    labelled(parser, alloc, syntax, levels, first.span, None)
}

/// What is in a oneof, if it is kept.
#[cycle(parser)]
#[tactic(auto, unfolding(crate::specs::Step::run, crate::specs::Grammar::Definitions::oneof_item))]
fn oneof_item(
    parser: &mut Parser<'_>,
    alloc: Global,
    syntax: Syntax,
    levels: usize,
) -> Result<Option<Item>, SyntaxFault>
    ensures { Gives (custom_of syntax) (λ x. x) parser.new result
        (run (grammar.oneof_item syntax (grammar.inside syntax levels)) parser.old) }
{
    if parser.is_at(TokenKind::Semicolon) {
        parser.token(TokenKind::Semicolon)?;
        return Ok(None);
    }
    if parser.is_at_word("option") {
        option(parser, syntax.custom_options())?;
        return Ok(None);
    }
    Ok(Some(oneof_member(parser, alloc, syntax, levels)?))
}

/// What is in an extend, if it is kept.
#[cycle(parser)]
#[tactic(auto, unfolding(crate::specs::Step::run, crate::specs::Grammar::Definitions::extend_item))]
fn extend_item(
    parser: &mut Parser<'_>,
    alloc: Global,
    syntax: Syntax,
    levels: usize,
) -> Result<Option<Item>, SyntaxFault>
    ensures { Gives (custom_of syntax) (λ x. x) parser.new result
        (run (grammar.extend_item syntax (grammar.inside syntax levels)) parser.old) }
{
    if parser.is_at(TokenKind::Semicolon) {
        parser.token(TokenKind::Semicolon)?;
        return Ok(None);
    }
    Ok(Some(member(parser, alloc, syntax, levels)?))
}

/// A oneof (proto3 specification, "Oneof and oneof field").
#[cycle(parser)]
#[tactic(auto, unfolding(crate::specs::Step::run, crate::specs::Grammar::Definitions::oneof))]
fn oneof(
    parser: &mut Parser<'_>,
    alloc: Global,
    syntax: Syntax,
    levels: usize,
) -> Result<Block, SyntaxFault>
    ensures { Gives (custom_of syntax) (λ x. x) parser.new result
        (run (grammar.oneof syntax (grammar.inside syntax levels)) parser.old) }
{
    let heading = heading(parser, "oneof")?;
    let items = braced(parser, alloc, syntax, levels, Within::Oneof)?;
    Ok(Block {
        head: Head::Oneof(heading),
        items,
    })
}

/// An extend that is kept (proto2 specification, "Extend").
#[cycle(parser)]
#[tactic(auto, unfolding(crate::specs::Step::run, crate::specs::Grammar::Definitions::extend))]
fn extend(
    parser: &mut Parser<'_>,
    alloc: Global,
    syntax: Syntax,
    levels: usize,
) -> Result<Block, SyntaxFault>
    ensures { Gives (custom_of syntax) (λ x. x) parser.new result
        (run (grammar.extend syntax (grammar.inside syntax levels)) parser.old) }
{
    parser.word("extend")?;
    let extended = named_type(parser, alloc)?;
    parser.token(TokenKind::OpenBrace)?;
    let items = braced(parser, alloc, syntax, levels, Within::Extend)?;
    Ok(Block {
        head: Head::Extend(extended),
        items,
    })
}

/// An extend, if it is kept.
#[cycle(parser)]
#[tactic(auto, unfolding(crate::specs::Step::run, crate::specs::Grammar::Definitions::extend_statement))]
pub(crate) fn extend_statement(
    parser: &mut Parser<'_>,
    alloc: Global,
    syntax: Syntax,
    levels: usize,
) -> Result<Option<Block>, SyntaxFault>
    ensures { Gives (custom_of syntax) (λ x. x) parser.new result
        (run (grammar.extend_statement syntax (grammar.inside syntax levels)) parser.old) }
{
    match syntax {
        Syntax::Proto3(custom) => {
            passed_extend(parser, custom)?;
            Ok(None)
        }
        Syntax::Extended | Syntax::Proto2 => Ok(Some(extend(parser, alloc, syntax, levels)?)),
    }
}

/// A statement of a message or a group, if it is kept.
#[cycle(parser)]
#[tactic(auto, unfolding(crate::specs::Step::run))]
fn chosen_item(
    parser: &mut Parser<'_>,
    alloc: Global,
    syntax: Syntax,
    levels: usize,
    statement: MessageStatement,
) -> Result<Option<Item>, SyntaxFault>
    ensures { Gives (custom_of syntax) (λ x. x) parser.new result
        (run (chosen_item statement syntax (grammar.inside syntax levels)) parser.old) }
{
    let custom = syntax.custom_options();
    match statement {
        MessageStatement::Empty => {
            parser.token(TokenKind::Semicolon)?;
            Ok(None)
        }
        MessageStatement::Message => {
            Ok(Some(Item::Block(message(parser, alloc, syntax, levels)?)))
        }
        MessageStatement::Enum => {
            Ok(Some(Item::Leaf(Leaf::Enum(enumeration(parser, alloc, custom)?))))
        }
        MessageStatement::Option => {
            option(parser, custom)?;
            Ok(None)
        }
        MessageStatement::Oneof => Ok(Some(Item::Block(oneof(parser, alloc, syntax, levels)?))),
        MessageStatement::Map => {
            Ok(Some(Item::Leaf(Leaf::MapField(map_field(parser, alloc, custom)?))))
        }
        MessageStatement::Reserved => {
            reserved(parser, false)?;
            Ok(None)
        }
        MessageStatement::Extend => {
            Ok(extend_statement(parser, alloc, syntax, levels)?.map(Item::Block))
        }
        MessageStatement::Extensions => ranges(parser, syntax),
        MessageStatement::Member => Ok(Some(member(parser, alloc, syntax, levels)?)),
    }
}

/// What is in a message or a group, if it is kept.
#[cycle(parser)]
fn message_item(
    parser: &mut Parser<'_>,
    alloc: Global,
    syntax: Syntax,
    levels: usize,
) -> Result<Option<Item>, SyntaxFault>
    ensures { Gives (custom_of syntax) (λ x. x) parser.new result
        (run (grammar.message_item syntax (grammar.inside syntax levels)) parser.old) }
{
    let statement = message_statement(parser, syntax);
    chosen_item(parser, alloc, syntax, levels, statement)
}

/// What is between the braces, if it is kept.
#[cycle(parser)]
fn item(
    parser: &mut Parser<'_>,
    alloc: Global,
    syntax: Syntax,
    levels: usize,
    within: Within,
) -> Result<Option<Item>, SyntaxFault>
    ensures { Gives (custom_of syntax) (λ x. x) parser.new result
        (run (item_of within syntax (grammar.inside syntax levels)) parser.old) }
{
    match within {
        Within::Message => message_item(parser, alloc, syntax, levels),
        Within::Oneof => oneof_item(parser, alloc, syntax, levels),
        Within::Extend => extend_item(parser, alloc, syntax, levels),
    }
}

/// What comes before a closing brace.
#[cycle(parser)]
#[tactic(auto, using(crate::proofs::LoopLemmas::adds_on, crate::proofs::LoopLemmas::adding_stops, crate::proofs::LoopLemmas::is_over, crate::proofs::MessageLemmas::item_shorter))]
fn items(
    parser: &mut Parser<'_>,
    alloc: Global,
    syntax: Syntax,
    levels: usize,
    within: Within,
) -> Result<Vec<Item>, SyntaxFault>
    ensures { Gives (custom_of syntax) (λ x. x.items) parser.new result
        (run (While is_not_closing (adding (item_of within syntax (grammar.inside syntax levels))) []) parser.old) }
{
    let mut items = Vec::new(alloc);
    'items: while is_inside(parser) {
        let item = item(parser, alloc, syntax, levels, within)?;
        keep_item(&mut items, item)?;
    }
    Ok(items)
}

/// What comes after an opening brace, up to and with the closing one. The messages and groups in it take up at most
/// `levels` levels.
#[cycle(parser)]
#[tactic(auto, unfolding(crate::specs::Step::run, crate::specs::Grammar::Definitions::braced))]
fn braced(
    parser: &mut Parser<'_>,
    alloc: Global,
    syntax: Syntax,
    levels: usize,
    within: Within,
) -> Result<Vec<Item>, SyntaxFault>
    ensures { Gives (custom_of syntax) (λ x. x.items) parser.new result
        (run (grammar.braced (item_of within syntax (grammar.inside syntax levels))) parser.old) }
{
    let items = items(parser, alloc, syntax, levels, within)?;
    parser.token(TokenKind::CloseBrace)?;
    Ok(fitted(alloc, items)?)
}

/// Puts the item at the end, if there is one.
fn keep_item(items: &mut Vec<Item>, item: Option<Item>) -> Result<(), AllocError>
    ensures { OnOk result (items.new.items ≡ items.old.items ++ option_to_list item) }
{
    if let Some(item) = item {
        items.push(item)?;
    }
    Ok(())
}
