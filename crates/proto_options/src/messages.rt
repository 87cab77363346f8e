//! What messages say, beside their fields, of the names in values of them.

ghost use Rattle.std.specs.Prelude.{◌≡◌, ◌<◌, ◌≤◌, ◌++◌, ◌∷◌, [], IfOk, OnOk, map, length};
ghost use Rattle.std.specs.List.Sorted.{IsPartitionPoint};
ghost use Rattle.proto_grammar.specs.Lexeme.{lexemes_of, place_of};
ghost use Rattle.proto_parse.specs.Items.{body_of};
ghost use Rattle.proto_parse.specs.Parts.{anywhere, of_body, of_block, of_item};
ghost use Rattle.proto_parse.specs.Parts.Part.{BlockPart};
ghost use Rattle.proto_options.specs.declared.messages.MessageClause.TheVariants as clauses;
ghost use Rattle.proto_options.specs.Messages as spec;
ghost use Rattle.proto_options.specs.Messages.{messages_in, said_by};

use crate::cursor::Cursor;
use crate::escapes::add_literal;
use crate::odd::braces_behind;
use basics::Sequence;
use proto_lex::{Span, TokenKind, Tokens};
use proto_parse::{Block, File, FileItem, Head, Heading, Item};
use std::alloc::{AllocError, Global};

/// What a message says, beside its fields, of the names in values of it.
#[derive(Debug, Drop)]
pub enum MessageClause {
    /// No field is named so: one of the names of a statement `reserved "NAME", "OTHER";`. Adjacent literals are joined,
    /// and their escapes are read: one that stands for 255 or more, which is in no name, is 255.
    Reserves(Sequence<u8>),
    /// It is a message set: `option message_set_wire_format = true;`.
    IsMessageSet,
}

/// What a message says, by the message.
#[derive(Debug, Drop)]
pub struct MessageFact {
    /// Where the name of the message's declaration is.
    pub name: Span,
    /// What it says.
    pub clause: MessageClause,
}

/// Whether names that are reserved begin here.
fn reserves_names(cursor: &Cursor<'_>) -> bool
    ensures { result ≡ spec.reserves_names cursor.now.left }
{
    cursor.is_before(TokenKind::StringLiteral) && cursor.is_at_word("reserved")
}

/// Whether `message_set_wire_format = true` is behind the next token.
fn sets_wire_format(cursor: &Cursor<'_>) -> bool
    ensures { result ≡ spec.sets_wire_format cursor.now.left }
{
    let behind = cursor.behind();
    behind.is_at_word("message_set_wire_format") && behind.behind().behind().is_at_word("true")
}

/// Whether the option begins here that makes a message a message set.
fn makes_message_set(cursor: &Cursor<'_>) -> bool
    ensures { result ≡ spec.makes_message_set cursor.now.left }
{
    cursor.behind().is_before(TokenKind::Equals)
        && (cursor.is_at_word("option") && sets_wire_format(cursor))
}

/// Whether a message says something in these tokens.
fn says_any(lexed: &Tokens<'_, '_>) -> bool
    ensures { result ≡ spec.says_any (lexemes_of lexed.now.text lexed.now.tokens) }
{
    let mut cursor = Cursor::new(lexed);
    'tokens: while !cursor.is_at_end() {
        if reserves_names(&cursor) || makes_message_set(&cursor) {
            return true;
        }
        cursor.advance();
    }
    false
}

/// Adds what a message says.
fn push_fact(
    facts: &mut Vec<MessageFact>,
    name: Span,
    clause: MessageClause,
) -> Result<(), AllocError>
    ensures { OnOk result (facts.new.items ≡ facts.old.items ++ spec.fact_of name clause ∷ []) }
{
    facts.push(MessageFact { name, clause })?;
    Ok(())
}

/// Whether a literal is next, or the comma between the names in literals.
fn is_of_names(cursor: &Cursor<'_>) -> bool
    ensures { result ≡ spec.is_of_names cursor.now.left }
{
    cursor.is_at(TokenKind::Comma) || cursor.is_at(TokenKind::StringLiteral)
}

/// Adds the name that a comma ends, or else what a literal says to the part of a name that is read.
fn add_part(
    facts: &mut Vec<MessageFact>,
    alloc: Global,
    name: Span,
    joined: &mut Vec<u8>,
    cursor: &Cursor<'_>,
) -> Result<(), AllocError>
    ensures ended { OnOk result (facts.new.items ≡ facts.old.items
        ++ map (spec.fact_of name) (map clauses.Reserves (spec.names_ended joined.old.items cursor.now.left))) }
    ensures joined { OnOk result (joined.new.items ≡ spec.joined_behind joined.old.items cursor.now.left) }
{
    if cursor.is_at(TokenKind::Comma) {
        let ended = std::mem::replace(joined, Vec::new(alloc));
        return push_fact(
            facts,
            name,
            MessageClause::Reserves(Sequence::from_vec(ended)),
        );
    }
    match cursor.peek() {
        Some(lexeme) => add_literal(joined, lexeme.spelling),
        None => Ok(()),
    }
}

/// Adds the names in the literals from a place on.
fn add_names(
    facts: &mut Vec<MessageFact>,
    alloc: Global,
    name: Span,
    first: &Cursor<'_>,
) -> Result<(), AllocError>
    ensures { OnOk result (facts.new.items
        ≡ facts.old.items ++ map (spec.fact_of name) (map clauses.Reserves (spec.names_in [] first.now.left))) }
{
    let mut cursor = first.place();
    let mut joined = Vec::new(alloc);
    'parts: while is_of_names(&cursor) {
        add_part(facts, alloc, name, &mut joined, &cursor)?;
        cursor.advance();
    }
    push_fact(
        facts,
        name,
        MessageClause::Reserves(Sequence::from_vec(joined)),
    )
}

/// Adds what a message says by what begins here.
fn add_clauses_at(
    facts: &mut Vec<MessageFact>,
    alloc: Global,
    name: Span,
    cursor: &Cursor<'_>,
) -> Result<(), AllocError>
    ensures { OnOk result (facts.new.items
        ≡ facts.old.items ++ map (spec.fact_of name) (spec.clauses_at cursor.now.left)) }
{
    if reserves_names(cursor) {
        return add_names(facts, alloc, name, &cursor.behind());
    }
    if makes_message_set(cursor) {
        return push_fact(facts, name, MessageClause::IsMessageSet);
    }
    Ok(())
}

/// The same, if it is directly in the message's braces: no others are open.
fn add_direct(
    facts: &mut Vec<MessageFact>,
    alloc: Global,
    name: Span,
    open_braces: usize,
    cursor: &Cursor<'_>,
) -> Result<(), AllocError>
    ensures { OnOk result (facts.new.items
        ≡ facts.old.items ++ map (spec.fact_of name) (spec.clauses_direct open_braces cursor.now.left)) }
{
    if open_braces == 0 {
        return add_clauses_at(facts, alloc, name, cursor);
    }
    Ok(())
}

/// Whether braces are over in which so many are open.
fn is_over(cursor: &Cursor<'_>, open_braces: usize) -> bool
    ensures { result ≡ spec.is_over open_braces cursor.now.left }
{
    cursor.is_at_end() || (open_braces == 0 && cursor.is_at(TokenKind::CloseBrace))
}

/// Adds what a message says in its braces, from behind their `{` on.
fn add_clauses(
    facts: &mut Vec<MessageFact>,
    alloc: Global,
    name: Span,
    body: Cursor<'_>,
) -> Result<(), AllocError>
    ensures { OnOk result (facts.new.items
        ≡ facts.old.items ++ map (spec.fact_of name) (spec.clauses_in 0 body.entry.left)) }
{
    let mut cursor = body;
    let most = cursor.left();
    let mut open_braces = 0;
    'tokens: while !is_over(&cursor, open_braces) {
        add_direct(facts, alloc, name, open_braces, &cursor)?;
        open_braces = braces_behind(&cursor, open_braces, most);
        cursor.advance();
    }
    Ok(())
}

/// How many tokens begin before an offset.
fn tokens_before(lexed: &Tokens<'_, '_>, offset: u32) -> usize
    ensures within { result ≤ length lexed.now.tokens }
    ensures parted { IsPartitionPoint (λ t. t.span.start < offset)
        (λ t. offset ≤ t.span.start) lexed.now.tokens result }
{
    lexed
        .tokens()
        .partition_point(|token| token.span.start < offset)
}

/// The place behind the token that starts here.
fn place_behind<'t>(lexed: &'t Tokens<'t, 't>, start: u32) -> Cursor<'t>
    ensures { result ≡ place_of (length lexed.now.text)
        (spec.behind_start start (lexemes_of lexed.now.text lexed.now.tokens)) }
{
    let mut cursor = Cursor::at(lexed, tokens_before(lexed, start));
    cursor.advance();
    cursor
}

/// Adds what a message says in its braces.
fn add_said(
    facts: &mut Vec<MessageFact>,
    alloc: Global,
    lexed: &Tokens<'_, '_>,
    heading: &Heading,
) -> Result<(), AllocError>
    ensures { OnOk result (facts.new.items
        ≡ facts.old.items ++ spec.said_in (lexemes_of lexed.now.text lexed.now.tokens) heading.now) }
{
    let body = place_behind(lexed, heading.closing.start);
    add_clauses(facts, alloc, heading.name, body)
}

/// Adds what is said in a block, if it is a message or a group.
fn add_head(
    facts: &mut Vec<MessageFact>,
    alloc: Global,
    lexed: &Tokens<'_, '_>,
    head: &Head,
) -> Result<(), AllocError>
    ensures { OnOk result (facts.new.items
        ≡ facts.old.items ++ said_by (lexemes_of lexed.now.text lexed.now.tokens) tt (BlockPart head.now)) }
{
    match head {
        Head::Message(heading) => add_said(facts, alloc, lexed, heading),
        Head::Group(group) => add_said(facts, alloc, lexed, &group.heading),
        Head::Oneof(_) | Head::Extend(_) => Ok(()),
    }
}

/// Adds what is said in a block and in those in it.
#[cycle(messages)]
fn add_block(
    facts: &mut Vec<MessageFact>,
    alloc: Global,
    lexed: &Tokens<'_, '_>,
    block: &Block,
) -> Result<(), AllocError>
    ensures { OnOk result (facts.new.items ≡ facts.old.items
        ++ of_block anywhere (said_by (lexemes_of lexed.now.text lexed.now.tokens)) tt block.now) }
{
    add_head(facts, alloc, lexed, &block.head)?;
    add_items(facts, alloc, lexed, &block.items)
}

/// Adds what is said in the blocks among these.
#[cycle(messages)]
fn add_items(
    facts: &mut Vec<MessageFact>,
    alloc: Global,
    lexed: &Tokens<'_, '_>,
    items: &[Item],
) -> Result<(), AllocError>
    ensures { OnOk result (facts.new.items ≡ facts.old.items
        ++ of_body anywhere (said_by (lexemes_of lexed.now.text lexed.now.tokens)) tt (body_of items.now)) }
{
    for item in items {
        match item {
            Item::Block(block) => {
                add_block(facts, alloc, lexed, block)?;
            }
            Item::Leaf(_) => {}
        }
    }
    Ok(())
}

/// Adds what is said in an item of a file.
fn add_item(
    facts: &mut Vec<MessageFact>,
    alloc: Global,
    lexed: &Tokens<'_, '_>,
    item: &FileItem,
) -> Result<(), AllocError>
    ensures { OnOk result (facts.new.items ≡ facts.old.items
        ++ of_item anywhere (said_by (lexemes_of lexed.now.text lexed.now.tokens)) tt item.now) }
{
    match item {
        FileItem::Block(block) => add_block(facts, alloc, lexed, block),
        FileItem::Enum(_) => Ok(()),
        FileItem::Service(_) => Ok(()),
    }
}

/// What the messages of a file say, which these tokens derive: a message before those in it. Takes no memory if none
/// says anything.
pub fn messages_of(
    alloc: Global,
    lexed: &Tokens<'_, '_>,
    file: &File,
) -> Result<Sequence<MessageFact>, AllocError>
    ensures { IfOk result (λ facts. facts ≡ messages_in lexed.now file.now) }
{
    if !says_any(lexed) {
        return Ok(Sequence::new(alloc));
    }
    let mut facts = Vec::new(alloc);
    for item in file.items.as_slice() {
        add_item(&mut facts, alloc, lexed, item)?;
    }
    Ok(Sequence::from_vec(facts))
}
