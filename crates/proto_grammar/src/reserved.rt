//! Reserved statements and extension ranges.

ghost use Rattle.std.specs.Prelude.{◌≡◌};
ghost use Rattle.proto_grammar.specs.Gives.{Gives};
ghost use Rattle.proto_grammar.specs.declared.dialect.CustomOptions.TheVariants.{Skip};
ghost use Rattle.proto_grammar.specs.Reading.Reserved.{plain_integer_at, integer_at, range_end_at, range_at};
ghost use Rattle.proto_grammar.specs.Reading.Reserved.{reserved_item_at, comma_item_at, comma_items_at, reserved_at};
ghost use Rattle.proto_grammar.specs.Reading.Reserved.{extensions_at};

use crate::dialect::CustomOptions;
use crate::fault::SyntaxFault;
use crate::parser::Parser;
use proto_lex::TokenKind;

impl<'t> Parser<'t> {
    /// A whole number without a sign.
    #[tactic(auto, unfolding(crate::specs::Reading::Reserved::plain_integer_at))]
    fn plain_integer(&mut self) -> Result<(), SyntaxFault>
        ensures { Gives Skip (λ x. x) self.new result (plain_integer_at self.old) }
    {
        self.token(TokenKind::Integer)?;
        Ok(())
    }

    /// A whole number, after a `-` only if it may be negative.
    #[tactic(auto, unfolding(crate::specs::Reading::Reserved::integer_at))]
    pub fn integer(&mut self, negative: bool) -> Result<(), SyntaxFault>
        ensures { Gives Skip (λ x. x) self.new result (integer_at negative self.old) }
    {
        if negative && self.is_at(TokenKind::Minus) {
            self.advance();
        }
        self.plain_integer()
    }

    /// The end of a range: `max` or a whole number.
    #[tactic(auto, unfolding(crate::specs::Reading::Reserved::range_end_at))]
    fn range_end(&mut self, negative: bool) -> Result<(), SyntaxFault>
        ensures { Gives Skip (λ x. x) self.new result (range_end_at negative self.old) }
    {
        if self.is_at_word("max") {
            self.advance();
            return Ok(());
        }
        self.integer(negative)
    }

    /// A number, or a range of numbers.
    #[tactic(auto, unfolding(crate::specs::Reading::Reserved::range_at))]
    fn range(&mut self, negative: bool) -> Result<(), SyntaxFault>
        ensures { Gives Skip (λ x. x) self.new result (range_at negative self.old) }
    {
        self.integer(negative)?;
        if self.is_at_word("to") {
            self.advance();
            return self.range_end(negative);
        }
        Ok(())
    }

    /// What is reserved: a name if `names` is true, otherwise a range.
    #[tactic(auto, unfolding(crate::specs::Reading::Reserved::reserved_item_at))]
    fn reserved_item(&mut self, negative: bool, names: bool) -> Result<(), SyntaxFault>
        ensures { Gives Skip (λ x. x) self.new result (reserved_item_at negative names self.old) }
    {
        if names {
            return self.strings();
        }
        self.range(negative)
    }

    /// A comma and what is reserved after it.
    #[tactic(auto, unfolding(crate::specs::Reading::Reserved::comma_item_at))]
    fn comma_item(&mut self, negative: bool, names: bool) -> Result<(), SyntaxFault>
        ensures { Gives Skip (λ x. x) self.new result (comma_item_at negative names self.old) }
    {
        self.token(TokenKind::Comma)?;
        self.reserved_item(negative, names)
    }

    /// What is reserved after the first item.
    fn comma_items(&mut self, negative: bool, names: bool) -> Result<(), SyntaxFault>
        ensures { Gives Skip (λ x. x) self.new result (comma_items_at negative names self.old) }
    {
        'items: while self.is_at(TokenKind::Comma) {
            self.comma_item(negative, names)?;
        }
        Ok(())
    }

    /// A reserved statement (proto3 specification, "Reserved"). Its numbers may be negative in an
    /// enum.
    #[tactic(auto, unfolding(crate::specs::Reading::Reserved::reserved_at))]
    pub fn reserved(&mut self, negative: bool) -> Result<(), SyntaxFault>
        ensures { Gives Skip (λ x. x) self.new result (reserved_at negative self.old) }
    {
        self.word("reserved")?;
        let names = self.is_at(TokenKind::StringLiteral);
        self.reserved_item(negative, names)?;
        self.comma_items(negative, names)?;
        self.token(TokenKind::Semicolon)?;
        Ok(())
    }

    /// The ranges of a message's extensions (proto2 specification, "Extensions").
    #[tactic(auto, unfolding(crate::specs::Reading::Reserved::extensions_at))]
    pub fn extensions(&mut self, custom: CustomOptions) -> Result<(), SyntaxFault>
        ensures { Gives custom (λ x. x) self.new result (extensions_at custom self.old) }
    {
        self.word("extensions")?;
        self.range(false)?;
        self.comma_items(false, false)?;
        self.options(custom)?;
        self.token(TokenKind::Semicolon)?;
        Ok(())
    }
}
