//! Options.

ghost use Rattle.std.specs.Prelude.{◌≡◌, ◌+◌, ◌<◌, ◌≤◌, length};
ghost use Rattle.proto_grammar.specs.Gives.{Gives};
ghost use Rattle.proto_grammar.specs.declared.dialect.CustomOptions.TheVariants.{Skip};
ghost use Rattle.proto_grammar.specs.Reading.Options.{extension_at, part_at, dot_part_at, dot_parts_at, option_name_at};
ghost use Rattle.proto_grammar.specs.Reading.Options.{literal_at, literals_at, strings_at, deeper_at, closed_at};
ghost use Rattle.proto_grammar.specs.Reading.Options.{aggregate_at, signed_at, constant_at, setting_at};
ghost use Rattle.proto_grammar.specs.Reading.Options.{comma_setting_at, comma_settings_at, option_at, bracketed_at};
ghost use Rattle.proto_grammar.specs.Reading.Options.{options_at};

use crate::dialect::CustomOptions;
use crate::fault::SyntaxFault;
use crate::parser::Parser;
use proto_lex::TokenKind;

impl<'t> Parser<'t> {
    /// A type's name in parentheses, in an option's name.
    #[tactic(auto, unfolding(crate::specs::Reading::Options::extension_at))]
    fn extension(&mut self, custom: CustomOptions) -> Result<(), SyntaxFault>
        ensures { Gives custom (λ x. x) self.new result (extension_at custom self.old) }
    {
        if custom == CustomOptions::Refuse {
            return Err(SyntaxFault::CustomOption(self.offset()));
        }
        self.token(TokenKind::OpenParenthesis)?;
        self.pass_type_name()?;
        self.token(TokenKind::CloseParenthesis)?;
        Ok(())
    }

    /// A part of an option's name.
    #[tactic(auto, unfolding(crate::specs::Reading::Options::part_at))]
    fn part(&mut self, custom: CustomOptions) -> Result<(), SyntaxFault>
        ensures { Gives custom (λ x. x) self.new result (part_at custom self.old) }
    {
        if self.is_at(TokenKind::OpenParenthesis) {
            return self.extension(custom);
        }
        self.token(TokenKind::Identifier)?;
        Ok(())
    }

    /// A `.` and a part of an option's name.
    #[tactic(auto, unfolding(crate::specs::Reading::Options::dot_part_at))]
    fn dot_part(&mut self, custom: CustomOptions) -> Result<(), SyntaxFault>
        ensures { Gives custom (λ x. x) self.new result (dot_part_at custom self.old) }
    {
        self.token(TokenKind::Dot)?;
        self.part(custom)
    }

    /// The parts of an option's name after the first one.
    fn dot_parts(&mut self, custom: CustomOptions) -> Result<(), SyntaxFault>
        ensures { Gives custom (λ x. x) self.new result (dot_parts_at custom self.old) }
    {
        'parts: while self.is_at(TokenKind::Dot) {
            self.dot_part(custom)?;
        }
        Ok(())
    }

    /// An option's name.
    #[tactic(auto, unfolding(crate::specs::Reading::Options::option_name_at))]
    fn option_name(&mut self, custom: CustomOptions) -> Result<(), SyntaxFault>
        ensures { Gives custom (λ x. x) self.new result (option_name_at custom self.old) }
    {
        self.part(custom)?;
        self.dot_parts(custom)
    }

    /// One string literal.
    #[tactic(auto, unfolding(crate::specs::Reading::Options::literal_at))]
    fn literal(&mut self) -> Result<(), SyntaxFault>
        ensures { Gives Skip (λ x. x) self.new result (literal_at self.old) }
    {
        self.token(TokenKind::StringLiteral)?;
        Ok(())
    }

    /// The literals after the first one.
    fn literals(&mut self) -> Result<(), SyntaxFault>
        ensures { Gives Skip (λ x. x) self.new result (literals_at self.old) }
    {
        'literals: while self.is_at(TokenKind::StringLiteral) {
            self.literal()?;
        }
        Ok(())
    }

    /// One literal, or more.
    #[tactic(auto, unfolding(crate::specs::Reading::Options::strings_at))]
    pub(crate) fn strings(&mut self) -> Result<(), SyntaxFault>
        ensures { Gives Skip (λ x. x) self.new result (strings_at self.old) }
    {
        self.literal()?;
        self.literals()
    }

    /// An aggregate value: braces with any tokens, in which braces are balanced.
    #[tactic(auto, unfolding(crate::specs::Reading::Options::aggregate_at))]
    fn aggregate(&mut self, custom: CustomOptions) -> Result<(), SyntaxFault>
        ensures { Gives custom (λ x. x) self.new result (aggregate_at custom self.old) }
    {
        if custom == CustomOptions::Refuse {
            return Err(SyntaxFault::Aggregate(self.offset()));
        }
        let left = self.left();
        self.token(TokenKind::OpenBrace)?;
        self.closed(left)
    }

    /// Any tokens, up to and with the one that closes an open brace. Fewer than `left` are left.
    fn closed(&mut self, left: usize) -> Result<(), SyntaxFault>
        requires { length self.old.left < left }
        ensures { Gives Skip (λ x. x) self.new result (closed_at 1 self.old) }
    {
        let mut depth = 1;
        'tokens: while depth > 0 {
            depth = self.deeper(depth, left)?;
        }
        Ok(())
    }

    /// Takes a token, and gives how many braces are open after it. At most `left` are open before it, or left.
    #[tactic(auto, unfolding(crate::specs::Reading::Options::deeper_at))]
    fn deeper(&mut self, depth: usize, left: usize) -> Result<usize, SyntaxFault>
        requires bounded { depth + length self.old.left ≤ left }
        requires inside { 0 < depth }
        ensures { Gives Skip (λ x. x) self.new result (deeper_at depth self.old) }
    {
        let offset = self.offset();
        let Some(lexeme) = self.next() else {
            return Err(SyntaxFault::Grammar(offset));
        };
        if lexeme.kind == TokenKind::OpenBrace {
            return Ok(depth + 1);
        }
        if lexeme.kind == TokenKind::CloseBrace {
            return Ok(depth - 1);
        }
        Ok(depth)
    }

    /// An option statement (proto3 specification, "Option").
    #[tactic(auto, unfolding(crate::specs::Reading::Options::option_at))]
    pub fn option(&mut self, custom: CustomOptions) -> Result<(), SyntaxFault>
        ensures { Gives custom (λ x. x) self.new result (option_at custom self.old) }
    {
        self.word("option")?;
        self.setting(custom)?;
        self.token(TokenKind::Semicolon)?;
        Ok(())
    }

    /// A sign, and what may be after it.
    #[tactic(auto, unfolding(crate::specs::Reading::Options::signed_at))]
    fn signed(&mut self) -> Result<(), SyntaxFault>
        ensures { Gives Skip (λ x. x) self.new result (signed_at self.old) }
    {
        self.sign()?;
        self.number()?;
        Ok(())
    }

    /// The value of an option (proto3 specification, "Constant").
    #[tactic(auto, unfolding(crate::specs::Reading::Options::constant_at))]
    fn constant(&mut self, custom: CustomOptions) -> Result<(), SyntaxFault>
        ensures { Gives custom (λ x. x) self.new result (constant_at custom self.old) }
    {
        if self.is_at(TokenKind::Identifier) {
            return self.pass_name();
        }
        if self.is_at_sign() {
            return self.signed();
        }
        if self.is_at(TokenKind::StringLiteral) {
            return self.strings();
        }
        if self.is_at(TokenKind::OpenBrace) {
            return self.aggregate(custom);
        }
        self.numeral()?;
        Ok(())
    }

    /// An option's name, `=` and its value.
    #[tactic(auto, unfolding(crate::specs::Reading::Options::setting_at))]
    fn setting(&mut self, custom: CustomOptions) -> Result<(), SyntaxFault>
        ensures { Gives custom (λ x. x) self.new result (setting_at custom self.old) }
    {
        self.option_name(custom)?;
        self.token(TokenKind::Equals)?;
        self.constant(custom)
    }

    /// A comma and the setting after it.
    #[tactic(auto, unfolding(crate::specs::Reading::Options::comma_setting_at))]
    fn comma_setting(&mut self, custom: CustomOptions) -> Result<(), SyntaxFault>
        ensures { Gives custom (λ x. x) self.new result (comma_setting_at custom self.old) }
    {
        self.token(TokenKind::Comma)?;
        self.setting(custom)
    }

    /// The settings after the first one.
    fn comma_settings(&mut self, custom: CustomOptions) -> Result<(), SyntaxFault>
        ensures { Gives custom (λ x. x) self.new result (comma_settings_at custom self.old) }
    {
        'settings: while self.is_at(TokenKind::Comma) {
            self.comma_setting(custom)?;
        }
        Ok(())
    }

    /// Options in brackets.
    #[tactic(auto, unfolding(crate::specs::Reading::Options::bracketed_at))]
    fn bracketed(&mut self, custom: CustomOptions) -> Result<(), SyntaxFault>
        ensures { Gives custom (λ x. x) self.new result (bracketed_at custom self.old) }
    {
        self.token(TokenKind::OpenBracket)?;
        self.setting(custom)?;
        self.comma_settings(custom)?;
        self.token(TokenKind::CloseBracket)?;
        Ok(())
    }

    /// Options in brackets, if they are next.
    #[tactic(auto, unfolding(crate::specs::Reading::Options::options_at))]
    pub fn options(&mut self, custom: CustomOptions) -> Result<(), SyntaxFault>
        ensures { Gives custom (λ x. x) self.new result (options_at custom self.old) }
    {
        if self.is_at(TokenKind::OpenBracket) {
            return self.bracketed(custom);
        }
        Ok(())
    }
}
