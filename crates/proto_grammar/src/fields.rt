//! Fields, and what is before a group's `{`.

ghost use Rattle.std.specs.Prelude.{◌≡◌};
ghost use Rattle.proto_grammar.specs.Gives.{Gives};
ghost use Rattle.proto_grammar.specs.declared.dialect.CustomOptions.TheVariants.{Skip};
ghost use Rattle.proto_grammar.specs.Reading.Fields.{numbered_at, typed_at, required_at, label_at};
ghost use Rattle.proto_grammar.specs.Reading.Fields.{pass_field_at, group_head_at, map_field_at};

use crate::dialect::{CustomOptions, Syntax};
use crate::fault::SyntaxFault;
use crate::parser::Parser;
use crate::tree::{Field, Group, Heading, Label, MapField};
use proto_lex::{Span, TokenKind};
use std::alloc::Global;

impl<'t> Parser<'t> {
    /// What comes after a field's type, of a field that begins with the first token.
    #[tactic(auto, unfolding(crate::specs::Reading::Fields::numbered_at))]
    fn numbered(&mut self, custom: CustomOptions, first: Span) -> Result<Heading, SyntaxFault>
        ensures { Gives custom (λ x. x) self.new result (numbered_at custom first self.old) }
    {
        let name = self.token(TokenKind::Identifier)?;
        self.token(TokenKind::Equals)?;
        self.token(TokenKind::Integer)?;
        self.options(custom)?;
        let closing = self.token(TokenKind::Semicolon)?;
        Ok(Heading {
            first,
            name,
            closing,
        })
    }

    /// A field from its type on, with this first token and label.
    #[tactic(auto, unfolding(crate::specs::Reading::Fields::typed_at))]
    pub fn typed(
        &mut self,
        alloc: Global,
        custom: CustomOptions,
        first: Span,
        label: Option<Label>,
    ) -> Result<Field, SyntaxFault>
        ensures { Gives custom (λ x. x) self.new result (typed_at custom first label self.old) }
    {
        let field_type = self.field_type(alloc)?;
        let heading = self.numbered(custom, first)?;
        Ok(Field {
            heading,
            label,
            field_type,
        })
    }

    /// The label `required`.
    #[tactic(auto, unfolding(crate::specs::Reading::Fields::required_at))]
    fn required(&mut self) -> Result<Option<Label>, SyntaxFault>
        ensures { Gives Skip (λ x. x) self.new result (required_at self.old) }
    {
        self.word("required")?;
        Ok(Some(Label::Required))
    }

    /// A label. In proto3 there may be none, in proto2 there must be one.
    #[tactic(auto, unfolding(crate::specs::Reading::Fields::label_at))]
    pub fn label(&mut self, syntax: Syntax) -> Result<Option<Label>, SyntaxFault>
        ensures { Gives Skip (λ x. x) self.new result (label_at syntax self.old) }
    {
        if self.is_at_word("repeated") {
            self.advance();
            return Ok(Some(Label::Repeated));
        }
        if self.is_at_word("optional") {
            self.advance();
            return Ok(Some(Label::Optional));
        }
        if syntax.is_proto2() {
            return self.required();
        }
        Ok(None)
    }

    /// A field of proto3 that isn't kept.
    #[tactic(auto, unfolding(crate::specs::Reading::Fields::pass_field_at))]
    pub fn pass_field(&mut self, custom: CustomOptions) -> Result<(), SyntaxFault>
        ensures { Gives custom (λ x. x) self.new result (pass_field_at custom self.old) }
    {
        let first = self.span()?;
        self.label(Syntax::Proto3(custom))?;
        self.pass_type()?;
        self.numbered(custom, first)?;
        Ok(())
    }

    /// What is before a group's body, with this first token and label (proto2 specification, "Group field").
    #[tactic(auto, unfolding(crate::specs::Reading::Fields::group_head_at))]
    pub fn group_head(
        &mut self,
        custom: CustomOptions,
        first: Span,
        label: Option<Label>,
    ) -> Result<Group, SyntaxFault>
        ensures { Gives custom (λ x. x) self.new result (group_head_at custom first label self.old) }
    {
        let word = self.word("group")?;
        let name = self.group_name()?;
        self.token(TokenKind::Equals)?;
        self.token(TokenKind::Integer)?;
        self.options(custom)?;
        let closing = self.token(TokenKind::OpenBrace)?;
        Ok(Group {
            heading: Heading {
                first,
                name,
                closing,
            },
            label,
            word,
        })
    }

    /// A map field (proto3 specification, "Map field").
    #[tactic(auto, unfolding(crate::specs::Reading::Fields::map_field_at))]
    pub fn map_field(
        &mut self,
        alloc: Global,
        custom: CustomOptions,
    ) -> Result<MapField, SyntaxFault>
        ensures { Gives custom (λ x. x) self.new result (map_field_at custom self.old) }
    {
        let first = self.word("map")?;
        self.token(TokenKind::Less)?;
        let key = self.key()?;
        self.token(TokenKind::Comma)?;
        let value = self.field_type(alloc)?;
        self.token(TokenKind::Greater)?;
        let heading = self.numbered(custom, first)?;
        Ok(MapField {
            heading,
            key,
            value,
        })
    }
}
