//! Names and types.

ghost use Rattle.std.specs.Prelude.{◌≡◌};
ghost use Rattle.proto_grammar.specs.Gives.{Gives};
ghost use Rattle.proto_grammar.specs.declared.dialect.CustomOptions.TheVariants.{Skip};
ghost use Rattle.proto_grammar.specs.Reading.Names.{dot_name_at, dot_names_at, name_at, pass_dot_name_at, pass_name_at};
ghost use Rattle.proto_grammar.specs.Reading.Names.{pass_dot_names_at, leading_dot_at, type_name_at, pass_type_name_at};
ghost use Rattle.proto_grammar.specs.Reading.Names.{named_type_at, type_at, pass_type_at};

use crate::fault::SyntaxFault;
use crate::kept::keep;
use crate::parser::Parser;
use crate::tree::{FieldType, TypeName};
use basics::Sequence;
use proto_lex::{Span, TokenKind};
use std::alloc::Global;

impl<'t> Parser<'t> {
    /// A `.` and an identifier.
    #[tactic(auto, unfolding(crate::specs::Reading::Names::dot_name_at))]
    fn dot_name(&mut self) -> Result<Option<Span>, SyntaxFault>
        ensures { Gives Skip (λ x. x) self.new result (dot_name_at self.old) }
    {
        self.token(TokenKind::Dot)?;
        Ok(Some(self.token(TokenKind::Identifier)?))
    }

    /// A name's components (proto3 specification, "Identifiers").
    #[tactic(auto, unfolding(crate::specs::Reading::Names::name_at))]
    pub fn name(&mut self, alloc: Global) -> Result<Sequence<Span>, SyntaxFault>
        ensures { Gives Skip (λ x. x) self.new result (name_at self.old) }
    {
        let first = self.token(TokenKind::Identifier)?;
        let mut components = Sequence::from_vec(Vec::with_capacity(alloc, 1)?);
        components.push(first)?;
        self.dot_names(components)
    }

    /// The components after the first ones.
    fn dot_names(&mut self, mut components: Sequence<Span>) -> Result<Sequence<Span>, SyntaxFault>
        ensures { Gives Skip (λ x. x) self.new result (dot_names_at components self.old) }
    {
        'names: while self.is_at(TokenKind::Dot) {
            let name = self.dot_name()?;
            keep(&mut components, name)?;
        }
        Ok(components)
    }

    /// A `.` and an identifier that aren't kept.
    #[tactic(auto, unfolding(crate::specs::Reading::Names::pass_dot_name_at))]
    fn pass_dot_name(&mut self) -> Result<(), SyntaxFault>
        ensures { Gives Skip (λ x. x) self.new result (pass_dot_name_at self.old) }
    {
        self.dot_name()?;
        Ok(())
    }

    /// A name that isn't kept.
    #[tactic(auto, unfolding(crate::specs::Reading::Names::pass_name_at))]
    pub(crate) fn pass_name(&mut self) -> Result<(), SyntaxFault>
        ensures { Gives Skip (λ x. x) self.new result (pass_name_at self.old) }
    {
        self.token(TokenKind::Identifier)?;
        self.pass_dot_names()
    }

    /// The components after the first one, which aren't kept.
    fn pass_dot_names(&mut self) -> Result<(), SyntaxFault>
        ensures { Gives Skip (λ x. x) self.new result (pass_dot_names_at self.old) }
    {
        'names: while self.is_at(TokenKind::Dot) {
            self.pass_dot_name()?;
        }
        Ok(())
    }

    /// The `.` before a name, if one is next.
    #[tactic(auto, unfolding(crate::specs::Reading::Names::leading_dot_at))]
    fn leading_dot(&mut self) -> Result<Option<Span>, SyntaxFault>
        ensures { Gives Skip (λ x. x) self.new result (leading_dot_at self.old) }
    {
        if self.is_at(TokenKind::Dot) {
            return Ok(Some(self.token(TokenKind::Dot)?));
        }
        Ok(None)
    }

    /// The name of a message or an enum, where it is used.
    #[tactic(auto, unfolding(crate::specs::Reading::Names::type_name_at))]
    pub(crate) fn type_name(&mut self, alloc: Global) -> Result<TypeName, SyntaxFault>
        ensures { Gives Skip (λ x. x) self.new result (type_name_at self.old) }
    {
        let leading_dot = self.leading_dot()?;
        let components = self.name(alloc)?;
        Ok(TypeName {
            leading_dot,
            components,
        })
    }

    /// A type's name that isn't kept.
    #[tactic(auto, unfolding(crate::specs::Reading::Names::pass_type_name_at))]
    pub fn pass_type_name(&mut self) -> Result<(), SyntaxFault>
        ensures { Gives Skip (λ x. x) self.new result (pass_type_name_at self.old) }
    {
        self.leading_dot()?;
        self.pass_name()
    }

    /// A type's name. The word of a scalar type may not be there.
    #[tactic(auto, unfolding(crate::specs::Reading::Names::named_type_at))]
    pub fn named_type(&mut self, alloc: Global) -> Result<TypeName, SyntaxFault>
        ensures { Gives Skip (λ x. x) self.new result (named_type_at self.old) }
    {
        if self.is_at_scalar() {
            return Err(SyntaxFault::Grammar(self.offset()));
        }
        self.type_name(alloc)
    }

    /// A field's type (proto3 specification, "Fields").
    #[tactic(auto, unfolding(crate::specs::Reading::Names::type_at))]
    pub(crate) fn field_type(&mut self, alloc: Global) -> Result<FieldType, SyntaxFault>
        ensures { Gives Skip (λ x. x) self.new result (type_at self.old) }
    {
        if self.is_at_scalar() {
            return Ok(FieldType::Scalar(self.scalar()?));
        }
        Ok(FieldType::Named(self.type_name(alloc)?))
    }

    /// A field's type that isn't kept.
    #[tactic(auto, unfolding(crate::specs::Reading::Names::pass_type_at))]
    pub(crate) fn pass_type(&mut self) -> Result<(), SyntaxFault>
        ensures { Gives Skip (λ x. x) self.new result (pass_type_at self.old) }
    {
        if self.is_at_scalar() {
            self.scalar()?;
            return Ok(());
        }
        self.pass_type_name()
    }
}
