//! Declarations: what is declared, and on which path.

ghost use Rattle.std.specs.Prelude.{◌≡◌, ◌++◌, ◌∷◌, [], IfOk};
ghost use Rattle.proto_decl.specs.Names.{qualified};
ghost use Rattle.proto_decl.specs.Declares.{simple_name};

use crate::full_name::FullName;
use crate::surrounding::Surrounding;
use crate::view::NamedDeclaration;
use basics::KeptText;
use proto_lex::Span;
use proto_parse::Heading;
use std::alloc::{AllocError, Global};
use std::marker::Model;

/// What is declared (proto3 specification, "Top Level definitions" and "Message definition"; proto2
/// specification, "Group field" and "Extend").
#[derive(Clone, Copy, Debug, PartialEq, Eq)]
pub enum DeclarationKind {
    /// A message, also that of a group.
    Message,
    /// An enum.
    Enum,
    /// A service.
    Service,
    /// A field of a message, of a oneof, of an `extend` or of the type `map`, or that of a group.
    Field,
    /// A oneof of a message.
    Oneof,
    /// A value of an enum.
    Value,
    /// A method of a service.
    Method,
}

/// The path from the package to a declaration, outermost first. Something else owns the steps.
///
/// Contracts see the list of the steps, of which the last is the declaration itself.
#[derive(Debug, Drop)]
pub struct DeclarationPath<'a, 't> {
    outer: &'a [DeclarationStep<'t>],
    last: &'a DeclarationStep<'t>,
}

impl<'a, 't> Model for DeclarationPath<'a, 't> {
    ghost use Rattle.std.specs.Prelude.{List, ◌++◌, ◌∷◌, []};
    ghost use Rattle.proto_decl.specs.declared.declaration.DeclarationStep.{DeclarationStep};

    ghost Value = { List DeclarationStep };

    ghost view = { λ path. path.outer.now ++ path.last.now ∷ [] };
}

impl<'a, 't> DeclarationPath<'a, 't> {
    /// These steps, and then this one. Takes no memory.
    pub fn new(
        outer: &'a [DeclarationStep<'t>],
        last: &'a DeclarationStep<'t>,
    ) -> DeclarationPath<'a, 't>
        ensures { result ≡ outer.now ++ last.now ∷ [] }
    {
        DeclarationPath { outer, last }
    }

    /// The steps to what the declaration stands in, outermost first, and the one to the declaration.
    pub fn parts(&self) -> (&'a [DeclarationStep<'t>], &'a DeclarationStep<'t>)
        ensures { self.now ≡ result.0.now ++ result.1.now ∷ [] }
    {
        (self.outer, self.last)
    }
}

/// A step of the path to a declaration: a declaration's kind and its simple name.
#[derive(Debug, Drop)]
pub struct DeclarationStep<'t> {
    /// What is declared there.
    pub kind: DeclarationKind,
    /// Its simple name.
    pub name: KeptText<'t>,
}

/// A declaration of a file.
///
/// Contracts see its kind, its full name, its path, the place of its simple name, and its comments' texts. The full
/// name has no text of its own: its parts are the scope's full name and the simple name. The scope's full name, and the
/// path without its last step, are shared with all that is directly in the same file, message, service or enum.
#[derive(Debug, Drop)]
pub struct Declaration<'t> {
    surrounding: Surrounding<'t>,
    last: DeclarationStep<'t>,
    name: Span,
    leading: KeptText<'t>,
    trailing: KeptText<'t>,
}

impl<'t> Model for Declaration<'t> {
    ghost use Rattle.proto_decl.specs.Values.{Declaration};

    ghost Value = { Declaration };

    ghost use Rattle.std.specs.Prelude.{◌++◌, ◌∷◌, []};
    ghost use Rattle.proto_decl.specs.Names.{qualified};

    ghost view = { λ declaration. record {
      kind = declaration.last.kind;
      full_name = qualified declaration.surrounding.scope declaration.last.name;
      path = declaration.surrounding.path ++ declaration.last ∷ [];
      name = declaration.name;
      leading = declaration.leading;
      trailing = declaration.trailing;
    } };
}

impl<'t> Declaration<'t> {
    /// The declaration with this outline and these texts.
    pub(crate) fn new(
        outline: Outline<'t>,
        leading: KeptText<'t>,
        trailing: KeptText<'t>,
    ) -> Declaration<'t>
        ensures { result ≡ record {
          kind = outline.entry.kind;
          full_name = outline.entry.full_name;
          path = outline.entry.path;
          name = outline.entry.heading.name;
          leading = leading.entry;
          trailing = trailing.entry;
        } }
    {
        Declaration {
            surrounding: outline.surrounding,
            last: outline.last,
            name: outline.heading.name,
            leading,
            trailing,
        }
    }

    /// What is declared.
    pub fn kind(&self) -> DeclarationKind
        ensures { result ≡ self.now.kind }
    {
        self.last.kind
    }

    /// The path from the package to the declaration, outermost first: the messages or the service
    /// around it, for a value its enum, and last the declaration itself. A oneof stands in no path
    /// but its own, and an `extend` in none.
    pub fn path(&self) -> DeclarationPath<'_, 't>
        ensures { result ≡ self.now.path }
    {
        DeclarationPath::new(self.surrounding.path(), &self.last)
    }

    /// The simple name. That of a group's field is the group's name in small letters.
    pub fn simple_name(&self) -> &str
        ensures { result.now ≡ simple_name self.now.path }
    {
        self.last.name.as_str()
    }

    /// Where its simple name stands. The name of a group's field stands nowhere: its place is the word `group`.
    pub fn name(&self) -> Span
        ensures { result ≡ self.now.name }
    {
        self.name
    }

    /// The texts of the comments that stand directly before it, joined by `\n`.
    pub fn leading(&self) -> &str
        ensures { result.now ≡ self.now.leading }
    {
        self.leading.as_str()
    }

    /// The text of the comment that follows it on its line.
    pub fn trailing(&self) -> &str
        ensures { result.now ≡ self.now.trailing }
    {
        self.trailing.as_str()
    }

    /// Its full name: its scope's, a dot and its simple name. An enum's value has its enum's scope, a oneof's field
    /// that of the message around the oneof, and an extension the scope around the `extend`. Takes no memory.
    pub fn full_name(&self) -> FullName<'_>
        ensures { result ≡ self.now.full_name }
    {
        FullName::within(&self.surrounding, self.last.name.as_str())
    }

    /// The declaration with the text of its full name.
    pub fn named(&self, alloc: Global) -> Result<NamedDeclaration<'_, 't>, AllocError>
        ensures { IfOk result (λ named. named ≡ self.now) }
    {
        let full_name = self.full_name().to_text(alloc)?;
        Ok(NamedDeclaration::new(self, full_name))
    }
}

/// A declaration before its comments are looked for.
///
/// Contracts see its kind, its full name, its path, and where it stands. Its simple name, the last on the path, needn't
/// be spelled at its name's place.
#[derive(Debug, Drop)]
pub(crate) struct Outline<'t> {
    surrounding: Surrounding<'t>,
    last: DeclarationStep<'t>,
    heading: Heading,
}

impl<'t> Model for Outline<'t> {
    ghost use Rattle.proto_decl.specs.Values.{Outline};

    ghost Value = { Outline };

    ghost use Rattle.std.specs.Prelude.{◌++◌, ◌∷◌, []};
    ghost use Rattle.proto_decl.specs.Names.{qualified};

    ghost view = { λ outline. record {
      kind = outline.last.kind;
      full_name = qualified outline.surrounding.scope outline.last.name;
      path = outline.surrounding.path ++ outline.last ∷ [];
      heading = outline.heading;
    } };
}

impl<'t> Outline<'t> {
    /// The outline of what the last step leads to in this surrounding, at this heading.
    pub(crate) fn new(
        surrounding: Surrounding<'t>,
        last: DeclarationStep<'t>,
        heading: Heading,
    ) -> Outline<'t>
        ensures { result ≡ record {
          kind = last.entry.kind;
          full_name = qualified surrounding.entry.scope last.entry.name;
          path = surrounding.entry.path ++ last.entry ∷ [];
          heading = heading;
        } }
    {
        Outline {
            surrounding,
            last,
            heading,
        }
    }

    /// Where it stands.
    pub(crate) fn heading(&self) -> Heading
        ensures { result ≡ self.now.heading }
    {
        self.heading
    }
}
