//! What a callback sees of a declaration.

ghost use Rattle.std.specs.Prelude.{◌≡◌};
ghost use Rattle.proto_decl.specs.Declares.{simple_name};

use crate::declaration::{Declaration, DeclarationKind};
use basics::OwnedText;
use std::marker::Model;

/// What is said of a declaration: its kind, its names and its comment texts, all borrowed.
///
/// Contracts see the kind and the bytes of the texts.
#[derive(Drop)]
pub struct DeclView<'a> {
    kind: DeclarationKind,
    name: &'a str,
    full_name: &'a str,
    leading: &'a str,
    trailing: &'a str,
}

impl<'a> Model for DeclView<'a> {
    ghost use Rattle.proto_decl.specs.Values.{Seen};

    ghost Value = { Seen };

    ghost view = { λ v. record {
      kind = v.kind;
      name = v.name.now;
      full_name = v.full_name.now;
      leading = v.leading.now;
      trailing = v.trailing.now;
    } };
}

impl<'a> DeclView<'a> {
    /// The view of a declaration of this kind, with this simple name, this full name, and these texts before and
    /// after it.
    pub fn new(
        kind: DeclarationKind,
        name: &'a str,
        full_name: &'a str,
        leading: &'a str,
        trailing: &'a str,
    ) -> DeclView<'a>
        ensures { result ≡ record {
          kind = kind;
          name = name.now;
          full_name = full_name.now;
          leading = leading.now;
          trailing = trailing.now;
        } }
    {
        DeclView {
            kind,
            name,
            full_name,
            leading,
            trailing,
        }
    }

    /// What is declared.
    pub fn kind(&self) -> DeclarationKind
        ensures { result ≡ self.now.kind }
    {
        self.kind
    }

    /// The simple name: the last component of the full name.
    pub fn name(&self) -> &'a str
        ensures { result.now ≡ self.now.name }
    {
        self.name
    }

    /// The full name: that of the scope, a dot and the simple name, the package's components first.
    pub fn full_name(&self) -> &'a str
        ensures { result.now ≡ self.now.full_name }
    {
        self.full_name
    }

    /// The text of the comments that are directly before the declaration; empty if none do.
    pub fn leading(&self) -> &'a str
        ensures { result.now ≡ self.now.leading }
    {
        self.leading
    }

    /// The text of the comment that follows the declaration on its line; empty if none does.
    pub fn trailing(&self) -> &'a str
        ensures { result.now ≡ self.now.trailing }
    {
        self.trailing
    }
}

/// A declaration with the text of its full name, which it hasn't by itself.
///
/// Contracts see the declaration.
#[derive(Drop)]
pub struct NamedDeclaration<'a, 't> {
    declaration: &'a Declaration<'t>,
    full_name: OwnedText,
}

impl<'a, 't> Model for NamedDeclaration<'a, 't> {
    ghost use Rattle.proto_decl.specs.Values.{Declaration};

    ghost Value = { Declaration };

    ghost view = { λ named. record {
      kind = named.declaration.now.kind;
      full_name = named.full_name;
      path = named.declaration.now.path;
      name = named.declaration.now.name;
      leading = named.declaration.now.leading;
      trailing = named.declaration.now.trailing;
    } };
}

impl<'a, 't> NamedDeclaration<'a, 't> {
    /// The declaration, of which this is the full name.
    pub(crate) fn new(
        declaration: &'a Declaration<'t>,
        full_name: OwnedText,
    ) -> NamedDeclaration<'a, 't>
        requires { full_name ≡ declaration.now.full_name }
        ensures { result ≡ declaration.now }
    {
        NamedDeclaration {
            declaration,
            full_name,
        }
    }

    /// What a callback sees of it. Takes no memory.
    pub fn view(&self) -> DeclView<'_>
        ensures { result ≡ record {
          kind = self.now.kind;
          name = simple_name self.now.path;
          full_name = self.now.full_name;
          leading = self.now.leading;
          trailing = self.now.trailing;
        } }
    {
        let declaration = self.declaration;
        DeclView::new(
            declaration.kind(),
            declaration.simple_name(),
            self.full_name.as_str(),
            declaration.leading(),
            declaration.trailing(),
        )
    }
}
