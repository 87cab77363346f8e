//! What is known of a file.

ghost use Rattle.std.specs.Prelude.{◌≡◌, None, Some, MatchOption};
ghost use Rattle.proto_decl.specs.Facts.{AreOfSomeFile};

use crate::declaration::Declaration;
use crate::detail::Detail;
use crate::imports::Imported;
use crate::uses::{Component, Use};
use basics::Sequence;
use std::marker::Model;

/// What a file declares, uses and imports, which is all that is linked, named and written of it. Its names
/// are parts of the file's text. If it is asked for, how its declarations read, and where they are.
///
/// Contracts see its number and the lists of the rest, and that these are the facts of some file:
/// what is law of a file's facts (`facts_in_order`, `facts_are_filled`) holds of every value.
#[derive(Debug, Drop)]
pub struct FileFacts<'t> {
    number: usize,
    package_name: Sequence<Component<'t>>,
    imports: Sequence<Imported<'t>>,
    declarations: Sequence<Declaration<'t>>,
    uses: Sequence<Use<'t>>,
    details: Option<Sequence<Detail>>,
}

impl<'t> Model for FileFacts<'t> {
    ghost use Rattle.proto_decl.specs.Facts.{Facts, AreOfSomeFile};

    ghost Value = { Facts };

    ghost view = { λ inside. record {
      number = inside.number;
      package_name = inside.package_name;
      imports = inside.imports;
      declarations = inside.declarations;
      uses = inside.uses;
      details = inside.details;
    } };

    ghost invariant = { λ inside. AreOfSomeFile
        (record {
          number = inside.number;
          package_name = inside.package_name;
          imports = inside.imports;
          declarations = inside.declarations;
          uses = inside.uses;
          details = inside.details;
        }) };
}

impl<'t> FileFacts<'t> {
    /// The facts of some file, of these parts. Takes no memory.
    pub(crate) fn new(
        number: usize,
        package_name: Sequence<Component<'t>>,
        imports: Sequence<Imported<'t>>,
        declarations: Sequence<Declaration<'t>>,
        uses: Sequence<Use<'t>>,
        details: Option<Sequence<Detail>>,
    ) -> FileFacts<'t>
        requires { AreOfSomeFile (record {
          number = number;
          package_name = package_name;
          imports = imports;
          declarations = declarations;
          uses = uses;
          details = details;
        }) }
        ensures { result ≡ record {
          number = number;
          package_name = package_name.entry;
          imports = imports.entry;
          declarations = declarations.entry;
          uses = uses.entry;
          details = details;
        } }
    {
        FileFacts {
            number,
            package_name,
            imports,
            declarations,
            uses,
            details,
        }
    }

    /// That these are the facts of some file. It does nothing: proofs call it.
    pub fn origin(&self)
        ensures { AreOfSomeFile self.now }
    {
        let _number = self.number;
    }

    /// The file's number.
    pub fn number(&self) -> usize
        ensures { result ≡ self.now.number }
    {
        self.number
    }

    /// The components of the package's name, in order; none where the file has no package.
    pub fn package_name(&self) -> &[Component<'t>]
        ensures { result.now ≡ self.now.package_name }
    {
        self.package_name.as_slice()
    }

    /// The imports, in order of place.
    pub fn imports(&self) -> &[Imported<'t>]
        ensures { result.now ≡ self.now.imports }
    {
        self.imports.as_slice()
    }

    /// The declarations, in order of their names' places.
    pub fn declarations(&self) -> &[Declaration<'t>]
        ensures { result.now ≡ self.now.declarations }
    {
        self.declarations.as_slice()
    }

    /// How the declarations read, and where they are: one for each, in their order. There are none if they weren't
    /// asked for.
    pub fn details(&self) -> Option<&[Detail]>
        ensures { MatchOption result (self.now.details ≡ None) (λ details. self.now.details ≡ Some details.now) }
    {
        match &self.details {
            Some(details) => Some(details.as_slice()),
            None => None,
        }
    }

    /// The uses of types, in order of place.
    pub fn uses(&self) -> &[Use<'t>]
        ensures { result.now ≡ self.now.uses }
    {
        self.uses.as_slice()
    }
}
