//! What names are looked up as.

ghost use Rattle.std.specs.Prelude.{◌≡◌};
ghost use Rattle.proto_decl.specs.declared.declaration.DeclarationKind.TheVariants.{Message, Enum, Service, Field};
ghost use Rattle.proto_decl.specs.declared.declaration.DeclarationKind.TheVariants.{Oneof, Value, Method};
ghost use Rattle.proto_visibility.specs.Knows.NameKind.{OfDeclaration};
ghost use Rattle.option_link.specs.Lookups.{admits};

use proto_decl::DeclarationKind;

/// What a name is looked up as.
#[derive(Clone, Copy, Debug, PartialEq, Eq)]
pub(crate) enum Sought {
    /// As whatever has a name.
    Anything,
    /// As a field.
    AField,
    /// As a message.
    AMessage,
    /// As a message or an enum.
    AType,
    /// As a package, a message, an enum or a service.
    AnAggregate,
}

impl Sought {
    /// Whether a declaration of this kind is one.
    pub(crate) fn admits(self, kind: DeclarationKind) -> bool
        ensures { result ≡ admits self (OfDeclaration kind) }
    {
        match kind {
            DeclarationKind::Message => self.admits_messages(),
            DeclarationKind::Enum => self.admits_enums(),
            DeclarationKind::Service => self.admits_services(),
            DeclarationKind::Field => self.admits_fields(),
            DeclarationKind::Oneof => self.admits_others(),
            DeclarationKind::Value => self.admits_others(),
            DeclarationKind::Method => self.admits_others(),
        }
    }

    /// Whether messages are.
    fn admits_messages(self) -> bool
        ensures { result ≡ admits self (OfDeclaration Message) }
    {
        match self {
            Sought::AField => false,
            Sought::Anything | Sought::AMessage | Sought::AType | Sought::AnAggregate => true,
        }
    }

    /// Whether enums are.
    fn admits_enums(self) -> bool
        ensures { result ≡ admits self (OfDeclaration Enum) }
    {
        match self {
            Sought::AField | Sought::AMessage => false,
            Sought::Anything | Sought::AType | Sought::AnAggregate => true,
        }
    }

    /// Whether services are.
    fn admits_services(self) -> bool
        ensures { result ≡ admits self (OfDeclaration Service) }
    {
        match self {
            Sought::AField | Sought::AMessage | Sought::AType => false,
            Sought::Anything | Sought::AnAggregate => true,
        }
    }

    /// Whether fields are.
    fn admits_fields(self) -> bool
        ensures { result ≡ admits self (OfDeclaration Field) }
    {
        match self {
            Sought::AMessage | Sought::AType | Sought::AnAggregate => false,
            Sought::Anything | Sought::AField => true,
        }
    }

    /// Whether oneofs, values of enums and methods are.
    fn admits_others(self) -> bool
        ensures oneofs { result ≡ admits self (OfDeclaration Oneof) }
        ensures values { result ≡ admits self (OfDeclaration Value) }
        ensures methods { result ≡ admits self (OfDeclaration Method) }
    {
        match self {
            Sought::AField | Sought::AMessage | Sought::AType | Sought::AnAggregate => false,
            Sought::Anything => true,
        }
    }
}
