//! The syntax tree of a source. Names, types and literals are spans of its text.
//!
//! Options, reserved statements, `extensions`, numbers and lone `;` are checked, and aren't in the tree.

use basics::Sequence;
use proto_lex::Span;
use std::marker::Model;

/// The tree of a file (proto3 specification, "Proto file").
#[derive(Debug, Drop)]
pub struct File {
    /// The components of the package's name, if there is a package statement.
    pub package_name: Option<Sequence<Span>>,
    /// The imports, in order.
    pub imports: Sequence<Import>,
    /// The messages, enums, services and extends, in order.
    pub items: Sequence<FileItem>,
}

/// An import (proto3 specification, "Import statement").
#[derive(Debug, Drop)]
pub struct Import {
    /// What comes after the word `import`.
    pub kind: ImportKind,
    /// The literals that spell the path when joined, each with its quotes. None of them holds a
    /// `\`.
    pub literals: Sequence<Span>,
}

/// The kind of an import.
#[derive(Clone, Copy, Debug, PartialEq, Eq)]
pub enum ImportKind {
    /// With neither `weak` nor `public`.
    Plain,
    /// With `weak`.
    Weak,
    /// With `public`: whoever imports the file sees what this import brings.
    Public,
}

/// What is in a file.
#[derive(Debug, Drop)]
pub enum FileItem {
    /// A message or an extend.
    Block(Block),
    /// An enum.
    Enum(Enum),
    /// A service.
    Service(Service),
}

/// Where the first token, the name and the closing token of a declaration are.
///
/// The first token is the declaring word of a message, an enum, a oneof, a service and a method, the label, the
/// type's first token or `map` of a field, the label or the word `group` of a group, and the name of an enum's value.
/// The closing token is the `{` of a message, a group, an enum, a oneof and a service, the `;` of a field and of an
/// enum's value, and the `;` or `{` after a method's result type.
#[derive(Clone, Copy, Debug, PartialEq, Eq)]
pub struct Heading {
    /// The first token. Of an enum's value it is the name.
    pub first: Span,
    /// The identifier that is declared.
    pub name: Span,
    /// The token up to which comments are the declaration's.
    pub closing: Span,
}

/// What has braces, and may have messages in it.
#[derive(Debug, Drop)]
#[cycle(tree)]
pub struct Block {
    /// What it is, with what is before its `{`.
    pub head: Head,
    /// What is between the braces, in order.
    pub items: Vec<Item>,
}

/// What a block is.
#[derive(Debug, Drop)]
pub enum Head {
    /// A message, from the word `message` to the `{` (proto3 specification, "Message definition").
    Message(Heading),
    /// A group.
    Group(Group),
    /// A oneof, from the word `oneof` to the `{` (proto3 specification, "Oneof and oneof field").
    Oneof(Heading),
    /// An extend, with the type that it extends (proto2 specification, "Extend").
    Extend(TypeName),
}

/// A group: a field and a message of one name (proto2 specification, "Group field").
#[derive(Clone, Copy, Debug, PartialEq, Eq)]
pub struct Group {
    /// From the label, or the word `group` if there is none, to the `{`. The name is that of the message.
    pub heading: Heading,
    /// The label. There is none in a oneof.
    pub label: Option<Label>,
    /// The word `group`.
    pub word: Span,
}

/// What is in a block: a block, or something without blocks in it.
#[derive(Debug, Drop)]
#[cycle(tree)]
pub enum Item {
    /// A message, a group, a oneof or an extend.
    Block(Block),
    /// Something in which there is no block.
    Leaf(Leaf),
}

/// What is in a block, other than a block.
#[derive(Debug, Drop)]
pub enum Leaf {
    /// An enum.
    Enum(Enum),
    /// A field.
    Field(Field),
    /// A map field.
    MapField(MapField),
}

/// An enum (proto3 specification, "Enum definition").
#[derive(Debug, Drop)]
pub struct Enum {
    /// From the word `enum` to the `{`.
    pub heading: Heading,
    /// The values, in order.
    pub values: Sequence<Heading>,
}

/// A field (proto3 specification, "Normal field").
#[derive(Debug, Drop)]
pub struct Field {
    /// From the label, or the type's first token, to the `;`.
    pub heading: Heading,
    /// The label, if there is one. There is none in a oneof.
    pub label: Option<Label>,
    /// The type, after the label.
    pub field_type: FieldType,
}

/// A label.
#[derive(Clone, Copy, Debug, PartialEq, Eq)]
pub enum Label {
    /// `repeated`.
    Repeated,
    /// `optional`.
    Optional,
    /// `required`, in proto2 only.
    Required,
}

/// A map field (proto3 specification, "Map field").
#[derive(Debug, Drop)]
pub struct MapField {
    /// From the word `map` to the `;`.
    pub heading: Heading,
    /// The word of the key's scalar type.
    pub key: Span,
    /// The value's type.
    pub value: FieldType,
}

/// The type of a field.
#[derive(Debug, Drop)]
pub enum FieldType {
    /// The word of a scalar type.
    Scalar(Span),
    /// The name of a message or an enum.
    Named(TypeName),
}

/// The name of a message or an enum, where it is used (proto3 specification, "Identifiers").
#[derive(Debug, Drop)]
pub struct TypeName {
    /// The dot before the first component, if there is one.
    pub leading_dot: Option<Span>,
    /// The components, at least one.
    pub components: Sequence<Span>,
}

/// A service (proto3 specification, "Service definition").
#[derive(Debug, Drop)]
pub struct Service {
    /// From the word `service` to the `{`.
    pub heading: Heading,
    /// The methods, in order.
    pub methods: Sequence<Method>,
}

/// A method (proto3 specification, "Service definition").
#[derive(Debug, Drop)]
pub struct Method {
    /// From the word `rpc` to the `;` or `{` after the result's type.
    pub heading: Heading,
    /// The type of what the method takes.
    pub input: TypeName,
    /// The type of what the method gives.
    pub output: TypeName,
}

impl Model for Block {
    ghost use Rattle.proto_grammar.specs.Tree.{BlockTree, block_size};
    ghost use Rattle.proto_grammar.specs.Tables.Code.{block_code};
    ghost use Rattle.std.proofs.Common.{arith};

    ghost Value = { BlockTree };

    ghost coded = { block_code };

    ghost use Rattle.proto_grammar.specs.Items.{body_of};

    ghost view = { λ b. record { head = b.head; body = body_of b.items.items } };

    ghost size = { block_size };

    ghost use Rattle.proto_grammar.specs.Tables.Falls.{most_le-body_size};

    ghost size_decreases = { λ b h. omega (arith, most_le-body_size b.items.items) };
}
