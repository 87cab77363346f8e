//! What fields are of, and their types.

ghost use Rattle.std.specs.Prelude.{◌≡◌, ◌++◌, None, IfOk, OnOk};
ghost use Rattle.proto_parse.specs.Items.{body_of};
ghost use Rattle.proto_parse.specs.Parts.{of_leaf, of_body, of_block};
ghost use Rattle.proto_parse.specs.Parts.Part.{BlockPart};
ghost use Rattle.proto_options.specs.Fields.{type_start, extended_in, kind_of, value_of, fields_by, fields_in};
ghost use Rattle.proto_options.specs.Fields.{fields_in_item};

use basics::Sequence;
use proto_lex::Span;
use proto_parse::{Block, FieldType, File, FileItem, Head, Item, Leaf, TypeName};
use std::alloc::{AllocError, Global};

/// The type of a field.
#[derive(Clone, Copy, Debug, PartialEq, Eq)]
pub enum FieldKind {
    /// A scalar type.
    Scalar,
    /// The message or the enum that the use names whose first component starts here, in bytes.
    Named(u32),
    /// The message of the field's group, which is the next declaration.
    Group,
    /// A map, with where the first component of the use starts that names the values' type. None: it is a scalar type.
    Map(Option<u32>),
}

/// A field: what it is of, and its type.
#[derive(Clone, Copy, Debug, PartialEq, Eq)]
pub struct FieldFact {
    /// Where the declaration's name is.
    pub name: Span,
    /// Where the first component of the use starts that names what the field extends, in bytes. None: it is a field of
    /// the message around it.
    pub extended: Option<u32>,
    /// Its type.
    pub kind: FieldKind,
}

/// Where the first component of a type's name starts.
fn type_start(name: &TypeName) -> u32
    ensures { result ≡ type_start name.now }
{
    match name.components.as_slice() {
        [] => 0,
        [first, ..] => first.start,
    }
}

/// The type of a field that isn't a map's nor a group's.
fn kind_of(field_type: &FieldType) -> FieldKind
    ensures { result ≡ kind_of field_type.now }
{
    match field_type {
        FieldType::Scalar(_) => FieldKind::Scalar,
        FieldType::Named(name) => FieldKind::Named(type_start(name)),
    }
}

/// Where the type of a map's values is used, unless it is a scalar one.
fn value_of(field_type: &FieldType) -> Option<u32>
    ensures { result ≡ value_of field_type.now }
{
    match field_type {
        FieldType::Scalar(_) => None,
        FieldType::Named(name) => Some(type_start(name)),
    }
}

/// Adds the field that stands in a block, if it is none of a group.
fn add_leaf(
    fields: &mut Vec<FieldFact>,
    extended: Option<u32>,
    leaf: &Leaf,
) -> Result<(), AllocError>
    ensures { OnOk result (fields.new.items ≡ fields.old.items ++ of_leaf extended_in fields_by extended leaf.now) }
{
    match leaf {
        Leaf::Enum(_) => Ok(()),
        Leaf::Field(field) => {
            fields.push(FieldFact {
                name: field.heading.name,
                extended,
                kind: kind_of(&field.field_type),
            })?;
            Ok(())
        }
        Leaf::MapField(field) => {
            fields.push(FieldFact {
                name: field.heading.name,
                extended,
                kind: FieldKind::Map(value_of(&field.value)),
            })?;
            Ok(())
        }
    }
}

/// What the fields in a block extend, where it is among fields that extend this.
fn extended_in(extended: Option<u32>, head: &Head) -> Option<u32>
    ensures { result ≡ extended_in extended (BlockPart head.now) }
{
    match head {
        Head::Message(_) | Head::Group(_) => None,
        Head::Oneof(_) => extended,
        Head::Extend(name) => Some(type_start(name)),
    }
}

/// Adds the field of a group.
fn add_head(
    fields: &mut Vec<FieldFact>,
    extended: Option<u32>,
    head: &Head,
) -> Result<(), AllocError>
    ensures { OnOk result (fields.new.items ≡ fields.old.items ++ fields_by extended (BlockPart head.now)) }
{
    match head {
        Head::Group(group) => {
            fields.push(FieldFact {
                name: group.word,
                extended,
                kind: FieldKind::Group,
            })?;
            Ok(())
        }
        Head::Message(_) | Head::Oneof(_) | Head::Extend(_) => Ok(()),
    }
}

/// Adds the fields of a block.
#[cycle(fields)]
fn add_block(
    fields: &mut Vec<FieldFact>,
    extended: Option<u32>,
    block: &Block,
) -> Result<(), AllocError>
    ensures { OnOk result (fields.new.items
        ≡ fields.old.items ++ of_block extended_in fields_by extended block.now) }
{
    add_head(fields, extended, &block.head)?;
    let inner = extended_in(extended, &block.head);
    add_items(fields, inner, &block.items)
}

/// Adds the fields of what is in a block.
#[cycle(fields)]
fn add_items(
    fields: &mut Vec<FieldFact>,
    extended: Option<u32>,
    items: &[Item],
) -> Result<(), AllocError>
    ensures { OnOk result (fields.new.items
        ≡ fields.old.items ++ of_body extended_in fields_by extended (body_of items.now)) }
{
    for item in items {
        match item {
            Item::Block(block) => {
                add_block(fields, extended, block)?;
            }
            Item::Leaf(leaf) => {
                add_leaf(fields, extended, leaf)?;
            }
        }
    }
    Ok(())
}

/// Adds the fields of an item of a file.
fn add_item(fields: &mut Vec<FieldFact>, item: &FileItem) -> Result<(), AllocError>
    ensures { OnOk result (fields.new.items ≡ fields.old.items ++ fields_in_item item.now) }
{
    match item {
        FileItem::Block(block) => add_block(fields, None, block),
        FileItem::Enum(_) => Ok(()),
        FileItem::Service(_) => Ok(()),
    }
}

/// The fields that a file declares, in order of place.
pub fn fields_of(alloc: Global, file: &File) -> Result<Sequence<FieldFact>, AllocError>
    ensures { IfOk result (λ fields. fields ≡ fields_in file.now) }
{
    let mut fields = Vec::new(alloc);
    for item in file.items.as_slice() {
        add_item(&mut fields, item)?;
    }
    Ok(Sequence::from_vec(fields))
}
