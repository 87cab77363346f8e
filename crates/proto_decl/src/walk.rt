//! The walk over a tree, which finds what a file declares and which types it uses.

ghost use Rattle.std.specs.Prelude.{◌≡◌, ◌++◌, All, IfOk, OnOk};
ghost use Rattle.proto_lex.specs.Lexed.{IsPart};
ghost use Rattle.proto_parse.specs.Items.{body_of};
ghost use Rattle.proto_decl.specs.Spans.{OfHead, OfParts};
ghost use Rattle.proto_decl.specs.Declares.{in_head};
ghost use Rattle.proto_decl.specs.Walked.{in_leaf, in_block, in_body, in_service, in_item, uses_of_head};
ghost use Rattle.proto_decl.specs.Walked.{uses_in_leaf, uses_in_block, uses_in_body, uses_in_service, uses_in_item};
ghost use Rattle.proto_decl.specs.Walked.{parts_in_leaf, parts_in_block, parts_in_service, parts_in_item};
ghost use Rattle.proto_decl.specs.Walked.{parts_of_inner};

use crate::declaration::{DeclarationKind, Outline};
use crate::outlines::{outline_at, outline_enum, outline_head, outline_leaf, outline_methods};
use crate::surrounding::{Surrounding, inside, scope_heading};
use crate::uses::{Use, use_head, use_leaf, use_methods};
use proto_parse::{Block, FileItem, Head, Item, Leaf, Service};
use std::alloc::{AllocError, Global};

/// What a walk has found, in order of place.
#[derive(Debug, Drop)]
pub(crate) struct Found<'t> {
    pub(crate) outlines: Vec<Outline<'t>>,
    pub(crate) uses: Vec<Use<'t>>,
}

/// Adds what stands in a block, other than a block.
fn walk_leaf<'t>(
    alloc: Global,
    text: &'t str,
    surrounding: &Surrounding<'t>,
    leaf: &Leaf,
    found: &mut Found<'t>,
) -> Result<(), AllocError>
    requires { OfParts (IsPart text.now) (parts_in_leaf leaf.now) }
    ensures outlines { OnOk result (found.new.outlines.items
        ≡ found.old.outlines.items ++ in_leaf text.now surrounding.now leaf.now) }
    ensures uses { OnOk result (found.new.uses.items
        ≡ found.old.uses.items ++ uses_in_leaf text.now surrounding.now leaf.now) }
{
    outline_leaf(alloc, text, surrounding, leaf, &mut found.outlines)?;
    use_leaf(alloc, text, surrounding, leaf, &mut found.uses)
}

/// Adds what a block declares and uses, without what stands in it.
fn walk_head<'t>(
    alloc: Global,
    text: &'t str,
    surrounding: &Surrounding<'t>,
    head: &Head,
    found: &mut Found<'t>,
) -> Result<(), AllocError>
    requires { OfHead (IsPart text.now) head.now }
    ensures outlines { OnOk result (found.new.outlines.items
        ≡ found.old.outlines.items ++ in_head text.now surrounding.now head.now) }
    ensures uses { OnOk result (found.new.uses.items
        ≡ found.old.uses.items ++ uses_of_head text.now surrounding.now head.now) }
{
    outline_head(alloc, text, surrounding, head, &mut found.outlines)?;
    use_head(alloc, text, surrounding, head, &mut found.uses)
}

/// Adds a block and what stands in it.
#[cycle(walk)]
fn walk_block<'t>(
    alloc: Global,
    text: &'t str,
    surrounding: &Surrounding<'t>,
    block: &Block,
    found: &mut Found<'t>,
) -> Result<(), AllocError>
    requires { OfParts (IsPart text.now) (parts_in_block block.now) }
    ensures outlines { OnOk result (found.new.outlines.items
        ≡ found.old.outlines.items ++ in_block text.now surrounding.now block.now) }
    ensures uses { OnOk result (found.new.uses.items
        ≡ found.old.uses.items ++ uses_in_block text.now surrounding.now block.now) }
{
    walk_head(alloc, text, surrounding, &block.head, found)?;
    match scope_heading(&block.head) {
        Some(heading) => {
            let inner = inside(alloc, text, surrounding, DeclarationKind::Message, heading)?;
            walk_items(alloc, text, &inner, &block.items, found)
        }
        None => walk_items(alloc, text, surrounding, &block.items, found),
    }
}

/// Adds what stands in a block.
#[cycle(walk)]
fn walk_items<'t>(
    alloc: Global,
    text: &'t str,
    surrounding: &Surrounding<'t>,
    items: &[Item],
    found: &mut Found<'t>,
) -> Result<(), AllocError>
    requires { All (λ item. OfParts (IsPart text.now) (parts_of_inner item)) items.now }
    ensures outlines { OnOk result (found.new.outlines.items
        ≡ found.old.outlines.items ++ in_body text.now surrounding.now (body_of items.now)) }
    ensures uses { OnOk result (found.new.uses.items
        ≡ found.old.uses.items ++ uses_in_body text.now surrounding.now (body_of items.now)) }
{
    for item in items {
        match item {
            Item::Block(block) => {
                walk_block(alloc, text, surrounding, block, found)?;
            }
            Item::Leaf(leaf) => {
                walk_leaf(alloc, text, surrounding, leaf, found)?;
            }
        }
    }
    Ok(())
}

/// Adds a service and its methods.
fn walk_service<'t>(
    alloc: Global,
    text: &'t str,
    surrounding: &Surrounding<'t>,
    service: &Service,
    found: &mut Found<'t>,
) -> Result<(), AllocError>
    requires { OfParts (IsPart text.now) (parts_in_service service.now) }
    ensures outlines { OnOk result (found.new.outlines.items
        ≡ found.old.outlines.items ++ in_service text.now surrounding.now service.now) }
    ensures uses { OnOk result (found.new.uses.items
        ≡ found.old.uses.items ++ uses_in_service text.now surrounding.now service.now) }
{
    let kind = DeclarationKind::Service;
    let outline = outline_at(text, surrounding, kind, service.heading)?;
    found.outlines.push(outline)?;
    let inner = inside(alloc, text, surrounding, kind, service.heading)?;
    let methods = service.methods.as_slice();
    outline_methods(text, &inner, methods, &mut found.outlines)?;
    use_methods(alloc, text, &inner, methods, &mut found.uses)
}

/// Adds what stands in a file.
#[tactic(auto, using(crate::proofs::WalkedLemmas::enum_uses_none))]
fn walk_item<'t>(
    alloc: Global,
    text: &'t str,
    surrounding: &Surrounding<'t>,
    item: &FileItem,
    found: &mut Found<'t>,
) -> Result<(), AllocError>
    requires { OfParts (IsPart text.now) (parts_in_item item.now) }
    ensures outlines { OnOk result (found.new.outlines.items
        ≡ found.old.outlines.items ++ in_item text.now surrounding.now item.now) }
    ensures uses { OnOk result (found.new.uses.items
        ≡ found.old.uses.items ++ uses_in_item text.now surrounding.now item.now) }
{
    match item {
        FileItem::Block(block) => walk_block(alloc, text, surrounding, block, found),
        FileItem::Enum(declared) => {
            outline_enum(alloc, text, surrounding, declared, &mut found.outlines)
        }
        FileItem::Service(service) => walk_service(alloc, text, surrounding, service, found),
    }
}

/// What an item of a file declares, and which types it uses, behind uses that were found before.
pub(crate) fn walk_last<'t>(
    alloc: Global,
    text: &'t str,
    surrounding: &Surrounding<'t>,
    item: &FileItem,
    uses: Vec<Use<'t>>,
) -> Result<Found<'t>, AllocError>
    requires { OfParts (IsPart text.now) (parts_in_item item.now) }
    ensures outlines { IfOk result (λ found. found.outlines.items ≡ in_item text.now surrounding.now item.now) }
    ensures uses { IfOk result (λ found. found.uses.items
        ≡ uses.entry.items ++ uses_in_item text.now surrounding.now item.now) }
{
    let mut found = Found {
        outlines: Vec::new(alloc),
        uses,
    };
    walk_item(alloc, text, surrounding, item, &mut found)?;
    Ok(found)
}
