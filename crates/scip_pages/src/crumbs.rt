//! The head of a page, and the way to it from the first page.

ghost use Rattle.std.specs.Prelude.{◌≡◌, ◌++◌, [], ℕ, List, map, IfOk, OnOk};
ghost use Rattle.std.specs.Borrow.{Bor};
ghost use Rattle.scip_pages.specs.Escapes.{escape};
ghost use Rattle.scip_pages.specs.Paths.{components};
ghost use Rattle.scip_pages.specs.Crumbs as spec;

use crate::code::push_attribute;
use crate::escapes::push_escaped;
use crate::marks::push_link;
use crate::page_urls::{file_url, folder_url};
use std::alloc::{AllocError, Global};

/// What stands between the slashes of a path, and before and behind them.
pub fn components_of(alloc: Global, path: &str) -> Result<Vec<&str>, AllocError>
    ensures { IfOk result (λ names. map (λ (name : Bor (List ℕ)). name.now) names.items ≡ components path.now) }
{
    path.split('/').collect(alloc)
}

/// Appends the name of the page.
fn push_last(page: &mut Vec<u8>, name: &[u8]) -> Result<(), AllocError>
    ensures { OnOk result (page.new.items ≡ page.old.items ++ spec.last_text name.now) }
{
    page.extend_from_slice(b"<b>")?;
    push_escaped(page, name)?;
    page.extend_from_slice(b"</b>")
}

/// Appends the link to a folder.
fn push_folder(
    alloc: Global,
    page: &mut Vec<u8>,
    from: &str,
    folder: &[u8],
    name: &[u8],
) -> Result<(), AllocError>
    ensures { OnOk result (page.new.items ≡ page.old.items ++ spec.folder_text from.now folder.now name.now) }
{
    let url = folder_url(alloc, from, folder)?;
    push_link(page, &url, name)?;
    page.extend_from_slice(b"/<wbr>")
}

/// Appends a name on the way, behind which there are others.
fn push_name(
    alloc: Global,
    page: &mut Vec<u8>,
    from: &str,
    folder: &[u8],
    name: &str,
    others: &[&str],
) -> Result<(), AllocError>
    ensures { OnOk result (page.new.items ≡ page.old.items ++ spec.name_text from.now folder.now name.now
        (map (λ (n : Bor (List ℕ)). n.now) others.now)) }
{
    match others {
        [] => push_last(page, name.as_bytes()),
        [_, ..] => push_folder(alloc, page, from, folder, name.as_bytes()),
    }
}

/// Appends names on the way, each but the last a link.
fn push_names(
    alloc: Global,
    page: &mut Vec<u8>,
    from: &str,
    names: &[&str],
) -> Result<(), AllocError>
    ensures { OnOk result (page.new.items ≡ page.old.items ++ spec.names_text from.now []
        (map (λ (n : Bor (List ℕ)). n.now) names.now)) }
{
    let mut folder = Vec::new(alloc);
    let mut rest = names;
    while let [name, others @ ..] = rest {
        folder.extend_from_slice(name.as_bytes())?;
        push_name(alloc, page, from, &folder, *name, others)?;
        folder.extend_from_slice(b"/")?;
        rest = others;
    }
    Ok(())
}

/// Appends the way from the first page to the page with the path `from`, of a document with a path.
pub(crate) fn push_crumbs(
    alloc: Global,
    page: &mut Vec<u8>,
    from: &str,
    path: &str,
) -> Result<(), AllocError>
    ensures { OnOk result (page.new.items ≡ page.old.items ++ spec.crumbs_text from.now path.now) }
{
    let names = components_of(alloc, path)?;
    let first = file_url(alloc, from, b"index.html")?;
    page.extend_from_slice(b"<header><nav>")?;
    push_link(page, &first, b"All sources")?;
    page.extend_from_slice(b" <span>")?;
    push_names(alloc, page, from, &names)?;
    page.extend_from_slice(b"</span></nav></header>\n")?;
    Ok(())
}

/// Appends the link to the style sheet.
fn push_style(alloc: Global, page: &mut Vec<u8>, from: &str) -> Result<(), AllocError>
    ensures { OnOk result (page.new.items ≡ page.old.items ++ spec.style_text from.now) }
{
    let url = file_url(alloc, from, b"pages.css")?;
    page.extend_from_slice(b"<link rel=\"stylesheet\"")?;
    push_attribute(page, b"href", &url)?;
    page.extend_from_slice(b">\n")
}

/// Appends the text of a title.
fn push_title(page: &mut Vec<u8>, title: &str) -> Result<(), AllocError>
    ensures { OnOk result (page.new.items ≡ page.old.items ++ escape title.now) }
{
    push_escaped(page, title.as_bytes())
}

/// Appends the head of the page with the path `from`.
pub fn push_head(
    alloc: Global,
    page: &mut Vec<u8>,
    from: &str,
    title: &str,
) -> Result<(), AllocError>
    ensures { OnOk result (page.new.items ≡ page.old.items ++ spec.head_text from.now title.now) }
{
    page.extend_from_slice(
        b"<!DOCTYPE html>\n<html lang=\"en\">\n<head>\n<meta charset=\"utf-8\">\n",
    )?;
    page.extend_from_slice(
        b"<meta name=\"viewport\" content=\"width=device-width, initial-scale=1\">\n<title>",
    )?;
    push_title(page, title)?;
    page.extend_from_slice(b"</title>\n")?;
    push_style(alloc, page, from)?;
    page.extend_from_slice(b"</head>\n<body>\n")?;
    Ok(())
}
