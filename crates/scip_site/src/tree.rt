//! The first page: the tree of folders.

ghost use Rattle.std.specs.Prelude.{◌≡◌, ◌-◌, ◌++◌, [], ℕ, List, length, map, take, IfOk, OnOk};
ghost use Rattle.std.specs.Borrow.{Bor};
ghost use Rattle.std.specs.List.{slice_get};
ghost use Rattle.scip_site.specs.Tree as spec;

use scip_pages::{
    components_of, line_at, page_path, push_attribute, push_encoded, push_escaped, push_folder_id,
    push_head, push_link,
};
use std::alloc::{AllocError, Global};

/// Whether a name is that with a number.
fn is_name(name: &str, names: &[&str], at: usize) -> bool
    ensures { result ≡ spec.is_name name.now (slice_get (map (λ (n : Bor (List ℕ)). n.now) names.now) at) }
{
    match names.get(at) {
        Some(other) => name == *other,
        None => false,
    }
}

/// Whether the names with a number on two ways are the same.
fn same_at(here: &[&str], names: &[&str], at: usize) -> bool
    ensures { result ≡ spec.same_at (map (λ (n : Bor (List ℕ)). n.now) here.now)
        (map (λ (n : Bor (List ℕ)). n.now) names.now) at }
{
    match here.get(at) {
        Some(name) => is_name(*name, names, at),
        None => false,
    }
}

/// How many of the first names of two ways are the same.
fn common(here: &[&str], names: &[&str]) -> usize
    ensures { result ≡ spec.common (map (λ (n : Bor (List ℕ)). n.now) here.now)
        (map (λ (n : Bor (List ℕ)). n.now) names.now) }
{
    for at in 0..here.len() {
        if !same_at(here, names, at) {
            return at;
        }
    }
    here.len()
}

/// All names but the last.
fn but_last<'a>(names: &'a [&'a str]) -> &'a [&'a str]
    ensures { result.now ≡ take (length names.now - 1) names.now }
{
    match names {
        [folders @ .., _] => folders,
        [] => &[],
    }
}

/// The names of the folders on a path that has these names.
fn folders_in<'a>(names: &'a [&'a str]) -> &'a [&'a str]
    ensures { map (λ (n : Bor (List ℕ)). n.now) result.now ≡ spec.but_last
        (map (λ (n : Bor (List ℕ)). n.now) names.now) }
{
    but_last(names)
}

/// The last name; no text where there is none.
fn last_of<'a>(names: &'a [&'a str]) -> &'a str
    ensures { result.now ≡ spec.last_of (map (λ (n : Bor (List ℕ)). n.now) names.now) }
{
    line_at(names, names.len().saturating_sub(1))
}

/// Appends the ends of so many folders.
fn push_closes(page: &mut Vec<u8>, count: usize) -> Result<(), AllocError>
    ensures { OnOk result (page.new.items ≡ page.old.items ++ spec.closes count) }
{
    for _ in 0..count {
        page.extend_from_slice(b"</ul></details></li>\n")?;
    }
    Ok(())
}

/// Appends the sign that a folder is open, if it is on top.
fn push_is_open(page: &mut Vec<u8>, above: &[u8]) -> Result<(), AllocError>
    ensures { OnOk result (page.new.items ≡ page.old.items ++ spec.is_open above.now) }
{
    if above.is_empty() {
        page.extend_from_slice(b" open")
    } else {
        Ok(())
    }
}

/// Appends the start of a folder.
fn push_open(alloc: Global, page: &mut Vec<u8>, above: &[u8], name: &[u8]) -> Result<(), AllocError>
    ensures { OnOk result (page.new.items ≡ page.old.items ++ spec.open_text above.now name.now) }
{
    let mut folder = Vec::from_slice(alloc, above)?;
    folder.extend_from_slice(name)?;
    let mut id = Vec::new(alloc);
    push_folder_id(&mut id, &folder)?;
    page.extend_from_slice(b"<li><details")?;
    push_attribute(page, b"id", &id)?;
    push_is_open(page, above)?;
    page.extend_from_slice(b"><summary>")?;
    push_escaped(page, name)?;
    page.extend_from_slice(b"/</summary><ul>\n")?;
    Ok(())
}

/// Appends the start of a folder, unless it is there.
fn push_if_closed(
    alloc: Global,
    page: &mut Vec<u8>,
    kept: usize,
    above: &[u8],
    name: &[u8],
) -> Result<(), AllocError>
    ensures { OnOk result (page.new.items ≡ page.old.items ++ spec.open_or_none kept above.now name.now) }
{
    if kept == 0 {
        push_open(alloc, page, above, name)
    } else {
        Ok(())
    }
}

/// Appends the starts of folders, but of so many of the first.
fn push_opens(
    alloc: Global,
    page: &mut Vec<u8>,
    kept: usize,
    folders: &[&str],
) -> Result<(), AllocError>
    ensures { OnOk result (page.new.items ≡ page.old.items ++ spec.opens kept []
        (map (λ (n : Bor (List ℕ)). n.now) folders.now)) }
{
    let mut above = Vec::new(alloc);
    let mut left = kept;
    let mut rest = folders;
    while let [name, others @ ..] = rest {
        push_if_closed(alloc, page, left, &above, name.as_bytes())?;
        above.extend_from_slice(name.as_bytes())?;
        above.extend_from_slice(b"/")?;
        left = left.saturating_sub(1);
        rest = others;
    }
    Ok(())
}

/// Appends the link to the page of a document, whose path has these names.
fn push_leaf(
    alloc: Global,
    page: &mut Vec<u8>,
    path: &str,
    names: &[&str],
) -> Result<(), AllocError>
    ensures { OnOk result (page.new.items ≡ page.old.items ++ spec.leaf_with path.now
        (map (λ (n : Bor (List ℕ)). n.now) names.now)) }
{
    let to = page_path(alloc, path)?;
    let mut url = Vec::new(alloc);
    push_encoded(&mut url, to.as_bytes())?;
    page.extend_from_slice(b"<li>")?;
    push_link(page, &url, last_of(names).as_bytes())?;
    page.extend_from_slice(b"</li>\n")
}

/// Appends a document whose path has these names behind another, with the ends and starts of folders between them.
fn push_between(
    alloc: Global,
    page: &mut Vec<u8>,
    here: &[&str],
    path: &str,
    names: &[&str],
) -> Result<(), AllocError>
    ensures { OnOk result (page.new.items ≡ page.old.items ++ spec.step_with
        (map (λ (n : Bor (List ℕ)). n.now) here.now) path.now (map (λ (n : Bor (List ℕ)). n.now) names.now)) }
{
    let folders = folders_in(names);
    let kept = common(here, folders);
    push_closes(page, here.len().saturating_sub(kept))?;
    push_opens(alloc, page, kept, folders)?;
    push_leaf(alloc, page, path, names)
}

/// Appends a document behind another.
fn push_step(alloc: Global, page: &mut Vec<u8>, before: &str, path: &str) -> Result<(), AllocError>
    ensures { OnOk result (page.new.items ≡ page.old.items ++ spec.step before.now path.now) }
{
    let open = components_of(alloc, before)?;
    let names = components_of(alloc, path)?;
    push_between(alloc, page, folders_in(&open), path, &names)
}

/// Appends the ends of the folders on a path.
fn push_end(alloc: Global, page: &mut Vec<u8>, before: &str) -> Result<(), AllocError>
    ensures { OnOk result (page.new.items ≡ page.old.items ++ spec.tree before.now []) }
{
    let open = components_of(alloc, before)?;
    push_closes(page, folders_in(&open).len())
}

/// Appends a tree of paths, of which those in one folder are one after another.
fn push_tree(alloc: Global, page: &mut Vec<u8>, paths: &[&str]) -> Result<(), AllocError>
    ensures { OnOk result (page.new.items ≡ page.old.items ++ spec.tree []
        (map (λ (p : Bor (List ℕ)). p.now) paths.now)) }
{
    let mut before = "";
    let mut rest = paths;
    while let [path, others @ ..] = rest {
        push_step(alloc, page, before, *path)?;
        before = *path;
        rest = others;
    }
    push_end(alloc, page, before)
}

/// Appends what is between the head of the first page and its tree.
fn push_search(page: &mut Vec<u8>) -> Result<(), AllocError>
    ensures { OnOk result (page.new.items ≡ page.old.items ++ spec.search_text) }
{
    page.extend_from_slice(b"<header><nav><b>All sources</b></nav>\n")?;
    page.extend_from_slice(
        b"<search><input id=\"query\" type=\"search\" placeholder=\"Search symbols\" aria-label=\"Search symbols\"",
    )?;
    page.extend_from_slice(b" autocomplete=\"off\" spellcheck=\"false\"></search></header>\n")?;
    page.extend_from_slice(
        b"<main class=\"first\">\n<ul id=\"found\" aria-live=\"polite\"></ul>\n<ul id=\"tree\">\n",
    )
}

/// The first page, over the paths of the documents that have pages, in the order of their bytes.
pub(crate) fn first_page(alloc: Global, paths: &[&str]) -> Result<Vec<u8>, AllocError>
    ensures { IfOk result (λ page. page.items ≡ spec.first_page (map (λ (p : Bor (List ℕ)). p.now) paths.now)) }
{
    let mut page = Vec::new(alloc);
    push_head(alloc, &mut page, "index.html", "Sources")?;
    push_search(&mut page)?;
    push_tree(alloc, &mut page, paths)?;
    page.extend_from_slice(
        b"</ul>\n</main>\n<script src=\"symbols.js\"></script>\n<script src=\"search.js\"></script>\n</body>\n</html>\n",
    )?;
    Ok(page)
}
