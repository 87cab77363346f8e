//! Source code in a page.

ghost use Rattle.std.specs.Prelude.{◌≡◌, ◌++◌, codes, take, drop, OnOk, option_copied};
ghost use Rattle.std.specs.List.{flat_map};
ghost use Rattle.scip_pages.specs.Code as spec;

use crate::decimals::push_decimal;
use crate::escapes::push_escaped;
use crate::runs::Run;
use basics::Sequence;
use std::alloc::AllocError;

/// Where a piece of code leads.
#[derive(Debug, Drop)]
pub struct Link {
    /// A URL, if it leads anywhere.
    pub target: Option<Sequence<u8>>,
    /// What is shown where a pointer hovers.
    pub label: Sequence<u8>,
}

/// Appends an attribute with its value between quotes (HTML Standard, 13.1.2.3 "Attributes").
pub fn push_attribute(page: &mut Vec<u8>, name: &[u8], value: &[u8]) -> Result<(), AllocError>
    ensures { OnOk result (page.new.items ≡ page.old.items ++ spec.attribute name.now value.now) }
{
    page.extend_from_slice(b" ")?;
    page.extend_from_slice(name)?;
    page.extend_from_slice(b"=\"")?;
    push_escaped(page, value)?;
    page.extend_from_slice(b"\"")
}

/// Appends where a link leads. One that leads nowhere is reached by keys too.
fn push_target(page: &mut Vec<u8>, target: &Option<Sequence<u8>>) -> Result<(), AllocError>
    ensures { OnOk result (page.new.items ≡ page.old.items ++ spec.target_code target.now) }
{
    match target {
        Some(target) => push_attribute(page, b"href", target.as_slice()),
        None => push_attribute(page, b"tabindex", b"0"),
    }
}

/// Appends a text between the marks of a link.
fn push_linked(page: &mut Vec<u8>, link: &Link, text: &[u8]) -> Result<(), AllocError>
    ensures { OnOk result (page.new.items ≡ page.old.items ++ spec.linked (Some link.now) text.now) }
{
    page.extend_from_slice(b"<a")?;
    push_target(page, &link.target)?;
    push_attribute(page, b"title", link.label.as_slice())?;
    page.extend_from_slice(b">")?;
    push_escaped(page, text)?;
    page.extend_from_slice(b"</a>")
}

/// Appends a piece of a line.
fn push_piece(page: &mut Vec<u8>, link: Option<&Link>, text: &[u8]) -> Result<(), AllocError>
    ensures { OnOk result (page.new.items ≡ page.old.items ++ spec.linked (option_copied link.entry) text.now) }
{
    match link {
        Some(link) => push_linked(page, link, text),
        None => push_escaped(page, text),
    }
}

/// The link of an occurrence.
fn link_of(links: &[Link], occurrence: Option<usize>) -> Option<&Link>
    ensures { option_copied result ≡ spec.link_of links.now occurrence }
{
    match occurrence {
        Some(number) => links.get(number),
        None => None,
    }
}

/// The first bytes of a line, as many as are asked for or as there are, and those behind them.
pub fn cut(line: &[u8], len: usize) -> (&[u8], &[u8])
    ensures front { result.0.now ≡ take len line.now }
    ensures behind { result.1.now ≡ drop len line.now }
{
    line.split_at(len.min(line.len()))
}

/// Appends the pieces of a line.
fn push_pieces(
    page: &mut Vec<u8>,
    line: &[u8],
    runs: &[Run],
    links: &[Link],
) -> Result<(), AllocError>
    ensures { OnOk result (page.new.items ≡ page.old.items ++ flat_map spec.piece_code
        (spec.pieces_of links.now line.now runs.now)) }
{
    let mut rest = line;
    for run in runs {
        let (text, behind) = cut(rest, run.len);
        push_piece(page, link_of(links, run.occurrence), text)?;
        rest = behind;
    }
    Ok(())
}

/// Appends the place of a line with a number.
fn push_line_mark(page: &mut Vec<u8>, number: usize) -> Result<(), AllocError>
    ensures { OnOk result (page.new.items ≡ page.old.items ++ spec.line_mark number) }
{
    page.extend_from_slice(b"<a id=\"L")?;
    push_decimal(page, number)?;
    page.extend_from_slice(b"\"></a>")?;
    Ok(())
}

/// Appends a line of code with a number from 1. Each of its runs that has an occurrence becomes the link that has the
/// occurrence's number; if there is none it stays text.
pub fn push_line(
    page: &mut Vec<u8>,
    number: usize,
    line: &[u8],
    runs: &[Run],
    links: &[Link],
) -> Result<(), AllocError>
    ensures { OnOk result (page.new.items ≡ page.old.items ++ spec.line_code number
        (spec.pieces_of links.now line.now runs.now)) }
{
    push_line_mark(page, number)?;
    push_pieces(page, line, runs, links)
}
