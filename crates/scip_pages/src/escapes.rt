//! Texts in a page.

ghost use Rattle.std.specs.Prelude.{◌≡◌, ◌≤◌, ◌++◌, IfOk, OnOk, length};
ghost use Rattle.std.specs.List.{prefix_len};
ghost use Rattle.scip_pages.specs.Escapes.{escape, escape_byte};
ghost use Rattle.scip_pages.specs.Plainly.{is_plain};

use std::alloc::AllocError;

/// Appends a byte of a text. A page can't hold a NUL; its picture stands for it, U+2400.
fn push_byte(page: &mut Vec<u8>, byte: u8) -> Result<(), AllocError>
    ensures { OnOk result (page.new.items ≡ page.old.items ++ escape_byte byte) }
{
    match byte {
        b'&' => page.extend_from_slice(b"&amp;"),
        b'<' => page.extend_from_slice(b"&lt;"),
        b'>' => page.extend_from_slice(b"&gt;"),
        b'"' => page.extend_from_slice(b"&quot;"),
        b'\'' => page.extend_from_slice(b"&#39;"),
        b'\r' => page.extend_from_slice(b"&#13;"),
        0 => page.extend_from_slice(b"\xE2\x90\x80"),
        _ => page.extend_from_slice(&[byte]),
    }
}

/// Whether a page has a byte of a text as it is.
fn is_plain(byte: u8) -> bool
    ensures { result ≡ is_plain byte }
{
    !matches!(byte, b'&' | b'<' | b'>' | b'"' | b'\'' | b'\r' | 0)
}

/// How many of the first bytes of a text a page has as they are.
fn plain_len(text: &[u8]) -> usize
    ensures len { result ≡ prefix_len is_plain text.now }
    ensures within { result ≤ length text.now }
{
    text.iter().take_while(|byte| is_plain(**byte)).count()
}

/// Appends the first bytes of a text that a page has as they are, and gives what is behind them.
fn push_plain<'a>(page: &mut Vec<u8>, text: &'a [u8]) -> Result<&'a [u8], AllocError>
    ensures text { IfOk result (λ behind. page.new.items ++ escape behind.now ≡ page.old.items ++ escape text.now) }
    ensures within { IfOk result (λ behind. length behind.now ≤ length text.now) }
{
    let (plain, behind) = text.split_at(plain_len(text));
    page.extend_from_slice(plain)?;
    Ok(behind)
}

/// Appends a text to a page, so that all of it is text and nothing of it becomes a mark, also in the value of an
/// attribute between quotes (HTML Standard, 13.1.4 "Character references"). A NUL becomes its picture.
pub fn push_escaped(page: &mut Vec<u8>, text: &[u8]) -> Result<(), AllocError>
    ensures { OnOk result (page.new.items ≡ page.old.items ++ escape text.now) }
{
    let mut rest = push_plain(page, text)?;
    while let [byte, others @ ..] = rest {
        push_byte(page, *byte)?;
        rest = push_plain(page, others)?;
    }
    Ok(())
}
