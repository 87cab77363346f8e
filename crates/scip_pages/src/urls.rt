//! URLs by which one page names a line of another.

ghost use Rattle.std.specs.Prelude.{◌≡◌, ◌≤◌, ◌++◌, ◌<◌, IfOk, OnOk, length};
ghost use Rattle.std.specs.List.{prefix_len};
ghost use Rattle.scip_pages.specs.Urls as spec;

use std::alloc::{AllocError, Global};

/// Whether a URL has a byte as it is.
fn is_kept(byte: u8) -> bool
    ensures { result ≡ spec.is_kept byte }
{
    matches!(byte, b'A'..=b'Z' | b'a'..=b'z' | b'0'..=b'9' | b'-' | b'.' | b'_' | b'~' | b'/')
}

/// A hexadecimal digit.
fn hex_digit(value: u8) -> u8
    requires { value < 16 }
    ensures { result ≡ spec.hex_digit value }
{
    if value < 10 { value + b'0' } else { value + 55 }
}

/// Appends a byte of a path.
fn push_encoded_byte(url: &mut Vec<u8>, byte: u8) -> Result<(), AllocError>
    ensures { OnOk result (url.new.items ≡ url.old.items ++ spec.encoded_byte byte) }
{
    if is_kept(byte) {
        url.extend_from_slice(&[byte])
    } else {
        url.extend_from_slice(&[b'%', hex_digit(byte / 16), hex_digit(byte % 16)])
    }
}

/// How many of the first bytes of a path a URL has as they are.
fn kept_len(path: &[u8]) -> usize
    ensures len { result ≡ prefix_len spec.is_kept path.now }
    ensures within { result ≤ length path.now }
{
    path.iter().take_while(|byte| is_kept(**byte)).count()
}

/// Appends the first bytes of a path that a URL has as they are, and gives what is behind them.
fn push_kept<'a>(url: &mut Vec<u8>, path: &'a [u8]) -> Result<&'a [u8], AllocError>
    ensures path { IfOk result (λ behind. url.new.items ++ spec.encoded behind.now ≡ url.old.items ++ spec.encoded
        path.now) }
    ensures within { IfOk result (λ behind. length behind.now ≤ length path.now) }
{
    let (kept, behind) = path.split_at(kept_len(path));
    url.extend_from_slice(kept)?;
    Ok(behind)
}

/// Appends a path, so that what has a meaning in a URL is text of the path (RFC 3986, 2.1
/// "Percent-Encoding").
pub fn push_encoded(url: &mut Vec<u8>, path: &[u8]) -> Result<(), AllocError>
    ensures { OnOk result (url.new.items ≡ url.old.items ++ spec.encoded path.now) }
{
    let mut rest = push_kept(url, path)?;
    while let [byte, others @ ..] = rest {
        push_encoded_byte(url, *byte)?;
        rest = push_kept(url, others)?;
    }
    Ok(())
}

/// Appends what leads up where a byte of a path ends a component.
fn push_up(url: &mut Vec<u8>, byte: u8) -> Result<(), AllocError>
    ensures { OnOk result (url.new.items ≡ url.old.items ++ spec.up byte) }
{
    if byte == b'/' {
        url.extend_from_slice(b"../")
    } else {
        Ok(())
    }
}

/// Appends what leads from the folder of the page with a path to that of all pages.
pub(crate) fn push_ups(url: &mut Vec<u8>, from: &[u8]) -> Result<(), AllocError>
    ensures { OnOk result (url.new.items ≡ url.old.items ++ spec.ups from.now) }
{
    for byte in from {
        push_up(url, *byte)?;
    }
    Ok(())
}

/// Appends the URL by which the page with the path `from` names the line with a number, from 1, of
/// the page with the path `to` (RFC 3986, 4.2 "Relative Reference").
pub fn push_url(
    alloc: Global,
    url: &mut Vec<u8>,
    from: &str,
    to: &str,
    line: usize,
) -> Result<(), AllocError>
    ensures { OnOk result (url.new.items ≡ url.old.items ++ spec.url_of from.now to.now line) }
{
    push_ups(url, from.as_bytes())?;
    push_encoded(url, to.as_bytes())?;
    let place = format!(in alloc; "#L{line}")?;
    url.extend_from_slice(place.as_bytes())
}
