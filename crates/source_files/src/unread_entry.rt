//! What isn't read below the roots.

ghost use Rattle.std.specs.Prelude.{◌≡◌, ◌<◌, ◌++◌, IfOk, OnOk, map, string_bytes};
ghost use Rattle.std.specs.Char.{digit_char, encode_utf8};
ghost use Rattle.source_files.specs.Unread.{
  at_bad_path,
  at_path,
  escaped,
  in_folder,
  shown_character,
  shown_path,
  unread_of,
};
ghost use Rattle.source_files.specs.Walks.{AreEachOnce};

use crate::listing::FolderIdentity;
use std::alloc::{AllocError, Global};

/// An entry that isn't read, by its name in its folder, or by its path below its root. That of a folder ends in `/`.
///
/// They are in order of what is shown of them.
#[derive(Debug, PartialEq, Eq, PartialOrd, Ord, Drop)]
pub struct UnreadEntry {
    /// What is shown of its name or path: each byte that isn't UTF-8, and each control character, is in the form `\xe9`.
    pub shown: String,
    /// Its name or path.
    pub bytes: Vec<u8>,
    /// If its name isn't UTF-8, which folder it is in, if that is known. Of others what has one path is one, below
    /// whatever roots.
    pub folder: Option<FolderIdentity>,
    /// Whether its path is no good one; else it can't be read, or its name isn't UTF-8.
    pub has_bad_path: bool,
}

/// Appends a hexadecimal digit.
fn push_digit(out: &mut String, digit: u32) -> Result<(), AllocError>
    requires { digit < 16 }
    ensures { OnOk result (string_bytes out.new ≡ string_bytes out.old ++ encode_utf8 (digit_char digit)) }
{
    out.push(char::from_digit(digit, 16).unwrap())
}

/// Appends the escape of a control character.
fn push_escape(out: &mut String, character: u32) -> Result<(), AllocError>
    requires { character < 32 }
    ensures { OnOk result (string_bytes out.new ≡ string_bytes out.old ++ escaped character) }
{
    out.push_str("\\x")?;
    push_digit(out, character / 16)?;
    push_digit(out, character % 16)
}

/// Appends a character of a path, or its escape.
pub(crate) fn push_character(out: &mut String, character: char) -> Result<(), AllocError>
    ensures { OnOk result (string_bytes out.new ≡ string_bytes out.old ++ shown_character character) }
{
    let number = character as u32;
    if number < 32 {
        push_escape(out, number)
    } else {
        out.push(character)
    }
}

/// A path without control characters, each of which is shown by its byte.
fn shown_path(alloc: Global, path: &str) -> Result<String, AllocError>
    ensures { IfOk result (λ shown. string_bytes shown ≡ shown_path path.now) }
{
    let mut shown = String::new(alloc);
    for character in path.chars() {
        push_character(&mut shown, character)?;
    }
    Ok(shown)
}

/// What has a path and can't be read.
pub(crate) fn entry_at(alloc: Global, path: &str) -> Result<UnreadEntry, AllocError>
    ensures { IfOk result (λ entry. unread_of entry ≡ at_path path.now) }
{
    Ok(UnreadEntry {
        shown: shown_path(alloc, path)?,
        bytes: Vec::from_slice(alloc, path.as_bytes())?,
        folder: None,
        has_bad_path: false,
    })
}

/// What has a path that is no good one.
pub(crate) fn entry_at_bad(alloc: Global, path: &str) -> Result<UnreadEntry, AllocError>
    ensures { IfOk result (λ entry. unread_of entry ≡ at_bad_path path.now) }
{
    Ok(UnreadEntry {
        shown: shown_path(alloc, path)?,
        bytes: Vec::from_slice(alloc, path.as_bytes())?,
        folder: None,
        has_bad_path: true,
    })
}

/// What has a name in a folder, by its path.
pub(crate) fn entry_in(
    alloc: Global,
    folder: &str,
    named: &UnreadEntry,
) -> Result<UnreadEntry, AllocError>
    ensures { IfOk result (λ entry. unread_of entry ≡ in_folder folder.now (unread_of named.now)) }
{
    let mut shown = shown_path(alloc, folder)?;
    shown.push_str(named.shown.as_str())?;
    let mut bytes = Vec::from_slice(alloc, folder.as_bytes())?;
    bytes.extend_from_slice(&named.bytes)?;
    Ok(UnreadEntry {
        shown,
        bytes,
        folder: named.folder,
        has_bad_path: named.has_bad_path,
    })
}

/// These entries, each once, in order of what is shown of them.
pub(crate) fn each_once(entries: Vec<UnreadEntry>) -> Result<Vec<UnreadEntry>, AllocError>
    ensures { IfOk result (λ once. AreEachOnce (map unread_of entries.items) (map unread_of once.items)) }
{
    let mut entries = entries;
    entries.sort()?;
    entries.dedup();
    Ok(entries)
}
