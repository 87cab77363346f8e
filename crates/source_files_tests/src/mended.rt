//! What is read of bytes that needn't be UTF-8 in comments.

use crate::roots::see;
use crate::tree_calls::tree_of;
use source_tree::{Source, Tree};
use std::alloc::{AllocError, Global};

/// What files hold, and what is read of it. (Python's `surrogateescape` finds the same bytes, each by itself.)
const READ: [(&[u8], &[u8]); 18] = [
    (b"", b""),
    (b"// cafe\n", b"// cafe\n"),
    (b"// caf\xc3\xa9\n", b"// caf\xc3\xa9\n"),
    (b"// caf\xe9\n", b"// caf\0\n"),
    (b"// caf\xe9", b"// caf\0"),
    (b"/* \xe9\n\xa9 */ message", b"/* \0\n\0 */ message"),
    (b"// \xc3\xa9\xe9\xc3\xa9", b"// \xc3\xa9\0\xc3\xa9"),
    (b"\xef\xbb\xbf// \xff", b"\xef\xbb\xbf// \0"),
    // Overlong, surrogate, too great and cut sequences: each of their bytes is read by itself.
    (b"// \xc0\x80 \xe0\x80\x80", b"// \0\0 \0\0\0"),
    (b"// \xed\xa0\x80 \xf4\x90\x80\x80", b"// \0\0\0 \0\0\0\0"),
    (b"// \xe2\x82 \xf0\x9f\x98", b"// \0\0 \0\0\0"),
    (b"// \xf0\x9f\x98\x80\x80", b"// \xf0\x9f\x98\x80\0"),
    // Outside comments they are read as they are, with all that follows.
    (b"// \xe9\n'\xe9' // \xe9", b"// \0\n'\xe9' // \xe9"),
    (b"// \xe9\na\xe9 // \xe9", b"// \0\na\xe9 // \xe9"),
    (b"\xe9 // \xe9", b"\xe9 // \xe9"),
    // Another fault of the lexer is before all others.
    (b"@ // \xe9", b"@ // \0"),
    (b"\0 // \xe9", b"\0 // \0"),
    (b"/* \xe9", b"/* \0"),
];

/// A tree of one file that holds these bytes, mended.
fn mended_once(alloc: Global, bytes: &[u8]) -> Result<Option<Tree>, AllocError> {
    let path = String::from_str(alloc, "a.proto")?;
    let mut held = Vec::new(alloc);
    held.extend_from_slice(bytes)?;
    let sources = vec![in alloc;
        Source {
            path,
            bytes: held,
            is_unread: false
        },
    ]?;
    match tree_of(alloc, sources, Vec::new(alloc)) {
        Some(tree) => Ok(Some(tree.mended(alloc)?)),
        None => Ok(None),
    }
}

/// The same, asked for again if memory runs out.
fn mended(alloc: Global, bytes: &[u8]) -> Result<Option<Tree>, AllocError> {
    match mended_once(alloc, bytes) {
        Err(_) => mended_once(alloc, bytes),
        tree => tree,
    }
}

/// Whether these bytes are read as this, and are held as they are.
fn is_read_as(alloc: Global, bytes: &[u8], text: &[u8]) -> bool {
    match mended(alloc, bytes) {
        Ok(Some(tree)) => tree.file_count() == 1
            && *tree.text(0) == *text
            && *tree.bytes(0) == *bytes,
        _ => false,
    }
}

/// Whether each file is read as it is to be.
fn are_read(alloc: Global, rows: &[(&[u8], &[u8])]) -> bool {
    for (bytes, text) in rows {
        if !is_read_as(alloc, bytes, text) {
            return false;
        }
    }
    true
}

#[test]
fn bytes_in_comments(rt: HostRuntime) {
    see(&rt, are_read(rt.alloc(), &READ), "what is read");
}
