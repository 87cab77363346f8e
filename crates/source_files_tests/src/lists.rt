//! Lists of sources: what their bytes name.

use crate::roots::see;
use source_files::{ListFault, ListedPath, listed_paths};
use std::alloc::Global;
use std::test::Fail;

// The second row reads: the first line ends with `\r\n`, the second is empty, and the third has no end.
const NAMED: [(&[u8], &str); 8] = [
    (b"", ""),
    (b"a.proto\r\n\nb/c.proto", "1:a.proto 3:b/c.proto "),
    (b"a.proto\na.proto\n", "1:a.proto "),
    (
        b"a.proto\nb.proto\na.proto\r\nc.proto",
        "1:a.proto 2:b.proto 4:c.proto ",
    ),
    (b"\n\r\n\r\n", ""),
    (b" .proto\n", "1: .proto "),
    (b"\xc3\xa9.proto\n", "1:é.proto "),
    (b"a/.proto", "1:a/.proto "),
];

// The first row reads: the second line is no good path.
const REFUSED: [(&[u8], ListFault); 9] = [
    (b"a.proto\na\n", ListFault::BadPath(2)),
    (b"./a.proto", ListFault::BadPath(1)),
    (b"/a.proto", ListFault::BadPath(1)),
    (b"a/../b.proto", ListFault::BadPath(1)),
    (b"a//b.proto", ListFault::BadPath(1)),
    (b"\na.proto\r\r\n", ListFault::BadPath(2)),
    (b"a.proto\n\n\xff", ListFault::NotUtf8(3)),
    (b"a\nb\xc3\n", ListFault::NotUtf8(2)),
    (b"\xef\xbb\xbf\xff", ListFault::NotUtf8(1)),
];

/// Paths, each behind the number of its line and before a space.
fn shown(alloc: Global, paths: &[ListedPath]) -> Result<String, Fail> {
    let mut text = String::new(alloc);
    for one in paths {
        let (line, path) = (one.line, one.path.as_str());
        let more = format!(in alloc; "{line}:{path} ")?;
        text.push_str(more.as_str())?;
    }
    Ok(text)
}

/// What bytes name, or none if they are refused.
fn named_by(alloc: Global, bytes: &[u8]) -> Result<Option<String>, Fail> {
    match listed_paths(alloc, bytes) {
        Ok(paths) => Ok(Some(shown(alloc, &paths)?)),
        Err(_) => Ok(None),
    }
}

/// Whether bytes are refused for this.
fn is_refused(alloc: Global, bytes: &[u8], due: ListFault) -> bool {
    match listed_paths(alloc, bytes) {
        Ok(_) => false,
        Err(fault) => fault == due,
    }
}

#[test]
fn paths_of_lists(rt: HostRuntime) -> Result<(), Fail> {
    for (bytes, due) in &NAMED {
        let named = named_by(rt.alloc(), *bytes)?;
        see(&rt, named.as_deref() == Some(*due), *due);
    }
    for (bytes, due) in &REFUSED {
        see(
            &rt,
            is_refused(rt.alloc(), *bytes, *due),
            "a list that is refused",
        );
    }
    Ok(())
}
