//! Folders of pages.

use crate::asked::queries;
use crate::calls::see;
use crate::files::{Files, Made};
use scip_query::Queries;
use scip_site::{Folders, ShowFault, SiteFault, make_pages};
use std::alloc::Global;
use std::test::Fail;
use streams::Std;

/// The most bytes that files hold in these tests, and that are said.
const ROOM: usize = 4096;

/// An index of nine documents: `b/x`, which defines a symbol; one whose path leads out of the root; `a/y`, which uses
/// the symbol; `b/x` again; one whose source can't be read; one whose source isn't UTF-8; one without a position
/// encoding; one with a range past its source's end; and one in a folder of `b` that ends before `b/x`, with a name that
/// a URL encodes.
const INDEX: &[u8] = b"\x12\x14\x0a\x03b/x\x12\x0b\x0a\x03\x00\x00\x01\x12\x02S#\x18\x010\x01\
\x12\x08\x0a\x04../x0\x01\
\x12\x12\x0a\x03a/y\x12\x09\x0a\x03\x00\x00\x01\x12\x02S#0\x01\
\x12\x07\x0a\x03b/x0\x01\
\x12\x06\x0a\x02no0\x01\
\x12\x09\x0a\x05bytes0\x01\
\x12\x06\x0a\x04unit\
\x12\x14\x0a\x05short\x12\x09\x0a\x03\x00\x00\x02\x12\x02S#0\x01\
\x12\x0a\x0a\x06b/a%/z0\x01";

/// What is said of those that have no page.
const TOLD: &str = "protoscip: ../x: BadPath
protoscip: b/x: Repeated
protoscip: no: Unreadable
protoscip: bytes: NotText
protoscip: unit: NoUnit
protoscip: short: Misfit
";

/// What the files hold, for which there is room alone, but that the `\0` is room for a byte that doesn't come.
const MADE: &str = "[out/src/b/x.html]<!DOCTYPE html>
<html lang=\"en\">
<head>
<meta charset=\"utf-8\">
<meta name=\"viewport\" content=\"width=device-width, initial-scale=1\">
<title>b/x</title>
<link rel=\"stylesheet\" href=\"../../pages.css\">
</head>
<body>
<header><nav><a href=\"../../index.html\">All sources</a> <span><a href=\"../../index.html#d/b\">b</a>/<wbr><b>x</b></span></nav></header>
<main>
<pre><a id=\"L1\"></a><a href=\"#U0\" title=\"S#\">S</a></pre>
<aside><h2>Definitions and their uses</h2>
<dl>
<dt id=\"U0\"><a href=\"#L1\"><b>S</b> <span>S#</span></a></dt>
<dd><a href=\"../../src/a/y.html#L1\">a/y:1</a></dd>
</dl>
</aside>
</main>
</body>
</html>
[out/src/a/y.html]<!DOCTYPE html>
<html lang=\"en\">
<head>
<meta charset=\"utf-8\">
<meta name=\"viewport\" content=\"width=device-width, initial-scale=1\">
<title>a/y</title>
<link rel=\"stylesheet\" href=\"../../pages.css\">
</head>
<body>
<header><nav><a href=\"../../index.html\">All sources</a> <span><a href=\"../../index.html#d/a\">a</a>/<wbr><b>y</b></span></nav></header>
<main>
<pre><a id=\"L1\"></a><a href=\"../../src/b/x.html#L1\" title=\"S#\">S</a>
<a id=\"L2\"></a></pre>
<aside><h2>Definitions and their uses</h2>
<dl>
</dl>
</aside>
</main>
</body>
</html>
[out/src/b/a%/z.html]<!DOCTYPE html>
<html lang=\"en\">
<head>
<meta charset=\"utf-8\">
<meta name=\"viewport\" content=\"width=device-width, initial-scale=1\">
<title>b/a%/z</title>
<link rel=\"stylesheet\" href=\"../../../pages.css\">
</head>
<body>
<header><nav><a href=\"../../../index.html\">All sources</a> <span><a href=\"../../../index.html#d/b\">b</a>/<wbr><a href=\"../../../index.html#d/b/a%25\">a%</a>/<wbr><b>z</b></span></nav></header>
<main>
<pre><a id=\"L1\"></a></pre>
<aside><h2>Definitions and their uses</h2>
<dl>
</dl>
</aside>
</main>
</body>
</html>
[out/pages.css]
[out/search.js]
[out/symbols.js]const sources = [
[\"src/b/x.html\",\"b/x\",[[1,\"S\",\"S#\"],]],
[\"src/a/y.html\",\"a/y\",[]],
[\"src/b/a%25/z.html\",\"b/a%/z\",[]],
];
[out/index.html]<!DOCTYPE html>
<html lang=\"en\">
<head>
<meta charset=\"utf-8\">
<meta name=\"viewport\" content=\"width=device-width, initial-scale=1\">
<title>Sources</title>
<link rel=\"stylesheet\" href=\"pages.css\">
</head>
<body>
<header><nav><b>All sources</b></nav>
<search><input id=\"query\" type=\"search\" placeholder=\"Search symbols\" aria-label=\"Search symbols\" autocomplete=\"off\" spellcheck=\"false\"></search></header>
<main class=\"first\">
<ul id=\"found\" aria-live=\"polite\"></ul>
<ul id=\"tree\">
<li><details id=\"d/a\" open><summary>a/</summary><ul>
<li><a href=\"src/a/y.html\">y</a></li>
</ul></details></li>
<li><details id=\"d/b\" open><summary>b/</summary><ul>
<li><details id=\"d/b/a%25\"><summary>a%/</summary><ul>
<li><a href=\"src/b/a%25/z.html\">z</a></li>
</ul></details></li>
<li><a href=\"src/b/x.html\">x</a></li>
</ul></details></li>
</ul>
</main>
<script src=\"symbols.js\"></script>
<script src=\"search.js\"></script>
</body>
</html>
\0";

/// Makes the pages; gives the answer, and whether this is said.
fn pages(
    alloc: Global,
    queries: &Queries,
    room: &mut [u8],
    due: &str,
) -> (Result<(), SiteFault>, bool) {
    let mut told = [0u8; ROOM];
    let mut messages = Std::new(told.as_mut_slice());
    let folders = Folders {
        root: "src",
        to: "out",
    };
    let mut made = Made {
        room: Std::new(room),
        refusals: 0,
    };
    let answer = make_pages(alloc, &Files, &folders, queries, &mut made, &mut messages);
    let count = ROOM - messages.into_inner().len().min(ROOM);
    (answer, told.split_at(count).0 == due.as_bytes())
}

/// Whether the files are made that are due; none after want of memory.
fn is_so(alloc: Global, queries: &Queries) -> Option<bool> {
    let mut room = [0u8; ROOM];
    let room = room.split_at_mut(MADE.len().min(ROOM)).0;
    let (answer, is_said) = pages(alloc, queries, room, TOLD);
    if answer == Err(SiteFault::Show(ShowFault::Memory)) {
        return None;
    }
    Some(answer.is_ok() && is_said && *room == *MADE.as_bytes())
}

/// After want of memory they are made again, and the second answer counts.
#[test]
fn folders_have_the_pages_due(rt: HostRuntime) -> Result<(), Fail> {
    let queries = queries(&rt, rt.alloc(), INDEX)?;
    let is_so = match is_so(rt.alloc(), &queries) {
        None => is_so(rt.alloc(), &queries),
        is_so => is_so,
    };
    see(&rt, is_so == Some(true), "the pages");
    Ok(())
}

/// Indexes of which no document has a page, what is said of those, and whether that is a fault.
///
/// The first row reads: of two documents the source of one can't be read, and the path of the other leads out of the
/// root. The last is an index without documents.
const BARE: [(&[u8], &str, bool); 3] = [
    (
        b"\x12\x06\x0a\x02no0\x01\x12\x08\x0a\x04../x0\x01",
        "protoscip: no: Unreadable\nprotoscip: ../x: BadPath\n",
        true,
    ),
    (
        b"\x12\x14\x0a\x05short\x12\x09\x0a\x03\x00\x00\x02\x12\x02S#0\x01",
        "protoscip: short: Misfit\n",
        true,
    ),
    (b"", "", false),
];

/// Whether a row holds; none after want of memory.
fn is_bare(alloc: Global, queries: &Queries, due: &str, is_fault: bool) -> Option<bool> {
    let mut room = [0u8; ROOM];
    let (answer, is_said) = pages(alloc, queries, &mut room, due);
    if answer == Err(SiteFault::Show(ShowFault::Memory)) {
        return None;
    }
    let is_due = match answer {
        Ok(()) => !is_fault && room.starts_with(b"[out/pages.css]"),
        Err(fault) => is_fault && fault == SiteFault::NothingThere && room == [0u8; ROOM],
    };
    Some(is_due && is_said)
}

#[test]
fn folders_without_pages(rt: HostRuntime) -> Result<(), Fail> {
    for (index, due, is_fault) in &BARE {
        let queries = queries(&rt, rt.alloc(), *index)?;
        let is_so = match is_bare(rt.alloc(), &queries, *due, *is_fault) {
            None => is_bare(rt.alloc(), &queries, *due, *is_fault),
            is_so => is_so,
        };
        see(&rt, is_so == Some(true), *due);
    }
    Ok(())
}
