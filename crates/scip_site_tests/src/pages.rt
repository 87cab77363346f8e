//! Pages of an index's documents.

use crate::asked::queries;
use crate::calls::see;
use basics::OwnedText;
use scip_pages::{Asked, ColumnUnit, Facts, Lines, Site, page};
use scip_query::Queries;
use std::alloc::{AllocError, Global};
use std::process::Abort;
use std::test::Fail;

/// Two documents, `d/a` and `d/b`, a line each for the document's path, an occurrence (`\x12`), a symbol entry
/// (`\x1A`) and the position encoding (`0`). Each defines a symbol, and uses that of the other.
const INDEX: &[u8] = b"\x12/\x0A\x03d/a\
\x12\x0B\x0A\x03\x00\x00\x01\x12\x02S#\x18\x01\
\x12\x09\x0A\x03\x00\x02\x03\x12\x02T#\
\x1A\x0E\x0A\x02S#\x1A\x08One <b>.\
0\x01\
\x12\x1F\x0A\x03d/b\
\x12\x0B\x0A\x03\x00\x00\x01\x12\x02T#\x18\x01\
\x12\x09\x0A\x03\x00\x02\x03\x12\x02S#\
0\x01";

/// The lines of `d/a`.
const LINES: [&str; 2] = ["S T;", "<&\t\0"];

/// The page of `d/a`.
const DUE: &str = "<!DOCTYPE html>
<html lang=\"en\">
<head>
<meta charset=\"utf-8\">
<meta name=\"viewport\" content=\"width=device-width, initial-scale=1\">
<title>d/a</title>
<link rel=\"stylesheet\" href=\"../../pages.css\">
</head>
<body>
<header><nav><a href=\"../../index.html\">All sources</a> <span><a href=\"../../index.html#d/d\">d</a>/<wbr><b>a</b></span></nav></header>
<main>
<pre><a id=\"L1\"></a><a href=\"#U0\" title=\"S#
One &lt;b&gt;.\">S</a> <a href=\"../../src/d/b.html#L1\" title=\"T#\">T</a>;
<a id=\"L2\"></a>&lt;&amp;\t␀</pre>
<aside><h2>Definitions and their uses</h2>
<dl>
<dt id=\"U0\"><a href=\"#L1\"><b>S</b> <span>S#
One &lt;b&gt;.</span></a></dt>
<dd><a href=\"../../src/d/b.html#L1\">d/b:1</a></dd>
</dl>
</aside>
</main>
</body>
</html>
";

/// The same index with details: `S#` is of kind 28, and declared as `message <S>`, `T#` has no documentation, and is
/// declared as `enum "T"`.
const DETAILED: &[u8] = b"\x12@\x0A\x03d/a\
\x12\x0B\x0A\x03\x00\x00\x01\x12\x02S#\x18\x01\
\x12\x09\x0A\x03\x00\x02\x03\x12\x02T#\
\x1A\x1F\x0A\x02S#\x1A\x08One <b>.\x28\x1C:\x0D*\x0Bmessage <S>\
0\x01\
\x121\x0A\x03d/b\
\x12\x0B\x0A\x03\x00\x00\x01\x12\x02T#\x18\x01\
\x12\x09\x0A\x03\x00\x02\x03\x12\x02S#\
\x1A\x10\x0A\x02T#:\x0A*\x08enum \"T\"\
0\x01";

/// The page of `d/a` in it: signatures come before documentation, and are text.
const DETAILED_DUE: &str = "<!DOCTYPE html>
<html lang=\"en\">
<head>
<meta charset=\"utf-8\">
<meta name=\"viewport\" content=\"width=device-width, initial-scale=1\">
<title>d/a</title>
<link rel=\"stylesheet\" href=\"../../pages.css\">
</head>
<body>
<header><nav><a href=\"../../index.html\">All sources</a> <span><a href=\"../../index.html#d/d\">d</a>/<wbr><b>a</b></span></nav></header>
<main>
<pre><a id=\"L1\"></a><a href=\"#U0\" title=\"S#
message &lt;S&gt;
One &lt;b&gt;.\">S</a> <a href=\"../../src/d/b.html#L1\" title=\"T#
enum &quot;T&quot;\">T</a>;
<a id=\"L2\"></a>&lt;&amp;\t␀</pre>
<aside><h2>Definitions and their uses</h2>
<dl>
<dt id=\"U0\"><a href=\"#L1\"><b>S</b> <span>S#
message &lt;S&gt;
One &lt;b&gt;.</span></a></dt>
<dd><a href=\"../../src/d/b.html#L1\">d/b:1</a></dd>
</dl>
</aside>
</main>
</body>
</html>
";

/// The page of the first document, by these sources.
fn page_by(
    alloc: Global,
    queries: &Queries,
    sources: &[Option<OwnedText>],
) -> Result<Vec<u8>, AllocError> {
    let site = Site { queries, sources };
    let mut facts = Facts::new(alloc, queries)?;
    match queries.documents() {
        [document, ..] => {
            let lines = Lines::new(alloc, ColumnUnit::Utf8, &LINES)?;
            let asked = Asked {
                number: 0,
                document,
                lines: &lines,
            };
            page(alloc, &site, &mut facts, &asked)
        }
        [] => Ok(Vec::new(alloc)),
    }
}

/// The page of the first document.
fn taken(alloc: Global, queries: &Queries) -> Result<Vec<u8>, AllocError> {
    let sources = [
        Some(OwnedText::copy_of(alloc, "S T;\n<&\t\0")?),
        Some(OwnedText::copy_of(alloc, "T S")?),
    ];
    page_by(alloc, queries, &sources)
}

/// Sees the page. After want of memory it is asked for again, and the second answer counts.
fn see_page(
    rt: &impl Abort,
    alloc: Global,
    queries: &Queries,
    due: &str,
) -> Result<(), AllocError> {
    let page = match taken(alloc, queries) {
        Ok(page) => page,
        Err(_) => taken(alloc, queries)?,
    };
    see(rt, page.as_slice() == due.as_bytes(), "the page");
    Ok(())
}

#[test]
fn a_page_is_that_due(rt: HostRuntime) -> Result<(), Fail> {
    for (index, due) in [(INDEX, DUE), (DETAILED, DETAILED_DUE)] {
        let queries = queries(&rt, rt.alloc(), index)?;
        see_page(&rt, rt.alloc(), &queries, due)?;
    }
    Ok(())
}
