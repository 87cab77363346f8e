//! URLs of lines of pages.

use crate::calls::see;
use scip_pages::push_url;
use std::test::Fail;

/// The page that names, the page that is named, a line of it, and the URL. The first row reads: a page that is two
/// folders down names line 3 of a page beside these folders.
const ROWS: [(&str, &str, usize, &str); 2] = [
    ("x/y/a.html", "b.html", 3, "../../b.html#L3"),
    ("a.html", "é b/%#?.html", 7, "%C3%A9%20b/%25%23%3F.html#L7"),
];

#[test]
fn urls_lead_from_page_to_page(rt: HostRuntime) -> Result<(), Fail> {
    for (from, to, line, due) in &ROWS {
        let mut url = Vec::new(rt.alloc());
        push_url(rt.alloc(), &mut url, *from, *to, *line)?;
        see(&rt, url.as_slice() == due.as_bytes(), *due);
    }
    Ok(())
}
