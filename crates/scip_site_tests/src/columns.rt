//! Columns, of `scip.proto`'s own example and of a range over several lines.

use crate::calls::see;
use scip_pages::{ColumnUnit, Line, Span, offset_of, span_on, unit_of};
use scip_records::Range;
use std::test::Fail;

#[test]
fn woo_begins_where_the_schema_says(rt: HostRuntime) -> Result<(), Fail> {
    for (encoding, column) in [(1, 5), (2, 3), (3, 2)] {
        let offset = match unit_of(encoding) {
            Some(unit) => offset_of(unit, "🚀 Woo".as_bytes(), column),
            None => None,
        };
        see(&rt, offset == Some(5), "Woo");
    }
    see(&rt, unit_of(0).is_none() && unit_of(4).is_none(), "no unit");
    Ok(())
}

/// A range from line 1, column 1, to line 3, column 1, marks line 2 from its start to its end.
#[test]
fn a_line_between_marks_is_marked_whole(rt: HostRuntime) -> Result<(), Fail> {
    let due = Span {
        start: 0,
        end: 4,
        occurrence: 7,
    };
    let span = match Range::new(1, 1, 3, 1) {
        Some(range) => span_on(2, &Line::new(ColumnUnit::Utf8, b"abcd"), 7, range),
        None => None,
    };
    see(&rt, span == Some(due), "part");
    Ok(())
}
