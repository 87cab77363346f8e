//! Paths of pages.

use crate::calls::see;
use scip_pages::is_path_below;
use std::test::Fail;

/// The last row reads: by its second `..` the path leads out of the folder that it is below.
const PATHS: [(&str, bool); 6] = [
    ("a/b c/%#.proto", true),
    ("a//b", false),
    ("", false),
    ("/../a", false),
    ("./a", false),
    ("a/../..", false),
];

#[test]
fn paths_that_leave_the_folder_are_refused(rt: HostRuntime) -> Result<(), Fail> {
    for (path, is_below) in PATHS {
        see(&rt, is_path_below(path) == is_below, path);
    }
    Ok(())
}
