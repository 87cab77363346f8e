//! Files that are read a few bytes at once.

use crate::numbered::Counting;
use crate::roots::see;
use source_files::{ReadFiles, SystemFiles};
use std::alloc::{AllocError, Global};
use std::cell::Cell;
use std::fs;
use std::rt::Files;
use std::test::Fail;

/// Whether a file is read whole, by both calls. None after want of memory.
fn is_read_whole<S: Files + AllocGlobal + Clone + Drop>(
    files: &SystemFiles<'_, S>,
    alloc: Global,
    path: &str,
    due: &[u8],
) -> Option<bool> {
    match (files.read_file(alloc, path), files.read_source(alloc, path)) {
        (Ok(Some(file)), Ok(Some(source))) => {
            Some(file.as_slice() == due && source.as_slice() == due)
        }
        (Err(AllocError), _) | (_, Err(AllocError)) => None,
        _ => Some(false),
    }
}

#[test]
fn read_by_short_reads(rt: HostRuntime) -> Result<(), Fail> {
    let alloc = rt.alloc();
    let text = b"more than is read at once";
    fs::write(&rt, "short.proto", "more than is read at once")?;
    let taken = Cell::new(0b111);
    let system = Counting {
        system: &rt,
        taken: &taken,
        is_closed: false,
        stays: None,
    };
    let files = SystemFiles::new(&system);
    let whole = match is_read_whole(&files, alloc, "short.proto", text) {
        None => is_read_whole(&files, alloc, "short.proto", text),
        whole => whole,
    };
    see(&rt, whole == Some(true), "read whole");
    Ok(fs::remove_file(&rt, "short.proto")?)
}
