//! A folder whose names take more room than is read at once.

use crate::roots::{read_again, remove_again, see};
use index_pool::Workers;
use source_files::{ReadFiles, SystemFiles};
use std::alloc::Global;
use std::fs;
use std::process::Abort;
use std::rt::Files;
use std::sync::Wait;
use std::test::Fail;
use std::thread::Threads;

/// So many sources are made, with names of 206 bytes each: 20 KiB of them.
const SOURCES: usize = 100;

/// Makes the sources.
fn make_sources<S: Files>(system: &S, alloc: Global) -> Result<(), Fail> {
    for number in 0..SOURCES {
        let path = format!(in alloc; "wide/{number:0>200}.proto")?;
        fs::write(system, path.as_str(), "")?;
    }
    Ok(())
}

/// How many sources are read below the folder.
fn count_of<R: Threads + Wait, F: ReadFiles + Sync>(
    rt: &R,
    alloc: Global,
    workers: Workers,
    files: &F,
) -> usize {
    match read_again(rt, alloc, workers, files, "wide") {
        Ok(below) => below.files.len(),
        Err(_) => 0,
    }
}

/// Sees that all are, on one worker and on more.
fn see_wide<R: Threads + Wait + Abort, F: ReadFiles + Sync>(rt: &R, alloc: Global, files: &F) {
    for count in &[1usize, 3] {
        if let Some(workers) = Workers::new(*count) {
            let found = count_of(rt, alloc, workers, files);
            see(rt, found == SOURCES, "all sources");
        }
    }
}

#[test]
fn all_of_a_wide_folder(rt: HostRuntime) -> Result<(), Fail> {
    // What an earlier run has left that didn't come to its end.
    let _ = remove_again(&rt, "wide");
    fs::create_dir(&rt, "wide")?;
    make_sources(&rt, rt.alloc())?;
    see_wide(&rt, rt.alloc(), &SystemFiles::new(&rt));
    Ok(remove_again(&rt, "wide")?)
}
