//! A file that is made where the standard streams are closed, by a system that takes a few bytes at once, and that
//! may refuse another file in a folder, or its move.

use crate::numbered::{Counting, Taken};
use crate::outputs::holds;
use crate::roots::see;
use source_files::{OutFile, OutPlace};
use std::alloc::Global;
use std::cell::Cell;
use std::fs;
use std::io::ErrorKind;
use std::process::Abort;
use std::rt::Files;
use std::test::Fail;
use streams::{Sink, write_all};

/// Whether eleven bytes are written to a part, the last ones in three writes.
fn is_written<W: Sink>(part: &mut W) -> bool {
    part.write(b"ab") == Ok(2) && part.write(b"c") == Ok(1) && write_all(part, b"defghijk").is_ok()
}

/// What a system refuses: another file, and how a move; and whether the bytes are put at the place all the same.
type Row = (bool, Option<ErrorKind>, bool);

const SYSTEMS: [Row; 5] = [
    (false, None, true),
    (true, None, true),
    (false, Some(ErrorKind::ResourceBusy), true),
    (false, Some(ErrorKind::PermissionDenied), true),
    (false, Some(ErrorKind::StorageFull), false),
];

/// Sees that a part is written, and put if it is due to be. No after want of memory.
fn sees_put(
    rt: &impl Abort,
    alloc: Global,
    place: &mut OutFile<'_, Counting<'_, HostRuntime>>,
    due: bool,
) -> bool {
    let Ok(mut part) = place.begin(alloc) else {
        return false;
    };
    see(rt, is_written(&mut part), "written");
    see(rt, place.put(part).is_ok() == due, "put");
    true
}

/// Sees what is at the place, and that nothing is left beside it.
fn see_held<R: Files + Abort>(rt: &R, due: bool) {
    let held = if due {
        b"abcdefghijk".as_slice()
    } else {
        b"what was there".as_slice()
    };
    see(rt, holds(rt, "beside.scip", held), "what is there");
    let is_left = holds(rt, ".beside.scip.protoscip-0", b"abcdefghijk");
    see(rt, !is_left, "what is left");
}

/// Sees what is made if the system refuses this.
fn see_made<R: Files + Abort>(
    rt: &R,
    system: &HostRuntime,
    alloc: Global,
    taken: &Taken,
    row: &Row,
) {
    let system = Counting {
        system,
        taken,
        is_closed: row.0,
        stays: row.1,
    };
    if sees_put(rt, alloc, &mut OutFile::new(&system, "beside.scip"), row.2) {
        see_held(rt, row.2);
    }
}

#[test]
fn made_beside_closed_streams(rt: HostRuntime) -> Result<(), Fail> {
    let taken = Cell::new(0);
    for row in &SYSTEMS {
        fs::write(&rt, "beside.scip", "what was there")?;
        see_made(&rt, &rt, rt.alloc(), &taken, row);
    }
    Ok(fs::remove_file(&rt, "beside.scip")?)
}
