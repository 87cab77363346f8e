//! Files that are written beside their places, and put there.

use crate::roots::{remove_again, see};
use source_files::{Blamed, Cause, MakeFiles, OutFile, OutPlace};
use std::alloc::{AllocError, Global};
use std::fs::{File, Permissions};
use std::io::Read;
use std::os::unix::fs::{MetadataExt, PermissionsExt};
use std::process::Abort;
use std::rt::Files;
use std::test::Fail;
use std::{fs, io};
use streams::{Failed, Sink};

/// Whether a file that can be read holds these bytes and no more. Takes no memory.
fn is_held<S: Files>(system: &S, path: &str, due: &[u8]) -> io::Result<bool> {
    let mut room = [0u8; 32];
    let mut file = File::open(system, path)?;
    let count = file.read(&mut room)?;
    Ok(&room[..count] == due)
}

/// Whether a file holds these bytes and no more.
pub(crate) fn holds<S: Files>(system: &S, path: &str, due: &[u8]) -> bool {
    match is_held(system, path, due) {
        Ok(is) => is,
        Err(_) => false,
    }
}

/// A part of a place. None after want of memory, twice.
pub(crate) fn part_of<P: OutPlace>(alloc: Global, place: &P) -> Option<P::Part> {
    match place.begin(alloc) {
        Ok(part) => Some(part),
        Err(AllocError) => place.begin(alloc).ok(),
    }
}

/// Whether three bytes can be written to a part, in two writes.
fn is_written<W: Sink>(part: &mut W) -> bool {
    part.write(b"ab") == Ok(2) && part.write(b"c") == Ok(1)
}

/// The other file, in which a part of `made.scip` is until it is put there.
const BESIDE: &str = ".made.scip.protoscip-0";

/// Sees that a part is beside its place until it is put there.
fn see_whole<R: Files + Abort, P: OutPlace>(rt: &R, alloc: Global, place: &mut P) {
    if let Some(mut part) = part_of(alloc, place) {
        see(rt, !holds(rt, BESIDE, b""), "nothing is made yet");
        see(rt, is_written(&mut part), "written");
        see(rt, holds(rt, "made.scip", b"what was there"), "not there");
        see(rt, holds(rt, BESIDE, b"abc"), "beside");
        see(rt, place.put(part) == Ok(()), "put");
        see(rt, holds(rt, "made.scip", b"abc"), "there");
        see(rt, !holds(rt, BESIDE, b"abc"), "moved");
    }
}

#[test]
fn put_when_it_is_whole(rt: HostRuntime) -> Result<(), Fail> {
    fs::write(&rt, "made.scip", "what was there")?;
    see_whole(&rt, rt.alloc(), &mut OutFile::new(&rt, "made.scip"));
    Ok(fs::remove_file(&rt, "made.scip")?)
}

/// Sees that a part which is given up is removed, and what was there is kept.
fn see_given_up<R: Files + Abort, P: OutPlace>(rt: &R, alloc: Global, place: &P) {
    if let Some(mut part) = part_of(alloc, place) {
        see(rt, is_written(&mut part), "written");
        place.leave(part);
        see(rt, holds(rt, "kept.scip", b"what was there"), "kept");
        see(rt, !holds(rt, ".kept.scip.protoscip-0", b"abc"), "removed");
    }
}

#[test]
fn given_up(rt: HostRuntime) -> Result<(), Fail> {
    fs::write(&rt, "kept.scip", "what was there")?;
    see_given_up(&rt, rt.alloc(), &OutFile::new(&rt, "kept.scip"));
    Ok(fs::remove_file(&rt, "kept.scip")?)
}

/// Whether three bytes are put at a place. None after want of memory.
fn is_put<P: OutPlace>(alloc: Global, place: &mut P) -> Option<bool> {
    let mut part = part_of(alloc, place)?;
    Some(is_written(&mut part) && place.put(part) == Ok(()))
}

/// Makes a file with a mode of its own, and a link to it.
fn make_linked<S: Files>(system: &S) -> io::Result<()> {
    fs::write(system, "linked.scip", "what was there")?;
    fs::set_permissions(system, "linked.scip", Permissions::from_mode(0o604))?;
    system.symlink("linked.scip", "link.scip")
}

/// Sees that what is put at a link is in its file.
fn see_put<R: Files + Abort, P: OutPlace>(rt: &R, alloc: Global, place: &mut P) {
    let is = is_put(alloc, place);
    see(rt, is != Some(false), "put");
    if is == Some(true) {
        see(rt, holds(rt, "linked.scip", b"abc"), "its file");
    }
}

/// Sees that the link is still one, and its file has its mode.
fn see_linked<R: Files + Abort>(rt: &R) -> io::Result<()> {
    let link = fs::symlink_metadata(rt, "link.scip")?;
    see(rt, link.is_symlink(), "a link");
    let there = fs::metadata(rt, "linked.scip")?;
    see(rt, there.mode() & 0o777 == 0o604, "its mode");
    Ok(())
}

#[test]
fn a_link_stays_and_its_file_has_its_mode(rt: HostRuntime) -> Result<(), Fail> {
    make_linked(&rt)?;
    see_put(&rt, rt.alloc(), &mut OutFile::new(&rt, "link.scip"));
    see_linked(&rt)?;
    fs::remove_file(&rt, "link.scip")?;
    Ok(fs::remove_file(&rt, "linked.scip")?)
}

/// Whether two parts of a place can be written side by side, and put there, the second one first. None after want of
/// memory.
fn are_put<P: OutPlace>(alloc: Global, place: &mut P) -> Option<bool> {
    let mut one = part_of(alloc, place)?;
    let mut other = part_of(alloc, place)?;
    let are_written = is_written(&mut one) && other.write(b"other") == Ok(5);
    let is_put = place.put(other) == Ok(());
    Some(are_written && is_put && place.put(one) == Ok(()))
}

/// Sees that both can be, and what is there then.
fn see_both<R: Files + Abort, P: OutPlace>(rt: &R, alloc: Global, place: &mut P) -> io::Result<()> {
    let are = are_put(alloc, place);
    see(rt, are != Some(false), "both");
    if are == Some(true) {
        see(rt, holds(rt, "both.scip", b"abc"), "the first one");
        fs::remove_file(rt, "both.scip")?;
    }
    Ok(())
}

#[test]
fn two_at_once(rt: HostRuntime) -> Result<(), Fail> {
    Ok(see_both(&rt, rt.alloc(), &mut OutFile::new(&rt, "both.scip"))?)
}

/// A folder, a file in no folder, and no name; and why they can't be made.
const REFUSED: [(&str, Cause); 3] = [
    (".", Cause::IsFolder),
    ("nowhere/out", Cause::NotThere),
    ("", Cause::NotThere),
];

/// Whether nothing can be written to the part of a place, and why is known once this is given up.
fn is_refused<P: OutPlace + Blamed>(alloc: Global, place: &P, cause: Cause) -> bool {
    match part_of(alloc, place) {
        Some(mut part) => {
            let is_refused = part.write(b"ab") == Err(Failed);
            place.leave(part);
            is_refused && place.reason() == Some(cause)
        }
        None => true,
    }
}

/// Whether a part to which nothing is written can't be put at a place, and why is known.
fn is_not_put<P: OutPlace + Blamed>(alloc: Global, place: &mut P, cause: Cause) -> bool {
    match part_of(alloc, place) {
        Some(part) => place.put(part) == Err(Failed) && place.reason() == Some(cause),
        None => true,
    }
}

/// Sees that nothing can be made at a place, and why is known afterwards.
fn see_refused<P: OutPlace + Blamed>(
    rt: &impl Abort,
    alloc: Global,
    place: &mut P,
    path: &str,
    cause: Cause,
) {
    see(rt, place.reason().is_none(), path);
    see(rt, is_refused(alloc, place, cause), path);
    see(rt, is_not_put(alloc, place, cause), path);
}

#[test]
fn what_the_system_does_not_make(rt: HostRuntime) {
    for (path, cause) in &REFUSED {
        let mut place = OutFile::new(&rt, path);
        see_refused(&rt, rt.alloc(), &mut place, path, *cause);
    }
}

/// Sees why nothing can be made at a place whose folder isn't there, and that no cause is known once it is.
fn see_causes<R: Files + Abort, P: OutPlace + Blamed>(
    rt: &R,
    alloc: Global,
    place: &mut P,
) -> io::Result<()> {
    see(rt, is_refused(alloc, place, Cause::NotThere), "no folder");
    fs::create_dir(rt, "soon")?;
    let is = is_put(alloc, place);
    see(rt, is != Some(false), "put");
    if is == Some(true) {
        see(rt, place.reason().is_none(), "no cause");
    }
    Ok(())
}

#[test]
fn no_cause_after_a_success(rt: HostRuntime) -> Result<(), Fail> {
    see_causes(&rt, rt.alloc(), &mut OutFile::new(&rt, "soon/out"))?;
    Ok(remove_again(&rt, "soon")?)
}

/// Paths, and whether the file `same.proto` has them: as it is spelled, by a folder, a link and another name of it; and
/// of another file, a folder and nothing.
const NAMES: [(&str, bool); 7] = [
    ("same.proto", true),
    (".//./same.proto", true),
    ("link.proto", true),
    ("other.proto", true),
    ("same.scip", false),
    (".", false),
    ("none.proto", false),
];

/// Makes two files, a link to the first one and another name of it.
fn make_same<S: Files>(system: &S) -> io::Result<()> {
    fs::write(system, "same.proto", "ab")?;
    fs::write(system, "same.scip", "ab")?;
    system.symlink("same.proto", "link.proto")?;
    system.hard_link("same.proto", "other.proto")
}

/// Sees whether a place has `same.proto`, and may be a source; and the same place if links are followed.
fn see_name<P: OutPlace>(rt: &impl Abort, place: &P, through_links: &P, path: &str, due: bool) {
    see(rt, place.is_file("same.proto") == due, path);
    see(rt, place.may_be_source() || !due, path);
    let is_file_there = path != "." && path != "none.proto";
    see(rt, through_links.may_be_source() == is_file_there, path);
}

/// Removes the two files, the link and the other name.
fn remove_same<S: Files>(system: &S) -> io::Result<()> {
    for name in &["same.proto", "same.scip", "link.proto", "other.proto"] {
        fs::remove_file(system, *name)?;
    }
    Ok(())
}

#[test]
fn one_file_by_several_names(rt: HostRuntime) -> Result<(), Fail> {
    make_same(&rt)?;
    for (path, due) in &NAMES {
        let place = OutFile::new(&rt, path);
        see_name(
            &rt,
            &place,
            &OutFile::following(&rt, path, true),
            path,
            *due,
        );
    }
    see(
        &rt,
        !OutFile::new(&rt, "same.scip").may_be_source(),
        "same.scip",
    );
    Ok(remove_same(&rt)?)
}

/// Paths where nothing is, and whether they name the file `none.scip` in the folder `shelf`.
const FREE: [(&str, bool); 6] = [
    ("shelf/none.scip", true),
    ("shelf/./none.scip", true),
    ("./shelf//none.scip", true),
    ("shelf/other.scip", false),
    ("none.scip", false),
    ("none/none.scip", false),
];

#[test]
fn one_file_that_is_not_there(rt: HostRuntime) -> Result<(), Fail> {
    fs::create_dir(&rt, "shelf")?;
    for (path, due) in &FREE {
        let place = OutFile::new(&rt, path);
        see(&rt, place.is_file("shelf/none.scip") == *due, path);
    }
    fs::remove_dir(&rt, "shelf")?;
    Ok(())
}

/// Makes a file. None after want of memory.
fn makes<S: Files>(files: &mut OutFile<'_, S>, path: &str, bytes: &[u8]) -> Option<bool> {
    match files.make_file(path, bytes) {
        Ok(made) => Some(made),
        Err(AllocError) => None,
    }
}

/// Paths, in the order in which files are made there, and why they can't be, if they can't. The fourth reads: below a
/// file there can't be one.
const MADE: [(&str, Option<Cause>); 7] = [
    ("shelf.txt", None),
    ("shelf/one.txt", None),
    ("shelf/deep/er/two.txt", None),
    ("shelf/one.txt/three.txt", Some(Cause::NoFolder)),
    ("shelf/deep", Some(Cause::IsFolder)),
    ("", Some(Cause::NotThere)),
    ("shelf/one.txt", None),
];

/// The first path at which not what is due is made of these bytes.
fn first_other<S: Files>(
    system: &S,
    files: &mut OutFile<'_, S>,
    bytes: &[u8],
) -> Option<&'static str> {
    for (path, cause) in &MADE {
        let can_be = cause.is_none();
        let made = match makes(files, *path, bytes) {
            None => makes(files, *path, bytes),
            made => made,
        };
        if made != Some(can_be) || (can_be && !holds(system, *path, bytes)) {
            return Some(*path);
        }
        if files.reason() != *cause {
            return Some(*path);
        }
    }
    None
}

/// Sees that long bytes are made at each path, and then short ones.
fn see_made<R: Files + Abort>(rt: &R, files: &mut OutFile<'_, R>) {
    for bytes in [b"longer".as_slice(), b"ab".as_slice()] {
        let other = first_other(rt, files, bytes);
        see(rt, other.is_none(), other.unwrap_or(""));
    }
}

#[test]
fn made_with_their_folders(rt: HostRuntime) -> Result<(), Fail> {
    see_made(&rt, &mut OutFile::new(&rt, ""));
    remove_again(&rt, "shelf")?;
    Ok(fs::remove_file(&rt, "shelf.txt")?)
}
