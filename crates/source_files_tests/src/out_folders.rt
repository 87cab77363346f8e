//! Folders that are made beside their places, and put there.

use crate::outputs::holds;
use crate::roots::{remove_again, see};
use source_files::{FolderPlace, MakeFiles, OutFile};
use std::alloc::{AllocError, Global};
use std::fs::Permissions;
use std::os::unix::fs::{MetadataExt, PermissionsExt};
use std::process::Abort;
use std::rt::Files;
use std::test::Fail;
use std::{fs, io};

/// A folder for the place with a path. None after want of memory, twice.
fn folder_of<P: FolderPlace>(alloc: Global, places: &P, path: &str) -> Option<P::Folder> {
    match places.begin_folder(alloc, path) {
        Ok(folder) => Some(folder),
        Err(AllocError) => places.begin_folder(alloc, path).ok(),
    }
}

/// Whether a file is made, at the second attempt after want of memory.
fn is_made<O: MakeFiles>(folder: &mut O, path: &str, bytes: &[u8]) -> bool {
    match folder.make_file(path, bytes) {
        Ok(made) => made,
        Err(AllocError) => folder.make_file(path, bytes) == Ok(true),
    }
}

/// A place, whether it is an empty folder before, and where a file `d/a` of a folder for it is until that is put there.
/// The third row reads: of folders on the way that aren't there, the first is made beside its place.
type Row = (&'static str, bool, &'static str);

const PLACES: [Row; 5] = [
    ("site", false, ".site.protoscip-0/d/a"),
    ("empty/", true, ".empty.protoscip-0/d/a"),
    ("way/to/site", false, ".way.protoscip-0/to/site/d/a"),
    ("./site", true, "./.site.protoscip-0/d/a"),
    ("way/", false, ".way.protoscip-0/d/a"),
];

/// Whether a file in the folder at a path holds three bytes.
fn is_there<S: Files>(system: &S, path: &str) -> bool {
    match path.trim_end_matches('/') {
        "empty" => holds(system, "empty/d/a", b"abc"),
        "way/to/site" => holds(system, "way/to/site/d/a", b"abc"),
        "way" => holds(system, "way/d/a", b"abc"),
        _ => holds(system, "site/d/a", b"abc"),
    }
}

/// The first name in a path.
fn first_name(path: &str) -> &str {
    for name in path.split('/') {
        if name != "." {
            return name;
        }
    }
    ""
}

/// Sees that a folder for a place is beside it until it is put there.
fn see_put<R: Files + Abort, P: FolderPlace>(
    rt: &R,
    alloc: Global,
    places: &mut P,
    path: &str,
    beside: &str,
) -> bool {
    let Some(mut folder) = folder_of(alloc, places, path) else {
        return false;
    };
    see(rt, is_made(&mut folder, "d/a", b"abc"), "made");
    see(rt, holds(rt, beside, b"abc"), "beside");
    see(rt, !is_there(rt, path), "not there");
    see(rt, places.put_folder(path, folder) == Ok(()), "put");
    see(rt, is_there(rt, path), "there");
    see(rt, !holds(rt, beside, b"abc"), "moved");
    true
}

/// Makes an empty folder with a mode of its own.
fn make_empty<S: Files>(system: &S, path: &str) -> io::Result<()> {
    fs::create_dir(system, path)?;
    fs::set_permissions(system, path, Permissions::from_mode(0o705))
}

/// Sees the mode of an empty folder in whose place one was put.
fn see_mode<R: Files + Abort>(rt: &R, path: &str, is_empty: bool) -> io::Result<()> {
    let mode = fs::metadata(rt, path)?.mode() & 0o777;
    see(rt, !is_empty || mode == 0o705, "its mode");
    Ok(())
}

/// Sees all that of a row.
fn see_place<R: Files + Abort>(rt: &R, alloc: Global, row: &Row) -> io::Result<()> {
    let (path, is_empty, beside) = *row;
    if is_empty {
        make_empty(rt, path)?;
    }
    if see_put(rt, alloc, &mut OutFile::new(rt, ""), path, beside) {
        see_mode(rt, path, is_empty)?;
    }
    Ok(())
}

#[test]
fn put_when_they_are_whole(rt: HostRuntime) -> Result<(), Fail> {
    for row in &PLACES {
        see_place(&rt, rt.alloc(), row)?;
        let _ = remove_again(&rt, first_name(row.0));
    }
    Ok(())
}

/// Sees what is put below a folder that another one makes meanwhile.
fn see_put_below<R: Files + Abort, P: FolderPlace>(
    rt: &R,
    alloc: Global,
    places: &mut P,
) -> io::Result<()> {
    let Some(mut folder) = folder_of(alloc, places, "new/to/site") else {
        return Ok(());
    };
    see(rt, is_made(&mut folder, "d/a", b"abc"), "made");
    fs::create_dir_all(rt, "new/other")?;
    if places.put_folder("new/to/site", folder) == Ok(()) {
        see(rt, holds(rt, "new/to/site/d/a", b"abc"), "there");
        see(
            rt,
            fs::metadata(rt, "new/other").is_ok(),
            "the other one stays",
        );
    }
    Ok(())
}

/// Another one makes a folder on the way meanwhile, with something in it: what is behind it is put there.
#[test]
fn put_below_a_new_folder(rt: HostRuntime) -> Result<(), Fail> {
    see_put_below(&rt, rt.alloc(), &mut OutFile::new(&rt, ""))?;
    let _ = remove_again(&rt, "new");
    Ok(())
}

/// Places, and where a folder for each is until that is put there.
const LEFT: [(&str, &str); 2] = [("left", ".left.protoscip-0"), ("gone", ".gone.protoscip-0")];

/// Sees that a folder which is given up isn't there. Whether it is removed, too.
fn sees_given_up<R: Files + Abort, P: FolderPlace>(
    rt: &R,
    alloc: Global,
    places: &P,
    path: &str,
    beside: &str,
) -> bool {
    let Some(mut folder) = folder_of(alloc, places, path) else {
        return false;
    };
    see(rt, is_made(&mut folder, "d/a", b"abc"), "made");
    see(rt, !is_made(&mut folder, "d/a/b", b"abc"), "refused");
    places.leave_folder(folder);
    see(rt, fs::symlink_metadata(rt, path).is_err(), "not there");
    fs::symlink_metadata(rt, beside).is_err()
}

/// Want of memory may keep one from being removed.
#[test]
fn given_up(rt: HostRuntime) {
    let places = OutFile::new(&rt, "");
    let mut is_removed = false;
    for (path, beside) in &LEFT {
        is_removed |= sees_given_up(&rt, rt.alloc(), &places, *path, *beside);
    }
    see(&rt, is_removed, "removed");
}

/// Whether nothing is at two paths.
fn are_gone<S: Files>(system: &S, one: &str, other: &str) -> bool {
    fs::symlink_metadata(system, one).is_err() && fs::symlink_metadata(system, other).is_err()
}

/// Sees that files are made in place. Whether they are removed once the folder is given up.
fn sees_made_in_place<R: Files + Abort, P: FolderPlace>(
    rt: &R,
    alloc: Global,
    places: &P,
    path: &str,
) -> bool {
    let Some(mut folder) = folder_of(alloc, places, path) else {
        return false;
    };
    see(rt, is_made(&mut folder, "here/a", b"abc"), "made");
    see(rt, is_made(&mut folder, "top", b"abc"), "made on top");
    see(rt, holds(rt, "here/a", b"abc"), "in place");
    places.leave_folder(folder);
    are_gone(rt, "here", "top")
}

/// Sees that a file stays once the folder is put.
fn see_stays<R: Files + Abort, P: FolderPlace>(
    rt: &R,
    alloc: Global,
    places: &mut P,
) -> io::Result<()> {
    let Some(mut folder) = folder_of(alloc, places, ".") else {
        return Ok(());
    };
    see(rt, is_made(&mut folder, "stays", b"abc"), "made again");
    see(rt, places.put_folder(".", folder) == Ok(()), "put");
    see(rt, holds(rt, "stays", b"abc"), "stays");
    fs::remove_file(rt, "stays")
}

/// The folder where the tests run is no place that can be replaced: files are made in it, and removed, unless memory
/// runs out.
#[test]
fn made_in_place(rt: HostRuntime) -> Result<(), Fail> {
    let mut places = OutFile::new(&rt, "");
    let mut is_removed = false;
    for path in &["", "."] {
        is_removed |= sees_made_in_place(&rt, rt.alloc(), &places, *path);
    }
    see(&rt, is_removed, "removed");
    Ok(see_stays(&rt, rt.alloc(), &mut places)?)
}

/// Sees that a folder isn't put in the place of one with an entry, and that this one stays.
fn see_refused<R: Files + Abort, P: FolderPlace>(rt: &R, places: &mut P, folder: P::Folder) {
    see(rt, places.put_folder("mine", folder).is_err(), "refused");
    see(rt, holds(rt, "mine/d", b"mine"), "what is there stays");
}

/// Another one makes a file in an empty folder: before a folder for it is begun, and behind that.
#[test]
fn another_one_is_first(rt: HostRuntime) -> Result<(), Fail> {
    let mut places = OutFile::new(&rt, "");
    for is_before in &[true, false] {
        fs::create_dir(&rt, "mine")?;
        if *is_before {
            fs::write(&rt, "mine/d", "mine")?;
        }
        if let Some(mut folder) = folder_of(rt.alloc(), &places, "mine") {
            let made = is_made(&mut folder, "e/a", b"abc");
            see(&rt, made != *is_before, "made, or not");
            fs::write(&rt, "mine/d", "mine")?;
            see_refused(&rt, &mut places, folder);
        }
        remove_again(&rt, "mine")?;
    }
    Ok(())
}

/// Sees that files which others have made in place aren't replaced, nor removed with those that are made.
fn see_others<R: Files + Abort, P: FolderPlace>(
    rt: &R,
    alloc: Global,
    places: &P,
) -> io::Result<()> {
    let Some(mut folder) = folder_of(alloc, places, ".") else {
        return Ok(());
    };
    fs::write(rt, "top", "mine")?;
    see(rt, !is_made(&mut folder, "top", b"abc"), "not made");
    see(rt, is_made(&mut folder, "below/a", b"abc"), "made");
    fs::write(rt, "below/b", "mine")?;
    places.leave_folder(folder);
    see(rt, holds(rt, "top", b"mine"), "it stays");
    see(rt, holds(rt, "below/b", b"mine"), "and below");
    see(rt, !holds(rt, "below/a", b"abc"), "what was made goes");
    fs::remove_file(rt, "top")
}

#[test]
fn what_others_make_in_place_stays(rt: HostRuntime) -> Result<(), Fail> {
    see_others(&rt, rt.alloc(), &OutFile::new(&rt, ""))?;
    let _ = remove_again(&rt, "below");
    Ok(())
}
