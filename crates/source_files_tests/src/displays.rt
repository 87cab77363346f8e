//! How faults are displayed.

use crate::roots::see;
use source_files::{ListFault, LoadFault};
use std::alloc::{AllocError, Global};
use std::fmt::Display;
use std::test::Fail;

/// What the faults are displayed as, in the order of `fault_of`.
const SENTENCES: [&str; 5] = [
    "api/a.proto can't be read",
    "there are more files than a tree has",
    "api/a.proto isn't a good path",
    "two sources have the path api/a.proto",
    "memory ran out",
];

/// The fault with a number, of this path if it has one.
fn fault_of(number: usize, path: String) -> LoadFault {
    match number {
        0 => LoadFault::Unreadable(path),
        1 => LoadFault::TooMany,
        2 => LoadFault::BadPath(path),
        3 => LoadFault::SamePath(path),
        _ => LoadFault::Memory,
    }
}

/// Whether a fault is displayed as this sentence.
fn is_displayed<F: Display>(alloc: Global, fault: &F, sentence: &str) -> Result<bool, AllocError> {
    let text = format!(in alloc; "{fault}")?;
    Ok(text.as_str() == sentence)
}

/// Whether the fault with a number is.
fn is_displayed_of(alloc: Global, number: usize, sentence: &str) -> Result<bool, AllocError> {
    let path = String::from_str(alloc, "api/a.proto")?;
    is_displayed(alloc, &fault_of(number, path), sentence)
}

#[test]
fn load_faults_are_displayed_as_sentences(rt: HostRuntime) -> Result<(), Fail> {
    for (number, sentence) in SENTENCES.iter().enumerate() {
        let is = is_displayed_of(rt.alloc(), number, *sentence)?;
        see(&rt, is, sentence);
    }
    Ok(())
}

/// Faults of a list, and what they are displayed as.
const LISTS: [(ListFault, &str); 5] = [
    (
        ListFault::TooLong,
        "a list of sources has more than 67108864 bytes",
    ),
    (ListFault::NotUtf8(3), "line 3 isn't UTF-8"),
    (ListFault::BadPath(4), "line 4 isn't a good path"),
    (ListFault::TooMany, "a list names more than 65536 paths"),
    (ListFault::Memory, "memory ran out"),
];

#[test]
fn list_faults_are_displayed_as_sentences(rt: HostRuntime) -> Result<(), Fail> {
    for (fault, sentence) in &LISTS {
        see(&rt, is_displayed(rt.alloc(), fault, *sentence)?, *sentence);
    }
    Ok(())
}
