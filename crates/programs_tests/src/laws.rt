//! Laws, called at files in memory and at the options of a command line, and what the command line names.

use crate::files::Files;
use crate::shared::{see, words_of};
use command_line::{Request, request_of};
use programs::{headline_of_options, out_path};
use std::alloc::{AllocError, Global};
use std::test::Fail;

/// Whether an index is asked for that goes to `out`.
fn is_named(alloc: Global, asked: &Result<Request, AllocError>) -> bool {
    if let Ok(Request::Index(given)) = asked {
        headline_of_options(&Files { alloc }, &given.options);
    }
    out_path(asked) == "out"
}

/// Whether the words `index api out` ask for an index that goes to `out`.
fn is_asked(alloc: Global) -> Result<bool, AllocError> {
    let words = words_of(alloc, "index api out")?;
    let asked = request_of(alloc, false, &words);
    Ok(is_named(alloc, &asked))
}

#[test]
fn laws_of_options(rt: HostRuntime) -> Result<(), Fail> {
    let is = is_asked(rt.alloc())? || is_asked(rt.alloc())?;
    see(&rt, is, "an index");
    Ok(())
}
