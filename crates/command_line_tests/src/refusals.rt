//! Command lines that are refused, in the words of `clap` of Rust: no contract says the texts.

use crate::asked::{By, asked, see};
use std::alloc::{AllocError, Global};
use std::process::Abort;
use std::test::Fail;

/// What is typed behind `protoscip`, and how the text begins that refuses it; an empty line ends each. The second reads:
/// `protoscip nope` is refused, since there is no subcommand `nope`.
const REFUSALS: &str = "--
error: 'protoscip' requires a subcommand but one was not provided

nope
error: unrecognized subcommand 'nope'

--nope
error: unexpected argument '--nope' found

dump input.proto
error: unexpected argument 'input.proto' found

index --workers 2
error: the following required arguments were not provided:
  <ROOT>
  <OUT>

shell
error: the following required arguments were not provided:
  <ROOT>

query --more
error: the following required arguments were not provided:
  <INDEX>...

snapshot a
error: the following required arguments were not provided:
  <ROOT>

join all
error: the following required arguments were not provided:
  <INDEX>...

";

/// Sees that each command line of such a table is refused so.
pub(crate) fn see_refused(rt: &impl Abort, alloc: Global, cases: &str) -> Result<(), AllocError> {
    for case in cases.split_terminator("\n\n") {
        let (words, front) = case.split_once('\n').unwrap_or((case, "?"));
        let text = asked(alloc, words, By::List)?;
        see(rt, text.as_str().starts_with(front), case);
    }
    Ok(())
}

#[test]
fn refused_command_lines(rt: HostRuntime) -> Result<(), Fail> {
    see_refused(&rt, rt.alloc(), REFUSALS)?;
    Ok(())
}

#[test]
fn a_word_that_is_no_text_is_refused(rt: HostRuntime) -> Result<(), Fail> {
    let text = asked(rt.alloc(), "dump", By::Fault)?;
    let is_so = text.as_str().starts_with("error: invalid UTF-8");
    see(&rt, is_so, text.as_str());
    Ok(())
}
