//! The program `dump`.

ghost use Rattle.std.specs.Prelude.{◌≡◌, ◌&&◌, Result};
ghost use Rattle.streams.specs.Readers.{IsReadBriefly, reader};
ghost use Rattle.streams.specs.Writers.{writer};
ghost use Rattle.protoscip.specs.declared.fault.Fault.{Fault};
ghost use Rattle.protoscip.specs.Dump.{IsDumped, LeavesReader};
ghost use Rattle.protoscip.specs.Explanations.{IsFaultText, explain_in};
ghost use Rattle.protoscip.specs.FaultLines.{HasFilesOf};
ghost use Rattle.protoscip.specs.FaultTexts.{status_of};
ghost use Rattle.programs.specs.Dumping.{EndsDump, is_write};
ghost use Rattle.programs.specs.Messages.{TellsOne};
ghost use Rattle.programs.specs.Printing.{EndsCut, is_closed};

use crate::ending::stop;
use crate::host::Host;
use crate::messages::report;
use crate::output::is_closed;
use command_line::DumpOptions;
use proto_parse::Dialect;
use protoscip::{Fault, MEMORY_STATUS, dump_and_keep, dump_tree, explain_in};
use source_files::Caused;
use source_tree::Tree;
use std::alloc::{AllocError, Global};
use std::sync::Wait;
use std::thread::Threads;
use streams::{Feed, Sink};

/// Whether a write failed.
fn is_write(fault: &Fault) -> bool
    ensures { result ≡ is_write fault.now }
{
    match fault {
        Fault::Write(_) => true,
        Fault::Spawn
        | Fault::Memory
        | Fault::Unread(_)
        | Fault::Lex(..)
        | Fault::Syntax(..)
        | Fault::Duplicate(..)
        | Fault::MissingImport(_)
        | Fault::Unresolved(_)
        | Fault::Ambiguous(_)
        | Fault::OptionGap(_)
        | Fault::Uncertain(..)
        | Fault::TooLarge
        | Fault::Read
        | Fault::Answer(_) => false,
    }
}

/// Whether a write failed because the pipe that it goes to is closed by its reader.
fn is_dropped<W: Caused>(fault: &Fault, out: &W) -> bool
    ensures { result ≡ (is_write fault.now && is_closed (W.cause out.now)) }
{
    is_write(fault) && is_closed(out)
}

/// Says why a dump stopped, unless the pipe that it writes to is closed by its reader, and gives the exit status.
fn stop_listing<W: Caused, M: Sink>(
    alloc: Global,
    tree: &Tree,
    fault: &Fault,
    explain: Option<Dialect>,
    out: &W,
    messages: &mut M,
) -> u8
    requires { HasFilesOf tree.now fault.now }
    ensures { EndsCut (is_write fault.now && is_closed (W.cause out.now)) (TellsOne (IsFaultText explain tree.now
        fault.now) (status_of fault.now) (writer M.Sink messages) result)
        (writer M.Sink messages) result }
{
    if is_dropped(fault, out) {
        return 0;
    }
    stop(alloc, tree, fault, explain, messages)
}

/// Reads one source, prints the occurrences of its index, and gives the exit status. If it stops early, it reports
/// why, explained if that is asked for; but not if the pipe that it writes to is closed by its reader, who wants no
/// more.
pub(crate) fn dump_source<R: Threads + Wait, F, I: Feed, W: Sink + Caused, M: Sink>(
    host: &Host<'_, R, F>,
    options: &DumpOptions,
    input: &mut I,
    out: &mut W,
    messages: &mut M,
) -> u8
    ensures { (done : Result (Unit {0}) Fault)
        × IsDumped options.now.dialect
        (reader I.Feed input) (writer W.Sink out) done
        × LeavesReader (reader I.Feed input) done
        × IsReadBriefly (reader I.Feed input)
        × EndsDump options.now.dialect (explain_in options.now.explain options.now.dialect)
        (is_closed (W.cause out.new)) (reader I.Feed input) done
        (writer M.Sink messages) result }
{
    let dialect = options.dialect;
    let mut tree = match dump_tree(host.alloc, Vec::new(host.alloc)) {
        Ok(tree) => tree,
        Err(AllocError) => return report(Err(AllocError), MEMORY_STATUS, messages),
    };
    match dump_and_keep(host.rt, host.alloc, dialect, input, &mut tree, out) {
        Ok(()) => 0,
        Err(fault) => {
            let explain = explain_in(options.explain, dialect);
            stop_listing(host.alloc, &tree, &fault, explain, out, messages)
        }
    }
}
