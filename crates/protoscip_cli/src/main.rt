//! The program `protoscip`: a parallel indexer of proto3 trees that writes SCIP.
#![tactic(auto)]

use command_line::{Request, request_of_process};
use programs::{
    Host, Places, Prompting, explain_failure, is_synced, links_followed, manner_of, out_path,
    report_path, run, see_list, takes_commands, variable, with_list, with_well_known,
};
use source_files::{OutFile, SystemFiles, SystemStream, WithWellKnown};
use std::alloc::AllocError;
use std::env;
use std::io::IsTerminal;
use std::process::ExitCode;
use streams::{Feed, Sink, Std};

/// What the command line asks for, with the folder of the well-known files among the included ones, if that is asked
/// for, too; and this folder. Or memory ran out.
fn asked_of_process<M: Sink>(
    rt: &HostRuntime,
    messages: &mut M,
) -> Result<(Request, Option<String>), AllocError> {
    let words = env::args(rt).and_then(|words| Ok(words.collect(rt.alloc())?));
    let asked = request_of_process(rt.alloc(), rt.stderr().is_terminal(), words)?;
    let path = variable(env::var(rt, "PATH"))?;
    with_well_known(rt.alloc(), &SystemFiles::new(rt), &path, asked, messages)
}

/// Sees that neither the index nor the report would replace the list of sources, if there is one; or gives the exit
/// status.
fn see_list_left<M: Sink>(
    rt: &HostRuntime,
    asked: &Result<Request, AllocError>,
    messages: &mut M,
) -> Result<(), u8> {
    let follows = links_followed(asked);
    let places = Places {
        file: OutFile::following(rt, out_path(asked), follows),
        report: OutFile::following(rt, report_path(asked), follows),
    };
    match asked {
        Ok(request) => see_list(rt.alloc(), request, &places, messages),
        Err(_) => Ok(()),
    }
}

/// What is asked for, with the list of sources read, if there is one; or the exit status, if it can't be.
fn with_list_read<I: Feed, M: Sink>(
    rt: &HostRuntime,
    asked: Result<Request, AllocError>,
    input: &mut I,
    messages: &mut M,
) -> Result<Result<Request, AllocError>, u8> {
    see_list_left(rt, &asked, messages)?;
    match asked {
        Ok(request) => {
            let files = SystemFiles::new(rt);
            Ok(Ok(with_list(rt.alloc(), &files, request, input, messages)?))
        }
        Err(refused) => Ok(Err(refused)),
    }
}

/// The system's files, as they are asked for and with links followed, and the root that has the well-known files alone.
#[derive(Drop)]
struct Systems<'a> {
    files: SystemFiles<'a, HostRuntime>,
    linked: SystemFiles<'a, HostRuntime>,
    known: Option<String>,
}

impl<'a> Systems<'a> {
    /// The files that a run reads.
    fn with_well_known(&self) -> WithWellKnown<'_, SystemFiles<'a, HostRuntime>> {
        WithWellKnown {
            files: &self.files,
            linked: &self.linked,
            known: self.known.as_deref(),
        }
    }
}

/// Does what the command line asks for, over the process's streams and the system's files, explains why the system
/// refused what was asked of it, and ends with the status.
fn main(rt: HostRuntime) -> ExitCode {
    let mut messages = Std::new(rt.stderr());
    let (asked, known) = match asked_of_process(&rt, &mut messages) {
        Ok((asked, known)) => (Ok(asked), known),
        Err(refused) => (Err(refused), None),
    };
    let is_typed = takes_commands(&asked) && rt.stdin().is_terminal();
    let mut input = Prompting::new(Std::new(rt.stdin()), &rt, is_typed);
    let asked = match with_list_read(&rt, asked, &mut input, &mut messages) {
        Ok(asked) => asked,
        Err(status) => return ExitCode::from(status),
    };
    let (follows, syncs) = (links_followed(&asked), is_synced(&asked));
    let systems = Systems {
        files: SystemFiles::following(&rt, follows),
        linked: SystemFiles::following(&rt, true),
        known,
    };
    let files = systems.with_well_known();
    let mut places = Places {
        file: OutFile::following(&rt, out_path(&asked), follows).syncing(syncs),
        report: OutFile::following(&rt, report_path(&asked), follows).syncing(syncs),
    };
    let mut out = SystemStream::new(rt.stdout());
    let host = Host {
        rt: &rt,
        alloc: rt.alloc(),
        files: &files,
        is_watched: rt.stderr().is_terminal(),
        manner: manner_of(&asked, is_typed),
    };
    let status = run(
        &host,
        &asked,
        &mut input,
        &mut out,
        &mut places,
        &mut messages,
    );
    explain_failure(&asked, status, &places, &out, &mut messages);
    ExitCode::from(status)
}
