//! What several tests share.

use crate::faulty_streams::{AT_ONCE, Failing, PACES, Pace};
use basics::OwnedText;
use comment_texts::CommentForm;
use index_hooks::Registry;
use index_pool::{NoGate, Workers};
use proto_lex::Encoding;
use proto_parse::{CustomOptions, Dialect};
use protoscip::Fault;
use scip_build::{Duplicates, Faulty, Run, Settings};
use scip_model::FilePackages;
use scip_symbol::PackageId;
use source_tree::Tree;
use std::alloc::{AllocError, Global};
use std::process::Abort;
use std::sync::Wait;
use std::thread::Threads;
use streams::Std;
use test_kit::tree_of;

/// Sees that what a case says holds. (A formatted assertion is proved once, here.)
pub(crate) fn see(rt: &impl Abort, holds: bool, case: &str) {
    assert!(rt; holds, "{case}");
}

/// The counts of workers of each case.
pub(crate) const COUNTS: [usize; 3] = [1, 2, 16];

/// A tree, the settings of its index, and the callbacks that are asked.
#[derive(Drop)]
pub(crate) struct Given<'a> {
    pub(crate) tree: Tree,
    pub(crate) settings: Settings,
    pub(crate) registry: &'a Registry,
}

impl<'a> Given<'a> {
    /// The same, with this done with names that several files give.
    pub(crate) fn naming(self, duplicates: Duplicates) -> Given<'a> {
        let Given {
            tree,
            mut settings,
            registry,
        } = self;
        settings.duplicates = duplicates;
        Given {
            tree,
            settings,
            registry,
        }
    }

    /// The same, with proto2 sources read, too, and names in options linked.
    pub(crate) fn linking(self) -> Given<'a> {
        let Given {
            tree,
            mut settings,
            registry,
        } = self;
        settings.dialect = Dialect::All;
        settings.options = true;
        Given {
            tree,
            settings,
            registry,
        }
    }

    /// The same, with the documents below this folder.
    pub(crate) fn below(self, folder: OwnedText) -> Given<'a> {
        let Given {
            tree,
            mut settings,
            registry,
        } = self;
        settings.at = folder;
        Given {
            tree,
            settings,
            registry,
        }
    }
}

/// The plain settings, with this unit of columns, and with this done with faults.
fn settings_of(
    rt: &impl Abort,
    alloc: Global,
    encoding: Encoding,
    faulty: Faulty,
) -> Result<Settings, AllocError> {
    let parts = [String::new(alloc), String::new(alloc), String::new(alloc)];
    let id = PackageId::new(parts).ok().expect(rt, "good parts");
    Ok(Settings {
        project_root: OwnedText::copy_of(alloc, "file:///")?,
        at: OwnedText::new(alloc),
        package: FilePackages::of_run(alloc, id),
        encoding,
        dialect: Dialect::Proto3(CustomOptions::Refuse),
        comments: CommentForm::Raw,
        details: false,
        options: false,
        faulty,
        duplicates: Duplicates::Refuse,
    })
}

/// Where a test runs.
#[derive(Drop)]
pub(crate) struct Desk<'a, R> {
    pub(crate) rt: &'a R,
    pub(crate) alloc: Global,
    gate: NoGate,
}

impl<'a, R: Threads + Wait + Abort> Desk<'a, R> {
    /// That of a runtime, with this memory.
    pub(crate) fn new(rt: &'a R, alloc: Global) -> Desk<'a, R> {
        Desk {
            rt,
            alloc,
            gate: NoGate,
        }
    }

    /// A run by so many workers, which are 1 to 16.
    pub(crate) fn run(&self, count: usize) -> Run<'_, R, NoGate> {
        Run {
            rt: self.rt,
            alloc: self.alloc,
            workers: Workers::new(count).expect(self.rt, "1 to 16 workers"),
            gate: &self.gate,
        }
    }

    /// The tree of files, as `test_kit` takes them, with plain settings, but for this unit of columns, and with this done
    /// with faults.
    pub(crate) fn given<'g>(
        &self,
        registry: &'g Registry,
        files: &str,
        encoding: Encoding,
        faulty: Faulty,
    ) -> Result<Given<'g>, AllocError> {
        let settings = settings_of(self.rt, self.alloc, encoding, faulty)?;
        let tree = tree_of(self.alloc, files)?.expect(
            self.rt,
            "files with good paths of their own",
        );
        Ok(Given {
            tree,
            settings,
            registry,
        })
    }
}

/// Whether a call answered what is due; none after want of memory or of a thread.
pub(crate) type Told = Result<Option<bool>, AllocError>;

/// The status of want of memory and of a thread.
pub(crate) const WANT: u8 = 4;

/// Whether memory or a thread was wanting.
fn is_want(answer: &Option<Fault>) -> bool {
    match answer {
        Some(fault) => fault.status() == WANT,
        None => false,
    }
}

/// A writer that takes so many bytes, in this way. It has the memory for them.
pub(crate) fn paced_writer(
    alloc: Global,
    room: usize,
    pace: Pace,
) -> Result<Std<Failing>, AllocError> {
    Ok(Std::new(Failing {
        bytes: Vec::with_capacity(alloc, room)?,
        before: room,
        pace,
        rests: false,
    }))
}

/// A writer that takes so many bytes, and then fails at each call.
pub(crate) fn writer(alloc: Global, room: usize) -> Result<Std<Failing>, AllocError> {
    paced_writer(alloc, room, AT_ONCE)
}

/// A writer's room and its pace, and what is due: the fault that is answered, and what the writer then has.
#[derive(Clone, Copy, Drop)]
pub(crate) struct Due<'a> {
    pub(crate) room: usize,
    pub(crate) pace: Pace,
    pub(crate) fault: Option<Fault>,
    pub(crate) written: &'a [u8],
}

/// The whole text is due, to a writer that takes it and no more.
pub(crate) fn whole(text: &[u8]) -> Due<'_> {
    Due {
        room: text.len(),
        pace: AT_ONCE,
        fault: None,
        written: text,
    }
}

/// What is due of a text that is written at once, to such a writer. In a session the fault is `Answer`.
fn due_of(text: &[u8], room: usize, pace: Pace, in_session: bool) -> Due<'_> {
    let (most, _, each_second) = pace;
    let first = if each_second { most } else { usize::MAX };
    let taken = text.len().min(room).min(first);
    let fault = match in_session {
        _ if taken == text.len() => None,
        true => Some(Fault::Answer(taken as u64)),
        false => Some(Fault::Write(taken as u64)),
    };
    Due {
        room,
        pace,
        fault,
        written: text.split_at(taken).0,
    }
}

/// Adds the same of writers that take so many bytes, at each pace.
fn add_dues<'t>(
    dues: &mut Vec<Due<'t>>,
    text: &'t [u8],
    room: usize,
    in_session: bool,
) -> Result<(), AllocError> {
    for pace in &PACES {
        dues.push(due_of(text, room, *pace, in_session))?;
    }
    Ok(())
}

/// The same of writers that take each number of its bytes, at each pace.
pub(crate) fn dues_of(
    alloc: Global,
    text: &[u8],
    in_session: bool,
) -> Result<Vec<Due<'_>>, AllocError> {
    let mut dues = Vec::new(alloc);
    for room in 0..=text.len() {
        add_dues(&mut dues, text, room, in_session)?;
    }
    Ok(dues)
}

/// Whether a call answered what is due, and its writer has that; none after want of memory or of a thread.
pub(crate) fn is_due(answer: Option<Fault>, out: Std<Failing>, due: &Due) -> Option<bool> {
    if is_want(&answer) {
        return None;
    }
    Some(answer == due.fault && out.into_inner().bytes.as_slice() == due.written)
}
