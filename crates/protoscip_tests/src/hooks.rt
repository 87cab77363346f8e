//! What is built by callbacks, and how often they are asked: which no contract says.

use crate::built::{asked_for, run_of, see_built, site_of};
use crate::calls::see;
use index_hooks::{AnyAnswer, Filter, FilterCallback, KindIn, Kinds, Registry};
use index_pool::NoGate;
use proto_decl::{DeclView, DeclarationKind};
use scip_build::Faulty;
use std::alloc::{AllocError, Global};
use std::process::Abort;
use std::sync::Wait;
use std::sync::atomic::{AtomicU64, Ordering};
use std::test::Fail;
use std::thread::Threads;

/// All kinds but that of enums.
const KINDS: [DeclarationKind; 6] = [
    DeclarationKind::Message,
    DeclarationKind::Field,
    DeclarationKind::Oneof,
    DeclarationKind::Value,
    DeclarationKind::Service,
    DeclarationKind::Method,
];

/// Keeps what is of these kinds.
#[derive(Drop)]
struct OfKinds(Kinds);

impl FilterCallback for OfKinds {
    ghost use Rattle.std.specs.Prelude.{◌↔◌, IsTrue};
    ghost use Rattle.index_hooks.specs.HasKind.{HasKind};

    ghost gives = { λ callback seen keep. IsTrue keep ↔ HasKind callback.0 seen.kind };

    fn call(&self, view: &DeclView<'_>) -> bool {
        self.0.contains(view.kind())
    }
}

/// Keeps each second declaration that it is asked about, from the first.
#[derive(Drop)]
struct EachSecond {
    asked: AtomicU64,
}

impl FilterCallback for EachSecond {
    fn call(&self, _view: &DeclView<'_>) -> bool {
        self.asked.fetch_add(1, Ordering::SeqCst) % 2 == 0
    }
}

/// Files, and what is done with their faults; what is built of them, or why nothing is; and how often a registry
/// is asked for it.
struct Row {
    files: &'static str,
    faulty: Faulty,
    due: &'static str,
    asked: u64,
}

/// Sees it of the files of a row.
fn see_row<R: Threads + Wait + Abort>(
    rt: &R,
    alloc: Global,
    registry: &Registry,
    row: &Row,
) -> Result<(), AllocError> {
    let site = site_of(rt, registry, alloc, row.files, row.faulty)?;
    see_built(rt, alloc, &site, row.due, row.asked);
    Ok(())
}

/// Of the four declarations the enum is left out.
static ENUM: Row = Row {
    files: "a.proto\nsyntax = \"proto3\";\nenum E { ZERO = 0; }\nmessage M { E e = 1; }\n",
    faulty: Faulty::Refuse,
    due: "a.proto
0 0 0 0 1 `a.proto`/
1 9 1 13 1 E#ZERO.
2 8 2 9 1 M#
2 14 2 15 1 M#e.
",
    asked: 4,
};

#[test]
fn a_filter_by_kind(rt: HostRuntime) -> Result<(), Fail> {
    let kinds = Kinds::of(&KINDS);
    let filter = Box::new(rt.alloc(), Filter::new(KindIn(kinds), OfKinds(kinds)))?;
    let mut registry = Registry::new(rt.alloc());
    if let Err((filter, _)) = registry.add_filter(filter) {
        see(&rt, registry.add_filter(filter).is_ok(), "added again");
    }
    Ok(see_row(&rt, rt.alloc(), &registry, &ENUM)?)
}

// The first row reads: besides the one declaration of the source, two of an included file that nobody sees are asked
// about. A file with a fault is lexed whole, and nobody is asked about what is in front of the fault. A file that is
// left out for a clash is asked about; but what it alone uses has no external entry.
static ASKED: [Row; 4] = [
    Row {
        files: "a.proto\nsyntax = \"proto3\";\nmessage A {}\n|\
+s.proto\nsyntax = \"proto3\";\nmessage S { message T {} }\n|\
+u.proto\nsyntax = \"proto2\";\n",
        faulty: Faulty::Refuse,
        due: "a.proto\n0 0 0 0 1 `a.proto`/\n1 8 1 9 1 A#\n",
        asked: 3,
    },
    Row {
        files: "a.proto\nsyntax = \"proto3\"; message A {} } @",
        faulty: Faulty::Refuse,
        due: "File(0, Lex(BadByte(34)))",
        asked: 0,
    },
    Row {
        files: "a.proto\nsyntax = \"proto3\"; message A {} } @",
        faulty: Faulty::Skip,
        due: "File(0, Lex(BadByte(34)))\n",
        asked: 0,
    },
    Row {
        files: "a.proto\nsyntax = \"proto3\";\nmessage Z {}\n|\
b.proto\nsyntax = \"proto3\";\nimport \"s.proto\";\nmessage Z { S s = 1; }\n|\
c.proto\nsyntax = \"proto3\";\nimport \"s.proto\";\nmessage C { T t = 1; }\n|\
+s.proto\nsyntax = \"proto3\";\nmessage S {}\nmessage T {}\n",
        faulty: Faulty::Skip,
        due: "Duplicate(FilePlace { file: 0, span: Span { start: 27, end: 28 } }, \
FilePlace { file: 1, span: Span { start: 45, end: 46 } })
a.proto
0 0 0 0 1 `a.proto`/
1 8 1 9 1 Z#
c.proto
0 0 0 0 1 `c.proto`/
1 7 1 16 2 `s.proto`/
2 8 2 9 1 C#
2 12 2 13 0 T#
2 14 2 15 1 C#t.
external T#
",
        asked: 7,
    },
];

/// Sees it of each row.
fn see_rows<R: Threads + Wait + Abort>(
    rt: &R,
    alloc: Global,
    registry: &Registry,
) -> Result<(), AllocError> {
    for row in &ASKED {
        see_row(rt, alloc, registry, row)?;
    }
    Ok(())
}

#[test]
fn what_is_asked_about(rt: HostRuntime) -> Result<(), Fail> {
    let registry = Registry::new(rt.alloc());
    Ok(see_rows(&rt, rt.alloc(), &registry)?)
}

const SEVEN: &str = "a.proto\nsyntax = \"proto3\";\nenum E { ZERO = 0; }\nmessage M { E e = 1; }\n|\
b.proto\nsyntax = \"proto3\";\nimport \"a.proto\";\nmessage C { E a = 1; M b = 2; }\n";

/// Of `E`, `M`, `C` and `b`, which are kept, and of `ZERO`, `e` and `a`, which aren't.
const SECOND_ONES: &str = "a.proto
0 0 0 0 1 `a.proto`/
1 5 1 6 1 E#
2 8 2 9 1 M#
2 12 2 13 0 E#
b.proto
0 0 0 0 1 `b.proto`/
1 7 1 16 2 `a.proto`/
2 8 2 9 1 C#
2 12 2 13 0 E#
2 21 2 22 0 M#
2 23 2 24 1 C#b.
";

/// Whether the index is that of every second declaration, after seven questions.
fn are_second_ones<R: Threads + Wait + Abort>(
    rt: &R,
    alloc: Global,
    registry: &Registry,
) -> Result<bool, AllocError> {
    let site = site_of(rt, registry, alloc, SEVEN, Faulty::Refuse)?;
    let gate = NoGate;
    let run = run_of(rt, alloc, 1, &gate);
    Ok(asked_for(&run, &site, SECOND_ONES) == Some(7))
}

/// Whether a filter that alternates is asked about each of seven declarations once, and its answers serve
/// both documents.
fn serves_both<R: Threads + Wait + Abort>(rt: &R, alloc: Global) -> Result<bool, AllocError> {
    let callback = EachSecond {
        asked: AtomicU64::new(0),
    };
    let filter = Box::new(alloc, Filter::new(AnyAnswer, callback))?;
    let mut registry = Registry::new(alloc);
    if registry.add_filter(filter).is_err() {
        return Err(AllocError);
    }
    are_second_ones(rt, alloc, &registry)
}

#[test]
fn a_filter_that_alternates(rt: HostRuntime) -> Result<(), Fail> {
    let is = serves_both(&rt, rt.alloc()).unwrap_or(false) || serves_both(&rt, rt.alloc())?;
    see(&rt, is, "each second one");
    Ok(())
}
