//! What files declare, use and import, as texts of a line for each.

use crate::declared::is_source_listed;
use comment_texts::CommentForm;
use proto_decl::{
    Component, DeclView, Declaration, DeclarationKind, DeclarationStep, FileFacts, Imported,
    NamedDeclaration, Use,
};
use proto_lex::Span;
use proto_parse::ImportKind;
use std::alloc::Global;

/// Every kind of import, of declaration, each with a text before and behind it, and of use.
const EVERY_KIND: &str = "syntax = \"proto3\"; import \"a\" 'b.proto';
import public 'c.proto'; import weak \"\"; package a . b;
// M.
message M { // m
  // E.
  enum E { // e
    // V.
    V = 0; // v
  }
  // o.
  oneof o { // o
    // f.
    N f = 1; // f
  }
  // g.
  map<string, b . M> g = 2; // g
  // N.
  message N { // n
    // h.
    optional E h = 1; // h
    // i.
    repeated int32 i = 2; // i
  }
}
// S.
service S { // s
  // R.
  rpc R(M) returns (stream .a.b.M.N); // r
}
";

/// The line of `E` reads: the enum `a.b.M.E`, by its simple name `E`, is the enum `E` in the message
/// `M`, with `E.` before and `e` behind it. That of `b . M` reads: this spelling has the components
/// `b` and `M`, in the scope `a.b.M`.
const LISTED: &str = "package a b
import ab.proto, \"a\" 'b.proto'
import public c.proto, 'c.proto'
import weak , \"\"
message a.b.M (M): message M; [M.] [m]
enum a.b.M.E (E): message M; enum E; [E.] [e]
value a.b.M.V (V): message M; enum E; value V; [V.] [v]
oneof a.b.M.o (o): message M; oneof o; [o.] [o]
field a.b.M.f (f): message M; field f; [f.] [f]
field a.b.M.g (g): message M; field g; [g.] [g]
message a.b.M.N (N): message M; message N; [N.] [n]
field a.b.M.N.h (h): message M; message N; field h; [h.] [h]
field a.b.M.N.i (i): message M; message N; field i; [i.] [i]
service a.b.S (S): service S; [S.] [s]
method a.b.S.R (R): service S; method R; [R.] [r]
use N: N in a.b.M
use b . M: b M in a.b.M
use E: E in a.b.M.N
use M: M in a.b.S
use .a.b.M.N: . a b M N in a.b.S
";

/// Comments of two lines, behind an opening brace, and of a block.
const COMMENTED: &str =
    "syntax = \"proto3\";\n// One.\n// Two.\nmessage A { // tail\n  int32 x = 1; /* unit */\n}\n";

/// Its last line reads: the field `x` of `A` has no text before it, and ` unit ` behind it.
const COMMENTS_LISTED: &str = "package
message A (A): message A; [One.\nTwo.] [tail]
field A.x (x): message A; field x; [] [ unit ]
";

/// Comments with stars, third signs and indentation.
const DECORATED: &str =
    "syntax = \"proto3\";\n/**\n * One.\n *   Two.\n */\nmessage A { /* tail\n  * more */
  /// x.\n  int32 x = 1; //! unit \n}\n";

/// They are listed as they are written,
const DECORATED_LISTED: &str = "package
message A (A): message A; [*\n * One.\n *   Two.\n ] [ tail\n  * more ]
field A.x (x): message A; field x; [/ x.] [! unit ]
";

/// and cleaned.
const CLEAN_LISTED: &str = "package
message A (A): message A; [One.\n  Two.] [tail\nmore]
field A.x (x): message A; field x; [x.] [unit]
";

/// What `extend` extends, in a file and in a message, beside a field's type.
const EXTENDING: &str =
    "package p;\nmessage A { optional A a = 1; extend .p.A { optional A b = 5; } }\nextend p.A {}\n";

/// Its third line from behind reads: `.p.A` has the components `p` and `A`, in the scope `p.A`, and is extended.
const EXTENDING_LISTED: &str = "package p
message p.A (A): message A; [] []
field p.A.a (a): message A; field a; [] []
field p.A.b (b): message A; field b; [] []
use A: A in p.A
extend .p.A: . p A in p.A
use A: A in p.A
extend p.A: p A in p
";

/// Appends a part. One that memory isn't there for is left out, and then the listing is another.
fn add(text: &mut String, part: &str) {
    let _ = text.push_str(part);
}

/// Appends what stands at a span of a source.
fn add_part(text: &mut String, source: &str, span: Span) {
    add(
        text,
        source
            .get(span.start as usize..span.end as usize)
            .unwrap_or("?"),
    );
}

/// Appends a name, where it stands so in the source.
fn add_name(text: &mut String, source: &str, span: Span, name: &str) {
    if source.get(span.start as usize..span.end as usize) == Some(name) {
        add(text, name);
    }
}

/// Adds the components of a name, each with its place.
fn add_components(text: &mut String, source: &str, components: &[Component]) {
    for component in components {
        add(text, " ");
        add_name(text, source, component.span, component.name.as_str());
    }
}

/// Adds the line of an import.
fn add_import(text: &mut String, source: &str, import: &Imported) {
    add(
        text,
        match import.kind {
            ImportKind::Plain => "import ",
            ImportKind::Public => "import public ",
            ImportKind::Weak => "import weak ",
        },
    );
    add(text, import.path.as_str());
    add(text, ", ");
    add_part(text, source, import.span);
    add(text, "\n");
}

/// The word that a declaration's line begins with.
fn mark_of(kind: DeclarationKind) -> &'static str {
    match kind {
        DeclarationKind::Message => "message ",
        DeclarationKind::Enum => "enum ",
        DeclarationKind::Service => "service ",
        DeclarationKind::Field => "field ",
        DeclarationKind::Oneof => "oneof ",
        DeclarationKind::Value => "value ",
        DeclarationKind::Method => "method ",
    }
}

/// Appends a step of a path.
fn add_step(text: &mut String, step: &DeclarationStep) {
    add(text, mark_of(step.kind));
    add(text, step.name.as_str());
    add(text, "; ");
}

/// Appends a line for a declaration, with its full name, what is at its name's place, its path, and
/// its texts as a callback sees them.
fn add_declaration(text: &mut String, source: &str, declaration: &Declaration, view: &DeclView) {
    add(text, mark_of(view.kind()));
    add(text, view.full_name());
    add(text, " (");
    add_part(text, source, declaration.name());
    add(text, "): ");
    let (outer, last) = declaration.path().parts();
    for step in outer {
        add_step(text, step);
    }
    add_step(text, last);
    add(text, "[");
    add(text, view.leading());
    add(text, "] [");
    add(text, view.trailing());
    add(text, "]\n");
}

/// Whether all that a declaration says of itself is what a callback sees of it.
fn agrees(declaration: &Declaration, view: &DeclView) -> bool {
    declaration.kind() == view.kind()
        && declaration.simple_name() == view.name()
        && declaration.full_name().is(view.full_name())
        && declaration.leading() == view.leading()
        && declaration.trailing() == view.trailing()
}

/// A declaration with its full name, which is asked for again if memory is refused.
fn named_of<'a, 't>(
    alloc: Global,
    declaration: &'a Declaration<'t>,
) -> Option<NamedDeclaration<'a, 't>> {
    match declaration.named(alloc) {
        Ok(named) => Some(named),
        Err(_) => declaration.named(alloc).ok(),
    }
}

/// Appends a line for a declaration, if there is memory for its full name and if all that is said of it agrees.
fn add_named(alloc: Global, text: &mut String, source: &str, declaration: &Declaration) {
    if let Some(named) = named_of(alloc, declaration) {
        let view = named.view();
        if agrees(declaration, &view) {
            add_declaration(text, source, declaration, &view);
        }
    }
}

/// Adds the line of a use.
fn add_use(text: &mut String, source: &str, found: &Use) {
    add(text, if found.is_extended { "extend " } else { "use " });
    add_part(text, source, found.span);
    add(text, if found.has_leading_dot { ": ." } else { ":" });
    add_components(text, source, found.components.as_slice());
    add(text, " in ");
    add(text, found.scope.as_str());
    add(text, "\n");
}

/// Whether facts with the number 7 are what a listing says.
pub(crate) fn is_listed(alloc: Global, source: &str, facts: &FileFacts, want: &str) -> bool {
    facts.origin();
    let mut text = String::new(alloc);
    add(&mut text, "package");
    add_components(&mut text, source, facts.package_name());
    add(&mut text, "\n");
    for import in facts.imports() {
        add_import(&mut text, source, import);
    }
    for declaration in facts.declarations() {
        add_named(alloc, &mut text, source, declaration);
    }
    for found in facts.uses() {
        add_use(&mut text, source, found);
    }
    text.as_str() == want && facts.number() == 7
}

#[test]
fn facts_of_sources(rt: HostRuntime) {
    for (form, source, want) in [
        (CommentForm::Raw, EVERY_KIND, LISTED),
        (CommentForm::Clean, EVERY_KIND, LISTED),
        (CommentForm::Raw, COMMENTED, COMMENTS_LISTED),
        (CommentForm::Raw, DECORATED, DECORATED_LISTED),
        (CommentForm::Clean, DECORATED, CLEAN_LISTED),
        (CommentForm::RawWithoutNul, DECORATED, DECORATED_LISTED),
        (CommentForm::CleanWithoutNul, DECORATED, CLEAN_LISTED),
        (CommentForm::Raw, EXTENDING, EXTENDING_LISTED),
    ] {
        assert!(rt; is_source_listed(rt.alloc(), form, source, want), "{want}");
    }
}
