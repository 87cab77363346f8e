//! The document of one source, and what it says of included files. More files are linked in the tests of whole indexes.

ghost use Rattle.std.specs.Prelude.{◌≡◌, ◌∷◌, [], length, IfOk};
ghost use Rattle.proto_visibility.specs.Files.{IsSource};
ghost use Rattle.scip_model.specs.Chosen.{HaveChoices};
ghost use Rattle.scip_model.specs.Conditions.{HaveGoodPaths, AreOfText, HasText};
ghost use Rattle.surface_tests.specs.OneSource.{source_with};

use crate::listed::{add_document, add_externals};
use crate::shared::see;
use comment_texts::CommentForm;
use index_hooks::{Choice, DocChoice};
use proto_decl::{Declaration, FactForm, FileFacts, declare_with};
use proto_lex::{Encoding, Text, lex};
use proto_link::{Duplicates, LinkFile, Linker, have_own_paths};
use proto_parse::parse;
use scip_model::{Choices, document, externals};
use scip_symbol::PackageId;
use std::alloc::{AllocError, Global};
use std::test::Fail;
use test_kit::{Draft, text_of};

/// The facts of a text, which can be read: so reading tells of no fault but want of memory.
pub(crate) fn facts_of<'t>(
    alloc: Global,
    text: &Text<'t>,
    details: bool,
) -> Result<FileFacts<'t>, AllocError>
    ensures { IfOk result (AreOfText text.now) }
{
    let Ok(lexed) = lex(alloc, text) else {
        return Err(AllocError);
    };
    let Ok(tree) = parse(alloc, &lexed) else {
        return Err(AllocError);
    };
    let form = FactForm {
        comments: CommentForm::Raw,
        details,
    };
    declare_with(alloc, form, 0, &lexed, &tree)
}

const KEPT: Choice = Choice {
    keep: true,
    doc: DocChoice::Leading,
};

/// Each declaration is kept, with the text before it.
fn choose_each(alloc: Global, declarations: &[Declaration]) -> Result<Vec<Choice>, AllocError>
    ensures { IfOk result (λ list. length list.items ≡ length declarations.now) }
{
    let mut list = Vec::with_capacity(alloc, declarations.len())?;
    for _ in declarations {
        list.push(KEPT)?;
    }
    Ok(list)
}

/// The choices for the declarations of a source that is linked alone.
pub(crate) fn choices_of(alloc: Global, facts: &FileFacts) -> Result<Choices, AllocError>
    ensures { IfOk result (HaveChoices (source_with facts.now ∷ [])) }
{
    let list = choose_each(alloc, facts.declarations())?;
    let lists = Vec::from_array(alloc, [list])?;
    Ok(Choices::new(lists))
}

/// The linker of files that can be linked.
pub(crate) fn link<'a, 't>(
    alloc: Global,
    files: &'a [LinkFile<'a, 't>],
) -> Result<Linker<'a, 't>, AllocError>
    ensures { IfOk result (λ linker. linker ≡ files.now) }
{
    if !have_own_paths(alloc, files)? {
        return Err(AllocError);
    }
    match Linker::new(alloc, files, Duplicates::Refuse) {
        Ok(linker) => Ok(linker),
        Err(_) => Err(AllocError),
    }
}

/// The empty package.
fn empty_package(alloc: Global) -> Result<PackageId, AllocError> {
    match PackageId::new([String::new(alloc), String::new(alloc), String::new(alloc)]) {
        Ok(package) => Ok(package),
        Err(_) => Err(AllocError),
    }
}

/// Adds what `document` answers of the first file.
fn add_made(
    alloc: Global,
    draft: &mut Draft,
    linker: &Linker,
    text: &Text,
    choices: &Choices,
    package: &PackageId,
) -> Result<(), AllocError>
    requires source { IsSource linker.now 0 }
    requires text { HasText linker.now 0 text.now }
    requires paths { HaveGoodPaths linker.now }
    requires choices { HaveChoices linker.now choices.now }
{
    match document(alloc, linker, 0, text, choices, package, Encoding::Utf8) {
        Ok(document) => {
            add_document(draft, &document);
            Ok(())
        }
        Err(_) => Err(AllocError),
    }
}

/// Adds the external entries.
fn add_named(
    alloc: Global,
    draft: &mut Draft,
    linker: &Linker,
    choices: &Choices,
    package: &PackageId,
) -> Result<(), AllocError>
    requires choices { HaveChoices linker.now choices.now }
{
    let infos = externals(alloc, linker, choices, package)?;
    add_externals(draft, infos.as_slice());
    Ok(())
}

/// Whether the document of the first file and the external entries are listed so.
fn is_listed(
    alloc: Global,
    linker: &Linker,
    text: &Text,
    choices: &Choices,
    package: &PackageId,
    listed: &str,
) -> Result<bool, AllocError>
    requires source { IsSource linker.now 0 }
    requires text { HasText linker.now 0 text.now }
    requires paths { HaveGoodPaths linker.now }
    requires choices { HaveChoices linker.now choices.now }
{
    let mut draft = Draft::new(alloc);
    add_made(alloc, &mut draft, linker, text, choices, package)?;
    add_named(alloc, &mut draft, linker, choices, package)?;
    Ok(draft.finish()?.as_str() == listed)
}

/// Whether the document of a source that is linked alone is listed as is due.
fn is_linked_right(
    alloc: Global,
    text: &Text,
    facts: &FileFacts,
    choices: &Choices,
    package: &PackageId,
    listed: &str,
) -> Result<bool, AllocError>
    requires text { AreOfText text.now facts.now }
    requires choices { HaveChoices (source_with facts.now ∷ []) choices.now }
{
    let files = [LinkFile {
        path: "a.proto",
        facts: Some(facts),
        included: false,
        left_out: false,
        links_options: false,
    }];
    let linker = link(alloc, &files)?;
    is_listed(alloc, &linker, text, choices, package, listed)
}

/// The same, in the empty package.
fn is_chosen_right(
    alloc: Global,
    text: &Text,
    facts: &FileFacts,
    choices: &Choices,
    listed: &str,
) -> Result<bool, AllocError>
    requires text { AreOfText text.now facts.now }
    requires choices { HaveChoices (source_with facts.now ∷ []) choices.now }
{
    let package = empty_package(alloc)?;
    is_linked_right(alloc, text, facts, choices, &package, listed)
}

/// The same, with what is chosen by default.
fn is_declared_right(
    alloc: Global,
    text: &Text,
    facts: &FileFacts,
    listed: &str,
) -> Result<bool, AllocError>
    requires text { AreOfText text.now facts.now }
{
    let choices = choices_of(alloc, facts)?;
    is_chosen_right(alloc, text, facts, &choices, listed)
}

/// The same of a text.
fn is_text_right(
    alloc: Global,
    text: &Text,
    details: bool,
    listed: &str,
) -> Result<bool, AllocError> {
    let facts = facts_of(alloc, text, details)?;
    is_declared_right(alloc, text, &facts, listed)
}

/// The same of the bytes of a source; memory may run out.
fn is_right_once(
    alloc: Global,
    source: &str,
    details: bool,
    listed: &str,
) -> Result<bool, AllocError> {
    match text_of(alloc, source.as_bytes()) {
        Ok(text) => is_text_right(alloc, &text, details, listed),
        Err(_) => Err(AllocError),
    }
}

/// Whether this is made of the source `a.proto`, of which all is kept, with details or without. After want of memory it
/// is made again, and the second answer counts.
fn is_right(alloc: Global, source: &str, details: bool, listed: &str) -> Result<bool, AllocError> {
    match is_right_once(alloc, source, details, listed) {
        Err(_) => is_right_once(alloc, source, details, listed),
        answer => answer,
    }
}

/// A source, and what is made of it. It reads: the document `a.proto`, with columns in UTF-8 (1), has the file's own
/// empty range, with role 1, and `p/` from 8 to 9 in line 1 with role 1; the use of `Foo` in line 3 has no role. `p/M#`
/// has the name `M`, and the file's symbol that of its path. Nothing external is named.
const SOURCE: &str =
    "syntax = \"proto3\";\npackage p;\nmessage Foo {}\nmessage M { string Foo = 1; Foo x = 2; }\n";

const LISTED: &str = "a.proto Protobuf 1  0 0 0 0 1 `a.proto`/; 1 8 1 9 1 p/; 2 8 2 11 1 p/Foo#; \
3 8 3 9 1 p/M#; 3 19 3 22 1 p/M#Foo.; 3 28 3 31 0 p/Foo#; 3 32 3 33 1 p/M#x.;\n \
`a.proto`/ a.proto; p/ p; p/Foo# Foo; p/M# M; p/M#Foo. Foo; p/M#x. x;\n+\n";

#[test]
fn a_field_named_like_its_type(rt: HostRuntime) -> Result<(), Fail> {
    see(&rt, is_right(rt.alloc(), SOURCE, false, LISTED)?, LISTED);
    Ok(())
}

/// A source with a comment, and with what is in what, and its document with details: kinds by number, signatures, what
/// each declaration is in, and where all of it is.
const DETAILED: &str = "syntax = \"proto3\";\npackage p;\n// An outer one.\nmessage M {\n  \
enum E { Z = 0; }\n  oneof one { M x = 1 [deprecated = true]; }\n}\nservice S { rpc R(M) returns (M); }\n";

const DETAILS: &str =
    "a.proto Protobuf 1  0 0 0 0 1 `a.proto`/; 1 8 1 9 1 p/; 3 8 3 9 1 p/M# in 2 0 6 1 ; \
4 7 4 8 1 p/M#E# in 4 2 4 19 ; 4 11 4 12 1 p/M#E#Z. in 4 11 4 17 ; 5 8 5 11 1 p/M#one: in 5 2 5 44 ; \
5 14 5 15 0 p/M#; 5 16 5 17 1 p/M#x. in 5 14 5 42 ; 7 8 7 9 1 p/S# in 7 0 7 35 ; \
7 16 7 17 1 p/S#R(). in 7 12 7 33 ; 7 18 7 19 0 p/M#; 7 30 7 31 0 p/M#;\n \
`a.proto`/ a.proto = 16 :  in ; p/ p = 35 :  in ; p/M# M | An outer one. = 28 Protobuf: message M in ; \
p/M#E# E = 11 Protobuf: enum E in p/M#; p/M#E#Z. Z = 12 Protobuf: Z = 0 in p/M#E#; \
p/M#one: one = 59 Protobuf: oneof one in p/M#; p/M#x. x = 15 Protobuf: M x = 1 in p/M#; \
p/S# S = 21 Protobuf: service S in ; p/S#R(). R = 26 Protobuf: rpc R(M) returns (M) in p/S#;\n+\n";

#[test]
fn details_of_a_document(rt: HostRuntime) -> Result<(), Fail> {
    see(&rt, is_right(rt.alloc(), DETAILED, true, DETAILS)?, DETAILS);
    Ok(())
}
