//! The document of a source that is linked alone, and what it says of included files: nothing.

ghost use Rattle.std.specs.Prelude.{◌∷◌, []};
ghost use Rattle.scip_model.specs.Chosen.{HaveChoices};
ghost use Rattle.scip_model.specs.Conditions.{AreOfText};
ghost use Rattle.surface_tests.specs.OneSource.{source_with};

use crate::documents::{choices_of, facts_of, link};
use crate::shared::{package_of, see};
use proto_decl::FileFacts;
use proto_lex::{Encoding, Text};
use proto_link::LinkFile;
use scip_model::{Choices, Document, document, externals};
use scip_symbol::PackageId;
use std::alloc::{AllocError, Global};
use std::test::Fail;

/// Whether a document is that of one message.
fn is_due(document: &Document) -> bool {
    match document.occurrences.as_slice() {
        [_, last] => {
            let range = &last.range;
            document.relative_path.as_str() == "a.proto"
                && document.language.as_str() == "Protobuf"
                && document.position_encoding == 1
                && document.symbols.as_slice().len() == 2
                && last.symbol.as_str() == "scip-protobuf . . . A#"
                && last.symbol_roles == 1
                && (range.start_line(), range.start_column(), range.end_column()) == (1, 8, 9)
        }
        _ => false,
    }
}

/// Whether the source with these facts has that document, and nothing external is named.
fn is_made(
    alloc: Global,
    text: &Text,
    facts: &FileFacts,
    choices: &Choices,
    package: &PackageId,
) -> Result<bool, AllocError>
    requires text { AreOfText text.now facts.now }
    requires choices { HaveChoices (source_with facts.now ∷ []) choices.now }
{
    let files = [LinkFile {
        path: "a.proto",
        facts: Some(facts),
        included: false,
        left_out: false,
        links_options: false,
    }];
    let linker = link(alloc, &files)?;
    let named = externals(alloc, &linker, choices, package)?;
    Ok(
        match document(alloc, &linker, 0, text, choices, package, Encoding::Utf8) {
            Ok(document) => named.is_empty() && is_due(&document),
            Err(_) => false,
        },
    )
}

/// The same of a text.
fn is_text_made(alloc: Global, text: &Text, package: &PackageId) -> Result<bool, AllocError> {
    let facts = facts_of(alloc, text, false)?;
    let choices = choices_of(alloc, &facts)?;
    is_made(alloc, text, &facts, &choices, package)
}

#[test]
fn document_has_its_occurrences(rt: HostRuntime) -> Result<(), Fail> {
    let source = b"syntax = \"proto3\";\nmessage A {}\n";
    let package = package_of(rt.alloc(), ["", "", ""])?;
    let text = Text::new(rt.alloc(), source)?;
    see(&rt, is_text_made(rt.alloc(), &text, &package)?, "a message");
    Ok(())
}
