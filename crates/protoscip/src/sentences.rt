//! A sentence about a fault, by what the tree holds.

ghost use Rattle.std.specs.Prelude.{◌≡◌};
ghost use Rattle.diagnostics.specs.Literals.{joined};
ghost use Rattle.protoscip.specs.Explanations.{
  has_path,
  is_edition,
  is_well_known,
  met_sentence,
  sentence_in,
  spanned,
};
ghost use Rattle.protoscip.specs.FaultLines.{HasFile, HasFilesOf};

use crate::explaining::{head, tail};
use crate::fault::Fault;
use crate::fault_texts::syntax_text;
use crate::required::has_required;
use diagnostics::{is_joined, token_len};
use proto_link::FilePlace;
use proto_parse::SyntaxFault;
use source_tree::Tree;

/// Whether the token there is the word `edition`.
fn is_edition(bytes: &[u8]) -> bool
    ensures { result ≡ is_edition bytes.now }
{
    bytes.split_at(token_len(bytes)).0 == b"edition".as_slice()
}

/// For a fault of the parser, by the text.
fn met_sentence(text: &[u8], fault: &SyntaxFault) -> &'static str
    ensures { result.now ≡ met_sentence text.now fault.now }
{
    match fault {
        SyntaxFault::NotProto3(at) => {
            if is_edition(tail(text, *at)) {
                return "editions aren't read, only proto3, and, with `--accept all`, proto2";
            }
            syntax_text(fault).sentence
        }
        SyntaxFault::Grammar(at) => {
            if has_required(text, *at) {
                return "proto3 has no `required`: leave it out; with `--accept all` a source may be proto2";
            }
            syntax_text(fault).sentence
        }
        SyntaxFault::CustomOption(_)
        | SyntaxFault::Aggregate(_)
        | SyntaxFault::Extend(_)
        | SyntaxFault::TwoPackages(_)
        | SyntaxFault::ImportEscape(_)
        | SyntaxFault::TooDeep(_)
        | SyntaxFault::Memory => syntax_text(fault).sentence,
    }
}

/// The bytes of a place: of an import they are string literals, which spell its path together.
pub(crate) fn spanned<'a>(tree: &'a Tree, place: &FilePlace) -> &'a [u8]
    requires { HasFile tree.now place.now.file }
    ensures { result.now ≡ spanned tree.now place.now }
{
    let len = (place.span.end as usize).saturating_sub(place.span.start as usize);
    let behind = tail(tree.bytes(place.file), place.span.start as usize);
    head(behind, len)
}

/// Whether one of the files has the path that these literals spell.
fn has_path(tree: &Tree, literals: &[u8]) -> bool
    ensures { result ≡ has_path (joined literals.now) tree.now }
{
    for number in 0..tree.file_count() {
        if is_joined(literals, tree.path(number).as_bytes()) {
            return true;
        }
    }
    false
}

/// Whether the first of an import's literals begins as the paths of the well-known files do.
fn is_well_known(literals: &[u8]) -> bool
    ensures { result ≡ is_well_known literals.now }
{
    tail(literals, 1).starts_with(b"google/protobuf/")
}

/// For a fault of a tree, by what that holds; empty for lack of memory. An import without a file may be of one that is
/// left out, or of a well-known one. If two places have one full name, it is that of the second.
pub(crate) fn sentence_in(tree: &Tree, fault: &Fault) -> &'static str
    requires { HasFilesOf tree.now fault.now }
    ensures { result.now ≡ sentence_in tree.now fault.now }
{
    match fault {
        Fault::Syntax(file, syntax) => met_sentence(tree.bytes(*file), syntax),
        Fault::MissingImport(place) => {
            let literals = spanned(tree, place);
            if has_path(tree, literals) {
                return "the file with this path is left out";
            }
            if is_well_known(literals) {
                return "no source has this path; `--well-known` includes the well-known files";
            }
            fault.text().sentence
        }
        Fault::Spawn
        | Fault::Memory
        | Fault::Unread(_)
        | Fault::Lex(..)
        | Fault::Duplicate(..)
        | Fault::Unresolved(_)
        | Fault::Ambiguous(_)
        | Fault::OptionGap(_)
        | Fault::Uncertain(..)
        | Fault::TooLarge
        | Fault::Write(_)
        | Fault::Read
        | Fault::Answer(_) => fault.text().sentence,
    }
}
