//! From the bytes of a file to its contents.

ghost use Rattle.std.specs.Prelude.{◌≡◌, ◌<◌, ℕ, false, true, List, length, IfErr, IfOk, MatchResult};
ghost use Rattle.proto_lex.specs.Text.{IsText};
ghost use Rattle.scip_build.specs.FileFaults.{fault_of_lexing, fault_of_parsing, MayRefuseFile};
ghost use Rattle.proto_parse.specs.dialect.Dialect.TheVariants.{All};
ghost use Rattle.proto_parse.specs.Derives.{Derives};
ghost use Rattle.proto_decl.specs.Declares.{package_spans};
ghost use Rattle.proto_decl.specs.Names.{components_at};
ghost use Rattle.scip_build.specs.declared.file_parsing.NoContents.TheVariants.{Memory};
ghost use Rattle.scip_build.specs.Parsed.{asks_options, form_by, AreFactsIn, HasLexing, IsBesideIf};
ghost use Rattle.scip_build.specs.ParsedFiles.{AreContentsOf, GivesParsedFile, IsParsedFile, MayRefuseParsing};

use crate::choosing::choose_each;
use crate::fault::FileFault;
use crate::faulty::Faulty;
use crate::option_reading::{asks_options, beside_of};
use crate::parsed_file::{Contents, ParsedFile};
use crate::read_form::ReadForm;
use index_hooks::Chooses;
use option_link::OptionFacts;
use proto_decl::{FactForm, FileFacts, declare_with};
use proto_lex::{LexFault, Text, Tokens, lex_with};
use proto_parse::{Dialect, File, SyntaxFault, parse_with};
use source_tree::Tree;
use std::alloc::{AllocError, Global};

/// By what files are read: what chooses for their declarations, which are accepted, what is told of
/// their declarations, and what is done with those that can't be read.
#[derive(Drop)]
pub(crate) struct Reader<'c, C> {
    pub(crate) alloc: Global,
    pub(crate) chooser: &'c C,
    pub(crate) dialect: Dialect,
    pub(crate) form: ReadForm,
    pub(crate) faulty: Faulty,
}

/// Why a file has no contents.
#[derive(Clone, Copy, Debug, Drop)]
pub(crate) enum NoContents {
    /// Memory ran out: that is no fault of the file.
    Memory,
    /// It can't be read.
    Unreadable(FileFault),
}

impl From<AllocError> for NoContents {
    ghost use Rattle.scip_build.specs.declared.file_parsing.NoContents.TheVariants.{Memory};

    ghost from_gives = { λ _ e. e ≡ Memory };

    fn from(_refused: AllocError) -> NoContents {
        NoContents::Memory
    }
}

/// Why a file has no lexing.
fn unlexed(fault: LexFault) -> NoContents
    ensures { result ≡ fault_of_lexing fault }
{
    match fault {
        LexFault::Memory => NoContents::Memory,
        fault => NoContents::Unreadable(FileFault::Lex(fault)),
    }
}

/// Why a file has no tree.
fn unparsed(fault: SyntaxFault) -> NoContents
    ensures { result ≡ fault_of_parsing fault }
{
    match fault {
        SyntaxFault::Memory => NoContents::Memory,
        fault => NoContents::Unreadable(FileFault::Syntax(fault)),
    }
}

/// The form in which facts are told in a dialect. If bytes in comments needn't be UTF-8, a NUL is read for each that
/// isn't, and U+FFFD is given for it.
fn form_by(dialect: Dialect, form: FactForm) -> FactForm
    ensures { result ≡ form_by dialect form }
{
    match dialect {
        Dialect::Proto3(_) => form,
        Dialect::All => FactForm {
            comments: form.comments.nul_replaced(),
            details: form.details,
        },
    }
}

/// The facts of a text, and what is known beside them, if it is asked for.
#[derive(Drop)]
struct Known<'a> {
    facts: FileFacts<'a>,
    beside: Option<OptionFacts>,
}

/// What is known of a text beside its facts, if it is asked for. `Memory` is the only fault.
fn beside_if_asked(
    alloc: Global,
    asked: bool,
    lexed: &Tokens<'_, '_>,
    tree: &File,
    facts: &FileFacts<'_>,
    is_included: bool,
) -> Result<Option<OptionFacts>, NoContents>
    requires derives { asked ≡ true → Derives All lexed.now.text lexed.now.tokens tree.now }
    requires packaged { facts.now.package_name
        ≡ components_at lexed.now.text (package_spans tree.now.package_name) }
    ensures given { IfOk result (λ beside. (bytes : List ℕ) → (asked ≡ true → HasLexing All bytes lexed.now)
        → IsBesideIf asked bytes is_included beside) }
    ensures refused { IfErr result (λ fault. fault ≡ Memory) }
{
    if !asked {
        return Ok(None);
    }
    let beside = beside_of(alloc, lexed, tree, facts, is_included)?;
    Ok(Some(beside))
}

/// The facts of a text: it is lexed whole, then parsed, then declared. Then its options are read, if they are asked
/// for.
#[tactic(auto, using(crate::proofs::OptionReadingLemmas::beside_from))]
fn facts_of<'a>(
    alloc: Global,
    number: usize,
    text: &Text<'a>,
    dialect: Dialect,
    form: ReadForm,
    is_included: bool,
) -> Result<Known<'a>, NoContents>
    requires { IsText text.now }
    ensures { MatchResult result
        (λ known. AreFactsIn dialect form.facts number text.now known.facts
        × IsBesideIf (asks_options dialect form.options) text.now is_included known.beside)
        (MayRefuseFile dialect false text.now) }
{
    let lexed = match lex_with(alloc, text, dialect.hashes()) {
        Ok(lexed) => lexed,
        Err(fault) => return Err(unlexed(fault)),
    };
    let tree = match parse_with(alloc, &lexed, dialect) {
        Ok(tree) => tree,
        Err(fault) => return Err(unparsed(fault)),
    };
    let facts = declare_with(alloc, form_by(dialect, form.facts), number, &lexed, &tree)?;
    let asked = asks_options(dialect, form.options);
    let beside = beside_if_asked(alloc, asked, &lexed, &tree, &facts, is_included)?;
    Ok(Known { facts, beside })
}

/// The contents of the file with this number, of which these bytes are read.
fn contents_of<'a, C: Chooses>(
    reader: &Reader<'_, C>,
    number: usize,
    bytes: &'a [u8],
    is_included: bool,
) -> Result<Contents<'a>, NoContents>
    ensures { MatchResult result
        (AreContentsOf reader.now.dialect reader.now.form is_included false (C.allows reader.now.chooser.now) number
        bytes.now)
        (MayRefuseFile reader.now.dialect false bytes.now) }
{
    let text = match Text::new(reader.alloc, bytes) {
        Ok(text) => text,
        Err(fault) => return Err(unlexed(fault)),
    };
    let known = facts_of(
        reader.alloc,
        number,
        &text,
        reader.dialect,
        reader.form,
        is_included,
    )?;
    let choices = choose_each(reader.alloc, reader.chooser, known.facts.declarations())?;
    Ok(Contents {
        text,
        facts: known.facts,
        choices,
        beside: known.beside,
    })
}

/// The contents of the file with this number, of which these bytes are read, unless it couldn't be read.
fn contents_unless_unread<'a, C: Chooses>(
    reader: &Reader<'_, C>,
    number: usize,
    bytes: &'a [u8],
    is_included: bool,
    is_unread: bool,
) -> Result<Contents<'a>, NoContents>
    ensures { MatchResult result
        (AreContentsOf reader.now.dialect reader.now.form is_included is_unread (C.allows reader.now.chooser.now)
        number bytes.now)
        (MayRefuseFile reader.now.dialect is_unread bytes.now) }
{
    if is_unread {
        return Err(NoContents::Unreadable(FileFault::Unread));
    }
    contents_of(reader, number, bytes, is_included)
}

/// Reads the file with this number, which has this path, and of which these bytes are read. A file that can't be read,
/// and isn't refused for it, has its fault in place of contents.
fn read_parts<'a, C: Chooses>(
    reader: &Reader<'_, C>,
    number: usize,
    path: &'a str,
    bytes: &'a [u8],
    is_included: bool,
    is_unread: bool,
) -> Result<ParsedFile<'a>, NoContents>
    ensures { (all : List ℕ) → MatchResult result
        (IsParsedFile reader.now.faulty reader.now.dialect reader.now.form (C.allows reader.now.chooser.now) number
        (record { path = path.now; bytes = all; text = bytes.now; is_included = is_included; is_unread = is_unread }))
        (MayRefuseParsing reader.now.faulty reader.now.dialect
        (record { path = path.now; bytes = all; text = bytes.now; is_included = is_included; is_unread = is_unread })) }
{
    let links_options = asks_options(reader.dialect, reader.form.options);
    match contents_unless_unread(reader, number, bytes, is_included, is_unread) {
        Ok(contents) => Ok(ParsedFile {
            path,
            is_included,
            is_left_out: false,
            links_options,
            contents: Ok(contents),
        }),
        Err(NoContents::Unreadable(fault)) => {
            if reader.faulty.may_be_unread(is_included) {
                Ok(ParsedFile {
                    path,
                    is_included,
                    is_left_out: false,
                    links_options,
                    contents: Err(fault),
                })
            } else {
                Err(NoContents::Unreadable(fault))
            }
        }
        Err(NoContents::Memory) => Err(NoContents::Memory),
    }
}

/// Reads the file of a tree with this number.
pub(crate) fn read_file<'a, C: Chooses>(
    reader: &Reader<'_, C>,
    number: usize,
    tree: &'a Tree,
) -> Result<ParsedFile<'a>, NoContents>
    requires { number < length tree.now }
    ensures { GivesParsedFile reader.now.faulty reader.now.dialect reader.now.form
        (C.allows reader.now.chooser.now) tree.now number result }
{
    read_parts(
        reader,
        number,
        tree.path(number),
        tree.text(number),
        tree.is_included(number),
        tree.is_unread(number),
    )
}
