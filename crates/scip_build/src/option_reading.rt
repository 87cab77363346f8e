//! What is known of a file beside its facts.

ghost use Rattle.std.specs.Prelude.{◌≡◌, ◌∷◌, [], true, false, IfErr, IfOk, map};
ghost use Rattle.proto_parse.specs.dialect.Dialect.TheVariants.{All};
ghost use Rattle.proto_parse.specs.Derives.{Derives};
ghost use Rattle.proto_decl.specs.Declares.{package_spans};
ghost use Rattle.proto_decl.specs.Names.{components_at, dotted};
ghost use Rattle.proto_options.specs.Fields.{fields_in};
ghost use Rattle.proto_options.specs.Messages.{messages_in};
ghost use Rattle.proto_options.specs.Options.{AreOptionsOf};
ghost use Rattle.scip_build.specs.Parsed.{asks_options};
ghost use Rattle.scip_build.specs.declared.file_parsing.NoContents.TheVariants.{Memory};

use crate::file_parsing::NoContents;
use basics::{OwnedText, Sequence};
use option_link::OptionFacts;
use proto_decl::{Component, FileFacts};
use proto_lex::Tokens;
use proto_options::{FileOption, fields_of, messages_of, options_of};
use proto_parse::{Dialect, File};
use std::alloc::{AllocError, Global};

/// Whether names in options are linked: in the dialect of all sources only.
pub(crate) fn asks_options(dialect: Dialect, options: bool) -> bool
    ensures { result ≡ asks_options dialect options }
{
    match dialect {
        Dialect::All => options,
        Dialect::Proto3(_) => false,
    }
}

/// The names of components, joined by dots.
fn joined_names(
    alloc: Global,
    first: &Component<'_>,
    others: &[Component<'_>],
) -> Result<OwnedText, AllocError>
    ensures { IfOk result (λ joined. joined
        ≡ dotted (map (λ component. component.name) (first.now ∷ others.now))) }
{
    let mut joined = String::from_str(alloc, first.name.as_str())?;
    for component in others {
        joined.push_str(".")?;
        joined.push_str(component.name.as_str())?;
    }
    Ok(OwnedText::from_string(joined))
}

/// The full name of the package with these components; empty if there are none.
fn package_name(alloc: Global, components: &[Component<'_>]) -> Result<OwnedText, AllocError>
    ensures { IfOk result (λ name. name ≡ dotted (map (λ component. component.name) components.now)) }
{
    match components {
        [] => Ok(OwnedText::new(alloc)),
        [first, others @ ..] => joined_names(alloc, first, others),
    }
}

/// The options of a file; none of one that is included, since it has no document.
fn options_if_source(
    alloc: Global,
    lexed: &Tokens<'_, '_>,
    tree: &File,
    facts: &FileFacts<'_>,
    is_included: bool,
) -> Result<Sequence<FileOption>, NoContents>
    requires derives { Derives All lexed.now.text lexed.now.tokens tree.now }
    requires packaged { facts.now.package_name
        ≡ components_at lexed.now.text (package_spans tree.now.package_name) }
    ensures of_source { IfOk result (λ options. is_included ≡ false → AreOptionsOf All lexed.now tree.now options) }
    ensures of_included { IfOk result (λ options. is_included ≡ true → options ≡ []) }
    ensures refused { IfErr result (λ fault. fault ≡ Memory) }
{
    if is_included {
        return Ok(Sequence::new(alloc));
    }
    let name = package_name(alloc, facts.package_name())?;
    match options_of(alloc, lexed, tree, name.as_str()) {
        Ok(options) => Ok(options),
        Err(_) => Err(NoContents::Memory),
    }
}

/// What is known of a file beside its facts: its options, what its fields are of, and what its messages say of names.
/// `Memory` is the only fault.
pub(crate) fn beside_of(
    alloc: Global,
    lexed: &Tokens<'_, '_>,
    tree: &File,
    facts: &FileFacts<'_>,
    is_included: bool,
) -> Result<OptionFacts, NoContents>
    requires derives { Derives All lexed.now.text lexed.now.tokens tree.now }
    requires packaged { facts.now.package_name
        ≡ components_at lexed.now.text (package_spans tree.now.package_name) }
    ensures of_source { IfOk result (λ beside. is_included ≡ false
        → AreOptionsOf All lexed.now tree.now beside.options) }
    ensures of_included { IfOk result (λ beside. is_included ≡ true → beside.options ≡ []) }
    ensures fields { IfOk result (λ beside. beside.fields ≡ fields_in tree.now) }
    ensures messages { IfOk result (λ beside. beside.messages ≡ messages_in lexed.now tree.now) }
    ensures refused { IfErr result (λ fault. fault ≡ Memory) }
{
    let options = options_if_source(alloc, lexed, tree, facts, is_included)?;
    let fields = fields_of(alloc, tree)?;
    let messages = messages_of(alloc, lexed, tree)?;
    Ok(OptionFacts {
        options,
        fields,
        messages,
    })
}
