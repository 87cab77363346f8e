//! The symbol entries of declarations of included files that sources name, those that their options name among them.

ghost use Rattle.std.specs.Prelude.{◌≡◌, ◌<◌, ℕ, Some, List, OnOk, IfOk, All, length, map};
ghost use Rattle.std.specs.List.{slice_get};
ghost use Rattle.proto_visibility.specs.Files.{IsSource};
ghost use Rattle.proto_visibility.specs.Reaches.{LinksOptions};
ghost use Rattle.scip_model.specs.Chosen.{HaveChoices};
ghost use Rattle.scip_model.specs.Indexes.{AreExternalsWith};
ghost use Rattle.scip_model.specs.Options.{AllLinkOptions};
ghost use Rattle.scip_model.specs.Tables.Additions.{Adds, FromFront};
ghost use Rattle.scip_model.specs.Tables.OptionListing.{AreKnownParts, IsOfOptions, IsOfTarget};
ghost use Rattle.scip_model.specs.Tables.OptionListing.{IsOptionExternal};

use crate::document_maker::Choices;
use crate::external_symbols::{entries_by_symbol, first_included, named_externals, push_parts};
use crate::naming::SymbolPackages;
use basics::Sequence;
use option_link::{OptionLinker, OptionTarget, targets_are_reachable};
use proto_link::Linker;
use scip_records::SymbolInformation;
use std::alloc::{AllocError, Global};

/// Adds those that names with these targets name.
fn push_targets(
    named: &mut Vec<(usize, usize)>,
    linker: &Linker<'_, '_>,
    choices: &Choices,
    targets: &[OptionTarget],
) -> Result<(), AllocError>
    requires { All (AreKnownParts linker.now choices.now) targets.now }
    ensures { OnOk result (Adds (FromFront (IsOfTarget linker.now choices.now) targets.now (length targets.now))
        named.old.items named.new.items) }
{
    for target in targets {
        push_parts(named, linker, choices, target.parts.as_slice())?;
    }
    Ok(())
}

/// Adds those that the options of a source name, which has this text. What an option names is let go at once.
fn push_options(
    named: &mut Vec<(usize, usize)>,
    linker: &Linker<'_, '_>,
    choices: &Choices,
    options: &OptionLinker<'_, '_, '_>,
    source: usize,
    text: &str,
) -> Result<(), AllocError>
    requires files { options.now.files ≡ linker.now }
    requires choices { HaveChoices linker.now choices.now }
    requires source { IsSource linker.now source }
    requires links { LinksOptions linker.now source }
    ensures { OnOk result ((texts : List (List ℕ)) → slice_get texts source ≡ Some text.now
        → Adds (IsOfOptions linker.now options.now.known choices.now texts source) named.old.items named.new.items) }
{
    for option in options.options_of(source) {
        let found = (&*options).targets(*named.allocator(), source, &*text, option)?;
        push_targets(named, linker, choices, found.targets.as_slice())?;
    }
    Ok(())
}

/// Adds those that the options of a file name, which has this text, if it is a source.
fn push_file(
    named: &mut Vec<(usize, usize)>,
    linker: &Linker<'_, '_>,
    choices: &Choices,
    options: &OptionLinker<'_, '_, '_>,
    file: usize,
    text: &str,
) -> Result<(), AllocError>
    requires files { options.now.files ≡ linker.now }
    requires choices { HaveChoices linker.now choices.now }
    requires within { file < length linker.now }
    requires linked { AllLinkOptions linker.now }
    ensures { OnOk result ((texts : List (List ℕ)) → slice_get texts file ≡ Some text.now
        → Adds (IsOfOptions linker.now options.now.known choices.now texts file) named.old.items named.new.items) }
{
    if !linker.is_source(file) {
        return Ok(());
    }
    push_options(named, linker, choices, options, file, text)
}

/// Adds those that the options of all sources name. Each file has the text with its number.
fn push_files(
    named: &mut Vec<(usize, usize)>,
    linker: &Linker<'_, '_>,
    choices: &Choices,
    options: &OptionLinker<'_, '_, '_>,
    texts: &[&str],
) -> Result<(), AllocError>
    requires files { options.now.files ≡ linker.now }
    requires choices { HaveChoices linker.now choices.now }
    requires texts { length texts.now ≡ length linker.now }
    requires linked { AllLinkOptions linker.now }
    ensures { OnOk result (Adds (IsOptionExternal linker.now options.now.known choices.now
        (map (λ text. text.now) texts.now) (length texts.now)) named.old.items named.new.items) }
{
    for (file, text) in texts.iter().enumerate() {
        push_file(named, linker, choices, options, file, *text)?;
    }
    Ok(())
}

/// The external symbol entries of linked files, by symbol: one for each declaration of an included file that is kept by
/// these choices and that a component of a use in a source names, or one of a name in an option of a source.
///
/// A source's options may name what it doesn't see, but reaches. If no file is included, none is looked at, and no
/// memory is taken.
///
/// `choices` has to have a choice for each declaration of each file that has facts, and each file the text with its
/// number; `options` has to be of the same files, and names in the options of each source be linked. An error means
/// that memory was refused.
pub fn externals_with_options(
    alloc: Global,
    named: &SymbolPackages<'_, '_, '_>,
    choices: &Choices,
    options: &OptionLinker<'_, '_, '_>,
    texts: &[&str],
) -> Result<Sequence<SymbolInformation>, AllocError>
    requires choices { HaveChoices named.now.files choices.now }
    requires options { options.now.files ≡ named.now.files }
    requires texts { length texts.now ≡ length named.now.files }
    requires linked { AllLinkOptions named.now.files }
    ensures { IfOk result (AreExternalsWith (Some options.now.known) named.now.files
        (map (λ text. text.now) texts.now) choices.now named.now.ids) }
{
    let linker = named.linker();
    let first = first_included(linker);
    if first == linker.count() {
        return Ok(Sequence::new(alloc));
    }
    let mut pairs = named_externals(alloc, linker, choices, first)?;
    push_files(&mut pairs, linker, choices, options, texts)?;
    // From here on it is known that what options name is in reachable files.
    targets_are_reachable();
    entries_by_symbol(alloc, named, choices, pairs)
}
