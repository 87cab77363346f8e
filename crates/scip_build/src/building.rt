//! From a tree to its index.

ghost use Rattle.std.specs.Prelude.{◌≡◌, ◌≤◌, true, false, length, IfOk, IfErr, MatchOption, MatchResult};
ghost use Rattle.index_pool.specs.declared.workers.TheConstants.{MAX_INPUTS};
ghost use Rattle.proto_visibility.specs.Absences.{AreMissing};
ghost use Rattle.proto_visibility.specs.Linked.{HaveClearNames};
ghost use Rattle.option_link.specs.Fields.{AreInOrder};
ghost use Rattle.scip_model.specs.Indexes.{metadata_of, AreExternalsWith};
ghost use Rattle.scip_build.specs.FactForms.{form_of};
ghost use Rattle.scip_build.specs.declared.faulty.Faulty.TheVariants.{Refuse, Skip};
ghost use Rattle.scip_build.specs.Linking.{linked_files};
ghost use Rattle.scip_build.specs.Documents as spec;
ghost use Rattle.scip_build.specs.Documents.{asked_in, asks_in, known_in, MayRefuseLinked};
ghost use Rattle.scip_build.specs.Telling.{AreUncertain, AreUseFaults};
ghost use Rattle.scip_build.specs.Ready.{AreOfTree, ArePresent};
ghost use Rattle.scip_build.specs.Making.{MayRefuseMaking, MayRefuseSkipping};
ghost use Rattle.scip_build.specs.Placing.{kept_at};
ghost use Rattle.scip_build.specs.Forms.{index_of, IsMadeOf, IsLinkedAndMade, IsBuiltOfInForm};
ghost use Rattle.scip_build.specs.Forms.{IsBuiltInForm};
ghost use Rattle.scip_build.specs.Builds.{IsBuilt, IsBuildFault};
ghost use Rattle.scip_build.specs.Works.{AreLent, HasOptions, IsReady, MayRefuseAny, IsMadeFrom};

use crate::built::Built;
use crate::chosen::chosen_lists;
use crate::document_form::{AsRecords, DocumentForm};
use crate::fault::BuildFault;
use crate::faulty::Faulty;
use crate::keeping::{keep_files, sources_among};
use crate::linked_options::{files_beside, texts_of};
use crate::linked_sources::LinkedSources;
use crate::linking::{link, linked_files};
use crate::made::{KeptParts, Made, MadeParts};
use crate::option_gaps::without_gaps;
use crate::option_reading::asks_options;
use crate::parsed_file::ParsedFile;
use crate::parts::{BuiltParts, Parts};
use crate::phase_one::parse_files;
use crate::phase_two::make_documents;
use crate::read_form::ReadForm;
use crate::run::Run;
use crate::settings::Settings;
use crate::telling::tell;
use crate::unresolved_uses::{
    add_names, documents_of, option_gaps_of, uncertain_names_of, unresolved_of,
};
use crate::use_faults::{faults_at, refusal_by};
use basics::tool::{NAME, VERSION};
use basics::{OwnedText, Sequence};
use index_hooks::Chooses;
use index_pool::Gate;
use option_link::{FilesBeside, OptionLinker};
use proto_decl::FactForm;
use proto_link::{Linker, kept_files_are_clear};
use proto_options::fields_stand_in_order;
use scip_model::{Choices, SymbolPackages, externals_in_packages, externals_with_options};
use scip_records::{Document, Index, Metadata, SymbolInformation, ToolInfo};
use source_tree::Tree;
use std::alloc::{AllocError, Global};
use std::sync::Wait;
use std::thread::Threads;

/// What the index says about itself.
fn metadata(alloc: Global, project_root: &OwnedText) -> Result<Metadata, AllocError>
    ensures { IfOk result (λ made. made ≡ metadata_of project_root.now) }
{
    let tool_info = ToolInfo {
        name: OwnedText::copy_of(alloc, NAME)?,
        version: OwnedText::copy_of(alloc, VERSION)?,
        arguments: Sequence::new(alloc),
    };
    Ok(Metadata {
        version: 0,
        tool_info: Some(tool_info),
        project_root: OwnedText::copy_of(alloc, project_root.as_str())?,
        text_document_encoding: 1,
    })
}

/// The external entries, with those that names in options name if they are linked.
fn externals_of(
    sources: &LinkedSources<'_, '_, '_, '_>,
) -> Result<Sequence<SymbolInformation>, AllocError>
    requires ready { IsReady sources.now }
    requires options { HasOptions sources.now }
    ensures { IfOk result (AreExternalsWith (asked_in sources.now.settings.now sources.now.parsed.now)
        sources.now.package.now.files (spec.texts_of sources.now.parsed.now) sources.now.choices.now
        sources.now.package.now.ids) }
{
    let alloc = sources.alloc;
    match sources.options {
        Some(options) => {
            let texts = texts_of(alloc, sources.parsed)?;
            externals_with_options(
                alloc,
                sources.package,
                sources.choices,
                options,
                texts.as_slice(),
            )
        }
        None => externals_in_packages(alloc, sources.package, sources.choices),
    }
}

/// The options of linked files, if names in them are linked.
fn options_if_asked<'n, 'a, 't>(
    alloc: Global,
    linker: &'n Linker<'a, 't>,
    beside: &'n FilesBeside<'n>,
    asked: bool,
) -> Result<Option<OptionLinker<'n, 'a, 't>>, AllocError>
    requires each { asked ≡ true → length beside.now ≡ length linker.now }
    requires in_order { asked ≡ true → AreInOrder beside.now }
    ensures { IfOk result (λ options. MatchOption options (asked ≡ false)
        (λ linked. (asked ≡ true) × (linked ≡ record { files = linker.now; known = beside.now }))) }
{
    if !asked {
        return Ok(None);
    }
    let options = OptionLinker::new(alloc, linker, beside)?;
    Ok(Some(options))
}

/// The parts of the index of linked files, the uses that name no type, and the gaps and uncertain names of options: the
/// documents come by path, so none is looked for.
#[tactic(auto, using(crate::proofs::LinkingRefusalRules::of_documents))]
fn make_parts<R: Threads + Wait, G: Gate, F: DocumentForm + Sync>(
    run: &Run<'_, R, G>,
    sources: &LinkedSources<'_, '_, '_, '_>,
    form: &F,
) -> Result<MadeParts<F::Kept>, BuildFault>
    requires few { sources.now.count ≤ MAX_INPUTS }
    requires ready { IsReady sources.now }
    requires options { HasOptions sources.now }
    ensures { MatchResult result
        (λ made. IsMadeFrom sources.now F.is_kept made.parts made.unresolved_uses made.option_gaps
        made.uncertain_names)
        (MayRefuseAny sources.now run.now.workers) }
{
    let made = make_documents(run, sources, form)?;
    let unresolved_uses = unresolved_of(run.alloc, made.as_slice())?;
    let option_gaps = option_gaps_of(run.alloc, made.as_slice())?;
    let uncertain_names = uncertain_names_of(run.alloc, made.as_slice())?;
    let documents = documents_of(run.alloc, made)?;
    let external_symbols = externals_of(sources)?;
    let settings = sources.settings;
    let metadata = metadata(run.alloc, &settings.project_root)?;
    let parts = Parts {
        metadata: Some(metadata),
        documents: Sequence::from_vec(documents),
        external_symbols,
    };
    Ok(MadeParts {
        parts,
        unresolved_uses: Sequence::from_vec(unresolved_uses),
        option_gaps: Sequence::from_vec(option_gaps),
        uncertain_names: Sequence::from_vec(uncertain_names),
    })
}

/// What is made of linked files that were read, with these options if names in options are linked.
#[tactic(auto, using(crate::proofs::LinkingRefusalRules::of_linked))]
fn make_from<'l, 'f, R: Threads + Wait, G: Gate, F: DocumentForm + Sync>(
    run: &Run<'_, R, G>,
    linker: &Linker<'l, 'f>,
    parsed: &[ParsedFile<'_>],
    options: Option<&OptionLinker<'_, 'l, 'f>>,
    settings: &Settings,
    form: &F,
) -> Result<Made<F::Kept>, BuildFault>
    requires files { linker.now ≡ linked_files parsed.now }
    requires tree { AreOfTree (asks_in settings.now) parsed.now }
    requires clear { HaveClearNames settings.now.duplicates (linked_files parsed.now) }
    requires options { AreLent (asked_in settings.now parsed.now) linker.now options }
    ensures { MatchResult result
        (IsMadeOf (kept_at settings.now.at F.is_kept) parsed.now settings.now)
        (MayRefuseLinked settings.now.faulty (asked_in settings.now parsed.now) parsed.now (linked_files parsed.now)
        run.now.workers) }
{
    let choices = Choices::new(chosen_lists(run.alloc, parsed)?);
    let package = SymbolPackages::of(run.alloc, linker, &settings.package)?;
    let sources = LinkedSources {
        alloc: run.alloc,
        package: &package,
        parsed,
        choices: &choices,
        settings,
        options,
        count: sources_among(parsed),
    };
    let made = match make_parts(run, &sources, form) {
        Ok(made) => made,
        Err(fault) => return Err(refusal_by(run.alloc, linker, fault)),
    };
    let made = Made {
        parts: made.parts,
        choices,
        unresolved_uses: made.unresolved_uses,
        option_gaps: made.option_gaps,
        uncertain_names: made.uncertain_names,
    };
    without_gaps(settings.faulty, made)
}

/// What is made of linked files that were read, by what is known beside their facts if names in options are linked.
#[tactic(auto, using(crate::proofs::LinkingRefusalRules::of_linked))]
fn make_with<'x, R: Threads + Wait, G: Gate, F: DocumentForm + Sync>(
    run: &Run<'_, R, G>,
    linker: &'x Linker<'_, '_>,
    parsed: &[ParsedFile<'_>],
    beside: &'x FilesBeside<'_>,
    settings: &Settings,
    form: &F,
) -> Result<Made<F::Kept>, BuildFault>
    requires files { linker.now ≡ linked_files parsed.now }
    requires tree { AreOfTree (asks_in settings.now) parsed.now }
    requires clear { HaveClearNames settings.now.duplicates (linked_files parsed.now) }
    requires beside { asks_in settings.now ≡ true → beside.now ≡ known_in parsed.now }
    ensures { MatchResult result
        (IsMadeOf (kept_at settings.now.at F.is_kept) parsed.now settings.now)
        (MayRefuseLinked settings.now.faulty (asked_in settings.now parsed.now) parsed.now (linked_files parsed.now)
        run.now.workers) }
{
    let asked = asks_options(settings.dialect, settings.options);
    let options = options_if_asked(run.alloc, linker, beside, asked)?;
    make_from(run, linker, parsed, options.as_ref(), settings, form)
}

/// What is made of linked files that were read.
#[tactic(auto, using(crate::proofs::LinkingRefusalRules::of_linked))]
fn make_linked<R: Threads + Wait, G: Gate, F: DocumentForm + Sync>(
    run: &Run<'_, R, G>,
    linker: &Linker<'_, '_>,
    parsed: &[ParsedFile<'_>],
    settings: &Settings,
    form: &F,
) -> Result<Made<F::Kept>, BuildFault>
    requires files { linker.now ≡ linked_files parsed.now }
    requires tree { AreOfTree (asks_in settings.now) parsed.now }
    requires clear { HaveClearNames settings.now.duplicates (linked_files parsed.now) }
    ensures { MatchResult result
        (IsMadeOf (kept_at settings.now.at F.is_kept) parsed.now settings.now)
        (MayRefuseLinked settings.now.faulty (asked_in settings.now parsed.now) parsed.now (linked_files parsed.now)
        run.now.workers) }
{
    let asked = asks_options(settings.dialect, settings.options);
    let beside = files_beside(run.alloc, parsed, asked)?;
    make_with(run, linker, parsed, &beside, settings, form)
}

/// What is made of all files that were read, if faults are refused.
fn make_whole<R: Threads + Wait, G: Gate, F: DocumentForm + Sync>(
    run: &Run<'_, R, G>,
    parsed: &[ParsedFile<'_>],
    settings: &Settings,
    form: &F,
) -> Result<Made<F::Kept>, BuildFault>
    requires tree { AreOfTree (asks_in settings.now) parsed.now }
    requires refuse { settings.now.faulty ≡ Refuse }
    ensures { MatchResult result
        (IsLinkedAndMade (kept_at settings.now.at F.is_kept) parsed.now settings.now)
        (MayRefuseMaking settings.now.duplicates (asks_in settings.now) parsed.now run.now.workers) }
{
    let files = linked_files(run.alloc, parsed)?;
    let linker = link(run, parsed, files.as_slice(), settings.duplicates)?;
    make_linked(run, &linker, parsed, settings, form)
}

/// What is made of the files that are kept, the imports of them that name no file, why uses of them name nothing, and
/// which of them may name another type, or which names in their options another field.
#[tactic(auto, using(crate::proofs::LinkingRefusalRules::of_skipping))]
fn make_kept<R: Threads + Wait, G: Gate, F: DocumentForm + Sync>(
    run: &Run<'_, R, G>,
    parsed: &[ParsedFile<'_>],
    settings: &Settings,
    form: &F,
) -> Result<KeptParts<F::Kept>, BuildFault>
    requires tree { AreOfTree (asks_in settings.now) parsed.now }
    requires clear { HaveClearNames settings.now.duplicates (linked_files parsed.now) }
    requires skip { settings.now.faulty ≡ Skip }
    ensures { MatchResult result
        (λ kept. IsMadeOf (kept_at settings.now.at F.is_kept) parsed.now settings.now kept.made
        × AreMissing (linked_files parsed.now) kept.missing.items
        × AreUseFaults (linked_files parsed.now) kept.made.unresolved_uses kept.faults.items
        × AreUncertain (asked_in settings.now parsed.now) parsed.now (linked_files parsed.now)
        kept.uncertain.items)
        (MayRefuseSkipping run.now.workers) }
{
    let files = linked_files(run.alloc, parsed)?;
    let linker = Linker::of_kept(run.alloc, files.as_slice(), settings.duplicates)?;
    let missing = linker.missing_imports(run.alloc)?;
    let made = make_linked(run, &linker, parsed, settings, form)?;
    let faults = faults_at(run.alloc, &linker, made.unresolved_uses.as_slice())?;
    let mut uncertain = linker.uncertain_uses(run.alloc)?;
    add_names(&mut uncertain, made.uncertain_names.as_slice())?;
    Ok(KeptParts {
        made,
        missing,
        faults,
        uncertain,
    })
}

/// The parts of the index of a tree that was read, if faults are refused.
fn build_whole<'a, R: Threads + Wait, G: Gate, F: DocumentForm + Sync>(
    run: &Run<'_, R, G>,
    all: Vec<ParsedFile<'a>>,
    settings: &Settings,
    form: &F,
) -> Result<BuiltParts<'a, F::Kept>, BuildFault>
    requires tree { AreOfTree (asks_in settings.now) all.items }
    requires refuse { settings.now.faulty ≡ Refuse }
    ensures { MatchResult result
        (λ built. IsBuiltOfInForm (kept_at settings.now.at F.is_kept) all.entry.items settings.now built.choices
        built.told built.parts)
        (MayRefuseMaking settings.now.duplicates (asks_in settings.now) all.entry.items run.now.workers) }
{
    let made = make_whole(run, all.as_slice(), settings, form)?;
    Ok(BuiltParts {
        parts: made.parts,
        choices: made.choices,
        parsed: all,
        told: Sequence::new(run.alloc),
    })
}

/// The parts of the index of what is kept of a tree that was read, and what is told of the rest.
#[tactic(auto, using(crate::proofs::LinkingRefusalRules::of_skipping))]
fn build_kept<'a, R: Threads + Wait, G: Gate, F: DocumentForm + Sync>(
    run: &Run<'_, R, G>,
    all: Vec<ParsedFile<'a>>,
    settings: &Settings,
    form: &F,
) -> Result<BuiltParts<'a, F::Kept>, BuildFault>
    requires tree { AreOfTree (asks_in settings.now) all.items }
    requires present { ArePresent all.items }
    requires skip { settings.now.faulty ≡ Skip }
    ensures { MatchResult result
        (λ built. IsBuiltOfInForm (kept_at settings.now.at F.is_kept) all.entry.items settings.now built.choices
        built.told built.parts)
        (MayRefuseSkipping run.now.workers) }
{
    kept_files_are_clear();
    let kept = keep_files(run.alloc, all, settings.duplicates)?;
    let of_kept = make_kept(run, kept.parsed.as_slice(), settings, form)?;
    let told = tell(
        kept.told,
        kept.numbers.as_slice(),
        of_kept.missing.as_slice(),
        of_kept.faults.as_slice(),
        of_kept.uncertain.as_slice(),
        of_kept.made.option_gaps.as_slice(),
    )?;
    Ok(BuiltParts {
        parts: of_kept.made.parts,
        choices: of_kept.made.choices,
        parsed: kept.parsed,
        told: Sequence::from_vec(told),
    })
}

/// Builds the index of a tree's sources, as `build` does, but keeps of each document only what the form
/// says, and lets go of it at once. The refusals are those of `build`.
pub fn build_in_form<'a, R: Threads + Wait, C: Chooses + Sync, G: Gate, F: DocumentForm + Sync>(
    run: &Run<'_, R, G>,
    tree: &'a Tree,
    chooser: &C,
    settings: &Settings,
    form: &F,
) -> Result<BuiltParts<'a, F::Kept>, BuildFault>
    ensures built { IfOk result (λ built. IsBuiltInForm F.is_kept (C.allows chooser.now) settings.now tree.now
        built.choices built.told built.parts) }
    ensures refused { IfErr result (IsBuildFault (C.allows chooser.now) settings.now tree.now run.now.workers) }
{
    // From here on it is known that the files are those of a tree.
    tree.file_count();
    fields_stand_in_order();
    let facts = FactForm {
        comments: settings.comments,
        details: settings.details,
    };
    let form_of_files = ReadForm {
        facts,
        options: settings.options,
    };
    let all = parse_files(
        run,
        tree,
        chooser,
        settings.dialect,
        form_of_files,
        settings.faulty,
    )?;
    match settings.faulty {
        Faulty::Refuse => build_whole(run, all, settings, form),
        Faulty::Skip => build_kept(run, all, settings, form),
    }
}

/// The index of parts of which the documents are kept as they are.
fn index_of(parts: Parts<Document>) -> Index
    ensures { result ≡ index_of parts }
{
    Index {
        metadata: parts.metadata,
        documents: parts.documents,
        external_symbols: parts.external_symbols,
    }
}

/// Builds the index of a tree's sources, by what the chooser chooses for each declaration and by the settings, on
/// this many workers. The gate's calls come round each file as it is read, and then round each source as its document
/// is made.
///
/// If faults are skipped, the files that have one are left out, and imports and uses that then name nothing don't
/// occur; what is told beside the index is just these, the options that have gaps, if names in options are linked, the
/// uses that may name another type once a file can be read, and the names in options that may then name another field;
/// and `Spawn` and `Memory` alone are refusals. Else
/// nothing is told, and of the refusals the first is answered: `Spawn`, `Memory`, or the first source that can't be
/// read; then the first included file that some source reaches and that can't be read; then `Duplicate`,
/// `MissingImport`; then `Spawn`, `Memory`, or the first use of the first source in which one names no type; then
/// `OptionGap`. A refused growth ends the step that it is in with `Memory`. File numbers, of refusals and of what is
/// told, are those of the tree.
pub fn build<R: Threads + Wait, C: Chooses + Sync, G: Gate>(
    run: &Run<'_, R, G>,
    tree: &Tree,
    chooser: &C,
    settings: &Settings,
) -> Result<Built, BuildFault>
    ensures built { IfOk result (IsBuilt (C.allows chooser.now) settings.now tree.now) }
    ensures refused { IfErr result (IsBuildFault (C.allows chooser.now) settings.now tree.now run.now.workers) }
{
    let built = build_in_form(run, tree, chooser, settings, &AsRecords)?;
    let index = index_of(built.parts);
    Ok(Built {
        index,
        choices: built.choices,
        told: built.told,
    })
}
