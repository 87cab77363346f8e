//! The document of a source that was read.

ghost use Rattle.std.specs.Prelude.{[], ◌≡◌, Some, IfOk, MatchOption};
ghost use Rattle.std.specs.List.{slice_get};
ghost use Rattle.scip_build.specs.declared.faulty.Faulty.TheVariants.{Refuse};
ghost use Rattle.scip_model.specs.Makers as makers;
ghost use Rattle.scip_model.specs.Makers.{AreItsGaps, HasSourceText, IsItsDocumentWith, IsOfSource};
ghost use Rattle.scip_model.specs.Options.{AreOptionGapsIf, AreUncertainNamesIf};
ghost use Rattle.scip_build.specs.Documents.{IsRead, HasReadText, asked_in};
ghost use Rattle.scip_build.specs.Works.{HasSource, HasReadSource, HasTextRead, GivesDocumentOf, HasGoodPaths};
ghost use Rattle.scip_build.specs.Works.{HasChosen, HasOptions};

use crate::faulty::Faulty;
use crate::linked_sources::LinkedSources;
use crate::parsed_file::ParsedFile;
use basics::Sequence;
use proto_lex::{Span, Text};
use proto_link::LinkFault;
use scip_model::{DocumentMaker, PlannedWithOptions, plan_document, plan_with_options};
use std::alloc::AllocError;

/// Why a source has no document.
#[derive(Clone, Copy, Debug, Drop)]
pub(crate) enum NoDocument {
    /// Memory ran out.
    Memory,
    /// Its first use that names no type, if such are refused.
    Unresolved(Span),
}

impl From<AllocError> for NoDocument {
    ghost use Rattle.scip_build.specs.declared.source_document.NoDocument.TheVariants.{Memory};

    ghost from_gives = { λ _ e. e ≡ Memory };

    fn from(_refused: AllocError) -> NoDocument {
        NoDocument::Memory
    }
}

/// The text of a file that was read.
fn text_at<'a, 'r>(parsed: &'a [ParsedFile<'r>], number: usize) -> &'a Text<'r>
    requires { IsRead parsed.now number }
    ensures { HasReadText parsed.now number result.now }
{
    let parsed_file = &parsed[number];
    match &parsed_file.contents {
        Ok(contents) => &contents.text,
        Err(_) => unreachable!(),
    }
}

/// The plan of a document, with what the names in its options name if they are linked, and the gaps and uncertain names
/// of these.
fn plan<'a, 'f>(
    sources: &LinkedSources<'a, '_, 'f, '_>,
    maker: &DocumentMaker<'a, '_, 'f, '_>,
) -> Result<PlannedWithOptions<'a, 'f>, LinkFault>
    requires source { IsOfSource maker.now }
    requires text { HasSourceText maker.now }
    requires paths { makers.HasGoodPaths maker.now }
    requires choices { makers.HasChosen maker.now }
    requires options { HasOptions sources.now }
    requires package { maker.now.package.now.files ≡ sources.now.package.now.files }
    ensures document { IfOk result (λ made. IsItsDocumentWith maker.now
        (asked_in sources.now.settings.now sources.now.parsed.now) made.planned.document) }
    ensures unresolved_uses { IfOk result (λ made. AreItsGaps maker.now made.planned.unresolved) }
    ensures option_gaps { IfOk result (λ made. AreOptionGapsIf
        (asked_in sources.now.settings.now sources.now.parsed.now) maker.now.package.now.files maker.now.source
        maker.now.text.now made.option_gaps) }
    ensures uncertain_names { IfOk result (λ made. AreUncertainNamesIf
        (asked_in sources.now.settings.now sources.now.parsed.now) maker.now.package.now.files maker.now.source
        maker.now.text.now made.uncertain_names) }
{
    match sources.options {
        Some(options) => plan_with_options(maker, options),
        None => Ok(PlannedWithOptions {
            planned: plan_document(maker)?,
            option_gaps: Sequence::new(sources.alloc),
            uncertain_names: Sequence::new(sources.alloc),
        }),
    }
}

/// The first of the uses that name no type, if such are refused.
fn first_refused(faulty: Faulty, unresolved: &[Span]) -> Option<Span>
    ensures { MatchOption result
        (faulty ≡ Refuse → unresolved.now ≡ [])
        (λ span. (faulty ≡ Refuse) × (slice_get unresolved.now 0 ≡ Some span)) }
{
    match faulty {
        Faulty::Refuse => unresolved.get(0).copied(),
        Faulty::Skip => None,
    }
}

/// The plan of the document of a source that was read, its uses that name no type, and the gaps and uncertain names of
/// its options, if names in options are linked; `Unresolved` at the first of the uses, if such are refused.
pub(crate) fn make_document<'a, 'f>(
    sources: &LinkedSources<'a, '_, 'f, '_>,
    number: usize,
) -> Result<PlannedWithOptions<'a, 'f>, NoDocument>
    requires source { HasSource sources.now number }
    requires read { HasReadSource sources.now number }
    requires texts { HasTextRead sources.now number }
    requires good { HasGoodPaths sources.now }
    requires choices { HasChosen sources.now }
    requires options { HasOptions sources.now }
    ensures { GivesDocumentOf sources.now number result }
{
    let text = text_at(sources.parsed, number);
    let maker = DocumentMaker {
        alloc: sources.alloc,
        choices: sources.choices,
        package: sources.package,
        encoding: sources.settings.encoding,
        source: number,
        text,
    };
    let made = match plan(sources, &maker) {
        Ok(made) => made,
        Err(_) => return Err(NoDocument::Memory),
    };
    if let Some(span) = first_refused(sources.settings.faulty, made.planned.unresolved()) {
        return Err(NoDocument::Unresolved(span));
    }
    Ok(made)
}
