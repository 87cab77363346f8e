//! The document of a source, where it is in the index.

ghost use Rattle.std.specs.Prelude.{◌≡◌, ◌++◌, IfOk, codes};
ghost use Rattle.scip_build.specs.Placing.{document_at};

use basics::OwnedText;
use scip_model::DocumentPlan;
use scip_records::{DocumentParts, InformationRef, OccurrenceRef};
use std::alloc::{AllocError, Global};
use std::marker::Model;

/// The plan of a source's document, which has a path of its own if documents are below a folder.
///
/// Contracts see the document.
#[derive(Drop)]
pub struct PlacedDocument<'a, 't> {
    plan: DocumentPlan<'a, 't>,
    path: Option<OwnedText>,
}

impl<'a, 't> Model for PlacedDocument<'a, 't> {
    ghost use Rattle.std.specs.Option.{option_map_or};
    ghost use Rattle.scip_records.specs.declared.records.Document.{Document};

    ghost Value = { Document };

    ghost view = { λ placed. record {
      relative_path = option_map_or (λ path. path) placed.path placed.plan.relative_path;
      occurrences = placed.plan.occurrences;
      symbols = placed.plan.symbols;
      language = placed.plan.language;
      position_encoding = placed.plan.position_encoding;
    } };
}

/// The path below a folder.
fn path_below(alloc: Global, folder: &str, path: &str) -> Result<OwnedText, AllocError>
    ensures { IfOk result (λ made. made ≡ folder.now ++ (codes "/" ++ path.now)) }
{
    let room = folder.len().saturating_add(1).saturating_add(path.len());
    let mut text = String::with_capacity(alloc, room)?;
    text.push_str(folder)?;
    text.push_str("/")?;
    text.push_str(path)?;
    Ok(OwnedText::from_string(text))
}

impl<'a, 't> PlacedDocument<'a, 't> {
    /// The document below a folder; where it is, if the folder has no name.
    pub(crate) fn below(
        alloc: Global,
        folder: &str,
        plan: DocumentPlan<'a, 't>,
    ) -> Result<PlacedDocument<'a, 't>, AllocError>
        ensures { IfOk result (λ placed. placed ≡ document_at folder.now plan.entry) }
    {
        if folder.is_empty() {
            return Ok(PlacedDocument { plan, path: None });
        }
        let path = path_below(alloc, folder, plan.relative_path())?;
        Ok(PlacedDocument {
            plan,
            path: Some(path),
        })
    }
}

impl<'a, 't> DocumentParts for PlacedDocument<'a, 't> {
    ghost document = { λ placed. placed };

    fn relative_path(&self) -> &str {
        match &self.path {
            Some(path) => path.as_str(),
            None => self.plan.relative_path(),
        }
    }

    fn occurrence_count(&self) -> usize {
        self.plan.occurrence_count()
    }

    fn occurrence(&self, number: usize) -> OccurrenceRef<'_> {
        self.plan.occurrence(number)
    }

    fn entry_count(&self) -> usize {
        self.plan.entry_count()
    }

    fn entry(&self, number: usize) -> InformationRef<'_> {
        self.plan.entry(number)
    }

    fn language(&self) -> &str {
        self.plan.language()
    }

    fn position_encoding(&self) -> i32 {
        self.plan.position_encoding()
    }

    fn let_occurrences_go(&mut self, alloc: Global) {
        self.plan.let_occurrences_go(alloc);
    }
}
