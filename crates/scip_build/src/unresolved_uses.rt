//! What was made of the sources, apart: what is kept of their documents, their uses that name no type, and the gaps and
//! uncertain names of their options.

ghost use Rattle.std.specs.Prelude.{◌≡◌, ◌++◌, IfOk, OnOk, map};
ghost use Rattle.scip_build.specs.Made.{gaps_from, name_in, names_from, place_in, unresolved_from};

use crate::made::MadeDocument;
use proto_lex::Span;
use proto_link::{FilePlace, UncertainUse};
use scip_model::UncertainPlace;
use std::alloc::{AllocError, Global};

/// Adds the places of spans of a file.
fn push_places(places: &mut Vec<FilePlace>, file: usize, spans: &[Span]) -> Result<(), AllocError>
    ensures { OnOk result (places.new.items ≡ places.old.items ++ map (place_in file) spans.now) }
{
    for span in spans {
        places.push(FilePlace { file, span: *span })?;
    }
    Ok(())
}

/// The places of the uses that name no type, by source, and in order.
pub(crate) fn unresolved_of<T: Drop>(
    alloc: Global,
    made: &[MadeDocument<T>],
) -> Result<Vec<FilePlace>, AllocError>
    ensures { IfOk result (λ places. places.items ≡ unresolved_from 0 made.now) }
{
    let mut places = Vec::new(alloc);
    for (file, document) in made.iter().enumerate() {
        push_places(&mut places, file, document.unresolved.as_slice())?;
    }
    Ok(places)
}

/// The places of the gaps of options, by source, and in order.
pub(crate) fn option_gaps_of<T: Drop>(
    alloc: Global,
    made: &[MadeDocument<T>],
) -> Result<Vec<FilePlace>, AllocError>
    ensures { IfOk result (λ places. places.items ≡ gaps_from 0 made.now) }
{
    let mut places = Vec::new(alloc);
    for (file, document) in made.iter().enumerate() {
        push_places(&mut places, file, document.option_gaps.as_slice())?;
    }
    Ok(places)
}

/// Adds the uncertain names of a file, which are at these places.
fn push_names(
    names: &mut Vec<UncertainUse>,
    file: usize,
    places: &[UncertainPlace],
) -> Result<(), AllocError>
    ensures { OnOk result (names.new.items ≡ names.old.items ++ map (name_in file) places.now) }
{
    for at in places {
        names.push(UncertainUse {
            place: FilePlace {
                file,
                span: at.span,
            },
            behind: at.behind,
        })?;
    }
    Ok(())
}

/// The uncertain names of options, by source, and in order.
pub(crate) fn uncertain_names_of<T: Drop>(
    alloc: Global,
    made: &[MadeDocument<T>],
) -> Result<Vec<UncertainUse>, AllocError>
    ensures { IfOk result (λ names. names.items ≡ names_from 0 made.now) }
{
    let mut names = Vec::new(alloc);
    for (file, document) in made.iter().enumerate() {
        push_names(&mut names, file, document.uncertain_names.as_slice())?;
    }
    Ok(names)
}

/// Adds uncertain names to uncertain uses.
pub(crate) fn add_names(
    uncertain: &mut Vec<UncertainUse>,
    names: &[UncertainUse],
) -> Result<(), AllocError>
    ensures { OnOk result (uncertain.new.items ≡ uncertain.old.items ++ names.now) }
{
    for name in names {
        uncertain.push(*name)?;
    }
    Ok(())
}

/// What is kept of the documents, in order.
pub(crate) fn documents_of<T: Drop>(
    alloc: Global,
    made: Vec<MadeDocument<T>>,
) -> Result<Vec<T>, AllocError>
    ensures { IfOk result (λ documents. documents.items ≡ map (λ document. document.kept) made.items) }
{
    let mut documents = Vec::with_capacity(alloc, made.len())?;
    for document in made {
        documents.push(document.kept)?;
    }
    Ok(documents)
}
