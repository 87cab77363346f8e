//! What sources reach whose names in options are linked: what their imports lead to, of every kind.

ghost use Rattle.std.specs.Prelude.{ℕ, ◌≡◌, ◌↔◌, ◌<◌, ◌⊎◌, ◌&&◌, [], ◌++◌, not, Some, All, OnOk, IfOk, MatchOption, Contains, length};
ghost use Rattle.std.specs.List.{slice_get};
ghost use Rattle.proto_visibility.specs.declared.options.OptionsIn.TheVariants.{At};
ghost use Rattle.proto_visibility.specs.Sees.{LeadsTo};
ghost use Rattle.proto_visibility.specs.Tables.ImportTables.{AreWithin, HasStep, IsLedTo};
ghost use Rattle.proto_visibility.specs.Tables.Visits.{visit_all};
ghost use Rattle.proto_visibility.specs.Tables.OptionTables.{ByEach, IsBegunIn, IsLinkingSource};

use crate::files::LinkFile;
use crate::import_table::Steps;
use crate::options::OptionsIn;
use crate::search::Search;
use std::alloc::{AllocError, Global};

/// The sources with names in options that are linked, in order.
pub(crate) fn linking_sources(alloc: Global, files: &[LinkFile]) -> Result<Vec<usize>, AllocError>
    ensures { IfOk result (λ numbers. (number : ℕ) → Contains numbers.items number ↔ IsLinkingSource files.now number) }
{
    let mut numbers = Vec::new(alloc);
    for (number, file) in files.iter().enumerate() {
        if !is_linking_source(file) {
            continue;
        }
        numbers.push(number)?;
    }
    Ok(numbers)
}

/// Whether a file is such a source.
fn is_linking_source(file: &LinkFile) -> bool
    ensures { result ≡ (file.now.links_options && (not file.now.is_included && not file.now.is_left_out)) }
{
    file.links_options() && file.is_source()
}

/// Finds these sources, what their imports lead to, and what the imports of the file lead to in which one has the messages
/// of its options.
pub(crate) fn reach(
    search: &mut Search,
    table: &[Steps],
    options: &[OptionsIn],
    sources: &[usize],
) -> Result<(), AllocError>
    requires within { AreWithin table.now }
    requires files { search.old.files ≡ length table.now }
    requires none { search.old.numbers ≡ [] }
    requires begun { (number : ℕ) → IsBegunIn options.now sources.now number → number < length table.now }
    ensures files { OnOk result (search.new.files ≡ search.old.files) }
    ensures reached { OnOk result ((number : ℕ) → Contains search.new.numbers number
        ↔ ((start : ℕ) × IsBegunIn options.now sources.now start
        × LeadsTo (ByEach (HasStep table.now)) start number)) }
{
    begin_linking(search, options, sources)?;
    follow_all(search, table)?;
    Ok(())
}

/// Finds these sources, and the file in which each has the messages of its options, if it is one.
fn begin_linking(
    search: &mut Search,
    options: &[OptionsIn],
    sources: &[usize],
) -> Result<(), AllocError>
    requires none { search.old.numbers ≡ [] }
    requires begun { (number : ℕ) → IsBegunIn options.now sources.now number → number < search.old.files }
    ensures files { OnOk result (search.new.files ≡ search.old.files) }
    ensures begun { OnOk result ((number : ℕ) → Contains search.new.numbers number
        ↔ IsBegunIn options.now sources.now number) }
{
    for source in sources {
        search.visit(*source)?;
        visit_options(search, options, *source)?;
    }
    Ok(())
}

/// Finds the file in which a source has the messages of its options, if it is one.
fn visit_options(
    search: &mut Search,
    options: &[OptionsIn],
    source: usize,
) -> Result<(), AllocError>
    requires { (number : ℕ) → slice_get options.now source ≡ Some (At number) → number < search.old.files }
    ensures files { OnOk result (search.new.files ≡ search.old.files) }
    ensures found { OnOk result ((number : ℕ) → Contains search.new.numbers number
        ↔ (Contains search.old.numbers number ⊎ (slice_get options.now source ≡ Some (At number)))) }
{
    match the_one(options, source) {
        Some(number) => {
            search.visit(number)?;
            Ok(())
        }
        None => Ok(()),
    }
}

/// That file.
fn the_one(options: &[OptionsIn], source: usize) -> Option<usize>
    ensures { MatchOption result ((number : ℕ) → slice_get options.now source ≡ Some (At number) → ⊥)
        (λ number. slice_get options.now source ≡ Some (At number)) }
{
    match options.get(source).copied()? {
        OptionsIn::At(number) => Some(number),
        OptionsIn::Nowhere => None,
        OptionsIn::Several => None,
    }
}

/// Finds what imports of every kind lead to from the files that are found.
fn follow_all(search: &mut Search, table: &[Steps]) -> Result<(), AllocError>
    requires within { AreWithin table.now }
    requires files { search.old.files ≡ length table.now }
    ensures files { OnOk result (search.new.files ≡ search.old.files) }
    ensures led { OnOk result ((other : ℕ) → Contains search.new.numbers other
        ↔ IsLedTo (ByEach (HasStep table.now)) search.old.numbers other) }
{
    let mut done = 0;
    while let Some(next) = search.nth(done) {
        visit_steps(search, &table[next])?;
        done += 1;
    }
    Ok(())
}

/// Finds the files that a file imports.
fn visit_steps(search: &mut Search, steps: &Steps) -> Result<(), AllocError>
    requires { All (λ number. number < search.old.files) (steps.now.plain.items ++ steps.now.public.items) }
    ensures { OnOk result (search.new ≡ record {
      files = search.old.files;
      numbers = visit_all search.old.numbers (steps.now.plain.items ++ steps.now.public.items);
    }) }
{
    search.visit_all(steps.plain.as_slice())?;
    search.visit_all(steps.public.as_slice())?;
    Ok(())
}
