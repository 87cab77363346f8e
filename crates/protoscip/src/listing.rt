//! What a dump prints of an index.

ghost use Rattle.std.specs.Prelude.{◌≡◌, ◌++◌, IfOk, OnOk};
ghost use Rattle.std.specs.List.{flat_map};
ghost use Rattle.std.specs.String.{string_bytes};
ghost use Rattle.protoscip.specs.DumpText.{occurrence_line, dump_text};

use scip_query::push_line;
use scip_records::{Index, Occurrence};
use std::alloc::{AllocError, Global};

/// Appends the lines of occurrences.
fn push_occurrences(text: &mut String, occurrences: &[Occurrence]) -> Result<(), AllocError>
    ensures { OnOk result (string_bytes text.new ≡ string_bytes text.old ++ flat_map occurrence_line occurrences.now) }
{
    for occurrence in occurrences {
        let symbol = occurrence.symbol.as_str();
        push_line(text, occurrence.range, occurrence.symbol_roles, symbol)?;
    }
    Ok(())
}

/// A line for each occurrence of an index, and their number.
pub fn dump_text(alloc: Global, index: &Index) -> Result<String, AllocError>
    ensures { IfOk result (λ text. string_bytes text ≡ dump_text index.now) }
{
    let mut text = String::new(alloc);
    let mut count: u128 = 0;
    for document in index.documents.as_slice() {
        let occurrences = document.occurrences.as_slice();
        push_occurrences(&mut text, occurrences)?;
        count += occurrences.len() as u128;
    }
    writeln!(text, "= {count}")?;
    Ok(text)
}
