//! Places as editors show them: their columns count characters.

ghost use Rattle.std.specs.Prelude.{◌≡◌, option_copied};
ghost use Rattle.std.specs.Option.{option_map};
ghost use Rattle.scip_query.specs.CommandViews.{text_of};
ghost use Rattle.scip_query.specs.MoreViews.{more_view};
ghost use Rattle.scip_pages.specs.Columns as columns;
ghost use Rattle.scip_pages.specs.ToldPlaces as spec;

use crate::code::cut;
use crate::columns::{ColumnUnit, offset_of, units_of};
use crate::told::{Source, line_in, source_at};
use scip_query::{Command, MoreCommand, Position};

/// The units of some bytes; 2^32 - 1 if they are more.
fn units_in(unit: ColumnUnit, bytes: &[u8]) -> u32
    ensures { result ≡ spec.held (columns.units_in unit bytes.now) }
{
    let mut units: u32 = 0;
    for byte in bytes {
        units = units.saturating_add(units_of(unit, *byte) as u32);
    }
    units
}

/// A place whose column counts characters, as the document counts; as it is, if its line has no such column.
fn counted_in(source: &Source, position: Position) -> Position
    ensures { result ≡ spec.counted_in source.now position }
{
    let line = line_in(source, position.line).as_bytes();
    match offset_of(ColumnUnit::Utf32, line, position.column) {
        Some(offset) => Position {
            line: position.line,
            column: units_in(source.unit, cut(line, offset).0),
        },
        None => position,
    }
}

/// The same, if the source is there.
fn counted_by(source: Option<&Source>, position: Position) -> Position
    ensures { result ≡ spec.counted_by (option_copied source.entry) position }
{
    match source {
        Some(source) => counted_in(source, position),
        None => position,
    }
}

/// The path of the document about a place of which a command asks, if it asks about a place.
pub fn place_path<'a>(command: &MoreCommand<'a>) -> Option<&'a str>
    ensures { option_map text_of result ≡ spec.place_path (more_view command.now) }
{
    match command {
        MoreCommand::Known(Command::Ask(_, _, path)) => Some(*path),
        MoreCommand::Entry(_, path) => Some(*path),
        _ => None,
    }
}

/// The command whose place counts as its document does, of one whose place counts characters, if these sources have the
/// document's.
pub fn placed<'a>(sources: &[Source], command: MoreCommand<'a>) -> MoreCommand<'a>
    ensures { more_view result ≡ spec.placed sources.now (more_view command.entry) }
{
    match command {
        MoreCommand::Known(Command::Ask(question, position, path)) => {
            let counted = counted_by(source_at(sources, path), position);
            MoreCommand::Known(Command::Ask(question, counted, path))
        }
        MoreCommand::Entry(position, path) => {
            MoreCommand::Entry(counted_by(source_at(sources, path), position), path)
        }
        _ => command,
    }
}
