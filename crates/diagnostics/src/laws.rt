//! Laws of what is shown, each the contract of a function that does nothing.

ghost use Rattle.diagnostics.specs.Laws.{
  AreOfTheText,
  ExcerptsAreTame,
  MarksStandBelow,
  PathsAreWhole,
  PlacesAreTame,
  QuotesAreTame,
  QuotesAreWhole,
  ShortLinesAreWhole,
};

/// The characters of bytes in UTF-8 are those of the text.
pub fn characters_of_a_text()
    ensures { AreOfTheText }
{}

/// Nothing that is shown of a path or a source is obeyed by a terminal: no control character but tabs and the ends of
/// an excerpt's lines, and none that turns the direction.
pub fn nothing_is_obeyed()
    ensures places { PlacesAreTame }
    ensures quotes { QuotesAreTame }
    ensures excerpts { ExcerptsAreTame }
{}

/// Carets stand below what is marked, after blanks that are as wide as what is shown before it.
pub fn marks_stand_below()
    ensures { MarksStandBelow }
{}

/// What is short, and has nothing that a terminal obeys, is shown as it is.
pub fn short_lines_are_whole()
    ensures lines { ShortLinesAreWhole }
    ensures paths { PathsAreWhole }
    ensures quotes { QuotesAreWhole }
{}
