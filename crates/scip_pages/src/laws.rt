//! Laws of the crate, each the contract of a function that does nothing.

ghost use Rattle.scip_pages.specs.EscapeLaws.{
  ShowsTheText,
  PicturesNulAlone,
  ShowsTheRest,
  HasNoMarks,
  HasOnlyReferences,
};
ghost use Rattle.scip_pages.specs.ColumnLaws.{AtOneOffset, IsAtItsOffset, CountsUtf8, CountsUtf16, CountsUtf32};
ghost use Rattle.scip_pages.specs.RunLaws.{NoneCovers, NoneIsNarrower};
ghost use Rattle.scip_pages.specs.PathLaws.{StaysBelow, HasItsOwnPlace, NamesLeadBelow};
ghost use Rattle.scip_pages.specs.UrlLaws.{IsDecoded, LeadsToThePage};
ghost use Rattle.scip_pages.specs.SnapshotLaws.{HasTheSource, FlatIsOneLine};
ghost use Rattle.scip_pages.specs.CodeLaws.{
  CodeShowsTheLines,
  CodeShowsTheSource,
  PiecesHaveTheText,
  PiecesHaveTheLinks,
};

/// What an escaped text shows is the text, with a picture for each NUL, and what comes after it shows as it would by
/// itself.
pub fn escapes_show_the_text()
    ensures text { ShowsTheText }
    ensures nul { PicturesNulAlone }
    ensures rest { ShowsTheRest }
{}

/// An escaped text has no byte that begins or ends a mark or a value, and no `&` that begins no
/// reference.
pub fn escapes_become_no_marks()
    ensures marks { HasNoMarks }
    ensures references { HasOnlyReferences }
{}

/// An offset is that of a column if and only if it cuts no character and so many units come before it.
pub fn columns_have_one_offset()
    ensures only { AtOneOffset }
    ensures found { IsAtItsOffset }
{}

/// The units of a text are those of its encoding in their form.
pub fn units_are_those_of_their_encoding()
    ensures utf8 { CountsUtf8 }
    ensures utf16 { CountsUtf16 }
    ensures utf32 { CountsUtf32 }
{}

/// What a page's code shows is the source, byte for byte, but for the pictures of NULs, whatever its occurrences mark
/// and its links hold; and each byte has the link of what marks it.
pub fn code_shows_the_source()
    ensures lines { CodeShowsTheLines }
    ensures source { CodeShowsTheSource }
    ensures pieces { PiecesHaveTheText }
    ensures links { PiecesHaveTheLinks }
{}

/// The path of a page leads to a place below the folder of the pages, and no other such path leads to that place. A
/// path whose components are names is that of a page.
pub fn paths_stay_below()
    ensures below { StaysBelow }
    ensures own { HasItsOwnPlace }
    ensures names { NamesLeadBelow }
{}

/// What marks a byte covers it, and nothing narrower does; if nothing marks it, nothing covers it.
pub fn the_narrowest_marks()
    ensures none { NoneCovers }
    ensures narrowest { NoneIsNarrower }
{}

/// A snapshot has its source: taking away the lines that begin with the sign of a comment, the two blanks before each
/// other line, and the last line end gives the source, byte for byte. What is printed of a symbol or a path
/// (`flat_byte`) is one line.
pub fn snapshots_have_their_source()
    ensures source { HasTheSource }
    ensures line { FlatIsOneLine }
{}

/// What a URL's path is read as is the path, and from the folder of a page it leads to the other page.
pub fn urls_lead_to_their_pages()
    ensures decoded { IsDecoded }
    ensures leads { LeadsToThePage }
{}
