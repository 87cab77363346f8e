//! Laws: what the definitions say about texts, tokens and positions, whatever the code does.

ghost use Rattle.proto_lex.specs.LexLaws.{OneTokens, OneComments, OneFirstFault, NoFaultWhereItLexes, LexesOrFaults};
ghost use Rattle.proto_lex.specs.LexLaws.{LexesAlike, LongestToken};
ghost use Rattle.proto_lex.specs.PositionLaws.{CharactersRise, BytesRise, LinesFit, ColumnsFit, ByteColumnsFit};
ghost use Rattle.proto_lex.specs.PositionLaws.{ColumnsCountUtf16, Utf16ColumnsFit};

/// Positions of one text keep the order of their offsets.
pub fn positions_rise()
    ensures characters { CharactersRise }
    ensures bytes { BytesRise }
{}

/// Lines and columns are no larger than their offsets allow.
pub fn positions_fit()
    ensures lines { LinesFit }
    ensures columns { ColumnsFit }
    ensures bytes { ByteColumnsFit }
{}

/// A column in UTF-16 is the length that the line's part before it has in UTF-16.
pub fn columns_count_utf16()
    ensures count { ColumnsCountUtf16 }
    ensures fit { Utf16ColumnsFit }
{}

/// A text has at most one lexing.
pub fn one_lexing()
    ensures tokens { OneTokens }
    ensures comments { OneComments }
{}

/// A text has at most one first fault, none if it lexes, and one if it doesn't.
pub fn one_first_fault()
    ensures one { OneFirstFault }
    ensures none { NoFaultWhereItLexes }
    ensures or_lexes { LexesOrFaults }
{}

/// A text that lexes though no `#` begins a comment lexes alike where one may.
pub fn hashes_change_no_lexing()
    ensures { LexesAlike }
{}

/// A token is as long as it can be: no longer spelling of a token begins at its place.
pub fn longest_token()
    ensures { LongestToken }
{}
