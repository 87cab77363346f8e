//! What a rule of a log says of the faults with its name.

ghost use Rattle.std.specs.Prelude.{◌≡◌};
ghost use Rattle.fault_reports.specs.Rules.{grammar_text, lexing_text, tree_text};

/// What a rule says: of a fault of a source's characters and tokens, else as `grammar_text`.
pub(crate) fn lexing_text(name: &str) -> &'static str
    ensures { result.now ≡ lexing_text name.now }
{
    match name {
        "TooLong" => "A source has at most 67108864 bytes.",
        "NotUtf8" => "A source is UTF-8. With --accept all, comments need not be.",
        "BadByte" => "A character stands where no token of the grammar has it.",
        "OpenString" => "A string ends on the line on which it begins.",
        "OpenComment" => "A comment that begins with /* ends with */.",
        "BadEscape" => "A backslash in a string begins one of the escapes of the grammar.",
        "BadNumber" => "A run of letters and digits that begins with a digit is a number.",
        _ => grammar_text(name),
    }
}

/// Of a fault of a source's syntax, else as `tree_text`.
fn grammar_text(name: &str) -> &'static str
    ensures { result.now ≡ grammar_text name.now }
{
    match name {
        "Grammar" =>
            "The source is not in the grammar of its syntax: at this place another token has to stand.",
        "NotProto3" =>
            "A source begins with syntax = \"proto3\"; with --accept all it may be proto2. Editions are not read.",
        "CustomOption" =>
            "Options with parentheses are refused by default; --accept all and --custom-options skip take them.",
        "Aggregate" =>
            "Option values in braces are refused by default; --accept all and --custom-options skip take them.",
        "Extend" =>
            "Extensions are refused by default; --accept all reads them, and --custom-options skip reads past them.",
        "TwoPackages" => "A source has one package statement at most.",
        "ImportEscape" => "The path of an import is written without escapes.",
        "TooDeep" => "Messages and groups nest at most 64 deep.",
        _ => tree_text(name),
    }
}

/// Of a fault of a source among others, and of any other.
fn tree_text(name: &str) -> &'static str
    ensures { result.now ≡ tree_text name.now }
{
    match name {
        "Duplicate" =>
            "Two declarations have one full name. With --duplicates keep each is kept for the files that see it.",
        "MissingImport" =>
            "An import names a file that is not below ROOT, and in no folder that --include names.",
        "Unresolved" => "A use of a type names none that its source sees, by the scoping rules.",
        "Ambiguous" =>
            "A use of a type names one that several files declare which its source sees.",
        "Option" => "A name in an option names nothing that may stand there.",
        "Uncertain" => "A name may mean another declaration, of a file that cannot be read.",
        "Unreadable" => "A file or folder cannot be read.",
        "BadPath" => "A path is too long, not UTF-8, or no path of a document.",
        _ => "A run stops for it, and no index is made.",
    }
}
