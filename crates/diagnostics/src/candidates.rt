//! The words and signs that are tried, by how they are spelled.

ghost use Rattle.std.specs.Prelude.{◌≡◌, map};
ghost use Rattle.diagnostics.specs.Candidates.{literal, name, number, signs, versions, whole_numbers, words};

const SIGNS: [&str; 14] = [
    ";", "}", "{", "=", "]", "[", ")", "(", ">", "<", ",", ".", "-", "+",
];

const WHOLE_NUMBERS: [&str; 1] = ["1"];

const VERSIONS: [&str; 2] = ["\"proto3\"", "\"proto2\""];

const WORDS: [&str; 36] = [
    "A",
    "optional",
    "required",
    "repeated",
    "message",
    "enum",
    "oneof",
    "map",
    "reserved",
    "extensions",
    "extend",
    "option",
    "syntax",
    "import",
    "package",
    "service",
    "rpc",
    "returns",
    "public",
    "weak",
    "to",
    "max",
    "inf",
    "nan",
    "string",
    "bool",
    "int32",
    "int64",
    "uint32",
    "uint64",
    "sint32",
    "sint64",
    "fixed32",
    "fixed64",
    "sfixed32",
    "sfixed64",
];

/// The signs. `:` and `/` are only in values in braces, where any token can be.
#[tactic(auto, unfolding(crate::specs::Candidates::signs))]
pub(crate) fn signs() -> &'static [&'static str]
    ensures { map (λ s. s.now) result.now ≡ signs }
{
    &SIGNS
}

/// A number, which is no whole one.
pub(crate) fn number() -> &'static str
    ensures { result.now ≡ number }
{
    "1.5"
}

/// A whole number.
pub(crate) fn whole_numbers() -> &'static [&'static str]
    ensures { map (λ s. s.now) result.now ≡ whole_numbers }
{
    &WHOLE_NUMBERS
}

/// A string literal that names no version.
pub(crate) fn literal() -> &'static str
    ensures { result.now ≡ literal }
{
    "\"a\""
}

/// The versions of a syntax statement.
pub(crate) fn versions() -> &'static [&'static str]
    ensures { map (λ s. s.now) result.now ≡ versions }
{
    &VERSIONS
}

/// A name that is no word of the grammar.
pub(crate) fn name() -> &'static str
    ensures { result.now ≡ name }
{
    "a"
}

/// A name that begins with a capital letter, and those words of the grammar that can be where a name can't.
#[tactic(auto, unfolding(crate::specs::Candidates::words))]
pub(crate) fn words() -> &'static [&'static str]
    ensures { map (λ s. s.now) result.now ≡ words }
{
    &WORDS
}
