//! Which sources are accepted, and the grammar of one file.

ghost use Rattle.std.specs.Prelude.{◌≡◌};
ghost use Rattle.proto_grammar.specs.Syntax.{custom_of, hashes_in, is_all, is_proto2};

use proto_lex::Hashes;

/// What is done with custom options: option names with a part in parentheses, and aggregate values. The tree never
/// holds them. If only proto3 is accepted, the same is done with `extend`.
#[derive(Clone, Copy, Debug, PartialEq, Eq)]
pub enum CustomOptions {
    /// They are refused.
    Refuse,
    /// They are read past.
    Skip,
}

/// Which sources are accepted.
#[derive(Clone, Copy, Debug, PartialEq, Eq)]
pub enum Dialect {
    /// proto3 sources, with what is done with custom options.
    Proto3(CustomOptions),
    /// proto2 and proto3 sources, both with `extend`. Custom options are read past.
    All,
}

impl Dialect {
    /// Whether all sources are accepted.
    pub fn is_all(self) -> bool
        ensures { result ≡ is_all self }
    {
        match self {
            Dialect::Proto3(_) => false,
            Dialect::All => true,
        }
    }

    /// Where a `#` begins a comment in sources that are accepted.
    pub fn hashes(self) -> Hashes
        ensures { result ≡ hashes_in self }
    {
        match self {
            Dialect::Proto3(CustomOptions::Refuse) => Hashes::Nowhere,
            Dialect::Proto3(CustomOptions::Skip) | Dialect::All => Hashes::InValues,
        }
    }
}

/// The grammar of one file, by its syntax statement and the dialect.
#[derive(Clone, Copy, Debug, PartialEq, Eq)]
pub enum Syntax {
    /// proto3, if only proto3 is accepted.
    Proto3(CustomOptions),
    /// proto3, if all sources are accepted: `extend` declares, and custom options are read past.
    Extended,
    /// proto2.
    Proto2,
}

impl Syntax {
    /// What is done with custom options.
    pub fn custom_options(self) -> CustomOptions
        ensures { result ≡ custom_of self }
    {
        match self {
            Syntax::Proto3(custom) => custom,
            Syntax::Extended | Syntax::Proto2 => CustomOptions::Skip,
        }
    }

    /// Whether it is proto2.
    pub fn is_proto2(self) -> bool
        ensures { result ≡ is_proto2 self }
    {
        match self {
            Syntax::Proto3(_) | Syntax::Extended => false,
            Syntax::Proto2 => true,
        }
    }
}
