//! Laws of derivations.

ghost use Rattle.std.specs.Prelude.{◌≡◌, ◌⊎◌, ℕ, false, List, map, length};
ghost use Rattle.proto_lex.specs.Lexed.{AreInOrder};
ghost use Rattle.proto_lex.specs.declared.token.Token.{Token};
ghost use Rattle.proto_grammar.specs.Lexeme.{lexemes_of};
ghost use Rattle.proto_parse.specs.Walk.{Mark, Among, MarksAreInOrder, marks_of_items, marks_of_imports};
ghost use Rattle.proto_parse.specs.Walk.{marks_of_package, PackageIsAmongItems};
ghost use Rattle.proto_parse.specs.Filled.{FilledFile};
ghost use Rattle.proto_parse.specs.Derives.{Derives, DerivesBySome};
ghost use Rattle.proto_parse.specs.Extends.{HasNoExtend};
ghost use Rattle.proto_parse.specs.Faults.{is_of_custom_options};
ghost use Rattle.proto_grammar.specs.Syntax.{custom_in};
ghost use Rattle.proto_grammar.specs.declared.dialect.CustomOptions.TheVariants.{Refuse, Skip};
ghost use Rattle.proto_parse.specs.Refused.{HasFault};
ghost use Rattle.proto_grammar.specs.declared.fault.SyntaxFault.{SyntaxFault};
ghost use Rattle.proto_grammar.specs.declared.dialect.Dialect.{Dialect};
ghost use Rattle.proto_grammar.specs.declared.dialect.Dialect.TheVariants.{Proto3, All};
ghost use Rattle.proto_grammar.specs.declared.tree.File.{File};

/// Tokens derive at most one tree.
pub fn one_tree()
    ensures { (dialect : Dialect) (text : List ℕ) (tokens : List Token) (file other : File)
        → Derives dialect text tokens file → Derives dialect text tokens other → file ≡ other }
{}

/// The spans of a tree are spans of its tokens, in the order of a walk, and its names are
/// identifiers: those of its messages, enums, services and extends, those of its imports, and
/// those of its package.
pub fn spans_of_tokens()
    ensures items { (text : List ℕ) (tokens : List Token) (file : File)
        → DerivesBySome text tokens file → Among (marks_of_items file) (lexemes_of text tokens) }
    ensures imports { (text : List ℕ) (tokens : List Token) (file : File)
        → DerivesBySome text tokens file → Among (marks_of_imports file) (lexemes_of text tokens) }
    ensures package_name { (text : List ℕ) (tokens : List Token) (file : File)
        → DerivesBySome text tokens file → Among (marks_of_package file) (lexemes_of text tokens) }
    // The package's name is between the items before its statement and those after it.
    ensures package_place { (text : List ℕ) (tokens : List Token) (file : File)
        → DerivesBySome text tokens file → PackageIsAmongItems file.package_name file.items (lexemes_of text tokens) }
{}

/// Spans of tokens in the order of a walk are in order, if the tokens are.
pub fn spans_in_order()
    ensures { (text : List ℕ) (tokens : List Token) (marks : List Mark)
        → Among marks (lexemes_of text tokens) → AreInOrder 0 (map (λ t. t.span) tokens) → MarksAreInOrder 0 marks }
{}

/// Each name of a tree has at least one component: its package's name, the types of its fields, those that its extends
/// extend, and those that its methods take and give. Each import has at least one literal.
pub fn names_have_components()
    ensures { (text : List ℕ) (tokens : List Token) (file : File)
        → DerivesBySome text tokens file → FilledFile file }
{}

/// A tree that tokens derive where only proto3 without custom options is accepted, they derive where all sources are,
/// too.
pub fn proto3_among_all()
    ensures { (text : List ℕ) (tokens : List Token) (file : File)
        → Derives (Proto3 Refuse) text tokens file → Derives All text tokens file }
{}

/// A tree that tokens derive where only proto3 is accepted and custom options are read past, they derive where all
/// sources are, too, if none of them is the word `extend`.
pub fn proto3_without_extend_among_all()
    ensures { (text : List ℕ) (tokens : List Token) (file : File) → HasNoExtend (lexemes_of text tokens)
        → Derives (Proto3 Skip) text tokens file → Derives All text tokens file }
{}

/// Tokens have at most one fault.
pub fn one_syntax_fault()
    ensures { (dialect : Dialect) (text : List ℕ) (tokens : List Token) (fault other : SyntaxFault)
        → HasFault dialect text tokens fault
        → HasFault dialect text tokens other → fault ≡ other }
{}

/// Where custom options are read past, tokens have none of the faults CustomOption, Aggregate and Extend.
pub fn skipped_options_are_no_fault()
    ensures { (dialect : Dialect) (text : List ℕ) (tokens : List Token) (fault : SyntaxFault)
        → custom_in dialect ≡ Skip → HasFault dialect text tokens fault → is_of_custom_options fault ≡ false }
{}

/// Tokens that derive a tree have no fault.
pub fn no_fault_where_it_derives()
    ensures { (dialect : Dialect) (text : List ℕ) (tokens : List Token) (file : File) (fault : SyntaxFault)
        → Derives dialect text tokens file
        → HasFault dialect text tokens fault → ⊥ }
{}

/// Tokens derive a tree, or have a fault.
pub fn derives_or_has_a_fault()
    ensures { (dialect : Dialect) (text : List ℕ) (tokens : List Token)
        → ((file : File) × Derives dialect text tokens file)
        ⊎ ((fault : SyntaxFault) × HasFault dialect text tokens fault) }
{}
