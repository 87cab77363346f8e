//! Laws of the whole grammar.

ghost use Rattle.std.specs.Prelude.{◌≡◌, ℕ, false, List, codes};
ghost use Rattle.std.specs.List.{list_any};
ghost use Rattle.proto_grammar.specs.declared.dialect.CustomOptions.{CustomOptions};
ghost use Rattle.proto_grammar.specs.Lexeme.{Lexeme};
ghost use Rattle.proto_grammar.specs.Terminal.{is_word};
ghost use Rattle.proto_grammar.specs.declared.tree.File.{File};
ghost use Rattle.proto_grammar.specs.declared.dialect.CustomOptions.TheVariants.{Refuse, Skip};
ghost use Rattle.proto_grammar.specs.declared.dialect.Dialect.TheVariants as dialects;
ghost use Rattle.proto_steps.specs.Step.{Derives};
ghost use Rattle.proto_grammar.specs.declared.dialect.Syntax.TheVariants.{Proto3, Extended};
ghost use Rattle.proto_grammar.specs.declared.dialect.Dialect.{Dialect};
ghost use Rattle.proto_grammar.specs.declared.dialect.Syntax.{Syntax};
ghost use Rattle.proto_steps.specs.Lawful.{OneReading, DerivesOrRefused, FirstFault, FrontGoesOn, DerivesAmong};
ghost use Rattle.proto_steps.specs.Grammar.Definitions.{file, file_statements, service};

/// Tokens derive at most one tree.
pub fn one_reading()
    ensures { (levels : ℕ) (dialect : Dialect) → OneReading (file levels dialect) }
{}

/// Tokens derive a tree or are refused, and not both, and they have one fault at most.
pub fn derives_or_refused()
    ensures { (levels : ℕ) (dialect : Dialect) → DerivesOrRefused (file levels dialect) }
{}

/// No tree derives from tokens that begin with those up to and with the one where a fault is met.
pub fn first_fault()
    ensures { (levels : ℕ) (dialect : Dialect) → FirstFault (file levels dialect) }
{}

/// What stands in front of a fault can be finished to a service, or to the statements of a file.
pub fn fronts_go_on()
    ensures service { (custom : CustomOptions) → FrontGoesOn (service custom) }
    ensures file { (levels : ℕ) (syntax : Syntax) → FrontGoesOn (file_statements levels syntax) }
{}

/// Statements that derive where only proto3 without custom options is accepted, derive where all sources are, too.
pub fn statements_among_all()
    ensures { (levels : ℕ) → DerivesAmong (file_statements levels (Proto3 Refuse)) (file_statements levels Extended) }
{}

/// A file that derives where only proto3 is accepted, derives where all sources are, too, if custom options are
/// refused, or no token is the word `extend`.
pub fn files_among_all()
    ensures refused { (levels : ℕ) → DerivesAmong (file levels (dialects.Proto3 Refuse)) (file levels dialects.All) }
    ensures skipped { (levels : ℕ) (a b : List Lexeme) (x : File) → list_any (is_word (codes "extend")) a ≡ false
        → Derives (file levels (dialects.Proto3 Skip)) a x b → Derives (file levels dialects.All) a x b }
{}
