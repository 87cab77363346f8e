//! Laws: what the definitions say about facts, whatever the code does.

ghost use Rattle.std.specs.Prelude.{All, ℕ, ◌≢◌, []};
ghost use Rattle.proto_lex.specs.Lexed.{Lexed};
ghost use Rattle.proto_decl.specs.declared.form.FactForm.{FactForm};
ghost use Rattle.proto_parse.specs.tree.File.{File};
ghost use Rattle.proto_decl.specs.Facts.{Facts, AreOfSomeFile, NamesInOrder, UsesInOrder, ImportsInOrder};
ghost use Rattle.proto_decl.specs.Facts.{PackageInOrder, NamesAreFilled, UsesAreFilled, AreFactsOf};
ghost use Rattle.proto_decl.specs.Names.{IsSimple};
ghost use Rattle.proto_decl.specs.Laws.{StandApart};
ghost use Rattle.proto_decl.specs.Laws.{OneLeadingText, OneTrailingText, OneFacts, NamesAreSpelled, StandsInScope};
ghost use Rattle.proto_decl.specs.Laws.{PrefixesAreEntities, FactsStandInText, ScopesNest, OneAround};
ghost use Rattle.proto_decl.specs.Laws.{AreNamed, AreHeld, IsScope, OneDetails};

use proto_parse::{names_have_components, spans_in_order, spans_of_tokens};

/// A declaration has one leading and one trailing text in each form.
pub fn one_comment_text()
    ensures leading { OneLeadingText }
    ensures trailing { OneTrailingText }
{}

/// A file has one list of facts in each form of comments' texts.
pub fn one_list_of_facts()
    ensures { OneFacts }
{}

/// A file has one list of details.
pub fn one_list_of_details()
    ensures { OneDetails }
{}

/// Declared names, the components of uses, and imports are in order, so that each place is there once; and the
/// package's name is between two declared names.
pub fn facts_in_order()
    ensures names { (facts : Facts) → AreOfSomeFile facts → NamesInOrder facts.declarations }
    ensures uses { (facts : Facts) → AreOfSomeFile facts → UsesInOrder facts.uses }
    ensures imports { (facts : Facts) → AreOfSomeFile facts → ImportsInOrder facts.imports }
    ensures package_name { (facts : Facts) → AreOfSomeFile facts → PackageInOrder facts }
{
    spans_of_tokens();
    spans_in_order();
    names_have_components();
}

/// The components of uses are apart from declared names and from the package's name, and an import begins where none
/// of these does.
pub fn facts_stand_apart()
    ensures { (facts : Facts) → AreOfSomeFile facts → StandApart facts }
{
    spans_of_tokens();
    spans_in_order();
    names_have_components();
}

/// The places of a file's facts are parts of its text.
pub fn facts_stand_in_text()
    ensures { FactsStandInText }
{
    spans_of_tokens();
    names_have_components();
    names_are_spelled();
    facts_in_order();
}

/// Each use has at least one component, and no declared name is empty.
pub fn facts_are_filled()
    ensures uses { (facts : Facts) → AreOfSomeFile facts → UsesAreFilled facts.uses }
    ensures names { (facts : Facts) → AreOfSomeFile facts → NamesAreFilled facts.declarations }
{
    names_have_components();
    names_are_spelled();
}

/// Names are spelled as they are in the text; the field of a group is named as the group's message, in small letters.
pub fn names_are_spelled()
    ensures { NamesAreSpelled }
{
    spans_of_tokens();
}

/// Each declaration has a simple name in a scope of its file, which is its package's or that of another
/// declaration; the scope of each use is such a one; and the components of its package's name are simple.
pub fn scopes_are_known()
    ensures declarations { (facts : Facts) → AreOfSomeFile facts → All (StandsInScope facts) facts.declarations }
    ensures uses { (facts : Facts) → AreOfSomeFile facts → All (λ used. IsScope facts used.scope) facts.uses }
    ensures package_name { (facts : Facts) → AreOfSomeFile facts
        → All (λ component. IsSimple component.name) facts.package_name }
{
    spans_of_tokens();
}

/// The first components of a declaration's full name, any number of them, make the full name of a package or of a
/// declaration of its file.
pub fn prefixes_are_entities()
    ensures { (facts : Facts) → AreOfSomeFile facts → PrefixesAreEntities facts }
{
    scopes_are_known();
    facts_are_filled();
}

/// Around the full name of a simple name in a scope is that scope, and no other.
pub fn scopes_nest()
    ensures nest { ScopesNest }
    ensures one { OneAround }
{}

/// What holds a declaration of a file is declared there too, and the full name of each is that of its
/// package, of the scopes on the path to it and its own name, joined by dots.
pub fn declarations_stand_in_declarations()
    ensures { (form : FactForm) (number : ℕ) (lexed : Lexed) (file : File) (facts : Facts)
        → AreFactsOf form number lexed file facts
        → AreNamed facts.package_name facts.declarations → AreHeld facts.package_name facts.declarations }
{}

/// The names of a file's package and of its declarations are identifiers, each path has a step, and
/// what holds a declaration is declared there too.
pub fn names_are_identifiers()
    ensures named { (facts : Facts) → AreOfSomeFile facts → AreNamed facts.package_name facts.declarations }
    ensures paths { (facts : Facts) → AreOfSomeFile facts
        → All (λ declaration. declaration.path ≢ []) facts.declarations }
    ensures held { (facts : Facts) → AreOfSomeFile facts → AreHeld facts.package_name facts.declarations }
{
    spans_of_tokens();
    names_are_spelled();
    declarations_stand_in_declarations();
}
