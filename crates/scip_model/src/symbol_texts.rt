//! The texts of the symbols of files, packages and declarations.

ghost use Rattle.std.specs.Prelude.{ℕ, ◌≡◌, ◌<◌, ◌≤◌, ◌++◌, ◌∷◌, [], IfOk, OnOk, IsTrue, Contains, length, map};
ghost use Rattle.proto_decl.specs.Laws.{component_names};
ghost use Rattle.scip_symbol.specs.Entities.{OfFile, OfPackage, OfDeclaration};
ghost use Rattle.scip_model.specs.Repeated.{file_namespace};
ghost use Rattle.scip_symbol.specs.Path.{IsGoodPath};
ghost use Rattle.scip_model.specs.Named.{text_of, package_at, declaration_in};
ghost use Rattle.scip_model.specs.Tables.OwnTexts.{IsFront, behind, declaration_texts};
ghost use Rattle.scip_model.specs.Detailed.{detail_at, details_shown, details_with, path_around, symbol_around};
ghost use Rattle.scip_model.specs.Detailed.{text_around};
ghost use Rattle.scip_model.specs.Tables.Plans.{arounds_in, package_texts_up_to, own_texts};

use crate::naming::{Home, file_namespace};
use crate::own_symbols::{JoinedTexts, OwnSymbols};
use basics::OwnedText;
use proto_decl::{Declaration, DeclarationPath, DeclarationStep, FileFacts};
use scip_symbol::{
    PackageId, print_below, print_declaration, print_declaration_in_file, print_file,
    print_package, print_package_named,
};
use std::alloc::{AllocError, Global};

/// Of the file with a path.
#[tactic(auto, unfolding(crate::specs::Named::text_of))]
pub(crate) fn file_text(alloc: Global, id: &PackageId, path: &str) -> Result<OwnedText, AllocError>
    requires { IsGoodPath path.now }
    ensures { IfOk result (λ text. text ≡ text_of id.now (OfFile path.now)) }
{
    let printed = print_file(alloc, id, path)?;
    Ok(OwnedText::from_string(printed))
}

/// Of the package that the first components of a file's package name make, so many.
#[tactic(auto, unfolding(crate::specs::Named::text_of))]
pub(crate) fn package_text(
    alloc: Global,
    id: &PackageId,
    facts: &FileFacts,
    count: usize,
) -> Result<OwnedText, AllocError>
    requires some { 0 < count }
    requires within { count ≤ length facts.now.package_name }
    ensures { IfOk result (λ text. text ≡ text_of id.now (package_at facts.now count)) }
{
    let (front, _) = facts.package_name().split_at(count);
    let printed = print_package(alloc, id, front)?;
    Ok(OwnedText::from_string(printed))
}

/// Of the declaration of a file to which a path leads, with the file before its package.
#[tactic(auto, unfolding(crate::specs::Named::text_of))]
fn path_text_in_file(
    alloc: Global,
    home: &Home<'_>,
    facts: &FileFacts,
    path: &DeclarationPath,
) -> Result<OwnedText, AllocError>
    ensures { IfOk result (λ text. text ≡ text_of home.now.id (OfDeclaration
        (file_namespace home.now.path ∷ component_names facts.now.package_name) path.now)) }
{
    let file = file_namespace(alloc, home.path())?;
    let components = facts.package_name();
    let printed = print_declaration_in_file(alloc, home.id(), file.as_str(), components, path)?;
    Ok(OwnedText::from_string(printed))
}

/// Of a declaration of a file, with the file before its package.
fn text_in_file(
    alloc: Global,
    home: &Home<'_>,
    facts: &FileFacts,
    declaration: &Declaration,
) -> Result<OwnedText, AllocError>
    ensures { IfOk result (λ text. text ≡ text_of home.now.id (OfDeclaration
        (file_namespace home.now.path ∷ component_names facts.now.package_name) declaration.now.path)) }
{
    path_text_in_file(alloc, home, facts, &declaration.path())
}

/// Of a declaration of a file.
#[tactic(auto, unfolding(crate::specs::Named::text_of))]
pub(crate) fn declaration_text(
    alloc: Global,
    home: &Home<'_>,
    facts: &FileFacts,
    declaration: &Declaration,
) -> Result<OwnedText, AllocError>
    requires { Contains facts.now.declarations declaration.now }
    ensures { IfOk result (λ text. text ≡ text_of home.now.id (declaration_in home.now facts.now declaration.now)) }
{
    let repeated = home.has_in_front(alloc, facts, declaration)?;
    if repeated {
        return text_in_file(alloc, home, facts, declaration);
    }
    let printed = print_declaration(alloc, home.id(), facts.package_name(), &declaration.path())?;
    Ok(OwnedText::from_string(printed))
}

/// Of the declaration to which these steps lead, empty if there are none.
#[tactic(auto, unfolding(crate::specs::Named::text_of))]
fn steps_text(
    alloc: Global,
    id: &PackageId,
    facts: &FileFacts,
    steps: &[DeclarationStep],
) -> Result<OwnedText, AllocError>
    ensures { IfOk result (λ text. text
        ≡ symbol_around id.now (component_names facts.now.package_name) steps.now) }
{
    match steps {
        [outer @ .., last] => {
            let path = DeclarationPath::new(outer, last);
            let printed = print_declaration(alloc, id, facts.package_name(), &path)?;
            Ok(OwnedText::from_string(printed))
        }
        [] => Ok(OwnedText::new(alloc)),
    }
}

/// The same, with the file before its package.
fn steps_text_in_file(
    alloc: Global,
    home: &Home<'_>,
    facts: &FileFacts,
    steps: &[DeclarationStep],
) -> Result<OwnedText, AllocError>
    ensures { IfOk result (λ text. text ≡ symbol_around home.now.id
        (file_namespace home.now.path ∷ component_names facts.now.package_name) steps.now) }
{
    match steps {
        [outer @ .., last] => {
            let path = DeclarationPath::new(outer, last);
            path_text_in_file(alloc, home, facts, &path)
        }
        [] => Ok(OwnedText::new(alloc)),
    }
}

/// Of what a declaration is in, empty if that is its file.
fn text_around(
    alloc: Global,
    home: &Home<'_>,
    facts: &FileFacts,
    declaration: &Declaration,
) -> Result<OwnedText, AllocError>
    ensures { IfOk result (λ text. text ≡ text_around home.now facts.now declaration.now) }
{
    let path = declaration.path();
    let (outer, _) = path.parts();
    let in_front = home.has_in_front(alloc, facts, declaration)?;
    if in_front {
        return steps_text_in_file(alloc, home, facts, outer);
    }
    steps_text(alloc, home.id(), facts, outer)
}

/// Of what a declaration is in, if details are asked for.
pub(crate) fn text_if_asked(
    alloc: Global,
    home: &Home<'_>,
    facts: &FileFacts,
    declaration: &Declaration,
) -> Result<OwnedText, AllocError>
    ensures { IfOk result (λ text. (index : ℕ) → details_shown declaration.now (detail_at facts.now index) text
        ≡ details_with home.now facts.now declaration.now (detail_at facts.now index)) }
{
    match facts.details() {
        Some(_) => text_around(alloc, home, facts, declaration),
        None => Ok(OwnedText::new(alloc)),
    }
}

/// Whether two steps are the same.
fn is_same_step(a: &DeclarationStep, b: &DeclarationStep) -> bool
    ensures { IsTrue result → a.now ≡ b.now }
{
    a.kind == b.kind && a.name.as_str() == b.name.as_str()
}

/// Whether steps are the same.
fn are_same_steps(a: &[DeclarationStep], b: &[DeclarationStep]) -> bool
    ensures { IsTrue result → a.now ≡ b.now }
{
    match (a, b) {
        ([], []) => true,
        ([first_a, others_a @ ..], [first_b, others_b @ ..]) => {
            is_same_step(first_a, first_b) && are_same_steps(others_a, others_b)
        }
        _ => false,
    }
}

/// Whether the steps to what two declarations are in are the same.
fn are_beside(a: &Declaration, b: &Declaration) -> bool
    ensures { IsTrue result → path_around a.now.path ≡ path_around b.now.path }
{
    let (outer_a, _) = a.path().parts();
    let (outer_b, _) = b.path().parts();
    are_same_steps(outer_a, outer_b)
}

/// Of what a declaration is in. That of another one is given, since most are in what the one before them is in.
fn text_around_next(
    alloc: Global,
    home: &Home<'_>,
    facts: &FileFacts,
    before: &Declaration,
    text: OwnedText,
    declaration: &Declaration,
) -> Result<OwnedText, AllocError>
    requires { text ≡ text_around home.now facts.now before.now }
    ensures { IfOk result (λ text. text ≡ text_around home.now facts.now declaration.now) }
{
    if are_beside(before, declaration) {
        return Ok(text);
    }
    text_around(alloc, home, facts, declaration)
}

/// Adds those of what each declaration of a file is in, in order.
fn push_arounds(
    alloc: Global,
    arounds: &mut JoinedTexts,
    home: &Home<'_>,
    facts: &FileFacts,
) -> Result<(), AllocError>
    ensures { OnOk result (arounds.new ≡ arounds.old
        ++ map (text_around home.now facts.now) facts.now.declarations) }
{
    let declarations = facts.declarations();
    let [first, ..] = declarations else {
        return Ok(());
    };
    let mut before = first;
    let mut text = text_around(alloc, home, facts, first)?;
    for declaration in declarations {
        text = text_around_next(alloc, home, facts, before, text, declaration)?;
        before = declaration;
        arounds.push(text.as_str())?;
    }
    Ok(())
}

/// Those of what each declaration of a file is in, if details are asked for.
pub(crate) fn arounds_in(
    alloc: Global,
    home: &Home<'_>,
    facts: &FileFacts,
) -> Result<JoinedTexts, AllocError>
    ensures { IfOk result (λ arounds. arounds ≡ arounds_in home.now facts.now) }
{
    let mut arounds = JoinedTexts::with_capacity(alloc, 0)?;
    if facts.details().is_some() {
        push_arounds(alloc, &mut arounds, home, facts)?;
    }
    Ok(arounds)
}

/// Of the package with all components of a file's package name, with which the texts of the file's declarations begin.
#[tactic(auto, unfolding(crate::specs::Named::text_of))]
fn front_text(alloc: Global, id: &PackageId, facts: &FileFacts) -> Result<OwnedText, AllocError>
    ensures { IfOk result (λ text. text ≡ text_of id.now (OfPackage (component_names facts.now.package_name))) }
{
    let printed = print_package(alloc, id, facts.package_name())?;
    Ok(OwnedText::from_string(printed))
}

/// With what the texts of a file's declarations begin.
#[tactic(auto, unfolding(crate::specs::Named::text_of))]
fn front_of(alloc: Global, home: &Home<'_>, facts: &FileFacts) -> Result<OwnedText, AllocError>
    ensures { IfOk result (IsFront home.now facts.now) }
{
    if home.is_usual() {
        let front = front_text(alloc, home.id(), facts)?;
        return Ok(front);
    }
    let printed = print_package_named(alloc, home.id(), &[])?;
    Ok(OwnedText::from_string(printed))
}

/// The text of a declaration's symbol, by what it begins with.
#[tactic(auto, unfolding(crate::specs::Named::text_of))]
fn text_below(
    alloc: Global,
    front: &str,
    home: &Home<'_>,
    facts: &FileFacts,
    declaration: &Declaration,
) -> Result<OwnedText, AllocError>
    requires listed { Contains facts.now.declarations declaration.now }
    requires front { IsFront home.now facts.now front.now }
    ensures { IfOk result (λ text. text ≡ text_of home.now.id (declaration_in home.now facts.now declaration.now)) }
{
    if !home.is_usual() {
        return declaration_text(alloc, home, facts, declaration);
    }
    let printed = print_below(alloc, front, &declaration.path())?;
    Ok(OwnedText::from_string(printed))
}

/// Adds what the text of a declaration's symbol has behind the front.
fn push_rest(
    alloc: Global,
    rests: &mut JoinedTexts,
    front: &str,
    home: &Home<'_>,
    facts: &FileFacts,
    declaration: &Declaration,
) -> Result<(), AllocError>
    requires listed { Contains facts.now.declarations declaration.now }
    requires front { IsFront home.now facts.now front.now }
    ensures { OnOk result (behind front.now rests.new ≡ behind front.now rests.old
        ++ text_of home.now.id (declaration_in home.now facts.now declaration.now) ∷ []) }
{
    let text = text_below(alloc, front, home, facts, declaration)?;
    match text.as_str().strip_prefix(front) {
        Some(rest) => rests.push(rest),
        None => Ok(()),
    }
}

/// Adds those of each declaration of a file, in order.
fn push_rests(
    alloc: Global,
    rests: &mut JoinedTexts,
    front: &str,
    home: &Home<'_>,
    facts: &FileFacts,
) -> Result<(), AllocError>
    requires { IsFront home.now facts.now front.now }
    ensures { OnOk result
        (behind front.now rests.new ≡ behind front.now rests.old ++ declaration_texts home.now facts.now) }
{
    for declaration in facts.declarations() {
        push_rest(alloc, rests, front, home, facts, declaration)?;
    }
    Ok(())
}

/// Adds those of a file's packages: of the first component, the first two, and so on.
fn push_package_texts(
    alloc: Global,
    texts: &mut Vec<OwnedText>,
    id: &PackageId,
    facts: &FileFacts,
) -> Result<(), AllocError>
    ensures { OnOk result (texts.new.items ≡ texts.old.items
        ++ package_texts_up_to id.now facts.now (length facts.now.package_name)) }
{
    for index in 0..facts.package_name().len() {
        let text = package_text(alloc, id, facts, index + 1)?;
        texts.push(text)?;
    }
    Ok(())
}

/// Those of what a source has itself: the file's, those of its packages, which belong to the run, and those of its
/// declarations. What the latter begin with is kept once.
pub(crate) fn own_texts(
    alloc: Global,
    home: &Home<'_>,
    run: &PackageId,
    facts: &FileFacts,
) -> Result<OwnSymbols, AllocError>
    requires { IsGoodPath home.now.path }
    ensures { IfOk result (λ texts. texts ≡ own_texts home.now run.now facts.now) }
{
    let mut texts = Vec::with_capacity(alloc, 1 + facts.package_name().len())?;
    let first = file_text(alloc, home.id(), home.path())?;
    texts.push(first)?;
    push_package_texts(alloc, &mut texts, run, facts)?;
    let front = front_of(alloc, home, facts)?;
    let mut rests = JoinedTexts::with_capacity(alloc, facts.declarations().len())?;
    push_rests(alloc, &mut rests, front.as_str(), home, facts)?;
    Ok(OwnSymbols::new(texts, front, rests))
}
