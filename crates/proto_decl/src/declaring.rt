//! From tokens and their tree to a file's facts.

ghost use Rattle.std.specs.Prelude.{◌≡◌, ◌++◌, [], List, All, IfOk, OnOk};
ghost use Rattle.std.specs.List.{AllZip};
ghost use Rattle.proto_lex.specs.Lexed.{IsPart, IsLexed};
ghost use Rattle.proto_parse.specs.Derives.{DerivesBySome};
ghost use Rattle.proto_decl.specs.Spans.{OfParts, OfPackage};
ghost use Rattle.proto_decl.specs.Imports.{IsLiteral};
ghost use Rattle.proto_decl.specs.Declares.{IsDeclaration, outlines_in};
ghost use Rattle.proto_decl.specs.Uses.{uses_in};
ghost use Rattle.proto_decl.specs.Walked.{parts_in_item};
ghost use Rattle.proto_decl.specs.declared.declaration.Outline.{Outline};
ghost use Rattle.proto_decl.specs.Layout.{AreBegun};
ghost use Rattle.proto_decl.specs.Facts.{AreFactsOf, AreDetailsIf, plain_form, without_details};

use crate::comments::{leading_text, trailing_text};
use crate::declaration::{Declaration, Outline};
use crate::detail::{Detail, details_of};
use crate::facts::FileFacts;
use crate::form::FactForm;
use crate::imports::imports_of;
use crate::layout::{Begun, begun_before};
use crate::package::{package_scope, package_spans};
use crate::surrounding::Surrounding;
use crate::uses::{Use, components_at};
use crate::walk::walk_last;
use basics::{OwnedText, Sequence};
use comment_texts::CommentForm;
use proto_lex::Tokens;
use proto_parse::{File, FileItem, spans_of_tokens};
use std::alloc::{AllocError, Global};

/// What a file declares so far, and how many tokens and comments begin before the last declaration's first token.
#[derive(Drop)]
struct Declared<'t> {
    declarations: Vec<Declaration<'t>>,
    begun: Begun,
}

/// What is known of tokens and comments.
fn are_lexed(lexed: &Tokens<'_, '_>)
    ensures { IsLexed lexed.now.text lexed.now.tokens lexed.now.comments }
{
    // From here on it is known that these are the tokens and comments of the text.
    lexed.tokens();
    lexed.comments();
}

/// What is known of the spans of a tree that these tokens derive.
pub(crate) fn spans_of_tree(lexed: &Tokens<'_, '_>, file: &File)
    requires { DerivesBySome lexed.now.text lexed.now.tokens file.now }
    ensures package_name { OfPackage (IsPart lexed.now.text) file.now.package_name }
    ensures imports { All (λ import. All (IsLiteral lexed.now.text) import.literals) file.now.imports }
    ensures items { All (λ item. OfParts (IsPart lexed.now.text) (parts_in_item item)) file.now.items }
{
    are_lexed(lexed);
    spans_of_tokens();
}

/// A declaration with the comments that document it, in a form. So many tokens and comments begin before its first
/// token.
fn documented<'t>(
    alloc: Global,
    form: CommentForm,
    lexed: &Tokens<'_, 't>,
    begun: Begun,
    outline: Outline<'t>,
) -> Result<Declaration<'t>, AllocError>
    requires { AreBegun lexed.now outline.heading.first.start begun }
    ensures { IfOk result (IsDeclaration form lexed.now outline.entry) }
{
    let heading = outline.heading();
    let leading = leading_text(alloc, form, lexed, begun, heading.first)?;
    let trailing = trailing_text(alloc, form, lexed, begun.comments, heading.closing)?;
    Ok(Declaration::new(outline, leading, trailing))
}

/// Appends declarations with the comments that document them. They are in the order of their first tokens, so each
/// one's comments are looked for from those of the one before on.
fn push_documented<'t>(
    alloc: Global,
    form: CommentForm,
    lexed: &Tokens<'_, 't>,
    outlines: Vec<Outline<'t>>,
    declared: &mut Declared<'t>,
) -> Result<(), AllocError>
    ensures { OnOk result ((before : List Outline)
        → AllZip (IsDeclaration form lexed.now) before declared.old.declarations.items
        → AllZip (IsDeclaration form lexed.now) (before ++ outlines.entry.items) declared.new.declarations.items) }
{
    for outline in outlines {
        declared.begun = begun_before(
            lexed,
            declared.begun,
            outline.heading().first.start as usize,
        );
        let declaration = documented(alloc, form, lexed, declared.begun, outline)?;
        declared.declarations.push(declaration)?;
    }
    Ok(())
}

/// What a file's items declare, with the comments that document it, and which types they use, at a surrounding. The
/// outlines of each item are let go when its declarations are made.
fn declared_at<'t>(
    alloc: Global,
    form: CommentForm,
    lexed: &Tokens<'_, 't>,
    text: &'t str,
    surrounding: &Surrounding<'t>,
    items: &[FileItem],
) -> Result<(Vec<Declaration<'t>>, Vec<Use<'t>>), AllocError>
    requires { All (λ item. OfParts (IsPart text.now) (parts_in_item item)) items.now }
    ensures declarations { IfOk result (λ made. AllZip (IsDeclaration form lexed.now)
        (outlines_in text.now surrounding.now items.now) made.0.items) }
    ensures uses { IfOk result (λ made. made.1.items ≡ uses_in text.now surrounding.now items.now) }
{
    let mut uses = Vec::new(alloc);
    let mut declared = Declared {
        declarations: Vec::with_capacity(alloc, items.len())?,
        begun: Begun {
            tokens: 0,
            comments: 0,
        },
    };
    for item in items {
        let found = walk_last(alloc, text, surrounding, item, uses)?;
        uses = found.uses;
        push_documented(alloc, form, lexed, found.outlines, &mut declared)?;
    }
    Ok((declared.declarations, uses))
}

/// What a file's items declare and use, in the scope of the file's package.
fn declared_in<'t>(
    alloc: Global,
    form: CommentForm,
    lexed: &Tokens<'_, 't>,
    text: &'t str,
    scope: OwnedText,
    items: &[FileItem],
) -> Result<(Vec<Declaration<'t>>, Vec<Use<'t>>), AllocError>
    requires { All (λ item. OfParts (IsPart text.now) (parts_in_item item)) items.now }
    ensures declarations { IfOk result (λ made. AllZip (IsDeclaration form lexed.now)
        (outlines_in text.now (record { scope = scope; path = [] }) items.now) made.0.items) }
    ensures uses { IfOk result (λ made. made.1.items
        ≡ uses_in text.now (record { scope = scope; path = [] }) items.now) }
{
    let surrounding = Surrounding::new(alloc, scope, Sequence::new(alloc))?;
    declared_at(alloc, form, lexed, text, &surrounding, items)
}

/// How the declarations of a file read, and where they are, if that is asked for.
fn details_if(
    alloc: Global,
    asked: bool,
    lexed: &Tokens<'_, '_>,
    file: &File,
) -> Result<Option<Sequence<Detail>>, AllocError>
    requires { DerivesBySome lexed.now.text lexed.now.tokens file.now }
    ensures { IfOk result (AreDetailsIf asked lexed.now file.now) }
{
    if asked {
        let details = details_of(alloc, lexed, file)?;
        return Ok(Some(details));
    }
    Ok(None)
}

/// The facts of the file with this number, whose tree these tokens derive, in this form.
///
/// The tree must be that of these tokens: its spans are read off their text, of which the names of the
/// facts are parts. It is refused only for want of memory. The facts hold nothing of the tree.
pub fn declare_with<'t>(
    alloc: Global,
    form: FactForm,
    number: usize,
    lexed: &Tokens<'_, 't>,
    file: &File,
) -> Result<FileFacts<'t>, AllocError>
    requires { DerivesBySome lexed.now.text lexed.now.tokens file.now }
    ensures { IfOk result (AreFactsOf form number lexed.now file.now) }
{
    are_lexed(lexed);
    spans_of_tree(lexed, file);
    let text = lexed.text().as_str();
    let package_name = package_spans(file);
    let scope = package_scope(alloc, text, package_name)?;
    let package_name = components_at(alloc, text, package_name)?;
    let imports = imports_of(alloc, text, file.imports.as_slice())?;
    let (mut declarations, mut uses) = declared_in(
        alloc,
        form.comments,
        lexed,
        text,
        scope,
        file.items.as_slice(),
    )?;
    let details = details_if(alloc, form.details, lexed, file)?;
    declarations.shrink_to_fit();
    uses.shrink_to_fit();
    let declarations = Sequence::from_vec(declarations);
    let uses = Sequence::from_vec(uses);
    Ok(FileFacts::new(number, package_name, imports, declarations, uses, details))
}

/// The facts of the file with this number, whose tree these tokens derive, with the texts of comments in this form,
/// and without details: `declare_with` says what is asked and given.
pub fn declare_in<'t>(
    alloc: Global,
    comments: CommentForm,
    number: usize,
    lexed: &Tokens<'_, 't>,
    file: &File,
) -> Result<FileFacts<'t>, AllocError>
    requires { DerivesBySome lexed.now.text lexed.now.tokens file.now }
    ensures { IfOk result (AreFactsOf (without_details comments) number lexed.now file.now) }
{
    let form = FactForm {
        comments,
        details: false,
    };
    declare_with(alloc, form, number, lexed, file)
}

/// The facts of the file with this number, whose tree these tokens derive, with the texts of comments as they are
/// written, and without details: `declare_with` says what is asked and given.
pub fn declare<'t>(
    alloc: Global,
    number: usize,
    lexed: &Tokens<'_, 't>,
    file: &File,
) -> Result<FileFacts<'t>, AllocError>
    requires { DerivesBySome lexed.now.text lexed.now.tokens file.now }
    ensures { IfOk result (AreFactsOf plain_form number lexed.now file.now) }
{
    declare_with(alloc, FactForm::plain(), number, lexed, file)
}
