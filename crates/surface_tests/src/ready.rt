//! The ready promises and callbacks, once each.

use crate::hook_calls::{Alone, message};
use crate::shared::see;
use index_hooks::{
    AnyAnswer, BoxedFilter, BoxedRule, Choice, Chooses, DocAlways, DocChoice, DocOneOf, DocPromise,
    FilterPromise, KindIn, Kinds, NamePrefix, WithComment,
};
use proto_decl::{DeclView, DeclarationKind};
use std::alloc::{AllocError, Global};
use std::test::Fail;

/// Whether any answer is allowed, and of some kinds those alone are kept.
fn any_and_kinds(view: &DeclView<'_>) -> bool {
    let kinds = Kinds::of(&[DeclarationKind::Enum, DeclarationKind::Method]);
    FilterPromise::allows(&AnyAnswer, view, false)
        && DocPromise::allows(&AnyAnswer, view, DocChoice::Pass)
        && kinds.contains(DeclarationKind::Enum)
        && !kinds.contains(view.kind())
        && KindIn(kinds).allows(view, false)
}

/// Whether a promise allows to keep what is under the name `a`.
fn under_a(alloc: Global, view: &DeclView<'_>) -> Result<bool, AllocError> {
    let promise = NamePrefix(String::from_str(alloc, "a")?);
    Ok(promise.allows(view, true))
}

/// Whether a filter keeps what is under the name `a`, and a rule answers `Both`.
fn are_asked(alloc: Global, view: &DeclView<'_>) -> Result<bool, AllocError> {
    let filter: BoxedFilter = Box::new(alloc, NamePrefix::filter(alloc, "a")?)?;
    let rule: BoxedRule = Box::new(alloc, DocAlways(DocChoice::Both).rule())?;
    let (keep, doc) = (true, DocChoice::Both);
    Ok(Alone(&filter, &rule).choose(view) == Choice { keep, doc })
}

/// Whether a promise of the answer `Both` allows it, and no other.
fn both_alone(alloc: Global, view: &DeclView<'_>) -> Result<bool, AllocError> {
    let listed = DocOneOf(Vec::from_slice(alloc, &[DocChoice::Both])?);
    let always = DocAlways(DocChoice::Both);
    Ok(
        listed.allows(view, DocChoice::Both)
            && !listed.allows(view, DocChoice::Pass)
            && always.allows(view, DocChoice::Both)
            && !always.allows(view, DocChoice::Pass),
    )
}

/// Whether a filter by kind keeps the view, and one by comments too.
fn are_kept(alloc: Global, view: &DeclView<'_>) -> Result<(bool, bool), AllocError> {
    let kinds = Kinds::of(&[DeclarationKind::Message]);
    let by_kind: BoxedFilter = Box::new(alloc, KindIn(kinds).filter())?;
    let by_comment: BoxedFilter = Box::new(alloc, WithComment.filter())?;
    let rule: BoxedRule = Box::new(alloc, DocAlways(DocChoice::Both).rule())?;
    let kind = Alone(&by_kind, &rule).choose(view).keep;
    let comment = Alone(&by_comment, &rule).choose(view).keep;
    Ok((
        kind && KindIn(kinds).allows(view, true),
        comment && WithComment.allows(view, true),
    ))
}

/// Kinds and texts before and behind, and whether a filter of messages keeps them, and one of what has a comment. The
/// second reads: an enum with a text behind it.
const VIEWS: [(DeclarationKind, &str, &str, (bool, bool)); 4] = [
    (DeclarationKind::Message, "before", "", (true, true)),
    (DeclarationKind::Enum, "", "behind", (false, true)),
    (DeclarationKind::Message, "", "", (true, false)),
    (DeclarationKind::Field, "", "", (false, false)),
];

#[test]
fn filters_by_kind_and_by_comment(rt: HostRuntime) -> Result<(), Fail> {
    for (kind, leading, trailing, due) in &VIEWS {
        let view = DeclView::new(*kind, "M", "a.M", leading, trailing);
        see(
            &rt,
            are_kept(rt.alloc(), &view)? == *due,
            "by kind, by comment",
        );
    }
    Ok(())
}

#[test]
fn ready_promises_and_callbacks(rt: HostRuntime) -> Result<(), Fail> {
    let view = message();
    see(&rt, any_and_kinds(&view), "any answer, and kinds");
    see(&rt, under_a(rt.alloc(), &view)?, "names");
    see(&rt, both_alone(rt.alloc(), &view)?, "rules");
    see(&rt, are_asked(rt.alloc(), &view)?, "hooks");
    Ok(())
}
