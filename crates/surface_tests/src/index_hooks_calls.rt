//! Promises, callbacks and the registry.

ghost use Rattle.std.specs.Prelude.{◌≡◌, true};
ghost use Rattle.index_hooks.specs.declared.choice.DocChoice.TheVariants.{Trailing};

use crate::shared::see;
use index_hooks::{
    AnyAnswer, BoxedFilter, Choice, Chooses, DocAlways, DocCallback, DocChoice, DocHook, DocOneOf,
    DocPromise, DocRule, Filter, FilterCallback, FilterHook, FilterPromise, KindIn, Kinds,
    NamePrefix, Registry, Turns,
};
use proto_decl::{DeclView, DeclarationKind};
use std::alloc::{AllocError, Global};
use std::process::Abort;
use std::sync::Arc;
use std::sync::atomic::{AtomicU64, Ordering};
use std::test::Fail;

/// The promise to answer `true` alone, and the callback that does.
#[derive(Drop)]
struct OnlyTrue;

impl FilterPromise for OnlyTrue {
    ghost may = { λ _ _ keep. keep ≡ true };

    fn allows(&self, _view: &DeclView<'_>, keep: bool) -> bool {
        keep
    }
}

impl FilterCallback for OnlyTrue {
    ghost gives = { λ _ _ keep. keep ≡ true };

    fn call(&self, _view: &DeclView<'_>) -> bool {
        true
    }
}

/// The promise to answer `Trailing` alone, and the callback that does.
#[derive(Drop)]
struct OnlyTrailing;

impl DocPromise for OnlyTrailing {
    ghost may = { λ _ _ answer. answer ≡ Trailing };

    fn allows(&self, _view: &DeclView<'_>, answer: DocChoice) -> bool {
        answer == DocChoice::Trailing
    }
}

impl DocCallback for OnlyTrailing {
    ghost gives = { λ _ _ answer. answer ≡ Trailing };

    fn call(&self, _view: &DeclView<'_>) -> DocChoice {
        DocChoice::Trailing
    }
}

/// What is seen of a declaration: its kind, its name and its full name.
type Seen = (DeclarationKind, &'static str, &'static str);

/// An enum with its value, and a message with its field.
const SEEN: [Seen; 4] = [
    (DeclarationKind::Enum, "E", "E"),
    (DeclarationKind::Value, "ZERO", "ZERO"),
    (DeclarationKind::Message, "M", "M"),
    (DeclarationKind::Field, "e", "M.e"),
];

/// The view of a declaration without comments.
fn view_of(seen: &Seen) -> DeclView<'static> {
    DeclView::new(seen.0, seen.1, seen.2, "", "")
}

/// These bits and one more, at the end.
fn with_bit(bits: u32, bit: bool) -> u32 {
    bits.wrapping_mul(2).wrapping_add(u32::from(bit))
}

/// For each of the declarations a bit: whether a promise allows this answer.
fn filter_allows<P: FilterPromise>(promise: &P, answer: bool) -> u32 {
    let mut bits = 0;
    for seen in &SEEN {
        bits = with_bit(bits, promise.allows(&view_of(seen), answer));
    }
    bits
}

/// The same of a promise of a documentation rule.
fn doc_allows<Q: DocPromise>(promise: &Q, answer: DocChoice) -> u32 {
    let mut bits = 0;
    for seen in &SEEN {
        bits = with_bit(bits, promise.allows(&view_of(seen), answer));
    }
    bits
}

/// The same of the names below `M`, for the answer `true`.
fn below_allows(alloc: Global) -> Result<u32, AllocError> {
    let prefix = NamePrefix(String::from_str(alloc, "M")?);
    Ok(filter_allows(&prefix, true))
}

/// The same of two listed answers.
fn listed_allows(alloc: Global, answer: DocChoice) -> Result<u32, AllocError> {
    let choices = [DocChoice::Pass, DocChoice::Leading];
    let listed = DocOneOf(Vec::from_slice(alloc, &choices)?);
    Ok(doc_allows(&listed, answer))
}

#[test]
fn filter_promises_allow(rt: HostRuntime) -> Result<(), Fail> {
    let any = filter_allows(&AnyAnswer, false);
    see(&rt, any == 0b1111, "any answer");
    let kinds = KindIn(Kinds::of(&[DeclarationKind::Enum, DeclarationKind::Value]));
    let are_in = filter_allows(&kinds, true);
    see(&rt, are_in == 0b1100, "the kinds that are in the set");
    let are_out = filter_allows(&kinds, false);
    see(&rt, are_out == 0b0011, "the kinds that aren't");
    let below = below_allows(rt.alloc())?;
    see(&rt, below == 0b0011, "the names below M");
    let own = filter_allows(&OnlyTrue, false);
    see(&rt, own == 0, "a promise of true");
    Ok(())
}

#[test]
fn doc_promises_allow(rt: HostRuntime) -> Result<(), Fail> {
    let any = doc_allows(&AnyAnswer, DocChoice::Pass);
    see(&rt, any == 0b1111, "any answer");
    let always = DocAlways(DocChoice::Both);
    let same = doc_allows(&always, DocChoice::Both);
    see(&rt, same == 0b1111, "the one answer");
    let other = doc_allows(&always, DocChoice::Leading);
    see(&rt, other == 0, "another answer");
    let same = listed_allows(rt.alloc(), DocChoice::Leading)?;
    see(&rt, same == 0b1111, "a listed answer");
    let other = listed_allows(rt.alloc(), DocChoice::Nothing)?;
    see(&rt, other == 0, "an answer that isn't listed");
    let own = doc_allows(&OnlyTrailing, DocChoice::Both);
    see(&rt, own == 0, "a promise of Trailing");
    Ok(())
}

/// Asks a filter and a rule.
#[derive(Drop)]
struct Asking {
    filter: Filter<OnlyTrue, OnlyTrue>,
    rule: DocRule<OnlyTrailing, OnlyTrailing>,
}

impl Chooses for Asking {
    ghost allows = { λ _ _ _. Unit {0} };

    fn choose_by(&self, mut turns: Turns, view: &DeclView<'_>) -> Choice {
        let keep = self.filter.ask(turns.next(), view);
        let doc = self.rule.ask(turns.next(), view);
        Choice { keep, doc }
    }
}

#[test]
fn hooks_ask(rt: HostRuntime) -> Result<(), Fail> {
    let asking = Asking {
        filter: Filter::new(OnlyTrue, OnlyTrue),
        rule: DocRule::new(OnlyTrailing, OnlyTrailing),
    };
    let view = DeclView::new(DeclarationKind::Message, "M", "M", "", "");
    let (keep, doc) = (true, DocChoice::Trailing);
    see(
        &rt,
        asking.choose(&view) == Choice { keep, doc },
        "what is answered",
    );
    Ok(())
}

/// Keeps what is of these kinds, and counts how often it is asked.
#[derive(Drop)]
struct Counting {
    kinds: KindIn,
    asked: Arc<AtomicU64>,
}

impl FilterCallback for Counting {
    ghost use Rattle.index_hooks.specs.ReadyPromises.{KeepsKinds};

    ghost gives = { λ callback seen keep. KeepsKinds callback.kinds.0 seen keep };

    fn call(&self, view: &DeclView<'_>) -> bool {
        self.asked.fetch_add(1, Ordering::SeqCst);
        self.kinds.call(view)
    }
}

/// All kinds but that of enums.
const NO_ENUMS: [DeclarationKind; 6] = [
    DeclarationKind::Message,
    DeclarationKind::Service,
    DeclarationKind::Field,
    DeclarationKind::Oneof,
    DeclarationKind::Value,
    DeclarationKind::Method,
];

/// For each of the declarations a bit: whether a registry keeps it with its leading text.
fn kept_by(registry: &Registry) -> u32 {
    let mut bits = 0;
    for seen in &SEEN {
        let Choice { keep, doc } = registry.choose(&view_of(seen));
        bits = with_bit(bits, keep && doc == DocChoice::Leading);
    }
    bits
}

/// Sees that a registry with a filter of all kinds but that of enums keeps what is of them.
fn see_kept(rt: &impl Abort, alloc: Global, asked: &Arc<AtomicU64>) -> Result<(), AllocError> {
    let kinds = KindIn(Kinds::of(&NO_ENUMS));
    let callback = Counting {
        kinds,
        asked: Arc::try_clone(asked)?,
    };
    let filter: BoxedFilter = Box::new(alloc, Filter::new(kinds, callback))?;
    let mut registry = Registry::new(alloc);
    let is_taken = registry.add_filter(filter).is_ok();
    see(rt, is_taken, "the filter is taken");
    let kept = kept_by(&registry);
    see(rt, kept == 0b0111, "all but the enum are kept");
    Ok(())
}

#[test]
fn registry_chooses_by_kind(rt: HostRuntime) -> Result<(), Fail> {
    let asked = Arc::new(rt.alloc(), AtomicU64::new(0))?;
    see_kept(&rt, rt.alloc(), &asked)?;
    let count = asked.load(Ordering::SeqCst);
    see(&rt, count == 4, "each declaration is asked about once");
    Ok(())
}
