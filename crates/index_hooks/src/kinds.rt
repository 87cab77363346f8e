//! Declarations chosen by their kind.

ghost use Rattle.std.specs.Prelude.{◌≡◌, ◌↔◌, IsTrue, Contains};

use crate::callback::FilterCallback;
use crate::filter::Filter;
use crate::promise::FilterPromise;
use proto_decl::{DeclView, DeclarationKind};

/// A set of kinds of declarations: for each kind, whether the set has it.
#[derive(Clone, Copy, Debug, PartialEq, Eq)]
pub struct Kinds {
    messages: bool,
    enums: bool,
    services: bool,
    fields: bool,
    oneofs: bool,
    values: bool,
    methods: bool,
}

/// Whether a kind is among these.
fn is_among(kinds: &[DeclarationKind], kind: DeclarationKind) -> bool
    ensures { IsTrue result ↔ Contains kinds.now kind }
{
    kinds.contains(&kind)
}

impl Kinds {
    ghost use Rattle.std.specs.Prelude.{◌↔◌, IsTrue, Contains};
    ghost use Rattle.proto_decl.specs.declared.declaration.DeclarationKind.{DeclarationKind};
    ghost use Rattle.index_hooks.specs.HasKind.{HasKind};

    /// The set of these kinds. One may be there more than once.
    pub fn of(kinds: &[DeclarationKind]) -> Kinds
        ensures { (kind : DeclarationKind) → HasKind result kind ↔ Contains kinds.now kind }
    {
        Kinds {
            messages: is_among(kinds, DeclarationKind::Message),
            enums: is_among(kinds, DeclarationKind::Enum),
            services: is_among(kinds, DeclarationKind::Service),
            fields: is_among(kinds, DeclarationKind::Field),
            oneofs: is_among(kinds, DeclarationKind::Oneof),
            values: is_among(kinds, DeclarationKind::Value),
            methods: is_among(kinds, DeclarationKind::Method),
        }
    }

    /// Whether the set has this kind.
    pub fn contains(&self, kind: DeclarationKind) -> bool
        ensures { IsTrue result ↔ HasKind self.now kind }
    {
        match kind {
            DeclarationKind::Message => self.messages,
            DeclarationKind::Enum => self.enums,
            DeclarationKind::Service => self.services,
            DeclarationKind::Field => self.fields,
            DeclarationKind::Oneof => self.oneofs,
            DeclarationKind::Value => self.values,
            DeclarationKind::Method => self.methods,
        }
    }
}

/// The promise of a filter that answers `true` if and only if the kind is in the set.
///
/// It is also the callback that answers so.
#[derive(Clone, Copy, Debug, PartialEq, Eq)]
pub struct KindIn(pub Kinds);

impl FilterPromise for KindIn {
    ghost use Rattle.index_hooks.specs.ReadyPromises.{KeepsKinds};

    ghost may = { λ promise seen keep. KeepsKinds promise.0 seen keep };

    fn allows(&self, view: &DeclView<'_>, keep: bool) -> bool {
        keep == self.0.contains(view.kind())
    }
}

impl FilterCallback for KindIn {
    ghost use Rattle.index_hooks.specs.ReadyPromises.{KeepsKinds};

    ghost gives = { λ promise seen keep. KeepsKinds promise.0 seen keep };

    fn call(&self, view: &DeclView<'_>) -> bool {
        self.0.contains(view.kind())
    }
}

impl KindIn {
    /// The filter that keeps the declarations of these kinds.
    pub fn filter(self) -> Filter<KindIn, KindIn>
        ensures promise { result.promise ≡ self }
        ensures callback { result.callback ≡ self }
    {
        Filter::new(self, self)
    }
}
