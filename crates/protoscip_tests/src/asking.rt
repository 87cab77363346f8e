//! A chooser that counts how often it is asked.

use index_hooks::{Choice, Chooses, Registry, Turns};
use proto_decl::DeclView;
use std::sync::atomic::{AtomicU64, Ordering};

/// Asks a registry, and counts how often.
#[derive(Drop)]
pub(crate) struct Asking<'a> {
    registry: &'a Registry,
    asked: AtomicU64,
}

impl<'a> Asking<'a> {
    /// One that nobody has asked yet.
    pub(crate) fn new(registry: &'a Registry) -> Asking<'a> {
        Asking {
            registry,
            asked: AtomicU64::new(0),
        }
    }

    /// How often it was asked.
    pub(crate) fn count(&self) -> u64 {
        self.asked.load(Ordering::SeqCst)
    }
}

impl<'a> Chooses for Asking<'a> {
    ghost allows = { λ _ _ _. Unit {0} };

    fn choose_by(&self, turns: Turns, view: &DeclView<'_>) -> Choice {
        self.asked.fetch_add(1, Ordering::SeqCst);
        self.registry.choose_by(turns, view)
    }
}
