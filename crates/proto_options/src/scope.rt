//! Scopes of options.

ghost use Rattle.std.specs.Prelude.{◌≡◌, IfOk};
ghost use Rattle.proto_decl.specs.Names.{qualified};

use basics::OwnedText;
use std::alloc::{AllocError, Global};
use std::marker::Model;
use std::sync::Arc;

/// The full name of the scope from which an option's name is looked up. The options of all that is directly in the same
/// file, message or service share it.
///
/// Contracts see the list of its bytes.
#[derive(Debug, Drop)]
pub struct OptionScope {
    name: Arc<OwnedText, Global>,
}

impl Model for OptionScope {
    ghost use Rattle.std.specs.Prelude.{List, ℕ};
    ghost use Rattle.std.specs.Arc.{arc_value};

    ghost Value = { List ℕ };

    ghost view = { λ shared. arc_value shared.name };
}

impl OptionScope {
    /// The scope with this full name.
    pub(crate) fn of(alloc: Global, name: OwnedText) -> Result<OptionScope, AllocError>
        ensures { IfOk result (λ scope. scope ≡ name) }
    {
        Ok(OptionScope {
            name: Arc::new(alloc, name)?,
        })
    }

    /// The same scope, with one owner more. Nothing is copied.
    pub(crate) fn share(&self) -> Result<OptionScope, AllocError>
        ensures { IfOk result (λ scope. scope ≡ self.now) }
    {
        Ok(OptionScope {
            name: Arc::try_clone(&self.name)?,
        })
    }

    /// The scope of a message or a service with this name in this one.
    pub(crate) fn inside(&self, alloc: Global, name: &str) -> Result<OptionScope, AllocError>
        ensures { IfOk result (λ scope. scope ≡ qualified self.now name.now) }
    {
        OptionScope::of(alloc, qualified(alloc, self.as_str(), name)?)
    }

    /// The full name; the root's is empty.
    pub fn as_str(&self) -> &str
        ensures { result.now ≡ self.now }
    {
        self.name.as_str()
    }
}

/// The full name of a name in a scope.
fn qualified(alloc: Global, scope: &str, name: &str) -> Result<OwnedText, AllocError>
    ensures { IfOk result (λ text. text ≡ qualified scope.now name.now) }
{
    let length = scope.len().saturating_add(name.len());
    let mut text = String::with_capacity(alloc, length.saturating_add(1))?;
    text.push_str(scope)?;
    if !scope.is_empty() {
        text.push_str(".")?;
    }
    text.push_str(name)?;
    Ok(OwnedText::from_string(text))
}
