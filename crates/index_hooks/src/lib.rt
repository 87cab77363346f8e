//! What is indexed and what becomes documentation: callbacks, each beside a promise about its answers.
//!
//! A filter says of each declaration whether it is kept, and a documentation rule which of its comment
//! texts document it. Each holds a callback, a type of one's own with one method, beside a promise
//! that allows each of its answers. All that is known of what a `Registry` chooses is what the
//! promises of its filters and rules allow; `AnyAnswer` allows everything.
//!
//! Ready ones: `KindIn(kinds).filter()`, `NamePrefix::filter(alloc, "a.b")?`, `WithComment.filter()` and
//! `DocAlways(DocChoice::Both).rule()`, each beside its promise.
//!
//! A filter of one's own:
//!
//! ```
//! /// Keeps what has a comment before it.
//! #[derive(Drop)]
//! struct Commented;
//!
//! impl FilterCallback for Commented {
//!     fn call(&self, view: &DeclView<'_>) -> bool {
//!         !view.leading().is_empty()
//!     }
//! }
//!
//! let filter = Box::new(alloc, Filter::new(AnyAnswer, Commented))?;
//! registry.add_filter(filter)
//! ```
//!
//! A documentation rule of one's own:
//!
//! ```
//! /// Documents the values of enums by the text behind them, and leaves the rest to other rules.
//! #[derive(Drop)]
//! struct BehindValues;
//!
//! impl DocCallback for BehindValues {
//!     fn call(&self, view: &DeclView<'_>) -> DocChoice {
//!         match view.kind() {
//!             DeclarationKind::Value => DocChoice::Trailing,
//!             _ => DocChoice::Pass,
//!         }
//!     }
//! }
//!
//! let rule = Box::new(alloc, DocRule::new(AnyAnswer, BehindValues))?;
//! registry.add_doc(rule)
//! ```
//!
//! Under a promise that allows less, the callback says what it may answer, here by the member
//! `ghost gives = { λ _ seen keep. IsTrue keep ↔ (seen.leading ≢ []) };` of `Commented`, and where the
//! filter is made it has to be shown that the promise allows that.
#![tactic(auto)]

// What is asked, and what is chosen.
mod callback;
mod choice;
mod turns;

// Callbacks with their promises.
mod filter;
mod hook;
mod promise;
mod rule;

// The registry.
mod fault;
mod registry;

// Promises to take.
mod any_answer;
mod doc_answers;
mod kinds;
mod names;
mod with_comment;

// The laws.
mod laws;

pub use any_answer::AnyAnswer;
pub use callback::{DocCallback, FilterCallback};
pub use choice::{Choice, DocChoice};
pub use doc_answers::{DocAlways, DocOneOf};
pub use fault::HookFault;
pub use filter::Filter;
pub use hook::{BoxedFilter, BoxedRule, DocHook, FilterHook};
pub use kinds::{KindIn, Kinds};
pub use laws::one_choice;
pub use names::NamePrefix;
pub use promise::{DocPromise, FilterPromise};
pub use registry::{MAX_HOOKS, Promises, Registry};
pub use rule::DocRule;
pub use turns::{Chooses, Turn, Turns};
pub use with_comment::WithComment;
