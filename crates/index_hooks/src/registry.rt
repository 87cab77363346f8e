//! The registry.

ghost use Rattle.std.specs.Prelude.{◌≡◌, ◌≤◌, length};
ghost use Rattle.index_hooks.specs.Adding.{most_hooks, Adds};
ghost use Rattle.index_hooks.specs.MayChoose.{MayKeep, MayDocument};
ghost use Rattle.index_hooks.specs.Turns.{IsTurnOf, taken, place_of};

use crate::choice::{Choice, DocChoice};
use crate::fault::HookFault;
use crate::hook::{BoxedFilter, BoxedRule, DocHook, FilterHook};
use crate::turns::{Chooses, Turn, Turns};
use basics::Sequence;
use proto_decl::DeclView;
use std::alloc::Global;

/// The most filters, and the most documentation rules, of a registry.
pub const MAX_HOOKS: usize = 16;

/// Filters and documentation rules, at most `MAX_HOOKS` of each.
#[derive(Drop)]
pub struct Registry {
    filters: Sequence<BoxedFilter>,
    rules: Sequence<BoxedRule>,
    ghost few_filters: { length filters ≤ most_hooks },
    ghost few_rules: { length rules ≤ most_hooks },
}

/// What has promises about the answers of its filters and rules, and nothing else is known of these.
pub trait Promises {
    ghost use Rattle.proto_decl.specs.Values.{Seen};

    // For what is seen of a declaration each promise allows one answer at most.
    ghost are_exact: { Self → Seen → Type 0 };
}

/// Adds a filter or a rule to those of its kind.
fn add<H>(hooks: &mut Sequence<H>, hook: H) -> Result<(), (H, HookFault)>
    requires { length hooks.old ≤ most_hooks }
    ensures { Adds hooks.old hook hooks.new result }
{
    if hooks.as_slice().len() == MAX_HOOKS {
        return Err((hook, HookFault::Full));
    }
    match hooks.push(hook) {
        Ok(()) => Ok(()),
        Err(refused) => Err((refused.value, HookFault::Memory)),
    }
}

impl Registry {
    ghost use Rattle.std.specs.Prelude.{◌≡◌, []};
    ghost use Rattle.proto_decl.specs.Values.{Seen};
    ghost use Rattle.index_hooks.specs.declared.choice.Choice.{Choice};
    ghost use Rattle.index_hooks.specs.Adding.{Adds};
    ghost use Rattle.index_hooks.specs.MayChoose.{IsDefaultChoice};

    /// A registry without filters and rules: it keeps every declaration, with its leading text. It
    /// keeps the allocator, and takes no memory yet.
    pub fn new(alloc: Global) -> Registry
        ensures filters { result.filters ≡ [] }
        ensures rules { result.rules ≡ [] }
        ensures chooses { (seen : Seen) (choice : Choice) → ⟦<Registry as Chooses>⟧.allows result seen choice
            → IsDefaultChoice choice }
    {
        Registry {
            filters: Sequence::new(alloc),
            rules: Sequence::new(alloc),
        }
    }

    /// Adds a filter after those that it has.
    ///
    /// `Full`: it has `MAX_HOOKS` filters. Then `Memory`. The registry stays as it was, and the
    /// filter comes back.
    pub fn add_filter(&mut self, filter: BoxedFilter) -> Result<(), (BoxedFilter, HookFault)>
        ensures filters { Adds self.old.filters filter self.new.filters result }
        ensures rules { self.new.rules ≡ self.old.rules }
    {
        add(&mut self.filters, filter)
    }

    /// Adds a documentation rule after those that it has.
    ///
    /// `Full`: it has `MAX_HOOKS` rules. Then `Memory`. The registry stays as it was, and the rule
    /// comes back.
    pub fn add_doc(&mut self, rule: BoxedRule) -> Result<(), (BoxedRule, HookFault)>
        ensures rules { Adds self.old.rules rule self.new.rules result }
        ensures filters { self.new.filters ≡ self.old.filters }
    {
        add(&mut self.rules, rule)
    }

    /// The choice for a declaration, as by `Chooses::choose`.
    pub fn choose(&self, view: &DeclView<'_>) -> Choice
        ensures { ⟦<Registry as Chooses>⟧.allows self.now view.now result }
    {
        Chooses::choose(self, view)
    }
}

/// Asks the filter whose turn it is.
fn ask_filter(
    filters: &[BoxedFilter],
    filter: &BoxedFilter,
    turn: Turn,
    view: &DeclView<'_>,
) -> bool
    requires { IsTurnOf 0 filters.now filter.now (place_of turn) }
    ensures { (FilterHook-box filter.now).may filter.now.value view.now result }
{
    filter.ask(turn, view)
}

/// Asks the rule whose turn it is, where the turns of the rules begin at `first`.
fn ask_rule(
    first: usize,
    rules: &[BoxedRule],
    rule: &BoxedRule,
    turn: Turn,
    view: &DeclView<'_>,
) -> DocChoice
    requires { IsTurnOf first rules.now rule.now (place_of turn) }
    ensures { (DocHook-box rule.now).may rule.now.value view.now result }
{
    rule.ask(turn, view)
}

/// Whether all filters answer `true`. The first `false` ends the asking.
fn keeps(filters: &[BoxedFilter], turns: &mut Turns, view: &DeclView<'_>) -> bool
    requires few { length filters.now ≤ most_hooks }
    requires first { taken turns.old ≡ 0 }
    ensures keeps { MayKeep (λ f keep. (FilterHook-box f).may f.value view.now keep) filters.now result }
    ensures taken { taken turns.new ≤ length filters.now }
{
    for filter in filters {
        if !ask_filter(filters, filter, turns.next(), view) {
            return false;
        }
    }
    true
}

/// The first answer that isn't `Pass`, and `Leading` if all rules pass. Their turns begin at `first`.
fn documents(first: usize, rules: &[BoxedRule], turns: &mut Turns, view: &DeclView<'_>) -> DocChoice
    requires few { (first ≤ most_hooks) × (length rules.now ≤ most_hooks) }
    requires first { taken turns.old ≡ first }
    ensures { MayDocument (λ r answer. (DocHook-box r).may r.value view.now answer) rules.now result }
{
    for rule in rules {
        match ask_rule(first, rules, rule, turns.next(), view) {
            DocChoice::Pass => {}
            answer => return answer,
        }
    }
    DocChoice::Leading
}

impl Chooses for Registry {
    ghost use Rattle.index_hooks.specs.MayChoose.{MayChoose};

    // The promises' choices.
    ghost allows = { λ registry seen choice. MayChoose (λ f keep. (FilterHook-box f).may f.value seen keep)
        (λ r answer. (DocHook-box r).may r.value seen answer) registry.filters registry.rules choice };

    /// Asks the filters in the order in which they were added, up to the first that answers `false`,
    /// and then the rules, up to the first that doesn't pass, also for what isn't kept.
    fn choose_by(&self, mut turns: Turns, view: &DeclView<'_>) -> Choice {
        let filters = self.filters.as_slice();
        let keep = keeps(filters, &mut turns, view);
        turns.leave_out(filters.len());
        let doc = documents(filters.len(), self.rules.as_slice(), &mut turns, view);
        Choice { keep, doc }
    }
}

impl Promises for Registry {
    ghost use Rattle.index_hooks.specs.OneChoice.{AreExact};

    ghost are_exact = { λ registry seen. AreExact (λ f keep. (FilterHook-box f).may f.value seen keep)
        (λ r answer. (DocHook-box r).may r.value seen answer) registry.filters registry.rules };
}
