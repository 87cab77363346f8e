//! What the options of `index` and `shell` choose for each declaration.

ghost use Rattle.std.specs.Prelude.{◌≡◌, IfOk};
ghost use Rattle.std.specs.Option.{option_map};
ghost use Rattle.std.specs.String.{string_bytes};
ghost use Rattle.index_hooks.specs.Turns.{place_of};
ghost use Rattle.programs.specs.Choices.{IsKeptBy, documented_by};

use index_hooks::{
    Choice, Chooses, DocAlways, DocChoice, DocHook, DocRule, Filter, FilterHook, NamePrefix, Turn,
    Turns,
};
use proto_decl::DeclView;
use std::alloc::{AllocError, Global};

/// What is chosen for each declaration. `--only` says whether it is kept, and `--doc` which comment texts document
/// it. Without `--only` all are kept, and without `--doc` the text before a declaration documents it.
#[derive(Drop)]
pub struct OptionChoices {
    filter: Option<Filter<NamePrefix, NamePrefix>>,
    rule: Option<DocRule<DocAlways, DocAlways>>,
}

/// The rule that always gives what `--doc` says.
fn rule_of(doc: Option<DocChoice>) -> Option<DocRule<DocAlways, DocAlways>>
    ensures { option_map (λ rule. rule.promise.0) result ≡ doc }
{
    match doc {
        Some(choice) => Some(DocAlways(choice).rule()),
        None => None,
    }
}

/// The filter that a prefix of `--only` asks for.
fn filter_of(
    alloc: Global,
    prefix: Option<&str>,
) -> Result<Option<Filter<NamePrefix, NamePrefix>>, AllocError>
    ensures { IfOk result (λ filter. option_map (λ f. string_bytes f.promise.0) filter ≡ option_map (λ text. text.now)
        prefix.entry) }
{
    match prefix {
        Some(prefix) => Ok(Some(NamePrefix::filter(alloc, prefix)?)),
        None => Ok(None),
    }
}

impl OptionChoices {
    /// The choices for a full name of `--only` and what `--doc` says.
    pub fn new(
        alloc: Global,
        only: Option<&str>,
        doc: Option<DocChoice>,
    ) -> Result<OptionChoices, AllocError>
        ensures only { IfOk result (λ choices. option_map (λ f. string_bytes f.promise.0) choices.filter ≡ option_map
            (λ text. text.now) only.entry) }
        ensures doc { IfOk result (λ choices. option_map (λ r. r.promise.0) choices.rule ≡ doc) }
    {
        Ok(OptionChoices {
            filter: filter_of(alloc, only)?,
            rule: rule_of(doc),
        })
    }

    /// Whether a declaration is kept. The filter has the first turn.
    fn keeps(&self, turn: Turn, view: &DeclView<'_>) -> bool
        requires { place_of turn ≡ 0 }
        ensures { IsKeptBy (option_map (λ f. string_bytes f.promise.0) self.now.filter) view.now result }
    {
        match &self.filter {
            Some(filter) => filter.ask(turn, view),
            None => true,
        }
    }

    /// Which texts document a declaration. The rule has the second turn.
    fn documents(&self, turn: Turn, view: &DeclView<'_>) -> DocChoice
        requires { place_of turn ≡ 1 }
        ensures { result ≡ documented_by (option_map (λ r. r.promise.0) self.now.rule) }
    {
        match &self.rule {
            Some(rule) => match rule.ask(turn, view) {
                DocChoice::Pass => DocChoice::Leading,
                answer => answer,
            },
            None => DocChoice::Leading,
        }
    }
}

impl Chooses for OptionChoices {
    ghost use Rattle.std.specs.Option.{option_map};
    ghost use Rattle.std.specs.String.{string_bytes};
    ghost use Rattle.programs.specs.Choices.{IsChosenBy};

    ghost allows = { λ choices seen choice. IsChosenBy (option_map (λ f. string_bytes f.promise.0) choices.filter)
        (option_map (λ r. r.promise.0) choices.rule) seen choice };

    fn choose_by(&self, mut turns: Turns, view: &DeclView<'_>) -> Choice {
        Choice {
            keep: self.keeps(turns.next(), view),
            doc: self.documents(turns.next(), view),
        }
    }
}
