//! Filters and rules that are added: the room of a registry, and what comes back.

use crate::hook_calls::{Alone, chooses, message, no_calls, noting_filter, see_added};
use crate::shared::see;
use index_hooks::{
    BoxedFilter, BoxedRule, Chooses, DocAlways, DocChoice, HookFault, MAX_HOOKS, Registry,
    one_choice,
};
use std::test::Fail;

#[test]
fn a_new_registry_keeps_all_with_the_leading_text(rt: HostRuntime) {
    let registry = Registry::new(rt.alloc());
    one_choice(&registry);
    see(&rt, chooses(&registry, true, DocChoice::Leading, 1), "new");
}

/// Whether a filter came back that keeps nothing, since the registry is full.
fn is_dropping_filter(answer: Result<(), (BoxedFilter, HookFault)>, rule: &BoxedRule) -> bool {
    match answer {
        Err((filter, HookFault::Full)) => !Alone(&filter, rule).choose(&message()).keep,
        _ => false,
    }
}

#[test]
fn seventeenth_filter_comes_back(rt: HostRuntime) -> Result<(), Fail> {
    let alloc = rt.alloc();
    let calls = no_calls(alloc)?;
    let rule: BoxedRule = Box::new(alloc, DocAlways(DocChoice::Both).rule())?;
    let dropping = noting_filter(alloc, false, 0, &calls)?;
    let mut registry = Registry::new(alloc);
    for _ in 0..MAX_HOOKS {
        let filter = noting_filter(alloc, true, 0, &calls)?;
        if let Err((filter, _)) = registry.add_filter(filter) {
            see_added(&rt, registry.add_filter(filter));
        }
    }
    let is_back = is_dropping_filter(registry.add_filter(dropping), &rule);
    see(&rt, is_back && MAX_HOOKS == 16, "the filter that came back");
    if let Err((rule, _)) = registry.add_doc(rule) {
        see_added(&rt, registry.add_doc(rule));
    }
    let so = chooses(&registry, true, DocChoice::Both, 1);
    see(&rt, so, "the 16 filters and the rule");
    Ok(())
}

/// Faults, their names, and how they are shown.
const SHOWN: [(HookFault, &str, &str); 2] = [
    (
        HookFault::Full,
        "Full",
        "the registry has 16 of this kind already",
    ),
    (HookFault::Memory, "Memory", "memory ran out"),
];

#[test]
fn faults_are_shown_in_sentences(rt: HostRuntime) -> Result<(), Fail> {
    for (fault, name, due) in &SHOWN {
        let text = format!(in rt.alloc(); "{fault}")?;
        see(&rt, text.as_str() == *due && fault.name() == *name, due);
    }
    Ok(())
}
