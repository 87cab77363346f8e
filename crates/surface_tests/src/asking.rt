//! What a registry asks, in which order and how often.

use crate::hook_calls::{chooses, no_calls, noting_filter, noting_rule, see_added};
use crate::shared::see;
use index_hooks::{DocChoice, Registry};
use std::sync::atomic::Ordering;
use std::test::Fail;

// Answers of filters, and their digits. The second reads: it keeps nothing, and its calls are noted as 2.
const FILTERED: [(bool, u64); 3] = [(true, 1), (false, 2), (true, 3)];

#[test]
fn the_first_false_ends_the_asking(rt: HostRuntime) -> Result<(), Fail> {
    let alloc = rt.alloc();
    let calls = no_calls(alloc)?;
    let mut registry = Registry::new(alloc);
    for (answer, digit) in &FILTERED {
        let filter = noting_filter(alloc, *answer, *digit, &calls)?;
        if let Err((filter, _)) = registry.add_filter(filter) {
            see_added(&rt, registry.add_filter(filter));
        }
    }
    let so = chooses(&registry, false, DocChoice::Leading, 4);
    see(&rt, so, "not kept");
    see(
        &rt,
        calls.load(Ordering::SeqCst) == 0x1212_1212,
        "once for each choice that comes to it, in order",
    );
    Ok(())
}

// Answers of rules, and their digits. The first reads: it leaves the choice to others, and its calls are noted as 2.
const DOCUMENTED: [(DocChoice, u64); 3] = [
    (DocChoice::Pass, 2),
    (DocChoice::Trailing, 3),
    (DocChoice::Both, 4),
];

#[test]
fn the_first_answer_of_a_rule_counts_also_for_what_is_dropped(rt: HostRuntime) -> Result<(), Fail> {
    let alloc = rt.alloc();
    let calls = no_calls(alloc)?;
    let mut registry = Registry::new(alloc);
    for (answer, digit) in &DOCUMENTED {
        let rule = noting_rule(alloc, *answer, *digit, &calls)?;
        if let Err((rule, _)) = registry.add_doc(rule) {
            see_added(&rt, registry.add_doc(rule));
        }
    }
    let filter = noting_filter(alloc, false, 1, &calls)?;
    if let Err((filter, _)) = registry.add_filter(filter) {
        see_added(&rt, registry.add_filter(filter));
    }
    let so = chooses(&registry, false, DocChoice::Trailing, 4);
    see(&rt, so, "the second rule's");
    see(
        &rt,
        calls.load(Ordering::SeqCst) == 0x1231_2312_3123,
        "the filter first, and each once for each choice that comes to it",
    );
    Ok(())
}
