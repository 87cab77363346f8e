//! Laws, each called at a chooser and another.

use index_hooks::Registry;
use protoscip::{
    built_has_files, each_option_name_has_parts, each_use_has_a_target, headline,
    indexed_has_no_fault, laws_of_names, listed_unless_memory, one_fault, one_indexing,
    one_listing,
};

#[test]
fn laws_of_indexes(rt: HostRuntime) {
    let registry = Registry::new(rt.alloc());
    headline(&registry);
    each_use_has_a_target();
    each_option_name_has_parts();
    one_fault(&registry, &registry);
    indexed_has_no_fault(&registry, &registry);
    one_indexing(&registry, &registry);
    built_has_files(&registry);
    laws_of_names();
    one_listing();
    listed_unless_memory();
}
