//! A program to copy: it reads an index of any producer, and asks it about a name.
#![tactic(auto)]

use anyhow::Result;
use scip_query::Queries;
use scip_wire::read_index;
use std::alloc::Global;
use std::io::Read;

/// Prints which documents an index has, and what is known of the name at a place.
fn show(rt: &impl Print, alloc: Global, queries: &Queries) -> Result<()> {
    for document in queries.documents() {
        let path = document.relative_path.as_str();
        println!(rt; "{path}")?;
    }
    for text in queries.documentation(alloc, "loan.proto", 5, 7)? {
        println!(rt; "{text}")?;
    }
    Ok(())
}

/// Reads the bytes of an index from standard input.
fn main(rt: HostRuntime) -> Result<()> {
    let alloc = rt.alloc();
    let mut bytes = Vec::new(alloc);
    rt.reader().read_to_end(&mut bytes)?;
    let index = read_index(alloc, &bytes)?;
    let queries = Queries::new(alloc, index)?;
    show(&rt, alloc, &queries)
}
