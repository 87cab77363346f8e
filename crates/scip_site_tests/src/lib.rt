//! Tests of `scip_wire`, `scip_query`, `scip_join`, `scip_pages` and `scip_survey`, and of `scip_site` on files in memory,
//! by their public calls.
#![tactic(auto)]

#[cfg(test)]
mod asked;
#[cfg(test)]
mod calls;
#[cfg(test)]
mod changes;
#[cfg(test)]
mod checks;
#[cfg(test)]
mod columns;
#[cfg(test)]
mod details;
#[cfg(test)]
mod entries;
#[cfg(test)]
mod files;
#[cfg(test)]
mod folders;
#[cfg(test)]
mod fronts;
#[cfg(test)]
mod indexes;
#[cfg(test)]
mod join_rows;
#[cfg(test)]
mod joins;
#[cfg(test)]
mod large;
#[cfg(test)]
mod lookups;
#[cfg(test)]
mod more_rows;
#[cfg(test)]
mod names;
#[cfg(test)]
mod notation;
#[cfg(test)]
mod pages;
#[cfg(test)]
mod paths;
#[cfg(test)]
mod pieces;
#[cfg(test)]
mod refusals;
#[cfg(test)]
mod rows;
#[cfg(test)]
mod snapshot_names;
#[cfg(test)]
mod snapshots;
#[cfg(test)]
mod spellings;
#[cfg(test)]
mod surveys;
#[cfg(test)]
mod urls;
#[cfg(test)]
mod wire_indexes;
#[cfg(test)]
mod writers;
