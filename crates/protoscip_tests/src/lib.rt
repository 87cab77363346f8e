//! Tests of `diagnostics`, `fault_reports`, `scip_build` and `protoscip`, by their public calls.
#![tactic(auto)]

#[cfg(test)]
mod asking;
#[cfg(test)]
mod build_names;
#[cfg(test)]
mod built;
#[cfg(test)]
mod calls;
#[cfg(test)]
mod dumps;
#[cfg(test)]
mod duplicates;
#[cfg(test)]
mod faulty_streams;
#[cfg(test)]
mod findings;
#[cfg(test)]
mod gates;
#[cfg(test)]
mod hints;
#[cfg(test)]
mod hooks;
#[cfg(test)]
mod indexes;
#[cfg(test)]
mod laws;
#[cfg(test)]
mod lines;
#[cfg(test)]
mod names;
#[cfg(test)]
mod option_names;
#[cfg(test)]
mod placing;
#[cfg(test)]
mod plans;
#[cfg(test)]
mod reports;
#[cfg(test)]
mod talks;
#[cfg(test)]
mod uncertain;
#[cfg(test)]
mod unread;
