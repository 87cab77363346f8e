//! Tests of `programs`, by its public calls, on files in memory.
#![tactic(auto)]

#[cfg(test)]
mod causes;
#[cfg(test)]
mod files;
#[cfg(test)]
mod laws;
#[cfg(test)]
mod lists;
#[cfg(test)]
mod pages;
#[cfg(test)]
mod pipe;
#[cfg(test)]
mod progress;
#[cfg(test)]
mod report;
#[cfg(test)]
mod reports;
#[cfg(test)]
mod runs;
#[cfg(test)]
mod shared;
#[cfg(test)]
mod tree_runs;
#[cfg(test)]
mod well_known;
#[cfg(test)]
mod written;
