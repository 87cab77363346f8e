//! Tests of `option_link`, by its public calls.
#![tactic(auto)]

#[cfg(test)]
mod braces;
#[cfg(test)]
mod brackets;
#[cfg(test)]
mod descriptors;
#[cfg(test)]
mod doubts;
#[cfg(test)]
mod files;
#[cfg(test)]
mod kept;
#[cfg(test)]
mod listed;
#[cfg(test)]
mod packages;
#[cfg(test)]
mod parts;
#[cfg(test)]
mod scopes;
#[cfg(test)]
mod sets;
