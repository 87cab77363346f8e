//! Tests of `proto_options`, by its public calls.
#![tactic(auto)]

#[cfg(test)]
mod aggregates;
#[cfg(test)]
mod elements;
#[cfg(test)]
mod fields;
#[cfg(test)]
mod listed;
#[cfg(test)]
mod messages;
#[cfg(test)]
mod packages;
