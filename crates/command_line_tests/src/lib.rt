//! Tests of `command_line`, by its public calls.
#![tactic(auto)]

#[cfg(test)]
mod asked;
#[cfg(test)]
mod help;
#[cfg(test)]
mod options;
#[cfg(test)]
mod refusals;
